//! Rechecks of a part's node: what is called between the two tells whether its version word is still the same.

ghost use Rattle.std.specs.Prelude.{◌≡◌, ◌<◌, IfSome};
ghost use Rattle.recovery.specs.index_core.specs.Lone.{IsQuiet};

use super::calls::Asked::{Del, Get, Part, Put, Turn};
use super::calls::{Asked, Scene, alone, made, run};
use call_stages::Once;
use node_ops::PartWords;
use recovery::index_core::{Core, CoreCall, CoreReply, Whole};
use std::alloc::Global;

/// Begins a recheck by caller 0: whether it did.
fn begin_recheck(core: &mut Core, words: &PartWords) -> bool {
    let layout = core.layout();
    let (node, version) = (words.node, words.version);
    if node >= layout.nodes() || layout.callers() == 0 {
        return false;
    }
    core.start(0, CoreCall::Recheck { node, version }).is_ok()
}

/// The place at which a part's node has the version word still that the part tells, by a whole recheck.
fn place_of(core: &mut Core, words: &PartWords) -> Option<u64> {
    if !begin_recheck(core, words) {
        return None;
    }
    match run(core, 0, 2) {
        Some(CoreReply::Same(Once::Done(same))) => Some(same.place),
        _ => None,
    }
}

/// A part from the name of this number on.
fn part(core: &mut Core, low: u64) -> Option<PartWords>
    requires { IsQuiet core.old }
    ensures { IsQuiet core.new }
{
    match alone(core, Part(low, 4)) {
        Whole::Part(words) => Some(words),
        _ => None,
    }
}

/// Whether a recheck of a part's node tells that all is the same, at the end of the history, behind another call.
fn is_same_behind(core: &mut Core, low: u64, between: Asked) -> Option<bool>
    requires { IsQuiet core.old }
{
    let words = part(core, low)?;
    alone(core, between);
    let place = place_of(core, &words);
    Some(place == Some(core.history().len() as u64))
}

fn is_same(alloc: Global, low: u64, between: Asked) -> Option<bool> {
    let mut core = made(alloc, Scene::new(8, 12, 0))?;
    is_same_behind(&mut core, low, between)
}

/// Twelve names in rising order stand two in a node, but for the last node, which has four: names 8 to 11.
#[test]
fn a_recheck_tells_whether_its_node_was_changed(rt: HostRuntime) {
    let rows = [
        (0, Get(0), true),
        (0, Turn(1), true),
        // on another node, and on its own
        (0, Put(11, 1), true),
        (0, Del(4), true),
        (0, Put(1, 9), false),
        (0, Del(1), false),
        // of a full node, which another name splits
        (8, Get(8), true),
        (8, Put(12, 12), false),
    ];
    for (low, between, same) in rows {
        assert!(rt; is_same(rt.alloc(), low, between) == Some(same));
    }
}
