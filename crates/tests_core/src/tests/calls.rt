//! What the tests share: names by their numbers, indexes to begin with, and calls.

ghost use Rattle.std.specs.Prelude.{◌≡◌, ℕ, ◌<◌, ◌≤◌, IfSome, IsTrue};
ghost use Rattle.pm_words.specs.declared.layout.Layout.{Layout as IndexLayout};
ghost use Rattle.recovery.specs.index_core.specs.CoreCalls.{MayStart, most_writes};
ghost use Rattle.recovery.specs.index_core.specs.Indexes.{Index, IsBusy};
ghost use Rattle.recovery.specs.index_core.specs.Lone.{IsQuiet, MayRunAlone};

use cat_key::Name;
use pm_words::{Layout, Steps};
use recovery::index_core::{Core, CoreCall, CoreReply, Stepped, Whole};
use recovery::open_fresh;
use std::alloc::Global;
use std::marker::Brand;
use std::sync::ledger::{Blank, Ledger};

/// How many callers the indexes of these tests have.
const CALLERS: u64 = 4;

/// No call or turn has as many steps.
pub(super) const MANY: u64 = 10_000;

/// No history here is as long.
const LIMIT: u64 = 100_000;

/// A call about the name of a number, or a turn of the updater.
#[derive(Clone, Copy)]
pub(super) enum Asked {
    /// It has this value then.
    Put(u64, u64),
    Get(u64),
    Del(u64),
    /// At most so many names from this one on.
    Part(u64, u64),
    /// It gives merged nodes the stamp 1, and makes those FREE whose stamp is at most this number.
    Turn(u64),
}

/// A name of two bytes. Names rise with their numbers, of which those below 752 are told apart; many of them have one
/// fingerprint, but multiples of eight do not.
pub(super) fn name_of(number: u64) -> Name {
    let bytes = [(0x21 + number / 8 % 94) as u8, (0x21 + number % 8) as u8];
    match Name::read(&bytes) {
        Ok(name) => name,
        Err(_) => unreachable!(),
    }
}

/// The call.
fn call_of(asked: Asked) -> CoreCall
    ensures may { (l : IndexLayout) (party : ℕ) → party < l.callers → MayStart l party result }
    ensures alone { (s : Index) (party : ℕ) → party < s.layout.callers → MayRunAlone s party result }
    ensures writes { most_writes result ≤ 1 }
{
    match asked {
        Asked::Put(number, value) => CoreCall::Put {
            name: name_of(number),
            value,
            limit: LIMIT,
        },
        Asked::Get(number) => CoreCall::Get {
            name: name_of(number),
        },
        Asked::Del(number) => CoreCall::Del {
            name: name_of(number),
            limit: LIMIT,
        },
        Asked::Part(low, count) => CoreCall::Part {
            low: name_of(low),
            count,
        },
        Asked::Turn(release) => CoreCall::Turn { stamp: 1, release },
    }
}

/// A whole call of caller 0, with nothing else in flight. It is answered `Full` where there is no memory.
pub(super) fn alone(core: &mut Core, asked: Asked) -> Whole
    requires { IsQuiet core.old }
    ensures { IsQuiet core.new }
{
    alone_on::<Brand>(core, asked, Blank::new(1))
}

fn alone_on<L: Ledger>(core: &mut Core, asked: Asked, blank: Blank) -> Whole
    requires name { blank.name ≡ L.name }
    requires parts { (blank.parts ≡ L.parts) × (0 < L.parts) }
    requires quiet { IsQuiet core.old }
    ensures { IsQuiet core.new }
{
    let (book, share) = blank.open::<L>();
    let mut steps = Steps::new(book, share);
    let Ok(()) = core.reserve(1) else {
        return Whole::Full;
    };
    if core.layout().callers() == 0 {
        return Whole::Full;
    }
    core.run_alone(0, call_of(asked), &mut steps)
}

/// An index to begin with: how many nodes of four slots it has, how many names are put, each with its number as its
/// value, and which of the first twelve are deleted then, from the last one on, a bit for each; and whether a turn of
/// the updater is made between.
#[derive(Clone, Copy)]
pub(super) struct Scene {
    pub nodes: u64,
    pub names: u64,
    pub without: u64,
    pub turned: bool,
}

impl Scene {
    /// An index of so many nodes, with so many names but for these, without a turn.
    pub(super) fn new(nodes: u64, names: u64, without: u64) -> Scene {
        Scene {
            nodes,
            names,
            without,
            turned: false,
        }
    }
}

/// The index of a scene.
pub(super) fn made(alloc: Global, scene: Scene) -> Option<Core>
    ensures { IfSome result IsQuiet }
{
    let Ok(layout) = Layout::new(scene.nodes, 4, CALLERS) else {
        return None;
    };
    match open_fresh(alloc, layout) {
        Ok(mut core) => {
            fill(&mut core, scene);
            Some(core)
        }
        Err(_) => None,
    }
}

fn fill(core: &mut Core, scene: Scene)
    requires { IsQuiet core.old }
    ensures { IsQuiet core.new }
{
    for number in 0..scene.names {
        alone(core, Asked::Put(number, number));
    }
    if scene.turned {
        alone(core, Asked::Turn(1));
    }
    for other in 0..12 {
        let number = 11 - other;
        if scene.without >> number & 1 == 1 {
            alone(core, Asked::Del(number));
        }
    }
}

/// Begins a call of a caller: whether it did, which it does if that one is idle.
pub(super) fn begin(core: &mut Core, party: u64, asked: Asked) -> bool {
    let Ok(()) = core.reserve(1) else {
        return false;
    };
    if party >= core.layout().callers() {
        return false;
    }
    core.start(party, call_of(asked)).is_ok()
}

/// Whether a party's call is in flight.
fn flies(core: &Core, party: u64) -> bool
    ensures { IsTrue result → IsBusy core.now party }
{
    party <= core.layout().callers() && core.is_busy(party)
}

/// At most so many steps of a party's call, and its reply if that is answered.
pub(super) fn run(core: &mut Core, party: u64, most: u64) -> Option<CoreReply> {
    run_on::<Brand>(core, party, most, Blank::new(1))
}

fn run_on<L: Ledger>(core: &mut Core, party: u64, most: u64, blank: Blank) -> Option<CoreReply>
    requires name { blank.name ≡ L.name }
    requires parts { (blank.parts ≡ L.parts) × (0 < L.parts) }
{
    let (book, share) = blank.open::<L>();
    let mut steps = Steps::new(book, share);
    for _ in 0..most {
        if !flies(core, party) {
            return None;
        }
        if let Stepped::Answered(reply) = core.step(party, &mut steps) {
            return Some(reply);
        }
    }
    None
}
