//! A caller whose calls no other one disturbs, and the updater before it, on an index of one node of four slots.

ghost use Rattle.pm_words.specs.Layouts.{IsLayout};

use super::calls::{FULL, emptied, puts, tries, turns};
use super::fresh::{fresh, take_last};
use super::gates::Watch;
use pac_index::Shared;
use pm_words::{Layout, NoMemory};
use std::alloc::Global;
use std::sync::Wait;
use std::sync::atomic::Ordering;
use std::test::Fail;

/// What three turns, six whole puts, five tries and a whole turn come to on a fresh index, one after another.
type Seen = ([u64; 3], [u64; 6], Option<[u64; 9]>, u64);

fn seen<R: Wait>(rt: &R, alloc: Global, layout: Layout, gate: &Watch) -> Result<Seen, NoMemory>
    requires layout { IsLayout layout }
{
    let core = fresh(alloc, layout)?;
    let (shared, mut callers) = Shared::new(alloc, core)?;
    let mut updater = take_last(&shared, &mut callers);
    let mut caller = take_last(&shared, &mut callers);
    let epochs = turns(&shared, &mut updater);
    let ends = puts(rt, &shared, &mut caller, gate);
    let tries = tries(&shared, &mut caller);
    Ok((epochs, ends, tries, emptied(rt, &shared, &mut updater)))
}

/// Each turn advances the epoch where nobody pins it. The fifth name finds no room; the tries behind are of the first
/// name, put at place 5 and deleted at 6. No line waits for the whole turn.
///
/// A gate is told of all steps of a whole put, over its four tries and a turn behind each. For the fifth name a try takes
/// 5 steps for the floor, 6 for the walk and 31 for the rest, and a turn with nothing to do takes the lock, loads the
/// states of 8 lines and the status of the node twice, and gives the lock back. The put behind it, of the first name
/// again, takes 5, 6 and 34 steps. A put that ends full is a call as any other: that one's index is 5.
#[test]
fn a_caller_alone_is_answered(rt: HostRuntime) -> Result<(), Fail> {
    let gate = Watch::new();
    let (epochs, ends, tries, emptied) = seen(&rt, rt.alloc(), Layout::new(1, 4, 1)?, &gate)?;
    assert!(rt; (epochs, ends, emptied) == ([4, 5, 6], [0, 1, 2, 3, FULL, 4], 0));
    assert!(rt; tries == Some([7, 5, 1, 6, 1, 6, 6, 1, 6]));
    let (tried, turned) = (5 + 6 + 31, 1 + 8 + 1 + 1 + 1);
    let steps = [&gate.steps, &gate.past, &gate.astray].map(|count| count.load(Ordering::SeqCst));
    assert!(rt; steps == [5 + 6 + 34, 4 * (tried + turned), 0]);
    Ok(())
}
