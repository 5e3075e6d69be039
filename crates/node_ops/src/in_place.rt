//! A machine that is told its numbers by value, told one in place.

ghost use Rattle.pm_words.specs.Turns.{AdvancesTo, GoesBelow};

use pm_words::{Machine, Turn};

/// Tells a machine in place the number that its action gave. It goes on, or is done where there is an answer.
pub(crate) fn tell<M: Machine + Copy>(machine: &mut M, got: u64) -> Option<M::Answer>
    requires { M.takes machine.old got }
    ensures turned { AdvancesTo (M.turned machine.old got) machine.new result }
    ensures fewer { GoesBelow M.left (M.left machine.old) (M.turned machine.old got) }
{
    match machine.resume(got) {
        Turn::Go(next) => {
            *machine = next;
            None
        }
        Turn::Done(answer) => Some(answer),
    }
}
