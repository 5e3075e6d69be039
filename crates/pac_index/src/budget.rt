//! Budgets of steps, and callers that have none left.

ghost use Rattle.std.specs.Prelude.{◌≡◌, ◌≢◌, MatchBool, Some};
ghost use Rattle.pac_index.specs.declared.shared.Shared.{Shared};
ghost use Rattle.pac_index.specs.Budgets.{Pays};
ghost use Rattle.pac_index.specs.Callers.{IsAtRest, IsCallerOf};

use crate::caller::{Caller, CutCall};

impl Caller {
    /// How many more steps it may make on the words of the index; `None` is no bound.
    pub fn left(&self) -> Option<u64>
        ensures { result ≡ self.now.left }
    {
        self.left
    }

    /// From now on it may make so many steps on the words of the index, or any number of them. It mustn't have a call
    /// or a turn in flight that was cut off.
    pub fn bound(&mut self, left: Option<u64>)
        requires rests { IsAtRest self.old }
        ensures left { self.new ≡ record self.old { left = left } }
        ensures rests { IsAtRest self.new }
        ensures caller { (s : Shared) → IsCallerOf s self.old → IsCallerOf s self.new }
    {
        self.left = left;
    }

    /// The call of it that was cut off behind a step, if one was: of a caller that is at rest, none.
    pub fn cut(&self) -> Option<CutCall>
        ensures { result ≡ self.now.cut }
    {
        self.cut
    }

    /// Whether it has no step left. Then each of its calls is cut off before its first step.
    pub fn is_spent(&self) -> bool
        ensures { MatchBool result (self.now.left ≡ Some 0) (self.now.left ≢ Some 0) }
    {
        self.left == Some(0)
    }
}

/// Pays for a step, if there is one left.
pub(crate) fn pay(left: &mut Option<u64>) -> bool
    ensures { MatchBool result (Pays left.old left.new 0 1) ((left.old ≡ Some 0) × (left.new ≡ left.old)) }
{
    if *left == Some(0) {
        return false;
    }
    pay_one(left);
    true
}

/// Pays for a step where one is left.
pub(crate) fn pay_one(left: &mut Option<u64>)
    requires { left.old ≢ Some 0 }
    ensures { Pays left.old left.new 0 1 }
{
    if let Some(steps) = *left {
        *left = Some(steps - 1);
    }
}
