ghost use Rattle.std.specs.Prelude.{◌≡◌, ℕ};

use crate::action::Action;

/// What a machine is after a step: it goes on, or is done with an answer.
#[derive(Clone, Copy, Debug)]
pub enum Turn<M, A> {
    Go(M),
    Done(A),
}

/// A call that asks for one action at a time and is told the number that the action gave: the word loaded, the word
/// found by an exchange, the word before an add, and 0 for a store or a drain. An exchange was made exactly where the
/// word found is the one that it asked for.
pub trait Machine: Sized {
    ghost use Rattle.std.specs.Prelude.{ℕ};
    ghost use Rattle.pm_words.specs.declared.action.Action.{Action};
    ghost use Rattle.pm_words.specs.declared.machine.Turn.{Turn};
    ghost use Rattle.pm_words.specs.Turns.{GoesBelow};

    /// What it is done with.
    type Answer;

    /// What its fields keep, such as that the addresses which it names are in range.
    ghost fits: { Self → Type 0 };

    /// The action that it asks for.
    ghost asks: { Self → Action };

    /// What it is once it is told a number.
    ghost turned: { Self → ℕ → Turn Self Self.Answer };

    /// The numbers that it can be told.
    ghost takes: { Self → ℕ → Type 0 };

    /// It asks for no more actions than this.
    ghost left: { Self → ℕ };

    /// The action that it asks for next.
    fn action(&self) -> Action
        requires { fits self.now }
        ensures { result ≡ asks self.now };

    /// Tells it the number that its action gave.
    fn resume(self, got: u64) -> Turn<Self, Self::Answer>
        requires { takes self got }
        ensures turned { result ≡ turned self got }
        ensures fewer { GoesBelow left (left self) result };
}
