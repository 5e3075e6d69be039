ghost use Rattle.std.specs.Prelude.{◌≡◌};
ghost use Rattle.pm_words.specs.declared.layout.Layout.{Layout};
ghost use Rattle.updater.specs.Takings.{taking_asks, took_of};

use pm_words::codes::updater_lock::{TAKEN, UNTAKEN};
use pm_words::offsets::shared::UPDATER;
use pm_words::{Action, Layout, Machine, Turn};

/// How an attempt at the updater lock ended.
#[derive(Clone, Copy, PartialEq, Eq, Debug)]
pub enum Took {
    /// The party has it.
    Taken,
    /// Another party has it: this word was found there.
    Held { word: u64 },
}

/// The exchange that takes the updater lock, if no party has it.
pub fn take_turn() -> Action
    ensures { (layout : Layout) → result ≡ taking_asks layout }
{
    Action::Exchange(UPDATER, UNTAKEN, TAKEN)
}

impl Took {
    /// How the attempt ended whose exchange found this word.
    pub fn of(word: u64) -> Took
        ensures { result ≡ took_of word }
    {
        if word == UNTAKEN {
            Took::Taken
        } else {
            Took::Held { word }
        }
    }
}

/// It takes the updater lock by that exchange, and tells how the attempt ended.
#[derive(Clone, Copy)]
pub struct TakeTurn {
    pub layout: Layout,
}

impl Machine for TakeTurn {
    ghost use Rattle.updater.specs.Takings.{IsTakeTurn, take_asks, take_turned, take_takes, take_left};

    type Answer = Took;

    ghost fits = { IsTakeTurn };

    ghost asks = { take_asks };

    ghost turned = { take_turned };

    ghost takes = { take_takes };

    ghost left = { take_left };

    fn action(&self) -> Action {
        take_turn()
    }

    fn resume(self, got: u64) -> Turn<TakeTurn, Took> {
        Turn::Done(Took::of(got))
    }
}

impl TakeTurn {
    ghost use Rattle.pm_words.specs.Layouts.{IsLayout};
    ghost use Rattle.updater.specs.Takings.{IsTakeTurn, take_from};

    /// An attempt at the updater lock of this layout.
    pub fn new(layout: Layout) -> TakeTurn
        requires { IsLayout layout }
        ensures new { result ≡ take_from layout }
        ensures sound { IsTakeTurn result }
    {
        TakeTurn { layout }
    }
}
