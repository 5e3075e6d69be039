ghost use Rattle.std.specs.Prelude.{◌≡◌, ◌≤◌};

use crate::taking::{Took, take_turn};
use crate::terms::{Terms, Turned};
use crate::work::Work;
use pm_words::{Action, Layout, Machine, Memory, Steps, Turn};
use std::sync::ledger::Ledger;

/// A whole turn of the updater: it takes the updater lock, if no party has it, and works under it.
#[derive(Clone, Copy)]
pub enum MakeTurn {
    /// It is to take the lock for a turn of these terms.
    Taking { terms: Terms },
    Working { work: Work },
}

/// What a whole turn is answered.
#[derive(Clone, Copy, PartialEq, Eq, Debug)]
pub enum TurnReply {
    Turned(Turned),
    /// Another party has the updater lock: this word was found there.
    Held { word: u64 },
}

impl Machine for MakeTurn {
    ghost use Rattle.updater.specs.Makings.{IsMaking, making_asks, making_turned, making_takes, making_left};

    type Answer = TurnReply;

    ghost fits = { IsMaking };

    ghost asks = { making_asks };

    ghost turned = { making_turned };

    ghost takes = { making_takes };

    ghost left = { making_left };

    fn action(&self) -> Action {
        match self {
            MakeTurn::Taking { .. } => take_turn(),
            MakeTurn::Working { work } => work.action(),
        }
    }

    fn resume(self, got: u64) -> Turn<MakeTurn, TurnReply> {
        let mut next = self;
        match next.advance(got) {
            None => Turn::Go(next),
            Some(answer) => Turn::Done(answer),
        }
    }
}

impl MakeTurn {
    ghost use Rattle.pm_words.specs.Layouts.{IsLayout};
    ghost use Rattle.pm_words.specs.Turns.{GoesBelow};
    ghost use Rattle.pm_words.specs.Turns.{AdvancesTo};
    ghost use Rattle.machine_runs.specs.Runs.{IsOnRun, MayGo};
    ghost use Rattle.updater.specs.Makings.{IsMaking, making_from, making_asks, making_left, making_takes};
    ghost use Rattle.updater.specs.Makings.{making_turned};

    /// A turn with this stamp and release, in the generation of this run.
    pub fn new(layout: Layout, generation: u64, stamp: u64, release: u64) -> MakeTurn
        requires layout { IsLayout layout }
        requires stamp { 1 ≤ stamp }
        ensures new { result ≡ making_from layout generation stamp release }
        ensures sound { IsMaking result }
    {
        MakeTurn::Taking {
            terms: Terms {
                layout,
                generation,
                stamp,
                release,
            },
        }
    }

    /// Where it goes over nodes, it loads the status of one after another in a loop, with nothing between. So a turn
    /// that is alone needn't find out at each node what to do. `steps` counts the events.
    pub fn passes<L: Ledger>(&mut self, memory: &mut Memory, steps: &mut Steps<L>)
        requires { MayGo making_asks making_turned making_left making_takes memory.old.layout memory.old.words
            self.old }
        ensures { IsOnRun making_asks making_turned making_left memory.old memory.new self.old self.new steps.old
            steps.new }
    {
        if let MakeTurn::Working { work } = self {
            work.passes(memory, steps);
        }
    }

    /// Tells it in place the number that its action gave. It goes on, or is done where there is an answer.
    pub fn advance(&mut self, got: u64) -> Option<TurnReply>
        requires { making_takes self.old got }
        ensures turned { AdvancesTo (making_turned self.old got) self.new result }
        ensures fewer { GoesBelow making_left (making_left self.old) (making_turned self.old got) }
    {
        match self {
            MakeTurn::Taking { terms } => {
                let terms = *terms;
                match Took::of(got) {
                    Took::Held { word } => return Some(TurnReply::Held { word }),
                    Took::Taken => {
                        *self = MakeTurn::Working {
                            work: Work::new(
                                terms.layout,
                                terms.generation,
                                terms.stamp,
                                terms.release,
                            ),
                        }
                    }
                }
                None
            }
            MakeTurn::Working { work } => work.advance(got).map(TurnReply::Turned),
        }
    }
}
