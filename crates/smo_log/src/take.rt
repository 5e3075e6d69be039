ghost use Rattle.std.specs.Prelude.{◌≡◌, ◌<◌};

use crate::line::line_address;
use pm_words::codes::state::EMPTY;
use pm_words::offsets::line::STATE;
use pm_words::{Action, Fence, LOG_LINES, Layout, Machine, Turn};

/// How the look for a line ended.
#[derive(Clone, Copy, PartialEq, Eq, Debug)]
pub enum Taken {
    /// The first line of the caller that was EMPTY, which is durable.
    Line { line: u64 },
    /// None of the caller's lines was EMPTY.
    Full,
}

/// It loads the states of a caller's lines, takes the first that is EMPTY, and makes that line durable: else a crash
/// could leave the words of a new change behind the state of an old one.
#[derive(Clone, Copy)]
pub struct Take {
    pub layout: Layout,
    pub caller: u64,
    /// Which of the caller's lines it is at.
    pub index: u64,
    pub at: TakeAt,
}

/// What it does next.
#[derive(Clone, Copy)]
pub enum TakeAt {
    State,
    Fence { fence: Fence },
}

impl Machine for Take {
    ghost use Rattle.smo_log.specs.Takes.{IsTake, take_asks, take_turned, take_takes, take_left};

    type Answer = Taken;

    ghost fits = { IsTake };

    ghost asks = { take_asks };

    ghost turned = { take_turned };

    ghost takes = { take_takes };

    ghost left = { take_left };

    fn action(&self) -> Action {
        let line = self.line();
        match self.at {
            TakeAt::State => Action::Load(line_address(&self.layout, line, STATE)),
            TakeAt::Fence { fence } => {
                fence.action(line_address(&self.layout, line, fence.word))
            }
        }
    }

    fn resume(self, got: u64) -> Turn<Take, Taken> {
        match self.at {
            TakeAt::State => self.saw_state(got),
            TakeAt::Fence { fence } => match fence.next(got) {
                Some(fence) => self.goes_to(TakeAt::Fence { fence }),
                None => Turn::Done(Taken::Line { line: self.line() }),
            },
        }
    }
}

impl Take {
    ghost use Rattle.std.specs.Prelude.{◌≡◌, ◌+◌, ◌*◌, ◌<◌, ◌≤◌};
    ghost use Rattle.pm_words.specs.Layouts.{IsLayout};
    ghost use Rattle.smo_log.specs.Takes.{IsTake, take_from, take_line, takes_on, saw_state};

    /// A look for a line of this caller.
    pub fn new(layout: Layout, caller: u64) -> Take
        requires layout { IsLayout layout }
        requires caller { caller < layout.callers }
        ensures new { result ≡ take_from layout caller }
        ensures sound { IsTake result }
    {
        Take {
            layout,
            caller,
            index: 0,
            at: TakeAt::State,
        }
    }

    /// The number of the line that it is at.
    fn line(&self) -> u64
        requires { IsTake self.now }
        ensures { result ≡ take_line self.now }
    {
        LOG_LINES * self.caller + self.index
    }

    /// It goes on there.
    fn goes_to(self, at: TakeAt) -> Turn<Take, Taken>
        ensures { result ≡ takes_on self at }
    {
        Turn::Go(Take { at, ..self })
    }

    fn saw_state(self, state: u64) -> Turn<Take, Taken>
        requires { self.index < LOG_LINES }
        ensures { result ≡ saw_state self state }
    {
        if state == EMPTY {
            return self.goes_to(TakeAt::Fence {
                fence: Fence::new(),
            });
        }
        let index = self.index + 1;
        if index < LOG_LINES {
            Turn::Go(Take { index, ..self })
        } else {
            Turn::Done(Taken::Full)
        }
    }
}
