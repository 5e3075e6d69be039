ghost use Rattle.std.specs.Prelude.{◌≡◌, ◌<◌};

use crate::line::line_address;
use pm_words::codes::state::{EMPTY, READY};
use pm_words::offsets::line;
use pm_words::{Action, Fence, Layout, Machine, Turn};

/// It makes the state READY of an open line durable.
#[derive(Clone, Copy)]
pub struct Ready {
    pub layout: Layout,
    pub line: u64,
    pub at: ReadyAt,
}

/// What it does next.
#[derive(Clone, Copy)]
pub enum ReadyAt {
    State,
    Fence { fence: Fence },
}

impl Machine for Ready {
    ghost use Rattle.smo_log.specs.States.{IsReady, ready_asks, ready_turned, ready_takes, ready_left};

    type Answer = ();

    ghost fits = { IsReady };

    ghost asks = { ready_asks };

    ghost turned = { ready_turned };

    ghost takes = { ready_takes };

    ghost left = { ready_left };

    fn action(&self) -> Action {
        match self.at {
            ReadyAt::State => {
                Action::Store(line_address(&self.layout, self.line, line::STATE), READY)
            }
            ReadyAt::Fence { fence } => {
                fence.action(line_address(&self.layout, self.line, fence.word))
            }
        }
    }

    fn resume(self, got: u64) -> Turn<Ready, ()> {
        match self.at {
            ReadyAt::State => self.goes_to(ReadyAt::Fence {
                fence: Fence::new(),
            }),
            ReadyAt::Fence { fence } => match fence.next(got) {
                Some(fence) => self.goes_to(ReadyAt::Fence { fence }),
                None => Turn::Done(()),
            },
        }
    }
}

impl Ready {
    ghost use Rattle.std.specs.Prelude.{◌≡◌, ◌*◌, ◌<◌};
    ghost use Rattle.pm_words.specs.Layouts.{IsLayout};
    ghost use Rattle.smo_log.specs.States.{IsReady, ready_from, readies_on};

    /// It makes this line, which is open, READY.
    pub fn new(layout: Layout, line: u64) -> Ready
        requires layout { IsLayout layout }
        requires line { line < 8 * layout.callers }
        ensures new { result ≡ ready_from layout line }
        ensures sound { IsReady result }
    {
        Ready {
            layout,
            line,
            at: ReadyAt::State,
        }
    }

    /// It goes on there.
    fn goes_to(self, at: ReadyAt) -> Turn<Ready, ()>
        ensures { result ≡ readies_on self at }
    {
        Turn::Go(Ready { at, ..self })
    }
}

/// It stores the state EMPTY. That is made durable by who takes the line next.
#[derive(Clone, Copy)]
pub struct Clear {
    pub layout: Layout,
    pub line: u64,
}

impl Machine for Clear {
    ghost use Rattle.smo_log.specs.States.{IsClear, clear_asks, clear_turned, clear_takes, clear_left};

    type Answer = ();

    ghost fits = { IsClear };

    ghost asks = { clear_asks };

    ghost turned = { clear_turned };

    ghost takes = { clear_takes };

    ghost left = { clear_left };

    fn action(&self) -> Action {
        Action::Store(line_address(&self.layout, self.line, line::STATE), EMPTY)
    }

    fn resume(self, _got: u64) -> Turn<Clear, ()> {
        Turn::Done(())
    }
}

impl Clear {
    ghost use Rattle.std.specs.Prelude.{◌≡◌, ◌*◌, ◌<◌};
    ghost use Rattle.pm_words.specs.Layouts.{IsLayout};
    ghost use Rattle.smo_log.specs.States.{IsClear, clear_from};

    /// It empties this line.
    pub fn new(layout: Layout, line: u64) -> Clear
        requires layout { IsLayout layout }
        requires line { line < 8 * layout.callers }
        ensures new { result ≡ clear_from layout line }
        ensures sound { IsClear result }
    {
        Clear { layout, line }
    }
}
