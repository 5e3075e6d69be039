ghost use Rattle.std.specs.Prelude.{◌≡◌, ◌<◌};

use crate::line::{Entry, line_address};
use pm_words::codes::state::OPEN;
use pm_words::offsets::line;
use pm_words::{Action, Fence, LINE_WORDS, Layout, Machine, Turn};

/// It stores what a line is to say, all seven words behind the state, and makes them durable; then the state OPEN, and
/// makes that durable. The last word is to be 0, and an EMPTY line may hold anything there.
#[derive(Clone, Copy)]
pub struct Open {
    pub layout: Layout,
    pub line: u64,
    pub entry: Entry,
    pub at: OpenAt,
}

/// What it does next.
#[derive(Clone, Copy)]
pub enum OpenAt {
    /// It stores the word with this offset.
    Field { offset: u64 },
    FenceFields { fence: Fence },
    State,
    FenceState { fence: Fence },
}

impl Machine for Open {
    ghost use Rattle.smo_log.specs.Opens.{IsOpen, open_asks, open_turned, open_takes, open_left};

    type Answer = ();

    ghost fits = { IsOpen };

    ghost asks = { open_asks };

    ghost turned = { open_turned };

    ghost takes = { open_takes };

    ghost left = { open_left };

    fn action(&self) -> Action {
        match self.at {
            OpenAt::Field { offset } => Action::Store(self.address(offset), self.field(offset)),
            OpenAt::FenceFields { fence } => fence.action(self.address(fence.word)),
            OpenAt::State => Action::Store(self.address(line::STATE), OPEN),
            OpenAt::FenceState { fence } => fence.action(self.address(fence.word)),
        }
    }

    fn resume(self, got: u64) -> Turn<Open, ()> {
        match self.at {
            OpenAt::Field { offset } => {
                if offset + 1 < LINE_WORDS {
                    self.goes_to(OpenAt::Field { offset: offset + 1 })
                } else {
                    self.goes_to(OpenAt::FenceFields {
                        fence: Fence::new(),
                    })
                }
            }
            OpenAt::FenceFields { fence } => match fence.next(got) {
                Some(fence) => self.goes_to(OpenAt::FenceFields { fence }),
                None => self.goes_to(OpenAt::State),
            },
            OpenAt::State => self.goes_to(OpenAt::FenceState {
                fence: Fence::new(),
            }),
            OpenAt::FenceState { fence } => match fence.next(got) {
                Some(fence) => self.goes_to(OpenAt::FenceState { fence }),
                None => Turn::Done(()),
            },
        }
    }
}

impl Open {
    ghost use Rattle.std.specs.Prelude.{◌≡◌, ◌*◌, ◌<◌, ◌≤◌};
    ghost use Rattle.pm_words.specs.Layouts.{IsLayout};
    ghost use Rattle.smo_log.specs.LogLines.{numbered_address, field_of, IsEntryOf};
    ghost use Rattle.smo_log.specs.Opens.{IsOpen, open_from, opens_on};

    /// It opens a taken line so.
    pub fn new(layout: Layout, line: u64, entry: Entry) -> Open
        requires layout { IsLayout layout }
        requires line { line < 8 * layout.callers }
        requires entry { IsEntryOf layout entry }
        ensures new { result ≡ open_from layout line entry }
        ensures sound { IsOpen result }
    {
        Open {
            layout,
            line,
            entry,
            at: OpenAt::Field { offset: line::KIND },
        }
    }

    fn address(&self, offset: u64) -> u64
        requires layout { IsLayout self.now.layout }
        requires line { self.now.line < 8 * self.now.layout.callers }
        requires offset { offset < 8 }
        ensures { result ≡ numbered_address self.now.layout self.now.line offset }
    {
        line_address(&self.layout, self.line, offset)
    }

    /// The word that is to stand at this offset behind the state.
    fn field(&self, offset: u64) -> u64
        ensures { result ≡ field_of self.now.entry offset }
    {
        let Entry {
            kind,
            node,
            anchor,
            left,
        } = self.entry;
        match offset {
            line::KIND => kind,
            line::NODE => node,
            3 => anchor[0],
            4 => anchor[1],
            5 => anchor[2],
            line::LEFT => left,
            _ => 0,
        }
    }

    /// It goes on there.
    fn goes_to(self, at: OpenAt) -> Turn<Open, ()>
        ensures { result ≡ opens_on self at }
    {
        Turn::Go(Open { at, ..self })
    }
}
