ghost use Rattle.std.specs.Prelude.{◌≡◌, ◌<◌};

use crate::line::{Entry, line_address};
use pm_words::{Action, Layout, Machine, Turn};

/// The words of a line that say something: all but the last.
const SAID: u64 = 7;

/// What stood in a line.
#[derive(Clone, Copy, PartialEq, Eq, Debug)]
pub struct LineSeen {
    pub state: u64,
    pub entry: Entry,
}

/// It loads what a line says, word by word.
#[derive(Clone, Copy)]
pub struct ReadLine {
    pub layout: Layout,
    pub line: u64,
    /// The offset of the word that it loads next.
    pub offset: u64,
    /// The words before that, as they were loaded.
    pub words: [u64; 7],
}

impl Machine for ReadLine {
    ghost use Rattle.smo_log.specs.Reads.{IsRead, read_asks, read_turned, read_takes, read_left};

    type Answer = LineSeen;

    ghost fits = { IsRead };

    ghost asks = { read_asks };

    ghost turned = { read_turned };

    ghost takes = { read_takes };

    ghost left = { read_left };

    fn action(&self) -> Action {
        Action::Load(line_address(&self.layout, self.line, self.offset))
    }

    fn resume(self, got: u64) -> Turn<ReadLine, LineSeen> {
        let mut words = self.words;
        words[self.offset as usize] = got;
        let offset = self.offset + 1;
        if offset < SAID {
            return Turn::Go(ReadLine {
                offset,
                words,
                ..self
            });
        }
        Turn::Done(LineSeen {
            state: words[0],
            entry: Entry {
                kind: words[1],
                node: words[2],
                anchor: [words[3], words[4], words[5]],
                left: words[6],
            },
        })
    }
}

impl ReadLine {
    ghost use Rattle.std.specs.Prelude.{◌≡◌, ◌*◌, ◌<◌};
    ghost use Rattle.pm_words.specs.Layouts.{IsLayout};
    ghost use Rattle.smo_log.specs.Reads.{IsRead, read_from};

    /// It reads this line.
    pub fn new(layout: Layout, line: u64) -> ReadLine
        requires layout { IsLayout layout }
        requires line { line < 8 * layout.callers }
        ensures new { result ≡ read_from layout line }
        ensures sound { IsRead result }
    {
        ReadLine {
            layout,
            line,
            offset: 0,
            words: [0; 7],
        }
    }
}
