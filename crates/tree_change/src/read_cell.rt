//! Reading a cell whole, to be grown.

ghost use Rattle.std.specs.Prelude.{◌≡◌, ◌<◌, ◌≤◌};
ghost use Rattle.pm_words.specs.Locations.{kind_words};

use pm_words::codes::reference::KIND;
use pm_words::{Action, Layout, kind_words};
use radix_nodes::{CELL_WORDS, Cell};
use tree_floor::word_of;

/// Reads the words of a cell, one after another. Nobody may write meanwhile.
#[derive(Clone, Copy)]
pub struct ReadCell {
    pub layout: Layout,
    /// The cell's reference.
    pub reference: u64,
    /// What was read so far, with zeros behind it.
    pub cell: Cell,
    /// The word that it reads next.
    pub offset: u64,
}

impl ReadCell {
    ghost use Rattle.std.specs.Prelude.{◌≡◌, ◌<◌};
    ghost use Rattle.pm_words.specs.Layouts.{IsLayout};
    ghost use Rattle.pm_words.specs.Turns.{AdvancesTo};
    ghost use Rattle.tree_floor.specs.Floors.{IsCellOf};
    ghost use Rattle.tree_change.specs.Reads.{IsReadCell, read_asks, read_starts, read_takes, read_turned};

    /// It reads this cell.
    pub fn new(layout: Layout, reference: u64) -> ReadCell
        requires layout { IsLayout layout }
        requires cell { IsCellOf layout reference }
        ensures start { result ≡ read_starts layout reference }
        ensures sound { IsReadCell result }
    {
        let cell = Cell {
            kind: reference / KIND,
            words: [0; CELL_WORDS],
        };
        ReadCell {
            layout,
            reference,
            cell,
            offset: 0,
        }
    }

    /// The action that it asks for next.
    pub fn action(&self) -> Action
        requires { IsReadCell self.now }
        ensures { result ≡ read_asks self.now }
    {
        let layout = self.layout;
        Action::Load(layout.cached(word_of(layout, self.reference, self.offset)))
    }

    /// Tells it in place the word that it asked for. It goes on, or is done where there is an answer.
    pub fn advance(&mut self, got: u64) -> Option<Cell>
        requires { read_takes self.old got }
        ensures { AdvancesTo (read_turned self.old got) self.new result }
    {
        let all = kind_words(self.reference / KIND);
        self.cell.words[self.offset as usize] = got;
        if self.offset + 1 < all {
            self.offset += 1;
            return None;
        }
        Some(self.cell)
    }
}
