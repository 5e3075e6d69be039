//! Counting the children of a cell, of which one is to go.

ghost use Rattle.std.specs.Prelude.{◌≡◌, ◌<◌};

use crate::others::{Counted, Others};
use pm_words::codes::reference::KIND;
use pm_words::{Action, Layout, Turn};
use tree_floor::word_of;

/// Counts the children of a cell beside the one under a byte, up to two. Nobody may write meanwhile.
#[derive(Clone, Copy)]
pub struct Count {
    pub layout: Layout,
    pub cell: u64,
    pub byte: u64,
    pub others: Others,
}

impl Count {
    ghost use Rattle.std.specs.Prelude.{◌≡◌, ◌<◌};
    ghost use Rattle.pm_words.specs.Layouts.{IsLayout};
    ghost use Rattle.pm_words.specs.Turns.{AdvancesTo};
    ghost use Rattle.tree_floor.specs.Floors.{IsCellOf};
    ghost use Rattle.tree_change.specs.Counts.{IsCount, count_asks, count_starts, count_takes, count_turned};

    /// The count for this cell and byte.
    pub fn new(layout: Layout, cell: u64, byte: u64) -> Count
        requires layout { IsLayout layout }
        requires cell { IsCellOf layout cell }
        requires byte { byte < 256 }
        ensures start { result ≡ count_starts layout cell byte }
        ensures sound { IsCount result }
    {
        Count {
            layout,
            cell,
            byte,
            others: Others::new(),
        }
    }

    /// The action that it asks for next.
    pub fn action(&self) -> Action
        requires { IsCount self.now }
        ensures { result ≡ count_asks self.now }
    {
        let layout = self.layout;
        let offset = self.others.offset(self.cell / KIND);
        Action::Load(layout.cached(word_of(layout, self.cell, offset)))
    }

    /// Tells it in place the word that it asked for. It goes on, or is done where there is an answer.
    pub fn advance(&mut self, got: u64) -> Option<Counted>
        requires { count_takes self.old got }
        ensures { AdvancesTo (count_turned self.old got) self.new result }
    {
        match self.others.told(self.cell / KIND, self.byte, got) {
            Turn::Go(others) => {
                self.others = others;
                None
            }
            Turn::Done(counted) => Some(counted),
        }
    }
}
