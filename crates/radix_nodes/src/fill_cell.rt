//! Filling a cell.

ghost use Rattle.std.specs.Prelude.{◌≡◌, ◌≤◌};
ghost use Rattle.radix_nodes.specs.Fills.{lines_of};

use crate::cell::Cell;
use crate::filling::Filling;
use pm_words::codes::reference::{FORM_4, FORM_16, FORM_48};
use pm_words::{Action, Layout, Machine, Turn};

/// Stores the words of a cell that nothing leads to, and makes them durable.
#[derive(Clone, Copy)]
pub struct FillCell {
    pub layout: Layout,
    pub number: u64,
    pub cell: Cell,
    pub at: Filling,
}

impl Machine for FillCell {
    ghost use Rattle.radix_nodes.specs.Fills.{IsFillCell, fill_cell_asks, fill_cell_turned, fill_cell_takes};
    ghost use Rattle.radix_nodes.specs.Fills.{fill_cell_left};

    type Answer = ();

    ghost fits = { IsFillCell };

    ghost asks = { fill_cell_asks };

    ghost turned = { fill_cell_turned };

    ghost takes = { fill_cell_takes };

    ghost left = { fill_cell_left };

    fn action(&self) -> Action {
        let kind = self.cell.kind;
        let offset = self.at.offset(lines_of(kind));
        let word = self.layout.cell_word(kind, self.number, offset);
        self.at
            .action(self.layout.cached(word), self.cell.word(offset))
    }

    fn resume(self, got: u64) -> Turn<FillCell, ()> {
        let mut next = self;
        match next.advance(got) {
            None => Turn::Go(next),
            Some(()) => Turn::Done(()),
        }
    }
}

impl FillCell {
    ghost use Rattle.std.specs.Prelude.{◌≡◌, ◌≤◌, ◌<◌};
    ghost use Rattle.pm_words.specs.Layouts.{IsLayout};
    ghost use Rattle.pm_words.specs.Turns.{AdvancesTo};
    ghost use Rattle.pm_words.specs.Locations.{leaf_count};
    ghost use Rattle.radix_nodes.specs.Fills.{IsFillCell, fill_cell_start, fill_cell_takes, fill_cell_turned};

    /// It fills the cell of this number and of this cell's kind with these words.
    pub fn new(layout: Layout, number: u64, cell: Cell) -> FillCell
        requires layout { IsLayout layout }
        requires number { number < leaf_count layout }
        requires kind { (2 ≤ cell.kind) × (cell.kind ≤ 5) }
        ensures new { result ≡ fill_cell_start layout number cell }
        ensures sound { IsFillCell result }
    {
        FillCell {
            layout,
            number,
            cell,
            at: Filling::new(),
        }
    }

    /// Tells it in place the number that its action gave. It goes on, or is done where there is an answer.
    pub fn advance(&mut self, got: u64) -> Option<()>
        requires { fill_cell_takes self.old got }
        ensures { AdvancesTo (fill_cell_turned self.old got) self.new result }
    {
        match self.at.next(lines_of(self.cell.kind), got) {
            Some(at) => {
                self.at = at;
                None
            }
            None => Some(()),
        }
    }
}

/// How many lines a cell has.
fn lines_of(kind: u64) -> u64
    ensures lines { result ≡ lines_of kind }
    ensures few { result ≤ 33 }
{
    match kind {
        FORM_4 => 1,
        FORM_16 => 3,
        FORM_48 => 11,
        _ => 33,
    }
}
