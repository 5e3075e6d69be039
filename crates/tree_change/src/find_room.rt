//! Looking for room in a cell, into which a leaf is to come.

ghost use Rattle.std.specs.Prelude.{◌≡◌, ◌<◌, ◌≤◌};

use crate::room::{Places, Room};
use pm_words::codes::reference::KIND;
use pm_words::{Action, Layout, Turn};
use tree_floor::word_of;

/// Looks where a child under a byte comes into a cell of form 4, 16 or 48, which has none there. Nobody may write
/// meanwhile.
#[derive(Clone, Copy)]
pub struct FindRoom {
    pub layout: Layout,
    pub cell: u64,
    pub byte: u64,
    pub places: Places,
}

impl FindRoom {
    ghost use Rattle.std.specs.Prelude.{◌≡◌, ◌<◌, ◌≤◌};
    ghost use Rattle.pm_words.specs.Layouts.{IsLayout};
    ghost use Rattle.tree_law.specs.Words.{kind_of};
    ghost use Rattle.pm_words.specs.Turns.{AdvancesTo};
    ghost use Rattle.tree_floor.specs.Floors.{IsCellOf};
    ghost use Rattle.tree_change.specs.FindRooms.{IsFindRoom, find_room_asks, find_room_starts, find_room_takes};
    ghost use Rattle.tree_change.specs.FindRooms.{find_room_turned};

    /// The look for room in this cell.
    pub fn new(layout: Layout, cell: u64, byte: u64) -> FindRoom
        requires layout { IsLayout layout }
        requires cell { IsCellOf layout cell }
        requires form { kind_of cell ≤ 4 }
        requires byte { byte < 256 }
        ensures start { result ≡ find_room_starts layout cell byte }
        ensures sound { IsFindRoom result }
    {
        FindRoom {
            layout,
            cell,
            byte,
            places: Places::of(cell / KIND),
        }
    }

    /// The action that it asks for next.
    pub fn action(&self) -> Action
        requires { IsFindRoom self.now }
        ensures { result ≡ find_room_asks self.now }
    {
        let layout = self.layout;
        let offset = self.places.offset(self.cell / KIND, self.byte);
        Action::Load(layout.cached(word_of(layout, self.cell, offset)))
    }

    /// Tells it in place the word that it asked for. It goes on, or is done where there is an answer.
    pub fn advance(&mut self, got: u64) -> Option<Room>
        requires { find_room_takes self.old got }
        ensures { AdvancesTo (find_room_turned self.old got) self.new result }
    {
        match self.places.told(self.cell / KIND, got) {
            Turn::Go(places) => {
                self.places = places;
                None
            }
            Turn::Done(room) => Some(room),
        }
    }
}
