//! A set of a key that the tree doesn't have.

ghost use Rattle.std.specs.Prelude.{◌≡◌, ◌≢◌, ◌+◌, ◌<◌, ◌≤◌, ◌^◌, slice_index};
ghost use Rattle.radix_nodes.specs.Keys.{key_bytes};
ghost use Rattle.radix_nodes.specs.Cells.{IsReference};
ghost use Rattle.radix_nodes.specs.Making.{pair_of, prefix_word};
ghost use Rattle.tree_change.specs.Begins.{spot_target};

use crate::change::{Change, ChangeAt, Ended, NewCell, Site};
use pm_words::codes::reference::{FORM_256, KIND};
use pm_words::offsets::cell::{FIRST, PLACES};
use radix_nodes::{
    Branch, Cell, ENTRY, FillCell, FillLeaf, Key, byte_set, larger, paired, prefix_of,
};
use tree_change::{FindRoom, Finish, ReadCell, Room, Take, Taken, Target, TargetStore};
use tree_floor::byte_of;
use tree_look::Spot;

impl Change {
    ghost use Rattle.std.specs.Prelude.{◌≡◌, ◌≢◌, ◌≤◌, ◌<◌, ℕ};
    ghost use Rattle.pm_words.specs.Turns.{AdvancesTo};
    ghost use Rattle.pm_words.specs.Layouts.{IsLayout};
    ghost use Rattle.pm_words.specs.Locations.{leaf_count};
    ghost use Rattle.pm_words.specs.declared.machine.Turn.TheVariants as Turn;
    ghost use Rattle.tree_law.specs.Words.{kind_of};
    ghost use Rattle.tree_floor.specs.Floors.{IsCellOf};
    ghost use Rattle.tree_change.specs.Takes.{IsTakenIn};
    ghost use Rattle.tree_update.specs.declared.change.ChangeAt.TheVariants as ChangeAt;
    ghost use Rattle.tree_update.specs.Changes.{change_takes, takes_leaf, leaf_goes, fills_leaf, leaf_filled};
    ghost use Rattle.tree_update.specs.Changes.{finds_room, room_found, reads_cell, wants_cell, takes_cell, cell_goes};
    ghost use Rattle.tree_update.specs.Changes.{fills_cell, IsSite, IsRoomFound};

    /// A mark, as it takes a leaf: with the last one it has it, or there is none.
    pub(crate) fn takes_leaf(&mut self, got: u64) -> Option<Ended>
        requires { change_takes self.old got }
        ensures { (take : Take) (site : Site) → self.old.at ≡ ChangeAt.TakingLeaf take site
            → AdvancesTo (takes_leaf self.old take site got) self.new result }
    {
        let ChangeAt::TakingLeaf { take, site } = &mut self.at else {
            return None;
        };
        let taken = take.advance(got)?;
        let site = *site;
        self.leaf_taken(taken, site)
    }

    /// It has a leaf to fill, or there is none.
    fn leaf_taken(&mut self, taken: Taken, site: Site) -> Option<Ended>
        requires layout { IsLayout self.old.layout }
        requires word { self.old.word ≢ 0 }
        requires most { self.old.word ≤ self.old.layout.nodes }
        requires taken { IsTakenIn self.old.layout taken }
        ensures { AdvancesTo (leaf_goes self.old site (Turn.Done taken)) self.new result }
    {
        match taken {
            Taken::One { number } => {
                let fill = FillLeaf::new(self.layout, number, self.key, self.word - 1);
                self.goes_to(ChangeAt::FillingLeaf { fill, site })
            }
            Taken::Absent => Some(Ended::NoRoom),
        }
    }

    /// An action of the leaf's fill, with the last of which it is filled and durable.
    pub(crate) fn fills_leaf(&mut self, got: u64) -> Option<Ended>
        requires { change_takes self.old got }
        ensures { (fill : FillLeaf) (site : Site) → self.old.at ≡ ChangeAt.FillingLeaf fill site
            → AdvancesTo (fills_leaf self.old fill site got) self.new result }
    {
        let ChangeAt::FillingLeaf { fill, site } = &mut self.at else {
            return None;
        };
        let leaf = fill.number;
        fill.advance(got)?;
        let site = *site;
        self.leaf_filled(leaf, site)
    }

    /// The leaf is filled and durable.
    fn leaf_filled(&mut self, leaf: u64, site: Site) -> Option<Ended>
        requires layout { IsLayout self.old.layout }
        requires leaf { leaf < leaf_count self.old.layout }
        requires site { IsSite self.old.layout self.old.key site }
        ensures { AdvancesTo (leaf_filled self.old leaf site) self.new result }
    {
        match site {
            Site::Under { spot, cell, byte } => {
                if cell / KIND == FORM_256 {
                    let offset = FIRST + byte;
                    return self.finishes(Target::Cell { cell, offset }, KIND + leaf, 0, 0);
                }
                let find = FindRoom::new(self.layout, cell, byte);
                self.goes_to(ChangeAt::FindingRoom { find, spot, leaf })
            }
            Site::Beside {
                spot,
                reference,
                depth,
                byte,
            } => {
                let old = branch(byte, reference);
                let new = branch(byte_of(self.key, depth), KIND + leaf);
                let cell = pair(self.key, depth, old, new);
                self.wants_cell(NewCell {
                    cell,
                    spot,
                    free: 0,
                })
            }
        }
    }

    /// A word of the cell in which it looks for room: with the last one it has found some, or there is none.
    pub(crate) fn finds_room(&mut self, got: u64) -> Option<Ended>
        requires { change_takes self.old got }
        ensures { (find : FindRoom) (spot : Spot) (leaf : ℕ) → self.old.at ≡ ChangeAt.FindingRoom find spot leaf
            → AdvancesTo (finds_room self.old find spot leaf got) self.new result }
    {
        let ChangeAt::FindingRoom { find, spot, leaf } = &mut self.at else {
            return None;
        };
        let looked = *find;
        let room = find.advance(got)?;
        let (spot, leaf) = (*spot, *leaf);
        self.room_found(looked, spot, leaf, room)
    }

    /// The look for room has found that.
    fn room_found(&mut self, find: FindRoom, spot: Spot, leaf: u64, room: Room) -> Option<Ended>
        requires layout { IsLayout self.old.layout }
        requires cell { IsCellOf self.old.layout find.cell }
        requires byte { find.byte < 256 }
        requires leaf { leaf < leaf_count self.old.layout }
        requires form { kind_of find.cell ≤ 4 }
        requires room { IsRoomFound (kind_of find.cell) room }
        ensures { AdvancesTo (room_found self.old find spot leaf room) self.new result }
    {
        let (cell, byte) = (find.cell, find.byte);
        match room {
            Room::Entry { offset } => {
                let word = byte * ENTRY + (KIND + leaf);
                self.finishes(Target::Cell { cell, offset }, word, 0, 0)
            }
            Room::Place { place, index } => {
                let quiet = cell_store(cell, PLACES + place, KIND + leaf);
                let word = byte_set(index, byte % 8, place + 1);
                let switch = cell_store(cell, FIRST + byte / 8, word);
                let finish = Finish::with_quiet(self.layout, quiet, switch);
                self.goes_to(ChangeAt::Finishing { finish })
            }
            Room::Full => {
                let read = ReadCell::new(self.layout, cell);
                self.goes_to(ChangeAt::ReadingCell {
                    read,
                    spot,
                    byte,
                    leaf,
                })
            }
        }
    }

    /// A word of the cell that is full: with the last one it wants a larger one.
    pub(crate) fn reads_cell(&mut self, got: u64) -> Option<Ended>
        requires { change_takes self.old got }
        ensures { (read : ReadCell) (spot : Spot) (byte leaf : ℕ)
            → self.old.at ≡ ChangeAt.ReadingCell read spot byte leaf
            → AdvancesTo (reads_cell self.old read spot byte leaf got) self.new result }
    {
        let ChangeAt::ReadingCell {
            read,
            spot,
            byte,
            leaf,
        } = &mut self.at
        else {
            return None;
        };
        let free = read.reference;
        let cell = read.advance(got)?;
        let (spot, byte, leaf) = (*spot, *byte, *leaf);
        self.wants_cell(NewCell {
            cell: larger(&cell, byte as u8, KIND + leaf),
            spot,
            free,
        })
    }

    /// It takes a cell, which is to have these words.
    fn wants_cell(&mut self, new: NewCell) -> Option<Ended>
        requires layout { IsLayout self.old.layout }
        requires low { 2 ≤ new.cell.kind }
        requires high { new.cell.kind ≤ 5 }
        ensures { AdvancesTo (wants_cell self.old new) self.new result }
    {
        let take = Take::new(self.layout, new.cell.kind);
        self.goes_to(ChangeAt::TakingCell { take, new })
    }

    /// A mark, as it takes a cell: with the last one it has it, or there is none.
    pub(crate) fn takes_cell(&mut self, got: u64) -> Option<Ended>
        requires { change_takes self.old got }
        ensures { (take : Take) (new : NewCell) → self.old.at ≡ ChangeAt.TakingCell take new
            → AdvancesTo (takes_cell self.old take new got) self.new result }
    {
        let ChangeAt::TakingCell { take, new } = &mut self.at else {
            return None;
        };
        let taken = take.advance(got)?;
        let new = *new;
        self.cell_taken(taken, new)
    }

    /// It has a cell to fill, or there is none.
    fn cell_taken(&mut self, taken: Taken, new: NewCell) -> Option<Ended>
        requires layout { IsLayout self.old.layout }
        requires kind { (2 ≤ new.cell.kind) × (new.cell.kind ≤ 5) }
        requires taken { IsTakenIn self.old.layout taken }
        ensures { AdvancesTo (cell_goes self.old new (Turn.Done taken)) self.new result }
    {
        match taken {
            Taken::One { number } => {
                let fill = FillCell::new(self.layout, number, new.cell);
                self.goes_to(ChangeAt::FillingCell {
                    fill,
                    spot: new.spot,
                    free: new.free,
                })
            }
            Taken::Absent => Some(Ended::NoRoom),
        }
    }

    /// An action of the cell's fill, with the last of which it is filled and durable.
    pub(crate) fn fills_cell(&mut self, got: u64) -> Option<Ended>
        requires { change_takes self.old got }
        ensures { (fill : FillCell) (spot : Spot) (free : ℕ) → self.old.at ≡ ChangeAt.FillingCell fill spot free
            → AdvancesTo (fills_cell self.old fill spot free got) self.new result }
    {
        let ChangeAt::FillingCell { fill, spot, free } = &mut self.at else {
            return None;
        };
        let reference = fill.cell.kind * KIND + fill.number;
        fill.advance(got)?;
        let (spot, free) = (*spot, *free);
        self.finishes(spot_target(spot), spot.high + reference, free, 0)
    }
}

/// The cell of form 4 for two children that part at this depth of the key.
fn pair(key: Key, depth: u64, old: Branch, new: Branch) -> Cell
    requires depth { depth < key_bytes }
    requires apart { old.byte ≢ new.byte }
    requires old { IsReference old.reference }
    requires new { IsReference new.reference }
    ensures { result ≡ pair_of depth (prefix_word depth (slice_index key)) old new }
{
    paired(depth, prefix_of(&key, depth), old, new)
}

/// A child of a cell.
fn branch(byte: u64, reference: u64) -> Branch
    requires { byte < 256 }
    ensures { result ≡ record { byte = byte; reference = reference } }
{
    Branch {
        byte: byte as u8,
        reference,
    }
}

/// A store of a word of a cell.
fn cell_store(cell: u64, offset: u64, word: u64) -> TargetStore
    ensures { result ≡ record { target = Target.Cell cell offset; word = word } }
{
    TargetStore {
        target: Target::Cell { cell, offset },
        word,
    }
}

/// Where a spot's word is.
pub(crate) fn spot_target(spot: Spot) -> Target
    ensures { result ≡ spot_target spot }
{
    if spot.cell == 0 {
        return Target::Root;
    }
    Target::Cell {
        cell: spot.cell,
        offset: spot.offset,
    }
}
