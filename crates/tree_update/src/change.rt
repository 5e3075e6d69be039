//! Leading one key of the tree to a node, or nowhere: what `Set` and `Unset` are made of.

ghost use Rattle.std.specs.Prelude.{◌≡◌, ◌<◌, ◌≤◌};

use pm_words::offsets::cell::{DEPTH, FIRST};
use pm_words::{Action, Layout, Machine, Turn};
use radix_nodes::{Cell, FillCell, FillLeaf, Key};
use tree_change::{Count, FindRoom, Finish, ReadCell, Take};
use tree_floor::word_of;
use tree_look::{Look, Spot};

/// Sets one key of the tree to a node, or takes it out.
///
/// It goes the key's way to its end. A set of a key that is there stores its leaf's node word. A set of another key
/// fills a leaf that is free, and where there is no room for it in the cell at the end of the way, a cell that is free,
/// a larger one or one of two children; then it stores the reference by which the leaf is reached. An unset takes the
/// leaf out of its cell, or puts the one other child in the place of the cell. Everything is durable before the store
/// by which the layer changes, and that store is before the change is done.
#[derive(Clone, Copy)]
pub struct Change {
    pub layout: Layout,
    pub key: Key,
    /// The node word to be stored: the node and one, or 0 where the key is to go.
    pub word: u64,
    pub at: ChangeAt,
}

/// What a change does next.
#[derive(Clone, Copy)]
pub enum ChangeAt {
    /// It goes the key's way.
    Looking {
        look: Look,
    },
    /// It takes a leaf for the key.
    TakingLeaf {
        take: Take,
        site: Site,
    },
    /// It fills that.
    FillingLeaf {
        fill: FillLeaf,
        site: Site,
    },
    /// It looks for room for the leaf in the cell at the end of the way, whose reference stands at the spot.
    FindingRoom {
        find: FindRoom,
        spot: Spot,
        leaf: u64,
    },
    /// There is none; it reads the cell, of which it makes a larger one.
    ReadingCell {
        read: ReadCell,
        spot: Spot,
        byte: u64,
        leaf: u64,
    },
    /// It takes a cell.
    TakingCell {
        take: Take,
        new: NewCell,
    },
    /// It fills that. Its reference comes to the spot then, and what `free` leads to is free, if it isn't 0.
    FillingCell {
        fill: FillCell,
        spot: Spot,
        free: u64,
    },
    /// An unset: it reads the depth of the leaf's cell.
    ReadingDepth {
        leaf: u64,
        outer: Spot,
        inner: Spot,
    },
    /// It counts the cell's other children.
    Counting {
        count: Count,
        leaf: u64,
        outer: Spot,
        inner: Spot,
    },
    /// It reads the byte's word of the cell's index.
    ReadingIndex {
        cell: u64,
        byte: u64,
        leaf: u64,
    },
    /// It makes the store by which the layer changes.
    Finishing {
        finish: Finish,
    },
}

/// Where a new leaf comes.
#[derive(Clone, Copy)]
pub enum Site {
    /// Into this cell, which has nothing under the byte, and whose reference stands at the spot.
    Under {
        spot: Spot,
        cell: u64,
        byte: u64,
    },
    /// Beside the leaf or cell whose reference stands at the spot, and which has this byte at the depth at which the
    /// key parts from it.
    Beside {
        spot: Spot,
        reference: u64,
        depth: u64,
        byte: u64,
    },
}

/// A cell that is to be filled, where its reference comes then, and the reference of the one in whose place it comes,
/// or 0.
#[derive(Clone, Copy)]
pub struct NewCell {
    pub cell: Cell,
    pub spot: Spot,
    pub free: u64,
}

/// How a change has ended.
#[derive(Clone, Copy)]
pub enum Ended {
    /// The key leads where it was to lead.
    Made,
    /// No leaf is free, or no cell of the form that is wanted; the layer is as it was.
    NoRoom,
    /// What it read is out of order; nothing has changed.
    Wrong,
}

impl Machine for Change {
    ghost use Rattle.tree_update.specs.Changes.{IsChange, change_asks, change_turned, change_takes, change_left};

    type Answer = Ended;

    ghost fits = { IsChange };

    ghost asks = { change_asks };

    ghost turned = { change_turned };

    ghost takes = { change_takes };

    ghost left = { change_left };

    fn action(&self) -> Action {
        let layout = self.layout;
        match &self.at {
            ChangeAt::Looking { look } => look.action(),
            ChangeAt::TakingLeaf { take, .. } | ChangeAt::TakingCell { take, .. } => take.action(),
            ChangeAt::FillingLeaf { fill, .. } => fill.action(),
            ChangeAt::FindingRoom { find, .. } => find.action(),
            ChangeAt::ReadingCell { read, .. } => read.action(),
            ChangeAt::FillingCell { fill, .. } => fill.action(),
            ChangeAt::ReadingDepth { inner, .. } => {
                Action::Load(layout.cached(word_of(layout, inner.cell, DEPTH)))
            }
            ChangeAt::Counting { count, .. } => count.action(),
            ChangeAt::ReadingIndex { cell, byte, .. } => {
                Action::Load(layout.cached(word_of(layout, *cell, FIRST + *byte / 8)))
            }
            ChangeAt::Finishing { finish } => finish.action(),
        }
    }

    fn resume(self, got: u64) -> Turn<Change, Ended> {
        let mut next = self;
        match next.advance(got) {
            None => Turn::Go(next),
            Some(ended) => Turn::Done(ended),
        }
    }
}

impl Change {
    ghost use Rattle.std.specs.Prelude.{◌≡◌, ◌≤◌, ◌<◌, ◌^◌};
    ghost use Rattle.pm_words.specs.Turns.{AdvancesTo};
    ghost use Rattle.pm_words.specs.Layouts.{IsLayout};
    ghost use Rattle.tree_update.specs.Changes.{IsChange, change_starts, change_takes, change_turned, change_to};

    /// The change that leads the key to this node word: a node and one, or 0, which takes the key out.
    pub fn new(layout: Layout, key: Key, word: u64) -> Change
        requires layout { IsLayout layout }
        requires word { word ≤ layout.nodes }
        ensures start { result ≡ change_starts layout key word }
        ensures sound { IsChange result }
    {
        Change {
            layout,
            key,
            word,
            at: ChangeAt::Looking {
                look: Look::new(layout, key),
            },
        }
    }

    /// Tells it in place the number that its action gave. It goes on, or is done where there is an answer.
    pub fn advance(&mut self, got: u64) -> Option<Ended>
        requires { change_takes self.old got }
        ensures { AdvancesTo (change_turned self.old got) self.new result }
    {
        match &mut self.at {
            ChangeAt::Looking { .. } => self.looks(got),
            ChangeAt::TakingLeaf { .. } => self.takes_leaf(got),
            ChangeAt::FillingLeaf { .. } => self.fills_leaf(got),
            ChangeAt::FindingRoom { .. } => self.finds_room(got),
            ChangeAt::ReadingCell { .. } => self.reads_cell(got),
            ChangeAt::TakingCell { .. } => self.takes_cell(got),
            ChangeAt::FillingCell { .. } => self.fills_cell(got),
            ChangeAt::ReadingDepth { leaf, outer, inner } => {
                let (leaf, outer, inner) = (*leaf, *outer, *inner);
                self.reads_depth(leaf, outer, inner, got)
            }
            ChangeAt::Counting { .. } => self.counts(got),
            ChangeAt::ReadingIndex { cell, byte, leaf } => {
                let (cell, byte, leaf) = (*cell, *byte, *leaf);
                self.reads_index(cell, byte, leaf, got)
            }
            ChangeAt::Finishing { finish } => finish.advance(got).map(|()| Ended::Made),
        }
    }

    /// It goes on there. A new state clears the room of a cell behind it, so while a change stays in one state, it
    /// changes that in place.
    pub(crate) fn goes_to(&mut self, at: ChangeAt) -> Option<Ended>
        ensures { AdvancesTo (change_to self.old at) self.new result }
    {
        self.at = at;
        None
    }
}
