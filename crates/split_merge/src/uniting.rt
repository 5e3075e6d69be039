//! What a merge is to do, made of the words of both nodes.

ghost use Rattle.std.specs.Prelude.{◌≡◌};

use crate::pairing::Pairs;
use crate::planning::name_or_some;
use data_node::print_at;
use pm_words::codes::kind::MERGE;
use pm_words::offsets::node;
use pm_words::{LINE_WORDS, Layout};
use smo_log::Entry;

/// The words of a node before its slots.
pub const HEAD: usize = 16;

/// The most words that hold the fingerprints of half a node's slots.
pub const OWN_PRINTS: usize = 4;

/// What a merge does: the left node and the right one with their locked words, the line that was taken, the left node's
/// bitmap and the first words of its fingerprints, the words of the right node before its slots, by offset, and which
/// name goes where.
#[derive(Clone, Copy)]
pub struct Union {
    pub layout: Layout,
    pub node: u64,
    pub locked: u64,
    pub right: u64,
    pub right_locked: u64,
    pub line: u64,
    pub own: u64,
    pub prints: [u64; OWN_PRINTS],
    pub head: [u64; HEAD],
    pub pairs: Pairs,
}

impl Union {
    ghost use Rattle.std.specs.Prelude.{◌≡◌, ◌*◌, ◌<◌};
    ghost use Rattle.split_merge.specs.Unions.{IsUnion, joined_print, joined_prints, behind_in, entry_in};

    /// The fingerprint that a slot of the left node is to have: that of the name which goes there, or its own.
    #[tactic(auto, unfolding(crate::specs::Unions::joined_print))]
    fn print(&self, slot: u64) -> u8
        requires sound { IsUnion self.now }
        requires slot { slot < 32 }
        ensures { result ≡ joined_print self.now slot }
    {
        let from = u64::from(self.pairs.from[slot as usize]);
        if from < 64 {
            print_at(self.head[(node::PRINTS + from / 8) as usize], from)
        } else {
            print_at(self.prints[(slot / 8) as usize], slot)
        }
    }

    /// The word of fingerprints that the left node is to have.
    pub(crate) fn prints(&self, word: u64) -> u64
        requires sound { IsUnion self.now }
        requires word { word < 4 }
        ensures { result ≡ joined_prints self.now word }
    {
        let first = LINE_WORDS * word;
        u64::from_le_bytes([
            self.print(first),
            self.print(first + 1),
            self.print(first + 2),
            self.print(first + 3),
            self.print(first + 4),
            self.print(first + 5),
            self.print(first + 6),
            self.print(first + 7),
        ])
    }

    /// The node behind the right one; 0 is none.
    pub(crate) fn behind(&self) -> u64
        requires { IsUnion self.now }
        ensures { result ≡ behind_in self.now }
    {
        self.head[node::NEXT as usize]
    }

    /// What the line is to say.
    pub(crate) fn entry(&self) -> Entry
        requires { IsUnion self.now }
        ensures { result ≡ entry_in self.now }
    {
        Entry {
            kind: MERGE,
            node: self.right,
            anchor: name_or_some(self.head[3], self.head[4], self.head[5]),
            left: self.node,
        }
    }
}
