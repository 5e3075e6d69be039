//! The way of a key, from the root of the tree to its end.

ghost use Rattle.std.specs.Prelude.{◌≡◌};
ghost use Rattle.layer_map.specs.Keys.{key_number};
ghost use Rattle.tree_look.specs.Depths.{shared_of};
ghost use Rattle.tree_look.specs.Looks.{byte_parted};

use crate::find::{Find, Findings};
use cat_key::WORDS;
use pm_words::codes::reference::{KIND, LEAF};
use pm_words::offsets::cell::{DEPTH, PREFIX};
use pm_words::{Action, Layout};
use radix_nodes::{KEY_BYTES, Key, shared_bytes};
use tree_floor::{KEY_WORDS, ROOT, byte_of, is_prefix, is_same, key_with, word_of};

/// Goes the way of a key from the root to its end, and tells where that is. Nobody may write meanwhile.
#[derive(Clone, Copy)]
pub struct Look {
    pub layout: Layout,
    pub key: Key,
    /// How deep what it comes to is at least.
    pub least: u64,
    /// Where the reference stands to the cell in which that to what it reads stands.
    pub outer: Spot,
    /// Where the reference stands to what it reads.
    pub inner: Spot,
    pub at: LookAt,
}

/// Where a reference stands: in which cell, 0 for the root's word; at which offset; and what the word has above the
/// reference.
#[derive(Clone, Copy)]
pub struct Spot {
    pub cell: u64,
    pub offset: u64,
    pub high: u64,
}

/// The word that it reads next, and what it has read of the leaf or the cell.
#[derive(Clone, Copy)]
pub enum LookAt {
    Root,
    /// A word of a leaf's key, and the words before it.
    Key {
        leaf: u64,
        words: Key,
        word: u64,
    },
    Depth {
        cell: u64,
    },
    /// A word of a cell's prefix, and the words before it.
    Prefix {
        cell: u64,
        depth: u64,
        words: Key,
        word: u64,
    },
    /// A word of a cell, in which it looks for the child.
    Finding {
        cell: u64,
        depth: u64,
        find: Find,
    },
}

/// Where a key's way ends.
#[derive(Clone, Copy)]
pub enum Looked {
    /// At its leaf.
    Key {
        outer: Spot,
        inner: Spot,
        leaf: u64,
    },
    /// At a cell that has nothing under its byte.
    Nothing {
        spot: Spot,
        cell: u64,
        depth: u64,
    },
    /// At another leaf, or a cell, from which it parts at this depth, and the byte that is there at it.
    Parts {
        spot: Spot,
        reference: u64,
        depth: u64,
        byte: u64,
    },
    /// What it read is out of order.
    Wrong,
}

impl Look {
    ghost use Rattle.std.specs.Prelude.{◌≡◌, ◌<◌, ◌^◌};
    ghost use Rattle.radix_nodes.specs.Keys.{key_bytes};
    ghost use Rattle.pm_words.specs.Layouts.{IsLayout};
    ghost use Rattle.pm_words.specs.Turns.{AdvancesTo};
    ghost use Rattle.tree_look.specs.Looks.{IsLook, look_asks, look_starts, look_takes, look_turned, goes_to, lands};
    ghost use Rattle.tree_look.specs.Looks.{parts, has_key, has_key_word, has_depth, has_prefix, has_prefix_word};
    ghost use Rattle.tree_look.specs.Looks.{has_found};

    /// The look for this key.
    pub fn new(layout: Layout, key: Key) -> Look
        requires { IsLayout layout }
        ensures start { result ≡ look_starts layout key }
        ensures sound { IsLook result }
    {
        let root = Spot {
            cell: 0,
            offset: 0,
            high: 0,
        };
        Look {
            layout,
            key,
            least: 0,
            outer: root,
            inner: root,
            at: LookAt::Root,
        }
    }

    /// The action that it asks for next.
    pub fn action(&self) -> Action
        requires { IsLook self.now }
        ensures { result ≡ look_asks self.now }
    {
        let layout = self.layout;
        let word = match self.at {
            LookAt::Root => ROOT,
            LookAt::Key { leaf, word, .. } => layout.leaf_word(leaf, word),
            LookAt::Depth { cell } => word_of(layout, cell, DEPTH),
            LookAt::Prefix { cell, word, .. } => word_of(layout, cell, PREFIX + word),
            LookAt::Finding { cell, depth, find } => {
                let byte = byte_of(self.key, depth);
                word_of(layout, cell, find.offset(cell / KIND, byte))
            }
        };
        Action::Load(layout.cached(word))
    }

    /// Tells it in place the word that it asked for. It goes on, or is done where there is an answer.
    pub fn advance(&mut self, got: u64) -> Option<Looked>
        requires { look_takes self.old got }
        ensures { AdvancesTo (look_turned self.old got) self.new result }
    {
        match self.at {
            LookAt::Root => self.lands(got),
            LookAt::Key { leaf, words, word } => {
                self.has_key_word(leaf, key_with(words, word, got), word + 1)
            }
            LookAt::Depth { cell } => self.has_depth(cell, got),
            LookAt::Prefix {
                cell,
                depth,
                words,
                word,
            } => self.has_prefix_word(cell, depth, key_with(words, word, got), word + 1),
            LookAt::Finding { cell, depth, find } => {
                let byte = byte_of(self.key, depth);
                self.has_found(cell, depth, find.told(cell / KIND, byte, got))
            }
        }
    }

    fn goes_to(&mut self, at: LookAt) -> Option<Looked>
        ensures { AdvancesTo (goes_to self.old at) self.new result }
    {
        self.at = at;
        None
    }

    /// It comes to a reference.
    fn lands(&mut self, reference: u64) -> Option<Looked>
        requires { IsLayout self.old.layout }
        ensures { AdvancesTo (lands self.old reference) self.new result }
    {
        let kind = reference / KIND;
        let number = reference % KIND;
        if number >= self.layout.leaf_count() {
            return Some(Looked::Wrong);
        }
        if kind == LEAF {
            return self.goes_to(LookAt::Key {
                leaf: number,
                words: [0; WORDS],
                word: 0,
            });
        }
        if 2 <= kind && kind <= 5 {
            return self.goes_to(LookAt::Depth { cell: reference });
        }
        Some(Looked::Wrong)
    }

    /// The key isn't that of what it came to.
    fn parts(&mut self, reference: u64, other: Key) -> Option<Looked>
        ensures { AdvancesTo (parts self.old reference other) self.new result }
    {
        let depth = shared(self.key, other);
        let byte = byte_parted(other, depth);
        Some(Looked::Parts {
            spot: self.inner,
            reference,
            depth,
            byte,
        })
    }

    /// It has read so many words of a leaf's key.
    fn has_key_word(&mut self, leaf: u64, words: Key, count: u64) -> Option<Looked>
        requires { leaf < 2 ^ 32 }
        ensures { AdvancesTo (has_key_word self.old leaf words count) self.new result }
    {
        if count == KEY_WORDS {
            return self.has_key(leaf, words);
        }
        self.goes_to(LookAt::Key {
            leaf,
            words,
            word: count,
        })
    }

    fn has_key(&mut self, leaf: u64, other: Key) -> Option<Looked>
        requires { leaf < 2 ^ 32 }
        ensures { AdvancesTo (has_key self.old leaf other) self.new result }
    {
        if is_same(self.key, other) {
            return Some(Looked::Key {
                outer: self.outer,
                inner: self.inner,
                leaf,
            });
        }
        self.parts(KIND + leaf, other)
    }

    /// It has read the depth of a cell.
    fn has_depth(&mut self, cell: u64, depth: u64) -> Option<Looked>
        ensures { AdvancesTo (has_depth self.old cell depth) self.new result }
    {
        if depth < self.least || KEY_BYTES <= depth {
            return Some(Looked::Wrong);
        }
        self.goes_to(LookAt::Prefix {
            cell,
            depth,
            words: [0; WORDS],
            word: 0,
        })
    }

    /// It has read so many words of a cell's prefix.
    fn has_prefix_word(&mut self, cell: u64, depth: u64, words: Key, count: u64) -> Option<Looked>
        requires { depth < key_bytes }
        ensures { AdvancesTo (has_prefix_word self.old cell depth words count) self.new result }
    {
        if count == KEY_WORDS {
            return self.has_prefix(cell, depth, words);
        }
        self.goes_to(LookAt::Prefix {
            cell,
            depth,
            words,
            word: count,
        })
    }

    fn has_prefix(&mut self, cell: u64, depth: u64, prefix: Key) -> Option<Looked>
        requires { depth < key_bytes }
        ensures { AdvancesTo (has_prefix self.old cell depth prefix) self.new result }
    {
        if is_prefix(prefix, depth, self.key) {
            let find = Find::of(cell / KIND);
            return self.goes_to(LookAt::Finding { cell, depth, find });
        }
        self.parts(cell, prefix)
    }

    /// It has read more of a cell.
    fn has_found(&mut self, cell: u64, depth: u64, found: Findings) -> Option<Looked>
        requires layout { IsLayout self.old.layout }
        requires depth { depth < key_bytes }
        ensures { AdvancesTo (has_found self.old cell depth found) self.new result }
    {
        match found {
            Findings::More(find) => self.goes_to(LookAt::Finding { cell, depth, find }),
            Findings::Found {
                offset,
                high,
                reference,
            } => {
                self.least = depth + 1;
                self.outer = self.inner;
                self.inner = Spot { cell, offset, high };
                self.lands(reference)
            }
            Findings::Absent => Some(Looked::Nothing {
                spot: self.inner,
                cell,
                depth,
            }),
        }
    }
}

/// How many first bytes two keys share.
fn shared(one: Key, other: Key) -> u64
    ensures { result ≡ shared_of (key_number one) (key_number other) }
{
    shared_bytes(&one, &other)
}

/// The byte of a key behind so many; 0 behind the last.
fn byte_parted(other: Key, depth: u64) -> u64
    ensures { result ≡ byte_parted (key_number other) depth }
{
    if depth < KEY_BYTES {
        byte_of(other, depth)
    } else {
        0
    }
}
