//! Filling a leaf.

ghost use Rattle.std.specs.Prelude.{◌≡◌, ◌<◌};

use crate::filling::Filling;
use crate::key::Key;
use cat_key::WORDS;
use pm_words::codes::reference::LEAF;
use pm_words::{Action, Layout, Machine, Turn};

/// Stores the words of a leaf that nothing leads to, and makes them durable.
#[derive(Clone, Copy)]
pub struct FillLeaf {
    pub layout: Layout,
    pub number: u64,
    pub key: Key,
    pub node: u64,
    pub at: Filling,
}

impl Machine for FillLeaf {
    ghost use Rattle.radix_nodes.specs.Fills.{IsFillLeaf, fill_leaf_asks, fill_leaf_turned, fill_leaf_takes};
    ghost use Rattle.radix_nodes.specs.Fills.{fill_leaf_left};

    type Answer = ();

    ghost fits = { IsFillLeaf };

    ghost asks = { fill_leaf_asks };

    ghost turned = { fill_leaf_turned };

    ghost takes = { fill_leaf_takes };

    ghost left = { fill_leaf_left };

    fn action(&self) -> Action {
        let offset = self.at.offset(LEAF);
        let word = self.layout.leaf_word(self.number, offset);
        self.at.action(self.layout.cached(word), self.word(offset))
    }

    fn resume(self, got: u64) -> Turn<FillLeaf, ()> {
        let mut next = self;
        match next.advance(got) {
            None => Turn::Go(next),
            Some(()) => Turn::Done(()),
        }
    }
}

impl FillLeaf {
    ghost use Rattle.std.specs.Prelude.{◌≡◌, ◌<◌, slice_index};
    ghost use Rattle.pm_words.specs.Layouts.{IsLayout};
    ghost use Rattle.pm_words.specs.Turns.{AdvancesTo};
    ghost use Rattle.pm_words.specs.Locations.{leaf_count};
    ghost use Rattle.radix_nodes.specs.Fills.{IsFillLeaf, fill_leaf_start, fill_leaf_takes, fill_leaf_turned};
    ghost use Rattle.radix_nodes.specs.Fills.{leaf_value};

    /// It fills the leaf of this number with a key and its node.
    pub fn new(layout: Layout, number: u64, key: Key, node: u64) -> FillLeaf
        requires layout { IsLayout layout }
        requires number { number < leaf_count layout }
        requires node { node < layout.nodes }
        ensures new { result ≡ fill_leaf_start layout number key node }
        ensures sound { IsFillLeaf result }
    {
        FillLeaf {
            layout,
            number,
            key,
            node,
            at: Filling::new(),
        }
    }

    /// Tells it in place the number that its action gave. It goes on, or is done where there is an answer.
    pub fn advance(&mut self, got: u64) -> Option<()>
        requires { fill_leaf_takes self.old got }
        ensures { AdvancesTo (fill_leaf_turned self.old got) self.new result }
    {
        match self.at.next(1, got) {
            Some(at) => {
                self.at = at;
                None
            }
            None => Some(()),
        }
    }

    /// What is to stand at this offset.
    fn word(&self, offset: u64) -> u64
        requires layout { IsLayout self.now.layout }
        requires node { self.now.node < self.now.layout.nodes }
        ensures { result ≡ leaf_value (slice_index self.now.key) self.now.node offset }
    {
        let at = offset as usize;
        if at < WORDS {
            return self.key[at];
        }
        if at == WORDS { self.node + 1 } else { 0 }
    }
}
