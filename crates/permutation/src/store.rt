//! A permutation is stored by who holds its node.

use crate::words::PERMUTATION_WORDS;
use pm_words::offsets::volatile;
use pm_words::{Action, Layout, Machine, Turn};
use version_lock::freed_of;

/// It stores the permutation of a node, which its party holds: the eight words, and then, as the version at which it
/// was made, the word that the unlock of the node will store.
#[derive(Clone, Copy)]
pub struct StorePermutation {
    pub layout: Layout,
    pub node: u64,
    /// The version word by which the party holds the node.
    pub locked: u64,
    pub words: [u64; PERMUTATION_WORDS],
    /// How many words it has stored.
    pub stored: u64,
}

impl Machine for StorePermutation {
    ghost use Rattle.permutation.specs.Stores.{IsStore, store_asks, store_turned, store_takes, store_left};

    type Answer = ();

    ghost fits = { IsStore };

    ghost asks = { store_asks };

    ghost turned = { store_turned };

    ghost takes = { store_takes };

    ghost left = { store_left };

    fn action(&self) -> Action {
        if self.stored < PERMUTATION_WORDS as u64 {
            let address = self
                .layout
                .node_volatile(self.node, volatile::PERMUTATION + self.stored);
            return Action::Store(address, self.words[self.stored as usize]);
        }
        let address = self
            .layout
            .node_volatile(self.node, volatile::PERMUTATION_VERSION);
        Action::Store(address, freed_of(self.locked))
    }

    fn resume(self, _got: u64) -> Turn<StorePermutation, ()> {
        if self.stored < PERMUTATION_WORDS as u64 {
            return Turn::Go(StorePermutation {
                stored: self.stored + 1,
                ..self
            });
        }
        Turn::Done(())
    }
}

impl StorePermutation {
    ghost use Rattle.std.specs.Prelude.{◌≡◌, ◌<◌};
    ghost use Rattle.pm_words.specs.Layouts.{IsLayout};
    ghost use Rattle.version_lock.specs.Versions.{IsLockWord};
    ghost use Rattle.permutation.specs.Stores.{IsStore, store_from};

    /// It stores this permutation of this node, which is held by this version word.
    pub fn new(
        layout: Layout,
        node: u64,
        locked: u64,
        words: [u64; PERMUTATION_WORDS],
    ) -> StorePermutation
        requires layout { IsLayout layout }
        requires node { node < layout.nodes }
        requires lock { IsLockWord locked }
        ensures new { result ≡ store_from layout node locked words }
        ensures sound { IsStore result }
    {
        StorePermutation {
            layout,
            node,
            locked,
            words,
            stored: 0,
        }
    }
}
