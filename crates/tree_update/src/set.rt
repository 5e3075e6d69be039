//! Sets and unsets: a change to a node, and a change to none.

ghost use Rattle.std.specs.Prelude.{◌≡◌, ◌≢◌, ◌^◌, ◌<◌, ◌+◌};

use crate::change::{Change, Ended};
use pm_words::{Action, Layout, Machine, Turn};
use radix_nodes::Key;

/// Sets a key of the tree to a node. The holder of the updater lock alone runs it.
///
/// Where the layer has at most as many keys as there are nodes, a leaf and a cell of each form are free.
#[derive(Clone, Copy)]
pub struct Set {
    pub change: Change,
}

impl Machine for Set {
    ghost use Rattle.tree_update.specs.Sets.{IsSet, set_asks, set_resumed, set_takes, set_left};

    type Answer = ();

    ghost fits = { IsSet };

    ghost asks = { set_asks };

    ghost turned = { set_resumed };

    ghost takes = { set_takes };

    ghost left = { set_left };

    fn action(&self) -> Action {
        self.change.action()
    }

    fn resume(self, got: u64) -> Turn<Set, ()> {
        match self.change.resume(got) {
            Turn::Go(change) => Turn::Go(Set { change }),
            Turn::Done(_) => Turn::Done(()),
        }
    }
}

impl Set {
    ghost use Rattle.pm_words.specs.Layouts.{IsLayout};
    ghost use Rattle.pm_words.specs.Turns.{AdvancesTo};
    ghost use Rattle.tree_update.specs.Sets.{IsSet, set_starts, set_takes, set_turned};

    /// The set of the key to the node.
    pub fn new(layout: Layout, key: Key, node: u64) -> Set
        requires layout { IsLayout layout }
        requires node { node < layout.nodes }
        ensures start { result ≡ set_starts layout key node }
        ensures sound { IsSet result }
    {
        Set {
            change: Change::new(layout, key, node + 1),
        }
    }

    /// Tells it in place the number that its action gave. It goes on, or is done where there is an answer.
    pub fn advance(&mut self, got: u64) -> Option<Ended>
        requires { set_takes self.old got }
        ensures { AdvancesTo (set_turned self.old got) self.new result }
    {
        self.change.advance(got)
    }
}

/// Takes a key out of the tree, if it is there. The holder of the updater lock alone runs it.
///
/// The zero key is never taken out.
#[derive(Clone, Copy)]
pub struct Unset {
    pub change: Change,
}

impl Machine for Unset {
    ghost use Rattle.tree_update.specs.Sets.{IsUnset, unset_asks, unset_resumed, unset_takes, unset_left};

    type Answer = ();

    ghost fits = { IsUnset };

    ghost asks = { unset_asks };

    ghost turned = { unset_resumed };

    ghost takes = { unset_takes };

    ghost left = { unset_left };

    fn action(&self) -> Action {
        self.change.action()
    }

    fn resume(self, got: u64) -> Turn<Unset, ()> {
        match self.change.resume(got) {
            Turn::Go(change) => Turn::Go(Unset { change }),
            Turn::Done(_) => Turn::Done(()),
        }
    }
}

impl Unset {
    ghost use Rattle.std.specs.Prelude.{◌≢◌};
    ghost use Rattle.pm_words.specs.Layouts.{IsLayout};
    ghost use Rattle.pm_words.specs.Turns.{AdvancesTo};
    ghost use Rattle.layer_map.specs.Keys.{key_number};
    ghost use Rattle.tree_update.specs.Sets.{IsUnset, unset_starts, unset_takes, unset_turned};

    /// The unset of the key, which isn't zero.
    pub fn new(layout: Layout, key: Key) -> Unset
        requires layout { IsLayout layout }
        requires key { key_number key ≢ 0 }
        ensures start { result ≡ unset_starts layout key }
        ensures sound { IsUnset result }
    {
        Unset {
            change: Change::new(layout, key, 0),
        }
    }

    /// Tells it in place the number that its action gave. It goes on, or is done where there is an answer.
    pub fn advance(&mut self, got: u64) -> Option<Ended>
        requires { unset_takes self.old got }
        ensures { AdvancesTo (unset_turned self.old got) self.new result }
    {
        self.change.advance(got)
    }
}
