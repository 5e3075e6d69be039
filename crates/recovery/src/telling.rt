//! The volatile words of a recovered image: they tell its list.

ghost use Rattle.std.specs.Prelude.{◌≡◌, ◌<◌};
ghost use Rattle.pm_words.specs.Rows.{IsRow};
ghost use Rattle.pm_words.specs.Offsets.{next_offset};
ghost use Rattle.index_law.specs.Facts.{list_in, spot_in};
ghost use Rattle.index_core.specs.index_opening_law.specs.Openings.{HaveNoOrders, TellsList};
ghost use Rattle.recovery.specs.Tellings.{IsUntold, KeepsBeside, KeepsButOrders, told_node};

use pm_words::Memory;
use pm_words::codes::permutation;
use pm_words::codes::status::LIVE;
use pm_words::offsets::{node, volatile};

/// Makes the volatile words tell the list that the nodes make: its nodes are LIVE, and the prev of each is the node
/// before it, and no node has a permutation. No other word changes.
pub(crate) fn tell_list(memory: &mut Memory)
    requires untold { IsUntold memory.old.layout memory.old.words }
    ensures layout { memory.new.layout ≡ memory.old.layout }
    ensures tells { TellsList memory.old.layout (list_in memory.old.layout memory.old.words) memory.new.words }
    ensures orders { HaveNoOrders memory.old.layout memory.new.words }
    ensures beside { KeepsBeside memory.old.layout memory.old.words memory.new.words }
    ensures row { IsRow memory.old.layout memory.new.words }
{
    tell_marks(memory);
    tell_orders(memory);
}

/// Makes the nodes of the list LIVE, and the prev of each the node before it.
fn tell_marks(memory: &mut Memory)
    requires untold { IsUntold memory.old.layout memory.old.words }
    ensures layout { memory.new.layout ≡ memory.old.layout }
    ensures tells { TellsList memory.old.layout (list_in memory.old.layout memory.old.words) memory.new.words }
    ensures beside { KeepsBeside memory.old.layout memory.old.words memory.new.words }
    ensures row { IsRow memory.old.layout memory.new.words }
{
    let nodes = memory.layout().nodes();
    let mut node = 0;
    tell_node(memory, node, 0);
    for _position in 0..nodes {
        let next = next_of(memory, node);
        if next == 0 {
            return;
        }
        tell_node(memory, next, node);
        node = next;
    }
}

/// Tells of each node, listed or not, that it has no permutation.
fn tell_orders(memory: &mut Memory)
    ensures layout { memory.new.layout ≡ memory.old.layout }
    ensures orders { HaveNoOrders memory.old.layout memory.new.words }
    ensures beside { KeepsButOrders memory.old.layout memory.old.words memory.new.words }
    ensures row { IsRow memory.old.layout memory.new.words }
{
    let layout = memory.layout();
    for node in 0..layout.nodes() {
        let address = layout.node_volatile(node, volatile::PERMUTATION_VERSION);
        memory.store(address, permutation::NONE);
    }
}

/// Makes the node LIVE, with this prev.
fn tell_node(memory: &mut Memory, node: u64, prev: u64)
    requires node { node < memory.old.layout.nodes }
    ensures { memory.new ≡ told_node memory.old node prev }
{
    let layout = memory.layout();
    memory.store(layout.node_volatile(node, volatile::STATUS), LIVE);
    memory.store(layout.node_volatile(node, volatile::PREV), prev);
}

/// The node to which a node leads; 0 is none.
fn next_of(memory: &Memory, node: u64) -> u64
    requires node { node < memory.now.layout.nodes }
    ensures { result ≡ spot_in memory.now.layout memory.now.words node next_offset }
{
    let layout = memory.layout();
    memory.words()[layout.cached(layout.node_word(node, node::NEXT)) as usize]
}
