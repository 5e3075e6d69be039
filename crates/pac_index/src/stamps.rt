//! The stamps of nodes, which tell when they were merged.
ghost use Rattle.std.specs.Prelude.{◌≡◌};
ghost use Rattle.pac_index.specs.Stamps.{SettlesTo};

use pm_words::Memory;
use pm_words::offsets::volatile;

/// Makes each stamp that isn't 0 into 1, the oldest that there is.
pub(crate) fn settle_stamps(memory: &mut Memory)
    ensures layout { memory.new.layout ≡ memory.old.layout }
    ensures settled { SettlesTo memory.old.layout memory.old.words memory.new.words }
{
    let layout = memory.layout();
    for node in 0..layout.nodes() {
        let address = layout.node_volatile(node, volatile::STAMP);
        if memory.words()[address as usize] > 1 {
            memory.store(address, 1);
        }
    }
}
