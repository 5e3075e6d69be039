//! Where words stand in an image and in memory, counted by hand.

use pm_words::Layout;
use pm_words::offsets::{leaf, node, volatile};

/// The words of the image and of nodes of two nodes of four slots and one caller.
fn node_words() -> Option<[u64; 7]> {
    let small = Layout::new(2, 4, 1).ok()?;
    Some([
        small.image_words(),
        small.node_word(0, node::VERSION),
        small.node_word(0, node::BITMAP),
        small.node_word(0, node::NEXT),
        small.node_word(0, node::SLOTS),
        small.node_word(0, node::SLOTS + 3),
        small.node_word(1, node::NEXT),
    ])
}

/// Those of the log, of the leaves and of the cells, each time the first and the last among them.
fn other_words() -> Option<[u64; 8]> {
    let small = Layout::new(2, 4, 1).ok()?;
    Some([
        small.line_word(0, 0, 0),
        small.line_word(0, 7, 7),
        small.leaf_word(0, leaf::NODE),
        small.leaf_word(5, 7),
        small.cell_word(2, 0, 0),
        small.cell_word(3, 0, 0),
        small.cell_word(4, 1, 2),
        small.cell_word(5, 5, 263),
    ])
}

/// Its addresses: of volatile words and marks, then of cached and of durable twins.
fn addresses() -> Option<[u64; 6]> {
    let small = Layout::new(2, 4, 1).ok()?;
    Some([
        small.node_volatile(1, volatile::PREV),
        small.mark(1, 0),
        small.mark(5, 5),
        small.cached(0),
        small.durable(0),
        small.durable(2495),
    ])
}

/// The numbers of the format's tables.
#[test]
fn words_of_a_small_layout(rt: HostRuntime) {
    assert!(rt; node_words() == Some([2496, 16, 17, 18, 32, 35, 50]));
    assert!(rt; other_words() == Some([80, 143, 147, 191, 192, 240, 474, 2495]));
    assert!(rt; addresses() == Some([25, 40, 69, 70, 2566, 5061]));
}
