ghost use Rattle.std.specs.Prelude.{◌≡◌, ◌+◌, ◌<◌, ◌≤◌, ◌↔◌, IsOk, IfOk, IsErrOf};
ghost use Rattle.pm_words.specs.Layouts.{IsNodeCount, IsSlotCount, IsCallerCount, IsLayout};
ghost use Rattle.pm_words.specs.Locations.{image_parts, start_of, image_words, volatile_words, row_words, node_words};
ghost use Rattle.pm_words.specs.Locations.{leaf_count, kind_words, word_number, address_of, cached_address};
ghost use Rattle.pm_words.specs.Locations.{durable_address, HasWord, HasLocation, Node, Line, Leaf, Cell, Volatile};
ghost use Rattle.pm_words.specs.Locations.{Mark};

use crate::codes::reference::{FORM_4, FORM_16, FORM_48};
use crate::{KEY, LINE_WORDS, LOG_LINES, MOST_NODES};

/// A number of a layout.
#[derive(Clone, Copy, PartialEq, Eq, Debug)]
pub enum Field {
    Nodes,
    Slots,
    Callers,
}

/// The first number that is out of its range.
#[derive(Clone, Copy, PartialEq, Eq, Debug)]
pub struct LayoutFault {
    pub field: Field,
}

/// How many nodes, slots of a node and callers a catalogue has. Tells where each word stands: the number of a word in
/// the image, and its address in the row, which has the volatile words, then the cached twins, then the durable ones.
#[derive(Clone, Copy, PartialEq, Eq, Debug)]
pub struct Layout {
    nodes: u64,
    slots: u64,
    callers: u64,
}

impl Layout {
    /// The layout of 1 to 4096 nodes, an even number of 4 to 64 slots, and 1 to 16 callers.
    pub fn new(nodes: u64, slots: u64, callers: u64) -> Result<Layout, LayoutFault>
        ensures ok { IsOk result ↔ (IsNodeCount nodes × IsSlotCount slots × IsCallerCount callers) }
        ensures made { IfOk result (λ l. l ≡ record { nodes = nodes; slots = slots; callers = callers }) }
        ensures layout { IfOk result IsLayout }

        // The first number out of its range is named.
        ensures bad_nodes { IsErrOf result (record { field = Field.Nodes }) ↔ ¬ IsNodeCount nodes }
        ensures bad_slots { IsErrOf result (record { field = Field.Slots }) ↔ (IsNodeCount nodes ×
            ¬ IsSlotCount slots) }
        ensures bad_callers { IsErrOf result (record { field = Field.Callers })
            ↔ (IsNodeCount nodes × IsSlotCount slots × ¬ IsCallerCount callers) }
    {
        if nodes < 1 || nodes > MOST_NODES {
            return Err(LayoutFault {
                field: Field::Nodes,
            });
        }
        if slots < 4 || slots > 64 || slots % 2 != 0 {
            return Err(LayoutFault {
                field: Field::Slots,
            });
        }
        if callers < 1 || callers > 16 {
            return Err(LayoutFault {
                field: Field::Callers,
            });
        }
        Ok(Layout {
            nodes,
            slots,
            callers,
        })
    }

    /// How many nodes there are.
    pub fn nodes(&self) -> u64
        ensures { result ≡ self.now.nodes }
    {
        self.nodes
    }

    /// How many slots each node has.
    pub fn slots(&self) -> u64
        ensures { result ≡ self.now.slots }
    {
        self.slots
    }

    /// How many callers there are. The updater's party is the next number.
    pub fn callers(&self) -> u64
        ensures { result ≡ self.now.callers }
    {
        self.callers
    }

    /// How many words an image has.
    pub fn image_words(&self) -> u64
        requires { IsLayout self.now }
        ensures words { result ≡ image_words self.now }
        ensures bound { result ≤ 2722352 }
    {
        self.leaves_start() + 392 * self.leaf_count()
    }

    /// The address of an image word's cached twin.
    pub fn cached(&self, word: u64) -> u64
        requires layout { IsLayout self.now }
        requires range { word < image_words self.now }
        ensures address { result ≡ cached_address self.now word }
        ensures within { result < row_words self.now }
    {
        self.volatile_words() + word
    }

    /// The address of an image word's durable twin.
    pub fn durable(&self, word: u64) -> u64
        requires layout { IsLayout self.now }
        requires range { word < image_words self.now }
        ensures address { result ≡ durable_address self.now word }
        ensures within { result < row_words self.now }
    {
        self.volatile_words() + self.image_words() + word
    }

    /// A node's word, as an image word.
    pub fn node_word(&self, node: u64, offset: u64) -> u64
        requires layout { IsLayout self.now }
        requires range { HasWord self.now (Node node offset) }
        ensures word { result ≡ word_number self.now (Node node offset) }
        ensures within { result < image_words self.now }
    {
        16 + node * self.node_words() + offset
    }

    /// A word of a caller's log line, as an image word.
    pub fn line_word(&self, caller: u64, index: u64, offset: u64) -> u64
        requires layout { IsLayout self.now }
        requires range { HasWord self.now (Line caller index offset) }
        ensures word { result ≡ word_number self.now (Line caller index offset) }
        ensures within { result < image_words self.now }
    {
        self.log_start() + (LOG_LINES * caller + index) * LINE_WORDS + offset
    }

    /// A leaf's word, as an image word.
    pub fn leaf_word(&self, number: u64, offset: u64) -> u64
        requires layout { IsLayout self.now }
        requires range { HasWord self.now (Leaf number offset) }
        ensures word { result ≡ word_number self.now (Leaf number offset) }
        ensures within { result < image_words self.now }
    {
        self.leaves_start() + number * LINE_WORDS + offset
    }

    /// A cell's word, as an image word. The kinds 2 to 5 are the cells for 4, 16, 48 and 256 children.
    pub fn cell_word(&self, kind: u64, number: u64, offset: u64) -> u64
        requires layout { IsLayout self.now }
        requires range { HasWord self.now (Cell kind number offset) }
        ensures word { result ≡ word_number self.now (Cell kind number offset) }
        ensures within { result < image_words self.now }
    {
        self.cells_start(kind) + number * kind_words(kind) + offset
    }

    /// The address of a node's volatile word.
    pub fn node_volatile(&self, node: u64, offset: u64) -> u64
        requires layout { IsLayout self.now }
        requires range { HasLocation self.now (Volatile node offset) }
        ensures address { result ≡ address_of self.now (Volatile node offset) }
        ensures within { result < row_words self.now }
    {
        8 + node * 16 + offset
    }

    /// The address of the mark of a leaf (kind 1) or of a cell (kinds 2 to 5).
    pub fn mark(&self, kind: u64, number: u64) -> u64
        requires layout { IsLayout self.now }
        requires range { HasLocation self.now (Mark kind number) }
        ensures address { result ≡ address_of self.now (Mark kind number) }
        ensures within { result < row_words self.now }
    {
        8 + 16 * self.nodes + (kind - 1) * self.leaf_count() + number
    }

    /// The words of one node.
    fn node_words(&self) -> u64
        requires { IsLayout self.now }
        ensures words { result ≡ node_words self.now }
        ensures bound { result ≤ 272 }
    {
        16 + (KEY as u64 + 1) * self.slots
    }

    /// How many leaves there are, and how many cells of each kind.
    pub fn leaf_count(&self) -> u64
        requires { IsLayout self.now }
        ensures count { result ≡ leaf_count self.now }
        ensures bound { result ≤ 4100 }
    {
        self.nodes + 4
    }

    fn log_start(&self) -> u64
        requires { IsLayout self.now }
        ensures start { result ≡ start_of (image_parts self.now) 3 }
        ensures bound { result ≤ 1114128 }
    {
        16 + self.node_words() * self.nodes
    }

    fn leaves_start(&self) -> u64
        requires { IsLayout self.now }
        ensures start { result ≡ start_of (image_parts self.now) 4 }
        ensures bound { result ≤ 1115152 }
    {
        self.log_start() + LOG_LINES * LINE_WORDS * self.callers
    }

    /// Where the cells of a kind start.
    fn cells_start(&self, kind: u64) -> u64
        requires layout { IsLayout self.now }
        requires range { (2 ≤ kind) × (kind ≤ 5) }
        ensures start { result ≡ start_of (image_parts self.now) (3 + kind) }
        ensures bound { result ≤ 1639952 }
    {
        let words_before = match kind {
            FORM_4 => 8,
            FORM_16 => 16,
            FORM_48 => 40,
            _ => 128,
        };
        self.leaves_start() + words_before * self.leaf_count()
    }

    /// The words before the cached twins: the clock's line, the nodes' words and the marks.
    pub(crate) fn volatile_words(&self) -> u64
        requires { IsLayout self.now }
        ensures words { result ≡ volatile_words self.now }
        ensures bound { result ≤ 86044 }
    {
        8 + 16 * self.nodes + 5 * self.leaf_count()
    }
}

/// How many words a cell of this kind has.
pub fn kind_words(kind: u64) -> u64
    requires { (2 ≤ kind) × (kind ≤ 5) }
    ensures words { result ≡ kind_words kind }
    ensures bound { result ≤ 264 }
{
    match kind {
        FORM_4 => 8,
        FORM_16 => 24,
        FORM_48 => 88,
        _ => 264,
    }
}
