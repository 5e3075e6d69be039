//! Where a machine is that fills a leaf or a cell.

ghost use Rattle.std.specs.Prelude.{◌≡◌, ◌≤◌, ◌<◌};
ghost use Rattle.radix_nodes.specs.Fills.{IsFilling, filling_start, filling_offset, filling_asks, filling_next};
ghost use Rattle.pm_words.specs.Fences.{fence_start};
ghost use Rattle.radix_nodes.specs.declared.filling.Filling.TheVariants as Filling;

use pm_words::{Action, Fence, LINE_WORDS};

/// It stores the words of a part one after another, and then makes the part's lines durable.
#[derive(Clone, Copy)]
pub enum Filling {
    /// It stores the word at this offset.
    Store { offset: u64 },
    /// It is at a word of this line.
    Drain { line: u64, fence: Fence },
}

impl Filling {
    /// One that has yet to begin.
    pub(crate) fn new() -> Filling
        ensures { result ≡ filling_start }
    {
        Filling::Store { offset: 0 }
    }

    /// The offset of the word that it is at.
    pub(crate) fn offset(&self, lines: u64) -> u64
        requires here { IsFilling lines self.now }
        requires lines { lines ≤ 33 }
        ensures { result ≡ filling_offset self.now }
    {
        match self {
            Filling::Store { offset } => *offset,
            Filling::Drain { line, fence } => LINE_WORDS * *line + fence.word,
        }
    }

    /// What it asks for, where this is the address of its word, and this is to stand there.
    pub(crate) fn action(&self, address: u64, value: u64) -> Action
        ensures { result ≡ filling_asks address value self.now }
    {
        match self {
            Filling::Store { .. } => Action::Store(address, value),
            Filling::Drain { fence, .. } => fence.action(address),
        }
    }

    /// What it is once it is told a number, or None where all of the part is durable.
    pub(crate) fn next(self, lines: u64, got: u64) -> Option<Filling>
        requires here { IsFilling lines self }
        requires lines { lines ≤ 33 }
        ensures { result ≡ filling_next lines self got }
    {
        match self {
            Filling::Store { offset } => {
                if offset + 1 < LINE_WORDS * lines {
                    return Some(Filling::Store { offset: offset + 1 });
                }
                Some(first_of(0))
            }
            Filling::Drain { line, fence } => match fence.next(got) {
                Some(fence) => Some(Filling::Drain { line, fence }),
                None => {
                    if line + 1 < lines {
                        return Some(first_of(line + 1));
                    }
                    None
                }
            },
        }
    }
}

/// The first word of a line.
fn first_of(line: u64) -> Filling
    ensures { result ≡ Filling.Drain line fence_start }
{
    Filling::Drain {
        line,
        fence: Fence::new(),
    }
}
