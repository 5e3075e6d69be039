//! Reports, their text, and the traits of the outside from which texts come and to which they go.
#![tactic(auto)]

pub mod laws;
mod outside;
mod print;
mod report;
mod room;
mod summary;
mod word_line;

pub use outside::counted::Counted;
pub use outside::fault::OutsideFault;
pub use outside::memory::{MemorySink, MemorySource};
pub use outside::memory_shelf::MemoryShelf;
pub use outside::plan::FaultPlan;
pub use outside::shelf::{LoadFault, SaveFault, Shelf};
pub use outside::sink::{Sink, WriteFault, write_whole};
pub use outside::source::{Failed, ReadFault, Source, read_whole};
pub use print::{print_report, print_rounds};
pub use report::{Report, RoundReport};
pub use summary::{Summary, print_summary};
/// There was no memory.
pub use std::alloc::AllocError as NoMemory;
pub use word_line::add_word;
