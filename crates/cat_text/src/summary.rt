//! The line that sums up a round.

ghost use Rattle.std.specs.Prelude.{◌≡◌, IfOk};
ghost use Rattle.cat_text.specs.Summaries.{summary_line};

use crate::NoMemory;
use crate::print::add_field;
use std::alloc::Global;

/// What a round comes to in numbers.
#[derive(Clone, Copy)]
pub struct Summary {
    /// How many calls it has.
    pub calls: u64,
    /// How many of them are puts.
    pub puts: u64,
    /// How many of them are deletes.
    pub dels: u64,
    /// How many names there are at its end.
    pub names: u64,
    /// The sum of their numbers.
    pub sum: u64,
    /// How many calls were answered that there is no room.
    pub full: u64,
}

/// The line of a summary.
///
/// The error is that there was no memory for it.
pub fn print_summary(alloc: Global, summary: &Summary) -> Result<Vec<u8>, NoMemory>
    ensures { IfOk result (λ text. text.items ≡ summary_line summary.now) }
{
    let mut text = Vec::new(alloc);
    add_field(&mut text, b"calls ", summary.calls)?;
    add_field(&mut text, b" puts ", summary.puts)?;
    add_field(&mut text, b" dels ", summary.dels)?;
    add_field(&mut text, b" names ", summary.names)?;
    add_field(&mut text, b" sum ", summary.sum)?;
    add_field(&mut text, b" full ", summary.full)?;
    text.extend_from_slice(b"\n")?;
    Ok(text)
}
