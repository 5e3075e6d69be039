//! The line of an image word.

ghost use Rattle.std.specs.Prelude.{◌≡◌, ◌++◌, OnOk};
ghost use Rattle.cat_text.specs.WordLines.{word_line};

use crate::NoMemory;
use crate::print::add_number;

/// Adds the line of an image word at the end of a text: its number, a space and its sixteen hex digits, the highest
/// first.
pub fn add_word(text: &mut Vec<u8>, number: u64, word: u64) -> Result<(), NoMemory>
    ensures { OnOk result (text.new.items ≡ text.old.items ++ word_line number word) }
{
    let mut digits = [b'0'; 16];
    // Eight bytes have sixteen digits.
    hex::encode_to_slice(word.to_be_bytes().as_slice(), &mut digits).unwrap();
    add_number(text, number)?;
    text.extend_from_slice(b" ")?;
    text.extend_from_slice(&digits)?;
    text.extend_from_slice(b"\n")
}
