//! Cutting a text into lines, and a line into words.

ghost use Rattle.std.specs.Prelude.{◌≡◌, ◌↔◌, ◌<◌, ◌∷◌, [], length, slice_index, ℕ};
ghost use Rattle.std.specs.Prelude.{IfSome, IfNone, IsNone, IsTrue, true, false, All, EachIndex};
ghost use Rattle.cat_script.specs.Lines.{lines_after, lines_of, without_return, words_of, is_gap, IsLineByte};

use memchr::memchr;

/// Splits a text into its first line and what follows.
pub(crate) fn split_line(text: &[u8]) -> (&[u8], &[u8])
    requires { 0 < length text.now }
    ensures lines { lines_of text.now ≡ result.0.now ∷ lines_of result.1.now }
    ensures shorter { length result.1.now < length text.now }
{
    let (line, rest) = split_feed(text);
    (without_return(line), rest)
}

/// Splits a text at its first line feed, which is left out.
fn split_feed(text: &[u8]) -> (&[u8], &[u8])
    requires { 0 < length text.now }
    ensures lines { lines_after [] text.now ≡ result.0.now ∷ lines_after [] result.1.now }
    ensures shorter { length result.1.now < length text.now }
{
    match memchr(b'\n', text) {
        Some(end) => (&text[..end], &text[end + 1..]),
        None => (text, &text[text.len()..]),
    }
}

/// The line without the carriage return at its end, where it has one there.
fn without_return(line: &[u8]) -> &[u8]
    ensures { result.now ≡ without_return line.now }
{
    match line.strip_suffix(b"\r") {
        Some(front) => front,
        None => line,
    }
}

/// Splits a line into its first word and what follows; None where it has no word.
pub(crate) fn split_word(line: &[u8]) -> Option<(&[u8], &[u8])>
    ensures words { IfSome result (λ found. words_of line.now ≡ found.0.now ∷ words_of found.1.now) }
    ensures shorter { IfSome result (λ found. length found.1.now < length line.now) }
    ensures none { IsNone result → words_of line.now ≡ [] }
{
    let start = first_letter(line)?;
    Some(split_letters(&line[start..]))
}

/// Splits a text that begins with a word into that word and what follows.
fn split_letters(text: &[u8]) -> (&[u8], &[u8])
    requires some { 0 < length text.now }
    requires letter { is_gap (slice_index text.now 0) ≡ false }
    ensures words { words_of text.now ≡ result.0.now ∷ words_of result.1.now }
    ensures shorter { length result.1.now < length text.now }
{
    match first_gap(text) {
        Some(end) => (&text[..end], &text[end..]),
        None => (text, &text[text.len()..]),
    }
}

/// Where the first byte stands that is no gap.
fn first_letter(line: &[u8]) -> Option<usize>
    ensures none { IfNone result (EachIndex line.now (λ k. is_gap (slice_index line.now k) ≡ true)) }
    ensures within { IfSome result (λ at. at < length line.now) }
    ensures before { IfSome result (λ at. (k : ℕ) → k < at → is_gap (slice_index line.now k) ≡ true) }
    ensures here { IfSome result (λ at. is_gap (slice_index line.now at) ≡ false) }
{
    line.iter().position(|byte| !is_gap(*byte))
}

/// Where the first gap stands.
fn first_gap(text: &[u8]) -> Option<usize>
    ensures none { IfNone result (EachIndex text.now (λ k. is_gap (slice_index text.now k) ≡ false)) }
    ensures within { IfSome result (λ at. at < length text.now) }
    ensures before { IfSome result (λ at. (k : ℕ) → k < at → is_gap (slice_index text.now k) ≡ false) }
    ensures here { IfSome result (λ at. is_gap (slice_index text.now at) ≡ true) }
{
    text.iter().position(|byte| is_gap(*byte))
}

/// Whether a byte is a space or a tab.
fn is_gap(byte: u8) -> bool
    ensures { result ≡ is_gap byte }
{
    byte == b' ' || byte == b'\t'
}

/// Whether a line that is no comment may have each of these bytes.
pub(crate) fn is_plain(line: &[u8]) -> bool
    ensures { IsTrue result ↔ All IsLineByte line.now }
{
    line.iter()
        .all(|byte| *byte == b'\t' || (b' '..=b'~').contains(byte))
}
