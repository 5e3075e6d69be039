//! Cutting a text into lines, and a line into fields.

ghost use Rattle.std.specs.Prelude.{◌≡◌, ◌∷◌, ◌++◌, ◌<◌, [], length, IfSome, IsNone};
ghost use Rattle.report_reader.specs.Fields.{fields_of, fields_behind};
ghost use Rattle.report_reader.specs.Faults.{IsLine};

use memchr::memchr;

/// Splits a text at its first line feed, which is left out; None where it has none.
pub(crate) fn split_line(text: &[u8]) -> Option<(&[u8], &[u8])>
    ensures whole { IfSome result (λ found. text.now ≡ found.0.now ++ 10 ∷ found.1.now) }
    ensures line { IfSome result (λ found. IsLine found.0.now) }
    ensures none { IsNone result → IsLine text.now }
{
    let end = memchr(b'\n', text)?;
    Some((&text[..end], &text[end + 1..]))
}

/// Splits a line into its first field and what follows, which is empty behind the last field and else begins with a
/// space.
pub(crate) fn first_field(line: &[u8]) -> (&[u8], &[u8])
    ensures { fields_of line.now ≡ result.0.now ∷ fields_behind result.1.now }
{
    match memchr(b' ', line) {
        Some(end) => (&line[..end], &line[end..]),
        None => (line, &line[line.len()..]),
    }
}

/// Splits what follows a field into the next field and what follows that; None behind the last field.
pub(crate) fn next_field(rest: &[u8]) -> Option<(&[u8], &[u8])>
    ensures some { IfSome result (λ found. fields_behind rest.now ≡ found.0.now ∷ fields_behind found.1.now) }
    ensures none { IsNone result → fields_behind rest.now ≡ [] }
{
    let (_, line) = rest.split_first()?;
    Some(first_field(line))
}
