//! Reading single fields.

ghost use Rattle.std.specs.Prelude.{◌≡◌, ◌≢◌, ◌<◌, ◌^◌, ℕ, IfSome, IsNone, IsTrue, ◌↔◌, List, decimal, length, get_or};
ghost use Rattle.std.specs.Str.{bytes_eq};
ghost use Rattle.cat_key.specs.Names.{IsName};
ghost use Rattle.cat_text.specs.ReportLines.{place_field};

use cat_key::Name;
use cat_script::read_number;

/// Whether a field is this word.
pub(crate) fn is_word(field: &[u8], word: &str) -> bool
    ensures { IsTrue result ↔ (field.now ≡ word.now) }
{
    field == word.as_bytes()
}

/// Reads a field as a number without leading zeros; None where it is none.
pub(crate) fn read_decimal(field: &[u8]) -> Option<u64>
    ensures some { IfSome result (λ n. (n < 2 ^ 64) × (field.now ≡ decimal n)) }
    ensures none { IsNone result → (n : ℕ) → n < 2 ^ 64 → field.now ≢ decimal n }
{
    if has_leading_zero(field) {
        return None;
    }
    read_number(field)
}

/// Whether a field has a zero first and more behind it.
fn has_leading_zero(field: &[u8]) -> bool
    ensures { IsTrue result ↔ ((1 < length field.now) × (get_or field.now 0 0 ≡ 48)) }
{
    field.len() > 1 && field[0] == b'0'
}

/// Reads a field as a place; None where it is none.
pub(crate) fn read_place(field: &[u8]) -> Option<u64>
    ensures some { IfSome result (λ n. (n < 2 ^ 64) × (field.now ≡ place_field n)) }
    ensures none { IsNone result → (n : ℕ) → n < 2 ^ 64 → field.now ≢ place_field n }
{
    read_decimal(field.strip_prefix(b"@")?)
}

/// Reads a field as a name; None where it is none.
pub(crate) fn read_name(field: &[u8]) -> Option<Name>
    ensures some { IfSome result (λ name. IsName name × (field.now ≡ name)) }
    ensures none { IsNone result → (name : List ℕ) → IsName name → field.now ≢ name }
{
    Name::read(field).ok()
}
