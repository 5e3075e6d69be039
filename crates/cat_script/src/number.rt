//! Numbers as scripts write them.

ghost use Rattle.std.specs.Prelude.{ℕ, ◌+◌, ◌*◌, ◌^◌, ◌<◌, IfSome, IsNone};
ghost use Rattle.std.specs.Option.{SomeIff};
ghost use Rattle.cat_script.specs.Numbers.{IsNumber, IsUpTo, IsSomeUpTo};

/// The most digits that a number may be written with, leading zeros among them.
const MOST_DIGITS: usize = 20;

/// Reads a text as a number: 1 to 20 decimal digits of a value below 2^64. Leading zeros are accepted. None where it is
/// none.
pub fn read_number(text: &[u8]) -> Option<u64>
    ensures some { IfSome result (λ n. IsNumber text.now n) }
    ensures none { IsNone result → (n : ℕ) → ¬ IsNumber text.now n }
{
    if text.is_empty() || text.len() > MOST_DIGITS {
        return None;
    }
    let mut number: u64 = 0;
    for byte in text {
        if !byte.is_ascii_digit() {
            return None;
        }
        number = with_digit(number, u64::from(*byte - b'0'))?;
    }
    Some(number)
}

/// The number that these digits and one more write.
fn with_digit(number: u64, digit: u64) -> Option<u64>
    ensures { SomeIff result (number * 10 + digit < 2 ^ 64) (number * 10 + digit) }
{
    number.checked_mul(10)?.checked_add(digit)
}

/// Reads a text as a number that is no greater than this; None where it is none.
pub fn number_up_to(text: &[u8], most: u64) -> Option<u64>
    ensures some { IfSome result (IsUpTo most text.now) }
    ensures none { IsNone result → ¬ IsSomeUpTo most text.now }
{
    read_number(text).filter(|number| *number <= most)
}
