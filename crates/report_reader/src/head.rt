//! Reading the lines of calls, and the last lines of rounds.

ghost use Rattle.std.specs.Prelude.{◌≡◌, ◌≢◌, ◌∷◌, ◌<◌, ◌^◌, ℕ, Bool, IfSome, IsNone, codes, decimal};
ghost use Rattle.cat_text.specs.Reports.{end_word};
ghost use Rattle.report_reader.specs.Fields.{fields_of, fields_behind};
ghost use Rattle.report_reader.specs.Heads.{SaysHead};
ghost use Rattle.report_reader.specs.declared.head.Head.{Head};

use crate::answer::{Answer, only_field, read_answer, suits};
use crate::call::read_op;
use crate::cut::{first_field, next_field};
use crate::field::{is_word, read_decimal};
use cat_history::Op;

/// How many callers there may be.
const CALLERS: u64 = 16;

/// What a line says that isn't that of a scan's part.
#[derive(Clone, Copy)]
pub(crate) enum Head {
    /// A call, and what its line tells of the answer.
    Call {
        caller: u64,
        op: Op,
        answer: Answer,
    },
    /// The end of a round.
    Last {
        crashed: bool,
        writes: u64,
        names: u64,
    },
}

/// Reads a line of a call, or the last line of a round; None where it is neither.
pub(crate) fn read_head(line: &[u8]) -> Option<Head>
    ensures some { IfSome result (SaysHead (fields_of line.now)) }
    ensures none { IsNone result → (head : Head) → ¬ SaysHead (fields_of line.now) head }
{
    let (first, rest) = first_field(line);
    if is_word(first, "join") {
        return read_last(false, rest);
    }
    if is_word(first, "crash") {
        return read_last(true, rest);
    }
    read_call(first, rest)
}

/// Reads what follows the first word of a round's last line.
fn read_last(crashed: bool, rest: &[u8]) -> Option<Head>
    ensures some { IfSome result (SaysHead (end_word crashed ∷ fields_behind rest.now)) }
    ensures none { IsNone result → (head : Head) → ¬ SaysHead (end_word crashed ∷ fields_behind rest.now) head }
{
    let (first, rest) = next_field(rest)?;
    let (word, rest) = next_field(rest)?;
    let last = only_field(rest)?;
    if !is_word(word, "names") {
        return None;
    }
    let writes = read_decimal(first)?;
    let names = read_decimal(last)?;
    Some(Head::Last {
        crashed,
        writes,
        names,
    })
}

/// Reads a call by the first field of its line and what follows that.
fn read_call(first: &[u8], rest: &[u8]) -> Option<Head>
    requires join { first.now ≢ codes "join" }
    requires crash { first.now ≢ codes "crash" }
    ensures some { IfSome result (SaysHead (first.now ∷ fields_behind rest.now)) }
    ensures none { IsNone result → (head : Head) → ¬ SaysHead (first.now ∷ fields_behind rest.now) head }
{
    let caller = read_caller(first)?;
    let (verb, rest) = next_field(rest)?;
    let Some((op, rest)) = read_op(verb, rest) else {
        return None;
    };
    let (arrow, rest) = next_field(rest)?;
    let (first, rest) = next_field(rest)?;
    if !is_word(arrow, "->") {
        return None;
    }
    let answer = read_answer(first, rest)?;
    if !suits(&op, answer) {
        return None;
    }
    Some(Head::Call { caller, op, answer })
}

/// Reads a field as the number of a caller.
fn read_caller(field: &[u8]) -> Option<u64>
    ensures some { IfSome result (λ caller. (caller < 16) × (field.now ≡ decimal caller)) }
    ensures none { IsNone result → (caller : ℕ) → caller < 16 → field.now ≢ decimal caller }
{
    let caller = read_decimal(field)?;
    if caller >= CALLERS {
        return None;
    }
    Some(caller)
}
