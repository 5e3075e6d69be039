//! Reading what a call was answered.

ghost use Rattle.std.specs.Prelude.{◌≡◌, ◌≢◌, ◌∷◌, ◌↔◌, [], List, ℕ, Bool, Option, IfSome, IsNone, IsTrue, codes};
ghost use Rattle.cat_history.specs.Rounds.{IsPut, IsScan, IsWriter};
ghost use Rattle.cat_history.specs.declared.record.CutMark.{CutMark};
ghost use Rattle.cat_text.specs.ReportGrammar.{IsGet};
ghost use Rattle.cat_text.specs.ReportLines.{cut_fields};
ghost use Rattle.cat_text.specs.Reports.{old_text};
ghost use Rattle.report_reader.specs.Answers.{SaysAnswer, SaysMark, Suits, SuitsMark, IsOld};
ghost use Rattle.report_reader.specs.Fields.{fields_behind};
ghost use Rattle.report_reader.specs.declared.answer.Answer.{Answer};

use crate::cut::next_field;
use crate::field::{is_word, read_decimal, read_place};
use cat_history::{CutMark, Op};

/// What the line of a call tells of its answer: all of it but the parts of a scan.
#[derive(Clone, Copy)]
pub(crate) enum Answer {
    /// The number that a name had, and the call's place.
    Old { old: Option<u64>, place: u64 },
    /// How many parts a scan has, and whether it was cut off after them.
    Parts { count: u64, cut: bool },
    Full,
    Spent { clock: u64 },
    Cut { mark: CutMark },
    Unstarted,
}

/// Reads an answer by its first field and what follows that; None where they are none.
pub(crate) fn read_answer(first: &[u8], rest: &[u8]) -> Option<Answer>
    ensures some { IfSome result (SaysAnswer (first.now ∷ fields_behind rest.now)) }
    ensures none { IsNone result → (a : Answer) → ¬ SaysAnswer (first.now ∷ fields_behind rest.now) a }
{
    if is_word(first, "unstarted") {
        return alone(rest, Answer::Unstarted);
    }
    if is_word(first, "full") {
        return alone(rest, Answer::Full);
    }
    if is_word(first, "spent") {
        return read_spent(rest);
    }
    if is_word(first, "cut") {
        return read_cut(rest);
    }
    read_old_or_parts(first, rest)
}

/// This answer, where nothing follows.
fn alone(rest: &[u8], answer: Answer) -> Option<Answer>
    ensures some { IfSome result (λ told. (told ≡ answer) × (fields_behind rest.now ≡ [])) }
    ensures none { IsNone result → fields_behind rest.now ≢ [] }
{
    match next_field(rest) {
        Some(_) => None,
        None => Some(answer),
    }
}

/// The only field that follows; None where there is none or more.
pub(crate) fn only_field(rest: &[u8]) -> Option<&[u8]>
    ensures some { IfSome result (λ field. fields_behind rest.now ≡ field.now ∷ []) }
    ensures none { IsNone result → (field : List ℕ) → fields_behind rest.now ≢ field ∷ [] }
{
    let (field, rest) = next_field(rest)?;
    match next_field(rest) {
        Some(_) => None,
        None => Some(field),
    }
}

/// Reads what follows `spent`.
fn read_spent(rest: &[u8]) -> Option<Answer>
    ensures some { IfSome result (SaysAnswer (codes "spent" ∷ fields_behind rest.now)) }
    ensures none { IsNone result → (a : Answer) → ¬ SaysAnswer (codes "spent" ∷ fields_behind rest.now) a }
{
    let field = only_field(rest)?;
    let clock = read_decimal(field)?;
    Some(Answer::Spent { clock })
}

/// Reads what follows `cut`.
fn read_cut(rest: &[u8]) -> Option<Answer>
    ensures some { IfSome result (SaysAnswer (codes "cut" ∷ fields_behind rest.now)) }
    ensures none { IsNone result → (a : Answer) → ¬ SaysAnswer (codes "cut" ∷ fields_behind rest.now) a }
{
    let mark = read_mark(rest)?;
    Some(Answer::Cut { mark })
}

/// Reads what follows `cut` as what is said of the call.
fn read_mark(rest: &[u8]) -> Option<CutMark>
    ensures some { IfSome result (SaysMark (fields_behind rest.now)) }
    ensures none { IsNone result → (mark : CutMark) → ¬ SaysMark (fields_behind rest.now) mark }
{
    let Some((field, rest)) = next_field(rest) else {
        return Some(CutMark::Read);
    };
    if next_field(rest).is_some() {
        return None;
    }
    if is_word(field, "found") {
        return Some(CutMark::Found);
    }
    if is_word(field, "lost") {
        return Some(CutMark::Lost);
    }
    let place = read_place(field)?;
    Some(CutMark::At { place })
}

/// Reads an answer that begins with a number, or with none.
fn read_old_or_parts(first: &[u8], rest: &[u8]) -> Option<Answer>
    requires unstarted { first.now ≢ codes "unstarted" }
    requires full { first.now ≢ codes "full" }
    requires spent { first.now ≢ codes "spent" }
    requires cut { first.now ≢ codes "cut" }
    ensures some { IfSome result (SaysAnswer (first.now ∷ fields_behind rest.now)) }
    ensures none { IsNone result → (a : Answer) → ¬ SaysAnswer (first.now ∷ fields_behind rest.now) a }
{
    let (field, rest) = next_field(rest)?;
    if is_word(field, "parts") {
        return read_parts(first, rest);
    }
    read_old(first, field, rest)
}

/// Reads an answer of a number of parts.
fn read_parts(first: &[u8], rest: &[u8]) -> Option<Answer>
    ensures some { IfSome result (SaysAnswer (first.now ∷ codes "parts" ∷ fields_behind rest.now)) }
    ensures none { IsNone result →
        (a : Answer) → ¬ SaysAnswer (first.now ∷ codes "parts" ∷ fields_behind rest.now) a }
{
    let cut = read_end(rest)?;
    let count = read_decimal(first)?;
    Some(Answer::Parts { count, cut })
}

/// Whether `cut` follows, and no more; None where anything else follows.
fn read_end(rest: &[u8]) -> Option<bool>
    ensures some { IfSome result (λ cut. codes "parts" ∷ fields_behind rest.now ≡ cut_fields cut) }
    ensures none { IsNone result → (cut : Bool) → codes "parts" ∷ fields_behind rest.now ≢ cut_fields cut }
{
    let Some((field, rest)) = next_field(rest) else {
        return Some(false);
    };
    if next_field(rest).is_some() || !is_word(field, "cut") {
        return None;
    }
    Some(true)
}

/// Reads an answer of a number, or of none, and a place.
fn read_old(first: &[u8], field: &[u8], rest: &[u8]) -> Option<Answer>
    requires unstarted { first.now ≢ codes "unstarted" }
    requires full { first.now ≢ codes "full" }
    requires spent { first.now ≢ codes "spent" }
    requires cut { first.now ≢ codes "cut" }
    requires parts { field.now ≢ codes "parts" }
    ensures some { IfSome result (SaysAnswer (first.now ∷ field.now ∷ fields_behind rest.now)) }
    ensures none { IsNone result →
        (a : Answer) → ¬ SaysAnswer (first.now ∷ field.now ∷ fields_behind rest.now) a }
{
    if next_field(rest).is_some() {
        return None;
    }
    let old = read_number_or_none(first)?;
    let place = read_place(field)?;
    Some(Answer::Old { old, place })
}

/// Reads a field as a number, or as `none`; None where it is neither.
fn read_number_or_none(field: &[u8]) -> Option<Option<u64>>
    ensures some { IfSome result (λ old. IsOld old × (field.now ≡ old_text old)) }
    ensures none { IsNone result → (old : Option ℕ) → IsOld old → field.now ≢ old_text old }
{
    if is_word(field, "none") {
        return Some(None);
    }
    let number = read_decimal(field)?;
    Some(Some(number))
}

/// Whether a call may be answered so.
pub(crate) fn suits(op: &Op, answer: Answer) -> bool
    ensures { IsTrue result ↔ Suits op.now answer }
{
    match answer {
        Answer::Old { .. } => !is_scan(op),
        Answer::Parts { .. } => is_scan(op),
        Answer::Full => is_put(op),
        Answer::Spent { .. } => is_writer(op),
        Answer::Cut { mark } => suits_mark(op, mark),
        Answer::Unstarted => true,
    }
}

/// Whether this may be said of a call that was cut off.
fn suits_mark(op: &Op, mark: CutMark) -> bool
    ensures { IsTrue result ↔ SuitsMark op.now mark }
{
    match mark {
        CutMark::At { .. } | CutMark::Found | CutMark::Lost => is_writer(op),
        CutMark::Open => false,
        CutMark::Read => is_get(op),
    }
}

fn is_get(op: &Op) -> bool
    ensures { IsTrue result ↔ IsGet op.now }
{
    matches!(op, Op::Get { .. })
}

fn is_scan(op: &Op) -> bool
    ensures { IsTrue result ↔ IsScan op.now }
{
    matches!(op, Op::Scan { .. })
}

fn is_put(op: &Op) -> bool
    ensures { IsTrue result ↔ IsPut op.now }
{
    matches!(op, Op::Put { .. })
}

fn is_writer(op: &Op) -> bool
    ensures { IsTrue result ↔ IsWriter op.now }
{
    matches!(op, Op::Put { .. } | Op::Del { .. })
}
