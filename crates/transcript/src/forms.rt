//! What replies may be, whatever the map is.

ghost use Rattle.std.specs.Prelude.{◌≡◌, ◌↔◌, All, IsTrue};
ghost use Rattle.cat_history.specs.CrashRounds.{KeepsBudget};
ghost use Rattle.cat_history.specs.Rounds.{IsAnswered, IsItsMark, IsWriter};
ghost use Rattle.cat_history.specs.declared.record.Record.{Record};
ghost use Rattle.transcript.specs.Rules.{HasForm};
ghost use Rattle.transcript.specs.Spans.{is_unanswered, is_unstarted};

use cat_history::{CutMark, Op, Record, Reply};

/// Whether a call asks for a write.
pub(crate) fn is_writer(op: &Op) -> bool
    ensures { IsTrue result ↔ IsWriter op.now }
{
    matches!(op, Op::Put { .. } | Op::Del { .. })
}

/// Whether a mark is one of a call of this kind.
fn is_its_mark(op: &Op, mark: &CutMark) -> bool
    ensures { IsTrue result ↔ IsItsMark op.now mark.now }
{
    match op {
        Op::Put { .. } | Op::Del { .. } => !matches!(mark, CutMark::Read),
        Op::Get { .. } => matches!(mark, CutMark::Read),
        Op::Scan { .. } => false,
    }
}

/// Whether a reply is of a form that there is for the call.
fn has_form(op: &Op, reply: &Reply) -> bool
    ensures { IsTrue result ↔ HasForm op.now reply.now }
{
    match reply {
        Reply::Old { .. } => !matches!(op, Op::Scan { .. }),
        Reply::Parts { .. } => matches!(op, Op::Scan { .. }),
        Reply::Full => matches!(op, Op::Put { .. }),
        Reply::Spent { .. } => is_writer(op),
        Reply::Cut { mark } => is_its_mark(op, mark),
        Reply::Unstarted => true,
    }
}

/// The same of all records.
pub(crate) fn all_have_form(told: &[Record]) -> bool
    ensures { IsTrue result ↔ All (λ (r : Record). HasForm r.op r.reply) told.now }
{
    told.iter()
        .all(|record| has_form(&record.op, &record.reply))
}

/// Whether a call wasn't begun.
pub(crate) fn is_unstarted(reply: &Reply) -> bool
    ensures { result ≡ is_unstarted reply.now }
{
    matches!(reply, Reply::Unstarted)
}

/// Whether a call was cut off or not begun.
pub(crate) fn is_unanswered(reply: &Reply) -> bool
    ensures { result ≡ is_unanswered reply.now }
{
    match reply {
        Reply::Parts { cut, .. } => *cut,
        Reply::Cut { .. } | Reply::Unstarted => true,
        Reply::Old { .. } | Reply::Full | Reply::Spent { .. } => false,
    }
}

/// Whether a call was answered.
fn is_answered(reply: &Reply) -> bool
    ensures { IsTrue result ↔ IsAnswered reply.now }
{
    !is_unanswered(reply)
}

/// Whether all calls were answered.
pub(crate) fn all_answered(told: &[Record]) -> bool
    ensures { IsTrue result ↔ All (λ (r : Record). IsAnswered r.reply) told.now }
{
    told.iter().all(|record| is_answered(&record.reply))
}

/// Whether a caller with budget 0 didn't begin this call, and one with more began it if it is its first one.
fn keeps_budget(budgets: &[u64], record: &Record) -> bool
    ensures { IsTrue result ↔ KeepsBudget budgets.now «record».now }
{
    let begun = !is_unstarted(&record.reply);
    if record.caller >= budgets.len() as u64 {
        return true;
    }
    if budgets[record.caller as usize] == 0 {
        return !begun;
    }
    begun || record.index != 0
}

/// The same of all records.
pub(crate) fn all_keep_budgets(budgets: &[u64], told: &[Record]) -> bool
    ensures { IsTrue result ↔ All (KeepsBudget budgets.now) told.now }
{
    told.iter().all(|record| keeps_budget(budgets, record))
}
