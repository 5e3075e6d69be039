//! How a round ended, and with which map.

ghost use Rattle.std.specs.Prelude.{◌≡◌, ◌↔◌, List, All, IfOk, IsTrue, OnOk};
ghost use Rattle.std.specs.FinMap.{entries};
ghost use Rattle.std.specs.Option.{option_to_list};
ghost use Rattle.cat_history.specs.CrashEnds.{after_changes};
ghost use Rattle.cat_history.specs.CrashRounds.{is_shown, ReplySays};
ghost use Rattle.cat_history.specs.Maps.{Map, map_of};
ghost use Rattle.cat_history.specs.Records.{change_asked};
ghost use Rattle.cat_history.specs.declared.op.Write.{Write};
ghost use Rattle.cat_history.specs.declared.record.Record.{Record};
ghost use Rattle.transcript.specs.Calls.{HaveKeysApart};
ghost use Rattle.transcript.specs.Ends.{change_found, changes_found, end_told};
ghost use Rattle.transcript.specs.Rules.{EndsAsSaid};

use crate::NoMemory;
use crate::asking::RoundEnd;
use crate::forms::{all_answered, all_have_form, all_keep_budgets, is_writer};
use crate::stops::stop_once;
use cat_history::{Change, CutMark, Names, Op, Record, Reply, Write, change, change_all, names_of};
use cat_key::Pair;
use std::alloc::Global;

/// Makes the change of a record that says that it was found.
fn make_found(names: &mut Names, record: &Record) -> Result<(), NoMemory>
    ensures ok { OnOk result ((m : Map) → names.old.entries ≡ entries m → names.new.entries
        ≡ entries (after_changes m (option_to_list (change_found «record».now.op «record».now.reply)))) }
{
    if !matches!(
        record.reply,
        Reply::Cut {
            mark: CutMark::Found
        }
    ) {
        return Ok(());
    }
    match record.op {
        Op::Put { name, value } => change(names, &Change::Put { name, value }),
        Op::Del { name } => change(names, &Change::Del { name }),
        Op::Get { .. } | Op::Scan { .. } => Ok(()),
    }
}

/// Makes all changes that were found.
fn make_all_found(names: &mut Names, told: &[Record]) -> Result<(), NoMemory>
    ensures ok { OnOk result ((m : Map) → names.old.entries ≡ entries m →
        names.new.entries ≡ entries (after_changes m (changes_found told.now))) }
{
    for record in told {
        make_found(names, record)?;
    }
    Ok(())
}

/// The map after all placed writes, and after the changes that were found.
pub(crate) fn names_at_end(
    alloc: Global,
    base: &[Pair],
    writes: &[Write],
    told: &[Record],
) -> Result<Names, NoMemory>
    ensures { IfOk result (λ names. names.entries ≡ entries (end_told (map_of base.now) told.now writes.now)) }
{
    let mut names = names_of(alloc, base)?;
    change_all(&mut names, writes)?;
    make_all_found(&mut names, told)?;
    Ok(names)
}

/// Whether the map agrees with what the call writes; one that writes nothing shows nowhere.
fn shows(names: &Names, op: &Op) -> bool
    ensures { (m : Map) → names.now.entries ≡ entries m → result ≡ is_shown m (change_asked op.now) }
{
    match op {
        Op::Put { name, value } => names.get(name).copied() == Some(*value),
        Op::Del { name } => names.get(name).is_none(),
        Op::Get { .. } | Op::Scan { .. } => false,
    }
}

/// Whether a reply says of the change of its call what the map shows, if that was cut off.
fn says(names: &Names, op: &Op, reply: &Reply) -> bool
    ensures { (m : Map) → names.now.entries ≡ entries m → IsTrue result ↔ ReplySays m op.now reply.now }
{
    let Reply::Cut { mark } = reply else {
        return true;
    };
    match mark {
        CutMark::At { .. } | CutMark::Read => true,
        CutMark::Open => !is_writer(op),
        CutMark::Found => !is_writer(op) || shows(names, op),
        CutMark::Lost => !shows(names, op),
    }
}

/// The same of all records.
fn all_say(names: &Names, told: &[Record]) -> bool
    ensures { (m : Map) → names.now.entries ≡ entries m
        → IsTrue result ↔ All (λ (r : Record). ReplySays m r.op r.reply) told.now }
{
    for record in told {
        if !says(names, &record.op, &record.reply) {
            return false;
        }
    }
    true
}

/// Whether each reply has its form and the round ended as its end says, with this map after all placed writes and the
/// changes that were found.
///
/// It takes time in proportion to the records, and to the logarithm of how many there are.
pub(crate) fn ends_as_said(
    alloc: Global,
    names: &Names,
    told: &[Record],
    end: &RoundEnd,
) -> Result<bool, NoMemory>
    requires { HaveKeysApart told.now }
    ensures { (base : Map) (writes : List Write) → names.now.entries ≡ entries (end_told base told.now writes)
        → IfOk result (λ yes. IsTrue yes ↔ EndsAsSaid base told.now end.now writes) }
{
    if !all_have_form(told) {
        return Ok(false);
    }
    if !end.crashed {
        return Ok(all_answered(told));
    }
    if !all_keep_budgets(end.budgets.as_slice(), told) || !all_say(names, told) {
        return Ok(false);
    }
    stop_once(alloc, told)
}
