//! Running a round in which one caller alone has calls.

ghost use Rattle.std.specs.Prelude.{◌≡◌, ◌+◌, ◌*◌, ◌<◌, ◌≤◌, ◌^◌, ◌↔◌, length, All, IfOk};
ghost use Rattle.std.specs.Prelude.{OnErr, IsTrue};
ghost use Rattle.cat_history.specs.Rounds.{IsWriter};
ghost use Rattle.cat_history.specs.Scans.{IsPart};
ghost use Rattle.cat_history.specs.LoneRounds.{IsAnswerNow, IsSpent};
ghost use Rattle.cat_text.specs.ReportGrammar.{IsReportPart, IsReportReply, IsReportRound};
ghost use Rattle.shapes.specs.Anchors.{next_of, past};
ghost use Rattle.shapes.specs.Laws.{IsScanByShape};
ghost use Rattle.shapes.specs.ShapeRounds.{EndsWithMembers};
ghost use Rattle.core_rounds.specs.LoneCalls.{AreLoneCalls, AreReportCalls};
ghost use Rattle.core_rounds.specs.Rounds.{EndsWithTurn, IsTurnDue, StopsWithin};
ghost use Rattle.core_rounds.specs.Updated.{HoldsSame, IsFullIn, IsLeftAfter, IsLeftAs, IsPlayedFrom, UsesUp};
ghost use Rattle.core_rounds.specs.Updated.{WaitBehind, WaitOn, change_by, changes_by};
ghost use Rattle.core_rounds.specs.Waiting.{one_put, one_write, puts_among, writes_among};

use crate::updated_map::UpdatedMap;
use cat_history::{Items, NoMemory, Op, Parts, Record, Reply, RoundPlan, ScanPart};
use cat_key::Name;
use cat_text::RoundReport;
use shapes::{Full, MapPart};
use std::alloc::Global;
use stopped_rounds::is_placed_write;

/// Answers the calls of one caller in their order, each on the map as the earlier ones left it. A put or a delete that
/// comes when the placed writes reach the plan's limit is told so and changes nothing. Behind each so many calls as the
/// plan says the updater makes a turn.
///
/// It takes memory for the records, before the first call, and for the parts of scans. Where there is none, the map is
/// as the calls left it that were made by then.
pub fn run_lone_round<M: UpdatedMap>(
    alloc: Global,
    map: &mut M,
    plan: &RoundPlan,
) -> Result<RoundReport, NoMemory>
    requires caller { AreLoneCalls plan.now.ops }
    requires callers { All (λ a. a.caller < (M.state map.old).callers) plan.now.ops }
    requires told { AreReportCalls plan.now.ops }
    // A scan has no more parts than the map can have members.
    requires calls { length plan.now.ops * (M.state map.old).most ≤ (M.state map.old).calls_left }
    requires writes { length plan.now.ops ≤ (M.state map.old).writes_left }
    // The round is legal and reported, by the writes that its records tell, and is one of a report.
    ensures played { IfOk result (IsPlayedFrom (M.state map.old) plan.now) }
    ensures report { IfOk result IsReportRound }
    ensures after { IfOk result (λ report. IsLeftAfter (M.state map.old) report.records (M.state map.new)) }
    ensures uses { UsesUp (M.state map.old) (M.state map.new) (length plan.now.ops * (M.state map.old).most)
        (length plan.now.ops) }
    // Where it ends with a turn, that has done all that its calls left to the updater.
    ensures settled { IfOk result (λ _. EndsWithTurn plan.now → M.is_settled map.new) }
    // Without turns the changes of the shape that its calls make wait.
    ensures waits { IfOk result (λ report. plan.now.updater ≡ 0 → WaitBehind (M.waits map.old) (M.waits map.new)
        (changes_by (M.state map.old) report.records) (writes_among plan.now.ops) (puts_among plan.now.ops)) }
    ensures err { OnErr result (StopsWithin (M.state map.old).slots (M.state map.old).most (M.state map.old).contents
        (M.state map.old).anchors plan.now (M.state map.new).contents (M.state map.new).anchors) }
{
    let asked = plan.ops.as_slice();
    let mut records = Vec::with_capacity(alloc, asked.len())?;
    let mut writes = 0;
    for (index, call) in asked.iter().enumerate() {
        let is_due = is_turn_due(plan.updater, index as u64 + 1);
        let record = Record {
            caller: call.caller,
            index: index as u64,
            op: call.op,
            reply: answer(
                alloc,
                map,
                call.caller,
                &call.op,
                writes,
                plan.limit,
                is_due,
            )?,
        };
        if is_placed_write(&record) {
            writes += 1;
        }
        // There is memory for a record of each call.
        records.push_reserved(record);
    }
    Ok(RoundReport {
        records: Items::of(records),
        crashed: false,
        writes,
        names: map.len(),
    })
}

/// Answers one call at once, on the map as it is, and makes a turn of the updater behind it where one is due. So many
/// writes have a place by now, and so many may have one before a put or a delete is refused. Where there is no memory
/// for the parts of a scan, the map is as it was.
fn answer<M: UpdatedMap>(
    alloc: Global,
    map: &mut M,
    caller: u64,
    op: &Op,
    place: u64,
    limit: u64,
    is_due: bool,
) -> Result<Reply, NoMemory>
    requires caller { caller < (M.state map.old).callers }
    requires calls { (M.state map.old).most ≤ (M.state map.old).calls_left }
    requires writes { 0 < (M.state map.old).writes_left }
    ensures answer { IfOk result (IsAnswerNow (M.state map.old).contents place op.now) }
    ensures report { IfOk result (IsReportReply op.now) }
    ensures spent { IfOk result (λ reply. IsSpent reply ↔ (IsWriter op.now × (limit ≤ place))) }
    ensures full { IfOk result (λ reply. (reply ≡ Reply.Full) ↔
        (((IsWriter op.now × (limit ≤ place)) → ⊥) × IsFullIn (M.state map.old) op.now)) }
    ensures bounds { IfOk result (EndsWithMembers (M.state map.old).anchors) }
    ensures left { IfOk result (λ reply. IsLeftAs (M.state map.old) op.now reply (M.state map.new)) }
    ensures uses { UsesUp (M.state map.old) (M.state map.new) (M.state map.old).most 1 }
    ensures settled { IfOk result (λ _. IsTrue is_due → M.is_settled map.new) }
    ensures waits { IfOk result (λ reply. ¬ IsTrue is_due → WaitBehind (M.waits map.old) (M.waits map.new)
        (change_by (M.state map.old) op.now reply) (one_write op.now) (one_put op.now)) }
    ensures err { OnErr result (HoldsSame (M.state map.old) (M.state map.new)) }
{
    // So there is room for fewer calls.
    map.has_shape();
    let reply = if comes_late(op, place, limit) {
        Reply::Spent { clock: place }
    } else {
        answer_in_time(alloc, map, caller, op, place)?
    };
    if is_due {
        map.turn();
    }
    Ok(reply)
}

/// Whether the updater makes a turn behind so many calls of a round, where it makes one behind each `turns` of them, or
/// none where that is 0.
fn is_turn_due(turns: u64, calls: u64) -> bool
    ensures { IsTrue result ↔ IsTurnDue turns calls }
{
    turns != 0 && calls % turns == 0
}

/// Whether a call is a put or a delete that comes when so many placed writes reach the limit.
fn comes_late(op: &Op, place: u64, limit: u64) -> bool
    ensures { IsTrue result ↔ (IsWriter op.now × (limit ≤ place)) }
{
    match op {
        Op::Put { .. } | Op::Del { .. } => limit <= place,
        Op::Get { .. } | Op::Scan { .. } => false,
    }
}

/// Answers one call at once, on the map as it is, whatever the limit.
fn answer_in_time<M: UpdatedMap>(
    alloc: Global,
    map: &mut M,
    caller: u64,
    op: &Op,
    place: u64,
) -> Result<Reply, NoMemory>
    requires caller { caller < (M.state map.old).callers }
    requires calls { (M.state map.old).most ≤ (M.state map.old).calls_left }
    requires writes { 0 < (M.state map.old).writes_left }
    ensures answer { IfOk result (IsAnswerNow (M.state map.old).contents place op.now) }
    ensures report { IfOk result (IsReportReply op.now) }
    ensures full { IfOk result (λ reply. (reply ≡ Reply.Full) ↔ IsFullIn (M.state map.old) op.now) }
    ensures early { IfOk result (λ reply. IsSpent reply → ⊥) }
    ensures bounds { IfOk result (EndsWithMembers (M.state map.old).anchors) }
    ensures left { IfOk result (λ reply. IsLeftAs (M.state map.old) op.now reply (M.state map.new)) }
    ensures uses { UsesUp (M.state map.old) (M.state map.new) (M.state map.old).most 1 }
    ensures waits { IfOk result (λ reply. WaitBehind (M.waits map.old) (M.waits map.new)
        (change_by (M.state map.old) op.now reply) (one_write op.now) (one_put op.now)) }
    ensures err { OnErr result (HoldsSame (M.state map.old) (M.state map.new)) }
{
    // So there are no more members than calls are left, and one member at least.
    map.has_shape();
    match op {
        Op::Put { name, value } => match map.put(caller, name, *value) {
            Ok(old) => Ok(Reply::Old { old, place }),
            Err(Full) => Ok(Reply::Full),
        },
        Op::Get { name } => Ok(Reply::Old {
            old: map.get(caller, name),
            place,
        }),
        Op::Del { name } => Ok(Reply::Old {
            old: map.del(caller, name),
            place,
        }),
        Op::Scan { from, count } => Ok(Reply::Parts {
            parts: scan(alloc, map, caller, from, *count, place)?,
            cut: false,
        }),
    }
}

/// Reads the parts of a scan, one after another, until there are as many names as were asked for or no member is left.
fn scan<M: UpdatedMap>(
    alloc: Global,
    map: &mut M,
    caller: u64,
    from: &Name,
    count: u64,
    place: u64,
) -> Result<Parts, NoMemory>
    requires caller { caller < (M.state map.old).callers }
    requires calls { length (past (M.state map.old).anchors from.now) < (M.state map.old).calls_left }
    ensures answer { IfOk result
        (IsScanByShape (M.state map.old).contents (M.state map.old).anchors from.now count place) }
    ensures report { IfOk result (All IsReportPart) }
    ensures few { IfOk result (λ parts. length parts < 2 ^ 64) }
    ensures same { HoldsSame (M.state map.old) (M.state map.new) }
    ensures uses { UsesUp (M.state map.old) (M.state map.new)
        (length (past (M.state map.old).anchors from.now) + 1) 0 }
    ensures waits { WaitOn (M.waits map.old) (M.waits map.new) }
{
    // Most scans have one part.
    let mut parts = Vec::with_capacity(alloc, 1)?;
    let mut left = count;
    let mut next = Some(*from);
    while let Some(low) = next {
        let part = read_part(alloc, map, caller, low, left, place)?;
        left -= part.pairs.as_slice().len() as u64;
        let high = part.high;
        parts.push(part)?;
        next = if left > 0 { high } else { None };
    }
    Ok(Items::of(parts))
}

/// Reads the part of a scan that begins at this name, with so many names left.
fn read_part<M: UpdatedMap>(
    alloc: Global,
    map: &mut M,
    caller: u64,
    low: Name,
    left: u64,
    place: u64,
) -> Result<ScanPart, NoMemory>
    requires caller { caller < (M.state map.old).callers }
    requires calls { 0 < (M.state map.old).calls_left }
    ensures part { IfOk result (IsPart (λ _. (M.state map.old).contents) low left place) }
    ensures place { IfOk result (λ part. part.place ≡ place) }
    ensures high { IfOk result (λ part. part.high ≡ next_of (M.state map.old).anchors low) }
    ensures report { IfOk result IsReportPart }
    ensures same { HoldsSame (M.state map.old) (M.state map.new) }
    ensures uses { UsesUp (M.state map.old) (M.state map.new) 1 0 }
    ensures waits { WaitOn (M.waits map.old) (M.waits map.new) }
{
    let MapPart { high, pairs } = map.part(alloc, caller, &low, left)?;
    Ok(ScanPart {
        low,
        high,
        place,
        pairs,
    })
}
