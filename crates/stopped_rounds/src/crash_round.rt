//! Running a round in which one caller alone has calls, within a budget.

ghost use Rattle.std.specs.Prelude.{◌≡◌, ◌≢◌, ℕ, ◌+◌, ◌*◌, ◌%◌, ◌<◌, ◌≤◌, ◌^◌, ◌↔◌, ◌⊎◌, List, [], ◌∷◌, is_some};
ghost use Rattle.std.specs.Prelude.{if◌then◌else◌, length, take, All, IfOk, IfSome, IsTrue, MatchResult, None, true};
ghost use Rattle.cat_history.specs.Records.{mark_place, placed_write};
ghost use Rattle.cat_history.specs.Rounds.{IsAnswered, IsOnName};
ghost use Rattle.cat_history.specs.LoneRounds.{write_of, writes_of};
ghost use Rattle.cat_history.specs.Scans.{IsPart};
ghost use Rattle.cat_text.specs.ReportGrammar.{IsReportOp, IsReportPart};
ghost use Rattle.shapes.specs.Anchors.{next_of, past};
ghost use Rattle.shapes.specs.ShapeRounds.{one_added, puts_added};
ghost use Rattle.stopped_rounds.specs.Bounded.{ComesTo, IsSame};
ghost use Rattle.cat_history.specs.declared.op.CallerOp.{CallerOp};
ghost use Rattle.stopped_rounds.specs.InTime.{AreInTime, AreOnNames, HasNoTurns, HasTimelyTurns};
ghost use Rattle.stopped_rounds.specs.InTime.{RepliesInTime};
ghost use Rattle.stopped_rounds.specs.Replies.{IsLate, IsTold, Replies, SettlesToReport, write_mark};
ghost use Rattle.cat_history.specs.declared.op.Op.TheVariants as Op;
ghost use Rattle.cat_history.specs.declared.record.Reply.TheVariants as Reply;
ghost use Rattle.cat_history.specs.declared.record.CutMark.TheVariants as CutMark;
ghost use Rattle.stopped_rounds.specs.Stops.{HasStopped, IsScanSoFar};

use crate::bounded_map::{Bounded, BoundedMap};
use cat_history::{
    CutMark, Items, NoMemory, Op, Parts, Record, Records, Reply, RoundPlan, ScanPart,
};
use cat_key::Name;
use shapes::{Full, MapPart};
use std::alloc::Global;

/// A round of one caller that stopped.
#[derive(Drop)]
pub struct StoppedRound {
    /// What became of a write that was cut off without a place is open.
    pub records: Records,
    /// How many writes have a place.
    pub writes: u64,
}

/// Answers the calls of one caller in their order, each on the map as the earlier ones left it, as far as the budget
/// goes. Where it is used up within a call, that is cut off, and no later call begins. Behind each so many calls as the
/// plan says the updater makes a turn, within a budget of its own.
///
/// It takes memory for the records, before the first call, and for the parts of scans.
pub fn run_crash_round<M: BoundedMap>(
    alloc: Global,
    map: &mut M,
    plan: &RoundPlan,
    budget: u64,
    updater_budget: u64,
) -> Result<StoppedRound, NoMemory>
    requires caller { (caller : ℕ) × All (λ a. a.caller ≡ caller) plan.now.ops }
    requires told { All (λ a. (a.caller < 16) × IsReportOp a.op) plan.now.ops }
    requires uncut { (M.state map.old).cut ≡ [] }
    requires calls { length plan.now.ops * M.most map.old ≤ M.calls_left map.old }
    requires writes { length plan.now.ops ≤ M.writes_left map.old }
    ensures stopped { IfOk result (λ round. HasStopped (M.slots map.old) (M.most map.old) plan.now.limit budget
        (M.state map.old) plan.now.ops round.records (M.state map.new)) }
    ensures placed { IfOk result (λ round. round.writes ≡ length (writes_of round.records)) }
    // Once its marks are settled, a report can tell of it.
    ensures told { IfOk result (λ round. All SettlesToReport round.records) }
    ensures weighs { IfOk result (λ round. M.weighs map.new ≤ M.weighs map.old + puts_added round.records) }
    // Where neither the calls nor the updater make turns, each call is answered for which the budget is enough.
    ensures in_time { IfOk result (λ round. 0 < M.call_events → M.turnless map.old plan.now.ops →
        AreOnNames plan.now.ops →
        HasNoTurns plan.now → AreInTime M.call_events budget round.records) }
    // So it is where the updater makes turns, so often that no call makes one, and with a budget for each.
    ensures in_time_with_turns { IfOk result (λ round. 0 < M.call_events → M.has_room map.old plan.now.ops →
        M.turnless map.old (take plan.now.updater plan.now.ops) → AreOnNames plan.now.ops →
        HasTimelyTurns M.calls_between M.turn_events plan.now updater_budget →
        AreInTime M.call_events budget round.records) }
{
    let asked = plan.ops.as_slice();
    let mut records = Vec::with_capacity(alloc, asked.len())?;
    let mut writes = 0;
    let mut left = budget;
    let mut updater_left = updater_budget;
    for (index, call) in asked.iter().enumerate() {
        let reply = reply_to(alloc, map, &call.op, writes, plan.limit, &mut left)?;
        turn_if_due(map, plan.updater, index as u64 + 1, left, &mut updater_left);
        let record = Record {
            caller: call.caller,
            index: index as u64,
            op: call.op,
            reply,
        };
        if is_placed_write(&record) {
            writes += 1;
        }
        // There is memory for a record of each call.
        records.push_reserved(record);
    }
    Ok(StoppedRound {
        records: Items::of(records),
        writes,
    })
}

/// Makes a turn of the updater behind so many calls, where one is due and a call may still begin.
fn turn_if_due<M: BoundedMap>(map: &mut M, turns: u64, calls: u64, left: u64, budget: &mut u64)
    requires uncut { 0 < left → (M.state map.old).cut ≡ [] }
    ensures same { IsSame (M.state map.old) (M.state map.new) }
    ensures slots { M.slots map.new ≡ M.slots map.old }
    ensures most { M.most map.new ≡ M.most map.old }
    ensures calls_left { M.calls_left map.old ≤ M.calls_left map.new }
    ensures writes_left { M.writes_left map.old ≤ M.writes_left map.new }
    ensures weighs { M.weighs map.new ≤ M.weighs map.old }
    ensures none { (turns ≡ 0) ⊎ (calls % turns ≢ 0) → (map.new ≡ map.old) × (budget.new ≡ budget.old) }
    ensures due { (more : List CallerOp) → 0 < left → 0 < turns → calls % turns ≡ 0 → turns ≤ M.calls_between →
        0 < length more → M.turnless map.old [] → M.has_room map.old more → M.turn_events ≤ budget.old →
        (budget.old ≤ budget.new + M.turn_events) × M.turnless map.new (take turns more) × M.has_room map.new more }
{
    if left == 0 {
        return;
    }
    if turns != 0 && calls % turns == 0 {
        map.turn(budget);
    }
}

/// Answers one call at once, on the map as it is, as far as the budget goes. So many writes have a place by now, and so
/// many may have one before a put or a delete is refused.
fn reply_to<M: BoundedMap>(
    alloc: Global,
    map: &mut M,
    op: &Op,
    place: u64,
    limit: u64,
    budget: &mut u64,
) -> Result<Reply, NoMemory>
    requires uncut { 0 < budget.old → (M.state map.old).cut ≡ [] }
    requires calls { M.most map.old ≤ M.calls_left map.old }
    requires writes { 0 < M.writes_left map.old }
    ensures reply { IfOk result
        (λ reply. Replies (M.slots map.old) (M.most map.old) limit (M.state map.old) place op.now
        budget.old reply budget.new (M.state map.new)) }
    ensures told { IfOk result (IsTold op.now) }
    ensures slots { M.slots map.new ≡ M.slots map.old }
    ensures most { M.most map.new ≡ M.most map.old }
    ensures calls_left { M.calls_left map.old ≤ M.calls_left map.new + M.most map.old }
    ensures writes_left { M.writes_left map.old ≤ M.writes_left map.new + 1 }
    ensures weighs { IfOk result (λ reply. M.weighs map.new ≤ M.weighs map.old + one_added op.now reply) }
    ensures in_time { IfOk result (λ reply. (a : CallerOp) (rest : List CallerOp) → a.op ≡ op.now → IsOnName a.op →
        0 < budget.old → M.turnless map.old (a ∷ rest) →
        RepliesInTime M.call_events budget.old reply budget.new (M.turnless map.new rest)) }
    ensures room { IfOk result (λ reply. (a : CallerOp) (rest : List CallerOp) → a.op ≡ op.now → IsOnName a.op →
        IsAnswered reply → M.has_room map.old (a ∷ rest) → M.has_room map.new rest) }
{
    if *budget == 0 {
        return Ok(Reply::Unstarted);
    }
    // So there are no more members than calls are left, and one member at least.
    map.has_shape();
    if comes_late(op, place, limit) {
        return Ok(Reply::Spent { clock: place });
    }
    match op {
        Op::Put { name, value } => Ok(put_reply(map.put(name, *value, budget), place)),
        Op::Get { name } => Ok(get_reply(map.get(name, budget), place)),
        Op::Del { name } => Ok(del_reply(map.del(name, budget), place)),
        Op::Scan { from, count } => {
            let (parts, cut) = scan(alloc, map, from, *count, place, budget)?;
            Ok(Reply::Parts { parts, cut })
        }
    }
}

/// Whether a call is a put or a delete that comes when so many placed writes reach the limit.
fn comes_late(op: &Op, place: u64, limit: u64) -> bool
    ensures { IsTrue result ↔ IsLate limit place op.now }
{
    match op {
        Op::Put { .. } | Op::Del { .. } => limit <= place,
        Op::Get { .. } | Op::Scan { .. } => false,
    }
}

/// The mark of a write that was cut off.
fn write_mark(placed: bool, place: u64) -> CutMark
    ensures { result ≡ write_mark placed place }
{
    if placed {
        CutMark::At { place }
    } else {
        CutMark::Open
    }
}

/// What a put is told.
fn put_reply(ended: Bounded<Result<Option<u64>, Full>>, place: u64) -> Reply
    ensures reply { ComesTo ended (λ answer. MatchResult answer (λ old. result ≡ Reply.Old old place)
        (λ _. result ≡ Reply.Full))
        (λ placed. result ≡ Reply.Cut (write_mark placed place)) }
    ensures told { (name : List ℕ) (value : ℕ) → IsTold (Op.Put name value) result }
{
    match ended {
        Bounded::Answered(Ok(old)) => Reply::Old { old, place },
        Bounded::Answered(Err(Full)) => Reply::Full,
        Bounded::Cut { placed } => Reply::Cut {
            mark: write_mark(placed, place),
        },
    }
}

/// What a get is told.
fn get_reply(ended: Bounded<Option<u64>>, place: u64) -> Reply
    ensures reply { ComesTo ended (λ old. result ≡ Reply.Old old place) (λ placed. result ≡ Reply.Cut CutMark.Read) }
    ensures told { (name : List ℕ) → IsTold (Op.Get name) result }
{
    match ended {
        Bounded::Answered(old) => Reply::Old { old, place },
        Bounded::Cut { .. } => Reply::Cut {
            mark: CutMark::Read,
        },
    }
}

/// What a delete is told.
fn del_reply(ended: Bounded<Option<u64>>, place: u64) -> Reply
    ensures reply { ComesTo ended (λ old. result ≡ Reply.Old old place)
        (λ placed. result ≡ Reply.Cut (write_mark placed place)) }
    ensures told { (name : List ℕ) → IsTold (Op.Del name) result }
{
    match ended {
        Bounded::Answered(old) => Reply::Old { old, place },
        Bounded::Cut { placed } => Reply::Cut {
            mark: write_mark(placed, place),
        },
    }
}

/// Reads the parts of a scan, one after another, until there are as many names as were asked for, or no member is left,
/// or the budget is used up; and whether it was.
fn scan<M: BoundedMap>(
    alloc: Global,
    map: &mut M,
    from: &Name,
    count: u64,
    place: u64,
    budget: &mut u64,
) -> Result<(Parts, bool), NoMemory>
    requires uncut { (M.state map.old).cut ≡ [] }
    requires calls { length (past (M.state map.old).anchors from.now) < M.calls_left map.old }
    requires some { 0 < budget.old }
    ensures read { IfOk result (λ read. IsScanSoFar (M.state map.old) from.now count place read.1 read.0) }
    ensures cut { IfOk result (λ read. read.1 ≡ true → budget.new ≡ 0) }
    ensures told { IfOk result (λ read. All IsReportPart read.0) }
    ensures few { IfOk result (λ read. length read.0 < 2 ^ 64) }
    ensures same { IsSame (M.state map.old) (M.state map.new) }
    ensures slots { M.slots map.new ≡ M.slots map.old }
    ensures most { M.most map.new ≡ M.most map.old }
    ensures calls_left { M.calls_left map.old ≤
        M.calls_left map.new + (length (past (M.state map.old).anchors from.now) + 1) }
    ensures writes_left { M.writes_left map.old ≤ M.writes_left map.new }
    ensures weighs { M.weighs map.new ≤ M.weighs map.old }
{
    // Most scans have one part.
    let mut parts = Vec::with_capacity(alloc, 1)?;
    let mut left = count;
    let mut next = Some(*from);
    while let Some(low) = next {
        if *budget == 0 {
            return Ok((Items::of(parts), true));
        }
        let Some(part) = read_part(alloc, map, low, left, place, budget)? else {
            return Ok((Items::of(parts), true));
        };
        left -= part.pairs.as_slice().len() as u64;
        let high = part.high;
        parts.push(part)?;
        next = if left > 0 { high } else { None };
    }
    Ok((Items::of(parts), false))
}

/// Reads the part of a scan that begins at this name, with so many names left, as far as the budget goes.
fn read_part<M: BoundedMap>(
    alloc: Global,
    map: &mut M,
    low: Name,
    left: u64,
    place: u64,
    budget: &mut u64,
) -> Result<Option<ScanPart>, NoMemory>
    requires uncut { (M.state map.old).cut ≡ [] }
    requires calls { 0 < M.calls_left map.old }
    requires some { 0 < budget.old }
    ensures part { IfOk result (λ read. IfSome read
        (λ part. IsPart (λ _. (M.state map.old).contents) low left place part ×
        (part.place ≡ place) × (part.high ≡ next_of (M.state map.old).anchors low))) }
    ensures cut { IfOk result (λ read. read ≡ None → budget.new ≡ 0) }
    ensures told { IfOk result (λ read. IfSome read IsReportPart) }
    ensures same { IsSame (M.state map.old) (M.state map.new) }
    ensures slots { M.slots map.new ≡ M.slots map.old }
    ensures most { M.most map.new ≡ M.most map.old }
    ensures calls_left { M.calls_left map.old ≤ M.calls_left map.new + 1 }
    ensures writes_left { M.writes_left map.old ≤ M.writes_left map.new }
    ensures weighs { M.weighs map.new ≤ M.weighs map.old }
{
    match map.part(alloc, &low, left, budget)? {
        Bounded::Answered(MapPart { high, pairs }) => Ok(Some(ScanPart {
            low,
            high,
            place,
            pairs,
        })),
        Bounded::Cut { .. } => Ok(None),
    }
}

/// Whether a record is of a write that has a place.
pub fn is_placed_write(entry: &Record) -> bool
    ensures write { length (write_of entry.now) ≡ (if result then 1 else 0) }
    ensures place { result ≡ is_some (placed_write entry.now) }
{
    match (&entry.op, &entry.reply) {
        (Op::Put { .. } | Op::Del { .. }, Reply::Old { .. }) => true,
        (Op::Put { .. } | Op::Del { .. }, Reply::Cut { mark }) => mark_has_place(mark),
        _ => false,
    }
}

fn mark_has_place(mark: &CutMark) -> bool
    ensures { result ≡ is_some (mark_place mark.now) }
{
    matches!(mark, CutMark::At { .. })
}
