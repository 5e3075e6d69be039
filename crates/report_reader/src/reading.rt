//! What was read of a report so far.

ghost use Rattle.std.specs.Prelude.{◌≡◌, ◌≢◌, ◌∷◌, ◌<◌, ◌≤◌, [], List, None, Some, length, map, All, IfErr, IfSome};
ghost use Rattle.std.specs.Prelude.{IsNone, IsTrue, ◌↔◌, OnOk};
ghost use Rattle.cat_text.specs.ReportGrammar.{IsReport, IsReportPart};
ghost use Rattle.cat_text.specs.ReportLines.{part_fields, report_lines};
ghost use Rattle.cat_text.specs.declared.report.RoundReport.{RoundReport};
ghost use Rattle.report_reader.specs.Answers.{count_of, reply_of};
ghost use Rattle.report_reader.specs.Fields.{fields_of};
ghost use Rattle.report_reader.specs.Heads.{IsHead, head_fields};
ghost use Rattle.report_reader.specs.Parts.{FailsBy};
ghost use Rattle.report_reader.specs.Reading.{IsReading, IsCall, Begins, HasRead, MayCome, call_fields, lines_read};
ghost use Rattle.report_reader.specs.declared.head.Head.{Head};

use crate::answer::Answer;
use crate::fault::LineFault;
use crate::head::{Head, read_head};
use crate::part::read_part;
use cat_history::{Items, Op, Record, Reply, ScanPart};
use cat_text::{Report, RoundReport};
use std::alloc::Global;
use std::mem;

/// What the line of a call says, with where the calls of its caller begin.
#[derive(Clone, Copy)]
pub(crate) struct OpenCall {
    pub caller: u64,
    /// How many calls of the round are by callers before this one.
    pub first: usize,
    pub op: Op,
    pub answer: Answer,
}

/// What was read of a report so far.
#[derive(Drop)]
pub(crate) struct Reading {
    /// The rounds that have ended.
    pub rounds: Vec<RoundReport>,
    /// The calls of the round that hasn't.
    pub records: Vec<Record>,
    /// The last caller of that round; 0 where it has no call yet.
    pub caller: u64,
    /// How many calls of the round are by callers before that one.
    pub first: usize,
    /// The scan whose parts come next.
    pub scan: Option<OpenCall>,
    /// Its parts so far.
    pub parts: Vec<ScanPart>,
}

impl Reading {
    /// Nothing read.
    pub(crate) fn new(alloc: Global) -> Reading
        ensures is { IsReading result }
        ensures lines { lines_read result ≡ [] }
    {
        Reading {
            rounds: Vec::new(alloc),
            records: Vec::new(alloc),
            caller: 0,
            first: 0,
            scan: None,
            parts: Vec::new(alloc),
        }
    }

    /// Takes one more line.
    pub(crate) fn add(&mut self, alloc: Global, line: &[u8]) -> Result<(), LineFault>
        requires { IsReading self.old }
        ensures ok { OnOk result (HasRead self.old (fields_of line.now ∷ []) self.new) }
        ensures err { IfErr result (FailsBy (¬ MayCome self.old (fields_of line.now))) }
    {
        match self.scan {
            Some(scan) => self.add_part(alloc, scan, line),
            None => self.add_head(alloc, line),
        }
    }

    /// Takes the line of a call, or the last line of the round.
    fn add_head(&mut self, alloc: Global, line: &[u8]) -> Result<(), LineFault>
        requires is { IsReading self.old }
        requires closed { self.old.scan ≡ None }
        ensures ok { OnOk result (HasRead self.old (fields_of line.now ∷ []) self.new) }
        ensures err { IfErr result (FailsBy (¬ MayCome self.old (fields_of line.now))) }
    {
        match read_head(line) {
            Some(Head::Call { caller, op, answer }) => {
                let Some(first) = self.first_of(caller) else {
                    return Err(LineFault::Outside);
                };
                let call = OpenCall {
                    caller,
                    first,
                    op,
                    answer,
                };
                self.add_call(alloc, call)
            }
            Some(
                Head::Last {
                    crashed,
                    writes,
                    names,
                },
            ) => self.end_round(alloc, crashed, writes, names),
            None => Err(LineFault::Outside),
        }
    }

    /// Takes the line of a call.
    fn add_call(&mut self, alloc: Global, call: OpenCall) -> Result<(), LineFault>
        requires is { IsReading self.old }
        requires closed { self.old.scan ≡ None }
        requires call { IsCall self.old call }
        ensures ok { OnOk result (HasRead self.old (call_fields call ∷ []) self.new) }
        ensures err { IfErr result (FailsBy ⊥) }
    {
        if count_of(call.answer) == 0 {
            return self.close(call, Vec::new(alloc));
        }
        self.scan = Some(call);
        Ok(())
    }

    /// How many calls of the round are by callers before this one, where its call may come next.
    fn first_of(&self, caller: u64) -> Option<usize>
        ensures some { IfSome result
            (λ first. Begins (length self.now.records.items) self.now.caller self.now.first caller first) }
        ensures none { IsNone result → caller < self.now.caller }
    {
        if caller < self.caller {
            return None;
        }
        if caller == self.caller {
            return Some(self.first);
        }
        Some(self.records.len())
    }

    /// Takes the line of a part of this scan.
    fn add_part(&mut self, alloc: Global, scan: OpenCall, line: &[u8]) -> Result<(), LineFault>
        requires is { IsReading self.old }
        requires scan { self.old.scan ≡ Some scan }
        ensures ok { OnOk result (HasRead self.old (fields_of line.now ∷ []) self.new) }
        ensures err { IfErr result (FailsBy (¬ MayCome self.old (fields_of line.now))) }
    {
        let part = read_part(alloc, line)?;
        if self.parts.push(part).is_err() {
            return Err(LineFault::NoMemory);
        }
        if (self.parts.len() as u64) < count_of(scan.answer) {
            return Ok(());
        }
        let parts = mem::replace(&mut self.parts, Vec::new(alloc));
        self.scan = None;
        self.close(scan, parts)
    }

    /// Takes a call with all its parts.
    fn close(&mut self, call: OpenCall, parts: Vec<ScanPart>) -> Result<(), LineFault>
        requires is { IsReading self.old }
        requires closed { self.old.scan ≡ None }
        requires first { call.first ≤ length self.old.records.items }
        requires call { IsCall self.old call }
        requires parts { All IsReportPart parts.items }
        requires all { length parts.items ≡ count_of call.answer }
        ensures ok { OnOk result (HasRead self.old (call_fields call ∷ map part_fields parts.items) self.new) }
        ensures err { IfErr result (FailsBy ⊥) }
    {
        let record = Record {
            caller: call.caller,
            index: (self.records.len() - call.first) as u64,
            op: call.op,
            reply: reply_of(call.answer, parts),
        };
        if self.records.push(record).is_err() {
            return Err(LineFault::NoMemory);
        }
        self.caller = call.caller;
        self.first = call.first;
        Ok(())
    }

    /// Ends the round.
    fn end_round(
        &mut self,
        alloc: Global,
        crashed: bool,
        writes: u64,
        names: u64,
    ) -> Result<(), LineFault>
        requires is { IsReading self.old }
        requires closed { self.old.scan ≡ None }
        requires head { IsHead (Head.Last crashed writes names) }
        ensures ok { OnOk result (HasRead self.old (head_fields (Head.Last crashed writes names) ∷ []) self.new) }
        ensures err { IfErr result (FailsBy ⊥) }
    {
        let records = mem::replace(&mut self.records, Vec::new(alloc));
        let round = RoundReport {
            records: Items::of(records),
            crashed,
            writes,
            names,
        };
        if self.rounds.push(round).is_err() {
            return Err(LineFault::NoMemory);
        }
        self.caller = 0;
        self.first = 0;
        Ok(())
    }

    /// The report of a text that ends here; None where it ends within a round, or has none.
    pub(crate) fn finish(self) -> Option<Report>
        requires { IsReading self }
        ensures some { IfSome result (λ rounds. IsReport rounds × (lines_read self ≡ report_lines rounds)) }
        ensures none { IsNone result → (rounds : List RoundReport) → IsReport rounds →
            lines_read self ≢ report_lines rounds }
    {
        if !self.has_ended() {
            return None;
        }
        Some(Items::of(self.rounds))
    }

    /// Whether the last line read ended a round.
    fn has_ended(&self) -> bool
        ensures { IsTrue result ↔
            ((self.now.scan ≡ None) × (self.now.records.items ≡ []) × (1 ≤ length self.now.rounds.items)) }
    {
        self.scan.is_none() && self.records.is_empty() && !self.rounds.is_empty()
    }
}

/// How many lines of parts follow that of a call.
fn count_of(answer: Answer) -> u64
    ensures { result ≡ count_of answer }
{
    match answer {
        Answer::Parts { count, .. } => count,
        Answer::Old { .. }
        | Answer::Full
        | Answer::Spent { .. }
        | Answer::Cut { .. }
        | Answer::Unstarted => 0,
    }
}

/// What a call is answered, where these are its parts.
fn reply_of(answer: Answer, parts: Vec<ScanPart>) -> Reply
    ensures { result ≡ reply_of answer parts.items }
{
    match answer {
        Answer::Old { old, place } => Reply::Old { old, place },
        Answer::Parts { cut, .. } => Reply::Parts {
            parts: Items::of(parts),
            cut,
        },
        Answer::Full => Reply::Full,
        Answer::Spent { clock } => Reply::Spent { clock },
        Answer::Cut { mark } => Reply::Cut { mark },
        Answer::Unstarted => Reply::Unstarted,
    }
}
