//! Printing reports. Each function `add_..` adds the text of one part at the end of the text so far.

ghost use Rattle.std.specs.Prelude.{◌≡◌, ◌≤◌, ◌++◌, ℕ, List, codes, decimal, flat_map, length, IfOk, OnOk};
ghost use Rattle.cat_text.specs.ReportGrammar.{IsReport, IsReportText};
ghost use Rattle.cat_text.specs.Reports.{cut_text, end_word, high_text, last_line, mark_text, old_text, op_text};
ghost use Rattle.cat_text.specs.Reports.{pair_text, part_line, part_lines, record_line, record_text, reply_text};
ghost use Rattle.cat_text.specs.Reports.{report_text, round_text};

use crate::NoMemory;
use crate::report::{Report, RoundReport};
use crate::room::room_for;
use cat_history::{CutMark, Op, Record, Reply, ScanPart};
use cat_key::{Name, Pair};
use itoa::Buffer;
use std::alloc::Global;

/// As many bytes as a word and a number can have: 12 and 20.
const MOST_OF_FIELD: usize = 32;

/// The text of a report, which tells it.
///
/// It is made whole, in time linear in its length; the error is that there was no memory for it.
pub fn print_report(alloc: Global, report: &Report) -> Result<Vec<u8>, NoMemory>
    requires report { IsReport report.now }
    ensures text { IfOk result (λ text. text.items ≡ report_text report.now) }
    ensures tells { IfOk result (λ text. IsReportText text.items report.now) }
{
    print_rounds(alloc, report)
}

/// The same of any rounds, also where they are no report.
pub fn print_rounds(alloc: Global, report: &Report) -> Result<Vec<u8>, NoMemory>
    ensures { IfOk result (λ text. text.items ≡ report_text report.now) }
{
    let rounds = report.as_slice();
    let mut text = Vec::with_capacity(alloc, room_for(rounds))?;
    for round in rounds {
        add_round(&mut text, round)?;
    }
    Ok(text)
}

fn add_round(text: &mut Vec<u8>, round: &RoundReport) -> Result<(), NoMemory>
    ensures { OnOk result (text.new.items ≡ text.old.items ++ round_text round.now) }
{
    add_each(text, round.records.as_slice())?;
    add_last_line(text, round)
}

/// What has a text of its own in a report, and stands there behind others of its kind.
trait Printed {
    ghost printed: { Self → List ℕ };

    /// Adds its text.
    fn add_to(&self, text: &mut Vec<u8>) -> Result<(), NoMemory>
        ensures { OnOk result (text.new.items ≡ text.old.items ++ printed self.now) };
}

/// Adds the texts of these, one behind another.
fn add_each<T: Printed>(text: &mut Vec<u8>, items: &[T]) -> Result<(), NoMemory>
    ensures { OnOk result (text.new.items ≡ text.old.items ++ flat_map T.printed items.now) }
{
    for item in items {
        item.add_to(text)?;
    }
    Ok(())
}

fn add_last_line(text: &mut Vec<u8>, round: &RoundReport) -> Result<(), NoMemory>
    ensures { OnOk result (text.new.items ≡ text.old.items ++ last_line round.now) }
{
    add_end(text, round.crashed)?;
    add_field(text, b" ", round.writes)?;
    add_field(text, b" names ", round.names)?;
    text.extend_from_slice(b"\n")
}

fn add_end(text: &mut Vec<u8>, crashed: bool) -> Result<(), NoMemory>
    ensures { OnOk result (text.new.items ≡ text.old.items ++ end_word crashed) }
{
    if crashed {
        text.extend_from_slice(b"crash")
    } else {
        text.extend_from_slice(b"join")
    }
}

impl Printed for Record {
    ghost printed = { record_text };

    fn add_to(&self, text: &mut Vec<u8>) -> Result<(), NoMemory> {
        add_record_line(text, self)?;
        add_part_lines(text, &self.reply)
    }
}

fn add_record_line(text: &mut Vec<u8>, call: &Record) -> Result<(), NoMemory>
    ensures { OnOk result (text.new.items ≡ text.old.items ++ record_line call.now) }
{
    add_caller(text, call.caller)?;
    add_op(text, &call.op)?;
    add_reply(text, &call.reply)?;
    text.extend_from_slice(b"\n")
}

/// Adds a caller's number, which is mostly a digit.
fn add_caller(text: &mut Vec<u8>, caller: u64) -> Result<(), NoMemory>
    ensures { OnOk result (text.new.items ≡ text.old.items ++ decimal caller) }
{
    if caller < 10 {
        return text.extend_from_slice(&[b'0' + caller as u8]);
    }
    add_number(text, caller)
}

/// Adds what a call asks, behind a space.
fn add_op(text: &mut Vec<u8>, op: &Op) -> Result<(), NoMemory>
    ensures { OnOk result (text.new.items ≡ text.old.items ++ (codes " " ++ op_text op.now)) }
{
    match op {
        Op::Put { name, value } => {
            text.extend_from_slice(b" put ")?;
            add_name(text, name)?;
            add_field(text, b" ", *value)
        }
        Op::Get { name } => {
            text.extend_from_slice(b" get ")?;
            add_name(text, name)
        }
        Op::Del { name } => {
            text.extend_from_slice(b" del ")?;
            add_name(text, name)
        }
        Op::Scan { from, count } => {
            text.extend_from_slice(b" scan ")?;
            add_name(text, from)?;
            add_field(text, b" ", *count)
        }
    }
}

/// Adds what a call was answered, behind an arrow.
fn add_reply(text: &mut Vec<u8>, reply: &Reply) -> Result<(), NoMemory>
    ensures { OnOk result (text.new.items ≡ text.old.items ++ (codes " -> " ++ reply_text reply.now)) }
{
    match reply {
        Reply::Old { old, place } => {
            add_old(text, *old)?;
            add_place(text, *place)
        }
        Reply::Parts { parts, cut } => add_parts(text, parts.as_slice(), *cut),
        Reply::Full => text.extend_from_slice(b" -> full"),
        Reply::Spent { clock } => add_field(text, b" -> spent ", *clock),
        Reply::Cut { mark } => {
            text.extend_from_slice(b" -> cut")?;
            add_mark(text, mark)
        }
        Reply::Unstarted => text.extend_from_slice(b" -> unstarted"),
    }
}

/// Adds how many parts a scan has, and whether it was cut off, behind an arrow.
fn add_parts(text: &mut Vec<u8>, parts: &[ScanPart], cut: bool) -> Result<(), NoMemory>
    ensures { OnOk result (text.new.items
        ≡ text.old.items ++ (codes " -> " ++ decimal (length parts.now) ++ cut_text cut)) }
{
    add_field(text, b" -> ", parts.len() as u64)?;
    if cut {
        text.extend_from_slice(b" parts cut")
    } else {
        text.extend_from_slice(b" parts")
    }
}

fn add_mark(text: &mut Vec<u8>, mark: &CutMark) -> Result<(), NoMemory>
    ensures { OnOk result (text.new.items ≡ text.old.items ++ mark_text mark.now) }
{
    match mark {
        CutMark::At { place } => add_place(text, *place),
        CutMark::Found => text.extend_from_slice(b" found"),
        CutMark::Lost => text.extend_from_slice(b" lost"),
        CutMark::Open | CutMark::Read => Ok(()),
    }
}

#[inline]
fn add_place(text: &mut Vec<u8>, place: u64) -> Result<(), NoMemory>
    ensures { OnOk result (text.new.items ≡ text.old.items ++ (codes " @" ++ decimal place)) }
{
    add_field(text, b" @", place)
}

fn add_part_lines(text: &mut Vec<u8>, reply: &Reply) -> Result<(), NoMemory>
    ensures { OnOk result (text.new.items ≡ text.old.items ++ part_lines reply.now) }
{
    match reply {
        Reply::Parts { parts, .. } => add_each(text, parts.as_slice()),
        Reply::Old { .. }
        | Reply::Full
        | Reply::Spent { .. }
        | Reply::Cut { .. }
        | Reply::Unstarted => Ok(()),
    }
}

impl Printed for ScanPart {
    ghost printed = { part_line };

    fn add_to(&self, text: &mut Vec<u8>) -> Result<(), NoMemory> {
        text.extend_from_slice(b"part ")?;
        add_name(text, &self.low)?;
        add_high(text, &self.high)?;
        add_place(text, self.place)?;
        add_each(text, self.pairs.as_slice())?;
        text.extend_from_slice(b"\n")
    }
}

fn add_high(text: &mut Vec<u8>, high: &Option<Name>) -> Result<(), NoMemory>
    ensures { OnOk result (text.new.items ≡ text.old.items ++ high_text high.now) }
{
    match high {
        Some(high) => {
            text.extend_from_slice(b" to ")?;
            add_name(text, high)
        }
        None => text.extend_from_slice(b" end"),
    }
}

impl Printed for Pair {
    ghost printed = { pair_text };

    fn add_to(&self, text: &mut Vec<u8>) -> Result<(), NoMemory> {
        text.extend_from_slice(b" ")?;
        add_name(text, &self.name)?;
        add_field(text, b" ", self.value)
    }
}

/// Adds the number that a name had, or that it had none, behind an arrow.
fn add_old(text: &mut Vec<u8>, old: Option<u64>) -> Result<(), NoMemory>
    ensures { OnOk result (text.new.items ≡ text.old.items ++ (codes " -> " ++ old_text old)) }
{
    match old {
        Some(value) => add_field(text, b" -> ", value),
        None => text.extend_from_slice(b" -> none"),
    }
}

#[inline]
fn add_name(text: &mut Vec<u8>, name: &Name) -> Result<(), NoMemory>
    ensures { OnOk result (text.new.items ≡ text.old.items ++ name.now) }
{
    name.append_to(text)
}

/// Adds a word and a number behind it, in one piece.
#[inline]
pub(crate) fn add_field(text: &mut Vec<u8>, word: &[u8], number: u64) -> Result<(), NoMemory>
    requires { length word.now ≤ 12 }
    ensures { OnOk result (text.new.items ≡ text.old.items ++ (word.now ++ decimal number)) }
{
    let mut piece = [0; MOST_OF_FIELD];
    let digits = itoa::write_digits(number, &mut piece, MOST_OF_FIELD);
    let start = digits - word.len();
    piece[start..digits].copy_from_slice(word);
    text.extend_from_slice(&piece[start..])
}

#[inline]
pub(crate) fn add_number(text: &mut Vec<u8>, number: u64) -> Result<(), NoMemory>
    ensures { OnOk result (text.new.items ≡ text.old.items ++ decimal number) }
{
    text.extend_from_slice(Buffer::new().format(number).as_bytes())
}
