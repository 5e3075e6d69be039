//! Reading scripts.

ghost use Rattle.std.specs.Prelude.{◌≡◌, ◌↔◌, ℕ, ◌+◌, ◌<◌, ◌≤◌, ◌∷◌, ◌++◌};
ghost use Rattle.std.specs.Prelude.{◌^◌, List, [], length, IfOk, OnOk, IfErr, IsErrOf};
ghost use Rattle.std.specs.Prelude.{IfSome, IsNone, Ok, Err, Some, None};
ghost use Rattle.cat_history.specs.declared.op.Op.{Op};
ghost use Rattle.cat_script.specs.Asks.{IsLine};
ghost use Rattle.cat_script.specs.Counts.{HaveRoom};
ghost use Rattle.cat_script.specs.Lines.{lines_of};
ghost use Rattle.cat_script.specs.Reading.{IsReading, IsReasonAt, IsRefusedBehind, IsRefusal, IsAnswer};
ghost use Rattle.cat_script.specs.Scripts.{IsScript, IsFirstFault, numbered};
ghost use Rattle.cat_script.specs.declared.fault.ScriptFault.{ScriptFault};
ghost use Rattle.cat_script.specs.declared.line.Line.{Line};
ghost use Rattle.cat_script.specs.declared.script.Script.{Script};

use crate::ask::read_line;
use crate::counts::Counts;
use crate::cut::split_line;
use crate::fault::{MOST_BYTES, ScriptFault};
use crate::grouping::Grouping;
use crate::line::{Line, LineFault};
use crate::script::{Need, Script, ScriptLine};
use cat_history::{Items, NoMemory, Op};
use std::alloc::Global;

/// What was read of a script so far.
#[derive(Drop)]
pub(crate) struct Reading {
    pub counts: Counts,
    pub rounds: Grouping,
    pub lines: Vec<ScriptLine>,
}

impl Reading {
    /// Nothing read.
    fn new(alloc: Global) -> Reading
        ensures { IsReading [] result }
    {
        Reading {
            counts: Counts::new(),
            rounds: Grouping::new(alloc),
            lines: Vec::new(alloc),
        }
    }

    /// Takes one more line.
    fn add(&mut self, alloc: Global, line: &[u8]) -> Result<(), ScriptFault>
        requires { HaveRoom self.old.counts }
        ensures ok { OnOk result ((before : List (List ℕ)) → IsReading before self.old →
            IsReading (before ++ line.now ∷ []) self.new) }
        ensures err { IfErr result (λ fault. (before : List (List ℕ)) → IsReading before self.old →
            IsRefusedBehind before line.now fault) }
    {
        let number = self.counts.lines + 1;
        let asked = asked_in(alloc, line, number)?;
        self.counts.add(&asked)?;
        add_line(&mut self.lines, number, &asked)?;
        self.rounds.add(alloc, asked)?;
        Ok(())
    }
}

/// Reads a line of this number.
fn asked_in(alloc: Global, line: &[u8], number: u64) -> Result<Line, ScriptFault>
    ensures ok { IfOk result (IsLine line.now) }
    ensures err { IfErr result (IsReasonAt line.now number) }
{
    match read_line(alloc, line) {
        Ok(asked) => Ok(asked),
        Err(LineFault::Faulty(reason)) => Err(ScriptFault::Line {
            line: number,
            reason,
        }),
        Err(LineFault::NoMemory) => Err(ScriptFault::NoMemory),
    }
}

/// Adds a line of this number to those that ask something, where it does.
fn add_line(lines: &mut Vec<ScriptLine>, number: u64, asked: &Line) -> Result<(), NoMemory>
    ensures { OnOk result (lines.new.items ≡ lines.old.items ++ numbered number (asked.now ∷ [])) }
{
    let Some(need) = need_of(asked) else {
        return Ok(());
    };
    if lines.push(ScriptLine { number, need }).is_err() {
        return Err(NoMemory);
    }
    Ok(())
}

/// What a line asks of a layout; None where it is blank.
fn need_of(asked: &Line) -> Option<Need>
    ensures some { IfSome result (λ need. (number : ℕ) →
        numbered number (asked.now ∷ []) ≡ record { number = number; need = need } ∷ []) }
    ensures none { IsNone result → (number : ℕ) → numbered number (asked.now ∷ []) ≡ [] }
{
    match asked {
        Line::Blank => None,
        Line::Call { caller, .. } => Some(Need::Caller { number: *caller }),
        Line::Crash { plan } => Some(Need::Budgets {
            count: plan.budgets.as_slice().len() as u64,
        }),
        Line::Join | Line::Updater { .. } | Line::Limit { .. } => Some(Need::Nothing),
    }
}

/// Reads the lines of a text that has few enough bytes.
fn read_lines(alloc: Global, bytes: &[u8]) -> Result<Reading, ScriptFault>
    requires { length bytes.now ≤ MOST_BYTES }
    ensures ok { IfOk result (IsReading (lines_of bytes.now)) }
    ensures err { IfErr result (IsRefusal bytes.now) }
{
    let mut reading = Reading::new(alloc);
    let mut rest = bytes;
    while !rest.is_empty() {
        let (line, more) = split_line(rest);
        reading.add(alloc, line)?;
        rest = more;
    }
    Ok(reading)
}

/// Reads a text as a script.
///
/// Exactly scripts are accepted, and of another text exactly its first fault is told; but `NoMemory` may come wherever
/// the text has no more than `MOST_BYTES` bytes. A text that is too long is told as such, whatever its lines are. It
/// takes time linear in the text.
pub fn read_script(alloc: Global, bytes: &[u8]) -> Result<Script, ScriptFault>
    ensures script { IfOk result (IsScript bytes.now) }
    ensures accepted { (script : Script) → IsScript bytes.now script → IsAnswer result (Ok script) }
    ensures bytes { IsErrOf result ScriptFault.Bytes ↔ (MOST_BYTES < length bytes.now) }
    ensures fault { IfErr result (IsRefusal bytes.now) }
    ensures first_fault { (fault : ScriptFault) → IsFirstFault bytes.now fault → IsAnswer result (Err fault) }
{
    read_text(alloc, bytes)
}

/// The same, without what follows from the laws of the grammar.
fn read_text(alloc: Global, bytes: &[u8]) -> Result<Script, ScriptFault>
    ensures script { IfOk result (IsScript bytes.now) }
    ensures refused { IfErr result (IsRefusal bytes.now) }
    ensures long { MOST_BYTES < length bytes.now → result ≡ Err ScriptFault.Bytes }
{
    if bytes.len() > MOST_BYTES {
        return Err(ScriptFault::Bytes);
    }
    let Reading { rounds, lines, .. } = read_lines(alloc, bytes)?;
    let rounds = rounds.finish()?;
    Ok(Script {
        rounds,
        lines: Items::of(lines),
    })
}
