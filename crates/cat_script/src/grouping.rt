//! Making rounds of lines.

ghost use Rattle.std.specs.Prelude.{◌≡◌, ◌∷◌, ◌++◌, [], List, Option, Some, None, IfOk, OnOk};
ghost use Rattle.cat_history.specs.declared.op.CallerOp.{CallerOp};
ghost use Rattle.cat_history.specs.declared.op.Op.{Op};
ghost use Rattle.cat_history.specs.declared.plan.CrashPlan.{CrashPlan};
ghost use Rattle.cat_script.specs.Grouping.{IsGrouping};
ghost use Rattle.cat_script.specs.Rounds.{AreRounds, EndsBy};
ghost use Rattle.cat_script.specs.declared.line.Line.{Line};

use crate::line::Line;
use cat_history::{CallerOp, CrashPlan, Items, NoMemory, Op, RoundPlan};
use pm_words::MOST_WRITES;
use std::alloc::Global;
use std::mem;

/// The updater's turns before a script sets them: one after each so many calls.
pub(crate) const FIRST_TURNS: u64 = 64;

/// The rounds that lines ended, and what the next one is asked so far.
#[derive(Drop)]
pub(crate) struct Grouping {
    pub ended: Vec<RoundPlan>,
    pub ops: Vec<CallerOp>,
    pub updater: u64,
    pub limit: u64,
}

impl Grouping {
    /// The rounds of no lines.
    pub(crate) fn new(alloc: Global) -> Grouping
        ensures { IsGrouping [] result }
    {
        Grouping {
            ended: Vec::new(alloc),
            ops: Vec::new(alloc),
            updater: FIRST_TURNS,
            limit: MOST_WRITES,
        }
    }

    /// Takes one more line.
    pub(crate) fn add(&mut self, alloc: Global, line: Line) -> Result<(), NoMemory>
        ensures { OnOk result ((said : List Line) → IsGrouping said self.old →
            IsGrouping (said ++ line ∷ []) self.new) }
    {
        match line {
            Line::Blank => Ok(()),
            Line::Call { caller, op } => self.call(caller, op),
            Line::Join => self.end(alloc, None),
            Line::Crash { plan } => self.end(alloc, Some(plan)),
            Line::Updater { turns } => {
                self.updater = turns;
                Ok(())
            }
            Line::Limit { limit } => {
                self.limit = limit;
                Ok(())
            }
        }
    }

    /// Takes one more call.
    fn call(&mut self, caller: u64, op: Op) -> Result<(), NoMemory>
        ensures { OnOk result ((said : List Line) → IsGrouping said self.old →
            IsGrouping (said ++ Line.Call caller op ∷ []) self.new) }
    {
        if self.ops.push(CallerOp { caller, op }).is_err() {
            return Err(NoMemory);
        }
        Ok(())
    }

    /// Ends the round.
    fn end(&mut self, alloc: Global, crash: Option<CrashPlan>) -> Result<(), NoMemory>
        ensures { OnOk result ((said : List Line) (line : Line) → EndsBy line crash → IsGrouping said self.old →
            IsGrouping (said ++ line ∷ []) self.new) }
    {
        let ops = mem::replace(&mut self.ops, Vec::new(alloc));
        let plan = RoundPlan {
            ops: Items::of(ops),
            updater: self.updater,
            limit: self.limit,
            crash,
        };
        if self.ended.push(plan).is_err() {
            return Err(NoMemory);
        }
        Ok(())
    }

    /// The rounds of a script that ends here.
    pub(crate) fn finish(mut self) -> Result<Items<RoundPlan>, NoMemory>
        ensures { IfOk result (λ rounds. (said : List Line) → IsGrouping said self → AreRounds said rounds) }
    {
        if self.ops.is_empty() && !self.ended.is_empty() {
            return Ok(Items::of(self.ended));
        }
        let plan = RoundPlan {
            ops: Items::of(self.ops),
            updater: self.updater,
            limit: self.limit,
            crash: None,
        };
        if self.ended.push(plan).is_err() {
            return Err(NoMemory);
        }
        Ok(Items::of(self.ended))
    }
}
