//! How much the lines of a script ask for.

ghost use Rattle.std.specs.Prelude.{◌≡◌, ◌∷◌, ◌++◌, [], ◌<◌, ◌+◌, ◌^◌, List, IfErr, OnOk};
ghost use Rattle.cat_script.specs.Counts.{AreCounts, HaveRoom};
ghost use Rattle.cat_script.specs.Limits.{PassLimit, end_count, call_count, scan_count};
ghost use Rattle.cat_script.specs.declared.line.Line.{Line};

use crate::fault::ScriptFault;
use crate::line::Line;
use cat_history::Op;

/// How many lines may end a round.
const MOST_ROUNDS: u64 = 1_000;

/// How many calls a script may have.
const MOST_CALLS: u64 = 100_000;

/// How many names its scans may ask for in all.
const MOST_SCANS: u64 = 1_000_000;

/// How much some lines ask for.
#[derive(Clone, Copy)]
pub(crate) struct Counts {
    /// The lines, blank ones too.
    pub lines: u64,
    /// Those that end a round.
    pub ends: u64,
    pub calls: u64,
    /// The names that scans ask for.
    pub scans: u64,
}

impl Counts {
    /// The counts of no lines.
    pub(crate) fn new() -> Counts
        ensures { AreCounts [] result }
    {
        Counts {
            lines: 0,
            ends: 0,
            calls: 0,
            scans: 0,
        }
    }

    /// Counts one more line; an error is the first limit that it passes.
    pub(crate) fn add(&mut self, line: &Line) -> Result<(), ScriptFault>
        requires { HaveRoom self.old }
        ensures ok { OnOk result ((said : List Line) → AreCounts said self.old →
            AreCounts (said ++ line.now ∷ []) self.new) }
        ensures err { IfErr result (λ fault. (said : List Line) → AreCounts said self.old →
            PassLimit (said ++ line.now ∷ []) fault) }
    {
        let line_number = self.lines + 1;
        let (ends, calls, scans) = (ends_of(line), calls_of(line), scans_of(line));
        if MOST_ROUNDS - self.ends < ends {
            return Err(ScriptFault::Rounds { line: line_number });
        }
        if MOST_CALLS - self.calls < calls {
            return Err(ScriptFault::Calls { line: line_number });
        }
        if MOST_SCANS - self.scans < scans {
            return Err(ScriptFault::Scans { line: line_number });
        }
        self.lines = line_number;
        self.ends += ends;
        self.calls += calls;
        self.scans += scans;
        Ok(())
    }
}

/// One for a line that ends a round.
fn ends_of(line: &Line) -> u64
    ensures { result ≡ end_count line.now }
{
    match line {
        Line::Join | Line::Crash { .. } => 1,
        Line::Blank | Line::Call { .. } | Line::Updater { .. } | Line::Limit { .. } => 0,
    }
}

/// One for a call.
fn calls_of(line: &Line) -> u64
    ensures { result ≡ call_count line.now }
{
    match line {
        Line::Call { .. } => 1,
        Line::Blank | Line::Join | Line::Crash { .. } | Line::Updater { .. } | Line::Limit { .. } =>
            0,
    }
}

/// The names that a scan asks for.
fn scans_of(line: &Line) -> u64
    ensures { result ≡ scan_count line.now }
{
    match line {
        Line::Call {
            op: Op::Scan { count, .. },
            ..
        } => *count,
        Line::Call { .. }
        | Line::Blank
        | Line::Join
        | Line::Crash { .. }
        | Line::Updater { .. }
        | Line::Limit { .. } => 0,
    }
}
