//! What is wrong with a text that is no script.

ghost use Rattle.std.specs.Prelude.{◌≡◌, Some};
ghost use Rattle.std.specs.Fmt.{WritesOnOk};
ghost use Rattle.cat_script.specs.Faults.{passed_text, reason_text, script_fault_text};

use crate::line::Reason;
use cat_history::NoMemory;
use std::fmt;

/// How many bytes the text of a script may have.
pub const MOST_BYTES: usize = 4_194_304;

/// Why a text could not be read as a script. Lines are counted from 1.
#[derive(Clone, Copy, Debug, PartialEq, Eq)]
pub enum ScriptFault {
    /// It has more than `MOST_BYTES` bytes.
    Bytes,
    /// This line ends the 1001st round.
    Rounds { line: u64 },
    /// This line is the 100001st call.
    Calls { line: u64 },
    /// With this line scans ask for more than 1000000 names in all.
    Scans { line: u64 },
    /// This line is none of a script.
    Line { line: u64, reason: Reason },
    /// There was no memory for the script.
    NoMemory,
}

impl From<NoMemory> for ScriptFault {
    ghost use Rattle.cat_script.specs.declared.fault.ScriptFault.TheVariants.{NoMemory as OutOfMemory};

    ghost from_gives = { λ _ fault. fault ≡ OutOfMemory };

    fn from(_error: NoMemory) -> ScriptFault {
        ScriptFault::NoMemory
    }
}

/// The word that tells a reason.
fn reason_word(reason: &Reason) -> &'static str
    ensures { result.now ≡ reason_text reason.now }
{
    match reason {
        Reason::Byte => "byte",
        Reason::Verb => "verb",
        Reason::Words => "words",
        Reason::Caller => "caller",
        Reason::Name => "name",
        Reason::Number => "number",
    }
}

impl fmt::Display for Reason {
    ghost output = { λ reason. Some (reason_text reason) };

    fn fmt<W: fmt::Write>(&self, f: &mut fmt::Formatter<W>) -> fmt::Result {
        f.write_str(reason_word(self))
    }
}

/// Writes that with this line a script has more than it may have.
fn write_passed<W: fmt::Write>(f: &mut fmt::Formatter<W>, line: u64, most: &str) -> fmt::Result
    ensures { WritesOnOk W.write_str_gives f.old result (passed_text line most.now) f.new }
{
    write!(f, "script: line {line}: more than {most}")
}

impl fmt::Display for ScriptFault {
    ghost output = { λ fault. Some (script_fault_text fault) };

    fn fmt<W: fmt::Write>(&self, f: &mut fmt::Formatter<W>) -> fmt::Result {
        match self {
            ScriptFault::Bytes => write!(f, "script: more than 4194304 bytes"),
            ScriptFault::Rounds { line } => write_passed(f, *line, "1000 rounds"),
            ScriptFault::Calls { line } => write_passed(f, *line, "100000 calls"),
            ScriptFault::Scans { line } => write_passed(f, *line, "1000000 names"),
            ScriptFault::Line { line, reason } => write!(f, "script: line {line}: {reason}"),
            ScriptFault::NoMemory => write!(f, "out of memory"),
        }
    }
}
