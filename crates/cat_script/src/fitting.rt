//! Whether a script fits a layout.

ghost use Rattle.std.specs.Prelude.{◌≡◌, ◌↔◌, ℕ, All, IsOk, IfErr, IsErrOf, IfSome, IsNone};
ghost use Rattle.cat_script.specs.Fits.{IsUnfit, FitsCallers, IsFirstUnfit, IsUnfitBy};
ghost use Rattle.cat_script.specs.declared.line.Reason.{Reason};

use crate::fault::ScriptFault;
use crate::line::Reason;
use crate::script::{Need, Script, ScriptLine};
use pm_words::Layout;

/// Whether a script fits a layout: each caller is one of the layout's, and each crash line has one budget for each
/// caller of the layout. The fault is that of the first line that doesn't fit. It takes no memory.
pub fn fits(script: &Script, layout: Layout) -> Result<(), ScriptFault>
    ensures fits { IsOk result ↔ All (FitsCallers layout.callers) script.now.lines }
    ensures unfit { IfErr result (IsUnfitBy layout.callers script.now.lines) }
    ensures first_unfit { (line : ℕ) (why : Reason) → IsFirstUnfit layout.callers script.now.lines line why →
        IsErrOf result (ScriptFault.Line line why) }
{
    look_through(script.lines.as_slice(), layout.callers())
}

/// The same of lines and a number of callers.
fn look_through(lines: &[ScriptLine], callers: u64) -> Result<(), ScriptFault>
    ensures fits { IsOk result ↔ All (FitsCallers callers) lines.now }
    ensures unfit { IfErr result (IsUnfitBy callers lines.now) }
{
    for line in lines {
        if let Some(reason) = unfit(line.need, callers) {
            return Err(ScriptFault::Line {
                line: line.number,
                reason,
            });
        }
    }
    Ok(())
}

/// Why a line that asks this doesn't fit so many callers; None where it does.
fn unfit(need: Need, callers: u64) -> Option<Reason>
    ensures some { IfSome result (IsUnfit callers need) }
    ensures none { IsNone result → (why : Reason) → ¬ IsUnfit callers need why }
{
    match need {
        Need::Caller { number } if number >= callers => Some(Reason::Caller),
        Need::Budgets { count } if count != callers => Some(Reason::Words),
        Need::Caller { .. } | Need::Budgets { .. } | Need::Nothing => None,
    }
}
