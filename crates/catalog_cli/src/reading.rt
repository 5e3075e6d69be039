//! Reading a script, and whether it can be played.

ghost use Rattle.std.specs.Prelude.{◌≡◌, ◌+◌, ◌≤◌, ℕ, List, [], IfErr, IfOk, IfSome, OnOk, Some};
ghost use Rattle.cat_script.specs.Scripts.{IsScript};
ghost use Rattle.cat_text.specs.Outside.{ConsumesAtMost};
ghost use Rattle.catalog_cli.specs.Headline.{IsAfterReading};
ghost use Rattle.catalog_cli.specs.Refused.{IsUnread};
ghost use Rattle.catalog_cli.specs.Reports.{IsAccepted, IsRefusedBy};
ghost use Rattle.catalog_cli.specs.Runs.{AreBytesLeft};

use crate::status::Status;
use cat_script::{MOST_BYTES, Script, fits, read_script};
use cat_text::{Source, read_whole};
use pm_words::Layout;
use std::alloc::Global;

/// Whether a script fits a layout.
pub(crate) fn accept(script: &Script, layout: Layout) -> Result<(), Status>
    ensures accepted { OnOk result ((bytes : List ℕ) → IsScript bytes script.now →
        IsAccepted layout.callers bytes script.now) }
    ensures refused { IfErr result (λ status. (bytes : List ℕ) → IsScript bytes script.now →
        IsRefusedBy layout.callers bytes status) }
{
    fits(script, layout)?;
    Ok(())
}

/// Reads the script that a source gives, to its end.
pub(crate) fn read_source<S: Source>(alloc: Global, source: &mut S) -> Result<Script, Status>
    ensures script { IfOk result (λ script. (bytes : List ℕ) × AreBytesLeft (S.left source.old) bytes ×
        IsScript bytes script) }
    ensures refused { IfErr result (IsUnread (S.left source.old) (S.faults source.old) (S.faults source.new)) }
    ensures read_to_end { OnOk result (IfSome (S.left source.old) (λ _. S.left source.new ≡ Some [])) }
    ensures read_before_refusal { IfErr result (λ status. IsAfterReading status →
        IfSome (S.left source.old) (λ _. S.left source.new ≡ Some [])) }
    ensures takes { ConsumesAtMost (MOST_BYTES + 1) (S.left source.old) (S.left source.new) }
    ensures never_falls { S.faults source.old ≤ S.faults source.new }
    ensures stays_steady { S.steady source.old → S.steady source.new × (S.faults source.new ≡ S.faults source.old) }
{
    let bytes = read_whole(alloc, source, MOST_BYTES)?;
    let script = read_script(alloc, &bytes)?;
    Ok(script)
}
