//! The top call: from the words of a command and the bytes of a script to the bytes of a report.

ghost use Rattle.std.specs.Prelude.{◌≡◌, ◌+◌, ◌≤◌, ◌↔◌, ℕ, List, [], Some, None, IfErr, IfOk, IfSome, OnOk, map};
ghost use Rattle.std.specs.String.{string_bytes};
ghost use Rattle.cat_command.specs.Commands.{IsCommand};
ghost use Rattle.cat_command.specs.declared.command.Command.{Command};
ghost use Rattle.cat_text.specs.Outside.{ConsumesAtMost};
ghost use Rattle.catalog_cli.specs.Headline.{BlamesNoSteady, HasNoReport, HasNoText, IsAfterReading, IsCauseOf};
ghost use Rattle.catalog_cli.specs.Headline.{IsOfWords, IsRunOf, LeavesFiles, LeavesShelf, LeavesSink, PlaysSome};
ghost use Rattle.catalog_cli.specs.Headline.{Prints, ReadsSome, WritesNothing, seen};
ghost use Rattle.catalog_cli.specs.Refused.{IsOfNoCommand};
ghost use Rattle.catalog_cli.specs.Reports.{IsReportOf, empty_opening};
ghost use Rattle.catalog_cli.specs.Runs.{AreBytesLeft};
ghost use Rattle.catalog_cli.specs.declared.status.Status.{Status};
ghost use Rattle.pm_words.specs.Layouts.{IsLayout};

use crate::files::{file_of, format_file, list_words};
use crate::generated::play_generated;
use crate::play::play;
use crate::reading::{accept, read_source};
use crate::run_file::run_file;
use crate::status::Status;
use cat_command::{Command, read_command};
use cat_script::MOST_BYTES;
use cat_text::{Shelf, Sink, Source, WriteFault, print_report, write_whole};
use crowd_rounds::pac_index::Gate;
use pm_words::Layout;
use std::alloc::Global;
use std::sync::Wait;
use std::thread::Threads;

/// Runs the command that the words name: plays calls, and writes to the sink what they came to.
///
/// - `play NODES SLOTS CALLERS` plays the script that the source gives, from an empty catalogue of that layout, and
///   writes its report. The script is read to its end and looked through before anything is played.
/// - `run FILE` plays the script that the source gives on the catalogue in a file of the shelf. The image that its
///   rounds leave is saved under the same name, once and whole, and then the report is written. The script is read to
///   its end before the file is loaded, and it is looked through once the file is known to be a sound image.
/// - `gen SEED COUNT CALLERS` plays a round of calls that the seed makes, and writes a line that sums them up.
/// - `format FILE NODES SLOTS CALLERS` saves the image of an empty catalogue of that layout on the shelf, under a name
///   that has no file yet, and writes a line that tells of it.
/// - `words FILE FROM COUNT` writes the words of an image on the shelf that have these numbers, a line each.
///
/// In a round that one caller has calls in, they are made one after another. In one of several callers each makes its
/// own in a thread of the runtime, all at once, and the gate is called between their steps; there a call may wait for a
/// node that another caller holds. A crash that ends a round cuts off what has used up its budget by then, and the next
/// round is played on what is found in the image that the crash left.
///
/// Only `play` and `run` read. What is written is made whole before its first byte is written, and a file is saved
/// before that.
pub fn catalog<R: Threads + Wait + Sync, S: Source, K: Sink, H: Shelf, G: Gate>(
    rt: &R,
    alloc: Global,
    words: &[String],
    script: &mut S,
    out: &mut K,
    shelf: &mut H,
    gate: &G,
) -> Status
    // What was written: the text of a report of the grammar, that of the script, each of whose rounds is legal, and in
    // rounds that a crash ends calls are answered in time; for a run on a file the very rounds that the file has now;
    // or the summary of a legal round of the generated calls; or the line of a fresh image; or the words of a file; or
    // a beginning of one of these; or nothing. What the shelf has then: a new file of a fresh image, a file with the
    // image that a run on it left, or what it had; no other file ever changes. Each status has its cause, and comes
    // where that is given, unless memory runs out.
    ensures run { IsRunOf (map string_bytes words.now)
        (seen (S.left script.old) (H.files shelf.old) (H.files shelf.new) (S.faults script.old) (S.faults script.new)
        (H.faults shelf.old) (H.faults shelf.new)) (K.written out.old) (K.written out.new) (K.faults out.old)
        (K.faults out.new) result }
    ensures nothing_written { WritesNothing result → out.new ≡ out.old }
    ensures no_file { PlaysSome (map string_bytes words.now) → shelf.new ≡ shelf.old }

    // What was read: all of a script, and never more than tells that it is too long; nothing for words alone and for
    // other commands.
    ensures nothing_read { IsOfWords result → script.new ≡ script.old }
    ensures reads_no_script { (¬ ReadsSome (map string_bytes words.now)) → script.new ≡ script.old }
    ensures read_to_end { ReadsSome (map string_bytes words.now) → IsAfterReading result →
        IfSome (S.left script.old) (λ _. S.left script.new ≡ Some []) }
    ensures takes { ConsumesAtMost (MOST_BYTES + 1) (S.left script.old) (S.left script.new) }
    ensures source_never_falls { S.faults script.old ≤ S.faults script.new }
    ensures sink_never_falls { K.faults out.old ≤ K.faults out.new }
    ensures shelf_never_falls { H.faults shelf.old ≤ H.faults shelf.new }

    // What is steady stays so, and no call of it fails: no status says that it did.
    ensures source_stays_steady { S.steady script.old →
        S.steady script.new × (S.faults script.new ≡ S.faults script.old) }
    ensures sink_stays_steady { K.steady out.old → K.steady out.new × (K.faults out.new ≡ K.faults out.old) }
    ensures shelf_stays_steady { H.steady shelf.old → H.steady shelf.new × (H.faults shelf.new ≡ H.faults shelf.old) }
    ensures blames { BlamesNoSteady (S.steady script.old) (K.steady out.old) (H.steady shelf.old) result }
{
    run_command(rt, alloc, words, script, out, shelf, gate)
}

/// The same, without what follows from each status having its cause.
fn run_command<R: Threads + Wait + Sync, S: Source, K: Sink, H: Shelf, G: Gate>(
    rt: &R,
    alloc: Global,
    words: &[String],
    script: &mut S,
    out: &mut K,
    shelf: &mut H,
    gate: &G,
) -> Status
    ensures sink { LeavesSink (map string_bytes words.now)
        (seen (S.left script.old) (H.files shelf.old) (H.files shelf.new) (S.faults script.old) (S.faults script.new)
        (H.faults shelf.old) (H.faults shelf.new)) result (K.written out.old) (K.written out.new) }
    ensures nothing_written { WritesNothing result → out.new ≡ out.old }
    ensures files { LeavesShelf (map string_bytes words.now)
        (seen (S.left script.old) (H.files shelf.old) (H.files shelf.new) (S.faults script.old) (S.faults script.new)
        (H.faults shelf.old) (H.faults shelf.new)) result }
    ensures no_file { PlaysSome (map string_bytes words.now) → shelf.new ≡ shelf.old }
    ensures cause { IsCauseOf (map string_bytes words.now)
        (seen (S.left script.old) (H.files shelf.old) (H.files shelf.new) (S.faults script.old) (S.faults script.new)
        (H.faults shelf.old) (H.faults shelf.new)) (K.faults out.old) (K.faults out.new) result }
    ensures nothing_read { IsOfWords result → script.new ≡ script.old }
    ensures reads_no_script { (¬ ReadsSome (map string_bytes words.now)) → script.new ≡ script.old }
    ensures read_to_end { ReadsSome (map string_bytes words.now) → IsAfterReading result →
        IfSome (S.left script.old) (λ _. S.left script.new ≡ Some []) }
    ensures takes { ConsumesAtMost (MOST_BYTES + 1) (S.left script.old) (S.left script.new) }
    ensures source_never_falls { S.faults script.old ≤ S.faults script.new }
    ensures sink_never_falls { K.faults out.old ≤ K.faults out.new }
    ensures shelf_never_falls { H.faults shelf.old ≤ H.faults shelf.new }
    ensures source_stays_steady { S.steady script.old →
        S.steady script.new × (S.faults script.new ≡ S.faults script.old) }
    ensures sink_stays_steady { K.steady out.old → K.steady out.new × (K.faults out.new ≡ K.faults out.old) }
    ensures shelf_stays_steady { H.steady shelf.old → H.steady shelf.new × (H.faults shelf.new ≡ H.faults shelf.old) }
{
    match text_of(rt, alloc, words, script, shelf, gate) {
        Err(status) => status,
        Ok(text) => match write_whole(out, &text) {
            Ok(()) => Status::Done,
            Err(WriteFault::Failed) => Status::Write,
            Err(WriteFault::NoMemory) => Status::NoMemory,
        },
    }
}

/// What the command prints that the words name.
fn text_of<R: Threads + Wait + Sync, S: Source, H: Shelf, G: Gate>(
    rt: &R,
    alloc: Global,
    words: &[String],
    script: &mut S,
    shelf: &mut H,
    gate: &G,
) -> Result<Vec<u8>, Status>
    ensures prints { IfOk result (λ text. Prints (map string_bytes words.now)
        (seen (S.left script.old) (H.files shelf.old) (H.files shelf.new) (S.faults script.old) (S.faults script.new)
        (H.faults shelf.old) (H.faults shelf.new)) text.items) }
    ensures cause { IfErr result (HasNoText (map string_bytes words.now)
        (seen (S.left script.old) (H.files shelf.old) (H.files shelf.new) (S.faults script.old) (S.faults script.new)
        (H.faults shelf.old) (H.faults shelf.new))) }
    ensures files { OnOk result (LeavesFiles (map string_bytes words.now)
        (seen (S.left script.old) (H.files shelf.old) (H.files shelf.new) (S.faults script.old) (S.faults script.new)
        (H.faults shelf.old) (H.faults shelf.new))) }
    ensures files_then { IfErr result (LeavesShelf (map string_bytes words.now)
        (seen (S.left script.old) (H.files shelf.old) (H.files shelf.new) (S.faults script.old) (S.faults script.new)
        (H.faults shelf.old) (H.faults shelf.new))) }
    ensures no_file { PlaysSome (map string_bytes words.now) → shelf.new ≡ shelf.old }
    ensures nothing_read { IfErr result (λ status. IsOfWords status → script.new ≡ script.old) }
    ensures reads_no_script { (¬ ReadsSome (map string_bytes words.now)) → script.new ≡ script.old }
    ensures read_to_end { OnOk result (ReadsSome (map string_bytes words.now) →
        IfSome (S.left script.old) (λ _. S.left script.new ≡ Some [])) }
    ensures read_before_refusal { IfErr result (λ status. ReadsSome (map string_bytes words.now) →
        IsAfterReading status → IfSome (S.left script.old) (λ _. S.left script.new ≡ Some [])) }
    ensures takes { ConsumesAtMost (MOST_BYTES + 1) (S.left script.old) (S.left script.new) }
    ensures never_falls { S.faults script.old ≤ S.faults script.new }
    ensures shelf_never_falls { H.faults shelf.old ≤ H.faults shelf.new }
    ensures stays_steady { S.steady script.old → S.steady script.new × (S.faults script.new ≡ S.faults script.old) }
    ensures shelf_stays_steady { H.steady shelf.old → H.steady shelf.new × (H.faults shelf.new ≡ H.faults shelf.old) }
{
    match asked_command(words)? {
        Command::Play { layout } => report_of(rt, alloc, layout, script, gate),
        Command::Gen {
            seed,
            count,
            callers,
        } => {
            let text = play_generated(rt, alloc, seed, count, callers, gate)?;
            Ok(text)
        }
        Command::Format { layout } => format_file(alloc, shelf, file_of(words), layout),
        Command::Words { from, count } => list_words(alloc, shelf, file_of(words), from, count),
        Command::Run => run_file(rt, alloc, script, shelf, file_of(words), gate),
    }
}

/// The command that the words name.
fn asked_command(words: &[String]) -> Result<Command, Status>
    ensures command { IfOk result (IsCommand (map string_bytes words.now)) }
    ensures refused { IfErr result (IsOfNoCommand (map string_bytes words.now)) }
{
    read_command(words).ok_or(Status::Usage)
}

/// Reads the script, plays it on a catalogue of this layout, and makes its report.
fn report_of<R: Threads + Wait + Sync, S: Source, G: Gate>(
    rt: &R,
    alloc: Global,
    layout: Layout,
    script: &mut S,
    gate: &G,
) -> Result<Vec<u8>, Status>
    requires layout { IsLayout layout }
    ensures report { IfOk result (λ text. (bytes : List ℕ) × AreBytesLeft (S.left script.old) bytes ×
        IsReportOf (empty_opening layout) bytes text.items) }
    ensures read_to_end { OnOk result (IfSome (S.left script.old) (λ _. S.left script.new ≡ Some [])) }
    ensures read_before_refusal { IfErr result (λ status. IsAfterReading status →
        IfSome (S.left script.old) (λ _. S.left script.new ≡ Some [])) }
    ensures takes { ConsumesAtMost (MOST_BYTES + 1) (S.left script.old) (S.left script.new) }
    ensures never_falls { S.faults script.old ≤ S.faults script.new }
    ensures stays_steady { S.steady script.old → S.steady script.new × (S.faults script.new ≡ S.faults script.old) }
    ensures refusal { IfErr result (HasNoReport layout.callers (S.left script.old) (S.faults script.old)
        (S.faults script.new)) }
{
    // The bytes are let go once they are read, and the script once it is played: what a long one takes is memory.
    let script = read_source(alloc, script)?;
    accept(&script, layout)?;
    let report = play(rt, alloc, &layout, script, gate)?;
    let text = print_report(alloc, &report)?;
    Ok(text)
}
