//! Reading reports.

ghost use Rattle.std.specs.Prelude.{◌≡◌, ℕ, List, Ok, Err, IfOk, IfErr};
ghost use Rattle.cat_text.specs.ReportGrammar.{IsReport, IsReportText};
ghost use Rattle.cat_text.specs.Reports.{report_text};
ghost use Rattle.cat_text.specs.declared.report.RoundReport.{RoundReport};
ghost use Rattle.report_reader.specs.Faults.{IsFirstOutside, IsRefusal, IsAnswered, fault_at};
ghost use Rattle.report_reader.specs.declared.fault.ReportFault.{ReportFault};

use crate::cut::split_line;
use crate::fault::{LineFault, ReportFault};
use crate::reading::Reading;
use cat_text::Report;
use std::alloc::Global;

/// Reads a text as a report.
///
/// Exactly the texts of reports are accepted, each as its report, and of another text exactly its first line outside
/// the grammar is told; but `NoMemory` may come of any text. A text that is read prints as itself, and a report prints
/// as a text that is read as it. It takes time linear in the text.
pub fn read_report(alloc: Global, bytes: &[u8]) -> Result<Report, ReportFault>
    ensures report { IfOk result (IsReportText bytes.now) }
    ensures accepted { (report : List RoundReport) → IsReportText bytes.now report → IsAnswered result (Ok report) }
    ensures prints { IfOk result (λ report. report_text report ≡ bytes.now) }
    ensures printed { (report : List RoundReport) → IsReport report → report_text report ≡ bytes.now →
        IsAnswered result (Ok report) }
    ensures fault { IfErr result (IsRefusal bytes.now) }
    ensures first_outside { (line : ℕ) → IsFirstOutside bytes.now line →
        IsAnswered result (Err (ReportFault.Line line)) }
{
    read_text(alloc, bytes)
}

/// The same, without what follows from the laws of the grammar.
fn read_text(alloc: Global, bytes: &[u8]) -> Result<Report, ReportFault>
    ensures report { IfOk result (IsReportText bytes.now) }
    ensures fault { IfErr result (IsRefusal bytes.now) }
{
    let mut reading = Reading::new(alloc);
    let mut rest = bytes;
    let mut number: u64 = 1;
    while let Some((line, more)) = split_line(rest) {
        if let Err(fault) = reading.add(alloc, line) {
            return Err(fault_at(number, fault));
        }
        rest = more;
        number += 1;
    }
    if !rest.is_empty() {
        return Err(ReportFault::Line { line: number });
    }
    match reading.finish() {
        Some(report) => Ok(report),
        None => Err(ReportFault::Line { line: number }),
    }
}

/// What is told of a fault of the line of this number.
fn fault_at(number: u64, fault: LineFault) -> ReportFault
    ensures { result ≡ fault_at number fault }
{
    match fault {
        LineFault::Outside => ReportFault::Line { line: number },
        LineFault::NoMemory => ReportFault::NoMemory,
    }
}
