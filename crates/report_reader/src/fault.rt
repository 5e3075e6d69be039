//! Why a text could not be read as a report.

/// Why a text could not be read as a report.
#[derive(Clone, Copy, Debug, PartialEq, Eq)]
pub enum ReportFault {
    /// This line, counted from 1, is the first outside the grammar of reports.
    Line { line: u64 },
    /// There was no memory for the report.
    NoMemory,
}

/// Why a line could not be taken.
#[derive(Clone, Copy)]
pub(crate) enum LineFault {
    /// It follows the lines before it in no report.
    Outside,
    /// There was no memory for what it says.
    NoMemory,
}
