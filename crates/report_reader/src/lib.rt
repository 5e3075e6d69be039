//! Reading reports: the report that a text is, or the first line of it that is outside the grammar of reports.
#![tactic(auto)]

mod answer;
mod call;
mod cut;
mod fault;
mod field;
mod head;
pub mod laws;
mod part;
mod read;
mod reading;

pub use fault::ReportFault;
pub use read::read_report;
