//! Laws on the grammar of reports, named by the contract of a function.

ghost use Rattle.cat_text.specs.ReportGrammar.{HasItsText, HasOneText, IsOneReportAtMost, LoneRecordsStand};

/// A report has one text, the one that is printed, and a text is that of one report at most. Where one caller alone has
/// calls, its records in the order of the script stand as those of a report do.
pub fn report_law()
    ensures text { HasItsText }
    ensures one_text { HasOneText }
    ensures one_report { IsOneReportAtMost }
    ensures lone_records { LoneRecordsStand }
{}
