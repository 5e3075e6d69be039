//! Laws on the first line of a text that is outside the grammar of reports, named by the contract of a function.

ghost use Rattle.report_reader.specs.Laws.{IsOneFirstAtMost, OutsideIsNoText};

/// A text of which a line is the first outside the grammar is no report's, and one line at most is the first outside.
pub fn reader_law()
    ensures outside { OutsideIsNoText }
    ensures one_first { IsOneFirstAtMost }
{}
