//! Tests of the reader of reports and of the outside: `report_reader`, `cat_text`. What the program shows of them stands in
//! examples/cases.
#![tactic(auto)]

#[cfg(test)]
mod tests;
