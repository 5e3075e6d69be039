//! Texts with the first line of each that is outside the grammar of reports, and those that are reports.

use cat_text::print_rounds;
use report_reader::{ReportFault, read_report};
use std::alloc::Global;
use std::test::Fail;

/// The first line of a text that is outside the grammar; 0 where the text is a report and prints as itself. None where
/// it prints otherwise, and where there is no memory.
fn line_told(alloc: Global, text: &str) -> Option<u64> {
    match read_report(alloc, text.as_bytes()) {
        Ok(report) => {
            let printed = print_rounds(alloc, &report).ok()?;
            (printed.as_slice() == text.as_bytes()).then_some(0)
        }
        Err(ReportFault::Line { line }) => Some(line),
        Err(ReportFault::NoMemory) => None,
    }
}

/// The first of these rows that is told otherwise.
fn first_other(alloc: Global, rows: &[(&str, u64)]) -> Option<usize> {
    rows.iter()
        .position(|(text, line)| line_told(alloc, text) != Some(*line))
}

/// Each form of a report is read, and printed as it was.
#[test]
fn reports_are_read(rt: HostRuntime) -> Result<(), Fail> {
    let rows = [
        ("join 0 names 0\n", 0),
        ("crash 18446744073709551615 names 1\njoin 0 names 0\n", 0),
        (
            "0 put a 7 -> none @0\n0 put a 8 -> 7 @1\n0 get a -> 8 @2\njoin 2 names 1\n",
            0,
        ),
        (
            "3 put a 7 -> full\n3 del a -> spent 9\n15 put b 0 -> spent 9\njoin 9 names 0\n",
            0,
        ),
        (
            "0 put a 7 -> cut @3\n0 put a 7 -> cut found\n0 del a -> cut lost\ncrash 1 names 1\n",
            0,
        ),
        (
            "0 get a -> cut\n0 scan a 1 -> unstarted\n0 del ~ -> unstarted\ncrash 0 names 0\n",
            0,
        ),
        (
            "0 scan a 9 -> 2 parts\npart a to c @4 a 1 b 2\npart c end @4\njoin 4 names 2\n",
            0,
        ),
        (
            "0 scan a 9 -> 0 parts cut\n1 scan a 9 -> 1 parts cut\npart a to b @0\ncrash 0 names 0\n",
            0,
        ),
    ];
    assert_eq!(rt; first_other(rt.alloc(), &rows), None);
    Ok(())
}

/// Of any other text the first line is told that is outside.
#[test]
fn first_lines_outside_are_told(rt: HostRuntime) -> Result<(), Fail> {
    let rows = [
        ("", 1),
        ("\n", 1),
        ("join 0 names 0", 1),
        ("join 0 names 0\n\n", 2),
        ("join 0 names 0\n0 get a -> none @0\n", 3),
        ("join 00 names 0\n", 1),
        ("join 18446744073709551616 names 0\n", 1),
        ("join 0  names 0\n", 1),
        ("join 0 names 0 \n", 1),
        ("0 get a -> none @0\r\njoin 0 names 0\n", 1),
        ("0 get \u{e9} -> none @0\njoin 0 names 0\n", 1),
        (
            "1 get a -> none @0\n0 get a -> none @0\njoin 0 names 0\n",
            2,
        ),
        ("16 get a -> none @0\njoin 0 names 0\n", 1),
        ("0 get a -> full\n", 1),
        ("0 del a -> full\n", 1),
        ("0 get a -> cut lost\n", 1),
        ("0 put a 1 -> cut\n", 1),
        ("0 scan a 1 -> none @0\n", 1),
        ("0 scan a 1 -> 1 parts\njoin 0 names 0\n", 2),
        ("0 scan a 1 -> 0 parts\npart a end @0\n", 2),
        ("0 scan a 1 -> 2 parts\npart a end @0\n", 3),
        (
            "0 scan a 2 -> 1 parts\npart a end @0 b 1 a 2\njoin 0 names 0\n",
            2,
        ),
        (
            "0 scan a 2 -> 1 parts\npart a end @0 b 1 b 2\njoin 0 names 0\n",
            2,
        ),
        (
            "0 scan a 2 -> 1 parts\npart a to @0 b 1\njoin 0 names 0\n",
            2,
        ),
    ];
    assert_eq!(rt; first_other(rt.alloc(), &rows), None);
    Ok(())
}
