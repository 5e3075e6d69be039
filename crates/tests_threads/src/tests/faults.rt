//! Calls of the outside that fail, one in each run, and calls that move few bytes.

use super::running::{Outside, SOUND, plan_of, run};
use cat_text::MemoryShelf;
use std::alloc::AllocGlobal;
use std::sync::Wait;
use std::test::Fail;
use std::thread::Threads;

/// 43 bytes, so that read 44 finds its end where a read moves a byte.
const SCRIPT: &str = "# \x01\n\n0 put a 1\r\n \t\r\n\t0  get\ta \n0 scan a 1\n#";

/// 92 bytes.
const REPORT: &str =
    "0 put a 1 -> none @0\n0 get a -> 1 @1\n0 scan a 1 -> 1 parts\npart a end @1 a 1\njoin 1 names 1\n";

/// What `play` comes to with the script where a call moves so many bytes, and this read and this write fail: these three
/// numbers, the exit code, and how many bytes it writes, which are a beginning of the report.
fn played<R: AllocGlobal + Threads + Wait + Sync>(
    rt: &R,
    largest: u64,
    read: u64,
    write: u64,
) -> Option<[u64; 5]> {
    let mut shelf = MemoryShelf::new(rt.alloc(), plan_of(rt.alloc(), 0)?);
    let outside = Outside {
        largest,
        failing_read: read,
        failing_write: write,
    };
    let (code, written) = run(rt, &mut shelf, "play 1 64 1", SCRIPT, &outside)?;
    if !REPORT.as_bytes().starts_with(&written) {
        return None;
    }
    Some([largest, read, write, u64::from(code), written.len() as u64])
}

/// What it has to come to: where each read of the script fails, and where each write of the report does, a byte a call;
/// and behind these with no fault, and with pieces of several bytes.
fn play_of(number: u64) -> [u64; 5] {
    match number {
        0..44 => [1, number.wrapping_add(1), 0, 4, 0],
        44..136 => [1, 0, number.wrapping_sub(43), 5, number.wrapping_sub(44)],
        136 => [1, 45, 0, 0, 92],
        137 => [7, 0, 0, 0, 92],
        138 => [4096, 0, 0, 0, 92],
        139 => [4, 2, 0, 4, 0],
        _ => [4, 0, 2, 5, 4],
    }
}

/// The first of these that comes otherwise.
fn first_other_play<R: AllocGlobal + Threads + Wait + Sync>(rt: &R) -> Option<u64> {
    (0..141).find(|number| {
        let row = play_of(*number);
        played(rt, row[0], row[1], row[2]) != Some(row)
    })
}

/// The exit code of a command that reads no script, and the last digit of the first word that it lists, or 0.
fn code_of<R: AllocGlobal + Threads + Wait + Sync>(
    rt: &R,
    shelf: &mut MemoryShelf,
    line: &str,
) -> Option<[u64; 2]> {
    let (code, text) = run(rt, shelf, line, "", &SOUND)?;
    let digit = text.get(17).copied().unwrap_or(b'0').wrapping_sub(b'0');
    Some([u64::from(code), u64::from(digit)])
}

/// The exit code of a run on the file where this read and this write fail, and how many bytes it writes, which are a
/// beginning of its report.
fn run_code<R: AllocGlobal + Threads + Wait + Sync>(
    rt: &R,
    shelf: &mut MemoryShelf,
    read: u64,
    write: u64,
) -> Option<[u64; 2]> {
    let outside = Outside {
        largest: 4,
        failing_read: read,
        failing_write: write,
    };
    let (code, written) = run(rt, shelf, "run c", "0 put a 1", &outside)?;
    if !b"0 put a 1 -> none @0\njoin 1 names 1\n".starts_with(&written) {
        return None;
    }
    Some([u64::from(code), written.len() as u64])
}

/// What `format`, `run` and `words` come to, one after another on one file, where this call of the shelf fails, and this
/// read and this write of the run: these three numbers, the exit codes of the three, how many bytes the run writes, and
/// the digit of the generation that the words tell.
fn on_file<R: AllocGlobal + Threads + Wait + Sync>(
    rt: &R,
    call: u64,
    read: u64,
    write: u64,
) -> Option<[u64; 8]> {
    let mut shelf = MemoryShelf::new(rt.alloc(), plan_of(rt.alloc(), call)?);
    let [made, _] = code_of(rt, &mut shelf, "format c 2 4 1")?;
    let [ran, bytes] = run_code(rt, &mut shelf, read, write)?;
    let [told, digit] = code_of(rt, &mut shelf, "words c 5 1")?;
    Some([call, read, write, made, ran, told, bytes, digit])
}

/// The first of the rows that come otherwise. `format` and `run` make two calls of the shelf each, `words` one.
fn first_other_file<R: AllocGlobal + Threads + Wait + Sync>(rt: &R) -> Option<usize> {
    let rows = [
        [0, 0, 0, 0, 0, 0, 36, 2],
        [1, 0, 0, 6, 8, 8, 0, 0],
        [2, 0, 0, 6, 8, 8, 0, 0],
        [3, 0, 0, 0, 6, 0, 0, 1],
        [4, 0, 0, 0, 6, 0, 0, 1],
        [5, 0, 0, 0, 0, 6, 36, 0],
        [0, 2, 0, 0, 4, 0, 0, 1],
        [0, 0, 1, 0, 5, 0, 0, 2],
        [0, 0, 2, 0, 5, 0, 4, 2],
    ];
    rows.iter()
        .position(|row| on_file(rt, row[0], row[1], row[2]) != Some(*row))
}

/// A file is the old one or the new one, whole, and a report that fails is written up to there.
#[test]
fn the_outside_is_blamed_for_its_faults(rt: HostRuntime) -> Result<(), Fail> {
    assert_eq!(rt; first_other_play(&rt), None);
    assert_eq!(rt; first_other_file(&rt), None);
    Ok(())
}
