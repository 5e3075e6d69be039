//! The callers of a shared index.

use crate::rooms::Rooms;
use crate::rule::Members;
use atomic_table::Seat;
use cat_history::Write;
use epochs::EpochSeat;
use index_core::CoreCall;

/// A caller of a shared index: its seats on the words and on the epoch, its number, the index of its next call, how
/// many more steps on the words it may make, the call of it that was cut off, the writes that it placed, and rooms for
/// its calls.
#[derive(Drop)]
pub struct Caller {
    pub(crate) seat: Seat<(), Members>,
    pub(crate) pins: EpochSeat,
    pub(crate) number: u64,
    pub(crate) index: u64,
    pub(crate) left: Option<u64>,
    pub(crate) cut: Option<CutCall>,
    pub(crate) kept: Vec<PlacedWrite>,
    pub(crate) rooms: Rooms,
}

/// A write, with its place in the history.
#[derive(Clone, Copy)]
pub struct PlacedWrite {
    pub place: u64,
    pub write: Write,
}

/// A call on a name, or a part of a range scan, that was cut off behind one of its steps: what was called, the index of
/// the call, and the place of its write in the history, if it has one.
#[derive(Clone, Copy)]
pub struct CutCall {
    pub call: CoreCall,
    pub index: u64,
    pub place: Option<u64>,
}
