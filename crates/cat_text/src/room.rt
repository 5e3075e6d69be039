//! Room for the text of a report. It is taken at once: a text that grows has its old room beside a new one, which is
//! twice as large. Room that isn't used is no memory yet. No contract tells of it, since a text grows where it has too
//! little.

use crate::report::RoundReport;
use cat_history::{Record, Reply};

/// As many bytes as a line of a report can have, but for what a part lists.
const MOST_OF_LINE: usize = 100;

/// As many bytes as a name that a part lists can take, with its number.
const MOST_OF_PAIR: usize = 46;

/// As many bytes as the lines of these rounds can have.
pub(crate) fn room_for(rounds: &[RoundReport]) -> usize {
    let mut room = 0usize;
    for round in rounds {
        room = room
            .saturating_add(MOST_OF_LINE)
            .saturating_add(room_of_records(round.records.as_slice()));
    }
    room
}

fn room_of_records(records: &[Record]) -> usize {
    let mut room = 0usize;
    for call in records {
        room = room
            .saturating_add(MOST_OF_LINE)
            .saturating_add(room_of_parts(&call.reply));
    }
    room
}

fn room_of_parts(reply: &Reply) -> usize {
    let Reply::Parts { parts, .. } = reply else {
        return 0;
    };
    let mut room = 0usize;
    for part in parts.as_slice() {
        room = room
            .saturating_add(MOST_OF_LINE)
            .saturating_add(part.pairs.as_slice().len().saturating_mul(MOST_OF_PAIR));
    }
    room
}
