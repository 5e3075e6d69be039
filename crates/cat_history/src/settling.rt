//! What became of the writes that a crash cut off.

ghost use Rattle.std.specs.Prelude.{◌≡◌};
ghost use Rattle.cat_history.specs.CrashRounds.{all_settled, is_open, is_shown, settled};
ghost use Rattle.cat_history.specs.Maps.{at, map_of};
ghost use Rattle.cat_history.specs.Records.{change_asked};

use crate::op::Op;
use crate::pairs::number_in;
use crate::record::{CutMark, Pairs, Record, Records, Reply};
use cat_key::Pair;

/// Asks the map that was found after a crash for each write that was cut off without a place. An `Open` mark becomes
/// `Found` where the map agrees with the write on its name, else `Lost`; everything else stays.
///
/// It takes no memory, and time in proportion to the records and, for each open mark, the pairs.
pub fn settle(records: &mut Records, map: &Pairs)
    ensures { records.new ≡ all_settled (map_of map.now) records.old }
{
    settle_all(&mut records.items, map.as_slice());
}

fn settle_all(records: &mut [Record], pairs: &[Pair])
    ensures { records.new ≡ all_settled (map_of pairs.now) records.old }
{
    for record in records.iter_mut() {
        settle_record(record, pairs);
    }
}

fn settle_record(record: &mut Record, pairs: &[Pair])
    ensures { «record».new ≡ settled (map_of pairs.now) «record».old }
{
    if is_open(&record.reply) {
        let mark = if shows(pairs, &record.op) {
            CutMark::Found
        } else {
            CutMark::Lost
        };
        record.reply = Reply::Cut { mark };
    }
}

fn is_open(reply: &Reply) -> bool
    ensures { result ≡ is_open reply.now }
{
    matches!(
        reply,
        Reply::Cut {
            mark: CutMark::Open
        }
    )
}

/// Whether the map of these pairs agrees with what the op writes; one that writes nothing shows nowhere.
fn shows(pairs: &[Pair], op: &Op) -> bool
    ensures { result ≡ is_shown (map_of pairs.now) (change_asked op.now) }
{
    match op {
        Op::Put { name, value } => number_in(pairs, name) == Some(*value),
        Op::Del { name } => number_in(pairs, name).is_none(),
        Op::Get { .. } | Op::Scan { .. } => false,
    }
}
