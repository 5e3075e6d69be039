//! The writes of records that have their place.

ghost use Rattle.std.specs.Prelude.{◌≡◌, count_by};
ghost use Rattle.std.specs.Option.{is_some};
ghost use Rattle.cat_history.specs.Records.{placed_write};

use cat_history::Record;
use stopped_rounds::is_placed_write;

/// How many writes of the records have their place, those of calls that were cut off among them.
pub(crate) fn placed(records: &[Record]) -> u64
    ensures { result ≡ count_by (λ r. is_some (placed_write r)) records.now }
{
    records
        .iter()
        .filter(|record| is_placed_write(record))
        .count() as u64
}
