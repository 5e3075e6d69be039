//! The map as it grows along writes: a tree of the names that have a number.

ghost use Rattle.std.specs.Prelude.{◌≡◌, IfOk, OnOk};
ghost use Rattle.std.specs.BTreeMap.{IsEmpty};
ghost use Rattle.std.specs.FinMap.{entries};
ghost use Rattle.cat_history.specs.Maps.{Map, map_of};
ghost use Rattle.cat_history.specs.Replays.{pairs_of};
ghost use Rattle.cat_history.specs.Writes.{after_all, changed};

use crate::NoMemory;
use crate::items::Items;
use crate::op::{Change, Write};
use crate::record::Pairs;
use cat_key::{Name, Pair};
use std::alloc::Global;
use std::collections::BTreeMap;

/// Names with their numbers.
pub type Names = BTreeMap<Name, u64>;

/// Puts the pairs into a tree. At a name that stands twice it has the first number, so the first pair goes in last.
fn insert_all(names: &mut Names, pairs: &[Pair]) -> Result<(), NoMemory>
    requires empty { IsEmpty names.old }
    ensures ok { OnOk result (names.new.entries ≡ entries (map_of pairs.now)) }
{
    for pair in pairs.iter().rev() {
        names.insert(pair.name, pair.value)?;
    }
    Ok(())
}

/// The map of these pairs.
pub fn names_of(alloc: Global, pairs: &[Pair]) -> Result<Names, NoMemory>
    ensures { IfOk result (λ names. names.entries ≡ entries (map_of pairs.now)) }
{
    let mut names = BTreeMap::new(alloc);
    insert_all(&mut names, pairs)?;
    Ok(names)
}

/// Makes one change.
pub fn change(names: &mut Names, change: &Change) -> Result<(), NoMemory>
    ensures ok { OnOk result ((m : Map) → names.old.entries ≡ entries m →
        names.new.entries ≡ entries (changed m change.now)) }
{
    match change {
        Change::Put { name, value } => {
            names.insert(*name, *value)?;
        }
        Change::Del { name } => {
            names.remove(name);
        }
    }
    Ok(())
}

/// Makes the changes of these writes, one after another.
pub fn change_all(names: &mut Names, writes: &[Write]) -> Result<(), NoMemory>
    ensures ok { OnOk result ((m : Map) → names.old.entries ≡ entries m →
        names.new.entries ≡ entries (after_all m writes.now)) }
{
    for write in writes {
        change(names, &write.change)?;
    }
    Ok(())
}

/// The map as pairs in rising order of names.
pub fn pairs_in(alloc: Global, names: Names) -> Result<Pairs, NoMemory>
    ensures { IfOk result (λ pairs. (m : Map) → names.entries ≡ entries m → pairs ≡ pairs_of m) }
{
    let mut pairs = Vec::with_capacity(alloc, names.len())?;
    for (name, value) in names {
        pairs.push(Pair { name, value })?;
    }
    Ok(Items::of(pairs))
}
