//! What a part of a range scan lists, as names and numbers.

ghost use Rattle.std.specs.Prelude.{◌≡◌, ◌<◌, ◌≤◌, ◌^◌, All, IfOk, take};
ghost use Rattle.cat_key.specs.Names.{AreNameWords, IsName};
ghost use Rattle.node_ops.specs.Parts.{pair_of, pairs_of};
ghost use Rattle.node_ops.specs.PartSteps.{entry_name};
ghost use Rattle.std.specs.List.{AllByRecursion};

use cat_history::NoMemory;
use cat_key::{Name, Pair};
use node_ops::PartWords;
use std::alloc::Global;

/// The pairs that a part lists.
pub fn listed_pairs(alloc: Global, words: &PartWords) -> Result<Vec<Pair>, NoMemory>
    requires few { words.now.len ≤ 64 }
    requires names { AllByRecursion (λ entry. AreNameWords (entry_name entry)) (take words.now.len words.now.entries) }
    ensures pairs { IfOk result (λ pairs. pairs.items ≡ pairs_of words.now) }
    ensures named { IfOk result (λ pairs. All (λ pair. IsName pair.name × (pair.value < 2 ^ 64)) pairs.items) }
{
    let entries = &words.entries[..words.len as usize];
    let mut pairs = Vec::with_capacity(alloc, entries.len())?;
    for entry in entries {
        // There is memory for a pair of each entry.
        pairs.push_reserved(pair_in(entry));
    }
    Ok(pairs)
}

/// The name whose words an entry has, with its number.
fn pair_in(entry: &[u64; 4]) -> Pair
    requires { AreNameWords (entry_name entry.now) }
    ensures pair { result ≡ pair_of entry.now }
    ensures named { IsName result.name × (result.value < 2 ^ 64) }
{
    let [first, second, third, value] = *entry;
    match Name::of_words([first, second, third]) {
        Some(name) => Pair { name, value },
        None => unreachable!(),
    }
}
