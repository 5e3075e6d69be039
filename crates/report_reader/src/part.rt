//! Reading the lines of a scan's parts.

ghost use Rattle.std.specs.Prelude.{◌≡◌, ◌≢◌, ◌∷◌, ◌++◌, ◌↔◌, [], ℕ, List, Option, IfOk, IfErr, IfSome, IsNone, IsTrue};
ghost use Rattle.cat_history.specs.Scans.{Rise};
ghost use Rattle.cat_history.specs.declared.record.ScanPart.{ScanPart};
ghost use Rattle.cat_key.specs.Names.{IsName};
ghost use Rattle.cat_key.specs.declared.Pair.{Pair};
ghost use Rattle.cat_text.specs.ReportGrammar.{IsReportPair};
ghost use Rattle.cat_text.specs.ReportLines.{high_fields, pair_fields};
ghost use Rattle.report_reader.specs.Fields.{fields_of, fields_behind};
ghost use Rattle.report_reader.specs.Parts.{SaysPart, SaysPairs, SaysBounds, FailsBy};
ghost use Rattle.report_reader.specs.declared.part.Bounds.{Bounds};

use crate::cut::{first_field, next_field};
use crate::fault::LineFault;
use crate::field::{is_word, read_decimal, read_name, read_place};
use cat_history::{Items, ScanPart};
use cat_key::{Name, Pair};
use std::alloc::Global;

/// What the line of a part says before the names that it lists.
#[derive(Clone, Copy)]
pub(crate) struct Bounds {
    pub low: Name,
    pub high: Option<Name>,
    pub place: u64,
}

/// Reads the line of a part.
pub(crate) fn read_part(alloc: Global, line: &[u8]) -> Result<ScanPart, LineFault>
    ensures ok { IfOk result (SaysPart (fields_of line.now)) }
    ensures err { IfErr result (FailsBy ((part : ScanPart) → ¬ SaysPart (fields_of line.now) part)) }
{
    let Some((bounds, rest)) = read_bounds(line) else {
        return Err(LineFault::Outside);
    };
    let pairs = read_pairs(alloc, rest)?;
    Ok(ScanPart {
        low: bounds.low,
        high: bounds.high,
        place: bounds.place,
        pairs: Items::of(pairs),
    })
}

/// Reads what stands before a part's names, with what follows it; None where the line doesn't begin so.
fn read_bounds(line: &[u8]) -> Option<(Bounds, &[u8])>
    ensures some { IfSome result (λ found. SaysBounds (fields_of line.now) found.0 (fields_behind found.1.now)) }
    ensures none { IsNone result → (bounds : Bounds) (more : List (List ℕ)) →
        ¬ SaysBounds (fields_of line.now) bounds more }
{
    let (word, rest) = first_field(line);
    if !is_word(word, "part") {
        return None;
    }
    let (low, rest) = next_field(rest)?;
    let low = read_name(low)?;
    let (word, rest) = next_field(rest)?;
    let Some((high, rest)) = read_high(word, rest) else {
        return None;
    };
    let (place, rest) = next_field(rest)?;
    let place = read_place(place)?;
    Some((Bounds { low, high, place }, rest))
}

/// Reads where a part ends, by the first field and what follows that, with what follows all of it.
fn read_high<'a>(word: &[u8], rest: &'a [u8]) -> Option<(Option<Name>, &'a [u8])>
    ensures some { IfSome result (λ found. IfSome found.0 IsName ×
        (word.now ∷ fields_behind rest.now ≡ high_fields found.0 ++ fields_behind found.1.now)) }
    ensures none { IsNone result → (high : Option (List ℕ)) (more : List (List ℕ)) → IfSome high IsName →
        word.now ∷ fields_behind rest.now ≢ high_fields high ++ more }
{
    if is_word(word, "end") {
        return Some((None, rest));
    }
    if !is_word(word, "to") {
        return None;
    }
    let (high, rest) = next_field(rest)?;
    let high = read_name(high)?;
    Some((Some(high), rest))
}

/// Reads the names that a part lists, each with its number.
fn read_pairs(alloc: Global, rest: &[u8]) -> Result<Vec<Pair>, LineFault>
    ensures ok { IfOk result (λ pairs. SaysPairs (fields_behind rest.now) pairs.items) }
    ensures err { IfErr result (FailsBy ((pairs : List Pair) → ¬ SaysPairs (fields_behind rest.now) pairs)) }
{
    let mut pairs = Vec::new(alloc);
    let mut left = rest;
    while let Some((name, more)) = next_field(left) {
        let Some((pair, more)) = read_pair(name, more) else {
            return Err(LineFault::Outside);
        };
        if !rises(&pairs, &pair.name) {
            return Err(LineFault::Outside);
        }
        if pairs.push(pair).is_err() {
            return Err(LineFault::NoMemory);
        }
        left = more;
    }
    Ok(pairs)
}

/// Reads a name and its number, by the first field and what follows that, with what follows both.
fn read_pair<'a>(name: &[u8], rest: &'a [u8]) -> Option<(Pair, &'a [u8])>
    ensures some { IfSome result (λ found. IsReportPair found.0 ×
        (name.now ∷ fields_behind rest.now ≡ pair_fields found.0 ++ fields_behind found.1.now)) }
    ensures none { IsNone result → (pair : Pair) (more : List (List ℕ)) → IsReportPair pair →
        name.now ∷ fields_behind rest.now ≢ pair_fields pair ++ more }
{
    let (value, rest) = next_field(rest)?;
    let name = read_name(name)?;
    let value = read_decimal(value)?;
    Some((Pair { name, value }, rest))
}

/// Whether a name comes behind those of these pairs.
fn rises(pairs: &[Pair], name: &Name) -> bool
    requires { Rise pairs.now }
    ensures { (value : ℕ) →
        (IsTrue result ↔ Rise (pairs.now ++ record { name = name.now; value = value } ∷ [])) }
{
    match pairs.last() {
        Some(last) => last.name < *name,
        None => true,
    }
}
