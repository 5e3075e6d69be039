//! Reading a line.

ghost use Rattle.std.specs.Prelude.{◌≡◌, ◌≢◌, ◌≤◌, ◌∷◌, ◌++◌, ◌<◌, ◌^◌, []};
ghost use Rattle.std.specs.Prelude.{ℕ, List, None, Some, codes, length, All, MatchResult, IfOk, IfErr};
ghost use Rattle.std.specs.Prelude.{◌↔◌, IfSome, IsNone, IsTrue};
ghost use Rattle.std.specs.List.{AllZip};
ghost use Rattle.std.specs.Str.{bytes_eq};
ghost use Rattle.cat_key.specs.Names.{IsName};
ghost use Rattle.cat_script.specs.Asks.{AsksFor, IsComment, Says, IsLine};
ghost use Rattle.cat_script.specs.Lines.{words_of};
ghost use Rattle.cat_script.specs.Numbers.{IsNumber, IsUpTo, IsSomeUpTo};
ghost use Rattle.cat_script.specs.Reasons.{setting_verb, HaveFirst, IsFirstReason, FailsBy};

use crate::cut::{is_plain, split_word};
use crate::line::{Line, LineFault, Reason};
use crate::number::{number_up_to, read_number};
use crate::usual::usual_call;
use cat_history::{CrashPlan, Items, Op};
use cat_key::Name;
use pm_words::MOST_WRITES;
use std::alloc::Global;

/// The greatest number of a caller.
const MOST_CALLER: u64 = 15;

/// The longest pause between turns of the updater, in calls.
const MOST_TURNS: u64 = 100_000;

/// The greatest budget.
const MOST_BUDGET: u64 = 1_000_000;

/// Reads what follows `join`.
fn read_join(rest: &[u8]) -> Result<Line, Reason>
    ensures { MatchResult result (Says (codes "join" ∷ words_of rest.now))
        (HaveFirst (codes "join" ∷ words_of rest.now)) }
{
    match split_word(rest) {
        Some(_) => Err(Reason::Words),
        None => Ok(Line::Join),
    }
}

/// Reads the number that follows `updater` or `limit`, which is no greater than this.
fn read_setting(rest: &[u8], most: u64) -> Result<u64, Reason>
    ensures ok { IfOk result (λ setting. (number : List ℕ) × IsUpTo most number setting ×
        (words_of rest.now ≡ number ∷ [])) }
    ensures updater { most ≡ 100000 → IfErr result (HaveFirst (codes "updater" ∷ words_of rest.now)) }
    ensures limit { most ≡ 2 ^ 62 → IfErr result (HaveFirst (codes "limit" ∷ words_of rest.now)) }
{
    let Some(word) = only_word(rest) else {
        return Err(Reason::Words);
    };
    let Some(setting) = number_up_to(word, most) else {
        return Err(Reason::Number);
    };
    Ok(setting)
}

/// Reads the caller of a call and the name that follows `get` or `del`.
fn read_named(caller: &[u8], rest: &[u8]) -> Result<(u64, Name), Reason>
    requires { setting_verb caller.now ≡ None }
    ensures ok { IfOk result (λ found. IsUpTo 15 caller.now found.0 × IsName found.1 ×
        (words_of rest.now ≡ found.1 ∷ [])) }
    ensures get { IfErr result (HaveFirst (caller.now ∷ codes "get" ∷ words_of rest.now)) }
    ensures del { IfErr result (HaveFirst (caller.now ∷ codes "del" ∷ words_of rest.now)) }
{
    let Some(name) = only_word(rest) else {
        return Err(Reason::Words);
    };
    let Some(caller) = number_up_to(caller, MOST_CALLER) else {
        return Err(Reason::Caller);
    };
    let Ok(name) = Name::read(name) else {
        return Err(Reason::Name);
    };
    Ok((caller, name))
}

/// Reads the caller of a call, and the name and the number that follow `put` or `scan`.
fn read_numbered(caller: &[u8], rest: &[u8]) -> Result<(u64, Name, u64), Reason>
    requires { setting_verb caller.now ≡ None }
    ensures ok { IfOk result (λ found. IsUpTo 15 caller.now found.0 × IsName found.1 ×
        ((number : List ℕ) × IsNumber number found.2 × (words_of rest.now ≡ found.1 ∷ number ∷ []))) }
    ensures put { IfErr result (HaveFirst (caller.now ∷ codes "put" ∷ words_of rest.now)) }
    ensures scan { IfErr result (HaveFirst (caller.now ∷ codes "scan" ∷ words_of rest.now)) }
{
    let Some((name, number)) = two_words(rest) else {
        return Err(Reason::Words);
    };
    let Some(caller) = number_up_to(caller, MOST_CALLER) else {
        return Err(Reason::Caller);
    };
    let Ok(name) = Name::read(name) else {
        return Err(Reason::Name);
    };
    let Some(number) = read_number(number) else {
        return Err(Reason::Number);
    };
    Ok((caller, name, number))
}

/// Reads what follows `crash`.
fn read_crash(alloc: Global, rest: &[u8]) -> Result<Line, LineFault>
    ensures { MatchResult result (Says (codes "crash" ∷ words_of rest.now))
        (FailsBy (HaveFirst (codes "crash" ∷ words_of rest.now))) }
{
    if !has_crash_words(rest) {
        return Err(LineFault::Faulty(Reason::Words));
    }
    let Some((seed, rest)) = split_word(rest) else {
        return Err(LineFault::Faulty(Reason::Words));
    };
    let Some(seed) = read_number(seed) else {
        return Err(LineFault::Faulty(Reason::Number));
    };
    let mut budgets = read_budgets(alloc, rest)?;
    let Some(updater_budget) = budgets.pop() else {
        return Err(LineFault::Faulty(Reason::Words));
    };
    let plan = CrashPlan {
        seed,
        budgets: Items::of(budgets),
        updater_budget,
    };
    Ok(Line::Crash { plan })
}

/// Reads each word of a text as a budget.
fn read_budgets(alloc: Global, text: &[u8]) -> Result<Vec<u64>, LineFault>
    ensures ok { IfOk result (λ budgets. AllZip (IsUpTo 1000000) (words_of text.now) budgets.items) }
    ensures err { IfErr result
        (FailsBy (λ why. (why ≡ Reason.Number) × ¬ All (IsSomeUpTo 1000000) (words_of text.now))) }
{
    let mut budgets = Vec::new(alloc);
    let mut left = text;
    while let Some((word, rest)) = split_word(left) {
        let Some(budget) = number_up_to(word, MOST_BUDGET) else {
            return Err(LineFault::Faulty(Reason::Number));
        };
        if budgets.push(budget).is_err() {
            return Err(LineFault::NoMemory);
        }
        left = rest;
    }
    Ok(budgets)
}

/// Whether a text has as many words as follow `crash`: the seed, a budget for each of 1 to 16 callers, and the
/// updater's.
fn has_crash_words(text: &[u8]) -> bool
    ensures { IsTrue result ↔ ((3 ≤ length (words_of text.now)) × (length (words_of text.now) ≤ 18)) }
{
    (3..=18).contains(&count_words(text))
}

/// How many words a text has.
fn count_words(text: &[u8]) -> usize
    ensures { result ≡ length (words_of text.now) }
{
    let mut count = 0;
    let mut left = text;
    while let Some((_, rest)) = split_word(left) {
        count += 1;
        left = rest;
    }
    count
}

/// Reads what follows the first word of a call.
fn read_call(caller: &[u8], rest: &[u8]) -> Result<Line, Reason>
    requires { setting_verb caller.now ≡ None }
    ensures { MatchResult result (Says (caller.now ∷ words_of rest.now))
        (HaveFirst (caller.now ∷ words_of rest.now)) }
{
    let Some((verb, rest)) = split_word(rest) else {
        return Err(Reason::Verb);
    };
    let (caller, op) = read_op(caller, verb, rest)?;
    Ok(Line::Call { caller, op })
}

/// Reads the caller of a call and what it asks.
fn read_op(caller: &[u8], verb: &[u8], rest: &[u8]) -> Result<(u64, Op), Reason>
    requires { setting_verb caller.now ≡ None }
    ensures { MatchResult result (λ found. IsUpTo 15 caller.now found.0 ×
        AsksFor (caller.now ∷ verb.now ∷ words_of rest.now) caller.now found.1)
        (HaveFirst (caller.now ∷ verb.now ∷ words_of rest.now)) }
{
    if is_word(verb, "put") {
        let (caller, name, value) = read_numbered(caller, rest)?;
        return Ok((caller, Op::Put { name, value }));
    }
    if is_word(verb, "get") {
        let (caller, name) = read_named(caller, rest)?;
        return Ok((caller, Op::Get { name }));
    }
    if is_word(verb, "del") {
        let (caller, name) = read_named(caller, rest)?;
        return Ok((caller, Op::Del { name }));
    }
    if is_word(verb, "scan") {
        let (caller, from, count) = read_numbered(caller, rest)?;
        return Ok((caller, Op::Scan { from, count }));
    }
    Err(Reason::Verb)
}

/// Reads what follows the first word of a line.
fn read_words(alloc: Global, first: &[u8], rest: &[u8]) -> Result<Line, LineFault>
    ensures { MatchResult result (Says (first.now ∷ words_of rest.now))
        (FailsBy (HaveFirst (first.now ∷ words_of rest.now))) }
{
    if is_word(first, "crash") {
        return read_crash(alloc, rest);
    }
    read_short(first, rest).map_err(LineFault::Faulty)
}

/// Reads what follows the first word of a line that is not `crash`.
fn read_short(first: &[u8], rest: &[u8]) -> Result<Line, Reason>
    requires { first.now ≢ codes "crash" }
    ensures { MatchResult result (Says (first.now ∷ words_of rest.now)) (HaveFirst (first.now ∷ words_of rest.now)) }
{
    if is_word(first, "join") {
        return read_join(rest);
    }
    if is_word(first, "updater") {
        let turns = read_setting(rest, MOST_TURNS)?;
        return Ok(Line::Updater { turns });
    }
    if is_word(first, "limit") {
        let limit = read_setting(rest, MOST_WRITES)?;
        return Ok(Line::Limit { limit });
    }
    read_call(first, rest)
}

/// Whether a word is this one.
fn is_word(word: &[u8], text: &str) -> bool
    ensures test { result ≡ bytes_eq word.now text.now }
    ensures same { IsTrue result ↔ (word.now ≡ text.now) }
{
    word == text.as_bytes()
}

/// Reads a line.
pub(crate) fn read_line(alloc: Global, line: &[u8]) -> Result<Line, LineFault>
    ensures { MatchResult result (IsLine line.now) (FailsBy (IsFirstReason line.now)) }
{
    if let Some(asked) = usual_call(line) {
        return Ok(asked);
    }
    read_any(alloc, line)
}

/// Reads a line by its words.
fn read_any(alloc: Global, line: &[u8]) -> Result<Line, LineFault>
    ensures { MatchResult result (IsLine line.now) (FailsBy (IsFirstReason line.now)) }
{
    let Some((first, rest)) = split_word(line) else {
        return Ok(Line::Blank);
    };
    if first.starts_with(b"#") {
        return Ok(Line::Blank);
    }
    match read_words(alloc, first, rest) {
        Ok(asked) => Ok(asked),
        Err(fault) => Err(first_fault(line, fault)),
    }
}

/// The first fault of a line whose words have this one. What asks something has only bytes that a line may have, so no
/// other line is looked at for them.
fn first_fault(line: &[u8], fault: LineFault) -> LineFault
    requires some { words_of line.now ≢ [] }
    requires asks { ¬ IsComment (words_of line.now) }
    requires fails { FailsBy (HaveFirst (words_of line.now)) fault }
    ensures { FailsBy (IsFirstReason line.now) result }
{
    if is_plain(line) {
        return fault;
    }
    LineFault::Faulty(Reason::Byte)
}

/// The one word of a text; None where it has none or more.
fn only_word(text: &[u8]) -> Option<&[u8]>
    ensures some { IfSome result (λ word. words_of text.now ≡ word.now ∷ []) }
    ensures none { IsNone result → length (words_of text.now) ≢ 1 }
{
    let (word, rest) = split_word(text)?;
    match split_word(rest) {
        Some(_) => None,
        None => Some(word),
    }
}

/// The two words of a text; None where it has fewer or more.
fn two_words(text: &[u8]) -> Option<(&[u8], &[u8])>
    ensures some { IfSome result (λ found. words_of text.now ≡ found.0.now ∷ found.1.now ∷ []) }
    ensures none { IsNone result → length (words_of text.now) ≢ 2 }
{
    let (first, rest) = split_word(text)?;
    let second = only_word(rest)?;
    Some((first, second))
}
