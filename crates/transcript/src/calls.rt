//! Whether each call that was asked has its record.

ghost use Rattle.std.specs.Prelude.{◌≡◌, ◌↔◌, ◌++◌, ◌∷◌, [], IfOk, IsTrue, OnOk, map};
ghost use Rattle.std.specs.BTreeMap.{get};
ghost use Rattle.std.specs.Ordering.{nat_cmp};
ghost use Rattle.std.specs.Option.{unwrap_or};
ghost use Rattle.std.specs.List.Sorted.{IsPermutation, IsSortedByKey};
ghost use Rattle.cat_history.specs.Records.{numbered};
ghost use Rattle.cat_history.specs.Rounds.{RecordsEachCall};
ghost use Rattle.transcript.specs.Calls.{as_numbered, calls_told, key_cmp, key_of};

use crate::NoMemory;
use cat_history::{CallerOp, Op, Record};
use std::alloc::Global;
use std::collections::BTreeMap;

/// A call with its index among the calls of its caller.
#[derive(Clone, Copy)]
pub(crate) struct NumberedCall {
    pub caller: u64,
    pub index: u64,
    pub op: Op,
}

/// The calls of a script, each with its index among the calls of its caller.
fn numbered(alloc: Global, asked: &[CallerOp]) -> Result<Vec<NumberedCall>, NoMemory>
    ensures { IfOk result (λ calls. calls.items ≡ map as_numbered (numbered asked.now)) }
{
    let mut counts = BTreeMap::new(alloc);
    let mut calls = Vec::new(alloc);
    for call in asked {
        let index = count_of(&counts, call.caller);
        counts.insert(call.caller, index + 1)?;
        calls.push(NumberedCall {
            caller: call.caller,
            index,
            op: call.op,
        })?;
    }
    Ok(calls)
}

/// How often a caller was counted.
fn count_of(counts: &BTreeMap<u64, u64>, caller: u64) -> u64
    ensures { result ≡ unwrap_or (get nat_cmp counts.now caller) 0 }
{
    counts.get(&caller).copied().unwrap_or(0)
}

/// The calls that records tell.
fn calls_told(alloc: Global, told: &[Record]) -> Result<Vec<NumberedCall>, NoMemory>
    ensures { IfOk result (λ calls. calls.items ≡ calls_told told.now) }
{
    told.iter()
        .map(|record| NumberedCall {
            caller: record.caller,
            index: record.index,
            op: record.op,
        })
        .collect(alloc)
}

/// The calls in the order of their callers, those of one caller by index.
fn in_order(calls: Vec<NumberedCall>) -> Vec<NumberedCall>
    ensures same { IsPermutation calls.items result.items }
    ensures rising { IsSortedByKey key_of key_cmp result.items }
{
    let mut sorted = calls;
    sorted.sort_unstable_by_key(|call| (call.caller, call.index));
    sorted
}

/// Whether two ops ask the same.
fn same_op(one: &Op, other: &Op) -> bool
    ensures { IsTrue result ↔ (one.now ≡ other.now) }
{
    match (one, other) {
        (
            Op::Put { name, value },
            Op::Put {
                name: other_name,
                value: other_value,
            },
        ) => name == other_name && value == other_value,
        (Op::Get { name }, Op::Get { name: other }) | (Op::Del { name }, Op::Del { name: other }) =>
            name == other,
        (
            Op::Scan { from, count },
            Op::Scan {
                from: other_from,
                count: other_count,
            },
        ) => from == other_from && count == other_count,
        _ => false,
    }
}

/// Whether two calls are one.
fn same_call(one: &NumberedCall, other: &NumberedCall) -> bool
    ensures { IsTrue result ↔ (one.now ≡ other.now) }
{
    one.caller == other.caller && one.index == other.index && same_op(&one.op, &other.op)
}

/// Whether two lists of calls are one.
fn same_calls(one: &[NumberedCall], other: &[NumberedCall]) -> bool
    ensures { IsTrue result ↔ (one.now ≡ other.now) }
{
    if one.len() != other.len() {
        return false;
    }
    for at in 0..one.len() {
        if !same_call(&one[at], &other[at]) {
            return false;
        }
    }
    true
}

/// Whether each call that was asked has its record, with its caller, index and op, and there is no other record.
///
/// It takes time in proportion to the calls and records, and to the logarithm of how many there are.
pub(crate) fn each_call_is_told(
    alloc: Global,
    asked: &[CallerOp],
    told: &[Record],
) -> Result<bool, NoMemory>
    ensures { IfOk result (λ yes. IsTrue yes ↔ RecordsEachCall (numbered asked.now) told.now) }
{
    let calls = in_order(numbered(alloc, asked)?);
    let records = in_order(calls_told(alloc, told)?);
    Ok(same_calls(&calls, &records))
}
