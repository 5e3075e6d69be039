//! Rounds that are generated from a seed.

ghost use Rattle.std.specs.Prelude.{◌≡◌, ℕ, ◌+◌, ◌*◌, ◌/◌, ◌%◌, ◌^◌, ◌<◌, ◌≤◌, IfOk};
ghost use Rattle.cat_script.specs.Generators.{number_after, next_number, drawn, generated_name, chosen_op};
ghost use Rattle.cat_script.specs.Generators.{generated_call, generated_calls, generated_plan};

use crate::grouping::FIRST_TURNS;
use cat_history::{CallerOp, Items, NoMemory, Op, RoundPlan};
use cat_key::Name;
use pm_words::MOST_WRITES;
use std::alloc::Global;

/// How many names a scan asks for.
const SCANNED: u64 = 5;

/// The round of `count` calls that a seed makes for these callers, in turn.
pub fn generated(alloc: Global, seed: u64, count: u64, callers: u64) -> Result<RoundPlan, NoMemory>
    requires seed { seed < 2 ^ 31 }
    requires some { 1 ≤ callers }
    requires few { callers ≤ 16 }
    ensures { IfOk result (λ plan. plan ≡ generated_plan seed count callers) }
{
    let mut ops = Vec::new(alloc);
    let mut number = seed;
    for index in 0..count {
        let first = next(number);
        let second = next(first);
        let caller = index % callers;
        let name = name_of(caller, first / 65536 % 64);
        let op = chosen(second / 65536 % 8, name, index);
        if ops.push(CallerOp { caller, op }).is_err() {
            return Err(NoMemory);
        }
        number = second;
    }
    Ok(RoundPlan {
        ops: Items::of(ops),
        updater: FIRST_TURNS,
        limit: MOST_WRITES,
        crash: None,
    })
}

/// The next number of the generator.
fn next(number: u64) -> u64
    requires { number < 2 ^ 31 }
    ensures next { result ≡ next_number number }
    ensures small { result < 2 ^ 31 }
{
    (1_103_515_245 * number + 12_345) % (1 << 31)
}

/// The name of a caller's key.
fn name_of(caller: u64, key: u64) -> Name
    requires caller { caller < 16 }
    requires key { key < 64 }
    ensures { result ≡ generated_name caller key }
{
    let letter = b'a' + caller as u8;
    let tens = b'0' + (key / 10) as u8;
    let ones = b'0' + (key % 10) as u8;
    Name::read(&[letter, tens, ones]).unwrap()
}

/// What a choice from 0 to 7 asks of a name.
fn chosen(choice: u64, name: Name, number: u64) -> Op
    ensures { result ≡ chosen_op choice name number }
{
    match choice {
        0..=3 => Op::Put {
            name,
            value: number,
        },
        4..=5 => Op::Get { name },
        6 => Op::Del { name },
        _ => Op::Scan {
            from: name,
            count: SCANNED,
        },
    }
}
