//! What each caller asks.

ghost use Rattle.std.specs.Prelude.{IfSome, ◌≤◌};
ghost use Rattle.index_core.specs.CoreCalls.{MayBegin, most_writes};

use cat_key::Name;
use index_core::CoreCall;

/// How many names each caller has of its own, or all have in common.
const NAMES: u64 = 64;

/// Whose names there are, where each caller has names of its own.
const OWNERS: u64 = 4;

/// No history here is as long.
pub const LIMIT: u64 = 1 << 62;

/// Which calls are made, and of which names.
#[derive(Clone, Copy)]
pub enum Mix {
    /// Puts and gets by turns, of names of the caller's own.
    Own,
    /// So many gets of a hundred calls, the others puts, of names that all callers have in common.
    Common { gets: u64 },
}

/// How many names the callers have in all.
pub fn names(mix: Mix) -> u64 {
    match mix {
        Mix::Own => OWNERS * NAMES,
        Mix::Common { .. } => NAMES,
    }
}

/// Whether the call of this number is a put; the others are gets.
pub fn is_put(mix: Mix, number: u64) -> bool {
    match mix {
        Mix::Own => number % 2 == 0,
        Mix::Common { gets } => number % 100 >= gets,
    }
}

/// The name that a caller's call of this number is about: call 0 and 1 are about one name, 2 and 3 about the next.
pub fn name_of(mix: Mix, caller: u64, number: u64) -> Option<Name> {
    let owner = match mix {
        Mix::Own => caller % OWNERS,
        Mix::Common { .. } => 0,
    };
    let turn = number / 2 % NAMES;
    Name::read(&[
        b'a' + owner as u8,
        b'0' + (turn / 10) as u8,
        b'0' + (turn % 10) as u8,
    ])
    .ok()
}

/// The same as a call of a core.
pub fn call_of(mix: Mix, caller: u64, number: u64) -> Option<CoreCall>
    ensures { IfSome result (λ call. MayBegin call × (most_writes call ≤ 1)) }
{
    let name = name_of(mix, caller, number)?;
    Some(if is_put(mix, number) {
        CoreCall::Put {
            name,
            value: number,
            limit: LIMIT,
        }
    } else {
        CoreCall::Get { name }
    })
}

/// The put that makes the name of this number be there, of all that the callers have.
pub fn first_put(mix: Mix, number: u64) -> Option<CoreCall>
    ensures { IfSome result (λ call. MayBegin call × (most_writes call ≤ 1)) }
{
    // Two calls are about each name.
    let name = name_of(mix, number / NAMES, number % NAMES * 2)?;
    Some(CoreCall::Put {
        name,
        value: number,
        limit: LIMIT,
    })
}
