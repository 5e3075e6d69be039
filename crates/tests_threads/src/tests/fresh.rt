//! A fresh index, and its callers.

ghost use Rattle.std.specs.Prelude.{◌≡◌, ◌+◌, ◌<◌, [], length, IfOk};
ghost use Rattle.pm_words.specs.Layouts.{IsLayout};
ghost use Rattle.pac_index.specs.index_core.specs.Lone.{IsQuiet};
ghost use Rattle.pac_index.specs.Callers.{HasCallers, IsCallerOf};

use catalog_cli::recovery::open_fresh;
use pac_index::index_core::Core;
use pac_index::{Caller, Shared};
use pm_words::{Layout, NoMemory};
use std::alloc::Global;

/// A fresh index.
pub(crate) fn fresh(alloc: Global, layout: Layout) -> Result<Core, NoMemory>
    requires { IsLayout layout }
    ensures { IfOk result (λ core. IsQuiet core × (core.history ≡ []) × (core.layout ≡ layout)) }
{
    let core = open_fresh(alloc, layout)?;
    Ok(core)
}

/// The last caller.
pub(crate) fn take_last(shared: &Shared, callers: &mut Vec<Caller>) -> Caller
    requires callers { HasCallers shared.now (length callers.old.items) callers.old.items }
    requires some { 0 < length callers.old.items }
    ensures caller { IsCallerOf shared.now result × (result.number ≡ length callers.new.items) }
    ensures rest { HasCallers shared.now (length callers.new.items) callers.new.items }
    ensures fewer { length callers.old.items ≡ length callers.new.items + 1 }
{
    let Some(caller) = callers.pop() else {
        unreachable!()
    };
    caller
}
