//! Which machine makes a call on a name.

ghost use Rattle.std.specs.Prelude.{◌≡◌, IsTrue};
ghost use Rattle.cat_key.specs.Names.{IsName};

use crate::party::CoreCall;
use call_stages::View;
use cat_key::Name;
use node_ops::{Del, Get, Part, Put, Running};

impl CoreCall {
    ghost use Rattle.node_ops.specs.Asked.{IsOf};
    ghost use Rattle.call_stages.specs.Views.{IsView};
    ghost use Rattle.node_ops.specs.RunningSteps.{IsRunning};
    ghost use Rattle.index_core.specs.CoreCalls.{MayBegin, machine_of, op_of};

    /// The machine that makes the call.
    pub fn machine(self, view: View) -> Running
        requires view { IsView view }
        requires begins { MayBegin self }
        ensures machine { result ≡ machine_of view self }
        ensures sound { IsRunning result }
        ensures op { IsOf (op_of self) result }
    {
        match self {
            CoreCall::Put { name, value, limit } => {
                Running::Putting(Put::new(view, &named(name), value, limit))
            }
            CoreCall::Get { name } => Running::Getting(Get::new(view, &named(name))),
            CoreCall::Del { name, limit } => Running::Deleting(Del::new(view, &named(name), limit)),
            CoreCall::Part { low, count } => Running::Parting(Part::new(view, &named(low), count)),
            CoreCall::Recheck { .. } => unreachable!(),
            CoreCall::Turn { .. } => unreachable!(),
        }
    }

    /// Whether the call begins in the place of another one's machine, of its own kind.
    pub(crate) fn follows(&self, machine: &mut Running, view: View) -> bool
        requires view { IsView view }
        requires begins { MayBegin self.now }
        ensures machine { IsTrue result → machine.new ≡ machine_of view self.now }
        ensures sound { IsTrue result → IsRunning (machine_of view self.now) }
        ensures op { IsTrue result → IsOf (op_of self.now) (machine_of view self.now) }
    {
        match self {
            CoreCall::Put { name, value, limit } => {
                machine.begins_put(view, &named(*name), *value, *limit)
            }
            CoreCall::Get { name } => machine.begins_get(view, &named(*name)),
            CoreCall::Del { name, limit } => machine.begins_del(view, &named(*name), *limit),
            _ => false,
        }
    }
}

/// The name, of which its words tell that it is one.
fn named(name: Name) -> Name
    ensures same { result ≡ name }
    ensures name { IsName result }
{
    let _words = name.words();
    name
}
