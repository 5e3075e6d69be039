//! Rooms for the machines of a caller's calls.

ghost use Rattle.std.specs.Prelude.{◌≡◌};
ghost use Rattle.call_stages.specs.Views.{IsView};
ghost use Rattle.node_ops.specs.Asked.{IsOf};
ghost use Rattle.node_ops.specs.RunningSteps.{IsRunning};
ghost use Rattle.index_core.specs.CoreCalls.{MayBegin, machine_of, op_of};

use call_stages::View;
use index_core::{CoreCall, begins_in};
use node_ops::Running;

/// Rooms for the machines of a caller's calls on one name.
///
/// The room of a machine is some 2 KB, for the words of a node that it splits or merges. So it is kept as a call ends,
/// one for each kind of call, and the next call of that kind begins in its place: nothing is cleared or copied then but
/// the few words of a look-up.
#[derive(Drop)]
pub(crate) struct Rooms {
    get: Option<Running>,
    put: Option<Running>,
    del: Option<Running>,
    part: Option<Running>,
}

impl Rooms {
    /// Rooms of a caller that has made no call.
    pub(crate) fn new() -> Rooms {
        Rooms {
            get: None,
            put: None,
            del: None,
            part: None,
        }
    }

    /// The machine of a call that begins, in the room of its kind.
    pub(crate) fn begun(&mut self, view: View, call: &CoreCall) -> &mut Running
        requires view { IsView view }
        requires begins { MayBegin call.now }
        ensures machine { result.now ≡ machine_of view call.now }
        ensures sound { IsRunning result.now }
        ensures op { IsOf (op_of call.now) result.now }
    {
        match call {
            CoreCall::Get { .. } => begun_in(&mut self.get, view, call),
            CoreCall::Put { .. } => begun_in(&mut self.put, view, call),
            CoreCall::Del { .. } => begun_in(&mut self.del, view, call),
            CoreCall::Part { .. } => begun_in(&mut self.part, view, call),
            CoreCall::Recheck { .. } | CoreCall::Turn { .. } => unreachable!(),
        }
    }
}

/// The machine of a call that begins, in this room.
fn begun_in<'r>(room: &'r mut Option<Running>, view: View, call: &CoreCall) -> &'r mut Running
    requires view { IsView view }
    requires begins { MayBegin call.now }
    ensures machine { result.now ≡ machine_of view call.now }
    ensures sound { IsRunning result.now }
    ensures op { IsOf (op_of call.now) result.now }
{
    begins_in(room, view, call);
    let Some(machine) = room else { unreachable!() };
    machine
}
