//! Tries of calls that are turned back, and tries beside another call: how each is answered, and in how many events.
//! What whole calls take with nothing beside them is counted on the program, by `tools/check-events`.

use super::calls::Asked::{Del, Get, Part, Put};
use super::calls::{Asked, MANY, Scene, begin, made, run};
use call_stages::Once;
use pm_words::Again;
use recovery::index_core::{Core, CoreReply};
use std::alloc::Global;
use std::test::Fail;

/// How a try is answered: that it took place, or why it is to be made again.
const DONE: u64 = 0;

const LOCKED: u64 = 1;

const MOVED: u64 = 2;

const LOG_FULL: u64 = 3;

const NO_FREE: u64 = 4;

const OTHERWISE: u64 = 5;

fn kind_of(reply: &CoreReply) -> u64 {
    let again = match reply {
        CoreReply::Placed(Once::Again(again)) => again,
        CoreReply::Part(Once::Again(again)) => again,
        CoreReply::Placed(Once::Done(_)) => return DONE,
        CoreReply::Part(Once::Done(_)) => return DONE,
        _ => return OTHERWISE,
    };
    match again {
        Again::Locked { .. } => LOCKED,
        Again::Moved { .. } => MOVED,
        Again::LogFull => LOG_FULL,
        Again::NoFree => NO_FREE,
        _ => OTHERWISE,
    }
}

/// So many names on so many nodes; a call of caller 0, after how many of its events caller 1 makes how many of another
/// call; and how many events that of caller 0 makes, and how it is answered.
#[derive(Clone, Copy)]
struct Row {
    names: u64,
    nodes: u64,
    call: Asked,
    before: u64,
    other: Asked,
    most: u64,
    told: [u64; 2],
}

/// How many events are left of the call of caller 0, and how it is answered.
fn rest_of(core: &mut Core) -> [u64; 2] {
    for event in 1..MANY {
        if let Some(reply) = run(core, 0, 1) {
            return [event, kind_of(&reply)];
        }
    }
    [MANY, OTHERWISE]
}

fn told(alloc: Global, row: &Row) -> Option<[u64; 2]> {
    let mut core = made(alloc, Scene::new(row.nodes, row.names, 0))?;
    begin(&mut core, 0, row.call);
    run(&mut core, 0, row.before);
    begin(&mut core, 1, row.other);
    run(&mut core, 1, row.most);
    let [events, kind] = rest_of(&mut core);
    Some([events.saturating_add(row.before), kind])
}

/// The number of the first row that is otherwise, or that of all.
fn first_otherwise(alloc: Global, rows: &[Row]) -> usize {
    for (number, row) in rows.iter().enumerate() {
        if told(alloc, row) != Some(row.told) {
            return number;
        }
    }
    rows.len()
}

/// A call with nothing beside it.
fn alone(names: u64, nodes: u64, call: Asked, told: [u64; 2]) -> Row {
    Row {
        names,
        nodes,
        call,
        before: 0,
        other: Get(0),
        most: 0,
        told,
    }
}

/// The floor takes five loads: of the root's word, and of the key and the node word of the only leaf.
const FLOOR: u64 = 5;

/// Where no room is, a try loads next behind its look-up, which ends with event 22 of a put and with 26 of a delete,
/// then the state of each line until one is EMPTY, fences that, and looks for a FREE node; and gives its node back.
/// Twenty names have made eight of the caller's lines READY, and stand two in a node, but for four in the ninth. The
/// walk to that one makes eight hops of nine loads each, and then six loads; at node 0 it ends with nine.
#[test]
fn tries_that_find_no_line_or_no_node(rt: HostRuntime) -> Result<(), Fail> {
    let rows = [
        alone(4, 1, Put(4, 70), [FLOOR + 6 + 11 + 1 + 17 + 1 + 1, NO_FREE]),
        alone(
            20,
            9,
            Put(20, 70),
            [FLOOR + 72 + 6 + 11 + 1 + 8 + 1, LOG_FULL],
        ),
        alone(20, 9, Del(0), [FLOOR + 9 + 15 + 1 + 8 + 1, LOG_FULL]),
    ];
    assert_eq!(rt; first_otherwise(rt.alloc(), &rows), rows.len());
    Ok(())
}

/// A call on the only node, in which there is one name, beside a put of that name after so many of its events.
fn beside(call: Asked, before: u64, most: u64, told: [u64; 2]) -> Row {
    Row {
        names: 1,
        nodes: 1,
        call,
        before,
        other: Put(0, 70),
        most,
        told,
    }
}

/// The put locks the node with its twelfth event, and the other call is turned back as soon as it loads the version
/// word, which is its sixth event. A whole put between that one and the end turns a call back as well: a get, which
/// loads the word again as its last event, and whatever takes the lock, by the exchange: a part has loaded in between
/// which version its order of names has. Before that event the put is seen.
#[test]
fn tries_beside_a_put(rt: HostRuntime) -> Result<(), Fail> {
    let rows = [
        beside(Get(0), 0, 12, [6, LOCKED]),
        beside(Put(0, 71), 0, 12, [6, LOCKED]),
        beside(Del(0), 0, 12, [6, LOCKED]),
        beside(Part(0, 9), 0, 12, [6, LOCKED]),
        beside(Get(0), 5, MANY, [26, DONE]),
        beside(Get(0), 6, MANY, [26, MOVED]),
        beside(Get(0), 25, MANY, [26, MOVED]),
        beside(Put(0, 71), 6, MANY, [12, MOVED]),
        beside(Del(0), 11, MANY, [12, MOVED]),
        beside(Part(0, 9), 5, MANY, [FLOOR + 6 + 2 + 2 + 4 + 9 + 1, DONE]),
        beside(Part(0, 9), 6, MANY, [13, MOVED]),
        beside(Part(0, 9), 12, MANY, [13, MOVED]),
    ];
    assert_eq!(rt; first_otherwise(rt.alloc(), &rows), rows.len());
    Ok(())
}

/// A delete that leaves one name finds the next node locked: next to its own 61 events, with a second line since the
/// first is READY, it loads the bitmap, next and the version word there, and gives its node back. The put of caller 1
/// walks to that node by 15 loads.
#[test]
fn a_delete_beside_a_locked_node_merges_nothing(rt: HostRuntime) -> Result<(), Fail> {
    let row = Row {
        names: 5,
        nodes: 2,
        call: Del(1),
        before: 0,
        other: Put(2, 70),
        most: FLOOR + 15 + 1,
        told: [FLOOR + 61 + 4, DONE],
    };
    assert_eq!(rt; told(rt.alloc(), &row), Some(row.told));
    Ok(())
}
