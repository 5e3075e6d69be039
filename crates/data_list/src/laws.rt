//! The laws of the walk.

ghost use Rattle.data_list.specs.Hops.{WalksHop};
ghost use Rattle.data_list.specs.Laws.{WalksAreLooks, WalksAreWatches, WalksAreViews};
ghost use Rattle.data_list.specs.Still.{FirstComes, EachComes, ComesOnce, ComesSoon, BeginsOnWay, WalksComeThere};
ghost use Rattle.data_list.specs.Still.{WalksAnswer};

/// Each turn of a walk is a look, also for a call that takes no lock: that relies on the version word of the node that
/// it is at, whether or not a lock can be taken from that, and on what it saw of the node since. So it is a watch, and
/// what it saw of its target says that the key belongs there, and which words its anchor has.
///
/// A turn keeps node and hops, or changes the node and adds one hop; it gives up only at a version word that isn't
/// free, and exactly where it has made twice as many hops as there are nodes.
pub fn walk_law()
    ensures looks { WalksAreLooks }
    ensures watches { WalksAreWatches }
    ensures views { WalksAreViews }
    ensures hops { WalksHop }
{}

/// A walk that nobody disturbs ends, from each node, at the target of its key, and tells how many hops it made. That is
/// one number, which is below that of the nodes; from node 0 it is the position of the target in the list.
pub fn walks_come_there()
    ensures first { FirstComes }
    ensures each { EachComes }
    ensures once { ComesOnce }
    ensures soon { ComesSoon }
    ensures begins { BeginsOnWay }
    ensures goes { WalksComeThere }
    ensures answers { WalksAnswer }
{}
