//! Laws.

ghost use Rattle.lone_hops_law.specs.LoneNodes.{NodesGo, NodesEnd, TriesLengthen};
ghost use Rattle.lone_hops_law.specs.Short.{EmptyIsShort, ShortStays, ShortStaysAlike, ShortWalks};
ghost use Rattle.lone_hops_law.specs.Ways.{WaysAreWalks, SameWays, CutWays, JoinWays};

/// A way is a walk's with nothing in flight, and is one hop longer at most once a node was cut or two were joined.
pub fn ways_law()
    ensures walks { WaysAreWalks }
    ensures same { SameWays }
    ensures cut { CutWays }
    ensures joined { JoinWays }
{}

/// What each step of a lone call leaves of the nodes, and its last one.
pub fn nodes_law()
    ensures go { NodesGo }
    ensures end { NodesEnd }
    ensures lengthen { TriesLengthen }
{}

/// From the node to which the search layer leads a name, a walk makes no more hops than log lines are READY.
pub fn short_law()
    ensures empty { EmptyIsShort }
    ensures stays { ShortStays }
    ensures stays_alike { ShortStaysAlike }
    ensures walks { ShortWalks }
{}
