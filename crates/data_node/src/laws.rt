//! Laws on nodes, each named by the contract of a function.

ghost use Rattle.data_node.specs.RangeNames.{NodeHasItsNames};

/// A node that means a map on a range has as many names of the range as the map.
pub fn names_law()
    ensures { NodeHasItsNames }
{}
