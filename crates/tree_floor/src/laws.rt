//! Laws on the floor's machine, for the proofs of crates above. The functions do nothing: each names what is proved.

ghost use Rattle.tree_floor.specs.ScanLaws.{ScansEnd, ScansStart, ScansAreExact};
ghost use Rattle.tree_floor.specs.Floors.{FloorStays, FloorOnlyLoads, FloorIsExact};

/// A scan ends whatever it is told, and is exact in a cell that is in order.
pub fn scan_law()
    ensures ends { ScansEnd }
    ensures starts { ScansStart }
    ensures exact { ScansAreExact }
{}

/// A floor loads words of the layer alone, ends and answers a node whatever it is told; it is the floor of its key
/// where the words stay as they are.
pub fn floor_law()
    ensures stays { FloorStays }
    ensures loads { FloorOnlyLoads }
    ensures exact { FloorIsExact }
{}
