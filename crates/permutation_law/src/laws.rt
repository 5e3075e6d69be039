//! The laws. The functions do nothing: each names what is proved.

ghost use Rattle.permutation_law.specs.Laws.{StepsPermute, SortsPermute, FramesPermute, EvictionsPermute};
ghost use Rattle.permutation_law.specs.Laws.{RestIsPermuted, IdleMayChange, ReadingBegins, ReadingGoesOn};
ghost use Rattle.permutation_law.specs.Laws.{LoadsRead, ReadingIsKept, SortsKeepReading, FramesKeepReading};
ghost use Rattle.permutation_law.specs.Laws.{EvictionsLeaveNodes, ReadingServes};

/// A step of a party, on nodes or beside them, and a store of a permutation by who holds its node, keep the
/// permutations of all nodes. So does whatever leaves the nodes, their permutations and the stages of the parties, a
/// word that becomes durable, and, where no call is in flight, what comes in place of the parties and the history.
pub fn permutations_law()
    ensures steps { StepsPermute }
    ensures sorts { SortsPermute }
    ensures frames { FramesPermute }
    ensures leave { EvictionsLeaveNodes }
    ensures evict { EvictionsPermute }
    ensures rest { RestIsPermuted }
    ensures idle { IdleMayChange }
{}

/// What a party that took no lock reads of a permutation, whose version is the version word that it saw, stands while
/// that version word does; and then it has the node's live slots in rising order of names.
pub fn readings_law()
    ensures begins { ReadingBegins }
    ensures goes_on { ReadingGoesOn }
    ensures loads { LoadsRead }
    ensures steps { ReadingIsKept }
    ensures sorts { SortsKeepReading }
    ensures frames { FramesKeepReading }
    ensures serves { ReadingServes }
{}
