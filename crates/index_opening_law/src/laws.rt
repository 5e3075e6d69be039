//! The laws. The functions do nothing: each names what is proved.

ghost use Rattle.index_opening_law.specs.Openings.{OpeningIsAtRest, OpeningIsFooted, OpeningIsLayered, OpeningHasList};
ghost use Rattle.index_opening_law.specs.Openings.{OpeningIsUnlocked};

/// The index is at rest, with the log lines and prevs of parties that have none, and with its search layer.
pub fn opening_law()
    ensures rest { OpeningIsAtRest }
    ensures footed { OpeningIsFooted }
    ensures layered { OpeningIsLayered }
{}

/// Its list is the one that was recovered, and in its run no node was locked yet.
pub fn opening_list()
    ensures list { OpeningHasList }
    ensures unlocked { OpeningIsUnlocked }
{}
