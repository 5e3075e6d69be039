//! The laws of turns.

ghost use Rattle.updater.specs.Takings.{TakingsHeed};
ghost use Rattle.updater.specs.Watches.{TakingsAreFeet, WorksAreFeet};
ghost use Rattle.updater.specs.Steps.{TakingsAreSteps, WorksStart, WorksAreSteps};

/// An attempt at the updater lock is answered by the word that its exchange found: it has taken the lock exactly where
/// that is the free one, and is told the word where it is another. It is a step on rows of words, and a watch, of one
/// stamp and one release.
pub fn taking_law()
    ensures heeds { TakingsHeed }
    ensures steps { TakingsAreSteps }
    ensures feet { TakingsAreFeet }
{}

ghost use Rattle.updater.specs.Laws.{WorksStaySound};
ghost use Rattle.updater.specs.Events.{WorksBegin, WorksHeed, WorksLeave};
ghost use Rattle.updater.specs.Doings.{WorksDo};

/// A turn goes on as one whose fields keep the same, whatever it is told. It answers by what it was told: how many
/// READY lines it emptied, and how many it left, since the walk gave up or the version word of the target changed; how
/// many nodes it made FREE; and whether no node was FREE at the end. It is done with the store that gives back the
/// updater lock.
///
/// What it stores follows from what it was told: it leads the anchor of a READY line whose target stands to the node
/// that has it, or to none, stamps the node of a merge, and empties that line; it makes a GONE node FREE whose stamp
/// the release allows; it gives back the updater lock. It stores nothing else.
pub fn work_law()
    ensures sound { WorksStaySound }
    ensures begins { WorksBegin }
    ensures heeds { WorksHeed }
    ensures leaves { WorksLeave }
    ensures does { WorksDo }
{}

ghost use Rattle.updater.specs.Watches.{WorksAreWatches, TargetsAreSeen, KeysHaveOneNumber, WalksAreTold};

/// Each turn is a step of a turn on rows of words, whatever number it is told of those that its action may give. That
/// these steps keep what is lawful is `updater_row_law`'s, which rests on the walk's promise where a walk ends at a
/// target.
///
/// Each turn is a watch, too: while it walks, it relies on what its walk saw of the node that it is at, and where that
/// comes to a target, it has seen that the line's anchor belongs there, and which words the target's anchor has. A key
/// has one number, for the walk and for the layer. While it walks, a turn may be told just what its walk may be told.
/// So each turn is both at once, of one stamp and one release.
pub fn turn_law()
    ensures starts { WorksStart }
    ensures steps { WorksAreSteps }
    ensures watches { WorksAreWatches }
    ensures targets { TargetsAreSeen }
    ensures keys { KeysHaveOneNumber }
    ensures told { WalksAreTold }
    ensures feet { WorksAreFeet }
{}

ghost use Rattle.updater.specs.Makings.{MakingsStaySound, MakingsAreFeet};

/// A whole turn takes the lock and works under it; it is the same, at each of its turns, and goes on as one whose
/// fields keep the same.
pub fn making_law()
    ensures sound { MakingsStaySound }
    ensures feet { MakingsAreFeet }
{}
