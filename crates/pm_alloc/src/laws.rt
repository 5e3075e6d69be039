//! The laws of claims, and of merged nodes.

ghost use Rattle.pm_alloc.specs.Laws.{ClaimsAreSteps};
ghost use Rattle.pm_alloc.specs.Events.{ClaimsBegin, ClaimsHeed};

/// Each turn of a claim, whatever it is told, is a step of a party that holds a full node. A claim is answered by what
/// it was told: the first FREE node, none, or why it didn't get that node.
pub fn claim_law()
    ensures steps { ClaimsAreSteps }
    ensures begins { ClaimsBegin }
    ensures heeds { ClaimsHeed }
{}

ghost use Rattle.pm_alloc.specs.Gone.{RetiresAlone, ReleasesAlone};

/// With no other party about, a node that is retired is GONE, one that is released is FREE and has no stamp, and no
/// other word is changed.
pub fn ends_alone()
    ensures retires { RetiresAlone }
    ensures releases { ReleasesAlone }
{}
