//! The laws of turns. The functions do nothing: each names what is proved.

ghost use Rattle.lone_updater_law.specs.Laws.{TurnsAct};

/// Each action of a turn can be done, whatever else is in flight, and the turn may be told what that gives: of a READY
/// log line that is a node of the layout, and an anchor. The index keeps its search layer.
pub fn turns_act()
    ensures { TurnsAct }
{}

ghost use Rattle.lone_updater_law.specs.Laws.{TurnsBegin, TurnsGo};
ghost use Rattle.lone_updater_law.specs.LoneTurns.{GoneAreHeldBack};

/// With nothing in flight a party takes the updater lock for a turn, and each action of the turn can be done, to its
/// end. Then every log line is EMPTY, the search layer leads the listed anchors and no other key, and each GONE node is
/// FREE that isn't worn and whose stamp the turn releases; other statuses, the map, the list and the words of the nodes
/// are as they were. It answers how many lines were READY, that none is left, how many nodes it freed, and whether no
/// node is FREE.
pub fn lone_turns()
    ensures begins { TurnsBegin }
    ensures goes { TurnsGo }
    ensures gone { GoneAreHeldBack }
{}

ghost use Rattle.lone_updater_law.specs.CallLogs.{CallsAreInStep, EmptyAreCounted, LogEnds, LogGoes, ReadyAreCounted};

/// A try of a call with nothing else in flight leaves the search layer, and makes one of its caller's log lines READY
/// if it makes the switch of a split or of a merge; it leaves all other lines in their states. So one line more is
/// READY and one of the caller's fewer EMPTY, or as many as before.
pub fn call_logs()
    ensures in_step { CallsAreInStep }
    ensures goes { LogGoes }
    ensures ends { LogEnds }
    ensures counted { ReadyAreCounted }
    ensures empty { EmptyAreCounted }
{}
