//! The laws of log lines.

ghost use Rattle.smo_log.specs.Laws.{TakesAreNotes, OpensAreNotes, ReadiesAreNotes, ReadsAreNotes};
ghost use Rattle.smo_log.specs.Laws.{TakesHeed, ReadsHeed};

/// Each turn on a line, whatever it is told, is a step on a line. A line that is taken is durably EMPTY, one that is
/// opened is durably OPEN with all that it says, and one that is made READY is durably READY.
pub fn turns_are_notes()
    ensures takes { TakesAreNotes }
    ensures opens { OpensAreNotes }
    ensures readies { ReadiesAreNotes }
    ensures reads { ReadsAreNotes }
{}

/// A look for a line answers the first that it was told is EMPTY, or that none is; a read answers the words that it was
/// told.
pub fn answers_heed()
    ensures takes { TakesHeed }
    ensures reads { ReadsHeed }
{}

ghost use Rattle.smo_log.specs.Laws.{NotesAreBeside};

/// Each step on a log line of the layout is one beside nodes.
pub fn notes_are_beside()
    ensures { NotesAreBeside }
{}
