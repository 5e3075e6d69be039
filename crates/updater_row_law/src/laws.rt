//! The laws. The functions do nothing: each names what is proved.

ghost use Rattle.updater_row_law.specs.RowLaw.{RowStepKeeps, RowStepCanAct, EvictionKeepsTurn, LayerIsSafe};

/// A step of a turn, by the action that it makes on a row of words, may be done and keeps the row lawful. That a walk
/// which has come to a target keeps its promise is a premise of the step by which it comes there.
pub fn row_law()
    ensures acts { RowStepCanAct }
    ensures keeps { RowStepKeeps }
{}

/// A word of the image that becomes durable keeps the row lawful.
pub fn evict_law()
    ensures { EvictionKeepsTurn }
{}

/// At every moment the durable words of the layer are in order, and it has few keys.
pub fn crash_law()
    ensures { LayerIsSafe }
{}
