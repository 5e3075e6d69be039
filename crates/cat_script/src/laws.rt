//! Laws on the grammar of scripts, named by the contract of a function.

ghost use Rattle.cat_script.specs.Laws.{IsOneScriptAtMost, FaultIsNoScript, IsOneFaultAtMost, IsScriptOrHasFault};
ghost use Rattle.cat_script.specs.Laws.{FitsOrIsUnfit, UnfitFitsNot, IsOneUnfitAtMost};

/// A text is at most one script; one that has a first fault is none; and it has one first fault at most. A text that
/// isn't too long is a script or has a first fault: so exactly one of both.
pub fn script_law()
    ensures one { IsOneScriptAtMost }
    ensures no_script { FaultIsNoScript }
    ensures one_fault { IsOneFaultAtMost }
    ensures either { IsScriptOrHasFault }
{}

/// Lines fit so many callers, or have a first that doesn't, not both; and that is one line, for one reason.
pub fn fit_law()
    ensures either { FitsOrIsUnfit }
    ensures no_fit { UnfitFitsNot }
    ensures one_unfit { IsOneUnfitAtMost }
{}
