//! The laws. The functions do nothing: each names what is proved.

ghost use Rattle.image_recovery_law.specs.Laws.{Starts, StepsKeep, EvictionsKeep, CrashMends, MendedIsSound};
ghost use Rattle.image_recovery_law.specs.Laws.{MendedWeighs};
ghost use Rattle.image_recovery_law.specs.Rest.{EndsAtRest, RestIsLawful, BrokenIsSound, BrokenThenWhole};
ghost use Rattle.image_recovery_law.specs.Moves.{PlanReaches, PlanEnds, PlannedBitsServe, PlannedNoneServes};
ghost use Rattle.image_recovery_law.specs.Rows.{StartHasColumns, CrashHasColumns, GenerationStores, BitsStore};
ghost use Rattle.image_recovery_law.specs.Rows.{EmptyStores};
ghost use Rattle.image_recovery_law.specs.Rows.{EvictionMixesColumns, DrainEvicts, VolatileLeaves};
ghost use Rattle.image_recovery_law.specs.RowMoves.{MoveStores, MoveEnds, RowEvicts, RowReaches, RowEnds};
ghost use Rattle.image_recovery_law.specs.RowMoves.{ChangesOnRows, UnsetBegins, UnsetGoes, UnsetEnds};
ghost use Rattle.image_recovery_law.specs.RowMoves.{SetBegins, SetGoes, SetEnds};
ghost use Rattle.image_recovery_law.specs.SoundImages.{ColumnsAreSound, ColumnsKeepMaps, FreshHasSoundColumns};

/// With a sound image in both rows a recovery may begin, and its steps and words that become durable keep what it is
/// sure of.
pub fn steps_law()
    ensures starts { Starts }
    ensures steps { StepsKeep }
    ensures evictions { EvictionsKeep }
{}

/// At every moment of a recovery, whichever words are durable, they are a sound image with the same list, the same map
/// and the same weight.
pub fn crash_law()
    ensures mends { CrashMends }
    ensures sound { MendedIsSound }
    ensures weighs { MendedWeighs }
{}

/// A recovery that comes to its end leaves an index at rest, which is lawful for turns of the updater.
pub fn rest_law()
    ensures rests { EndsAtRest }
    ensures lawful { RestIsLawful }
{}

/// After any number of broken recoveries the image is sound with the same list and map, and what a whole one leaves
/// then has that map too.
pub fn broken_law()
    ensures sound { BrokenIsSound }
    ensures whole { BrokenThenWhole }
{}

/// A recovery may be planned on the image with which it begins.
pub fn plan_law()
    ensures bits { PlannedBitsServe }
    ensures none { PlannedNoneServes }
    ensures reaches { PlanReaches }
    ensures ends { PlanEnds }
{}

/// What a recovery's actions do to the columns of a row, and where these come from and go to.
pub fn row_law()
    ensures start { StartHasColumns }
    ensures crash { CrashHasColumns }
    ensures generation { GenerationStores }
    ensures bits { BitsStore }
    ensures empty { EmptyStores }
    ensures evictions { EvictionMixesColumns }
    ensures drains { DrainEvicts }
    ensures volatile { VolatileLeaves }
{}

/// The stores of a recovery on a row of words keep what it is sure of, and so do words that become durable, and the way
/// from one move to the next and to the end.
pub fn move_law()
    ensures stores { MoveStores }
    ensures ends { MoveEnds }
    ensures evictions { RowEvicts }
    ensures reaches { RowReaches }
    ensures last { RowEnds }
{}

/// So do the changes of the layer, which take out the anchors of lines and set them, as they begin, action by action,
/// and as they end: then the marks tell again what the root leads to.
pub fn change_law()
    ensures rows { ChangesOnRows }
    ensures unset_begins { UnsetBegins }
    ensures unset_goes { UnsetGoes }
    ensures unset_ends { UnsetEnds }
    ensures set_begins { SetBegins }
    ensures set_goes { SetGoes }
    ensures set_ends { SetEnds }
{}

/// The columns of an image keep rules 1 to 9 exactly where the image does, and keep its map. A fresh image is sound by
/// all rules: so the laws are not empty.
pub fn image_law()
    ensures sound { ColumnsAreSound }
    ensures maps { ColumnsKeepMaps }
    ensures fresh { FreshHasSoundColumns }
{}
