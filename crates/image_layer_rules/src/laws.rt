//! The laws of images that are sound by all rules, each named by the contract of a function.

ghost use Rattle.image_layer_rules.specs.Laws.{RuleOnTree, RuleOnCount, RuleOnCover, CoverTellsKeys, SoundIsKept};
ghost use Rattle.image_layer_rules.specs.Laws.{FreshIsSoundByAll, CrashKeepsLines, StartCachesLines};
ghost use Rattle.image_layer_rules.specs.Visits.{VisitedOnce, VisitsAreFew};

/// Rule 10 says that the words of the tree are in order, and that the key of each leaf is zero or a name. Of such a
/// tree rule 11 says that there are at most as many keys as nodes, and rule 12 that it is covered.
/// Where it is, each key is zero or a name.
pub fn tree_law()
    ensures order { RuleOnTree }
    ensures count { RuleOnCount }
    ensures cover { RuleOnCover }
    ensures keys { CoverTellsKeys }
{}

/// An image is sound by all rules exactly where it is by those on its header, list, nodes and log, its tree is in
/// order, there are few keys, and the layer is covered.
pub fn rules_law()
    ensures { SoundIsKept }
{}

/// Whether the tree is in order or not, the walk comes to no leaf and to no cell by two ways. So there are at most as
/// many with which nothing is wrong as there are leaves and cells.
pub fn walk_law()
    ensures once { VisitedOnce }
    ensures few { VisitsAreFew }
{}

/// A fresh image is sound by all rules.
pub fn fresh_law()
    ensures { FreshIsSoundByAll }
{}

/// The words of log lines go unchanged from the durable words into the image, and from the image into the cached words.
/// That those of the layer do, `tree_row` says (`reading_law`).
pub fn words_law()
    ensures crash_lines { CrashKeepsLines }
    ensures start_lines { StartCachesLines }
{}
