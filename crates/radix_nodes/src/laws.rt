//! Laws on the words of cells, for the proofs of crates above. The functions do nothing: each names what is proved.

ghost use Rattle.radix_nodes.specs.Making.{GrownIsGrown, LargerIsLarger, PairIsPair, PairsAlike, MadeKinds};
ghost use Rattle.radix_nodes.specs.Making.{LargerFits, PairFits, PrefixFits};
ghost use Rattle.radix_nodes.specs.Stores.{EntryAdds, EntryMoves, EntryGoes, PlaceFills, IndexAdds, IndexMoves};
ghost use Rattle.radix_nodes.specs.Stores.{IndexGoes, DirectStores, CrashShowsEither, ChildrenAreBytes};
ghost use Rattle.radix_nodes.specs.FillLaws.{FillsBegin, FillsStay, LeavesAreFilled, CellsAreFilled};

/// Forms 4 and 16: one store adds a child, makes it another, or takes it out.
pub fn entries_law()
    ensures adds { EntryAdds }
    ensures moves { EntryMoves }
    ensures goes { EntryGoes }
{}

/// Form 48: one store fills a place and changes no child, or changes the child under one byte.
pub fn index_law()
    ensures fills { PlaceFills }
    ensures adds { IndexAdds }
    ensures moves { IndexMoves }
    ensures goes { IndexGoes }
{}

/// Form 256: one store changes the child under one byte.
pub fn direct_law()
    ensures { DirectStores }
{}

/// The next form of a cell, with a child more, and a cell for two children, by the words that they are made of: in
/// order where the cell is, and words of 64 bits where those are. A pair has three words of its prefix.
pub fn making_law()
    ensures grown { GrownIsGrown }
    ensures larger { LargerIsLarger }
    ensures pair { PairIsPair }
    ensures pairs { PairsAlike }
    ensures kinds { MadeKinds }
    ensures larger_fits { LargerFits }
    ensures pair_fits { PairFits }
    ensures prefix_fits { PrefixFits }
{}

/// The children of a cell in order are under bytes, and a crash at a store shows those before it or those after it.
pub fn children_law()
    ensures bytes { ChildrenAreBytes }
    ensures crash { CrashShowsEither }
{}

/// A machine that fills a leaf or a cell can make each of its steps, whatever others do elsewhere and whichever words
/// become durable meanwhile. After its last step both twins of each word of the part are as asked for.
pub fn filling_law()
    ensures begins { FillsBegin }
    ensures stays { FillsStay }
    ensures leaves { LeavesAreFilled }
    ensures cells { CellsAreFilled }
{}
