//! Laws of the addresses, the rows and the images, for the proofs of crates above. The functions do nothing: each names
//! what is proved, so that it can't go unproved.
ghost use Rattle.pm_words.specs.Laws.{WordsWithin, WordsApart, AddressesWithin, AddressesApart, SlotsWithin};
ghost use Rattle.pm_words.specs.Laws.{SlotsApart, StoreStands, StoreLeaves, DrainsTwin, NamesCached, OutsideHeader};
ghost use Rattle.pm_words.specs.Laws.{DrainsFreely, ActKeepsRow, EvictionKeepsRow, CrashLeavesImage};
ghost use Rattle.pm_words.specs.Laws.{CrashLeavesDurable, ImageMakesRow, TwinsAreImage, VolatileIsZero, FreshIsImage};
ghost use Rattle.pm_words.specs.Laws.{FreshByName, CachedIsImage, CachedByWord, FencesTurn, FencesStay};

/// Named words are within an image, and no two have one number.
pub fn words_apart()
    ensures within { WordsWithin }
    ensures apart { WordsApart }
{}

/// Locations are within a row, and no two have one address.
pub fn addresses_apart()
    ensures within { AddressesWithin }
    ensures apart { AddressesApart }
{}

/// The words of slots are within a node, and no two have one offset.
pub fn slots_apart()
    ensures within { SlotsWithin }
    ensures apart { SlotsApart }
{}

/// A store changes the word at its own address alone.
pub fn stores_apart()
    ensures stands { StoreStands }
    ensures leaves { StoreLeaves }
{}

/// A drain of a word's cached twin stores into its durable one.
pub fn drains_twin()
    ensures twin { DrainsTwin }
    ensures cached { NamesCached }
{}

/// Which addresses may be stored into and drained whatever the header is.
pub fn outside_header()
    ensures stores { OutsideHeader }
    ensures drains { DrainsFreely }
{}

/// A row stays one of its layout, and a crash leaves an image of the durable twins.
pub fn rows_kept()
    ensures acts { ActKeepsRow }
    ensures evictions { EvictionKeepsRow }
    ensures crashes { CrashLeavesImage }
    ensures durable { CrashLeavesDurable }
{}

/// The cached twins of a row are an image, word by word.
pub fn cached_image()
    ensures image { CachedIsImage }
    ensures words { CachedByWord }
{}

/// A row that is made of an image has it in both twins, and zeros in front.
pub fn rows_made()
    ensures row { ImageMakesRow }
    ensures twins { TwinsAreImage }
    ensures volatile { VolatileIsZero }
{}

/// What the words of a fresh image are.
pub fn fresh_image()
    ensures image { FreshIsImage }
    ensures words { FreshByName }
{}

/// Each turn of a fence loads its word, or gives the word in hand to the durable twin and goes on to the next word, or
/// is done with the last.
pub fn fences_turn()
    ensures turn { FencesTurn }
    ensures stay { FencesStay }
{}
