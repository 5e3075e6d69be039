//! The laws of sound images, each named by the contract of a function.

ghost use Rattle.image_rules.specs.Laws.{SoundKeepsRules, RulesMakeSound, SoundHasMap, HasOneMap, FreshIsSound};
ghost use Rattle.image_rules.specs.Laws.{CrashKeepsSpot, StartCachesSpot};

/// A sound image has its header in order, and its nodes make a list of tidy ones; and an image of which that holds is
/// sound.
pub fn rules_law()
    ensures keeps { SoundKeepsRules }
    ensures sound { RulesMakeSound }
{}

/// A sound image keeps a map, and no image keeps two.
pub fn map_law()
    ensures some { SoundHasMap }
    ensures one { HasOneMap }
{}

/// A fresh image is sound, and keeps no name.
pub fn fresh_law()
    ensures { FreshIsSound }
{}

/// The words of a node go unchanged from the durable words into the image, and from the image into the cached words.
pub fn spot_law()
    ensures crash { CrashKeepsSpot }
    ensures start { StartCachesSpot }
{}
