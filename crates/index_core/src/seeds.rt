//! Words that become durable on their own before a crash, as a seed chooses them.

ghost use Rattle.std.specs.Prelude.{◌≡◌, ◌<◌, ◌^◌};
ghost use Rattle.pm_words.specs.Locations.{image_words};
ghost use Rattle.index_core.specs.CrashLaws.{evicted_by, is_chosen};

use pm_words::Memory;

/// Whether the seed chooses this word of an image: seed 0 none, seed 1 each, and another seed those that have a bit of
/// 1.
pub fn is_chosen(seed: u64, word: u64) -> bool
    requires { word < 2 ^ 62 }
    ensures { result ≡ is_chosen seed word }
{
    match seed {
        0 => false,
        1 => true,
        _ => (seed >> ((word + word / 64) % 64)) % 2 == 1,
    }
}

/// Makes those words of the image durable that the seed chooses.
pub fn evict_chosen(memory: &mut Memory, seed: u64)
    ensures { memory.new ≡ record memory.old {
      words = evicted_by memory.old.layout seed (image_words memory.old.layout) memory.old.words;
    } }
{
    let words = memory.layout().image_words();
    for word in 0..words {
        if is_chosen(seed, word) {
            memory.evict(word);
        }
    }
}
