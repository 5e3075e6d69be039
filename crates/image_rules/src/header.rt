//! The rules on the header, and on the version words that it bounds.

ghost use Rattle.std.specs.Prelude.{◌≡◌, ◌≢◌, ℕ, ◌<◌, ◌↔◌, IsTrue, slice_index};
ghost use Rattle.pm_words.specs.Locations.{Word, word_at};
ghost use Rattle.version_lock.specs.Versions.{IsGeneration};
ghost use Rattle.image_rules.specs.Lowest.{IsLowest, IsNumberOf};
ghost use Rattle.image_rules.specs.Rules.{header_generation, IsSpare, IsLater, BreaksHeader, BreaksVersions};

use pm_words::offsets::{header, node, root};
use pm_words::{Image, LINE_WORDS};
use version_lock::GENERATION_LIMIT;

/// The number of the run that wrote the header.
fn header_generation(image: &Image) -> u64
    ensures { result ≡ header_generation image.now.layout image.now.words }
{
    image.word(header::GENERATION)
}

/// Whether this is the number of a run.
fn is_generation(generation: u64) -> bool
    ensures { IsTrue result ↔ IsGeneration generation }
{
    1 <= generation && generation < GENERATION_LIMIT
}

/// The lowest spare word that is not 0.
fn used_spare(image: &Image) -> Option<u64>
    ensures { IsLowest (IsNumberOf image.now.layout (λ w. IsSpare w ×
        (word_at image.now.layout image.now.words w ≢ 0))) result }
{
    for word in header::GENERATION + 1..2 * LINE_WORDS {
        if word != LINE_WORDS + root::REFERENCE && image.word(word) != 0 {
            return Some(word);
        }
    }
    None
}

/// The lowest word that breaks rule 1.
pub(crate) fn wrong_header(image: &Image) -> Option<u64>
    ensures { IsLowest (IsNumberOf image.now.layout (BreaksHeader image.now.layout image.now.words)) result }
{
    if !is_generation(header_generation(image)) {
        return Some(header::GENERATION);
    }
    used_spare(image)
}

/// Whether the node's version word is of a later generation than the header.
fn is_later(image: &Image, node: u64) -> bool
    requires { node < image.now.layout.nodes }
    ensures { IsTrue result ↔ IsLater image.now.layout image.now.words node }
{
    let version = image.word(image.layout().node_word(node, node::VERSION));
    version_lock::generation_in(version) > header_generation(image)
}

/// The lowest node whose version word is of a later generation.
fn later_node(image: &Image) -> Option<u64>
    ensures { IsLowest (IsLater image.now.layout image.now.words) result }
{
    for node in 0..image.layout().nodes() {
        if is_later(image, node) {
            return Some(node);
        }
    }
    None
}

/// The lowest word that breaks rule 2.
pub(crate) fn wrong_version(image: &Image) -> Option<u64>
    ensures { IsLowest (IsNumberOf image.now.layout (BreaksVersions image.now.layout image.now.words)) result }
{
    let node = later_node(image)?;
    Some(image.layout().node_word(node, node::VERSION))
}
