//! What can be written out of an index with nothing in flight: the image of its words, and the pairs of its map.

ghost use Rattle.std.specs.Prelude.{◌≡◌, IfOk};
ghost use Rattle.cat_history.specs.Maps.{map_of};
ghost use Rattle.cat_history.specs.Replays.{pairs_of};
ghost use Rattle.index_image_law.specs.Rest.{IsRestImage, cached_image};
ghost use Rattle.index_core.specs.Indexes.{map_of_index, world};
ghost use Rattle.index_core.specs.Lone.{IsQuiet};

use crate::index::Core;
use cat_history::{Items, replay};
use cat_key::Pair;
use pm_words::{Image, NoMemory};
use std::alloc::Global;

impl Core {
    /// The image of the words as they are, whichever of them are durable, with no call and no turn in flight. It is
    /// sound by all rules, and keeps the map, the anchors and the log lines of the index. The index stays as it is.
    pub fn image(&self, alloc: Global) -> Result<Image, NoMemory>
        requires quiet { IsQuiet self.now }
        ensures words { IfOk result (λ image.
            image ≡ record { layout = self.now.layout; words = cached_image (world self.now) }) }
        ensures rest { IsRestImage (world self.now) }
    {
        self.memory.image(alloc)
    }

    /// The map as it is, as pairs in rising order of names.
    ///
    /// It takes time in proportion to the names and the history, and to the logarithm of the names.
    pub fn pairs(&self, alloc: Global) -> Result<Items<Pair>, NoMemory>
        ensures pairs { IfOk result (λ pairs. pairs ≡ pairs_of (map_of_index self.now)) }
        ensures map { IfOk result (λ pairs. map_of pairs ≡ map_of_index self.now) }
    {
        replay(alloc, self.base(), self.history())
    }
}
