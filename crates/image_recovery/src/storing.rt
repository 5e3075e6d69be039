//! A word of an image is stored and made durable.

ghost use Rattle.std.specs.Prelude.{◌≡◌, ◌+◌, ◌≤◌};
ghost use Rattle.pm_words.specs.Layouts.{IsLayout};
ghost use Rattle.pm_words.specs.Locations.{image_words};

use pm_words::{Action, Fence, Layout, Machine, Turn, line_of};

/// It stores a word of an image, and makes the line durable in which the word stands.
#[derive(Clone, Copy)]
pub struct Storing {
    pub layout: Layout,
    /// The number of the word in the image.
    pub word: u64,
    pub value: u64,
    pub at: StoringAt,
}

/// What it does next.
#[derive(Clone, Copy)]
pub enum StoringAt {
    Word,
    Line { fence: Fence },
}

impl Machine for Storing {
    ghost use Rattle.image_recovery.specs.Storings.{IsStoring, storing_asks, storing_turned, storing_takes};
    ghost use Rattle.image_recovery.specs.Storings.{storing_left};

    type Answer = ();

    ghost fits = { IsStoring };

    ghost asks = { storing_asks };

    ghost turned = { storing_turned };

    ghost takes = { storing_takes };

    ghost left = { storing_left };

    fn action(&self) -> Action {
        match self.at {
            StoringAt::Word => Action::Store(self.layout.cached(self.word), self.value),
            StoringAt::Line { fence } => {
                fence.action(self.layout.cached(line_of(self.word) + fence.word))
            }
        }
    }

    fn resume(self, got: u64) -> Turn<Storing, ()> {
        match self.at {
            StoringAt::Word => self.goes_to(StoringAt::Line {
                fence: Fence::new(),
            }),
            StoringAt::Line { fence } => match fence.next(got) {
                Some(fence) => self.goes_to(StoringAt::Line { fence }),
                None => Turn::Done(()),
            },
        }
    }
}

impl Storing {
    ghost use Rattle.image_recovery.specs.Storings.{IsStoring, stores, storing_on};

    /// It stores the value into the word, which isn't one of the last of the image.
    pub(crate) fn new(layout: Layout, word: u64, value: u64) -> Storing
        requires layout { IsLayout layout }
        requires word { word + 8 ≤ image_words layout }
        ensures new { result ≡ stores layout word value }
        ensures sound { IsStoring result }
    {
        Storing {
            layout,
            word,
            value,
            at: StoringAt::Word,
        }
    }

    /// It goes on there.
    fn goes_to(self, at: StoringAt) -> Turn<Storing, ()>
        ensures { result ≡ storing_on self at }
    {
        Turn::Go(Storing { at, ..self })
    }
}
