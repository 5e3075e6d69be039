//! What a walk tells: its target, or why it gave up.

ghost use Rattle.std.specs.Prelude.{◌≡◌};

use cat_key::{Name, WORDS};
use pm_words::Again;

/// The node in whose range the key lies, as the walk saw it. As long as its version word stands, it is listed, and
/// these are the bounds of its range.
#[derive(Clone, Copy, PartialEq, Eq, Debug)]
pub struct Target {
    pub node: u64,
    /// Its version word, which was free.
    pub version: u64,
    /// The words of its anchor, the lowest key of its range.
    pub low: [u64; WORDS],
    /// The anchor of the next node, the first name past its range. `None` where there is no next node; also where the
    /// words of that anchor are no name, as they may be while another party stores them. Then this target doesn't
    /// stand.
    pub high: Option<Name>,
    /// How many hops the walk made to it.
    pub hops: u64,
    /// The next node, if there is one.
    pub next: Option<Next>,
}

/// The node that another leads to, and the words of its anchor.
#[derive(Clone, Copy, PartialEq, Eq, Debug)]
pub struct Next {
    pub node: u64,
    pub anchor: [u64; WORDS],
}

impl Next {
    ghost use Rattle.std.specs.Prelude.{◌≡◌};
    ghost use Rattle.data_list.specs.Keys.{name_kept};

    /// The name that the words of its anchor keep, or `None` where they are no name's.
    pub fn name(&self) -> Option<Name>
        ensures { result ≡ name_kept self.now.anchor }
    {
        let [first, second, third] = self.anchor;
        Name::of_words([first, second, third])
    }
}

/// What a walk loaded of its target. A call relies on it as long as the version word stands.
#[derive(Clone, Copy)]
pub struct Sighting {
    pub version: u64,
    pub low: [u64; WORDS],
    pub next: Option<Next>,
}

impl Target {
    ghost use Rattle.std.specs.Prelude.{◌≡◌};
    ghost use Rattle.data_list.specs.Walks.{sighting_of};

    /// What a call that goes on at the target relies on.
    pub fn sighting(&self) -> Sighting
        ensures { result ≡ sighting_of self.now }
    {
        Sighting {
            version: self.version,
            low: self.low,
            next: self.next,
        }
    }
}

/// How a walk ended.
#[derive(Clone, Copy, PartialEq, Eq, Debug)]
pub enum Walked {
    Target(Target),
    /// It gave up: a version word on its way was locked, or it made too many hops.
    Again(Again),
}
