//! The end of a merged node, and its way back.

ghost use Rattle.std.specs.Prelude.{◌≡◌, ◌<◌};
ghost use Rattle.pm_words.specs.Layouts.{IsLayout};
ghost use Rattle.pm_alloc.specs.Gone.{retires};

use pm_words::codes::status::{FREE, GONE};
use pm_words::offsets::volatile;
use pm_words::{Action, Layout, Machine, Turn};

/// The stamp of a node that has none.
const NO_STAMP: u64 = 0;

/// The store of the status GONE of a node, which its party holds and has merged into the node before.
pub fn retire_node(layout: &Layout, node: u64) -> Action
    requires layout { IsLayout layout.now }
    requires node { node < layout.now.nodes }
    ensures { result ≡ retires layout.now node }
{
    Action::Store(layout.node_volatile(node, volatile::STATUS), GONE)
}

/// It stores the status GONE of a node, as `retire_node` has it, and is done.
#[derive(Clone, Copy)]
pub struct Retire {
    pub layout: Layout,
    pub node: u64,
}

impl Machine for Retire {
    ghost use Rattle.pm_alloc.specs.Gone.{IsRetire, retire_asks, retire_turned, retire_takes, retire_left};

    type Answer = ();

    ghost fits = { IsRetire };

    ghost asks = { retire_asks };

    ghost turned = { retire_turned };

    ghost takes = { retire_takes };

    ghost left = { retire_left };

    fn action(&self) -> Action {
        retire_node(&self.layout, self.node)
    }

    fn resume(self, _got: u64) -> Turn<Retire, ()> {
        Turn::Done(())
    }
}

impl Retire {
    ghost use Rattle.std.specs.Prelude.{◌≡◌, ◌<◌};
    ghost use Rattle.pm_words.specs.Layouts.{IsLayout};
    ghost use Rattle.pm_alloc.specs.Gone.{IsRetire, retire_from};

    /// It retires this node.
    pub fn new(layout: Layout, node: u64) -> Retire
        requires layout { IsLayout layout }
        requires node { node < layout.nodes }
        ensures new { result ≡ retire_from layout node }
        ensures sound { IsRetire result }
    {
        Retire { layout, node }
    }
}

/// It makes a GONE node FREE: it stores that the node has no stamp, and then the status. Its party has seen that the
/// node isn't worn, since a worn one can't be locked any more, and stays GONE.
#[derive(Clone, Copy)]
pub struct Release {
    pub layout: Layout,
    pub node: u64,
    pub at: ReleaseAt,
}

/// What it does next.
#[derive(Clone, Copy)]
pub enum ReleaseAt {
    Stamp,
    Status,
}

impl Machine for Release {
    ghost use Rattle.pm_alloc.specs.Gone.{IsRelease, release_asks, release_turned, release_takes, release_left};

    type Answer = ();

    ghost fits = { IsRelease };

    ghost asks = { release_asks };

    ghost turned = { release_turned };

    ghost takes = { release_takes };

    ghost left = { release_left };

    fn action(&self) -> Action {
        let (offset, value) = match self.at {
            ReleaseAt::Stamp => (volatile::STAMP, NO_STAMP),
            ReleaseAt::Status => (volatile::STATUS, FREE),
        };
        Action::Store(self.layout.node_volatile(self.node, offset), value)
    }

    fn resume(self, _got: u64) -> Turn<Release, ()> {
        match self.at {
            ReleaseAt::Stamp => Turn::Go(Release {
                at: ReleaseAt::Status,
                ..self
            }),
            ReleaseAt::Status => Turn::Done(()),
        }
    }
}

impl Release {
    ghost use Rattle.std.specs.Prelude.{◌≡◌, ◌<◌};
    ghost use Rattle.pm_words.specs.Layouts.{IsLayout};
    ghost use Rattle.pm_alloc.specs.Gone.{IsRelease, release_from};

    /// It makes this node FREE.
    pub fn new(layout: Layout, node: u64) -> Release
        requires layout { IsLayout layout }
        requires node { node < layout.nodes }
        ensures new { result ≡ release_from layout node }
        ensures sound { IsRelease result }
    {
        Release {
            layout,
            node,
            at: ReleaseAt::Stamp,
        }
    }
}
