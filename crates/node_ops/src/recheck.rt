//! A recheck: it loads the clock, and then a node's version word. If that is the one that it was handed, then what a
//! part told with that version word is so still, at that clock too. It takes no lock and changes no word.
//!
//! The clock comes first: loaded last, it could count writes that came between the two loads, on a node that was
//! changed between them.

ghost use Rattle.std.specs.Prelude.{◌≡◌, ◌<◌};

use call_stages::{Once, View};
use pm_words::offsets::node;
use pm_words::offsets::shared::CLOCK;
use pm_words::{Action, Again, Machine, Turn};

/// What was told of a node, with its version word, is the same at this place.
#[derive(Clone, Copy, PartialEq, Eq, Debug)]
pub struct Same {
    /// How many placed writes come before the recheck.
    pub place: u64,
}

/// A recheck of a node, with the version word that a part of it told.
#[derive(Clone, Copy)]
pub enum Recheck {
    /// It loads the clock.
    Dating {
        view: View,
        node: u64,
        version: u64,
    },
    /// It loads the node's version word.
    Checking {
        view: View,
        node: u64,
        version: u64,
        clock: u64,
    },
}

impl Recheck {
    ghost use Rattle.call_stages.specs.Views.{IsView};
    ghost use Rattle.node_ops.specs.RecheckSteps.{IsRecheck, version_at};

    /// A recheck of this node, with this version word.
    pub fn new(view: View, node: u64, version: u64) -> Recheck
        requires view { IsView view }
        requires node { node < view.layout.nodes }
        ensures new { result ≡ Recheck.Dating view node version }
        ensures sound { IsRecheck result }
    {
        Recheck::Dating {
            view,
            node,
            version,
        }
    }

    /// The address of the node's version word.
    fn version_at(view: View, node: u64) -> u64
        requires view { IsView view }
        requires node { node < view.layout.nodes }
        ensures { result ≡ version_at view node }
    {
        view.layout
            .cached(view.layout.node_word(node, node::VERSION))
    }
}

impl Machine for Recheck {
    ghost use Rattle.node_ops.specs.RecheckSteps.{IsRecheck, recheck_asks, recheck_turned, recheck_takes, recheck_left};

    type Answer = Once<Same>;

    ghost fits = { IsRecheck };

    ghost asks = { recheck_asks };

    ghost turned = { recheck_turned };

    ghost takes = { recheck_takes };

    ghost left = { recheck_left };

    fn action(&self) -> Action {
        match *self {
            Recheck::Dating { .. } => Action::Load(CLOCK),
            Recheck::Checking { view, node, .. } => Action::Load(Recheck::version_at(view, node)),
        }
    }

    fn resume(self, got: u64) -> Turn<Recheck, Once<Same>> {
        match self {
            Recheck::Dating {
                view,
                node,
                version,
            } => Turn::Go(Recheck::Checking {
                view,
                node,
                version,
                clock: got,
            }),
            Recheck::Checking {
                node,
                version,
                clock,
                ..
            } => Turn::Done(if got == version {
                Once::Done(Same { place: clock })
            } else {
                Once::Again(Again::Moved {
                    node,
                    first: version,
                    second: got,
                })
            }),
        }
    }
}
