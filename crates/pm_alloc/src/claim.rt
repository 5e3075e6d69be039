use pm_words::codes::status::FREE;
use pm_words::offsets::{node, volatile};
use pm_words::{Action, Again, Layout, Machine, Turn};
use version_lock::{is_free, locked_of};

/// How a claim ended.
#[derive(Clone, Copy, PartialEq, Eq, Debug)]
pub enum Claimed {
    /// The claimer has this node locked, and `word` is its version word.
    Node { node: u64, word: u64 },
    /// Each node from 1 upwards was passed: its status wasn't FREE, or its version word was worn.
    NoFree,
    /// The first FREE node was locked, or another party locked it meanwhile.
    Again(Again),
}

/// It goes through the nodes from 1 upwards, loads the version word of each, then its status, and locks the first that
/// is FREE. Node 0 is never FREE. A worn node can't be locked any more, so it is passed.
#[derive(Clone, Copy)]
pub struct Claim {
    pub layout: Layout,
    pub generation: u64,
    /// The node that it is at.
    pub node: u64,
    pub at: ClaimAt,
}

/// What it does next.
#[derive(Clone, Copy)]
pub enum ClaimAt {
    /// There is no node but 0. A machine asks for one action at least: this one loads the version word of node 0, and
    /// is done.
    Nowhere,
    Version,
    Status { version: u64 },
    /// It puts the locked word in place of the version word, which was free.
    Lock { version: u64, locked: u64 },
}

impl Machine for Claim {
    ghost use Rattle.pm_alloc.specs.Claims.{IsClaim, claim_asks, claim_turned, claim_takes, claim_left};

    type Answer = Claimed;

    ghost fits = { IsClaim };

    ghost asks = { claim_asks };

    ghost turned = { claim_turned };

    ghost takes = { claim_takes };

    ghost left = { claim_left };

    fn action(&self) -> Action {
        match self.at {
            ClaimAt::Nowhere | ClaimAt::Version => Action::Load(self.version_address()),
            ClaimAt::Status { version: _ } => {
                Action::Load(self.layout.node_volatile(self.node, volatile::STATUS))
            }
            ClaimAt::Lock { version, locked } => {
                Action::Exchange(self.version_address(), version, locked)
            }
        }
    }

    fn resume(self, got: u64) -> Turn<Claim, Claimed> {
        match self.at {
            ClaimAt::Nowhere => Turn::Done(Claimed::NoFree),
            ClaimAt::Version => self.goes_to(ClaimAt::Status { version: got }),
            ClaimAt::Status { version } => self.saw_status(version, got),
            ClaimAt::Lock { version, locked } => self.found(version, locked, got),
        }
    }
}

impl Claim {
    ghost use Rattle.std.specs.Prelude.{◌≡◌, ◌+◌, ◌<◌, ◌≤◌};
    ghost use Rattle.pm_words.specs.Layouts.{IsLayout};
    ghost use Rattle.version_lock.specs.declared.TheConstants.{GENERATION_LIMIT};
    ghost use Rattle.version_lock.specs.Versions.{generation_of};
    ghost use Rattle.call_stages.specs.Kinds.{version_address};
    ghost use Rattle.pm_alloc.specs.Claims.{IsClaim, claim_from, goes_to, passes, saw_status, found};

    /// A claim of a node of this layout, in the generation of this run.
    pub fn new(layout: Layout, generation: u64) -> Claim
        requires layout { IsLayout layout }
        requires generation { generation < GENERATION_LIMIT }
        ensures new { result ≡ claim_from layout generation }
        ensures sound { IsClaim result }
    {
        let (node, at) = if layout.nodes() == 1 {
            (0, ClaimAt::Nowhere)
        } else {
            (1, ClaimAt::Version)
        };
        Claim {
            layout,
            generation,
            node,
            at,
        }
    }

    fn version_address(&self) -> u64
        requires layout { IsLayout self.now.layout }
        requires node { self.now.node < self.now.layout.nodes }
        ensures { result ≡ version_address self.now.layout self.now.node }
    {
        self.layout
            .cached(self.layout.node_word(self.node, node::VERSION))
    }

    /// It goes on there.
    fn goes_to(self, at: ClaimAt) -> Turn<Claim, Claimed>
        ensures { result ≡ goes_to self at }
    {
        Turn::Go(Claim { at, ..self })
    }

    /// It goes on at the next node, if there is one.
    fn passes(self) -> Turn<Claim, Claimed>
        requires layout { IsLayout self.layout }
        requires node { self.node < self.layout.nodes }
        ensures { result ≡ passes self }
    {
        let next = self.node + 1;
        if next < self.layout.nodes() {
            Turn::Go(Claim {
                node: next,
                at: ClaimAt::Version,
                ..self
            })
        } else {
            Turn::Done(Claimed::NoFree)
        }
    }

    fn saw_status(self, version: u64, status: u64) -> Turn<Claim, Claimed>
        requires layout { IsLayout self.layout }
        requires node { self.node < self.layout.nodes }
        requires generation { self.generation < GENERATION_LIMIT }
        requires known { generation_of version ≤ self.generation }
        ensures { result ≡ saw_status self version status }
    {
        if status != FREE {
            return self.passes();
        }
        if !is_free(version, self.generation) {
            return Turn::Done(Claimed::Again(Again::Locked {
                node: self.node,
                word: version,
            }));
        }
        match locked_of(version, self.generation) {
            Some(locked) => self.goes_to(ClaimAt::Lock { version, locked }),
            None => self.passes(),
        }
    }

    /// It found this word in place of the version word.
    fn found(self, version: u64, locked: u64, word: u64) -> Turn<Claim, Claimed>
        ensures { result ≡ found self version locked word }
    {
        Turn::Done(if word == version {
            Claimed::Node {
                node: self.node,
                word: locked,
            }
        } else {
            Claimed::Again(Again::Moved {
                node: self.node,
                first: version,
                second: word,
            })
        })
    }
}
