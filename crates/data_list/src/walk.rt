//! The walk as a machine. At each node it makes these loads, in this order, one in each state:
//!
//! | State | Loads | Then |
//! |---|---|---|
//! | `Version` | the version word | it gives up where that is locked |
//! | `Status` | the status | GONE: `Prev`; FREE: a hop to node 0 |
//! | `First`, `Second`, `Third` | the anchor, word by word | where the key is below it: `Prev` |
//! | `Next` | the number of the next node | where there is none, this is the target |
//! | `HighFirst`, `HighSecond`, `HighThird` | the next node's anchor, word by word | where the key is below it, this is
//! the target, else a hop to the next node |
//! | `Prev` | the node before, or the one into which a GONE node was merged | a hop there |
//!
//! A hop begins anew at `Version` of the other node, and nothing that was loaded before it is relied on. A number that
//! is none of a node, or the walk's own, leads to node 0. That one is LIVE and has the anchor zero, so a walk doesn't
//! hop from it to itself.

ghost use Rattle.std.specs.Prelude.{◌≡◌, ℕ, ◌+◌, ◌*◌, ◌^◌, ◌<◌, ◌≤◌};

use crate::target::{Next, Target, Walked};
use cat_key::WORDS;
use data_node::is_below;
use pm_words::codes::status::{GONE, LIVE};
use pm_words::offsets::{node, volatile};
use pm_words::{Action, Again, Layout, Machine, Memory, Steps, Turn};
use std::sync::ledger::Ledger;
use version_lock::is_free;

/// A walk: it goes from node to node until it is at the one in whose range its key lies.
#[derive(Clone, Copy)]
pub struct Walk {
    pub layout: Layout,
    pub generation: u64,
    pub key: [u64; WORDS],
    pub node: u64,
    pub hops: u64,
    pub at: WalkAt,
}

/// What it loads next.
#[derive(Clone, Copy)]
pub enum WalkAt {
    Version,
    Status {
        version: u64,
    },
    /// The anchor, word by word.
    First {
        version: u64,
    },
    Second {
        version: u64,
        first: u64,
    },
    Third {
        version: u64,
        first: u64,
        second: u64,
    },
    Next {
        version: u64,
        low: [u64; WORDS],
    },
    /// The anchor of the next node, word by word.
    HighFirst {
        version: u64,
        low: [u64; WORDS],
        next: u64,
    },
    HighSecond {
        version: u64,
        low: [u64; WORDS],
        next: u64,
        first: u64,
    },
    HighThird {
        version: u64,
        low: [u64; WORDS],
        next: u64,
        first: u64,
        second: u64,
    },
    /// The node before, to which it goes.
    Prev,
}

impl Machine for Walk {
    ghost use Rattle.data_list.specs.Walks.{IsWalk, walk_asks, walk_turned, walk_takes, walk_left};

    type Answer = Walked;

    ghost fits = { IsWalk };

    ghost asks = { walk_asks };

    ghost turned = { walk_turned };

    ghost takes = { walk_takes };

    ghost left = { walk_left };

    #[inline(always)]
    fn action(&self) -> Action {
        Action::Load(match &self.at {
            WalkAt::Version => self.address(self.node, node::VERSION),
            WalkAt::Status { .. } => self.layout.node_volatile(self.node, volatile::STATUS),
            WalkAt::First { .. } => self.address(self.node, node::ANCHOR),
            WalkAt::Second { .. } => self.address(self.node, node::ANCHOR + 1),
            WalkAt::Third { .. } => self.address(self.node, node::ANCHOR + 2),
            WalkAt::Next { .. } => self.address(self.node, node::NEXT),
            WalkAt::HighFirst { next, .. } => self.address(*next, node::ANCHOR),
            WalkAt::HighSecond { next, .. } => self.address(*next, node::ANCHOR + 1),
            WalkAt::HighThird { next, .. } => self.address(*next, node::ANCHOR + 2),
            WalkAt::Prev => self.layout.node_volatile(self.node, volatile::PREV),
        })
    }

    fn resume(self, got: u64) -> Turn<Walk, Walked> {
        let mut next = self;
        match next.advance(got) {
            None => Turn::Go(next),
            Some(walked) => Turn::Done(walked),
        }
    }
}

impl Walk {
    ghost use Rattle.std.specs.Prelude.{◌≡◌, ℕ, ◌+◌, ◌*◌, ◌^◌, ◌<◌, ◌≤◌, List};
    ghost use Rattle.pm_words.specs.Layouts.{IsLayout};
    ghost use Rattle.pm_words.specs.Locations.{node_words};
    ghost use Rattle.pm_words.specs.Turns.{GoesBelow};
    ghost use Rattle.call_stages.specs.Kinds.{word_address};
    ghost use Rattle.data_list.specs.declared.walk.WalkAt.TheVariants as WalkAt;
    ghost use Rattle.pm_words.specs.Turns.{AdvancesTo};
    ghost use Rattle.pm_words.specs.declared.machine.Turn.TheVariants.{Done};
    ghost use Rattle.machine_runs.specs.Runs.{MayGo};
    ghost use Rattle.data_list.specs.Walks.{IsWalk, walk_from, walk_asks, walk_takes, walk_turned, walk_left, target};
    ghost use Rattle.data_list.specs.Walks.{loads_at};
    ghost use Rattle.data_list.specs.Walks.{landing, hops_to, saw_version, saw_status, saw_anchor, saw_next, saw_high};
    ghost use Rattle.data_list.specs.Arrivals.{MayWalk, WalkBursts, ComesTo, Leads, HopsOn, anchor_loaded, anchor_at};
    ghost use Rattle.pm_words.specs.Locations.{row_words};
    ghost use Rattle.pm_words.specs.Offsets.{anchor_offset};

    /// A walk to the node of a key, in this generation, that begins at the node `hint`.
    pub fn new(layout: Layout, generation: u64, hint: u64, key: [u64; WORDS]) -> Walk
        requires layout { IsLayout layout }
        requires hint { hint < layout.nodes }
        ensures new { result ≡ walk_from layout generation hint key }
        ensures sound { IsWalk result }
    {
        Walk {
            layout,
            generation,
            key,
            node: hint,
            hops: 0,
            at: WalkAt::Version,
        }
    }

    /// The node that it is at. Each turn keeps node and hops, or changes the node and adds one hop.
    pub fn node(&self) -> u64
        ensures { result ≡ self.now.node }
    {
        self.node
    }

    /// How many hops it has made.
    pub fn hops(&self) -> u64
        ensures { result ≡ self.now.hops }
    {
        self.hops
    }

    fn address(&self, node: u64, offset: u64) -> u64
        requires layout { IsLayout self.now.layout }
        requires node { node < self.now.layout.nodes }
        requires within { offset < node_words self.now.layout }
        ensures { result ≡ word_address self.now.layout node offset }
    {
        self.layout.cached(self.layout.node_word(node, offset))
    }

    /// Tells it in place the word that it asked for. It goes on, or is done where there is an answer.
    #[inline(always)]
    pub fn advance(&mut self, got: u64) -> Option<Walked>
        requires { walk_takes self.old got }
        ensures turned { AdvancesTo (walk_turned self.old got) self.new result }
        ensures fewer { GoesBelow walk_left (walk_left self.old) (walk_turned self.old got) }
    {
        match self.at {
            WalkAt::Version => self.saw_version(got),
            WalkAt::Status { version } => self.saw_status(version, got),
            WalkAt::First { version } => self.saw_first(version, got),
            WalkAt::Second { version, first } => self.saw_second(version, first, got),
            WalkAt::Third {
                version,
                first,
                second,
            } => self.saw_anchor(version, [first, second, got]),
            WalkAt::Next { version, low } => self.saw_next(version, low, got),
            WalkAt::HighFirst { version, low, next } => self.saw_high_first(
                version, low, next, got,
            ),
            WalkAt::HighSecond {
                version,
                low,
                next,
                first,
            } => self.saw_high_second(version, low, next, first, got),
            WalkAt::HighThird {
                version,
                low,
                next,
                first,
                second,
            } => self.saw_high(version, low, next, [first, second, got]),
            WalkAt::Prev => self.hops_to(got),
        }
    }

    /// From its beginning it makes its loads until it is at its target, whose version word it answers, with nothing
    /// between. `steps` counts the events.
    pub fn comes<L: Ledger>(
        &mut self,
        memory: &mut Memory,
        steps: &mut Steps<L>,
    ) -> Result<u64, Again>
        requires begins { self.old.at ≡ WalkAt.Version }
        requires may { MayGo walk_asks walk_turned walk_left walk_takes memory.old.layout memory.old.words self.old }
        ensures { ComesTo memory.old memory.new self.old self.new result steps.old steps.new }
    {
        'hops: loop {
            let node = self.node;
            let version = memory.act(Action::Load(self.address(node, node::VERSION)), steps);
            if !is_free(version, self.generation) {
                return Err(Again::Locked {
                    node,
                    word: version,
                });
            }
            let Some(to) = self.leads(memory, steps) else {
                return Ok(version);
            };
            self.hops_on(to)?;
        }
    }

    /// The number of the node to which its node leads it, or None where that is its target.
    fn leads<L: Ledger>(&self, memory: &mut Memory, steps: &mut Steps<L>) -> Option<u64>
        requires { (version : ℕ) × MayWalk memory.old self.now (WalkAt.Status version) }
        ensures { (version : ℕ) → MayWalk memory.old self.now (WalkAt.Status version)
            → Leads memory.old memory.new self.now (WalkAt.Status version) version result steps.old steps.new }
    {
        let status = memory.act(
            Action::Load(self.layout.node_volatile(self.node, volatile::STATUS)),
            steps,
        );
        if status == GONE {
            return Some(self.leads_back(memory, steps));
        }
        if status != LIVE {
            return Some(0);
        }
        self.leads_on(memory, steps)
    }

    /// The same of a LIVE node.
    fn leads_on<L: Ledger>(&self, memory: &mut Memory, steps: &mut Steps<L>) -> Option<u64>
        requires { (version : ℕ) × MayWalk memory.old self.now (WalkAt.First version) }
        ensures { (version : ℕ) → MayWalk memory.old self.now (WalkAt.First version)
            → Leads memory.old memory.new self.now (WalkAt.First version) version result steps.old steps.new }
    {
        let low = self.loads_anchor(self.node, memory, steps);
        if is_below(&self.key, &low) {
            return Some(self.leads_back(memory, steps));
        }
        self.leads_next(memory, steps)
    }

    /// The same of one whose anchor the key isn't below.
    fn leads_next<L: Ledger>(&self, memory: &mut Memory, steps: &mut Steps<L>) -> Option<u64>
        requires { (version : ℕ) × (low : List ℕ) × MayWalk memory.old self.now (WalkAt.Next version low) }
        ensures { (version : ℕ) (low : List ℕ) → MayWalk memory.old self.now (WalkAt.Next version low)
            → Leads memory.old memory.new self.now (WalkAt.Next version low) version result steps.old steps.new }
    {
        let next = memory.act(Action::Load(self.address(self.node, node::NEXT)), steps);
        if next >= self.layout.nodes() {
            return Some(0);
        }
        if next != 0 {
            return self.passes(next, memory, steps);
        }
        None
    }

    /// The next node, unless the key is below its anchor.
    fn passes<L: Ledger>(&self, next: u64, memory: &mut Memory, steps: &mut Steps<L>) -> Option<u64>
        requires { (version : ℕ) × (low : List ℕ) ×
            MayWalk memory.old self.now (WalkAt.HighFirst version low next) }
        ensures { (version : ℕ) (low : List ℕ) → MayWalk memory.old self.now (WalkAt.HighFirst version low next)
            → Leads memory.old memory.new self.now (WalkAt.HighFirst version low next) version result steps.old
            steps.new }
    {
        let high = self.loads_anchor(next, memory, steps);
        if is_below(&self.key, &high) {
            return None;
        }
        Some(next)
    }

    /// The number of the node before, or of the one into which a GONE node was merged.
    fn leads_back<L: Ledger>(&self, memory: &mut Memory, steps: &mut Steps<L>) -> u64
        requires { MayWalk memory.old self.now WalkAt.Prev }
        ensures { WalkBursts memory.old memory.new self.now WalkAt.Prev (hops_to self.now result) steps.old steps.new }
    {
        memory.act(
            Action::Load(self.layout.node_volatile(self.node, volatile::PREV)),
            steps,
        )
    }

    /// The anchor of a node.
    fn loads_anchor<L: Ledger>(
        &self,
        node: u64,
        memory: &mut Memory,
        steps: &mut Steps<L>,
    ) -> [u64; WORDS]
        requires layout { IsLayout self.now.layout }
        requires node { node < self.now.layout.nodes }
        requires within { word_address self.now.layout node (anchor_offset + 2) < row_words memory.old.layout }
        ensures row { memory.new ≡ record memory.old {
          words = anchor_loaded self.now.layout node memory.old.layout memory.old.words;
        } }
        ensures anchor { result ≡ anchor_at self.now.layout node memory.old.layout memory.old.words }
        ensures steps { steps.new ≡ steps.old + 3 }
    {
        [
            memory.act(Action::Load(self.address(node, node::ANCHOR)), steps),
            memory.act(Action::Load(self.address(node, node::ANCHOR + 1)), steps),
            memory.act(Action::Load(self.address(node, node::ANCHOR + 2)), steps),
        ]
    }

    /// It goes on there.
    fn loads_at(&mut self, at: WalkAt) -> Option<Walked>
        ensures { AdvancesTo (loads_at self.old at) self.new result }
    {
        self.at = at;
        None
    }

    /// The node of this number; node 0 where there is none, or where it is at that node already.
    fn landing(&self, number: u64) -> u64
        ensures { result ≡ landing self.now number }
    {
        if number == self.node {
            0
        } else if number < self.layout.nodes() {
            number
        } else {
            0
        }
    }

    /// It goes on at the node of this number, unless that is a hop too many.
    fn hops_on(&mut self, node: u64) -> Result<(), Again>
        requires layout { IsLayout self.old.layout }
        requires hops { self.old.hops < 2 * self.old.layout.nodes }
        ensures { HopsOn (hops_to self.old node) self.new result }
    {
        let hops = self.hops + 1;
        if hops < 2 * self.layout.nodes() {
            self.node = self.landing(node);
            self.hops = hops;
            self.at = WalkAt::Version;
            return Ok(());
        }
        Err(Again::Hops { count: hops })
    }

    /// It goes on at the node of this number, or is done.
    fn hops_to(&mut self, node: u64) -> Option<Walked>
        requires layout { IsLayout self.old.layout }
        requires hops { self.old.hops < 2 * self.old.layout.nodes }
        ensures { AdvancesTo (hops_to self.old node) self.new result }
    {
        match self.hops_on(node) {
            Ok(()) => None,
            Err(why) => Some(Walked::Again(why)),
        }
    }

    /// The node that it is at is its target.
    fn is_at_target(&self, version: u64, low: [u64; WORDS], next: Option<Next>) -> Option<Walked>
        ensures { AdvancesTo (target self.now version low next) self.now result }
    {
        let high = match next {
            Some(next) => next.name(),
            None => None,
        };
        Some(Walked::Target(Target {
            node: self.node,
            version,
            low,
            high,
            hops: self.hops,
            next,
        }))
    }

    fn saw_version(&mut self, word: u64) -> Option<Walked>
        ensures { AdvancesTo (saw_version self.old word) self.new result }
    {
        if is_free(word, self.generation) {
            self.loads_at(WalkAt::Status { version: word })
        } else {
            Some(Walked::Again(Again::Locked {
                node: self.node,
                word,
            }))
        }
    }

    fn saw_status(&mut self, version: u64, status: u64) -> Option<Walked>
        requires layout { IsLayout self.old.layout }
        requires hops { self.old.hops < 2 * self.old.layout.nodes }
        ensures { AdvancesTo (saw_status self.old version status) self.new result }
    {
        if status == LIVE {
            self.loads_at(WalkAt::First { version })
        } else if status == GONE {
            self.loads_at(WalkAt::Prev)
        } else {
            self.hops_to(0)
        }
    }

    fn saw_first(&mut self, version: u64, first: u64) -> Option<Walked>
        ensures { AdvancesTo (loads_at self.old (WalkAt.Second version first)) self.new result }
    {
        self.loads_at(WalkAt::Second { version, first })
    }

    fn saw_second(&mut self, version: u64, first: u64, second: u64) -> Option<Walked>
        ensures { AdvancesTo (loads_at self.old (WalkAt.Third version first second)) self.new result }
    {
        self.loads_at(WalkAt::Third {
            version,
            first,
            second,
        })
    }

    fn saw_anchor(&mut self, version: u64, low: [u64; WORDS]) -> Option<Walked>
        ensures { AdvancesTo (saw_anchor self.old version low) self.new result }
    {
        if is_below(&self.key, &low) {
            self.loads_at(WalkAt::Prev)
        } else {
            self.loads_at(WalkAt::Next { version, low })
        }
    }

    fn saw_next(&mut self, version: u64, low: [u64; WORDS], next: u64) -> Option<Walked>
        requires layout { IsLayout self.old.layout }
        requires hops { self.old.hops < 2 * self.old.layout.nodes }
        ensures { AdvancesTo (saw_next self.old version low next) self.new result }
    {
        if next == 0 {
            self.is_at_target(version, low, None)
        } else if next < self.layout.nodes() {
            self.loads_at(WalkAt::HighFirst { version, low, next })
        } else {
            self.hops_to(0)
        }
    }

    fn saw_high_first(
        &mut self,
        version: u64,
        low: [u64; WORDS],
        next: u64,
        first: u64,
    ) -> Option<Walked>
        ensures { AdvancesTo (loads_at self.old (WalkAt.HighSecond version low next first)) self.new result }
    {
        self.loads_at(WalkAt::HighSecond {
            version,
            low,
            next,
            first,
        })
    }

    fn saw_high_second(
        &mut self,
        version: u64,
        low: [u64; WORDS],
        next: u64,
        first: u64,
        second: u64,
    ) -> Option<Walked>
        ensures { AdvancesTo (loads_at self.old (WalkAt.HighThird version low next first second)) self.new result }
    {
        self.loads_at(WalkAt::HighThird {
            version,
            low,
            next,
            first,
            second,
        })
    }

    fn saw_high(
        &mut self,
        version: u64,
        low: [u64; WORDS],
        next: u64,
        high: [u64; WORDS],
    ) -> Option<Walked>
        requires layout { IsLayout self.old.layout }
        requires hops { self.old.hops < 2 * self.old.layout.nodes }
        ensures { AdvancesTo (saw_high self.old version low next high) self.new result }
    {
        if is_below(&self.key, &high) {
            let next = Next {
                node: next,
                anchor: high,
            };
            self.is_at_target(version, low, Some(next))
        } else {
            self.hops_to(next)
        }
    }
}
