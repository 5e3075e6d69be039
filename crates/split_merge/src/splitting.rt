//! The split of a full node, from the lock of that node to the end.

ghost use Rattle.std.specs.Prelude.{◌≡◌};
ghost use Rattle.pm_words.specs.Layouts.{IsLayout};
ghost use Rattle.split_merge.specs.Splits.{plan_of, split_from};

use crate::moving::{Move, MoveAt};
use crate::planning::{NODE_WORDS, Plan, anchor_in, order_in, upper_in};
use call_stages::View;
use data_node::halves;
use pm_alloc::{Claim, Claimed};
use pm_words::offsets::node;
use pm_words::{Action, Again, LINE_WORDS, Machine, Turn};
use smo_log::{Take, Taken};
use version_lock::freed_of;

/// How a split ended.
#[derive(Clone, Copy, PartialEq, Eq, Debug)]
pub enum SplitDone {
    /// The upper half of the names is in this node, and both nodes are given back.
    Done { fresh: u64 },
    /// Nothing is changed but that the node is given back.
    Again(Again),
}

/// It splits a full node, whose lock its party has: it takes a log line and a free node, reads the full node's words,
/// and moves the upper half of its names.
#[derive(Clone, Copy)]
pub struct Split {
    pub view: View,
    pub node: u64,
    /// The node's version word, which is locked.
    pub word: u64,
    pub at: SplitAt,
}

/// The line and the fresh node, with its locked version word, that a split has.
#[derive(Clone, Copy)]
pub struct Share {
    pub line: u64,
    pub fresh: u64,
    pub locked: u64,
}

/// What it does next.
#[derive(Clone, Copy)]
pub enum SplitAt {
    /// It loads where the node leads.
    Next,
    Take {
        next: u64,
        take: Take,
    },
    Claim {
        next: u64,
        line: u64,
        claim: Claim,
    },
    /// It loads the words of the full node from the first fingerprints on: it has so many of them.
    Read {
        share: Share,
        full: [u64; NODE_WORDS],
        count: u64,
    },
    Move {
        moving: Move,
    },
    /// It gives the node back.
    Refuse {
        next: u64,
        why: Again,
    },
}

impl Machine for Split {
    ghost use Rattle.split_merge.specs.Splits.{IsSplit, split_asks, split_turned, split_takes, split_left};

    type Answer = SplitDone;

    ghost fits = { IsSplit };

    ghost asks = { split_asks };

    ghost turned = { split_turned };

    ghost takes = { split_takes };

    ghost left = { split_left };

    fn action(&self) -> Action {
        match &self.at {
            SplitAt::Next => Action::Load(self.address(node::NEXT)),
            SplitAt::Take { take, .. } => take.action(),
            SplitAt::Claim { claim, .. } => claim.action(),
            SplitAt::Read { count, .. } => Action::Load(self.address(node::PRINTS + *count)),
            SplitAt::Move { moving } => moving.action(),
            SplitAt::Refuse { .. } => {
                Action::Store(self.address(node::VERSION), freed_of(self.word))
            }
        }
    }

    fn resume(self, got: u64) -> Turn<Split, SplitDone> {
        let mut next = self;
        match next.advance(got) {
            None => Turn::Go(next),
            Some(done) => Turn::Done(done),
        }
    }
}

impl Split {
    ghost use Rattle.std.specs.Prelude.{◌≡◌, ◌<◌, ℕ, List};
    ghost use Rattle.pm_words.specs.Turns.{GoesBelow};
    ghost use Rattle.pm_words.specs.Locations.{node_words};
    ghost use Rattle.pm_words.specs.Layouts.{IsLayout};
    ghost use Rattle.call_stages.specs.Kinds.{word_address};
    ghost use Rattle.call_stages.specs.Views.{IsView};
    ghost use Rattle.version_lock.specs.Versions.{IsLockWord};
    ghost use Rattle.pm_words.specs.Turns.{AdvancesTo};
    ghost use Rattle.split_merge.specs.Splits.{IsSplit, split_from, split_left, split_takes, split_turned};
    ghost use Rattle.split_merge.specs.Splits.{taken, claimed, has_read};
    ghost use Rattle.pm_words.specs.declared.machine.Turn.TheVariants as Turn;

    /// A split of this node, which is full, and which its party has locked with this word.
    pub fn new(view: View, node: u64, word: u64) -> Split
        requires view { IsView view }
        requires node { node < view.layout.nodes }
        requires word { IsLockWord word }
        ensures new { result ≡ split_from view node word }
        ensures sound { IsSplit result }
    {
        Split {
            view,
            node,
            word,
            at: SplitAt::Next,
        }
    }

    /// The address of the full node's word.
    fn address(&self, offset: u64) -> u64
        requires layout { IsLayout self.now.view.layout }
        requires node { self.now.node < self.now.view.layout.nodes }
        requires offset { offset < node_words self.now.view.layout }
        ensures { result ≡ word_address self.now.view.layout self.now.node offset }
    {
        let layout = self.view.layout;
        layout.cached(layout.node_word(self.node, offset))
    }

    /// Tells it in place the number that its action gave. It goes on, or is done where there is an answer. While it
    /// stays in a state it changes that in place, since a new state clears the room of a full node behind it.
    pub fn advance(&mut self, got: u64) -> Option<SplitDone>
        requires { split_takes self.old got }
        ensures turned { AdvancesTo (split_turned self.old got) self.new result }
        ensures fewer { GoesBelow split_left (split_left self.old) (split_turned self.old got) }
    {
        match &mut self.at {
            SplitAt::Next => {
                let take = Take::new(self.view.layout, self.view.caller);
                self.at = SplitAt::Take { next: got, take };
            }
            SplitAt::Take { next, take } => match take.resume(got) {
                Turn::Go(further) => *take = further,
                Turn::Done(answer) => {
                    let next = *next;
                    self.taken(next, answer);
                }
            },
            SplitAt::Claim { next, line, claim } => match claim.resume(got) {
                Turn::Go(further) => *claim = further,
                Turn::Done(answer) => {
                    let (next, line) = (*next, *line);
                    self.claimed(next, line, answer);
                }
            },
            SplitAt::Read { .. } => return self.has_read(got),
            SplitAt::Move { moving } => match moving.next(got) {
                Some(at) => moving.at = at,
                None => {
                    return Some(SplitDone::Done {
                        fresh: moving.plan.share.fresh,
                    });
                }
            },
            SplitAt::Refuse { why, .. } => return Some(SplitDone::Again(*why)),
        }
        None
    }

    /// Where it reads, it has this word more of the full node, and after the last it knows what to do.
    fn has_read(&mut self, got: u64) -> Option<SplitDone>
        requires { split_takes self.old got }
        ensures { (share : Share) (full : List ℕ) (count : ℕ) → self.old.at ≡ SplitAt.Read share full count
            → AdvancesTo (has_read self.old share full count got) self.new result }
    {
        let SplitAt::Read { share, count, .. } = self.at else {
            return None;
        };
        let SplitAt::Read { full, .. } = &mut self.at else {
            return None;
        };
        full[(node::PRINTS + count) as usize] = got;
        if count + 1 < LINE_WORDS + 4 * self.view.layout.slots() {
            if let SplitAt::Read { count, .. } = &mut self.at {
                *count += 1;
            }
            return None;
        }
        let plan = plan(&self.view, self.node, self.word, share, full);
        self.at = SplitAt::Move {
            moving: Move {
                plan,
                at: MoveAt::Slot { word: 0 },
            },
        };
        None
    }

    /// The look for a line has ended so.
    fn taken(&mut self, next: u64, answer: Taken)
        requires { IsView self.old.view }
        ensures { taken self.old next (Turn.Done answer) ≡ Turn.Go self.new }
    {
        self.at = match answer {
            Taken::Line { line } => SplitAt::Claim {
                next,
                line,
                claim: Claim::new(self.view.layout, self.view.generation),
            },
            Taken::Full => SplitAt::Refuse {
                next,
                why: Again::LogFull,
            },
        };
    }

    /// The claim has ended so.
    fn claimed(&mut self, next: u64, line: u64, answer: Claimed)
        ensures { claimed self.old next line (Turn.Done answer) ≡ Turn.Go self.new }
    {
        self.at = match answer {
            Claimed::Node { node, word } => {
                // Of the full node's words it has only where the node leads.
                let mut full = [0; NODE_WORDS];
                full[node::NEXT as usize] = next;
                SplitAt::Read {
                    share: Share {
                        line,
                        fresh: node,
                        locked: word,
                    },
                    full,
                    count: 0,
                }
            }
            Claimed::NoFree => SplitAt::Refuse {
                next,
                why: Again::NoFree,
            },
            Claimed::Again(why) => SplitAt::Refuse { next, why },
        };
    }
}

/// What the split of this node is to do, locked with this word, where these are its words.
fn plan(view: &View, node: u64, word: u64, share: Share, full: &[u64; NODE_WORDS]) -> Plan
    requires { IsLayout view.now.layout }
    ensures { result ≡ plan_of (split_from view.now node word) share full.now }
{
    let layout = view.layout;
    let slots = layout.slots();
    let order = order_in(full, slots);
    let halves = halves(&order, slots);
    Plan {
        layout,
        node,
        locked: word,
        share,
        full: *full,
        moved: upper_in(&order, (slots / 2) as usize),
        anchor: anchor_in(full, halves.first),
        keep: halves.keep,
    }
}
