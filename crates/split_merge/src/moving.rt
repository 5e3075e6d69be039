use crate::planning::Plan;
use pm_words::codes::status::LIVE;
use pm_words::offsets::{node, volatile};
use pm_words::{Action, Fence, KEY, LINE_WORDS, Machine, Turn};
use smo_log::{Open, Ready};
use version_lock::freed_of;

/// It moves the upper half of a full node's names into a fresh node, and gives both back.
#[derive(Clone, Copy)]
pub struct Move {
    pub plan: Plan,
    pub at: MoveAt,
}

/// What it does next.
#[derive(Clone, Copy)]
pub enum MoveAt {
    /// It stores a word of the fresh node's slots, counted from the first.
    Slot { word: u64 },
    /// A word of its fingerprints.
    Print { word: u64 },
    Bitmap,
    Anchor { word: u64 },
    Next,
    /// It makes the fresh node's line from this offset on durable.
    FenceFresh { first: u64, fence: Fence },
    Open { open: Open },
    Prev,
    Light,
    Switch,
    FenceSwitch { fence: Fence },
    /// It stores the prev of the node behind the fresh one.
    NextPrev,
    Trim,
    FenceTrim { fence: Fence },
    Ready { ready: Ready },
    UnlockFresh,
    Unlock,
}

impl Move {
    ghost use Rattle.std.specs.Prelude.{◌≡◌};
    ghost use Rattle.pm_words.specs.Turns.{GoesBelow};
    ghost use Rattle.split_merge.specs.Moves.{IsMove, move_asks, move_left, move_takes, move_turned, moves_to};

    /// The action that it asks for next.
    pub(crate) fn action(&self) -> Action
        requires { IsMove self.now }
        ensures { result ≡ move_asks self.now }
    {
        let plan = &self.plan;
        match self.at {
            MoveAt::Slot { word } => plan.fill(node::SLOTS + word),
            MoveAt::Print { word } => plan.fill(node::PRINTS + word),
            MoveAt::Bitmap => plan.fill(node::BITMAP),
            MoveAt::Anchor { word } => plan.fill(node::ANCHOR + word),
            MoveAt::Next => plan.fill(node::NEXT),
            MoveAt::FenceFresh { first, fence } => {
                fence.action(plan.address(plan.share.fresh, first + fence.word))
            }
            MoveAt::Open { open } => open.action(),
            MoveAt::Prev => Action::Store(
                plan.layout.node_volatile(plan.share.fresh, volatile::PREV),
                plan.node,
            ),
            MoveAt::Light => {
                Action::Store(
                    plan.layout
                        .node_volatile(plan.share.fresh, volatile::STATUS),
                    LIVE,
                )
            }
            MoveAt::Switch => Action::Store(plan.address(plan.node, node::NEXT), plan.share.fresh),
            MoveAt::FenceSwitch { fence } | MoveAt::FenceTrim { fence } => {
                fence.action(plan.address(plan.node, fence.word))
            }
            MoveAt::NextPrev => Action::Store(
                plan.layout.node_volatile(plan.next(), volatile::PREV),
                plan.share.fresh,
            ),
            MoveAt::Trim => Action::Store(plan.address(plan.node, node::BITMAP), plan.keep),
            MoveAt::Ready { ready } => ready.action(),
            MoveAt::UnlockFresh => plan.unlock(plan.share.fresh, plan.share.locked),
            MoveAt::Unlock => plan.unlock(plan.node, plan.locked),
        }
    }

    /// What it does next, once it is told the number that its action gave; `None` where it is done.
    pub(crate) fn next(&self, got: u64) -> Option<MoveAt>
        requires { move_takes self.now got }
        ensures turned { move_turned self.now got ≡ moves_to self.now result }
        ensures fewer { GoesBelow move_left (move_left self.now) (move_turned self.now got) }
    {
        match self.at {
            MoveAt::Slot { word } => Some(self.plan.after_slot(word)),
            MoveAt::Print { word } => Some(self.plan.after_print(word)),
            MoveAt::Bitmap => Some(MoveAt::Anchor { word: 0 }),
            MoveAt::Anchor { word } => Some(if word + 1 < KEY as u64 {
                MoveAt::Anchor { word: word + 1 }
            } else {
                MoveAt::Next
            }),
            MoveAt::Next => Some(MoveAt::FenceFresh {
                first: 0,
                fence: Fence::new(),
            }),
            MoveAt::FenceFresh { first, fence } => {
                Some(self.plan.after_fence(first, fence.next(got)))
            }
            MoveAt::Open { open } => match open.resume(got) {
                Turn::Go(open) => Some(MoveAt::Open { open }),
                Turn::Done(()) => Some(MoveAt::Prev),
            },
            MoveAt::Prev => Some(MoveAt::Light),
            MoveAt::Light => Some(MoveAt::Switch),
            MoveAt::Switch => Some(MoveAt::FenceSwitch {
                fence: Fence::new(),
            }),
            MoveAt::FenceSwitch { fence } => Some(self.plan.after_switch(fence.next(got))),
            MoveAt::NextPrev => Some(MoveAt::Trim),
            MoveAt::Trim => Some(MoveAt::FenceTrim {
                fence: Fence::new(),
            }),
            MoveAt::FenceTrim { fence } => Some(self.plan.after_trim(fence.next(got))),
            MoveAt::Ready { ready } => match ready.resume(got) {
                Turn::Go(ready) => Some(MoveAt::Ready { ready }),
                Turn::Done(()) => Some(MoveAt::UnlockFresh),
            },
            MoveAt::UnlockFresh => Some(MoveAt::Unlock),
            MoveAt::Unlock => None,
        }
    }
}

impl Plan {
    ghost use Rattle.std.specs.Prelude.{◌≡◌, ◌+◌, ◌*◌, ◌/◌, ◌<◌, Option};
    ghost use Rattle.pm_words.specs.Locations.{node_words};
    ghost use Rattle.version_lock.specs.Versions.{IsLockWord};
    ghost use Rattle.call_stages.specs.Kinds.{word_address};
    ghost use Rattle.split_merge.specs.Plans.{IsPlan};
    ghost use Rattle.split_merge.specs.Moves.{filled_end, fills, unlocks, after_slot, after_print, after_fence};
    ghost use Rattle.split_merge.specs.Moves.{after_switch, after_trim};

    /// The address of a node's word.
    fn address(&self, node: u64, offset: u64) -> u64
        requires plan { IsPlan self.now }
        requires node { node < self.now.layout.nodes }
        requires offset { offset < node_words self.now.layout }
        ensures { result ≡ word_address self.now.layout node offset }
    {
        self.layout.cached(self.layout.node_word(node, offset))
    }

    /// The store of the fresh node's word with this offset.
    fn fill(&self, offset: u64) -> Action
        requires plan { IsPlan self.now }
        requires offset { offset < filled_end self.now }
        ensures { result ≡ fills self.now offset }
    {
        Action::Store(self.address(self.share.fresh, offset), self.word(offset))
    }

    /// The store that gives back this node, which is locked by this word.
    fn unlock(&self, node: u64, word: u64) -> Action
        requires plan { IsPlan self.now }
        requires node { node < self.now.layout.nodes }
        requires word { IsLockWord word }
        ensures { result ≡ unlocks self.now node word }
    {
        Action::Store(self.address(node, node::VERSION), freed_of(word))
    }

    /// After this word of the slots.
    fn after_slot(&self, word: u64) -> MoveAt
        requires plan { IsPlan self.now }
        requires word { word < 272 }
        ensures { result ≡ after_slot self.now word }
    {
        if word + 1 < 4 * (self.layout.slots() / 2) {
            MoveAt::Slot { word: word + 1 }
        } else {
            MoveAt::Print { word: 0 }
        }
    }

    /// After this word of the fingerprints.
    fn after_print(&self, word: u64) -> MoveAt
        requires plan { IsPlan self.now }
        requires word { word < 272 }
        ensures { result ≡ after_print self.now word }
    {
        if word + 1 < (self.layout.slots() / 2 - 1) / 8 + 1 {
            MoveAt::Print { word: word + 1 }
        } else {
            MoveAt::Bitmap
        }
    }

    /// After a turn of a fence of the line from `first` on.
    fn after_fence(&self, first: u64, fence: Option<Fence>) -> MoveAt
        requires plan { IsPlan self.now }
        requires first { first < 272 }
        ensures { result ≡ after_fence self.now first fence }
    {
        match fence {
            Some(fence) => MoveAt::FenceFresh { first, fence },
            None => {
                if first + LINE_WORDS < node::SLOTS + 4 * (self.layout.slots() / 2) {
                    MoveAt::FenceFresh {
                        first: first + LINE_WORDS,
                        fence: Fence::new(),
                    }
                } else {
                    MoveAt::Open {
                        open: Open::new(self.layout, self.share.line, self.entry()),
                    }
                }
            }
        }
    }

    /// After a turn of the fence behind the switch.
    fn after_switch(&self, fence: Option<Fence>) -> MoveAt
        requires { IsPlan self.now }
        ensures { result ≡ after_switch self.now fence }
    {
        match fence {
            Some(fence) => MoveAt::FenceSwitch { fence },
            None => {
                if self.next() == 0 {
                    MoveAt::Trim
                } else {
                    MoveAt::NextPrev
                }
            }
        }
    }

    /// After a turn of the fence behind the store of the full node's bitmap.
    fn after_trim(&self, fence: Option<Fence>) -> MoveAt
        requires { IsPlan self.now }
        ensures { result ≡ after_trim self.now fence }
    {
        match fence {
            Some(fence) => MoveAt::FenceTrim { fence },
            None => MoveAt::Ready {
                ready: Ready::new(self.layout, self.share.line),
            },
        }
    }
}
