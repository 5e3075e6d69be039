ghost use Rattle.std.specs.Prelude.{◌≡◌, ◌<◌};
ghost use Rattle.split_merge.specs.Joins.{after_copy, after_bitmap, after_join};

use crate::uniting::Union;
use data_node::without_live;
use pm_alloc::retire_node;
use pm_words::offsets::{node, volatile};
use pm_words::{Action, Fence, LINE_WORDS, Machine, SLOT_WORDS, Turn};
use smo_log::{Open, Ready};
use version_lock::freed_of;

/// It merges the right node into the left one, and gives both back.
#[derive(Clone, Copy)]
pub struct Join {
    pub union: Union,
    pub at: JoinAt,
}

/// What it does next.
#[derive(Clone, Copy)]
pub enum JoinAt {
    Open { open: Open },
    /// It loads a word of the right node's slot whose name goes into the lowest of these slots of the left one, which
    /// are left as bits.
    Load { left: u64, word: u64 },
    /// And stores that word in the slot of the left one.
    Copy { left: u64, word: u64, value: u64 },
    /// It stores a word of the left node's fingerprints.
    Print { word: u64 },
    /// It makes the left node's line from this offset on durable.
    FenceCopies { first: u64, fence: Fence },
    Bitmap,
    FenceBitmap { fence: Fence },
    Switch,
    FenceSwitch { fence: Fence },
    Retire,
    Prev,
    /// It stores the prev of the node behind the right one.
    NextPrev,
    Ready { ready: Ready },
    UnlockRight,
    Unlock,
}

impl Machine for Join {
    ghost use Rattle.split_merge.specs.Joins.{IsJoin, join_asks, join_turned, join_takes, join_left};

    type Answer = ();

    ghost fits = { IsJoin };

    ghost asks = { join_asks };

    ghost turned = { join_turned };

    ghost takes = { join_takes };

    ghost left = { join_left };

    fn action(&self) -> Action {
        let union = &self.union;
        match self.at {
            JoinAt::Open { open } => open.action(),
            JoinAt::Load { left, word } => union.load(left, word),
            JoinAt::Copy { left, word, value } => union.copy(left, word, value),
            JoinAt::Print { word } => Action::Store(
                union.address(union.node, node::PRINTS + word),
                union.prints(word),
            ),
            JoinAt::FenceCopies { first, fence } => {
                fence.action(union.address(union.node, first + fence.word))
            }
            JoinAt::Bitmap => {
                Action::Store(union.address(union.node, node::BITMAP), union.pairs.grown)
            }
            JoinAt::FenceBitmap { fence } | JoinAt::FenceSwitch { fence } => {
                fence.action(union.address(union.node, fence.word))
            }
            JoinAt::Switch => {
                Action::Store(union.address(union.node, node::NEXT), union.behind())
            }
            JoinAt::Retire => retire_node(&union.layout, union.right),
            JoinAt::Prev => union.prev(union.right),
            JoinAt::NextPrev => union.prev(union.behind()),
            JoinAt::Ready { ready } => ready.action(),
            JoinAt::UnlockRight => union.unlock(union.right, union.right_locked),
            JoinAt::Unlock => union.unlock(union.node, union.locked),
        }
    }

    fn resume(self, got: u64) -> Turn<Join, ()> {
        match self.at {
            JoinAt::Open { open } => match open.resume(got) {
                Turn::Go(open) => self.goes_to(JoinAt::Open { open }),
                Turn::Done(()) => self.goes_to(self.union.after_open()),
            },
            JoinAt::Load { left, word } => self.goes_to(JoinAt::Copy {
                left,
                word,
                value: got,
            }),
            JoinAt::Copy { left, word, .. } => self.goes_to(after_copy(left, word)),
            JoinAt::Print { word } => self.goes_to(self.union.after_print(word)),
            JoinAt::FenceCopies { first, fence } => {
                self.goes_to(self.union.after_copies(first, fence.next(got)))
            }
            JoinAt::Bitmap => self.goes_to(JoinAt::FenceBitmap {
                fence: Fence::new(),
            }),
            JoinAt::FenceBitmap { fence } => self.goes_to(after_bitmap(fence.next(got))),
            JoinAt::Switch => self.goes_to(JoinAt::FenceSwitch {
                fence: Fence::new(),
            }),
            JoinAt::FenceSwitch { fence } => self.goes_to(after_switch(fence.next(got))),
            JoinAt::Retire => self.goes_to(JoinAt::Prev),
            JoinAt::Prev => self.goes_to(self.union.after_prev()),
            JoinAt::NextPrev => self.goes_to(self.union.makes_ready()),
            JoinAt::Ready { ready } => match ready.resume(got) {
                Turn::Go(ready) => self.goes_to(JoinAt::Ready { ready }),
                Turn::Done(()) => self.goes_to(JoinAt::UnlockRight),
            },
            JoinAt::UnlockRight => self.goes_to(JoinAt::Unlock),
            JoinAt::Unlock => Turn::Done(()),
        }
    }
}

impl Join {
    ghost use Rattle.split_merge.specs.Joins.{joins_on};

    /// It goes on there.
    fn goes_to(self, at: JoinAt) -> Turn<Join, ()>
        ensures { result ≡ joins_on self at }
    {
        Turn::Go(Join { at, ..self })
    }
}

/// After this word of the lowest of the slots that are left.
fn after_copy(left: u64, word: u64) -> JoinAt
    requires left { 0 < left }
    requires word { word < 4 }
    ensures { result ≡ after_copy left word }
{
    if word + 1 < SLOT_WORDS {
        return JoinAt::Load {
            left,
            word: word + 1,
        };
    }
    let left = without_live(left, u64::from(left.trailing_zeros()));
    if left == 0 {
        JoinAt::Print { word: 0 }
    } else {
        JoinAt::Load { left, word: 0 }
    }
}

/// After a turn of the fence behind the store of the left node's bitmap.
fn after_bitmap(fence: Option<Fence>) -> JoinAt
    ensures { result ≡ after_bitmap fence }
{
    match fence {
        Some(fence) => JoinAt::FenceBitmap { fence },
        None => JoinAt::Switch,
    }
}

/// After a turn of the fence behind the switch.
fn after_switch(fence: Option<Fence>) -> JoinAt
    ensures { result ≡ after_join fence }
{
    match fence {
        Some(fence) => JoinAt::FenceSwitch { fence },
        None => JoinAt::Retire,
    }
}

impl Union {
    ghost use Rattle.std.specs.Prelude.{◌≡◌, ◌+◌, ◌*◌, ◌/◌, ◌<◌, Option};
    ghost use Rattle.pm_words.specs.Locations.{node_words};
    ghost use Rattle.call_stages.specs.Kinds.{word_address};
    ghost use Rattle.version_lock.specs.Versions.{IsLockWord};
    ghost use Rattle.split_merge.specs.Unions.{IsUnion};
    ghost use Rattle.split_merge.specs.Joins.{IsLeft, loads_from, copies_to, stores_prev, unlocks_node};
    ghost use Rattle.split_merge.specs.Joins.{after_open, after_print, after_copies, after_prev, makes_ready};

    /// The address of a node's word.
    fn address(&self, node: u64, offset: u64) -> u64
        requires sound { IsUnion self.now }
        requires node { node < self.now.layout.nodes }
        requires offset { offset < node_words self.now.layout }
        ensures { result ≡ word_address self.now.layout node offset }
    {
        self.layout.cached(self.layout.node_word(node, offset))
    }

    /// The load of a word of the right node's slot whose name goes into the lowest of these slots.
    fn load(&self, left: u64, word: u64) -> Action
        requires sound { IsUnion self.now }
        requires left { IsLeft self.now left }
        requires word { word < 4 }
        ensures { result ≡ loads_from self.now left word }
    {
        let from = u64::from(self.pairs.from[left.trailing_zeros() as usize]);
        Action::Load(self.address(self.right, node::SLOTS + SLOT_WORDS * from + word))
    }

    /// The store of that word in the lowest of these slots of the left node.
    fn copy(&self, left: u64, word: u64, value: u64) -> Action
        requires sound { IsUnion self.now }
        requires left { IsLeft self.now left }
        requires word { word < 4 }
        ensures { result ≡ copies_to self.now left word value }
    {
        let slot = u64::from(left.trailing_zeros());
        Action::Store(
            self.address(self.node, node::SLOTS + SLOT_WORDS * slot + word),
            value,
        )
    }

    /// The store of the left node as the prev of this one.
    fn prev(&self, node: u64) -> Action
        requires sound { IsUnion self.now }
        requires node { node < self.now.layout.nodes }
        ensures { result ≡ stores_prev self.now node }
    {
        Action::Store(self.layout.node_volatile(node, volatile::PREV), self.node)
    }

    /// The store that gives back this node, which is locked by this word.
    fn unlock(&self, node: u64, word: u64) -> Action
        requires sound { IsUnion self.now }
        requires node { node < self.now.layout.nodes }
        requires word { IsLockWord word }
        ensures { result ≡ unlocks_node self.now node word }
    {
        Action::Store(self.address(node, node::VERSION), freed_of(word))
    }

    /// Once the line is open: where no name is copied, the left node's words stay as they are.
    fn after_open(&self) -> JoinAt
        ensures { result ≡ after_open self.now }
    {
        if self.pairs.targets == 0 {
            JoinAt::Bitmap
        } else {
            JoinAt::Load {
                left: self.pairs.targets,
                word: 0,
            }
        }
    }

    /// After this word of the fingerprints.
    fn after_print(&self, word: u64) -> JoinAt
        requires sound { IsUnion self.now }
        requires word { word < 4 }
        ensures { result ≡ after_print self.now word }
    {
        if word + 1 < (self.layout.slots() / 2 - 1) / 8 + 1 {
            JoinAt::Print { word: word + 1 }
        } else {
            JoinAt::FenceCopies {
                first: node::PRINTS,
                fence: Fence::new(),
            }
        }
    }

    /// After a turn of a fence of the line from `first` on.
    fn after_copies(&self, first: u64, fence: Option<Fence>) -> JoinAt
        requires sound { IsUnion self.now }
        requires first { first < 272 }
        ensures { result ≡ after_copies self.now first fence }
    {
        match fence {
            Some(fence) => JoinAt::FenceCopies { first, fence },
            None => {
                if first + LINE_WORDS < node::SLOTS + SLOT_WORDS * (self.layout.slots() / 2) {
                    JoinAt::FenceCopies {
                        first: first + LINE_WORDS,
                        fence: Fence::new(),
                    }
                } else {
                    JoinAt::Bitmap
                }
            }
        }
    }

    /// Once the right node's prev is stored.
    fn after_prev(&self) -> JoinAt
        requires { IsUnion self.now }
        ensures { result ≡ after_prev self.now }
    {
        if self.behind() == 0 {
            self.makes_ready()
        } else {
            JoinAt::NextPrev
        }
    }

    /// It makes the line READY.
    fn makes_ready(&self) -> JoinAt
        requires { IsUnion self.now }
        ensures { result ≡ makes_ready self.now }
    {
        JoinAt::Ready {
            ready: Ready::new(self.layout, self.line),
        }
    }
}
