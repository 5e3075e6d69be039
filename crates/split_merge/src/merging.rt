//! The merge of a node's right neighbour into it, from the lock of that node to the end.

ghost use Rattle.std.specs.Prelude.{◌≡◌};
ghost use Rattle.split_merge.specs.Merges.{after_next, finds};

use crate::joining::{Join, JoinAt};
use crate::pairing::pairs_of;
use crate::uniting::{HEAD, OWN_PRINTS, Union};
use call_stages::View;
use data_node::live_count;
use pm_words::offsets::node;
use pm_words::{Action, Machine, Turn};
use smo_log::Open;
use version_lock::{freed_of, is_free, locked_of};

/// How a merge ended: whether the right neighbour was merged into the node. Both nodes are given back.
#[derive(Clone, Copy, PartialEq, Eq, Debug)]
pub struct Merged {
    pub merged: bool,
}

/// It merges the right neighbour of a node, whose lock its party has, into that node, with a log line that its party
/// took. Where the neighbour is locked or worn, or both hold too many names, it merges nothing, and waits for nobody.
#[derive(Clone, Copy)]
pub struct Merge {
    pub view: View,
    pub node: u64,
    /// The node's version word, which is locked.
    pub word: u64,
    pub line: u64,
    pub at: MergeAt,
}

/// What a merge has loaded of its node: the bitmap, and where it leads.
#[derive(Clone, Copy)]
pub struct Near {
    pub own: u64,
    pub right: u64,
}

/// What it does next.
#[derive(Clone, Copy)]
pub enum MergeAt {
    Bitmap,
    /// It loads where the node leads.
    Next {
        own: u64,
    },
    /// It loads the neighbour's version word.
    Version {
        near: Near,
    },
    /// It puts the locked word in place of the version word, which was free.
    Lock {
        near: Near,
        version: u64,
        locked: u64,
    },
    /// It loads the words of the neighbour before its slots, from the bitmap on: it has those before offset `count`.
    Head {
        near: Near,
        locked: u64,
        head: [u64; HEAD],
        count: u64,
    },
    /// It loads the first words of its node's fingerprints: it has so many.
    Prints {
        near: Near,
        locked: u64,
        head: [u64; HEAD],
        prints: [u64; OWN_PRINTS],
        count: u64,
    },
    Join {
        join: Join,
    },
    /// It gives the neighbour back.
    Part {
        near: Near,
        locked: u64,
        bitmap: u64,
    },
    /// It gives the node back.
    Leave {
        near: Near,
    },
}

impl Machine for Merge {
    ghost use Rattle.split_merge.specs.Merges.{IsMerge, merge_asks, merge_turned, merge_takes, merge_left};

    type Answer = Merged;

    ghost fits = { IsMerge };

    ghost asks = { merge_asks };

    ghost turned = { merge_turned };

    ghost takes = { merge_takes };

    ghost left = { merge_left };

    fn action(&self) -> Action {
        match &self.at {
            MergeAt::Bitmap => Action::Load(self.address(self.node, node::BITMAP)),
            MergeAt::Next { .. } => Action::Load(self.address(self.node, node::NEXT)),
            MergeAt::Version { near } => Action::Load(self.address(near.right, node::VERSION)),
            MergeAt::Lock {
                near,
                version,
                locked,
            } => { Action::Exchange(self.address(near.right, node::VERSION), *version, *locked) }
            MergeAt::Head { near, count, .. } => Action::Load(self.address(near.right, *count)),
            MergeAt::Prints { count, .. } => {
                Action::Load(self.address(self.node, node::PRINTS + *count))
            }
            MergeAt::Join { join } => join.action(),
            MergeAt::Part { near, locked, .. } => {
                Action::Store(self.address(near.right, node::VERSION), freed_of(*locked))
            }
            MergeAt::Leave { .. } => {
                Action::Store(self.address(self.node, node::VERSION), freed_of(self.word))
            }
        }
    }

    fn resume(self, got: u64) -> Turn<Merge, Merged> {
        match self.at {
            MergeAt::Bitmap => self.goes_to(MergeAt::Next { own: got }),
            MergeAt::Next { own } => self.goes_to(after_next(Near { own, right: got })),
            MergeAt::Version { near } => self.goes_to(self.saw_version(near, got)),
            MergeAt::Lock {
                near,
                version,
                locked,
            } => { self.goes_to(found(near, version, locked, got)) }
            MergeAt::Head {
                near,
                locked,
                head,
                count,
            } => { self.goes_to(self.has_head(near, locked, head, count, got)) }
            MergeAt::Prints {
                near,
                locked,
                head,
                prints,
                count,
            } => { self.goes_to(self.has_prints(near, locked, head, prints, count, got)) }
            MergeAt::Join { join } => self.joined(join.resume(got)),
            MergeAt::Part { near, .. } => self.goes_to(MergeAt::Leave { near }),
            MergeAt::Leave { .. } => Turn::Done(Merged { merged: false }),
        }
    }
}

/// It knows where the node leads: 0 is nowhere.
fn after_next(near: Near) -> MergeAt
    ensures { result ≡ after_next near }
{
    if near.right == 0 {
        MergeAt::Leave { near }
    } else {
        MergeAt::Version { near }
    }
}

/// It found this word in place of the neighbour's version word.
fn found(near: Near, version: u64, locked: u64, word: u64) -> MergeAt
    ensures { result ≡ finds near version locked word }
{
    if word == version {
        MergeAt::Head {
            near,
            locked,
            head: [0; HEAD],
            count: node::BITMAP,
        }
    } else {
        MergeAt::Leave { near }
    }
}

impl Merge {
    ghost use Rattle.std.specs.Prelude.{◌≡◌, ◌+◌, ◌*◌, ◌/◌, ◌<◌, ◌≤◌, ◌^◌};
    ghost use Rattle.pm_words.specs.declared.machine.Turn.{Turn};
    ghost use Rattle.pm_words.specs.Locations.{node_words};
    ghost use Rattle.pm_words.specs.Layouts.{IsLayout};
    ghost use Rattle.call_stages.specs.Kinds.{word_address};
    ghost use Rattle.call_stages.specs.Views.{IsView};
    ghost use Rattle.version_lock.specs.Versions.{IsLockWord, generation_of};
    ghost use Rattle.version_lock.specs.declared.TheConstants.{GENERATION_LIMIT};
    ghost use Rattle.split_merge.specs.Splits.{IsOwnLine};
    ghost use Rattle.split_merge.specs.Merges.{IsMerge, AreHeld, merge_from, merges_on, saw_version, has_head};
    ghost use Rattle.split_merge.specs.Merges.{has_prints, union_of, joined};

    /// A merge of this node's right neighbour into it. Its party has locked the node with this word, and has taken this
    /// line.
    pub fn new(view: View, node: u64, word: u64, line: u64) -> Merge
        requires view { IsView view }
        requires node { node < view.layout.nodes }
        requires word { IsLockWord word }
        requires line { IsOwnLine view line }
        ensures new { result ≡ merge_from view node word line }
        ensures sound { IsMerge result }
    {
        Merge {
            view,
            node,
            word,
            line,
            at: MergeAt::Bitmap,
        }
    }

    /// The address of a node's word.
    fn address(&self, node: u64, offset: u64) -> u64
        requires layout { IsLayout self.now.view.layout }
        requires node { node < self.now.view.layout.nodes }
        requires offset { offset < node_words self.now.view.layout }
        ensures { result ≡ word_address self.now.view.layout node offset }
    {
        let layout = self.view.layout;
        layout.cached(layout.node_word(node, offset))
    }

    /// It goes on there.
    fn goes_to(self, at: MergeAt) -> Turn<Merge, Merged>
        ensures { result ≡ merges_on self at }
    {
        Turn::Go(Merge { at, ..self })
    }

    /// It saw this version word of the neighbour.
    fn saw_version(&self, near: Near, version: u64) -> MergeAt
        requires generation { self.now.view.generation < GENERATION_LIMIT }
        requires known { generation_of version ≤ self.now.view.generation }
        ensures { result ≡ saw_version self.now near version }
    {
        let generation = self.view.generation;
        if !is_free(version, generation) {
            return MergeAt::Leave { near };
        }
        match locked_of(version, generation) {
            Some(locked) => MergeAt::Lock {
                near,
                version,
                locked,
            },
            None => MergeAt::Leave { near },
        }
    }

    /// It has one word more of the neighbour. After the bitmap it knows whether both have too many names.
    fn has_head(&self, near: Near, locked: u64, head: [u64; HEAD], count: u64, got: u64) -> MergeAt
        requires layout { IsLayout self.now.view.layout }
        requires count { count < 16 }
        ensures { result ≡ has_head self.now near locked head count got }
    {
        let layout = self.view.layout;
        let slots = layout.slots();
        if count == node::BITMAP
            && live_count(near.own, slots) + live_count(got, slots) > slots / 2
        {
            return MergeAt::Part {
                near,
                locked,
                bitmap: got,
            };
        }
        let mut head = head;
        head[count as usize] = got;
        if count + 1 < node::SLOTS {
            return MergeAt::Head {
                near,
                locked,
                head,
                count: count + 1,
            };
        }
        MergeAt::Prints {
            near,
            locked,
            head,
            prints: [0; OWN_PRINTS],
            count: 0,
        }
    }

    /// It has one word more of its node's fingerprints, and after the last it knows what to do.
    fn has_prints(
        &self,
        near: Near,
        locked: u64,
        head: [u64; HEAD],
        prints: [u64; OWN_PRINTS],
        count: u64,
        got: u64,
    ) -> MergeAt
        requires held { AreHeld self.now near locked head prints count }
        requires got { got < 2 ^ 64 }
        ensures { result ≡ has_prints self.now near locked head prints count got }
    {
        let mut prints = prints;
        prints[count as usize] = got;
        let count = count + 1;
        if count < (self.view.layout.slots() / 2 - 1) / 8 + 1 {
            return MergeAt::Prints {
                near,
                locked,
                head,
                prints,
                count,
            };
        }
        let union = self.union(near, locked, head, prints);
        MergeAt::Join {
            join: Join {
                union,
                at: JoinAt::Open {
                    open: Open::new(union.layout, union.line, union.entry()),
                },
            },
        }
    }

    /// What it is to do, where these are the words of both nodes.
    fn union(&self, near: Near, locked: u64, head: [u64; HEAD], prints: [u64; OWN_PRINTS]) -> Union
        requires layout { IsLayout self.now.view.layout }
        ensures { result ≡ union_of self.now near locked head prints }
    {
        Union {
            layout: self.view.layout,
            node: self.node,
            locked: self.word,
            right: near.right,
            right_locked: locked,
            line: self.line,
            own: near.own,
            prints,
            head,
            pairs: pairs_of(
                near.own,
                head[node::BITMAP as usize],
                self.view.layout.slots(),
            ),
        }
    }

    /// After a turn of the merge of both nodes.
    fn joined(self, turn: Turn<Join, ()>) -> Turn<Merge, Merged>
        ensures { result ≡ joined self turn }
    {
        match turn {
            Turn::Go(join) => self.goes_to(MergeAt::Join { join }),
            Turn::Done(()) => Turn::Done(Merged { merged: true }),
        }
    }
}
