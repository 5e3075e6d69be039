//! A put while it works on one node: `Looking`, then
//!
//! - where a slot is clear: `Filling` and `Finishing`;
//! - where none is clear and one has the name: `Replacing`, the store of its value, and `Finishing`.
//!
//! These states are an enum of their own, apart from the words of a split, so that to change one writes few words.

ghost use Rattle.std.specs.Prelude.{◌≡◌};

use crate::call::{Call, slot_word};
use crate::fill::{Fill, FillAt};
use crate::finish::{Finish, FinishAt};
use crate::lookup::{Found, Hit, Hold, Looked, Lookup};
use call_stages::{Once, Placed};
use cat_history::{Change, NameOp};
use cat_key::WORDS;
use data_node::clear_slot;
use pm_words::{Action, Fence, Memory, Steps, line_of};
use std::sync::ledger::Ledger;

/// A put that works on one node.
#[derive(Clone, Copy)]
pub enum SinglePut {
    Looking {
        lookup: Lookup,
        value: u64,
    },
    /// It writes the name into a clear slot.
    Filling {
        fill: Fill,
    },
    /// No slot is clear: it stores the value in the slot that has the name.
    Replacing {
        call: Call,
        hold: Hold,
        bitmap: u64,
        hit: Hit,
        value: u64,
    },
    Finishing {
        finish: Finish,
    },
}

/// A put whose node has no clear slot, and no slot with its name.
#[derive(Clone, Copy)]
pub struct FullNode {
    pub call: Call,
    pub hold: Hold,
    pub bitmap: u64,
    pub value: u64,
}

/// How a put's work on one node ends: the put is answered, or has to split the node.
#[derive(Clone, Copy)]
pub enum SinglePutDone {
    Answered(Once<Placed>),
    Full(FullNode),
}

impl SinglePut {
    ghost use Rattle.std.specs.Prelude.{◌≡◌, ℕ, ◌<◌};
    ghost use Rattle.pm_words.specs.Turns.{GoesBelow};
    ghost use Rattle.pm_words.specs.declared.machine.Turn.TheVariants.{Go};
    ghost use Rattle.node_ops.specs.declared.put.Put.TheVariants as Put;
    ghost use Rattle.node_ops.specs.Calls.{IsCall};
    ghost use Rattle.node_ops.specs.LookupSteps.{IsFoundBy, lookup_turned};
    ghost use Rattle.node_ops.specs.FillSteps.{filled};
    ghost use Rattle.data_node.specs.Bits.{lowest_clear};
    ghost use Rattle.machine_runs.specs.Runs.{AddsNothing, Bursts, MayGo};
    ghost use Rattle.node_ops.specs.PutSteps.{IsPut, SinglePutTurns, put_asks, put_found, put_left, put_looked};
    ghost use Rattle.node_ops.specs.PutSteps.{put_takes, put_turned, replaced, replaced_hit};
    ghost use Rattle.node_ops.specs.Bursts.{SinglePutBursts};

    /// Tells it in place the number that its action gave. It goes on, or its work on the node is done.
    #[inline(always)]
    pub(crate) fn advance(&mut self, got: u64) -> Option<SinglePutDone>
        requires { put_takes (Put.Single self.old) got }
        ensures turned { SinglePutTurns (put_turned (Put.Single self.old) got) self.new result }
        ensures fewer { GoesBelow put_left (put_left (Put.Single self.old)) (put_turned (Put.Single self.old) got) }
    {
        match self {
            SinglePut::Looking { .. } => self.looked(got),
            SinglePut::Filling { fill } => {
                if fill.advance(got) {
                    self.filled();
                }
                None
            }
            SinglePut::Replacing { .. } => {
                self.replaced();
                None
            }
            SinglePut::Finishing { finish } => {
                let answer = finish.advance(got)?;
                Some(SinglePutDone::Answered(answer))
            }
        }
    }

    /// Does what it asks for, and goes on so as long as one part of it does, with nothing between; where it comes to
    /// replace a value, it goes on until its change is to be counted. It goes on, or its work on the node is done.
    /// `steps` counts the events.
    pub(crate) fn burst<L: Ledger>(
        &mut self,
        memory: &mut Memory,
        steps: &mut Steps<L>,
    ) -> Option<SinglePutDone>
        requires may { MayGo put_asks put_turned put_left put_takes memory.old.layout memory.old.words
            (Put.Single self.old) }
        requires adds { AddsNothing (put_asks (Put.Single self.old)) }
        ensures { SinglePutBursts memory.old memory.new self.old self.new result steps.old steps.new }
    {
        match self {
            SinglePut::Looking { lookup, value } => match lookup.burst(memory, steps)? {
                Looked::Early(answer) => Some(SinglePutDone::Answered(answer)),
                Looked::Found(found) => {
                    let (call, value) = (lookup.call, *value);
                    let Some(hit) = SinglePut::replaced_hit(&call, &found) else {
                        return self.found(call, found, value);
                    };
                    let finish = SinglePut::replaces(call, &found, hit, value, memory, steps);
                    *self = SinglePut::Finishing { finish };
                    None
                }
            },
            SinglePut::Filling { fill } => {
                fill.run(memory, steps);
                self.filled();
                None
            }
            SinglePut::Replacing { .. } => self.turns(memory, steps),
            SinglePut::Finishing { finish } => {
                let Some(line) = finish.line_to_flush() else {
                    return self.turns(memory, steps);
                };
                finish.flush(line, memory, steps);
                None
            }
        }
    }

    /// One turn.
    fn turns<L: Ledger>(
        &mut self,
        memory: &mut Memory,
        steps: &mut Steps<L>,
    ) -> Option<SinglePutDone>
        requires may { MayGo put_asks put_turned put_left put_takes memory.old.layout memory.old.words
            (Put.Single self.old) }
        requires adds { AddsNothing (put_asks (Put.Single self.old)) }
        ensures { SinglePutBursts memory.old memory.new self.old self.new result steps.old steps.new }
    {
        let got = memory.act(self.action(), steps);
        self.advance(got)
    }

    /// Where it looks, it has one number more, and once it has looked it goes on with what it found.
    #[inline(always)]
    fn looked(&mut self, got: u64) -> Option<SinglePutDone>
        requires { put_takes (Put.Single self.old) got }
        ensures turned { (lookup : Lookup) (value : ℕ) → self.old ≡ SinglePut.Looking lookup value
            → SinglePutTurns (put_looked lookup.call value (lookup_turned lookup got)) self.new result }
        ensures fewer { (lookup : Lookup) (value : ℕ) → self.old ≡ SinglePut.Looking lookup value
            → GoesBelow put_left (put_left (Put.Single self.old))
            (put_looked lookup.call value (lookup_turned lookup got)) }
    {
        let SinglePut::Looking { lookup, value } = self else {
            return None;
        };
        match lookup.advance(got)? {
            Looked::Early(answer) => Some(SinglePutDone::Answered(answer)),
            Looked::Found(found) => {
                let (call, value) = (lookup.call, *value);
                self.found(call, found, value)
            }
        }
    }

    /// It has looked its name up.
    fn found(&mut self, call: Call, found: Found, value: u64) -> Option<SinglePutDone>
        requires call { IsCall call }
        requires found { IsFoundBy call.view.layout.slots found }
        ensures { SinglePutTurns (Go (put_found call found value)) self.new result }
    {
        let Found {
            hold,
            directory,
            hit,
        } = found;
        let bitmap = directory.bitmap;
        *self = match (clear_slot(bitmap, call.view.layout.slots()), hit) {
            (Some(slot), _) => SinglePut::Filling {
                fill: Fill {
                    call,
                    hold,
                    bitmap,
                    prints: directory.prints[(slot / 8) as usize],
                    slot,
                    hit,
                    value,
                    at: FillAt::Word { k: 0 },
                },
            },
            (None, Some(hit)) => SinglePut::Replacing {
                call,
                hold,
                bitmap,
                hit,
                value,
            },
            (None, None) => {
                return Some(SinglePutDone::Full(FullNode {
                    call,
                    hold,
                    bitmap,
                    value,
                }));
            }
        };
        None
    }

    /// Where its slot is filled, it finishes.
    fn filled(&mut self)
        ensures { (fill : Fill) → self.old ≡ SinglePut.Filling fill → self.new ≡ SinglePut.Finishing (filled fill) }
    {
        let SinglePut::Filling { fill } = self else {
            return;
        };
        let finish = fill.finish();
        *self = SinglePut::Finishing { finish };
    }

    /// Where its value is stored in place, it finishes.
    fn replaced(&mut self)
        requires { IsPut (Put.Single self.old) }
        ensures { (call : Call) (hold : Hold) (bitmap : ℕ) (hit : Hit) (value : ℕ)
            → self.old ≡ SinglePut.Replacing call hold bitmap hit value
            → self.new ≡ SinglePut.Finishing (replaced call hold hit value) }
    {
        let SinglePut::Replacing {
            call,
            hold,
            hit,
            value,
            ..
        } = self
        else {
            return;
        };
        let finish = SinglePut::stored(*call, *hold, *hit, *value);
        *self = SinglePut::Finishing { finish };
    }

    /// What is left to do once the value is stored in place.
    fn stored(call: Call, hold: Hold, hit: Hit, value: u64) -> Finish
        requires { hit.slot < 64 }
        ensures { result ≡ replaced call hold hit value }
    {
        Finish {
            call,
            hold,
            old: Some(hit.value),
            new: Some(value),
            at: FinishAt::Fence {
                line: line_of(slot_word(hit.slot, WORDS as u64)),
                fence: Fence::new(),
            },
        }
    }

    /// The slot whose value it replaces: where none is clear, the one that has the name.
    fn replaced_hit(call: &Call, found: &Found) -> Option<Hit>
        requires { IsCall call.now }
        ensures { result ≡ replaced_hit (lowest_clear found.now.directory.bitmap call.now.view.layout.slots)
            found.now.hit }
    {
        match clear_slot(found.directory.bitmap, call.view.layout.slots()) {
            Some(_) => None,
            None => found.hit,
        }
    }

    /// Stores the value in the slot that has the name, and makes it durable, with nothing between. Returns what is left
    /// to do.
    fn replaces<L: Ledger>(
        call: Call,
        found: &Found,
        hit: Hit,
        value: u64,
        memory: &mut Memory,
        steps: &mut Steps<L>,
    ) -> Finish
        requires { MayGo put_asks put_turned put_left put_takes memory.old.layout memory.old.words
            (Put.Single (SinglePut.Replacing call found.now.hold found.now.directory.bitmap hit value)) }
        ensures { Bursts put_asks put_turned put_left memory.old memory.new
            (Put.Single (SinglePut.Replacing call found.now.hold found.now.directory.bitmap hit value))
            (Go (Put.Single (SinglePut.Finishing result))) steps.old steps.new }
    {
        let offset = slot_word(hit.slot, WORDS as u64);
        memory.act(Action::Store(call.address(offset), value), steps);
        let mut finish = SinglePut::stored(call, found.hold, hit, value);
        finish.flush(line_of(offset), memory, steps);
        finish
    }
}

impl SinglePut {
    ghost use Rattle.std.specs.Prelude.{◌↔◌, IsFalse};
    ghost use Rattle.call_stages.specs.Stages.{counted, placed_in};
    ghost use Rattle.machine_runs.specs.Runs.{AddsNothing};
    ghost use Rattle.node_ops.specs.declared.put.Put.TheVariants as Put;
    ghost use Rattle.node_ops.specs.Asked.{put_op};
    ghost use Rattle.node_ops.specs.CallStages.{put_stage};
    ghost use Rattle.node_ops.specs.PutSteps.{IsPut, put_asks, put_call};

    /// What stays the same while it is made.
    pub(crate) fn call(&self) -> Call
        ensures { result ≡ put_call (Put.Single self.now) }
    {
        match *self {
            SinglePut::Looking { lookup, .. } => lookup.call,
            SinglePut::Filling { fill } => fill.call,
            SinglePut::Replacing { call, .. } => call,
            SinglePut::Finishing { finish } => finish.call,
        }
    }

    /// The op that it is of.
    pub(crate) fn op(&self) -> NameOp
        requires { IsPut (Put.Single self.now) }
        ensures { result ≡ put_op (Put.Single self.now) }
    {
        let value = match *self {
            SinglePut::Finishing { finish } => return finish.op(),
            SinglePut::Looking { value, .. } => value,
            SinglePut::Filling { fill } => fill.value,
            SinglePut::Replacing { value, .. } => value,
        };
        NameOp::Put {
            name: self.call().name(),
            value,
        }
    }

    /// The action that it asks for.
    #[inline(always)]
    pub(crate) fn action(&self) -> Action
        requires { IsPut (Put.Single self.now) }
        ensures { result ≡ put_asks (Put.Single self.now) }
    {
        match self {
            SinglePut::Looking { lookup, .. } => lookup.action(),
            SinglePut::Filling { fill } => fill.action(),
            SinglePut::Replacing {
                call,
                hit,
                value,
                ..
            } => Action::Store(call.address(slot_word(hit.slot, WORDS as u64)), *value),
            SinglePut::Finishing { finish } => finish.action(),
        }
    }

    /// The place that its write was given, if it has one.
    pub(crate) fn place(&self) -> Option<u64>
        ensures { result ≡ placed_in (put_stage (Put.Single self.now)) }
    {
        match self {
            SinglePut::Finishing { finish } => finish.place(),
            _ => None,
        }
    }

    /// Whether its next action counts its change in the clock.
    pub(crate) fn is_counted_next(&self) -> bool
        ensures { IsFalse result ↔ AddsNothing (put_asks (Put.Single self.now)) }
    {
        match self {
            SinglePut::Finishing { finish } => finish.is_counted_next(),
            _ => false,
        }
    }

    /// The change that its next action counts in the clock, if it counts one.
    pub(crate) fn counts(&self) -> Option<Change>
        requires { IsPut (Put.Single self.now) }
        ensures { result ≡ counted (put_stage (Put.Single self.now)) }
    {
        match self {
            SinglePut::Finishing { finish } => finish.counts(),
            _ => None,
        }
    }
}
