//! A delete while it works on one node: `Looking`, then `Clearing`, the store of the bitmap without the name's slot,
//! and `Finishing`. A name that isn't there is finished at once, without a store.
//!
//! A delete that leaves at most half as many names as a node has slots looks where its node leads first (`Next`). Where
//! that is another node, it takes a log line before its store (`Taking`): where none is EMPTY it is to be made again
//! (`Refusing`), with nothing changed.
//!
//! These states are an enum of their own, apart from the words of a merge, so that to change one writes few words.

ghost use Rattle.std.specs.Prelude.{◌≡◌};

use crate::call::Call;
use crate::finish::{Finish, FinishAt};
use crate::in_place::tell;
use crate::lookup::{Found, Hit, Hold, Looked, Lookup};
use call_stages::{Once, Placed};
use cat_history::{Change, NameOp};
use data_node::{live_count, without_live};
use pm_words::offsets::node;
use pm_words::{Action, Again, Fence, Machine, Memory, Steps, line_of};
use smo_log::{Take, Taken};
use std::sync::ledger::Ledger;
use version_lock::freed_of;

/// A delete that works on one node.
#[derive(Clone, Copy)]
pub enum SingleDel {
    Looking {
        lookup: Lookup,
    },
    /// It leaves few names: it loads where its node leads.
    Next {
        call: Call,
        hold: Hold,
        bitmap: u64,
        hit: Hit,
    },
    /// It looks for a log line for its merge.
    Taking {
        call: Call,
        hold: Hold,
        bitmap: u64,
        hit: Hit,
        take: Take,
    },
    /// None of its lines is EMPTY: it gives the node back.
    Refusing {
        call: Call,
        hold: Hold,
        bitmap: u64,
        hit: Hit,
    },
    /// It clears the bit of the slot that has the name. With a line, it is to merge then.
    Clearing {
        call: Call,
        hold: Hold,
        bitmap: u64,
        hit: Hit,
        line: Option<u64>,
    },
    Finishing {
        finish: Finish,
        line: Option<u64>,
    },
}

/// A delete whose change is counted at this place, and which has this log line for its merge.
#[derive(Clone, Copy)]
pub struct CountedDel {
    pub finish: Finish,
    pub place: u64,
    pub line: u64,
}

/// How a delete's work on one node ends: the delete is answered, or merges the next node into its own.
#[derive(Clone, Copy)]
pub enum SingleDelDone {
    Answered(Once<Placed>),
    Counted(CountedDel),
}

impl SingleDel {
    ghost use Rattle.std.specs.Prelude.{◌≡◌};
    ghost use Rattle.pm_words.specs.Turns.{GoesBelow};
    ghost use Rattle.node_ops.specs.declared.del.Del.TheVariants as Del;
    ghost use Rattle.node_ops.specs.FinishSteps.{finish_turned};
    ghost use Rattle.node_ops.specs.LookupSteps.{lookup_turned};
    ghost use Rattle.machine_runs.specs.Runs.{AddsNothing, MayGo};
    ghost use Rattle.node_ops.specs.DelSteps.{SingleDelTurns, del_asks, del_finished, del_left, del_looked, del_takes};
    ghost use Rattle.node_ops.specs.DelSteps.{del_turned};
    ghost use Rattle.node_ops.specs.Bursts.{SingleDelBursts};

    /// Tells it in place the number that its action gave. It goes on, or its work on the node is done.
    #[inline(always)]
    pub(crate) fn advance(&mut self, got: u64) -> Option<SingleDelDone>
        requires { del_takes (Del.Single self.old) got }
        ensures turned { SingleDelTurns (del_turned (Del.Single self.old) got) self.new result }
        ensures fewer { GoesBelow del_left (del_left (Del.Single self.old)) (del_turned (Del.Single self.old) got) }
    {
        match self {
            SingleDel::Looking { .. } => self.looked(got),
            SingleDel::Next { .. } => {
                self.saw_next(got);
                None
            }
            SingleDel::Taking { .. } => {
                self.took(got);
                None
            }
            SingleDel::Refusing { .. } => {
                Some(SingleDelDone::Answered(Once::Again(Again::LogFull)))
            }
            SingleDel::Clearing { .. } => {
                self.cleared();
                None
            }
            SingleDel::Finishing { finish, line } => {
                let line = *line;
                SingleDel::finishes(finish, line, got)
            }
        }
    }

    /// Does what it asks for, and goes on so as long as one part of it does, with nothing between. It goes on, or its
    /// work on the node is done. `steps` counts the events.
    pub(crate) fn burst<L: Ledger>(
        &mut self,
        memory: &mut Memory,
        steps: &mut Steps<L>,
    ) -> Option<SingleDelDone>
        requires may { MayGo del_asks del_turned del_left del_takes memory.old.layout memory.old.words
            (Del.Single self.old) }
        requires adds { AddsNothing (del_asks (Del.Single self.old)) }
        ensures { SingleDelBursts memory.old memory.new self.old self.new result steps.old steps.new }
    {
        match self {
            SingleDel::Looking { lookup } => match lookup.burst(memory, steps)? {
                Looked::Early(answer) => Some(SingleDelDone::Answered(answer)),
                Looked::Found(found) => {
                    let call = lookup.call;
                    *self = SingleDel::found(call, found);
                    None
                }
            },
            SingleDel::Finishing { finish, line: None } => {
                let Some(line) = finish.line_to_flush() else {
                    return self.turns(memory, steps);
                };
                finish.flush(line, memory, steps);
                None
            }
            _ => self.turns(memory, steps),
        }
    }

    /// One turn.
    fn turns<L: Ledger>(
        &mut self,
        memory: &mut Memory,
        steps: &mut Steps<L>,
    ) -> Option<SingleDelDone>
        requires may { MayGo del_asks del_turned del_left del_takes memory.old.layout memory.old.words
            (Del.Single self.old) }
        requires adds { AddsNothing (del_asks (Del.Single self.old)) }
        ensures { SingleDelBursts memory.old memory.new self.old self.new result steps.old steps.new }
    {
        let got = memory.act(self.action(), steps);
        self.advance(got)
    }

    /// Where it looks, it has one number more, and once it has looked it goes on with what it found.
    #[inline(always)]
    fn looked(&mut self, got: u64) -> Option<SingleDelDone>
        requires { del_takes (Del.Single self.old) got }
        ensures turned { (lookup : Lookup) → self.old ≡ SingleDel.Looking lookup
            → SingleDelTurns (del_looked lookup.call (lookup_turned lookup got)) self.new result }
        ensures fewer { (lookup : Lookup) → self.old ≡ SingleDel.Looking lookup
            → GoesBelow del_left (del_left (Del.Single self.old)) (del_looked lookup.call (lookup_turned lookup got)) }
    {
        let SingleDel::Looking { lookup } = self else {
            return None;
        };
        match lookup.advance(got)? {
            Looked::Early(answer) => Some(SingleDelDone::Answered(answer)),
            Looked::Found(found) => {
                *self = SingleDel::found(lookup.call, found);
                None
            }
        }
    }

    /// Tells the end of a write in place the number that its action gave. With a line, it ends with its place.
    fn finishes(finish: &mut Finish, line: Option<u64>, got: u64) -> Option<SingleDelDone>
        requires { del_takes (Del.Single (SingleDel.Finishing finish.now line)) got }
        ensures turned { SingleDelTurns (del_finished line (finish_turned finish.entry.now got))
            (SingleDel.Finishing finish.exit.now line) result }
        ensures fewer { GoesBelow del_left (del_left (Del.Single (SingleDel.Finishing finish.entry.now line)))
            (del_finished line (finish_turned finish.entry.now got)) }
    {
        if let Some(answer) = finish.advance(got) {
            return Some(SingleDelDone::Answered(answer));
        }
        if let (FinishAt::Unlock { place }, Some(line)) = (finish.at, line) {
            return Some(SingleDelDone::Counted(CountedDel {
                finish: *finish,
                place,
                line,
            }));
        }
        None
    }
}

impl SingleDel {
    ghost use Rattle.std.specs.Prelude.{◌≡◌, ℕ, Option};
    ghost use Rattle.pm_words.specs.Turns.{GoesBelow};
    ghost use Rattle.pm_words.specs.declared.machine.Turn.TheVariants.{Go};
    ghost use Rattle.smo_log.specs.Takes.{take_turned};
    ghost use Rattle.node_ops.specs.declared.del.Del.TheVariants as Del;
    ghost use Rattle.node_ops.specs.Calls.{IsCall};
    ghost use Rattle.node_ops.specs.LookupSteps.{IsFoundBy, IsHit};
    ghost use Rattle.node_ops.specs.DelSteps.{IsDel, cleared, del_found, del_left, del_slot, del_taken, del_takes};
    ghost use Rattle.node_ops.specs.DelSteps.{saw_next};

    /// What a delete does once it has looked its name up: of a name that is not there it has only to take its place.
    fn found(call: Call, found: Found) -> SingleDel
        requires call { IsCall call }
        requires found { IsFoundBy call.view.layout.slots found }
        ensures { Del.Single result ≡ del_found call found }
    {
        let Found {
            hold,
            directory,
            hit,
        } = found;
        match hit {
            Some(hit) => SingleDel::in_slot(call, hold, directory.bitmap, hit),
            None => SingleDel::Finishing {
                finish: Finish {
                    call,
                    hold,
                    old: None,
                    new: None,
                    at: FinishAt::Add,
                },
                line: None,
            },
        }
    }

    /// The name is in this slot. Where it leaves few names, it may have to merge.
    fn in_slot(call: Call, hold: Hold, bitmap: u64, hit: Hit) -> SingleDel
        requires call { IsCall call }
        requires hit { IsHit call.view.layout.slots bitmap hit }
        ensures { Del.Single result ≡ del_slot call hold bitmap hit }
    {
        let slots = call.view.layout.slots();
        if live_count(without_live(bitmap, hit.slot), slots) > slots / 2 {
            return SingleDel::Clearing {
                call,
                hold,
                bitmap,
                hit,
                line: None,
            };
        }
        SingleDel::Next {
            call,
            hold,
            bitmap,
            hit,
        }
    }

    /// Where it loads where its node leads, that is to this one; 0 is none.
    fn saw_next(&mut self, next: u64)
        requires { IsDel (Del.Single self.old) }
        ensures { (call : Call) (hold : Hold) (bitmap : ℕ) (hit : Hit) → self.old ≡ SingleDel.Next call hold bitmap hit
            → Del.Single self.new ≡ saw_next call hold bitmap hit next }
    {
        let SingleDel::Next {
            call,
            hold,
            bitmap,
            hit,
        } = self
        else {
            return;
        };
        let (call, hold, bitmap, hit) = (*call, *hold, *bitmap, *hit);
        if next == 0 {
            *self = SingleDel::Clearing {
                call,
                hold,
                bitmap,
                hit,
                line: None,
            };
            return;
        }
        *self = SingleDel::Taking {
            call,
            hold,
            bitmap,
            hit,
            take: Take::new(call.view.layout, call.view.caller),
        };
    }

    /// Where it looks for a line, it has looked at one word more.
    fn took(&mut self, got: u64)
        requires { del_takes (Del.Single self.old) got }
        ensures turned { (call : Call) (hold : Hold) (bitmap : ℕ) (hit : Hit) (take : Take)
            → self.old ≡ SingleDel.Taking call hold bitmap hit take
            → del_taken call hold bitmap hit (take_turned take got) ≡ Go (Del.Single self.new) }
        ensures fewer { (call : Call) (hold : Hold) (bitmap : ℕ) (hit : Hit) (take : Take)
            → self.old ≡ SingleDel.Taking call hold bitmap hit take
            → GoesBelow del_left (del_left (Del.Single self.old))
            (del_taken call hold bitmap hit (take_turned take got)) }
    {
        let SingleDel::Taking {
            call,
            hold,
            bitmap,
            hit,
            take,
        } = self
        else {
            return;
        };
        match tell(take, got) {
            None => {}
            Some(Taken::Line { line }) => {
                *self = SingleDel::Clearing {
                    call: *call,
                    hold: *hold,
                    bitmap: *bitmap,
                    hit: *hit,
                    line: Some(line),
                };
            }
            Some(Taken::Full) => {
                *self = SingleDel::Refusing {
                    call: *call,
                    hold: *hold,
                    bitmap: *bitmap,
                    hit: *hit,
                };
            }
        }
    }

    /// Where it clears the bit, that is clear, and it finishes.
    fn cleared(&mut self)
        ensures { (call : Call) (hold : Hold) (bitmap : ℕ) (hit : Hit) (line : Option ℕ)
            → self.old ≡ SingleDel.Clearing call hold bitmap hit line
            → self.new ≡ SingleDel.Finishing (cleared call hold hit) line }
    {
        let SingleDel::Clearing {
            call,
            hold,
            hit,
            line,
            ..
        } = self
        else {
            return;
        };
        let finish = Finish {
            call: *call,
            hold: *hold,
            old: Some(hit.value),
            new: None,
            at: FinishAt::Fence {
                line: line_of(node::BITMAP),
                fence: Fence::new(),
            },
        };
        *self = SingleDel::Finishing {
            finish,
            line: *line,
        };
    }
}

impl SingleDel {
    ghost use Rattle.call_stages.specs.Stages.{counted, placed_in};
    ghost use Rattle.node_ops.specs.declared.del.Del.TheVariants as Del;
    ghost use Rattle.node_ops.specs.Asked.{del_op};
    ghost use Rattle.node_ops.specs.CallStages.{del_stage};
    ghost use Rattle.node_ops.specs.DelSteps.{IsDel, del_asks, del_call};

    /// What stays the same while it is made.
    pub(crate) fn call(&self) -> Call
        ensures { result ≡ del_call (Del.Single self.now) }
    {
        match *self {
            SingleDel::Looking { lookup } => lookup.call,
            SingleDel::Finishing { finish, .. } => finish.call,
            SingleDel::Next { call, .. }
            | SingleDel::Taking { call, .. }
            | SingleDel::Refusing { call, .. }
            | SingleDel::Clearing { call, .. } => call,
        }
    }

    /// The op that it is of.
    pub(crate) fn op(&self) -> NameOp
        requires { IsDel (Del.Single self.now) }
        ensures { result ≡ del_op (Del.Single self.now) }
    {
        if let SingleDel::Finishing { finish, .. } = self {
            return finish.op();
        }
        NameOp::Del {
            name: self.call().name(),
        }
    }

    /// The action that it asks for.
    #[inline(always)]
    pub(crate) fn action(&self) -> Action
        requires { IsDel (Del.Single self.now) }
        ensures { result ≡ del_asks (Del.Single self.now) }
    {
        match self {
            SingleDel::Looking { lookup } => lookup.action(),
            SingleDel::Next { call, .. } => Action::Load(call.address(node::NEXT)),
            SingleDel::Taking { take, .. } => take.action(),
            SingleDel::Refusing { call, hold, .. } => {
                Action::Store(call.address(node::VERSION), freed_of(hold.locked))
            }
            SingleDel::Clearing {
                call,
                bitmap,
                hit,
                ..
            } => Action::Store(call.address(node::BITMAP), without_live(*bitmap, hit.slot)),
            SingleDel::Finishing { finish, .. } => finish.action(),
        }
    }

    /// The place that its write was given, if it has one.
    pub(crate) fn place(&self) -> Option<u64>
        ensures { result ≡ placed_in (del_stage (Del.Single self.now)) }
    {
        match self {
            SingleDel::Finishing { finish, .. } => finish.place(),
            _ => None,
        }
    }

    /// The change that its next action counts in the clock, if it counts one.
    pub(crate) fn counts(&self) -> Option<Change>
        requires { IsDel (Del.Single self.now) }
        ensures { result ≡ counted (del_stage (Del.Single self.now)) }
    {
        match self {
            SingleDel::Finishing { finish, .. } => finish.counts(),
            _ => None,
        }
    }
}
