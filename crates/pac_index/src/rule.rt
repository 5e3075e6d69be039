//! What the table keeps, and what one step tells.

use atomic_table::{Join, Play, Split, TableRule};
use cat_history::{Items, Write};
use cat_key::{Name, Pair};
use index_core::{CoreCall, PartyState};
use node_ops::PartWords;
use pm_words::{Layout, Memory};
use std::collections::LinkedList;
use std::marker::{Brand, PhantomData};

/// What the table is told once: the layout of its words, the generation of this run, the map and the words as the run
/// began.
#[derive(Drop)]
pub struct About {
    pub layout: Layout,
    pub generation: u64,
    pub base: Items<Pair>,
    pub opened: Memory,
}

/// A part of a range scan that a caller was answered: from which name on it listed how many names at most, and what it
/// told. No value of it is made.
pub struct AnsweredPart {
    pub low: Name,
    pub count: u64,
    pub words: PartWords,
}

/// What a seat knows of one of its parties: its call, the writes that it has seen, the numbers that the call in flight,
/// or else the last one, was told, how many steps it has made in all, how many of its puts that were answered had added
/// a name, whether a turn of it has found no node FREE, and the parts of range scans that it was answered. No value of
/// it is made.
pub struct Member {
    pub about: About,
    pub state: PartyState,
    pub seen: Items<Write>,
    pub told: Items<u64>,
    pub taken: u64,
    pub added: u64,
    pub none_free: bool,
    pub known: Items<AnsweredPart>,
}

/// What a seat knows: its parties.
pub type Members = LinkedList<Member>;

/// The law of the index, over the words and the views.
pub struct Ruled;

impl TableRule<(), Members, About> for Ruled {
    ghost use Rattle.pac_index.specs.Kept.{Kept, first_view};

    ghost holds = { Kept };

    ghost first = { first_view };
}

/// What a step tells its caller: of the seat before, the word that was found or stored, and the seat after.
pub trait Outcome {
    ghost use Rattle.std.specs.Prelude.{ℕ, List};
    ghost use Rattle.atomic_table.specs.Table.{Me};
    ghost use Rattle.pac_index.specs.declared.rule.Member.{Member};

    ghost tells: { Me (Unit {0}) (List Member) → ℕ → Me (Unit {0}) (List Member) → Type 0 };
}

/// The play of a tale.
pub struct ByOutcome<T: Outcome> {
    outcome: PhantomData<T>,
}

impl<T: Outcome> Play<(), Members> for ByOutcome<T> {
    ghost then = { λ step me found after. T.tells me found after };
}

/// A step of the call in flight.
pub struct NextStep;

impl Outcome for NextStep {
    ghost use Rattle.pac_index.specs.Kept.{Tells};

    ghost tells = { Tells };
}

/// The call that begins, and its index, which the proof of the call picks.
pub trait BeginsCall {
    ghost use Rattle.std.specs.Prelude.{ℕ};
    ghost use Rattle.index_core.specs.declared.party.CoreCall.{CoreCall};

    ghost call: { CoreCall };

    ghost index: { ℕ };
}

impl BeginsCall for Brand {
    ghost use Rattle.std.specs.Prelude.{[]};
    ghost use Rattle.index_core.specs.declared.party.CoreCall.TheVariants.{Get};

    ghost call = { Get [] };

    ghost index = { 0 };
}

/// The first step of the call that was chosen.
pub struct FirstStep<C: BeginsCall> {
    chosen: PhantomData<C>,
}

impl<C: BeginsCall> Outcome for FirstStep<C> {
    ghost use Rattle.pac_index.specs.Kept.{Starts};

    ghost tells = { Starts C.call C.index };
}

/// The first step of a turn of the updater.
pub struct FirstTurnStep;

impl Outcome for FirstTurnStep {
    ghost use Rattle.pac_index.specs.Turns.{StartsTurn};

    ghost tells = { StartsTurn };
}

/// The epoch of a turn, which the proof of the turn picks.
pub trait HasEpoch {
    ghost use Rattle.std.specs.Prelude.{ℕ};

    ghost epoch: { ℕ };
}

impl HasEpoch for Brand {
    ghost use Rattle.epochs.specs.Kept.{first_epoch};

    ghost epoch = { first_epoch };
}

/// The first step of a turn under the updater lock, at the epoch that was chosen.
pub struct FirstWorkStep<E: HasEpoch> {
    chosen: PhantomData<E>,
}

impl<E: HasEpoch> Outcome for FirstWorkStep<E> {
    ghost use Rattle.pac_index.specs.Turns.{StartsWork};

    ghost tells = { StartsWork E.epoch };
}

/// A step of the turn in flight.
pub struct NextTurnStep;

impl Outcome for NextTurnStep {
    ghost use Rattle.pac_index.specs.Turns.{TellsTurn};

    ghost tells = { TellsTurn };
}

/// The first step of a recheck.
pub struct FirstRecheckStep;

impl Outcome for FirstRecheckStep {
    ghost use Rattle.pac_index.specs.Rechecked.{StartsRecheck};

    ghost tells = { StartsRecheck };
}

/// The node of a recheck, which the proof of the recheck picks.
pub trait ChecksNode {
    ghost use Rattle.std.specs.Prelude.{ℕ};

    ghost node: { ℕ };
}

impl ChecksNode for Brand {
    ghost node = { 0 };
}

/// The last step of a recheck, of the node that was chosen.
pub struct LastRecheckStep<N: ChecksNode> {
    chosen: PhantomData<N>,
}

impl<N: ChecksNode> Outcome for LastRecheckStep<N> {
    ghost use Rattle.pac_index.specs.Rechecked.{EndsRecheck};

    ghost tells = { EndsRecheck N.node };
}

/// The load by which a seat comes that has no party.
pub struct EmptySeat;

impl Outcome for EmptySeat {
    ghost use Rattle.std.specs.Prelude.{◌≡◌, []};

    ghost tells = { λ me found after. after ≡ ([], []) };
}

/// A seat keeps all its parties but the first, which a new seat gets.
pub struct SplitFirst;

impl Split<Members> for SplitFirst {
    ghost use Rattle.pac_index.specs.Kept.{first_of, rest_of};

    ghost left = { rest_of };

    ghost right = { first_of };
}

/// A seat takes in the parties of another.
pub struct JoinAll;

impl Join<Members> for JoinAll {
    ghost use Rattle.std.specs.Prelude.{◌++◌, []};

    ghost both = { λ v w. v ++ w };

    ghost spent = { [] };
}
