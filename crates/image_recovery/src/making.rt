//! A move of a recovery is made, action by action.

ghost use Rattle.std.specs.Prelude.{◌≡◌, ◌<◌, [], ◌∷◌, slice_index};
ghost use Rattle.pm_words.specs.Locations.{image_words, cached_address, Cached, at};
ghost use Rattle.image_recovery_law.specs.updater_row_law.specs.Columns.{line_count, line_word};

use crate::moves::Move;
use crate::storing::Storing;
use cat_key::WORDS;
use pm_words::offsets::{header, line, node};
use pm_words::{Action, LOG_LINES, Layout, Machine, Memory, Turn};
use tree_update::Change;

/// A move of a recovery while it is made.
#[derive(Clone, Copy)]
pub enum Making {
    /// The generation, a bitmap or the state of a line is stored.
    Stores(Storing),
    /// The anchor of a line is set or taken out.
    Changes(Change),
}

impl Machine for Making {
    ghost use Rattle.image_recovery.specs.Makings.{IsMaking, making_asks, making_turned, making_takes, making_left};

    type Answer = ();

    ghost fits = { IsMaking };

    ghost asks = { making_asks };

    ghost turned = { making_turned };

    ghost takes = { making_takes };

    ghost left = { making_left };

    fn action(&self) -> Action {
        match self {
            Making::Stores(storing) => storing.action(),
            Making::Changes(change) => change.action(),
        }
    }

    fn resume(self, got: u64) -> Turn<Making, ()> {
        match self {
            Making::Stores(storing) => match storing.resume(got) {
                Turn::Go(next) => Turn::Go(Making::Stores(next)),
                Turn::Done(answer) => Turn::Done(answer),
            },
            Making::Changes(change) => match change.resume(got) {
                Turn::Go(next) => Turn::Go(Making::Changes(next)),
                Turn::Done(_) => Turn::Done(()),
            },
        }
    }
}

/// The cached twin of an image word.
fn cached_word(memory: &Memory, word: u64) -> u64
    requires { word < image_words memory.now.layout }
    ensures { result ≡ slice_index memory.now.words (cached_address memory.now.layout word) }
{
    memory.words()[memory.layout().cached(word) as usize]
}

/// A word of a line.
fn cached_line_word(memory: &Memory, line: u64, offset: u64) -> u64
    requires line { line < line_count memory.now.layout }
    requires offset { offset < 8 }
    ensures { result ≡ at memory.now.layout memory.now.words (Cached (line_word offset line)) }
{
    cached_word(
        memory,
        memory
            .layout()
            .line_word(line / LOG_LINES, line % LOG_LINES, offset),
    )
}

impl Making {
    ghost use Rattle.image_recovery.specs.Makings.{IsMaking, MayMake, anchor_at, making_of};

    /// The words of a line's anchor.
    fn anchor_at(memory: &Memory, line: u64) -> [u64; WORDS]
        requires { line < line_count memory.now.layout }
        ensures { result ≡ anchor_at memory.now line }
    {
        [
            cached_line_word(memory, line, line::ANCHOR),
            cached_line_word(memory, line, line::ANCHOR + 1),
            cached_line_word(memory, line, line::ANCHOR + 2),
        ]
    }

    /// The move, as it begins on these rows.
    pub fn of(memory: &Memory, next: Move) -> Making
        requires { MayMake memory.now next }
        ensures new { result ≡ making_of memory.now next }
        ensures sound { IsMaking result }
    {
        let layout = memory.layout();
        match next {
            Move::Raise => Making::Stores(Storing::new(
                layout,
                header::GENERATION,
                cached_word(memory, header::GENERATION) + 1,
            )),
            Move::Trim { node, bitmap } => Making::Stores(Storing::new(
                layout,
                layout.node_word(node, node::BITMAP),
                bitmap,
            )),
            Move::Unset { line } => {
                Making::Changes(Change::new(layout, Making::anchor_at(memory, line), 0))
            }
            Move::Set { line, node } => Making::Changes(Change::new(
                layout,
                Making::anchor_at(memory, line),
                node + 1,
            )),
            Move::Empty { line } => Making::Stores(Storing::new(
                layout,
                layout.line_word(line / LOG_LINES, line % LOG_LINES, line::STATE),
                0,
            )),
        }
    }
}
