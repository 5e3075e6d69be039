//! The moves of a recovery of an image, in order.

ghost use Rattle.std.specs.Prelude.{◌≡◌, ℕ, ◌+◌, ◌<◌, IfOk, [], ◌∷◌, ◌++◌};
ghost use Rattle.image_rules.specs.Nodes.{IsListedNode};
ghost use Rattle.image_rules.specs.Sound.{IsSound};
ghost use Rattle.image_recovery_law.specs.updater_row_law.specs.Columns.{line_count};
ghost use Rattle.image_recovery_law.specs.Stages.{Unsets, Sets, Empties};
ghost use Rattle.image_recovery.specs.Plans.{PlansTo, TrimsOne, IsPlanOf, IsRaised};

use crate::anchored::anchored_node;
use crate::lines::is_used;
use crate::moves::Move;
use crate::trim::trimmed;
use image_rules::read::{bitmap_of, line_count, next_of};
use pm_words::{Image, NoMemory};
use std::alloc::Global;

/// One move more.
fn add(moves: &mut Vec<Move>, next: Move) -> Result<(), NoMemory>
    ensures { IfOk result (λ _. moves.new.items ≡ moves.old.items ++ next ∷ []) }
{
    moves.push(next)?;
    Ok(())
}

/// A node gets another bitmap, if it has live slots out of its range.
fn plan_trim(image: &Image, node: u64, moves: &mut Vec<Move>) -> Result<(), NoMemory>
    requires sound { IsSound image.now.layout image.now.words }
    requires listed { IsListedNode image.now.layout image.now.words node }
    ensures { IfOk result (λ _. TrimsOne image.now node moves.old.items moves.new.items) }
{
    let bitmap = trimmed(image, node);
    if bitmap == bitmap_of(image, node) {
        return Ok(());
    }
    add(moves, Move::Trim { node, bitmap })
}

/// The bitmaps of the listed nodes, in order of the list.
fn plan_trims(image: &Image, moves: &mut Vec<Move>) -> Result<(), NoMemory>
    requires sound { IsSound image.now.layout image.now.words }
    requires raised { IsRaised image.now moves.old.items }
    ensures { IfOk result (λ _. PlansTo image.now (Unsets 0) moves.new.items) }
{
    let mut node = 0;
    // A list of more nodes than there are would have one twice.
    for _position in 0..image.layout().nodes() + 1 {
        plan_trim(image, node, moves)?;
        node = next_of(image, node);
        if node == 0 {
            return Ok(());
        }
    }
    Ok(())
}

/// The anchor of a line is taken out, if the list doesn't have it.
fn plan_unset(image: &Image, line: u64, moves: &mut Vec<Move>) -> Result<(), NoMemory>
    requires sound { IsSound image.now.layout image.now.words }
    requires line { line < line_count image.now.layout }
    requires planned { PlansTo image.now (Unsets line) moves.old.items }
    ensures { IfOk result (λ _. PlansTo image.now (Unsets (line + 1)) moves.new.items) }
{
    if !is_used(image, line) {
        return Ok(());
    }
    match anchored_node(image, line) {
        None => add(moves, Move::Unset { line }),
        Some(_) => Ok(()),
    }
}

/// The anchors that are to be taken out, of all lines.
fn plan_unsets(image: &Image, moves: &mut Vec<Move>) -> Result<(), NoMemory>
    requires sound { IsSound image.now.layout image.now.words }
    requires planned { PlansTo image.now (Unsets 0) moves.old.items }
    ensures { IfOk result (λ _. PlansTo image.now (Sets 0) moves.new.items) }
{
    for line in 0..line_count(image) {
        plan_unset(image, line, moves)?;
    }
    Ok(())
}

/// The anchor of a line is set, if the list has it.
fn plan_set(image: &Image, line: u64, moves: &mut Vec<Move>) -> Result<(), NoMemory>
    requires sound { IsSound image.now.layout image.now.words }
    requires line { line < line_count image.now.layout }
    requires planned { PlansTo image.now (Sets line) moves.old.items }
    ensures { IfOk result (λ _. PlansTo image.now (Sets (line + 1)) moves.new.items) }
{
    if !is_used(image, line) {
        return Ok(());
    }
    match anchored_node(image, line) {
        None => Ok(()),
        Some(node) => add(moves, Move::Set { line, node }),
    }
}

/// The anchors that are to be set, of all lines.
fn plan_sets(image: &Image, moves: &mut Vec<Move>) -> Result<(), NoMemory>
    requires sound { IsSound image.now.layout image.now.words }
    requires planned { PlansTo image.now (Sets 0) moves.old.items }
    ensures { IfOk result (λ _. PlansTo image.now (Empties 0) moves.new.items) }
{
    for line in 0..line_count(image) {
        plan_set(image, line, moves)?;
    }
    Ok(())
}

/// A line gets EMPTY, if it isn't.
fn plan_empty(image: &Image, line: u64, moves: &mut Vec<Move>) -> Result<(), NoMemory>
    requires line { line < line_count image.now.layout }
    requires planned { PlansTo image.now (Empties line) moves.old.items }
    ensures { IfOk result (λ _. PlansTo image.now (Empties (line + 1)) moves.new.items) }
{
    if !is_used(image, line) {
        return Ok(());
    }
    add(moves, Move::Empty { line })
}

/// The lines that get EMPTY.
fn plan_empties(image: &Image, moves: &mut Vec<Move>) -> Result<(), NoMemory>
    requires { PlansTo image.now (Empties 0) moves.old.items }
    ensures { IfOk result (λ _. IsPlanOf image.now moves.new.items) }
{
    for line in 0..line_count(image) {
        plan_empty(image, line, moves)?;
    }
    Ok(())
}

/// The moves of a recovery of an image, in order; or that there was no memory for them. They are the moves for an image
/// that keeps the rules on its header, list, nodes and log, whatever its search layer has.
pub fn plan(alloc: Global, image: &Image) -> Result<Vec<Move>, NoMemory>
    requires { IsSound image.now.layout image.now.words }
    ensures { IfOk result (λ moves. IsPlanOf image.now moves.items) }
{
    let mut moves = Vec::new(alloc);
    add(&mut moves, Move::Raise)?;
    plan_trims(image, &mut moves)?;
    plan_unsets(image, &mut moves)?;
    plan_sets(image, &mut moves)?;
    plan_empties(image, &mut moves)?;
    Ok(moves)
}
