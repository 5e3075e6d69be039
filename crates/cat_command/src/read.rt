//! Reading the words of the command line.

ghost use Rattle.std.specs.Prelude.{◌≡◌, ◌≢◌, ◌↔◌, ℕ, ◌≤◌, List, [], ◌∷◌, codes, map, IfSome, IsNone, IsTrue};
ghost use Rattle.std.specs.String.{string_bytes};
ghost use Rattle.cat_command.specs.Commands.{AreLayoutWords, IsCommand};
ghost use Rattle.cat_command.specs.declared.command.Command.{Command};
ghost use Rattle.pm_words.specs.declared.layout.Layout.{Layout};

use crate::command::Command;
use cat_script::{number_up_to, read_number};
use pm_words::Layout;

/// The greatest seed of a generated round.
const MOST_SEED: u64 = (1 << 31) - 1;

/// How many calls a generated round may have.
const MOST_COUNT: u64 = 100_000;

/// The greatest number of callers.
const MOST_CALLERS: u64 = 16;

/// What the words of the command line ask for; None exactly where they are of no form.
pub fn read_command(words: &[String]) -> Option<Command>
    ensures some { IfSome result (IsCommand (map string_bytes words.now)) }
    ensures none { IsNone result → (command : Command) → ¬ IsCommand (map string_bytes words.now) command }
{
    match words {
        [command, file] => read_two(command.as_bytes(), file.as_bytes()),
        [command, first, second, third] => read_four(
            command.as_bytes(),
            first.as_bytes(),
            second.as_bytes(),
            third.as_bytes(),
        ),
        [command, file, nodes, slots, callers] => read_five(
            command.as_bytes(),
            file.as_bytes(),
            nodes.as_bytes(),
            slots.as_bytes(),
            callers.as_bytes(),
        ),
        _ => None,
    }
}

/// Reads a command of two words.
fn read_two(command: &[u8], file: &[u8]) -> Option<Command>
    ensures some { IfSome result (IsCommand (command.now ∷ file.now ∷ [])) }
    ensures none { IsNone result → (asked : Command) → ¬ IsCommand (command.now ∷ file.now ∷ []) asked }
{
    (is_word(command, "run") && !file.is_empty()).then_some(Command::Run)
}

/// Reads a command of four words.
fn read_four(command: &[u8], first: &[u8], second: &[u8], third: &[u8]) -> Option<Command>
    ensures some { IfSome result (IsCommand (command.now ∷ first.now ∷ second.now ∷ third.now ∷ [])) }
    ensures none { IsNone result → (asked : Command) →
        ¬ IsCommand (command.now ∷ first.now ∷ second.now ∷ third.now ∷ []) asked }
{
    if is_word(command, "play") {
        let layout = read_layout(first, second, third)?;
        return Some(Command::Play { layout });
    }
    if is_word(command, "gen") {
        return read_gen(first, second, third);
    }
    if is_word(command, "words") {
        return read_words(first, second, third);
    }
    None
}

/// Reads a command of five words.
fn read_five(
    command: &[u8],
    file: &[u8],
    nodes: &[u8],
    slots: &[u8],
    callers: &[u8],
) -> Option<Command>
    ensures some { IfSome result
        (IsCommand (command.now ∷ file.now ∷ nodes.now ∷ slots.now ∷ callers.now ∷ [])) }
    ensures none { IsNone result → (asked : Command) →
        ¬ IsCommand (command.now ∷ file.now ∷ nodes.now ∷ slots.now ∷ callers.now ∷ []) asked }
{
    if !is_word(command, "format") || file.is_empty() {
        return None;
    }
    let layout = read_layout(nodes, slots, callers)?;
    Some(Command::Format { layout })
}

/// Reads what follows `gen`.
fn read_gen(seed: &[u8], count: &[u8], callers: &[u8]) -> Option<Command>
    ensures some { IfSome result (IsCommand (codes "gen" ∷ seed.now ∷ count.now ∷ callers.now ∷ [])) }
    ensures none { IsNone result → (asked : Command) →
        ¬ IsCommand (codes "gen" ∷ seed.now ∷ count.now ∷ callers.now ∷ []) asked }
{
    let seed = number_up_to(seed, MOST_SEED)?;
    let count = number_up_to(count, MOST_COUNT)?;
    let callers = number_up_to(callers, MOST_CALLERS)?;
    if callers == 0 {
        return None;
    }
    Some(Command::Gen {
        seed,
        count,
        callers,
    })
}

/// Reads what follows `words`.
fn read_words(file: &[u8], from: &[u8], count: &[u8]) -> Option<Command>
    ensures some { IfSome result (IsCommand (codes "words" ∷ file.now ∷ from.now ∷ count.now ∷ [])) }
    ensures none { IsNone result → (asked : Command) →
        ¬ IsCommand (codes "words" ∷ file.now ∷ from.now ∷ count.now ∷ []) asked }
{
    if file.is_empty() {
        return None;
    }
    let from = read_number(from)?;
    let count = read_number(count)?;
    Some(Command::Words { from, count })
}

/// The layout whose numbers these words are.
fn read_layout(nodes: &[u8], slots: &[u8], callers: &[u8]) -> Option<Layout>
    ensures some { IfSome result (AreLayoutWords nodes.now slots.now callers.now) }
    ensures none { IsNone result → (layout : Layout) → ¬ AreLayoutWords nodes.now slots.now callers.now layout }
{
    let nodes = read_number(nodes)?;
    let slots = read_number(slots)?;
    let callers = read_number(callers)?;
    Layout::new(nodes, slots, callers).ok()
}

/// Whether a word is this one.
fn is_word(word: &[u8], text: &str) -> bool
    ensures { IsTrue result ↔ (word.now ≡ text.now) }
{
    word == text.as_bytes()
}
