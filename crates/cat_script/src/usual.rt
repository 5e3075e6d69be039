//! Reading calls as scripts mostly write them: a caller of one digit, and one space between words.
//!
//! Such a line is read at once, without cutting it into words first. Of a line that is written in another way, or is
//! none of a script, nothing is said here.

ghost use Rattle.std.specs.Prelude.{◌≡◌, ◌++◌, codes, IfSome, Some};
ghost use Rattle.cat_key.specs.Names.{IsName};
ghost use Rattle.cat_script.specs.Asks.{IsLine};
ghost use Rattle.cat_script.specs.Usual.{IsUsual, AreNameAndNumber};

use crate::line::Line;
use crate::number::read_number;
use cat_history::Op;
use cat_key::Name;

/// The call that a line asks for, where it is written in the usual way.
pub(crate) fn usual_call(line: &[u8]) -> Option<Line>
    ensures { IfSome result (IsLine line.now) }
{
    let (caller, rest) = line.split_first()?;
    if !caller.is_ascii_digit() {
        return None;
    }
    let op = usual_op(rest)?;
    Some(Line::Call {
        caller: u64::from(*caller - b'0'),
        op,
    })
}

/// What the text behind the caller of such a line asks.
fn usual_op(text: &[u8]) -> Option<Op>
    ensures { IfSome result (IsUsual text.now) }
{
    if let Some(rest) = text.strip_prefix(b" put ") {
        return usual_put(rest);
    }
    if let Some(rest) = text.strip_prefix(b" get ") {
        return usual_get(rest);
    }
    if let Some(rest) = text.strip_prefix(b" del ") {
        return usual_del(rest);
    }
    if let Some(rest) = text.strip_prefix(b" scan ") {
        return usual_scan(rest);
    }
    None
}

/// The put of a name and a number.
fn usual_put(text: &[u8]) -> Option<Op>
    ensures { IfSome result (IsUsual (codes " put " ++ text.now)) }
{
    let (name, value) = name_and_number(text)?;
    Some(Op::Put { name, value })
}

/// The get of a name.
fn usual_get(text: &[u8]) -> Option<Op>
    ensures { IfSome result (IsUsual (codes " get " ++ text.now)) }
{
    let Ok(name) = Name::read(text) else {
        return None;
    };
    Some(Op::Get { name })
}

/// The del of a name.
fn usual_del(text: &[u8]) -> Option<Op>
    ensures { IfSome result (IsUsual (codes " del " ++ text.now)) }
{
    let Ok(name) = Name::read(text) else {
        return None;
    };
    Some(Op::Del { name })
}

/// The scan from a name on, of a number of names.
fn usual_scan(text: &[u8]) -> Option<Op>
    ensures { IfSome result (IsUsual (codes " scan " ++ text.now)) }
{
    let (from, count) = name_and_number(text)?;
    Some(Op::Scan { from, count })
}

/// The name and the number of a text that is these two, with one space between them.
fn name_and_number(text: &[u8]) -> Option<(Name, u64)>
    ensures { IfSome result (λ found. AreNameAndNumber text.now found.0 found.1) }
{
    let end = text.iter().position(|byte| *byte == b' ')?;
    let Ok(name) = Name::read(&text[..end]) else {
        return None;
    };
    let number = read_number(&text[end + 1..])?;
    Some((name, number))
}
