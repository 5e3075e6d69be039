//! Reading what a call asks.

ghost use Rattle.std.specs.Prelude.{◌≡◌, ◌≢◌, ◌∷◌, ◌++◌, List, ℕ, IfSome, IsNone, codes};
ghost use Rattle.cat_history.specs.declared.op.Op.{Op};
ghost use Rattle.cat_text.specs.ReportGrammar.{IsReportOp};
ghost use Rattle.cat_text.specs.ReportLines.{op_fields};
ghost use Rattle.report_reader.specs.Answers.{SaysOp};
ghost use Rattle.report_reader.specs.Fields.{fields_behind};

use crate::cut::next_field;
use crate::field::{is_word, read_decimal, read_name};
use cat_history::Op;

/// Reads what a call asks, by its first field and what follows that; with what follows all of it. None where the
/// fields begin with nothing that a call asks.
pub(crate) fn read_op<'a>(verb: &[u8], rest: &'a [u8]) -> Option<(Op, &'a [u8])>
    ensures some { IfSome result (λ found.
        SaysOp (verb.now ∷ fields_behind rest.now) found.0 (fields_behind found.1.now)) }
    ensures none { IsNone result → (op : Op) (more : List (List ℕ)) →
        ¬ SaysOp (verb.now ∷ fields_behind rest.now) op more }
{
    let (name, rest) = next_field(rest)?;
    let name = read_name(name)?;
    if is_word(verb, "get") {
        return Some((Op::Get { name }, rest));
    }
    if is_word(verb, "del") {
        return Some((Op::Del { name }, rest));
    }
    let (number, rest) = next_field(rest)?;
    let number = read_decimal(number)?;
    if is_word(verb, "put") {
        return Some((
            Op::Put {
                name,
                value: number,
            },
            rest,
        ));
    }
    if is_word(verb, "scan") {
        return Some((
            Op::Scan {
                from: name,
                count: number,
            },
            rest,
        ));
    }
    None
}
