//! The first rule that an image breaks.

ghost use Rattle.std.specs.Prelude.{◌≤◌, ◌↔◌, IsNone, IfSome};
ghost use Rattle.image_rules.specs.Lowest.{IsFirst};
ghost use Rattle.image_rules.specs.Sound.{Breaks, AreKept, IsSound, IsFirstBroken};

use crate::header::{wrong_header, wrong_version};
use crate::list::{leads_back, leads_out, wrong_anchor};
use crate::listed::NodeRule;
use crate::log_line::wrong_line;
use pm_words::Image;

/// A rule that an image breaks, and where.
#[derive(Clone, Copy, Debug, PartialEq, Eq)]
pub struct Broken {
    /// The number of the rule.
    pub rule: u64,
    /// The number of the image word that breaks it.
    pub word: u64,
}

/// The number of the last rule.
const LAST_RULE: u64 = 9;

/// The first word at which the image breaks a rule, if it keeps those before it.
fn broken_at(image: &Image, rule: u64) -> Option<u64>
    requires rule { (1 ≤ rule) × (rule ≤ LAST_RULE) }
    requires kept { AreKept image.now.layout image.now.words rule }
    ensures { IsFirst image.now.layout (Breaks image.now.layout image.now.words rule) result }
{
    match rule {
        1 => wrong_header(image),
        2 => wrong_version(image),
        3 => leads_out(image),
        4 => leads_back(image),
        5 => wrong_anchor(image),
        6 => NodeRule::Names.broken_word(image),
        7 => NodeRule::Prints.broken_word(image),
        8 => NodeRule::Apart.broken_word(image),
        _ => wrong_line(image),
    }
}

/// The first rule that the image breaks, at the first word that breaks it, in the order of the list; or `None` where it
/// is sound. It takes time in proportion to the words of the listed nodes and of the log.
pub fn first_broken(image: &Image) -> Option<Broken>
    ensures none { IsNone result ↔ IsSound image.now.layout image.now.words }
    ensures some { IfSome result (IsFirstBroken image.now.layout image.now.words) }
{
    for rule in 1..LAST_RULE + 1 {
        if let Some(word) = broken_at(image, rule) {
            return Some(Broken { rule, word });
        }
    }
    None
}
