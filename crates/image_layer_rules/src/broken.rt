//! Which of the rules on the tree an image breaks, and the first rule that it breaks of all of them.

ghost use Rattle.std.specs.Prelude.{◌↔◌, IsTrue, IsNone, IfSome};
ghost use Rattle.image_rules.specs.Lowest.{IsLowest};
ghost use Rattle.image_rules.specs.Sound.{IsSound};
ghost use Rattle.image_layer_rules.specs.Rules.{BreaksTree};
ghost use Rattle.image_layer_rules.specs.Sound.{IsSoundByAll, IsFirstOfAll};

use crate::count::room_behind;
use crate::cover::is_uncovered;
use crate::walk::is_wrong_from;
use crate::words::{ROOT_WORD, root_of};
use image_rules::{Broken, first_broken};
use pm_words::Image;

/// The number of the rule on the order of the tree.
const TREE_RULE: u64 = 10;

/// The number of the rule on the count of keys.
const COUNT_RULE: u64 = 11;

/// The number of the rule on where the tree leads.
const COVER_RULE: u64 = 12;

/// Whether the image breaks rule 10: the tree below its root isn't in order. It takes no memory.
pub fn has_wrong_tree(image: &Image) -> bool
    ensures { IsTrue result ↔ BreaksTree image.now.layout image.now.words TREE_RULE }
{
    is_wrong_from(image, root_of(image), 0)
}

/// Whether the image, which keeps rule 10, breaks rule 11: it has more keys than there are nodes.
pub fn has_many_keys(image: &Image) -> bool
    requires { ¬ BreaksTree image.now.layout image.now.words TREE_RULE }
    ensures { IsTrue result ↔ BreaksTree image.now.layout image.now.words COUNT_RULE }
{
    let nodes = image.layout().nodes();
    let Some(_room) = room_behind(image, root_of(image), 0, nodes) else {
        return true;
    };
    false
}

/// The lowest rule on the tree that is broken, in an image that keeps all others.
fn broken_rule(image: &Image) -> Option<u64>
    requires { IsSound image.now.layout image.now.words }
    ensures { IsLowest (BreaksTree image.now.layout image.now.words) result }
{
    if has_wrong_tree(image) {
        return Some(TREE_RULE);
    }
    if has_many_keys(image) {
        return Some(COUNT_RULE);
    }
    if is_uncovered(image) {
        return Some(COVER_RULE);
    }
    None
}

/// The first of all rules that the image breaks, at the first word that breaks it, in the order of the list; or `None`
/// where it is sound by all of them. It takes no memory.
pub fn first_broken_of_all(image: &Image) -> Option<Broken>
    ensures none { IsNone result ↔ IsSoundByAll image.now.layout image.now.words }
    ensures some { IfSome result (IsFirstOfAll image.now.layout image.now.words) }
{
    if let Some(broken) = first_broken(image) {
        return Some(broken);
    }
    let rule = broken_rule(image)?;
    Some(Broken {
        rule,
        word: ROOT_WORD,
    })
}
