//! What stays the same while a call is made.

ghost use Rattle.std.specs.Prelude.{◌≡◌, ◌↔◌, ◌^◌, ◌<◌, ◌≤◌, IfSome, IsFalse};
ghost use Rattle.pm_words.specs.Locations.{node_words};
ghost use Rattle.pm_words.specs.Offsets.{print_offset, slot_offset};
ghost use Rattle.machine_runs.specs.Runs.{AddsNothing};

use call_stages::View;
use cat_key::{Name, WORDS};
use pm_words::Action;
use pm_words::offsets::node;

/// What a call has: the node that it works on and how many hops its walk made to it, which stay the same once it is
/// there, the words and the fingerprint of its name, and the limit that the clock has to be below, if there is one.
#[derive(Clone, Copy)]
pub struct Call {
    pub view: View,
    pub node: u64,
    pub hops: u64,
    pub name: [u64; WORDS],
    pub print: u8,
    pub limit: Option<u64>,
}

impl Call {
    ghost use Rattle.call_stages.specs.Views.{IsView};
    ghost use Rattle.node_ops.specs.Calls.{IsCall, new_call, call_address, name_in};

    /// A call that hasn't come to its node yet.
    pub(crate) fn new(view: View, name: &Name, limit: Option<u64>) -> Call
        requires view { IsView view }
        requires limit { IfSome limit (λ most. most ≤ 2 ^ 62) }
        ensures call { result ≡ new_call view name.now limit }
        ensures sound { IsCall result }
    {
        Call {
            view,
            node: 0,
            hops: 0,
            name: name.words(),
            print: name.fingerprint(),
            limit,
        }
    }

    /// The name that the call is about.
    pub(crate) fn name(&self) -> Name
        requires { IsCall self.now }
        ensures { result ≡ name_in self.now }
    {
        Name::kept_in(self.name)
    }

    /// The address of a word of its node.
    pub(crate) fn address(&self, offset: u64) -> u64
        requires sound { IsCall self.now }
        requires within { offset < node_words self.now.view.layout }
        ensures { result ≡ call_address self.now offset }
    {
        let layout = self.view.layout;
        layout.cached(layout.node_word(self.node, offset))
    }
}

/// The offset of word `k` of a slot: the words of its name are 0, 1 and 2, and its value is 3.
pub(crate) fn slot_word(slot: u64, k: u64) -> u64
    requires slot { slot < 64 }
    requires word { k < 4 }
    ensures { result ≡ slot_offset slot k }
{
    node::SLOTS + (WORDS as u64 + 1) * slot + k
}

/// The offset of the word with a slot's fingerprint.
pub(crate) fn print_word(slot: u64) -> u64
    ensures { result ≡ print_offset slot }
{
    node::PRINTS + slot / 8
}

/// Whether an action adds to a word.
pub(crate) fn adds(action: Action) -> bool
    ensures { IsFalse result ↔ AddsNothing action }
{
    match action {
        Action::Add(_) => true,
        _ => false,
    }
}
