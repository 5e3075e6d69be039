//! The end of a change: the store by which the layer changes.

ghost use Rattle.std.specs.Prelude.{◌≡◌, ◌<◌};
ghost use Rattle.pm_words.specs.Layouts.{IsLayout};
ghost use Rattle.pm_words.specs.Locations.{image_words, word_number, Root};
ghost use Rattle.pm_words.specs.Fences.{IsFence};
ghost use Rattle.tree_change.specs.Finishes.{IsTarget, target_image, line_image, store_asks, drain_asks};

use pm_words::codes::reference::KIND;
use pm_words::offsets::root;
use pm_words::{Action, Fence, Layout, line_of};
use tree_floor::{ROOT, word_of};

/// A word of the layer.
#[derive(Clone, Copy)]
pub enum Target {
    Root,
    Leaf { leaf: u64, offset: u64 },
    Cell { cell: u64, offset: u64 },
}

/// A store of a word of the layer.
#[derive(Clone, Copy)]
pub struct TargetStore {
    pub target: Target,
    pub word: u64,
}

/// Ends a change: the quiet store, by which no child changes, and its fence, where there is one; the switch store, by
/// which the layer changes, and its fence; and the marks of what isn't reached any more.
#[derive(Clone, Copy)]
pub struct Finish {
    pub layout: Layout,
    pub quiet: TargetStore,
    pub switch: TargetStore,
    /// The references of what isn't reached any more, or 0.
    pub free: u64,
    pub next: u64,
    pub at: FinishAt,
}

/// What it does next. Without a quiet store it begins at the switch store.
#[derive(Clone, Copy)]
pub enum FinishAt {
    Quiet,
    QuietFence { fence: Fence },
    Switch,
    SwitchFence { fence: Fence },
    Unmark { reference: u64 },
}

impl Finish {
    ghost use Rattle.std.specs.Prelude.{◌≡◌, ◌≢◌, ◌<◌};
    ghost use Rattle.pm_words.specs.Layouts.{IsLayout};
    ghost use Rattle.pm_words.specs.Turns.{AdvancesTo};
    ghost use Rattle.tree_change.specs.Finishes.{IsFinish, IsTarget, IsMarked, finish_starts, quiet_starts};
    ghost use Rattle.tree_change.specs.Finishes.{finish_asks, finish_takes, finish_turned, finish_to, unmarks};

    /// The end of a change by this switch store, behind which what these references lead to is free; 0 for none.
    pub fn new(layout: Layout, switch: TargetStore, free: u64, next: u64) -> Finish
        requires layout { IsLayout layout }
        requires switch { IsTarget layout switch.target }
        requires free { free ≢ 0 → IsMarked layout free }
        requires next { next ≢ 0 → IsMarked layout next }
        ensures start { result ≡ finish_starts layout switch free next }
        ensures sound { IsFinish result }
    {
        Finish {
            layout,
            quiet: switch,
            switch,
            free,
            next,
            at: FinishAt::Switch,
        }
    }

    /// The end of a change by a quiet store and then this switch store, behind which nothing is free that wasn't.
    pub fn with_quiet(layout: Layout, quiet: TargetStore, switch: TargetStore) -> Finish
        requires layout { IsLayout layout }
        requires quiet { IsTarget layout quiet.target }
        requires switch { IsTarget layout switch.target }
        ensures start { result ≡ quiet_starts layout quiet switch }
        ensures sound { IsFinish result }
    {
        Finish {
            layout,
            quiet,
            switch,
            free: 0,
            next: 0,
            at: FinishAt::Quiet,
        }
    }

    /// The action that it asks for next.
    pub fn action(&self) -> Action
        requires { IsFinish self.now }
        ensures { result ≡ finish_asks self.now }
    {
        let layout = self.layout;
        match self.at {
            FinishAt::Quiet => store_action(layout, self.quiet),
            FinishAt::QuietFence { fence } => fence_action(layout, self.quiet.target, fence),
            FinishAt::Switch => store_action(layout, self.switch),
            FinishAt::SwitchFence { fence } => fence_action(layout, self.switch.target, fence),
            FinishAt::Unmark { reference } => {
                Action::Store(layout.mark(reference / KIND, reference % KIND), 0)
            }
        }
    }

    /// Tells it in place the number that its action gave. It goes on, or is done where there is an answer.
    pub fn advance(&mut self, got: u64) -> Option<()>
        requires { finish_takes self.old got }
        ensures { AdvancesTo (finish_turned self.old got) self.new result }
    {
        match self.at {
            FinishAt::Quiet => {
                let fence = Fence::new();
                self.goes_to(FinishAt::QuietFence { fence })
            }
            FinishAt::QuietFence { fence } => match fence.next(got) {
                Some(fence) => self.goes_to(FinishAt::QuietFence { fence }),
                None => self.goes_to(FinishAt::Switch),
            },
            FinishAt::Switch => {
                let fence = Fence::new();
                self.goes_to(FinishAt::SwitchFence { fence })
            }
            FinishAt::SwitchFence { fence } => match fence.next(got) {
                Some(fence) => self.goes_to(FinishAt::SwitchFence { fence }),
                None => self.unmarks(),
            },
            FinishAt::Unmark { .. } => self.unmarks(),
        }
    }

    fn goes_to(&mut self, at: FinishAt) -> Option<()>
        ensures { AdvancesTo (finish_to self.old at) self.new result }
    {
        self.at = at;
        None
    }

    /// It goes on with the next mark, or is done.
    fn unmarks(&mut self) -> Option<()>
        ensures { AdvancesTo (unmarks self.old) self.new result }
    {
        let reference = self.free;
        if reference == 0 {
            return Some(());
        }
        self.free = self.next;
        self.next = 0;
        self.goes_to(FinishAt::Unmark { reference })
    }
}

fn store_action(layout: Layout, store: TargetStore) -> Action
    requires layout { IsLayout layout }
    requires target { IsTarget layout store.target }
    ensures { result ≡ store_asks layout store }
{
    Action::Store(layout.cached(word_at(layout, store.target)), store.word)
}

fn fence_action(layout: Layout, target: Target, fence: Fence) -> Action
    requires layout { IsLayout layout }
    requires target { IsTarget layout target }
    requires fence { IsFence fence }
    ensures { result ≡ drain_asks layout target fence }
{
    fence.action(layout.cached(line_at(layout, target, fence.word)))
}

fn word_at(layout: Layout, target: Target) -> u64
    requires layout { IsLayout layout }
    requires target { IsTarget layout target }
    ensures word { result ≡ word_number layout (target_image target) }
    ensures within { result < image_words layout }
{
    match target {
        Target::Root => root_word(layout, root::REFERENCE),
        Target::Leaf { leaf, offset } => layout.leaf_word(leaf, offset),
        Target::Cell { cell, offset } => word_of(layout, cell, offset),
    }
}

/// A word of its line.
fn line_at(layout: Layout, target: Target, word: u64) -> u64
    requires layout { IsLayout layout }
    requires target { IsTarget layout target }
    requires word { word < 8 }
    ensures word { result ≡ word_number layout (line_image target word) }
    ensures within { result < image_words layout }
{
    match target {
        Target::Root => root_word(layout, word),
        Target::Leaf { leaf, .. } => layout.leaf_word(leaf, word),
        Target::Cell { cell, offset } => word_of(layout, cell, line_of(offset) + word),
    }
}

fn root_word(layout: Layout, word: u64) -> u64
    requires layout { IsLayout layout }
    requires word { word < 8 }
    ensures word { result ≡ word_number layout (Root word) }
    ensures within { result < image_words layout }
{
    ROOT + word
}
