//! Taking a leaf or a cell that is free.

ghost use Rattle.std.specs.Prelude.{◌≡◌, ◌<◌, ◌≤◌};

use pm_words::{Action, Layout};

/// Takes the first leaf or cell of a kind that has no mark, and marks it. Nobody else may set a mark meanwhile.
#[derive(Clone, Copy)]
pub struct Take {
    pub layout: Layout,
    /// 1 for leaves, 2 to 5 for cells by their form.
    pub kind: u64,
    pub at: TakeAt,
}

/// What it does next.
#[derive(Clone, Copy)]
pub enum TakeAt {
    /// It looks at this mark. All before it are set.
    Seek { number: u64 },
    /// It sets this mark, which isn't set.
    Mark { number: u64 },
}

/// What was taken.
#[derive(Clone, Copy)]
pub enum Taken {
    /// The leaf or cell of this number.
    One { number: u64 },
    /// None, for all have a mark.
    Absent,
}

impl Take {
    ghost use Rattle.std.specs.Prelude.{◌≡◌, ◌<◌, ◌≤◌};
    ghost use Rattle.pm_words.specs.Layouts.{IsLayout};
    ghost use Rattle.pm_words.specs.Locations.{leaf_count};
    ghost use Rattle.pm_words.specs.Turns.{AdvancesTo};
    ghost use Rattle.tree_change.specs.Takes.{IsTake, take_asks, take_starts, take_takes, take_turned, take_seeks};

    /// It takes one of this kind.
    pub fn new(layout: Layout, kind: u64) -> Take
        requires layout { IsLayout layout }
        requires low { 1 ≤ kind }
        requires high { kind ≤ 5 }
        ensures start { result ≡ take_starts layout kind }
        ensures sound { IsTake result }
    {
        Take {
            layout,
            kind,
            at: TakeAt::Seek { number: 0 },
        }
    }

    /// The action that it asks for next.
    pub fn action(&self) -> Action
        requires { IsTake self.now }
        ensures { result ≡ take_asks self.now }
    {
        let layout = self.layout;
        match self.at {
            TakeAt::Seek { number } => Action::Load(layout.mark(self.kind, number)),
            TakeAt::Mark { number } => Action::Store(layout.mark(self.kind, number), 1),
        }
    }

    /// Tells it in place the number that its action gave. It goes on, or is done where there is an answer.
    pub fn advance(&mut self, got: u64) -> Option<Taken>
        requires { take_takes self.old got }
        ensures { AdvancesTo (take_turned self.old got) self.new result }
    {
        match self.at {
            TakeAt::Seek { number } => {
                if got == 0 {
                    self.at = TakeAt::Mark { number };
                    return None;
                }
                self.seeks_on(number)
            }
            TakeAt::Mark { number } => Some(Taken::One { number }),
        }
    }

    /// This mark is set, so it goes on to the next, if there is one.
    fn seeks_on(&mut self, number: u64) -> Option<Taken>
        requires layout { IsLayout self.old.layout }
        requires number { number < leaf_count self.old.layout }
        ensures { AdvancesTo (take_seeks self.old number) self.new result }
    {
        if number + 1 < self.layout.leaf_count() {
            self.at = TakeAt::Seek { number: number + 1 };
            return None;
        }
        Some(Taken::Absent)
    }
}
