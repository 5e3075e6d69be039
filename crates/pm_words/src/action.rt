/// One action on one word. An address is a number in the row of the volatile words, the cached and the durable twins.
#[derive(Clone, Copy, PartialEq, Eq, Debug)]
pub enum Action {
    Load(u64),
    /// The address and the new word.
    Store(u64, u64),
    /// The address, the word that must stand there and the new one.
    Exchange(u64, u64, u64),
    /// Adds one to the word at the address.
    Add(u64),
    /// The address of a cached twin, and the value for its durable twin.
    Drain(u64, u64),
}

impl Action {
    ghost use Rattle.std.specs.Prelude.{◌≡◌};
    ghost use Rattle.pm_words.specs.Rows.{CanChange, word_after, given};

    /// The word afterwards, where this one was found.
    pub(crate) fn word_after(self, found: u64) -> u64
        requires { CanChange self found }
        ensures { result ≡ word_after self found }
    {
        match self {
            Action::Load(_) => found,
            Action::Store(_, value) | Action::Drain(_, value) => value,
            Action::Exchange(_, old, new) => { if found == old { new } else { found } }
            Action::Add(_) => found + 1,
        }
    }

    /// The number that the action gives, where this word was found.
    pub(crate) fn given(self, found: u64) -> u64
        ensures { result ≡ given self found }
    {
        match self {
            Action::Load(_) | Action::Exchange(_, _, _) | Action::Add(_) => found,
            Action::Store(_, _) | Action::Drain(_, _) => 0,
        }
    }
}
