//! Lists that contracts see as their items alone.

ghost use Rattle.std.specs.Prelude.{◌≡◌};

use std::marker::Model;

/// A list over a `Vec`. In a contract it is the list of its items, so that definitions can make and compare such
/// lists. It is made from a `Vec` and gives it back without taking memory.
#[derive(Drop)]
pub struct Items<T> {
    pub(crate) items: Vec<T>,
}

impl<T> Model for Items<T> {
    ghost use Rattle.std.specs.Prelude.{List};

    ghost Value = { List T };

    ghost view = { λ l. l.items.items };
}

impl<T> Items<T> {
    /// The list of these items.
    pub fn of(items: Vec<T>) -> Self
        ensures { result ≡ items.items }
    {
        Items { items }
    }

    /// The items, borrowed.
    pub fn as_slice(&self) -> &[T]
        ensures { result.now ≡ self.now }
    {
        self.items.as_slice()
    }

    /// The items, given back.
    pub fn into_vec(self) -> Vec<T>
        ensures { result.items ≡ self }
    {
        self.items
    }
}
