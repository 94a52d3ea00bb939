//! `Seq`: what its vector has of pointer and capacity is left out of its value, so that two trees
//! with equal items are equal in a contract. `specs/formers` lets it stand inside a recursive type.

ghost use Rattle.std.specs.Prelude.{◌≡◌};

use std::marker::Model;

/// A list that is kept in a vector. Contracts see it as the list of its items.
#[derive(Debug, Drop)]
pub struct Seq<T> {
    items: Vec<T>,
}

impl<T> Model for Seq<T> {
    ghost use Rattle.std.specs.Prelude.{List};
    ghost use Rattle.std.specs.Coded.{coded_list};

    ghost Value = { List T };

    ghost coded = { coded_list T.code };

    ghost view = { λ seq. seq.items.items };
}

impl<T> Seq<T> {
    /// The list of the items of `items`. It takes no memory.
    pub fn of(items: Vec<T>) -> Seq<T>
        ensures same_items { result ≡ items.items }
    {
        Seq { items }
    }

    /// The items, in order.
    pub fn as_slice(&self) -> &[T]
        ensures same_items { result.now ≡ self.now }
    {
        self.items.as_slice()
    }

    /// The vector with the items, in order. It takes no memory.
    pub fn into_vec(self) -> Vec<T>
        ensures same_items { result.items ≡ self }
    {
        let Seq { items } = self;
        items
    }
}
