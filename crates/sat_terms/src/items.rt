//! A vector that contracts see as the list of its elements.
ghost use Rattle.std.specs.Prelude.{◌≡◌};

use std::marker::Model;

/// The elements of a vector, in its order.
#[derive(Debug, Drop)]
pub struct Items<T>(Vec<T>);

impl<T> Model for Items<T> {
    ghost use Rattle.std.specs.Prelude.{List};
    ghost use Rattle.std.specs.Coded.{coded_list};

    ghost Value = { List T };

    ghost coded = { coded_list T.code };

    ghost view = { λ it. it.0.items };
}

impl<T> Items<T> {
    /// Takes the vector over, without memory.
    pub fn from_vec(items: Vec<T>) -> Items<T>
        ensures { result ≡ items.items }
    {
        Items(items)
    }

    /// The elements, in order.
    pub fn as_slice(&self) -> &[T]
        ensures { result.now ≡ self.now }
    {
        self.0.as_slice()
    }

    /// Gives the vector back.
    pub fn into_vec(self) -> Vec<T>
        ensures { result.items ≡ self }
    {
        let Items(items) = self;
        items
    }
}
