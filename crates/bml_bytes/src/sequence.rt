//! Values that a field keeps in order.

ghost use Rattle.std.specs.Prelude.{◌≡◌};

use std::marker::Model;

/// Values that a field keeps in order. Contracts see the list of them.
#[derive(Debug, Drop)]
pub struct Sequence<T> {
    values: Vec<T>,
}

impl<T> Model for Sequence<T> {
    ghost use Rattle.std.specs.Prelude.{List};
    ghost use Rattle.std.specs.Coded.{coded_list};

    ghost Value = { List T };

    ghost coded = { coded_list T.code };

    ghost view = { λ sequence. sequence.values.items };
}

impl<T> Sequence<T> {
    /// All of them.
    pub fn as_slice(&self) -> &[T]
        ensures { result.now ≡ self.now }
    {
        self.values.as_slice()
    }

    /// The vector with all of them. This takes no memory.
    pub fn into_vec(self) -> Vec<T>
        ensures { result.items ≡ self }
    {
        let Sequence { values } = self;
        values
    }
}

impl<T> From<Vec<T>> for Sequence<T> {
    ghost use Rattle.std.specs.Prelude.{◌≡◌};

    ghost from_gives = { λ values sequence. sequence ≡ values.items };

    /// The values of a vector. This takes no memory.
    fn from(values: Vec<T>) -> Sequence<T> {
        Sequence { values }
    }
}
