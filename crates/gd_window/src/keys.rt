//! Sort keys of a row.
ghost use Rattle.std.specs.Prelude.{◌≡◌, ◌≤◌, length};

use gd_base::datum::Datum;
use gd_base::id::Id;
use std::marker::Model;

/// A sort key: its value, and the place at which it stands. Both are missing where the row has no
/// such key.
#[derive(Drop)]
pub struct Key {
    pub value: Option<Datum>,
    pub place: Option<Id>,
}

/// The sort keys of a row, at most four, the first one foremost. Contracts see their list.
#[derive(Drop)]
pub struct Keys4 {
    keys: Vec<Key>,
}

impl Model for Keys4 {
    ghost use Rattle.std.specs.Prelude.{◌≤◌, List, length};
    ghost use Rattle.gd_window.specs.declared.keys.Key.{Key};

    ghost Value = { List Key };

    ghost view = { λ keys. keys.keys.items };

    ghost invariant = { λ keys. length keys.keys.items ≤ 4 };
}

impl Keys4 {
    /// These keys. It takes no memory.
    pub fn from_vec(keys: Vec<Key>) -> Keys4
        requires { length keys.items ≤ 4 }
        ensures { result ≡ keys.items }
    {
        Keys4 { keys }
    }

    /// The keys in their order.
    pub fn as_slice(&self) -> &[Key]
        ensures keys { result.now ≡ self.now }
        ensures few { length self.now ≤ 4 }
    {
        self.keys.as_slice()
    }
}
