//! The directions of sort keys.
ghost use Rattle.std.specs.Prelude.{◌≡◌, ◌<◌, ◌≤◌, [], ◌∷◌, ◌++◌, length};

use std::marker::Model;

/// The directions of at most four sort keys, the first one foremost. Contracts see the list of
/// them, true for a descending one.
#[derive(Drop)]
pub struct Order {
    descending: [bool; 4],
    count: usize,
}

impl Model for Order {
    ghost use Rattle.std.specs.Prelude.{◌≤◌, List, Bool, take};

    ghost Value = { List Bool };

    ghost view = { λ order. take order.count order.descending };

    ghost invariant = { λ order. order.count ≤ 4 };
}

impl Order {
    /// No sort keys: rows are in the order of their objects.
    pub fn new() -> Order
        ensures { result ≡ [] }
    {
        Order {
            descending: [false; 4],
            count: 0,
        }
    }

    /// One key more behind the others.
    pub fn push(&mut self, descending: bool)
        requires { length self.old < 4 }
        ensures { self.new ≡ self.old ++ descending ∷ [] }
    {
        self.descending[self.count] = descending;
        self.count += 1;
    }

    /// The directions, true for a descending one.
    pub fn as_slice(&self) -> &[bool]
        ensures directions { result.now ≡ self.now }
        ensures few { length self.now ≤ 4 }
    {
        &self.descending[..self.count]
    }
}
