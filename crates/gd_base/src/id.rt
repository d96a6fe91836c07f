//! Identities.
ghost use Rattle.std.specs.Prelude.{◌≡◌};

use std::marker::Model;

/// The identity of a primitive: its place in the list of all primitives.
#[derive(Clone, Copy, Debug, PartialEq, Eq, PartialOrd, Ord, Hash)]
pub struct Id(pub u32);

impl Model for Id {
    ghost use Rattle.std.specs.Prelude.{ℕ};

    ghost Value = { ℕ };

    ghost view = { λ id. id.0 };

    ghost inverse = { λ place. record { 0 = place } };
}

impl Id {
    pub fn new(place: u32) -> Id
        ensures { result ≡ place }
    {
        Id(place)
    }

    pub fn place(self) -> u32
        ensures { result ≡ self }
    {
        self.0
    }
}
