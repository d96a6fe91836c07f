//! Cursors.
ghost use Rattle.std.specs.Prelude.{◌≡◌, ◌<◌, ◌≤◌, [], ◌∷◌, ◌++◌, length};

use gd_base::id::Id;
use std::marker::Model;

/// A cursor: a dateline, and the row behind which a page begins, which is an object and the places
/// of its sort keys.
#[derive(Drop)]
pub struct Cursor {
    pub dateline: u32,
    pub object: Id,
    pub keys: Places,
}

/// The places of at most four sort keys, none where a key is missing. Contracts see their list.
#[derive(Drop)]
pub struct Places {
    places: [Option<Id>; 4],
    count: usize,
}

impl Model for Places {
    ghost use Rattle.std.specs.Prelude.{ℕ, ◌≤◌, List, Option, take};

    ghost Value = { List (Option ℕ) };

    ghost view = { λ places. take places.count places.places };

    ghost invariant = { λ places. places.count ≤ 4 };
}

impl Places {
    /// No sort keys.
    pub fn new() -> Places
        ensures { result ≡ [] }
    {
        Places {
            places: [None; 4],
            count: 0,
        }
    }

    /// One place more behind the others.
    pub fn push(&mut self, place: Option<Id>)
        requires { length self.old < 4 }
        ensures { self.new ≡ self.old ++ place ∷ [] }
    {
        self.places[self.count] = place;
        self.count += 1;
    }

    /// The places in their order.
    pub fn as_slice(&self) -> &[Option<Id>]
        ensures places { result.now ≡ self.now }
        ensures few { length self.now ≤ 4 }
    {
        &self.places[..self.count]
    }
}
