//! Lists with places that are reserved.
ghost use Rattle.std.specs.Prelude.{◌≡◌, ◌≤◌, ◌<◌, ◌+◌, ◌-◌, ◌++◌, ◌∷◌, [], OnOk, MatchBool};
ghost use Rattle.std.specs.Prelude.{length, drop};

use gd_base::memory::Memory;
use std::alloc::Global;
use std::marker::Model;

/// A list that has places for so many further items, which are appended without memory.
#[derive(Drop)]
pub(crate) struct Roomy<T> {
    items: Vec<T>,
    spare: usize,
}

impl<T> Model for Roomy<T> {
    ghost use Rattle.std.specs.Prelude.{◌+◌, ◌≤◌, vec_len, vec_capacity};
    ghost use Rattle.gd_writer.specs.Parts.{RoomyValue};

    ghost Value = { RoomyValue T };

    ghost view = { λ r. record { items = r.items.items; spare = r.spare } };

    ghost invariant = { λ r. vec_len r.items + r.spare ≤ vec_capacity r.items };
}

impl<T> Roomy<T> {
    /// A list without items.
    pub(crate) fn new(alloc: Global) -> Roomy<T>
        ensures { result ≡ record { items = []; spare = 0 } }
    {
        Roomy {
            items: Vec::new(alloc),
            spare: 0,
        }
    }

    /// The items.
    pub(crate) fn as_slice(&self) -> &[T]
        ensures { result.now ≡ self.now.items }
    {
        self.items.as_slice()
    }

    /// Whether there is no item.
    pub(crate) fn is_empty(&self) -> bool
        ensures { MatchBool result (self.now.items ≡ []) (0 < length self.now.items) }
    {
        self.items.is_empty()
    }

    /// The first item.
    pub(crate) fn first(&self) -> &T
        requires { 0 < length self.now.items }
        ensures { self.now.items ≡ result.now ∷ drop 1 self.now.items }
    {
        &self.items[0]
    }

    /// Takes the first item out, whose place is free then.
    pub(crate) fn take_first(&mut self) -> T
        requires { 0 < length self.old.items }
        ensures items { self.old.items ≡ result ∷ self.new.items }
        ensures spare { self.new.spare ≡ self.old.spare + 1 }
    {
        let first = self.items.remove(0);
        self.spare += 1;
        first
    }

    /// Reserves places for so many further items.
    pub(crate) fn reserve(&mut self, more: usize) -> Result<(), Memory>
        ensures items { self.new.items ≡ self.old.items }
        ensures made { OnOk result (more ≤ self.new.spare) }
        ensures kept { self.old.spare ≤ self.new.spare }
    {
        self.items.reserve(more)?;
        self.spare = self.spare.max(more);
        Ok(())
    }

    /// Appends an item at a reserved place.
    pub(crate) fn push(&mut self, item: T)
        requires { 1 ≤ self.old.spare }
        ensures items { self.new.items ≡ self.old.items ++ item ∷ [] }
        ensures spare { self.new.spare ≡ self.old.spare - 1 }
    {
        match self.items.push(item) {
            Ok(()) => self.spare -= 1,
            Err(_) => unreachable!(),
        }
    }
}

impl<T> Roomy<T> {
    /// Gives the items, and keeps none. It takes no memory.
    pub(crate) fn take(&mut self, alloc: Global) -> Vec<T>
        ensures items { result.items ≡ self.old.items }
        ensures none { self.new ≡ record { items = []; spare = 0 } }
    {
        self.spare = 0;
        std::mem::replace(&mut self.items, Vec::new(alloc))
    }
}

impl<T: Drop> Roomy<T> {
    /// Drops the items.
    pub(crate) fn clear(&mut self)
        ensures { self.new ≡ record { items = []; spare = 0 } }
    {
        self.items.clear();
        self.spare = 0;
    }
}
