//! Which primitive succeeds which.
ghost use Rattle.std.specs.Prelude.{◌≡◌, ℕ, ◌+◌, ◌-◌, ◌^◌, ◌<◌, ◌≤◌, ◌==◌, [], None, Some, length};
ghost use Rattle.std.specs.Prelude.{min, slice_set, if◌then◌else◌, OnOk, OnErr, IfSome, IsSome, IfOk};
ghost use Rattle.gd_versions.specs.Versions.{successor_of, with_places};

use crate::slot::Slot;
use gd_base::id::Id;
use gd_base::memory::Memory;
use gd_base::steps::Steps;
use std::alloc::Global;
use std::marker::Model;

/// The successor of each place: a primitive may name an earlier one as its previous version, and
/// succeeds it then. There is one slot for each place, so that a look-up is one step. Contracts see
/// the list of the slots.
#[derive(Debug, Drop)]
pub struct Versions {
    slots: Vec<Slot>,
}

impl Model for Versions {
    ghost use Rattle.std.specs.Prelude.{ℕ, List, Option};

    ghost Value = { List (Option ℕ) };

    ghost view = { λ versions. versions.slots.items };
}

impl Versions {
    /// No places. It takes no memory.
    pub fn new(alloc: Global) -> Versions
        ensures { result ≡ [] }
    {
        Versions {
            slots: Vec::new(alloc),
        }
    }

    /// The same slots again.
    pub fn copy(&self, alloc: Global) -> Result<Versions, Memory>
        ensures { IfOk result (λ copy. copy ≡ self.now) }
    {
        Ok(Versions {
            slots: self.slots.to_vec(alloc)?,
        })
    }

    /// Makes room, so that each place below `places` has a slot. A new slot holds none, and the
    /// others stay. `Memory` leaves all as it was, and comes only where there were fewer slots.
    pub fn reserve(&mut self, places: u32) -> Result<(), Memory>
        ensures ok { OnOk result (self.new ≡ with_places places self.old) }
        ensures successors { (place : ℕ) → successor_of self.new place
            ≡ successor_of self.old place }
        ensures room { OnOk result (places ≤ length self.new) }
        ensures err { OnErr result (self.new ≡ self.old) }
        ensures short { OnErr result (length self.old < places) }
    {
        let places = places as usize;
        if places > self.slots.len() {
            self.slots.resize(places, Slot::vacant())?;
        }
        Ok(())
    }

    /// Enters the successor of a place that has none yet. It takes no memory.
    pub fn add(&mut self, previous: Id, successor: Id)
        requires within { previous < length self.old }
        requires vacant { successor_of self.old previous ≡ None }
        requires small { successor < 2_097_151 }
        ensures slots { self.new ≡ slice_set self.old previous (Some successor) }
        ensures successors { (place : ℕ) → successor_of self.new place
            ≡ (if place == previous then Some successor else successor_of self.old place) }
    {
        self.slots[previous.0 as usize] = Slot::of(successor);
    }

    /// Takes the successor of a place that has one away again. It takes no memory.
    pub fn retract(&mut self, previous: Id)
        requires { IsSome (successor_of self.old previous) }
        ensures slots { self.new ≡ slice_set self.old previous None }
        ensures successors { (place : ℕ) → successor_of self.new place
            ≡ (if place == previous then None else successor_of self.old place) }
    {
        self.slots[previous.0 as usize] = Slot::vacant();
    }

    /// The successor of a place, or none, as for a place past the last slot. It is one step.
    pub fn successor<L>(&self, id: Id, steps: &mut Steps<L>) -> Option<Id>
        ensures successor { result ≡ successor_of self.now id }
        ensures work { steps.new ≡ min (steps.old + 1) (2 ^ 64 - 1) }
        ensures later { steps.old ≤ steps.new }
        ensures one { steps.new ≤ steps.old + 1 }
    {
        steps.tick();
        match self.slots.get(id.0 as usize) {
            Some(slot) => slot.successor(),
            None => None,
        }
    }
}
