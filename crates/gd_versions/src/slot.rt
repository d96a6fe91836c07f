//! A slot of the table.
ghost use Rattle.std.specs.Prelude.{◌≡◌, ◌<◌, None, Some};

use gd_base::id::Id;
use std::marker::Model;

/// What a slot holds where there is no successor.
const VACANT: u32 = u32::MAX;

/// The identity of a successor, or none. Contracts see the identity as an option.
#[derive(Clone, Copy, Debug)]
pub(crate) struct Slot(u32);

impl Model for Slot {
    ghost use Rattle.std.specs.Prelude.{ℕ, Option};
    ghost use Rattle.gd_versions.specs.Slots.{slot_value, slot_number, same_number};

    ghost Value = { Option ℕ };

    ghost view = { λ slot. slot_value slot.0 };

    ghost inverse = { λ value. record { 0 = slot_number value } };

    ghost inverse_ok = { λ slot h i. record { 0 = same_number slot.0 i } };
}

impl Slot {
    /// The slot of a place without successor.
    pub(crate) fn vacant() -> Slot
        ensures { result ≡ None }
    {
        Slot(VACANT)
    }

    /// The slot of a place with this successor.
    pub(crate) fn of(successor: Id) -> Slot
        requires { successor < 2_097_151 }
        ensures { result ≡ Some successor }
    {
        Slot(successor.0)
    }

    /// The successor, if there is one.
    pub(crate) fn successor(self) -> Option<Id>
        ensures { result ≡ self }
    {
        if self.0 == VACANT {
            return None;
        }
        Some(Id(self.0))
    }
}
