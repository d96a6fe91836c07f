//! Where files are kept.
ghost use Rattle.std.specs.Prelude.{◌≡◌, ◌≢◌, ◌+◌, ◌-◌, ◌^◌, ◌≤◌, ℕ, List, Option, Some, Bool};
ghost use Rattle.std.specs.Prelude.{true, false, min, is_ok, IfOk, OnErr, IsErrOf};
ghost use Rattle.gd_base.specs.Counts.{Rose};
ghost use Rattle.gd_bytes.specs.Disk.{HoldsSame};
ghost use Rattle.gd_disk.specs.declared.shelf.ShelfFault.TheVariants as why;

use crate::Failed;
use crate::disk::Disk;
use gd_base::memory::Memory;
use gd_base::text::Text;
use std::alloc::AllocError;

/// Why a file is not opened.
#[derive(Clone, Copy, Debug, PartialEq, Eq)]
pub enum ShelfFault {
    Failed,
    Memory,
}

impl From<Failed> for ShelfFault {
    ghost from_gives = { λ _ fault. fault ≡ why.Failed };

    fn from(_fault: Failed) -> ShelfFault {
        ShelfFault::Failed
    }
}

impl From<Memory> for ShelfFault {
    ghost from_gives = { λ _ fault. fault ≡ why.Memory };

    fn from(_refused: Memory) -> ShelfFault {
        ShelfFault::Memory
    }
}

impl From<AllocError> for ShelfFault {
    ghost from_gives = { λ _ fault. fault ≡ why.Memory };

    fn from(_refused: AllocError) -> ShelfFault {
        ShelfFault::Memory
    }
}

/// Files by their paths. A path is out from the call that opens it to the call that puts its device
/// back.
pub trait Shelf {
    type Device: Disk + Send;

    /// What a path holds, where the shelf tells it. Of a path that is out it says nothing.
    ghost content: { Self → List ℕ → Option (List ℕ) };

    /// What a stop may leave at a path.
    ghost images: { Self → List ℕ → List ℕ → Type 0 };

    /// Whether a path is out.
    ghost is_out: { Self → List ℕ → Bool };

    /// How often the shelf failed, and the devices that were put back.
    ghost faults: { Self → ℕ };

    /// Opens a path that is not out, which is out then. The device holds what the path held, an
    /// empty file where it names none, and its count of faults is 0. `Failed`: the shelf failed.
    /// `Memory`: there is no room, also for the return of the device.
    fn open_at(&mut self, path: &Text) -> Result<Self::Device, ShelfFault>
        requires { is_out self.old path.now ≡ false }
        ensures holds { IfOk result (λ device. HoldsSame (content self.old path.now)
            (Self.Device.content device)
            (images self.old path.now) (Self.Device.images device)) }
        ensures count { IfOk result (λ device. Self.Device.faults device ≡ 0) }
        ensures out { is_out self.new path.now ≡ is_ok result }
        ensures refused { OnErr result (HoldsSame (content self.old path.now)
            (content self.new path.now)
            (images self.old path.now) (images self.new path.now)) }
        ensures others { (other : List ℕ) → other ≢ path.now
            → HoldsSame (content self.old other) (content self.new other)
            (images self.old other) (images self.new other)
            × (is_out self.new other ≡ is_out self.old other) }
        ensures later { faults self.old ≤ faults self.new }
        ensures cause { IsErrOf result ShelfFault.Failed
            → Rose (faults self.old) (faults self.new) };

    /// Puts a device back at a path that is out, which then holds what the device holds and is out
    /// no more. The count of faults rises by the device's, and stays at `u64::MAX`.
    fn put_back(&mut self, path: &Text, device: Self::Device)
        requires { is_out self.old path.now ≡ true }
        ensures holds { HoldsSame (Self.Device.content device) (content self.new path.now)
            (Self.Device.images device) (images self.new path.now) }
        ensures back { is_out self.new path.now ≡ false }
        ensures others { (other : List ℕ) → other ≢ path.now
            → HoldsSame (content self.old other) (content self.new other)
            (images self.old other) (images self.new other)
            × (is_out self.new other ≡ is_out self.old other) }
        ensures count { faults self.new ≡ min (faults self.old + Self.Device.faults device)
            (2 ^ 64 - 1) };

    /// What a path holds as it reads is what a stop may leave there.
    ghost reads_one: { (shelf : Self) (path file : List ℕ) → content shelf path ≡ Some file
        → images shelf path file };
}
