//! A shelf in memory, whose failures are chosen.
ghost use Rattle.std.specs.Prelude.{◌≡◌, ◌≢◌, ◌+◌, ◌-◌, ◌^◌, ◌≤◌, ◌<◌, ◌↔◌, ◌∷◌, [], ℕ, List, Some};
ghost use Rattle.std.specs.Prelude.{None, true, false, min, vec_len, is_ok, IfOk, OnOk, OnErr};
ghost use Rattle.std.specs.Prelude.{IsErr, IsErrOf, Contains, position, bytes_eq, length};
ghost use Rattle.std.specs.Prelude.{option_map};
ghost use Rattle.std.specs.Option.{ForSome};
ghost use Rattle.gd_base.specs.Counts.{Rose};
ghost use Rattle.gd_bytes.specs.Disk.{HoldsSame};
ghost use Rattle.gd_disk.specs.Recorded.{content_of, images_of};
ghost use Rattle.gd_disk.specs.Laws.{slot_reads_law};
ghost use Rattle.gd_disk.specs.Shelved.{slot_at, content_in, images_in, is_out_in, IsTried};

use crate::Failed;
use crate::failing::Failing;
use crate::memory_disk::{MemoryDisk, meet};
use crate::shelf::{Shelf, ShelfFault};
use gd_base::memory::Memory;
use gd_base::text::Text;
use std::alloc::Global;
use std::marker::Model;

/// A path, and what it holds, unless it is out.
#[derive(Drop)]
struct Slot {
    path: Text,
    disk: Option<MemoryDisk>,
}

/// Disks in memory by their paths. A path that was not put there holds an empty file. Calls of
/// `open_at` are counted from 0, and those whose numbers it was given fail.
#[derive(Drop)]
pub struct MemoryShelf {
    slots: Vec<Slot>,
    failing: Failing,
    number: u64,
    faults: u64,
    alloc: Global,
}

impl Model for MemoryShelf {
    ghost use Rattle.gd_disk.specs.Shelved.{Shelved};

    ghost Value = { Shelved };

    ghost view = { λ s. record {
      slots = s.slots.items;
      failing = s.failing;
      opened = s.number;
      faults = s.faults;
    } };
}

impl MemoryShelf {
    /// A shelf that holds this disk at this path, and nothing elsewhere. The calls of `open_at`
    /// with the numbers in `failing` fail.
    pub fn new(
        alloc: Global,
        path: &Text,
        disk: MemoryDisk,
        failing: &[u64],
    ) -> Result<MemoryShelf, Memory>
        ensures held { IfOk result (λ shelf. slot_at shelf.slots path.now ≡ Some (Some disk)) }
        ensures others { IfOk result (λ shelf. (other : List ℕ) → other ≢ path.now
            → slot_at shelf.slots other ≡ None) }
        ensures failing { IfOk result (λ shelf. shelf.failing ≡ failing.now) }
        ensures opened { IfOk result (λ shelf. shelf.opened ≡ 0) }
        ensures faults { IfOk result (λ shelf. shelf.faults ≡ 0) }
    {
        let mut slots = Vec::new(alloc);
        let path = path.copy()?;
        slots.push(Slot {
            path,
            disk: Some(disk),
        })?;
        Ok(MemoryShelf {
            slots,
            failing: Failing::these(alloc, failing)?,
            number: 0,
            faults: 0,
            alloc,
        })
    }

    /// How often the shelf failed, and the devices that were put back.
    pub fn faults(&self) -> u64
        ensures { result ≡ self.now.faults }
    {
        self.faults
    }
}

/// The place of a path's slot.
fn place_of(slots: &[Slot], path: &Text) -> Option<usize>
    ensures { result ≡ position (λ slot. bytes_eq slot.path path.now) slots.now }
{
    slots.iter().position(|slot| slot.path == *path)
}

/// Puts a disk, or none, into a path's slot, and gives what was in it. Without such a slot nothing
/// is done.
fn replace_at(
    slots: &mut Vec<Slot>,
    path: &Text,
    disk: Option<MemoryDisk>,
) -> Option<Option<MemoryDisk>>
    ensures was { result ≡ slot_at slots.old.items path.now }
    ensures now { slot_at slots.new.items path.now
        ≡ option_map (λ _. disk) (slot_at slots.old.items path.now) }
    ensures others { (other : List ℕ) → other ≢ path.now → slot_at slots.new.items other
        ≡ slot_at slots.old.items other }
{
    let place = place_of(slots, path)?;
    let slot = &mut slots[place];
    Some(std::mem::replace(&mut slot.disk, disk))
}

/// Adds a slot for a path, which is out.
fn add_out(slots: &mut Vec<Slot>, path: &Text) -> Result<(), Memory>
    requires { slot_at slots.old.items path.now ≡ None }
    ensures out { OnOk result (slot_at slots.new.items path.now ≡ Some None) }
    ensures refused { OnErr result (slots.new.items ≡ slots.old.items) }
    ensures others { (other : List ℕ) → other ≢ path.now
        → slot_at slots.new.items other ≡ slot_at slots.old.items other }
{
    let path = path.copy()?;
    slots.push(Slot { path, disk: None })?;
    Ok(())
}

/// Makes an empty disk for a path without a slot, and a slot for the path, which is out.
fn add_empty(alloc: Global, slots: &mut Vec<Slot>, path: &Text) -> Result<MemoryDisk, Memory>
    requires { slot_at slots.old.items path.now ≡ None }
    ensures empty { IfOk result (λ disk. (disk.first ≡ []) × (disk.made ≡ []) × (disk.faults ≡ 0)) }
    ensures out { OnOk result (slot_at slots.new.items path.now ≡ Some None) }
    ensures refused { OnErr result (slots.new.items ≡ slots.old.items) }
    ensures others { (other : List ℕ) → other ≢ path.now
        → slot_at slots.new.items other ≡ slot_at slots.old.items other }
{
    let disk = MemoryDisk::new(alloc, &[], &[])?;
    add_out(slots, path)?;
    Ok(disk)
}

impl Shelf for MemoryShelf {
    type Device = MemoryDisk;

    ghost content = { λ s path. content_in (slot_at s.slots path) };

    ghost images = { λ s path. images_in (slot_at s.slots path) };

    ghost is_out = { λ s path. is_out_in (slot_at s.slots path) };

    ghost faults = { λ s. s.faults };

    ghost reads_one = { λ s path file is. slot_reads_law (slot_at s.slots path) file is };

    fn open_at(&mut self, path: &Text) -> Result<MemoryDisk, ShelfFault>
        requires { is_out_in (slot_at self.old.slots path.now) ≡ false }
        ensures holds { IfOk result (λ device. HoldsSame
            (content_in (slot_at self.old.slots path.now)) (content_of device)
            (images_in (slot_at self.old.slots path.now)) (images_of device)) }
        ensures count { IfOk result (λ device. device.faults ≡ 0) }
        ensures out { is_out_in (slot_at self.new.slots path.now) ≡ is_ok result }
        ensures refused { OnErr result (HoldsSame
            (content_in (slot_at self.old.slots path.now))
            (content_in (slot_at self.new.slots path.now))
            (images_in (slot_at self.old.slots path.now))
            (images_in (slot_at self.new.slots path.now))) }
        ensures others { (other : List ℕ) → other ≢ path.now → HoldsSame
            (content_in (slot_at self.old.slots other)) (content_in (slot_at self.new.slots other))
            (images_in (slot_at self.old.slots other)) (images_in (slot_at self.new.slots other))
            × (is_out_in (slot_at self.new.slots other)
            ≡ is_out_in (slot_at self.old.slots other)) }
        ensures later { self.old.faults ≤ self.new.faults }
        ensures cause { IsErrOf result ShelfFault.Failed → Rose self.old.faults self.new.faults }
        ensures tried { IsTried self.old self.new result }
        // It is the very disk that was kept.
        ensures kept { IfOk result (λ device. ForSome (slot_at self.old.slots path.now)
            (λ kept. ForSome kept (λ disk.
            device ≡ record disk { faults = 0 }))) }
    {
        meet(&self.failing, &mut self.number, &mut self.faults)?;
        match replace_at(&mut self.slots, path, None) {
            Some(Some(disk)) => Ok(disk.with_no_faults()),
            Some(None) => unreachable!(),
            None => {
                let disk = add_empty(self.alloc, &mut self.slots, path)?;
                Ok(disk)
            }
        }
    }

    fn put_back(&mut self, path: &Text, device: MemoryDisk)
        requires { is_out_in (slot_at self.old.slots path.now) ≡ true }
        ensures holds { HoldsSame (content_of device) (content_in (slot_at self.new.slots path.now))
            (images_of device) (images_in (slot_at self.new.slots path.now)) }
        ensures back { is_out_in (slot_at self.new.slots path.now) ≡ false }
        ensures others { (other : List ℕ) → other ≢ path.now → HoldsSame
            (content_in (slot_at self.old.slots other)) (content_in (slot_at self.new.slots other))
            (images_in (slot_at self.old.slots other)) (images_in (slot_at self.new.slots other))
            × (is_out_in (slot_at self.new.slots other)
            ≡ is_out_in (slot_at self.old.slots other)) }
        ensures count { self.new.faults ≡ min (self.old.faults + device.faults) (2 ^ 64 - 1) }
        ensures kept { slot_at self.new.slots path.now ≡ Some (Some device) }
    {
        self.faults = self.faults.saturating_add(device.faults());
        let _ = replace_at(&mut self.slots, path, Some(device));
    }
}
