//! What stands at a gate.
ghost use Rattle.std.specs.Prelude.{◌≡◌, ◌+◌, ◌-◌, ◌<◌, ◌≤◌, List, ℕ, length, take, drop, IfOk};
ghost use Rattle.std.specs.Prelude.{IfErr};
ghost use Rattle.std.specs.Option.{ForSome};
ghost use Rattle.gd_bytes.specs.Disk.{IsUntouched};
ghost use Rattle.gd_journal.specs.Causes.{HasReason};
ghost use Rattle.gd_journal.specs.Heads.{HeadIs, Fits};
ghost use Rattle.gd_journal.specs.Windows.{Shows};

use crate::fault::JournalFault;
use crate::window::{Window, part_at, reach};
use gd_disk::disk::Disk;
use std::alloc::Global;

/// The greatest number of bytes of a payload. The least is 1.
pub const PAYLOAD_LIMIT: usize = 268_435_456;

/// How many bytes of a record stand before its payload: a gate and a length.
pub(crate) const HEAD: u64 = 5;

/// What stands at a gate: no record, one that is damaged, or one whose payload has so many bytes.
#[derive(Clone, Copy)]
pub(crate) enum Head {
    End,
    Torn,
    Record(u32),
}

/// What stands at a gate, by up to five bytes from the gate on, and by how many there are up to the
/// end of the file.
fn head_of(bytes: &[u8], room: u64) -> Head
    requires { 1 ≤ length bytes.now }
    ensures head { (tail : List ℕ) → bytes.now ≡ take 5 tail → length tail ≡ room
        → HeadIs tail result }
    ensures fits { Fits room result }
{
    if bytes[0] != 1 {
        return Head::End;
    }
    if bytes.len() < 5 {
        return Head::Torn;
    }
    let size = u32::from_be_bytes([bytes[1], bytes[2], bytes[3], bytes[4]]);
    if size == 0 {
        return Head::Torn;
    }
    if size > PAYLOAD_LIMIT as u32 {
        return Head::Torn;
    }
    if room < 6 + u64::from(size) {
        return Head::Torn;
    }
    Head::Record(size)
}

/// What stands at a gate.
pub(crate) fn head_at<D: Disk>(
    alloc: Global,
    disk: &mut D,
    window: &mut Window,
    at: u64,
) -> Result<Head, JournalFault>
    requires at { at < window.old.len }
    requires shows { Shows (D.content disk.old) window.old }
    ensures shows { Shows (D.content disk.new) window.new }
    ensures len { window.new.len ≡ window.old.len }
    ensures head { IfOk result (λ head. ForSome (D.content disk.old) (λ file.
        HeadIs (drop at file) head)) }
    ensures fits { IfOk result (λ head. Fits (window.old.len - at) head) }
    ensures untouched { IsUntouched D.content D.moment D.images D.images_since disk.old disk.new }
    ensures later { D.faults disk.old ≤ D.faults disk.new }
    ensures cause { IfErr result (HasReason (D.faults disk.old) (D.faults disk.new)) }
{
    reach(alloc, disk, window, at, HEAD as u32)?;
    let bytes = part_at(window, at, HEAD as u32);
    if bytes.is_empty() {
        return Ok(Head::End);
    }
    Ok(head_of(bytes, window.left(at)))
}
