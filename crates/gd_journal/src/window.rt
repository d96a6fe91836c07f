//! Reading a file in large blocks.
ghost use Rattle.std.specs.Prelude.{◌≡◌, ◌+◌, ◌-◌, ◌≤◌, List, ℕ, Option, length, take, drop, true};
ghost use Rattle.std.specs.Prelude.{OnOk, IfOk, IfErr};
ghost use Rattle.std.specs.Option.{ForSome};
ghost use Rattle.gd_bytes.specs.Disk.{part, IsUntouched};
ghost use Rattle.gd_journal.specs.Causes.{HasReason};
ghost use Rattle.gd_journal.specs.Windows.{Shows};

use crate::fault::JournalFault;
use crate::payloads::PayloadBytes;
use gd_disk::disk::Disk;
use std::alloc::Global;

/// How many bytes are read at once, where no more are asked for.
const BLOCK: u32 = 65_536;

/// The block of a file of so many bytes that was read last, and its offset.
#[derive(Drop)]
pub(crate) struct Window {
    len: u64,
    at: u64,
    bytes: PayloadBytes,
}

impl Window {
    /// No block yet of a file of so many bytes. It takes no memory.
    pub(crate) fn none(alloc: Global, len: u64) -> Window
        ensures len { result.len ≡ len }
        ensures shows { (content : Option (List ℕ)) → ForSome content (λ file. len ≡ length file)
            → Shows content result }
    {
        Window {
            len,
            at: 0,
            bytes: PayloadBytes::from(Vec::new(alloc)),
        }
    }

    /// How many bytes the file has from an offset on.
    pub(crate) fn left(&self, at: u64) -> u64
        ensures { result ≡ self.now.len - at }
    {
        self.len.saturating_sub(at)
    }
}

/// Reads so many bytes from an offset on, or as many as there are.
fn read_block<D: Disk>(
    alloc: Global,
    disk: &mut D,
    at: u64,
    size: u64,
) -> Result<PayloadBytes, JournalFault>
    ensures bytes { IfOk result (λ p. ForSome (D.content disk.old) (λ file.
        p ≡ part at size file)) }
    ensures untouched { IsUntouched D.content D.moment D.images D.images_since disk.old disk.new }
    ensures later { D.faults disk.old ≤ D.faults disk.new }
    ensures cause { IfErr result (HasReason (D.faults disk.old) (D.faults disk.new)) }
{
    let mut bytes = vec![in alloc; 0; size as usize]?;
    let count = disk.read_at(at, bytes.as_mut_slice())?;
    bytes.truncate(count);
    Ok(PayloadBytes::from(bytes))
}

/// Whether the window has so many bytes from an offset on.
fn covers(window: &Window, at: u64, len: u32) -> bool
    ensures { result ≡ true → (window.now.at ≤ at)
        × (at - window.now.at + len ≤ length window.now.bytes) }
{
    let held = window.bytes.as_slice().len() as u64;
    window.at <= at && at - window.at <= held && u64::from(len) <= held - (at - window.at)
}

/// Moves the window, unless it has so many bytes from an offset on. No block is longer than what is
/// left of the file.
pub(crate) fn reach<D: Disk>(
    alloc: Global,
    disk: &mut D,
    window: &mut Window,
    at: u64,
    len: u32,
) -> Result<(), JournalFault>
    requires shows { Shows (D.content disk.old) window.old }
    ensures shows { Shows (D.content disk.new) window.new }
    ensures len { window.new.len ≡ window.old.len }
    ensures before { OnOk result (window.new.at ≤ at) }
    ensures there { OnOk result (ForSome (D.content disk.old) (λ file.
        take len (drop (at - window.new.at) window.new.bytes) ≡ part at len file)) }
    ensures untouched { IsUntouched D.content D.moment D.images D.images_since disk.old disk.new }
    ensures later { D.faults disk.old ≤ D.faults disk.new }
    ensures cause { IfErr result (HasReason (D.faults disk.old) (D.faults disk.new)) }
{
    if covers(window, at, len) {
        return Ok(());
    }
    let size = window.left(at).min(u64::from(len.max(BLOCK)));
    let bytes = read_block(alloc, disk, at, size)?;
    window.at = at;
    window.bytes = bytes;
    Ok(())
}

/// The bytes of the window from an offset on, so many or as many as it has.
pub(crate) fn part_at(window: &Window, at: u64, len: u32) -> &[u8]
    requires { window.now.at ≤ at }
    ensures { result.now ≡ take len (drop (at - window.now.at) window.now.bytes) }
{
    let bytes = window.bytes.as_slice();
    let from = ((at - window.at) as usize).min(bytes.len());
    let count = (len as usize).min(bytes.len() - from);
    &bytes[from..from + count]
}

/// Reads so many bytes from an offset on, or as many as there are.
pub(crate) fn read_part<D: Disk>(
    alloc: Global,
    disk: &mut D,
    window: &mut Window,
    at: u64,
    len: u32,
) -> Result<PayloadBytes, JournalFault>
    requires shows { Shows (D.content disk.old) window.old }
    ensures shows { Shows (D.content disk.new) window.new }
    ensures len { window.new.len ≡ window.old.len }
    ensures bytes { IfOk result (λ p. ForSome (D.content disk.old) (λ file. p ≡ part at len file)) }
    ensures untouched { IsUntouched D.content D.moment D.images D.images_since disk.old disk.new }
    ensures later { D.faults disk.old ≤ D.faults disk.new }
    ensures cause { IfErr result (HasReason (D.faults disk.old) (D.faults disk.new)) }
{
    reach(alloc, disk, window, at, len)?;
    let bytes = part_at(window, at, len).to_vec(alloc)?;
    Ok(PayloadBytes::from(bytes))
}
