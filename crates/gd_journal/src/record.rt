//! Writing a record behind the closed gate that ends a file, and cutting the file there.
ghost use Rattle.std.specs.Prelude.{◌≡◌, ◌+◌, ◌-◌, ◌^◌, ◌<◌, ◌≤◌, ◌++◌, ◌∷◌, ◌==◌, [], List, ℕ};
ghost use Rattle.std.specs.Prelude.{length, slice_index, OnOk, IfOk, IfErr, IsErrOf, MatchBool};
ghost use Rattle.std.specs.Option.{ForSome, is_some};
ghost use Rattle.gd_base.specs.Counts.{HasCause};
ghost use Rattle.gd_bytes.specs.Disk.{LeavesOnly, IsUntouched, Only};
ghost use Rattle.gd_bytes.specs.File as files;
ghost use Rattle.gd_journal.specs.Causes.{HasReason};
ghost use Rattle.gd_journal.specs.Shape.{spelled, IsClosed, IsAtRest, IsStaged, IsDoubtful};
ghost use Rattle.gd_journal.specs.State.{AtGate};

use crate::fault::JournalFault;
use gd_base::memory::Memory;
use gd_disk::Failed;
use gd_disk::disk::Disk;

/// Puts a payload behind its length and in front of the next closed gate into a buffer, which holds
/// these bytes alone then.
pub(crate) fn spell(buffer: &mut Vec<u8>, payload: &[u8]) -> Result<(), Memory>
    requires { length payload.now ≤ 268435456 }
    ensures { OnOk result (buffer.new.items ≡ spelled payload.now ++ 0 ∷ []) }
{
    buffer.clear();
    buffer.reserve(payload.len() + 5)?;
    buffer.extend_from_slice(&(payload.len() as u32).to_be_bytes())?;
    buffer.extend_from_slice(payload)?;
    buffer.push(0)?;
    Ok(())
}

/// Writes a length, a payload and the next closed gate behind the closed gate that ends the file,
/// and syncs.
fn stage<D: Disk>(disk: &mut D, gate: u64, bytes: &[u8]) -> Result<(), Failed>
    requires reach { ForSome (D.content disk.old) (λ file. gate < length file) }
    requires near { ForSome (D.content disk.old) (λ file. gate < 2 ^ 62) }
    requires calls { 2 ≤ D.calls_left disk.old }
    requires bytes { length bytes.now ≤ D.bytes_left disk.old }
    ensures told { is_some (D.content disk.new) ≡ is_some (D.content disk.old) }
    ensures reach { ForSome (D.content disk.new) (λ file. gate < length file) }
    ensures closed { (v : files.Version) (ps : List (List ℕ))
        → AtGate (D.content disk.old) (D.images disk.old) gate v ps (IsClosed v ps)
        → LeavesOnly D.moment D.images D.images_since disk.old disk.new (IsClosed v ps) }
    ensures staged { OnOk result ((v : files.Version) (ps : List (List ℕ)) (p : List ℕ)
        → bytes.now ≡ spelled p ++ 0 ∷ []
        → AtGate (D.content disk.old) (D.images disk.old) gate v ps (IsAtRest v ps)
        → (c : List ℕ) → D.images disk.new c → IsStaged v ps p c) }
    ensures calls { D.calls_left disk.old ≤ D.calls_left disk.new + 2 }
    ensures bytes { D.bytes_left disk.old ≤ D.bytes_left disk.new + length bytes.now }
    ensures cause { HasCause (D.faults disk.old) (D.faults disk.new) result }
{
    disk.write_at(gate.saturating_add(1), bytes)?;
    disk.sync()?;
    Ok(())
}

/// Opens the gate in front of a payload that stands in full behind it, and syncs.
fn open_gate<D: Disk>(disk: &mut D, gate: u64) -> Result<(), Failed>
    requires reach { ForSome (D.content disk.old) (λ file. gate < length file) }
    requires calls { 2 ≤ D.calls_left disk.old }
    requires bytes { 1 ≤ D.bytes_left disk.old }
    ensures told { is_some (D.content disk.new) ≡ is_some (D.content disk.old) }
    ensures doubtful { (v : files.Version) (ps : List (List ℕ)) (p : List ℕ)
        → AtGate (D.content disk.old) (D.images disk.old) gate v ps (IsStaged v ps p)
        → LeavesOnly D.moment D.images D.images_since disk.old disk.new (IsDoubtful v ps p) }
    ensures opened { OnOk result ((v : files.Version) (ps : List (List ℕ)) (p : List ℕ)
        → AtGate (D.content disk.old) (D.images disk.old) gate v ps (IsStaged v ps p)
        → (c : List ℕ) → D.images disk.new c → IsAtRest v (ps ++ p ∷ []) c) }
    ensures cause { HasCause (D.faults disk.old) (D.faults disk.new) result }
{
    disk.write_at(gate, &[1])?;
    disk.sync()?;
    Ok(())
}

/// Writes a record behind the closed gate that ends the file: first all but its gate, in one write,
/// and then its gate.
pub(crate) fn write_record<D: Disk>(disk: &mut D, gate: u64, bytes: &[u8]) -> Result<(), Failed>
    requires reach { ForSome (D.content disk.old) (λ file. gate < length file) }
    requires near { ForSome (D.content disk.old) (λ file. gate < 2 ^ 62) }
    requires calls { 4 ≤ D.calls_left disk.old }
    requires bytes { length bytes.now + 1 ≤ D.bytes_left disk.old }
    ensures told { is_some (D.content disk.new) ≡ is_some (D.content disk.old) }
    ensures doubtful { (v : files.Version) (ps : List (List ℕ)) (p : List ℕ)
        → bytes.now ≡ spelled p ++ 0 ∷ []
        → AtGate (D.content disk.old) (D.images disk.old) gate v ps (IsAtRest v ps)
        → LeavesOnly D.moment D.images D.images_since disk.old disk.new (IsDoubtful v ps p) }
    ensures opened { OnOk result ((v : files.Version) (ps : List (List ℕ)) (p : List ℕ)
        → bytes.now ≡ spelled p ++ 0 ∷ []
        → AtGate (D.content disk.old) (D.images disk.old) gate v ps (IsAtRest v ps)
        → (c : List ℕ) → D.images disk.new c → IsAtRest v (ps ++ p ∷ []) c) }
    ensures cause { HasCause (D.faults disk.old) (D.faults disk.new) result }
{
    stage(disk, gate, bytes)?;
    open_gate(disk, gate)?;
    Ok(())
}

/// Cuts the file behind a closed gate, and syncs.
pub(crate) fn clear<D: Disk>(disk: &mut D, gate: u64) -> Result<(), Failed>
    requires reach { ForSome (D.content disk.old) (λ file. gate < length file) }
    requires near { ForSome (D.content disk.old) (λ file. gate < 2 ^ 64 - 1) }
    requires calls { 2 ≤ D.calls_left disk.old }
    ensures told { is_some (D.content disk.new) ≡ is_some (D.content disk.old) }
    ensures closed { (v : files.Version) (ps : List (List ℕ))
        → AtGate (D.content disk.old) (D.images disk.old) gate v ps (IsClosed v ps)
        → LeavesOnly D.moment D.images D.images_since disk.old disk.new (IsClosed v ps) }
    ensures rests { OnOk result ((v : files.Version) (ps : List (List ℕ))
        → AtGate (D.content disk.old) (D.images disk.old) gate v ps (IsClosed v ps)
        → (c : List ℕ) → D.images disk.new c → IsAtRest v ps c) }
    ensures reach { OnOk result (ForSome (D.content disk.new) (λ file. gate < length file)) }
    ensures calls { D.calls_left disk.old ≤ D.calls_left disk.new + 2 }
    ensures bytes { D.bytes_left disk.old ≤ D.bytes_left disk.new }
    ensures cause { HasCause (D.faults disk.old) (D.faults disk.new) result }
{
    disk.cut(gate.saturating_add(1))?;
    disk.sync()?;
    Ok(())
}

/// Whether the gate is open, once that is certain: syncs, and reads the gate.
fn is_open<D: Disk>(disk: &mut D, gate: u64) -> Result<bool, JournalFault>
    ensures untouched { IsUntouched D.content D.moment D.images D.images_since disk.old disk.new }
    ensures only { OnOk result (ForSome (D.content disk.new) (λ file.
        Only file (D.images disk.new))) }
    ensures value { IfOk result (λ counts. ForSome (D.content disk.new) (λ file.
        counts ≡ (slice_index file gate == 1))) }
    ensures calls { OnOk result (2 ≤ D.calls_left disk.new) }
    ensures later { D.faults disk.old ≤ D.faults disk.new }
    ensures cause { IfErr result (HasReason (D.faults disk.old) (D.faults disk.new)) }
{
    disk.reserve(3, 0)?;
    disk.sync()?;
    let mut byte = [0];
    let count = disk.read_at(gate, &mut byte)?;
    Ok(count == 1 && byte[0] == 1)
}

/// Ends a doubt: where the gate is open the payload behind it counts, and else the file is cut
/// behind the gate.
pub(crate) fn settle_record<D: Disk>(disk: &mut D, gate: u64) -> Result<bool, JournalFault>
    requires reach { ForSome (D.content disk.old) (λ file. gate < length file) }
    requires near { ForSome (D.content disk.old) (λ file. gate < 2 ^ 64 - 1) }
    ensures told { is_some (D.content disk.new) ≡ is_some (D.content disk.old) }
    ensures doubtful { (v : files.Version) (ps : List (List ℕ)) (p : List ℕ)
        → AtGate (D.content disk.old) (D.images disk.old) gate v ps (IsDoubtful v ps p)
        → LeavesOnly D.moment D.images D.images_since disk.old disk.new (IsDoubtful v ps p) }
    ensures settled { IfOk result (λ counts. (v : files.Version) (ps : List (List ℕ)) (p : List ℕ)
        → AtGate (D.content disk.old) (D.images disk.old) gate v ps (IsDoubtful v ps p)
        → (c : List ℕ) → D.images disk.new c → MatchBool counts (IsAtRest v (ps ++ p ∷ []) c)
        (IsAtRest v ps c)) }
    ensures memory { IsErrOf result JournalFault.Memory
        → IsUntouched D.content D.moment D.images D.images_since disk.old disk.new }
    ensures later { D.faults disk.old ≤ D.faults disk.new }
    ensures cause { IfErr result (HasReason (D.faults disk.old) (D.faults disk.new)) }
{
    if is_open(disk, gate)? {
        return Ok(true);
    }
    clear(disk, gate)?;
    Ok(false)
}
