//! A log: groups of batches in a file, to which one more may be added.
ghost use Rattle.std.specs.Prelude.{◌≡◌, ◌≤◌, ◌<◌, ◌^◌, ◌++◌, ◌∷◌, ◌↔◌, [], List, ℕ, None, Some};
ghost use Rattle.std.specs.Prelude.{length};
ghost use Rattle.std.specs.Prelude.{IsSome, IsErr, IsErrOf, IfSome, OnOk, IfOk, IfErr, MatchBool};
ghost use Rattle.std.specs.Option.{ForSome, is_some};
ghost use Rattle.gd_prim.specs.declared.Batch.{Batch};
ghost use Rattle.gd_bytes.specs.Disk.{LeavesOnly, IsUntouched};
ghost use Rattle.gd_bytes.specs.File.{MayStandFor};
ghost use Rattle.gd_bytes.specs.Group.{spelling};
ghost use Rattle.gd_codec.specs.Writable.{MayWrite};
ghost use Rattle.gd_journal.specs.Causes.{HasReason};
ghost use Rattle.gd_log.specs.State.{IsHeld, IsUnsure, HoldsBefore};

use gd_codec::encode_group;
use gd_disk::disk::Disk;
use gd_journal::fault::JournalFault;
use gd_journal::head::PAYLOAD_LIMIT;
use gd_journal::journal::Journal;
use gd_prim::Batch;
use std::alloc::Global;
use std::marker::Model;

/// A file whose last gate stands here or behind gets no further record. By its limits no store's
/// file is so long.
const FAR: u64 = 1 << 61;

/// A file of groups of batches. Contracts see its journal, and of that the disk, the offset of the
/// gate that ends the records, and the offset of the next gate while a group is in doubt. No record
/// is damaged.
#[derive(Drop)]
pub struct Log<D: Disk> {
    journal: Journal<D>,
}

impl<D: Disk> Model for Log<D> {
    ghost use Rattle.std.specs.Prelude.{◌≡◌, None};
    ghost use Rattle.gd_journal.specs.State.{Journaled};

    ghost Value = { Journaled D };

    ghost view = { λ log. log.journal };

    ghost invariant = { λ log. log.journal.damaged ≡ None };
}

/// Whether a group may be added behind a gate. `Memory`: the gate stands at 2 ^ 61 or behind, and it
/// comes there alone.
fn is_near(gate: u64) -> Result<(), JournalFault>
    ensures near { OnOk result (gate < 2 ^ 61) }
    ensures far { IfErr result (λ fault. (fault ≡ JournalFault.Memory) × (2 ^ 61 ≤ gate)) }
{
    if gate >= FAR {
        return Err(JournalFault::Memory);
    }
    Ok(())
}

impl<D: Disk> Log<D> {
    /// The log of a journal without damage.
    pub(crate) fn of(journal: Journal<D>) -> Log<D>
        requires { journal.damaged ≡ None }
        ensures { result ≡ journal }
    {
        Log { journal }
    }

    /// Whether a group is in doubt: a call of `append` answered `DiskFault`, and `settle` has not
    /// ended it since.
    pub fn in_doubt(&self) -> bool
        ensures { result ≡ is_some self.now.doubt }
    {
        self.journal.in_doubt()
    }

    /// The disk. It takes no memory, and leaves the file as it is.
    pub fn into_disk(self) -> D
        ensures { result ≡ self.disk }
    {
        self.journal.into_disk()
    }

    /// Adds a group of 1 to 256 batches, which count from then on, whenever a stop comes.
    /// `encode_group` says which batches have bytes; as a group they have at most `PAYLOAD_LIMIT`.
    /// The log stands for them as long as each may follow the batches of the log and those before
    /// it, within the limits of a store.
    ///
    /// At every moment of the call a stop leaves what stands for the batches before, followed by
    /// all or none of these. `Memory`: the bytes found no room in memory or on the disk, or the
    /// file has more than 2 ^ 61 bytes; nothing was changed. `DiskFault`: the disk failed, and the
    /// group is in doubt until `settle` tells.
    pub fn append(&mut self, alloc: Global, batches: &[Batch]) -> Result<(), JournalFault>
        requires group { MayWrite batches.now }
        requires short { length (spelling batches.now) ≤ PAYLOAD_LIMIT }
        requires no_doubt { self.old.doubt ≡ None }
        ensures added { OnOk result ((bs : List Batch)
            → HoldsBefore (D.content self.old.disk) (D.images self.old.disk) self.old.gate bs
            batches.now
            → IsHeld (D.content self.new.disk) (D.images self.new.disk) self.new.gate
            (bs ++ batches.now)) }
        ensures unsure { IfSome self.new.doubt (λ next. (bs : List Batch)
            → HoldsBefore (D.content self.old.disk) (D.images self.old.disk) self.old.gate bs
            batches.now
            → IsUnsure (D.content self.new.disk) (D.images self.new.disk) self.new.gate next bs
            batches.now) }
        ensures doubt { IsSome self.new.doubt ↔ IsErrOf result JournalFault.DiskFault }
        ensures moments { (bs : List Batch)
            → HoldsBefore (D.content self.old.disk) (D.images self.old.disk) self.old.gate bs
            batches.now
            → LeavesOnly D.moment D.images D.images_since self.old.disk self.new.disk
            (MayStandFor bs (batches.now ∷ [])) }
        ensures told { is_some (D.content self.new.disk) ≡ is_some (D.content self.old.disk) }
        ensures memory { IsErrOf result JournalFault.Memory → (self.new.gate ≡ self.old.gate)
            × IsUntouched D.content D.moment D.images D.images_since self.old.disk self.new.disk }
        ensures kept { IsErrOf result JournalFault.Memory → (bs : List Batch)
            → IsHeld (D.content self.old.disk) (D.images self.old.disk) self.old.gate bs
            → IsHeld (D.content self.new.disk) (D.images self.new.disk) self.new.gate bs }
        ensures later { D.faults self.old.disk ≤ D.faults self.new.disk }
        ensures cause { IfErr result (HasReason (D.faults self.old.disk) (D.faults self.new.disk)) }
    {
        is_near(self.journal.gate())?;
        let payload = encode_group(alloc, batches)?;
        self.journal.append(payload.as_slice())
    }

    /// Ends a doubt, and says whether the group counts.
    ///
    /// At every moment of the call a stop leaves what stands for the batches held, followed by all
    /// or none of those in doubt. `Memory`: there is no room on the disk, and nothing was changed.
    /// `DiskFault`: the disk failed. Either leaves the doubt.
    pub fn settle(&mut self) -> Result<bool, JournalFault>
        requires { IsSome self.old.doubt }
        ensures settled { IfOk result (λ counts. (next : ℕ) (bs : List Batch) (more : List Batch)
            → self.old.doubt ≡ Some next
            → IsUnsure (D.content self.old.disk) (D.images self.old.disk) self.old.gate next bs more
            → MatchBool counts
            (IsHeld (D.content self.new.disk) (D.images self.new.disk) self.new.gate (bs ++ more))
            (IsHeld (D.content self.new.disk) (D.images self.new.disk) self.new.gate bs)) }
        ensures ended { OnOk result (self.new.doubt ≡ None) }
        ensures left { IsErr result → (self.new.doubt ≡ self.old.doubt)
            × (self.new.gate ≡ self.old.gate) }
        ensures unsure { IsErr result → (next : ℕ) (bs : List Batch) (more : List Batch)
            → self.old.doubt ≡ Some next
            → IsUnsure (D.content self.old.disk) (D.images self.old.disk) self.old.gate next bs more
            → IsUnsure (D.content self.new.disk) (D.images self.new.disk) self.new.gate next bs
            more }
        ensures moments { (next : ℕ) (bs : List Batch) (more : List Batch)
            → self.old.doubt ≡ Some next
            → IsUnsure (D.content self.old.disk) (D.images self.old.disk) self.old.gate next bs more
            → LeavesOnly D.moment D.images D.images_since self.old.disk self.new.disk
            (MayStandFor bs (more ∷ [])) }
        ensures told { is_some (D.content self.new.disk) ≡ is_some (D.content self.old.disk) }
        ensures memory { IsErrOf result JournalFault.Memory
            → IsUntouched D.content D.moment D.images D.images_since self.old.disk self.new.disk }
        ensures later { D.faults self.old.disk ≤ D.faults self.new.disk }
        ensures cause { IfErr result (HasReason (D.faults self.old.disk) (D.faults self.new.disk)) }
    {
        self.journal.settle()
    }
}
