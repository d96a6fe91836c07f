//! A journal: payloads in a file, to which one more may be added.
ghost use Rattle.std.specs.Prelude.{◌≡◌, ◌+◌, ◌^◌, ◌<◌, ◌≤◌, ◌++◌, ◌∷◌, ◌↔◌, [], List, ℕ, None};
ghost use Rattle.std.specs.Prelude.{length, IsSome, IfSome, IsErrOf, OnOk, IfOk, IfErr, IsErr};
ghost use Rattle.std.specs.Prelude.{MatchBool, OnErr, Some};
ghost use Rattle.std.specs.Option.{ForSome, is_some};
ghost use Rattle.gd_bytes.specs.Disk.{LeavesOnly, IsUntouched};
ghost use Rattle.gd_bytes.specs.File as files;
ghost use Rattle.gd_journal.specs.Found.{found_in};
ghost use Rattle.gd_journal.specs.Causes.{HasReason};
ghost use Rattle.gd_journal.specs.Meaning.{held_by, MayStandFor};
ghost use Rattle.gd_journal.specs.State.{IsSettled, IsInDoubt, Keeps};
ghost use Rattle.gd_journal.specs.Versions.{version_seen, number_of};

use crate::fault::JournalFault;
use crate::head::PAYLOAD_LIMIT;
use crate::payloads::Payloads;
use crate::reading::read_payloads;
use crate::record::{settle_record, spell, write_record};
use crate::version::Version;
use gd_disk::disk::Disk;
use std::alloc::Global;
use std::marker::Model;

/// A file of payloads, each with a gate in front that says whether it counts. Contracts see its
/// disk, its version, the offset of the gate that ends its records, the offset of the next gate
/// while a payload is in doubt, and the offset of the first damaged record.
#[derive(Drop)]
pub struct Journal<D: Disk> {
    disk: D,
    version: Version,
    gate: u64,
    doubt: Option<u64>,
    damaged: Option<u64>,
    // the last record, without its gate: its memory is used again
    buffer: Vec<u8>,
}

impl<D: Disk> Model for Journal<D> {
    ghost use Rattle.gd_journal.specs.State.{Journaled, Keeps};
    ghost use Rattle.gd_journal.specs.Versions.{version_seen};

    ghost Value = { Journaled D };

    ghost view = { λ j. record {
      disk = j.disk;
      version = version_seen j.version;
      gate = j.gate;
      doubt = j.doubt;
      damaged = j.damaged;
    } };

    ghost invariant = { λ j. Keeps (D.content j.disk) (D.images j.disk)
        (version_seen j.version) j.gate j.doubt j.damaged };
}

impl<D: Disk> Journal<D> {
    /// A journal whose file was opened, and whose records end at this gate.
    pub(crate) fn of(
        disk: D,
        version: Version,
        gate: u64,
        damaged: Option<u64>,
        buffer: Vec<u8>,
    ) -> Journal<D>
        requires { Keeps (D.content disk) (D.images disk) (version_seen version) gate None damaged }
        ensures { result ≡ record {
          disk = disk;
          version = version_seen version;
          gate = gate;
          doubt = None;
          damaged = damaged;
        } }
    {
        Journal {
            disk,
            version,
            gate,
            doubt: None,
            damaged,
            buffer,
        }
    }

    /// The version of the file, 1 or 2, as its header says. It takes no memory.
    pub fn version(&self) -> u8
        ensures number { result ≡ number_of self.now.version }
        ensures header { ForSome (D.content self.now.disk) (λ file.
            files.version_of file ≡ Some self.now.version) }
    {
        self.version.number()
    }

    /// The offset of the gate that ends the records. Where there is no doubt and no damage it is
    /// the file's last byte.
    pub fn gate(&self) -> u64
        ensures gate { result ≡ self.now.gate }
        ensures last { ForSome (D.content self.now.disk) (λ file. self.now.doubt ≡ None
            → self.now.damaged ≡ None
            → length file ≡ self.now.gate + 1) }
    {
        self.gate
    }

    /// Whether a payload is in doubt: a call of `append` answered `DiskFault`, and `settle` has not
    /// ended it since.
    pub fn in_doubt(&self) -> bool
        ensures { result ≡ is_some self.now.doubt }
    {
        self.doubt.is_some()
    }

    /// The disk. It takes no memory, and leaves the file as it is.
    pub fn into_disk(self) -> D
        ensures { result ≡ self.disk }
    {
        self.disk
    }

    /// Reads each payload with the offset of its gate, up to the gate that ends the records or to
    /// the first damaged record: one that is not there in full, or whose length is 0 or above
    /// `PAYLOAD_LIMIT`. Its offset is told too. Nothing is changed. `DiskFault`: the disk failed.
    /// `Memory`: an allocation was refused.
    pub fn read_all(&mut self, alloc: Global) -> Result<Payloads, JournalFault>
        ensures found { IfOk result (λ found. ForSome (D.content self.old.disk) (λ file.
            held_by file ≡ Some (found_in found))) }
        ensures damaged { IfOk result (λ found. self.new.damaged ≡ found.damaged) }
        ensures same { (self.new.gate ≡ self.old.gate) × (self.new.doubt ≡ self.old.doubt) }
        ensures version { self.new.version ≡ self.old.version }
        ensures left { OnErr result (self.new.damaged ≡ self.old.damaged) }
        ensures untouched { IsUntouched D.content D.moment D.images D.images_since self.old.disk
            self.new.disk }
        ensures later { D.faults self.old.disk ≤ D.faults self.new.disk }
        ensures cause { IfErr result (HasReason (D.faults self.old.disk) (D.faults self.new.disk)) }
    {
        let found = read_payloads(alloc, &mut self.disk)?;
        self.damaged = found.damaged.or(self.damaged);
        Ok(Payloads {
            list: found.list,
            damaged: self.damaged,
        })
    }

    /// Adds a payload of 1 to `PAYLOAD_LIMIT` bytes: writes its length, itself and the next closed
    /// gate behind the closed gate that ends the file, in one write, syncs, opens that gate, and
    /// syncs again. Then it counts, whenever a stop comes. These bytes are kept until the next
    /// call, so that it finds room for as many.
    ///
    /// At every moment of the call a stop leaves what stands for the payloads before, or for these
    /// and the new one. `Memory`: there is no room in memory or on the disk, and nothing was
    /// changed. `DiskFault`: the disk failed, and the payload is in doubt until `settle` tells.
    pub fn append(&mut self, payload: &[u8]) -> Result<(), JournalFault>
        requires some { 1 ≤ length payload.now }
        requires short { length payload.now ≤ PAYLOAD_LIMIT }
        requires no_doubt { self.old.doubt ≡ None }
        requires undamaged { self.old.damaged ≡ None }
        requires near { ForSome (D.content self.old.disk) (λ file. length file < 2 ^ 62) }
        ensures added { OnOk result ((v : files.Version) (ps : List (List ℕ))
            → IsSettled (D.content self.old.disk) (D.images self.old.disk) self.old.gate v ps
            → IsSettled (D.content self.new.disk) (D.images self.new.disk) self.new.gate v
            (ps ++ payload.now ∷ [])) }
        ensures doubtful { IfSome self.new.doubt (λ next. (v : files.Version) (ps : List (List ℕ))
            → IsSettled (D.content self.old.disk) (D.images self.old.disk) self.old.gate v ps
            → IsInDoubt (D.content self.new.disk)
            (D.images self.new.disk) self.new.gate next v ps payload.now) }
        ensures doubt { IsSome self.new.doubt ↔ IsErrOf result JournalFault.DiskFault }
        ensures undamaged { self.new.damaged ≡ None }
        ensures version { self.new.version ≡ self.old.version }
        ensures moments { (v : files.Version) (ps : List (List ℕ))
            → IsSettled (D.content self.old.disk) (D.images self.old.disk) self.old.gate v ps
            → LeavesOnly D.moment D.images D.images_since self.old.disk self.new.disk
            (MayStandFor v ps payload.now) }
        ensures told { is_some (D.content self.new.disk) ≡ is_some (D.content self.old.disk) }
        ensures memory { IsErrOf result JournalFault.Memory → (self.new.gate ≡ self.old.gate)
            × IsUntouched D.content D.moment D.images D.images_since self.old.disk self.new.disk }
        ensures later { D.faults self.old.disk ≤ D.faults self.new.disk }
        ensures cause { IfErr result (HasReason (D.faults self.old.disk) (D.faults self.new.disk)) }
    {
        let size = payload.len() as u64;
        spell(&mut self.buffer, payload)?;
        self.disk.reserve(4, size + 6)?;
        let next = self.gate.saturating_add(size + 5);
        self.doubt = Some(next);
        write_record(&mut self.disk, self.gate, self.buffer.as_slice())?;
        self.gate = next;
        self.doubt = None;
        Ok(())
    }

    /// Ends a doubt, and says whether the payload counts: syncs, and reads its gate. Where that is
    /// closed, the file is cut behind it, and synced again.
    ///
    /// At every moment of the call a stop leaves what stands for the payloads with the one in doubt
    /// or without it. `Memory`: there is no room on the disk, and nothing was changed. `DiskFault`:
    /// the disk failed. Either leaves the doubt.
    pub fn settle(&mut self) -> Result<bool, JournalFault>
        requires { IsSome self.old.doubt }
        ensures settled { IfOk result (λ counts. (next : ℕ) (v : files.Version) (ps : List (List ℕ))
            (p : List ℕ) → self.old.doubt ≡ Some next
            → IsInDoubt (D.content self.old.disk) (D.images self.old.disk) self.old.gate next v ps p
            → MatchBool counts
            (IsSettled (D.content self.new.disk) (D.images self.new.disk) self.new.gate v
            (ps ++ p ∷ []))
            (IsSettled (D.content self.new.disk) (D.images self.new.disk) self.new.gate v ps)) }
        ensures ended { OnOk result (self.new.doubt ≡ None) }
        ensures left { IsErr result → (self.new.doubt ≡ self.old.doubt)
            × (self.new.gate ≡ self.old.gate) }
        ensures doubtful { IsErr result
            → (next : ℕ) (v : files.Version) (ps : List (List ℕ)) (p : List ℕ)
            → self.old.doubt ≡ Some next
            → IsInDoubt (D.content self.old.disk) (D.images self.old.disk) self.old.gate next v ps p
            → IsInDoubt (D.content self.new.disk)
            (D.images self.new.disk) self.new.gate next v ps p }
        ensures same { self.new.damaged ≡ self.old.damaged }
        ensures version { self.new.version ≡ self.old.version }
        ensures moments { (next : ℕ) (v : files.Version) (ps : List (List ℕ)) (p : List ℕ)
            → self.old.doubt ≡ Some next
            → IsInDoubt (D.content self.old.disk) (D.images self.old.disk) self.old.gate next v ps p
            → LeavesOnly D.moment D.images D.images_since self.old.disk self.new.disk
            (MayStandFor v ps p) }
        ensures told { is_some (D.content self.new.disk) ≡ is_some (D.content self.old.disk) }
        ensures memory { IsErrOf result JournalFault.Memory
            → IsUntouched D.content D.moment D.images D.images_since self.old.disk self.new.disk }
        ensures later { D.faults self.old.disk ≤ D.faults self.new.disk }
        ensures cause { IfErr result (HasReason (D.faults self.old.disk) (D.faults self.new.disk)) }
    {
        if settle_record(&mut self.disk, self.gate)? {
            self.gate = self.doubt.unwrap();
            self.doubt = None;
            return Ok(true);
        }
        self.doubt = None;
        Ok(false)
    }
}
