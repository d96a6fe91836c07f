//! Opening a file that a stop may have left.
ghost use Rattle.std.specs.Prelude.{◌≡◌, ◌≢◌, ◌+◌, ◌<◌, ◌≤◌, ◌↔◌, [], List, ℕ, None, Some, false};
ghost use Rattle.std.specs.Prelude.{◌||◌, bytes_eq, ◌-◌, ◌^◌, length, OnOk, OnErr, IfOk, IfErr};
ghost use Rattle.std.specs.Prelude.{IfSome, IsErrOf, MatchOption, MatchResult};
ghost use Rattle.std.specs.Option.{ForSome, is_some, option_map};
ghost use Rattle.gd_base.specs.Counts.{HasCause};
ghost use Rattle.gd_bytes.specs.Disk.{LeavesOnly, IsUntouched, Only, part};
ghost use Rattle.gd_bytes.specs.File as files;
ghost use Rattle.gd_journal.specs.Causes.{HasReason, MayRefuse};
ghost use Rattle.gd_journal.specs.Meaning.{held_by, HasVersion, IsDamagedAt, marked_by, with_mark};
ghost use Rattle.gd_journal.specs.Meaning.{whole, told_by, told_of, TellsOneOf};
ghost use Rattle.gd_journal.specs.Reading.{IsRead, ReadsOn};
ghost use Rattle.gd_journal.specs.Shape.{IsPayload, IsAtRest, IsClosed, IsRecord, IsWalked, EndsAt};
ghost use Rattle.gd_journal.specs.State.{AtGate, HasEnd, IsOpened, IsSettled, Keeps, Sees};
ghost use Rattle.gd_journal.specs.Versions.{version_seen, number_of};
ghost use Rattle.gd_journal.specs.Windows.{Shows};
ghost use Rattle.std.specs.List.{AllByRecursion};

use crate::fault::JournalFault;
use crate::head::{HEAD, Head, head_at};
use crate::journal::Journal;
use crate::payloads::Payload;
use crate::reading::{Next, Records};
use crate::record::{clear, write_record};
use crate::version::{MARK, Version, version_by};
use crate::window::{Window, part_at, reach};
use gd_disk::Failed;
use gd_disk::disk::Disk;
use std::alloc::Global;
use std::marker::Model;

/// The greatest number of bytes of an unfinished creation.
pub(crate) const UNFINISHED: u64 = 9;

/// The header of version 2, and a closed gate.
const FRESH: [u8; 9] = *b"GRAPHD2\n\0";

/// The record of the mark without its gate: its length, the mark, and the next closed gate.
const MARK_RECORD: [u8; 9] = [0, 0, 0, 4, 0, 0, 0, 2, 0];

/// A file of version 1 whose last gate stands here or behind gets no mark. By its limits no store's
/// file is so long.
const FAR: u64 = 1 << 61;

/// The version of a file, and where its records end: the offset of the gate there, and again where
/// a damaged record stands there; and whether texts may have languages behind them.
#[derive(Clone, Copy)]
pub(crate) struct Ending {
    version: Version,
    gate: u64,
    damaged: Option<u64>,
    marked: bool,
}

/// Makes an empty store of a file of at most 9 bytes.
fn create<D: Disk>(disk: &mut D) -> Result<(), Failed>
    requires short { ForSome (D.content disk.old) (λ file. length file ≤ 9) }
    requires calls { 3 ≤ D.calls_left disk.old }
    requires bytes { 9 ≤ D.bytes_left disk.old }
    ensures told { is_some (D.content disk.new) ≡ is_some (D.content disk.old) }
    ensures short { ((c : List ℕ) → D.images disk.old c → length c ≤ 9)
        → LeavesOnly D.moment D.images D.images_since disk.old disk.new (λ c. length c ≤ 9) }
    ensures rests { OnOk result (ForSome (D.content disk.old) (λ file. (c : List ℕ)
        → D.images disk.new c → IsAtRest files.second [] c)) }
    ensures cause { HasCause (D.faults disk.old) (D.faults disk.new) result }
{
    disk.write_at(0, &FRESH)?;
    disk.cut(9)?;
    disk.sync()?;
    Ok(())
}

/// The version of the file, by its header; none where it begins with no header.
fn read_version<D: Disk>(disk: &mut D) -> Result<Option<Version>, Failed>
    ensures value { IfOk result (λ v. ForSome (D.content disk.old) (λ file.
        option_map version_seen v ≡ files.version_of file)) }
    ensures untouched { IsUntouched D.content D.moment D.images D.images_since disk.old disk.new }
    ensures calls { D.calls_left disk.old ≤ D.calls_left disk.new }
    ensures cause { HasCause (D.faults disk.old) (D.faults disk.new) result }
{
    let mut bytes = [0; 8];
    let count = disk.read_at(0, &mut bytes)?;
    Ok(version_by(&bytes[..count]))
}

/// Whether texts may have languages behind a payload of so many bytes at this offset: they may
/// already before it, or it is the mark.
fn marked_behind<D: Disk>(
    alloc: Global,
    disk: &mut D,
    window: &mut Window,
    at: u64,
    size: u32,
    marked: bool,
) -> Result<bool, JournalFault>
    requires shows { Shows (D.content disk.old) window.old }
    ensures shows { Shows (D.content disk.new) window.new }
    ensures len { window.new.len ≡ window.old.len }
    ensures value { IfOk result (λ now. ForSome (D.content disk.old) (λ file.
        length (part at size file) ≡ size
        → now ≡ (marked || bytes_eq (part at size file) files.mark))) }
    ensures untouched { IsUntouched D.content D.moment D.images D.images_since disk.old disk.new }
    ensures later { D.faults disk.old ≤ D.faults disk.new }
    ensures cause { IfErr result (HasReason (D.faults disk.old) (D.faults disk.new)) }
{
    if marked {
        return Ok(true);
    }
    if size != 4 {
        return Ok(false);
    }
    reach(alloc, disk, window, at, size)?;
    Ok(part_at(window, at, size) == &MARK[..])
}

/// Goes from gate to gate, up to the one that ends the records of a file of this version.
fn scan<D: Disk>(
    alloc: Global,
    disk: &mut D,
    len: u64,
    version: Version,
) -> Result<Ending, JournalFault>
    requires long { 9 < len }
    requires len { ForSome (D.content disk.old) (λ file. len ≡ length file) }
    requires header { ForSome (D.content disk.old) (λ file.
        files.version_of file ≡ Some (version_seen version)) }
    ensures version { IfOk result (λ end. end.version ≡ version) }
    ensures walked { IfOk result (λ end. ForSome (D.content disk.old) (λ file. (ps : List (List ℕ))
        × IsWalked (version_seen version) ps end.gate file × EndsAt end.gate file end.damaged
        × (end.marked ≡ marked_by (version_seen version) ps))) }
    ensures within { IfOk result (λ end. end.gate < len) }
    ensures untouched { IsUntouched D.content D.moment D.images D.images_since disk.old disk.new }
    ensures later { D.faults disk.old ≤ D.faults disk.new }
    ensures cause { IfErr result (HasReason (D.faults disk.old) (D.faults disk.new)) }
{
    let mut window = Window::none(alloc, len);
    let mut gate = 8;
    let mut marked = version.is_marked();
    loop {
        match head_at(alloc, disk, &mut window, gate)? {
            Head::End => {
                return Ok(Ending {
                    version,
                    gate,
                    damaged: None,
                    marked,
                });
            }
            Head::Torn => {
                return Ok(Ending {
                    version,
                    gate,
                    damaged: Some(gate),
                    marked,
                });
            }
            Head::Record(size) => {
                let now = marked_behind(alloc, disk, &mut window, gate + HEAD, size, marked)?;
                marked = now;
                gate += u64::from(size) + HEAD;
            }
        }
    }
}

/// Makes certain what the file holds, and says how long it is.
fn begin<D: Disk>(disk: &mut D) -> Result<u64, JournalFault>
    ensures untouched { IsUntouched D.content D.moment D.images D.images_since disk.old disk.new }
    ensures only { OnOk result (ForSome (D.content disk.new) (λ file.
        Only file (D.images disk.new))) }
    ensures len { IfOk result (λ len. ForSome (D.content disk.new) (λ file. len ≡ length file)) }
    ensures later { D.faults disk.old ≤ D.faults disk.new }
    ensures cause { IfErr result (HasReason (D.faults disk.old) (D.faults disk.new)) }
{
    disk.reserve(1, 0)?;
    disk.sync()?;
    let len = disk.len()?;
    Ok(len)
}

/// Finds where the records of a file of so many bytes end.
fn find_end<D: Disk>(alloc: Global, disk: &mut D, len: u64) -> Result<Ending, JournalFault>
    requires len { ForSome (D.content disk.old) (λ file. len ≡ length file) }
    ensures ends { IfOk result (λ end. ForSome (D.content disk.old) (λ file. HasEnd file len
        (version_seen end.version) end.marked end.gate end.damaged)) }
    ensures not_store { IsErrOf result JournalFault.NotStore → ForSome (D.content disk.old) (λ file.
        held_by file ≡ None) }
    ensures untouched { IsUntouched D.content D.moment D.images D.images_since disk.old disk.new }
    ensures later { D.faults disk.old ≤ D.faults disk.new }
    ensures cause { IfErr result (MayRefuse (D.faults disk.old) (D.faults disk.new)) }
{
    if len <= UNFINISHED {
        return Ok(Ending {
            version: Version::Two,
            gate: 8,
            damaged: None,
            marked: true,
        });
    }
    match read_version(disk)? {
        None => Err(JournalFault::NotStore),
        Some(version) => {
            let end = scan(alloc, disk, len, version)?;
            Ok(end)
        }
    }
}

/// Cuts a file behind the closed gate that ends its records, and appends the mark where texts may
/// have no languages there yet. It gives the offset of the gate that ends the records then.
fn close<D: Disk>(disk: &mut D, gate: u64, marked: bool) -> Result<u64, Failed>
    requires reach { ForSome (D.content disk.old) (λ file. gate < length file) }
    requires near { ForSome (D.content disk.old) (λ file. gate < 2 ^ 64 - 1) }
    requires room { marked ≡ false → gate < 2 ^ 61 }
    requires calls { 6 ≤ D.calls_left disk.old }
    requires bytes { 10 ≤ D.bytes_left disk.old }
    ensures told { is_some (D.content disk.new) ≡ is_some (D.content disk.old) }
    ensures tells { (v : files.Version) (ps : List (List ℕ)) → AllByRecursion IsPayload ps
        → marked ≡ marked_by v ps
        → AtGate (D.content disk.old) (D.images disk.old) gate v ps (IsClosed v ps)
        → LeavesOnly D.moment D.images D.images_since disk.old disk.new (λ c.
        told_by c ≡ Some (told_of (whole ps) v)) }
    ensures settled { IfOk result (λ last. (v : files.Version) (ps : List (List ℕ))
        → AllByRecursion IsPayload ps
        → marked ≡ marked_by v ps
        → AtGate (D.content disk.old) (D.images disk.old) gate v ps (IsClosed v ps)
        → IsSettled (D.content disk.new) (D.images disk.new) last v (with_mark v ps)) }
    ensures cause { HasCause (D.faults disk.old) (D.faults disk.new) result }
{
    clear(disk, gate)?;
    if marked {
        return Ok(gate);
    }
    write_record(disk, gate, &MARK_RECORD)?;
    Ok(gate + 9)
}

/// Cuts a file of so many bytes behind the gate that ends its records, and appends the mark where
/// it is due. Of an unfinished creation it makes an empty store. A file with a damaged record is
/// left as it is. It gives the offset of the gate that ends the records then.
fn mend<D: Disk>(disk: &mut D, len: u64, end: Ending) -> Result<u64, Failed>
    requires seen { Sees (D.content disk.old) (D.images disk.old) len (version_seen end.version)
        end.marked end.gate end.damaged }
    requires room { end.marked ≡ false → end.gate < 2 ^ 61 }
    requires calls { 6 ≤ D.calls_left disk.old }
    requires bytes { 10 ≤ D.bytes_left disk.old }
    ensures told { is_some (D.content disk.new) ≡ is_some (D.content disk.old) }
    ensures tells { ForSome (D.content disk.old) (λ file.
        LeavesOnly D.moment D.images D.images_since disk.old disk.new (λ c.
        told_by c ≡ told_by file)) }
    ensures ends { IfOk result (λ gate. ForSome (D.content disk.old) (λ file.
        MatchOption end.damaged
        (IsOpened (D.content disk.new) (D.images disk.new) (version_seen end.version) gate file)
        (λ at. IsDamagedAt at file
        × IsUntouched D.content D.moment D.images D.images_since disk.old disk.new))) }
    ensures cause { HasCause (D.faults disk.old) (D.faults disk.new) result }
{
    if len <= UNFINISHED {
        create(disk)?;
        return Ok(end.gate);
    }
    if end.damaged.is_some() {
        return Ok(end.gate);
    }
    let gate = close(disk, end.gate, end.marked)?;
    Ok(gate)
}

/// A file that is being opened: what it holds is certain, and it was left as it is. Contracts see
/// its disk, the version that it has or is to get, its length, the offset of the gate that ends its
/// records, that of the first damaged record, and that of the gate that `next_payload` reads next.
#[derive(Drop)]
pub struct Opening<D: Disk> {
    disk: D,
    len: u64,
    end: Ending,
    records: Records,
    alloc: Global,
}

impl<D: Disk> Model for Opening<D> {
    ghost use Rattle.gd_journal.specs.State.{Looked, Sees};
    ghost use Rattle.gd_journal.specs.Reading.{IsReady, HasRead};
    ghost use Rattle.gd_journal.specs.Versions.{version_seen};

    ghost Value = { Looked D };

    ghost view = { λ o. record {
      disk = o.disk;
      version = version_seen o.end.version;
      len = o.len;
      gate = o.end.gate;
      damaged = o.end.damaged;
      next = o.records.at;
    } };

    ghost invariant = { λ o. Sees (D.content o.disk) (D.images o.disk) o.len
        (version_seen o.end.version) o.end.marked o.end.gate o.end.damaged
        × IsReady (D.content o.disk) o.len o.records.at o.records.window
        × HasRead (D.content o.disk) o.records.at };
}

/// Makes certain what the file holds, and finds where its records end.
fn see<D: Disk>(alloc: Global, disk: &mut D) -> Result<(u64, Ending), JournalFault>
    ensures seen { IfOk result (λ found. Sees (D.content disk.new) (D.images disk.new) found.0
        (version_seen found.1.version) found.1.marked found.1.gate found.1.damaged) }
    ensures not_store { IsErrOf result JournalFault.NotStore → ForSome (D.content disk.old) (λ file.
        held_by file ≡ None) }
    ensures untouched { IsUntouched D.content D.moment D.images D.images_since disk.old disk.new }
    ensures later { D.faults disk.old ≤ D.faults disk.new }
    ensures cause { IfErr result (MayRefuse (D.faults disk.old) (D.faults disk.new)) }
{
    let len = begin(disk)?;
    let end = find_end(alloc, disk, len)?;
    Ok((len, end))
}

/// Looks at a file that a stop may have left: begins with a sync, and finds the gate that ends its
/// records. Nothing is changed, whatever the answer; `Opening::finish` makes a journal of it.
///
/// An error hands the disk back. `NotStore`: the file has more than 9 bytes and begins with neither
/// header. `Memory`: there is no room on the disk. `DiskFault`: the disk failed. `Damaged` is never
/// answered.
pub fn look<D: Disk>(alloc: Global, disk: D) -> Result<Opening<D>, (JournalFault, D)>
    ensures untouched { MatchResult result
        (λ opening. IsUntouched D.content D.moment D.images D.images_since disk opening.disk)
        (λ refused. IsUntouched D.content D.moment D.images D.images_since disk refused.1) }
    ensures unread { IfOk result (λ opening. ForSome (D.content disk) (λ file.
        IsRead [] opening.next file)) }
    ensures not_store { IfErr result (λ refused. refused.0 ≡ JournalFault.NotStore
        → ForSome (D.content disk) (λ file. held_by file ≡ None)) }
    ensures later { MatchResult result
        (λ opening. D.faults disk ≤ D.faults opening.disk)
        (λ refused. D.faults disk ≤ D.faults refused.1) }
    ensures cause { IfErr result (λ refused. MayRefuse (D.faults disk)
        (D.faults refused.1) refused.0) }
{
    let mut disk = disk;
    match see(alloc, &mut disk) {
        Ok((len, end)) => Ok(Opening {
            disk,
            len,
            end,
            records: Records::none(alloc, len),
            alloc,
        }),
        Err(fault) => Err((fault, disk)),
    }
}

/// Whether a file is too long to get the mark behind this gate.
fn is_far(end: &Ending) -> bool
    ensures { result ≡ false → end.now.marked ≡ false → end.now.gate < 2 ^ 61 }
{
    !end.marked && end.gate >= FAR
}

/// What a finished opening leaves of its disk. It gives the offset of the gate that ends the
/// records then.
fn finish_on<D: Disk>(disk: &mut D, len: u64, end: Ending) -> Result<u64, JournalFault>
    requires seen { Sees (D.content disk.old) (D.images disk.old) len (version_seen end.version)
        end.marked end.gate end.damaged }
    ensures told { is_some (D.content disk.new) ≡ is_some (D.content disk.old) }
    ensures tells { ForSome (D.content disk.old) (λ file.
        LeavesOnly D.moment D.images D.images_since disk.old disk.new (λ c.
        told_by c ≡ told_by file)) }
    ensures ends { IfOk result (λ gate. ForSome (D.content disk.old) (λ file.
        MatchOption end.damaged
        (IsOpened (D.content disk.new) (D.images disk.new) (version_seen end.version) gate file)
        (λ at. IsDamagedAt at file
        × IsUntouched D.content D.moment D.images D.images_since disk.old disk.new))) }
    ensures keeps { IfOk result (λ gate.
        Keeps (D.content disk.new) (D.images disk.new)
        (version_seen end.version) gate None end.damaged) }
    ensures memory { IsErrOf result JournalFault.Memory
        → IsUntouched D.content D.moment D.images D.images_since disk.old disk.new }
    ensures later { D.faults disk.old ≤ D.faults disk.new }
    ensures cause { IfErr result (HasReason (D.faults disk.old) (D.faults disk.new)) }
{
    if is_far(&end) {
        return Err(JournalFault::Memory);
    }
    disk.reserve(6, 10)?;
    let gate = mend(disk, len, end)?;
    Ok(gate)
}

impl<D: Disk> Opening<D> {
    /// The disk. It takes no memory, and leaves the file as it is.
    pub fn into_disk(self) -> D
        ensures { result ≡ self.disk }
    {
        self.disk
    }

    /// The version of the file, 1 or 2, as its header says; of an unfinished creation the one that
    /// it is to get, 2. It takes no memory.
    pub fn version(&self) -> u8
        ensures number { result ≡ number_of self.now.version }
        ensures header { ForSome (D.content self.now.disk) (λ file.
            HasVersion self.now.version file) }
        ensures unfinished { ForSome (D.content self.now.disk) (λ file. length file ≤ 9
            → self.now.version ≡ files.second) }
    {
        self.end.version.number()
    }

    /// The offset of the first damaged record, where there is one.
    pub fn damaged(&self) -> Option<u64>
        ensures { result ≡ self.now.damaged }
    {
        self.end.damaged
    }

    /// Reads the next payload, from the first one on, with the offset of its gate. None: the gate
    /// that ends the records is reached, or the first damaged record, whose offset `damaged` tells.
    /// The file is left as it is. `DiskFault`: the disk failed. `Memory`: an allocation was
    /// refused. After either the same payload is the next one.
    pub fn next_payload(&mut self) -> Result<Option<Payload>, JournalFault>
        ensures next { IfOk result (λ next. ForSome (D.content self.old.disk) (λ file.
            (read : List (ℕ × List ℕ))
            → IsRead read self.old.next file
            → ReadsOn read file self.new.damaged self.new.next next)) }
        ensures onward { IfOk result (λ next. IfSome next (λ _. (self.old.next < self.new.next)
            × (self.new.next < self.new.len))) }
        ensures len { self.new.len ≡ self.old.len }
        ensures version { self.new.version ≡ self.old.version }
        ensures left { OnErr result ((self.new.damaged ≡ self.old.damaged)
            × (self.new.next ≡ self.old.next)) }
        ensures untouched { IsUntouched D.content D.moment D.images D.images_since self.old.disk
            self.new.disk }
        ensures later { D.faults self.old.disk ≤ D.faults self.new.disk }
        ensures cause { IfErr result (HasReason (D.faults self.old.disk) (D.faults self.new.disk)) }
    {
        if self.len <= UNFINISHED {
            return Ok(None);
        }
        match self.records.next(self.alloc, &mut self.disk)? {
            Next::End => Ok(None),
            Next::Torn(offset) => {
                self.end.damaged = Some(offset);
                Ok(None)
            }
            Next::Record(payload) => Ok(Some(payload)),
        }
    }

    /// Makes a journal of the file: of one of at most 9 bytes, an unfinished creation, an empty
    /// store of version 2; any other is cut behind the gate that ends its records, and one of
    /// version 1 none of whose payloads is the mark gets it as a record. A file with a damaged
    /// record is left as it is.
    ///
    /// An error hands the disk back. `Memory`: there is no room on the disk, or the file is too
    /// long to be marked; nothing was changed. `DiskFault`: the disk failed. At every moment of the
    /// call a stop leaves what tells the same as the file before it.
    pub fn finish(self) -> Result<Journal<D>, (JournalFault, D)>
        ensures opened { IfOk result (λ journal. ForSome (D.content self.disk) (λ file.
            MatchOption journal.damaged
            (IsOpened (D.content journal.disk) (D.images journal.disk)
            journal.version journal.gate file)
            (λ at. IsDamagedAt at file
            × IsUntouched D.content D.moment D.images D.images_since self.disk journal.disk))) }
        ensures no_doubt { IfOk result (λ journal. journal.doubt ≡ None) }
        ensures damaged { IfOk result (λ journal. journal.damaged ≡ self.damaged) }
        ensures version { IfOk result (λ journal. journal.version ≡ self.version) }
        ensures created { IfOk result (λ journal. ForSome (D.content self.disk) (λ file.
            length file ≤ 9
            → journal.version ≡ files.second)) }
        ensures moments { MatchResult result
            (λ journal. ForSome (D.content self.disk) (λ file.
            LeavesOnly D.moment D.images D.images_since self.disk journal.disk (λ c.
            told_by c ≡ told_by file)))
            (λ refused. ForSome (D.content self.disk) (λ file.
            LeavesOnly D.moment D.images D.images_since self.disk refused.1 (λ c.
            told_by c ≡ told_by file))) }
        ensures told { MatchResult result
            (λ journal. is_some (D.content journal.disk) ≡ is_some (D.content self.disk))
            (λ refused. is_some (D.content refused.1) ≡ is_some (D.content self.disk)) }
        ensures untouched { IfErr result (λ refused. refused.0 ≢ JournalFault.DiskFault
            → IsUntouched D.content D.moment D.images D.images_since self.disk refused.1) }
        ensures later { MatchResult result
            (λ journal.
            D.faults self.disk ≤ D.faults journal.disk)
            (λ refused. D.faults self.disk ≤ D.faults refused.1) }
        ensures cause { IfErr result (λ refused. HasReason (D.faults self.disk)
            (D.faults refused.1) refused.0) }
    {
        let Opening {
            disk,
            len,
            end,
            records: _,
            alloc,
        } = self;
        let mut disk = disk;
        match finish_on(&mut disk, len, end) {
            Ok(gate) => Ok(Journal::of(disk, end.version, gate, end.damaged, Vec::new(alloc))),
            Err(fault) => Err((fault, disk)),
        }
    }
}

/// Opens a file that a stop may have left, and begins with a sync. Of a file of at most 9 bytes, an
/// unfinished creation, it makes an empty store of version 2; any other it cuts behind the gate
/// that ends its records, and to one of version 1 none of whose payloads is the mark it appends the
/// mark. A file with a damaged record is left as it is, and `Journal::read_all` says where the
/// damage is.
///
/// An error hands the disk back. `NotStore`: the file has more than 9 bytes and begins with neither
/// header. `Memory`: there is no room on the disk, or the file is too long to be marked. Either
/// changes nothing. `DiskFault`: the disk failed. `Damaged` is never answered. At every moment of
/// the call a stop leaves what tells the same as a file that a stop might have left before it.
pub fn open_journal<D: Disk>(alloc: Global, disk: D) -> Result<Journal<D>, (JournalFault, D)>
    ensures opened { IfOk result (λ journal. ForSome (D.content disk) (λ file.
        MatchOption journal.damaged
        (IsOpened (D.content journal.disk) (D.images journal.disk)
        journal.version journal.gate file)
        (λ at. IsDamagedAt at file
        × IsUntouched D.content D.moment D.images D.images_since disk journal.disk))) }
    ensures no_doubt { IfOk result (λ journal. journal.doubt ≡ None) }
    ensures created { IfOk result (λ journal. ForSome (D.content disk) (λ file. length file ≤ 9
        → journal.version ≡ files.second)) }
    ensures moments { MatchResult result
        (λ journal. ForSome (D.content disk) (λ file.
        LeavesOnly D.moment D.images D.images_since disk journal.disk (TellsOneOf (D.images disk))))
        (λ refused. ForSome (D.content disk) (λ file.
        LeavesOnly D.moment D.images D.images_since disk refused.1 (TellsOneOf (D.images disk)))) }
    ensures not_store { IfErr result (λ refused. refused.0 ≡ JournalFault.NotStore
        → ForSome (D.content disk) (λ file. held_by file ≡ None)) }
    ensures untouched { IfErr result (λ refused. refused.0 ≢ JournalFault.DiskFault
        → IsUntouched D.content D.moment D.images D.images_since disk refused.1) }
    ensures told { MatchResult result
        (λ journal. is_some (D.content journal.disk) ≡ is_some (D.content disk))
        (λ refused. is_some (D.content refused.1) ≡ is_some (D.content disk)) }
    ensures later { MatchResult result
        (λ journal.
        D.faults disk ≤ D.faults journal.disk) (λ refused. D.faults disk ≤ D.faults refused.1) }
    ensures cause { IfErr result (λ refused. MayRefuse (D.faults disk)
        (D.faults refused.1) refused.0) }
{
    let opening = look(alloc, disk)?;
    let journal = opening.finish()?;
    Ok(journal)
}
