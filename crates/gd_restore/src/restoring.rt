//! A text is restored to the store of a disk.
ghost use Rattle.std.specs.Prelude.{◌≡◌, ◌≢◌, ◌≤◌, ◌++◌, ◌^◌, ℕ, List, None, Some, OnOk, IfErr};
ghost use Rattle.std.specs.Prelude.{IfSome};
ghost use Rattle.std.specs.Option.{ForSome, is_some};
ghost use Rattle.std.specs.Io.KnownBytes.{IsAtEnd};
ghost use Rattle.gd_base.specs.Counts.{Rose};
ghost use Rattle.gd_prim.specs.declared.Batch.{Batch};
ghost use Rattle.gd_bytes.specs.File.{meaning};
ghost use Rattle.gd_dump.specs.declared.stop.RestoreFault.TheVariants as RestoreFault;
ghost use Rattle.gd_input.specs.Taken.{TakesAtLeast};
ghost use Rattle.gd_log.specs.Opening.{IsKept, Refuses};
ghost use Rattle.gd_restore.specs.Dumps.{Loads};
ghost use Rattle.gd_restore.specs.Gathered.{IsReady, IsReader, Upto, HasBegun, IsChecked, IsOther};
ghost use Rattle.gd_restore.specs.Gathered.{IsBadBehind, IsFaultBehind, HoldsAs, Tells};
ghost use Rattle.gd_restore.specs.Restores.{Leaves, StopsAs, EndsAs, RestoresAs, EndsBy, IsHalt};
ghost use Rattle.gd_restore.specs.Restores.{IfNotOpened, ActsOn};

use crate::gathering::Gathering;
use crate::stop::RestoreStop;
use gd_disk::disk::Disk;
use gd_dump::{DumpReader, RestoreFault};
use gd_input::reader::Reader;
use gd_log::opening::open_log;
use gd_log::stored::StoredLog;
use gd_outside::source::Source;
use std::alloc::Global;

/// Whether the text begins where the list ends, as far as its first line was read. `DumpFrom`: it
/// begins elsewhere.
fn check_first(have: u32, text: &DumpReader) -> Result<(), RestoreStop>
    requires { text.now.fault ≢ Some RestoreFault.Memory }
    ensures same { OnOk result (IsChecked have text.now) }
    ensures other { IfErr result (IsOther have text.now) }
{
    match text.first() {
        None => Ok(()),
        Some(first) => {
            if first == have {
                return Ok(());
            }
            Err(RestoreStop::DumpFrom { asked: first, have })
        }
    }
}

/// Why a run stops whose text is no dump: the first thing in the text decides, so another first
/// number and a batch that may not follow come before that.
fn stop_bad<D: Disk>(gathering: &mut Gathering<D>, text: &DumpReader, offset: u64) -> RestoreStop
    requires ready { IsReady gathering.old }
    requires sound { text.now.fault ≢ Some RestoreFault.Memory }
    ensures same { gathering.new ≡ gathering.old }
    ensures stops { (list : List Batch) (seen : List ℕ) (whole : List ℕ)
        (upto : Upto D.content D.images list seen gathering.old text.now)
        → IsBadBehind seen whole upto.batches offset
        → StopsAs result (Leaves D.content D.images gathering.old.stored.log.disk) list whole
        gathering.old.stored.batches }
    ensures cause { IsHalt result ⊥ }
{
    match check_first(gathering.have(), text) {
        Ok(()) => match gathering.check_group() {
            Ok(()) => RestoreStop::BadDump { offset },
            Err(stop) => stop,
        },
        Err(stop) => stop,
    }
}

/// Why a run stops whose reader has met this fault.
fn stop_at<D: Disk>(
    gathering: &mut Gathering<D>,
    text: &DumpReader,
    fault: RestoreFault,
) -> RestoreStop
    requires ready { IsReady gathering.old }
    requires sound { fault ≢ RestoreFault.Memory → text.now.fault ≢ Some RestoreFault.Memory }
    ensures same { gathering.new ≡ gathering.old }
    ensures stops { (list : List Batch) (seen : List ℕ) (whole : List ℕ)
        (upto : Upto D.content D.images list seen gathering.old text.now)
        → IsFaultBehind seen whole upto.batches fault
        → StopsAs result (Leaves D.content D.images gathering.old.stored.log.disk) list whole
        gathering.old.stored.batches }
    ensures cause { IsHalt result ⊥ }
{
    match fault {
        RestoreFault::BadDump { offset } => stop_bad(gathering, text, offset),
        RestoreFault::Memory => RestoreStop::Memory,
    }
}

/// Takes the next piece of the text.
fn take<D: Disk>(
    gathering: &mut Gathering<D>,
    text: &mut DumpReader,
    piece: &[u8],
    alloc: Global,
) -> Result<(), RestoreStop>
    requires ready { IsReady gathering.old }
    requires reader { IsReader text.old }
    ensures ready { OnOk result (IsReady gathering.new) }
    ensures reader { OnOk result (IsReader text.new) }
    ensures sound { OnOk result (text.new.fault ≢ Some RestoreFault.Memory) }
    ensures upto { OnOk result ((list : List Batch) (seen : List ℕ)
        → Upto D.content D.images list seen gathering.old text.old
        → Upto D.content D.images list (seen ++ piece.now) gathering.new text.new) }
    ensures stops { IfErr result (λ stop. (list : List Batch) (seen : List ℕ) (left : List ℕ)
        → Upto D.content D.images list seen gathering.old text.old
        → StopsAs stop (Leaves D.content D.images gathering.new.stored.log.disk) list
        ((seen ++ piece.now) ++ left) gathering.new.stored.batches) }
    ensures disk { ActsOn D.content D.faults result gathering.old.stored gathering.new.stored }
{
    match text.feed(piece) {
        Ok(batches) => match check_first(gathering.have(), text) {
            Ok(()) => gathering.gather_all(batches.into_vec(), alloc),
            Err(stop) => Err(stop),
        },
        Err(fault) => Err(stop_at(gathering, text, fault)),
    }
}

/// Ends the text.
fn finish<D: Disk>(
    gathering: &mut Gathering<D>,
    text: &DumpReader,
    alloc: Global,
) -> Result<(), RestoreStop>
    requires ready { IsReady gathering.old }
    requires sound { text.now.fault ≢ Some RestoreFault.Memory }
    ensures ends { (list : List Batch) (seen : List ℕ)
        → Upto D.content D.images list seen gathering.old text.now
        → EndsAs result (Leaves D.content D.images gathering.new.stored.log.disk) list seen
        gathering.new.stored.batches }
    ensures disk { ActsOn D.content D.faults result gathering.old.stored gathering.new.stored }
{
    match text.finish() {
        Ok(()) => match check_first(gathering.have(), text) {
            Ok(()) => gathering.append_rest(alloc),
            Err(stop) => Err(stop),
        },
        Err(fault) => Err(stop_at(gathering, text, fault)),
    }
}

/// Reads the input to its end, and restores it to the log.
fn run<D: Disk, S: Source>(
    gathering: &mut Gathering<D>,
    source: &mut S,
    alloc: Global,
) -> Result<(), RestoreStop>
    requires { HasBegun gathering.old }
    ensures ends { (Tells (D.content gathering.old.stored.log.disk)
        → HoldsAs D.content D.images gathering.old.stored None)
        → IfSome (S.left source.old)
        (λ text. EndsAs result (Leaves D.content D.images gathering.new.stored.log.disk)
        gathering.old.stored.batches text gathering.new.stored.batches) }
    ensures made { (Tells (D.content gathering.old.stored.log.disk)
        → HoldsAs D.content D.images gathering.old.stored None)
        → (text : List ℕ) × EndsAs result (Leaves D.content D.images gathering.new.stored.log.disk)
        gathering.old.stored.batches text gathering.new.stored.batches }
    ensures at_end { OnOk result (IsAtEnd (S.left source.new)) }
    ensures opened { IfNotOpened result (λ _. ⊥) }
    ensures told { is_some (D.content gathering.new.stored.log.disk) ≡ is_some
        (D.content gathering.old.stored.log.disk) }
    ensures later { D.faults gathering.old.stored.log.disk
        ≤ D.faults gathering.new.stored.log.disk }
    ensures cause { EndsBy result (Rose (S.faults source.old) (S.faults source.new))
        (Rose (D.faults gathering.old.stored.log.disk) (D.faults gathering.new.stored.log.disk))
        (TakesAtLeast (2 ^ 40) (S.left source.old) (S.left source.new) (S.given source.old)
        (S.given source.new)) }
{
    let mut input = Reader::new(alloc);
    let mut text = DumpReader::new(alloc);
    loop {
        match input.fill(source) {
            Ok(true) => {
                let piece = input.bytes();
                let count = piece.len();
                match take(gathering, &mut text, piece, alloc) {
                    Ok(()) => input.consume(count),
                    Err(stop) => return Err(stop),
                }
            }
            Ok(false) => return finish(gathering, &text, alloc),
            Err(fault) => return Err(RestoreStop::of_input(fault)),
        }
    }
}

/// Restores a text to the store that a disk holds: opens it, reads the input to its end, and
/// appends the batches of the text in groups, each as soon as it has 256 batches or at least 4,096
/// primitives; what is left at the end is appended as the last thing done. The disk comes back,
/// however it ends.
///
/// The first thing in the text that is refused decides. `DumpFrom`: its first number is not how
/// many batches the store has; nothing was appended. `Unfit`: this batch, by its number in the
/// store, may not follow those before it. `BadDump`: it is no dump. At the last two the whole
/// groups before that are appended, as at `ReadFault`, `TooMuch` and `Memory`; with `DiskFault` one
/// more group is in doubt. `Unopened`: the store was not opened, for want of memory too; nothing
/// was read.
pub fn restore<D: Disk, S: Source>(
    alloc: Global,
    disk: D,
    source: &mut S,
) -> (Result<(), RestoreStop>, D)
    // What the text has made of a list for which the file stands, where it is told; all that a stop
    // leaves of the disk stands for what that has become, with all or none of a group in doubt.
    ensures ends { IfSome (S.left source.old)
        (RestoresAs result.0 (Loads (D.content disk)) (Leaves D.content D.images result.1)) }

    // Whatever the source tells, some text has made it so.
    ensures made { (text : List ℕ)
        × RestoresAs result.0 (Loads (D.content disk)) (Leaves D.content D.images result.1) text }
    ensures at_end { OnOk result.0 (IsAtEnd (S.left source.new)) }

    // Where the store was not opened nothing is read, the file is kept, and what is said of it is
    // so.
    ensures unopened { IfNotOpened result.0 (λ _. source.new ≡ source.old) }
    ensures refused { ForSome (D.content disk)
        (λ file. IfNotOpened result.0
        (λ fault. IsKept D.content D.moment D.images D.images_since file disk result.1
        × Refuses fault (meaning file))) }
    ensures told { is_some (D.content result.1) ≡ is_some (D.content disk) }

    // Each fault has its cause.
    ensures caused { EndsBy result.0 (Rose (S.faults source.old) (S.faults source.new))
        (Rose (D.faults disk) (D.faults result.1))
        (TakesAtLeast (2 ^ 40) (S.left source.old) (S.left source.new) (S.given source.old)
        (S.given source.new)) }
    ensures later { D.faults disk ≤ D.faults result.1 }
{
    match open_log(alloc, disk) {
        Ok((log, store)) => {
            let mut gathering = Gathering::new(alloc, StoredLog::of(log, store));
            let end = run(&mut gathering, source, alloc);
            (end, gathering.into_disk())
        }
        Err((fault, disk)) => (Err(RestoreStop::Unopened(fault)), disk),
    }
}
