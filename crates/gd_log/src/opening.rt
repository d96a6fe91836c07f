//! Opening a file of batches.
ghost use Rattle.std.specs.Prelude.{◌≡◌, ◌≢◌, ◌≤◌, [], None, IfOk, IfErr, OnOk, MatchResult};
ghost use Rattle.std.specs.Option.{ForSome, is_some};
ghost use Rattle.gd_base.specs.Counts.{Rose};
ghost use Rattle.gd_bytes.specs.Disk.{LeavesOnly, IsUntouched};
ghost use Rattle.gd_bytes.specs.File.{meaning, StandsFor};
ghost use Rattle.gd_log.specs.State.{IsHeld};
ghost use Rattle.gd_journal.specs.Causes.{HasReason};
ghost use Rattle.gd_journal.specs.Meaning.{told_by};
ghost use Rattle.gd_journal.specs.Reading.{IsRead};
ghost use Rattle.std.specs.List.{AllByRecursion};
ghost use Rattle.gd_log.specs.Stored.{IsEarly};
ghost use Rattle.gd_log.specs.Opening.{MeansOneOf, Refuses, Loads, IsKept};

use crate::log::Log;
use crate::replay::replay;
use gd_disk::disk::Disk;
use gd_journal::fault::JournalFault;
use gd_journal::opening::{Opening, look};
use gd_store::store::Store;
use std::alloc::Global;

/// Reads the payloads of a file one by one, and makes the store for which they stand. It answers
/// `Damaged` as `replay`.
fn load<D: Disk>(alloc: Global, opening: &mut Opening<D>) -> Result<Store, JournalFault>
    requires { ForSome (D.content opening.old.disk) (λ file. IsRead [] opening.old.next file) }
    ensures all { IfOk result (λ store. ForSome (D.content opening.old.disk) (λ file.
        Loads opening.old.version file store)) }
    ensures undamaged { OnOk result (opening.new.damaged ≡ None) }
    ensures version { opening.new.version ≡ opening.old.version }
    ensures early { IfOk result (λ store. AllByRecursion IsEarly store) }
    ensures refused { IfErr result (λ fault. ForSome (D.content opening.old.disk) (λ file.
        Refuses fault (meaning file))) }
    ensures not_store { IfErr result (λ fault. fault ≢ JournalFault.NotStore) }
    ensures untouched { IsUntouched D.content D.moment D.images D.images_since opening.old.disk
        opening.new.disk }
    ensures later { D.faults opening.old.disk ≤ D.faults opening.new.disk }
    ensures cause { IfErr result (λ fault. fault ≡ JournalFault.DiskFault
        → Rose (D.faults opening.old.disk) (D.faults opening.new.disk)) }
{
    let mut store = Store::new(alloc)?;
    match replay(alloc, opening, &mut store) {
        Ok(()) => Ok(store),
        Err(fault) => {
            drop(store);
            Err(fault)
        }
    }
}

/// Makes a log of a file whose batches these are.
fn complete<D: Disk>(
    opening: Opening<D>,
    store: Store,
) -> Result<(Log<D>, Store), (JournalFault, D)>
    requires undamaged { opening.damaged ≡ None }
    ensures store { IfOk result (λ opened. opened.1 ≡ store) }
    ensures held { IfOk result (λ opened. ForSome (D.content opening.disk) (λ file.
        Loads opening.version file store
        → IsHeld (D.content opened.0.disk) (D.images opened.0.disk) opened.0.gate store)) }
    ensures no_doubt { IfOk result (λ opened. opened.0.doubt ≡ None) }
    ensures moments { MatchResult result
        (λ opened. ForSome (D.content opening.disk) (λ file.
        LeavesOnly D.moment D.images D.images_since opening.disk opened.0.disk (λ c.
        told_by c ≡ told_by file)))
        (λ refused. ForSome (D.content opening.disk) (λ file.
        LeavesOnly D.moment D.images D.images_since opening.disk refused.1 (λ c.
        told_by c ≡ told_by file))) }
    ensures told { MatchResult result
        (λ opened. is_some (D.content opened.0.disk) ≡ is_some (D.content opening.disk))
        (λ refused. is_some (D.content refused.1) ≡ is_some (D.content opening.disk)) }
    ensures untouched { IfErr result (λ refused. refused.0 ≢ JournalFault.DiskFault
        → IsUntouched D.content D.moment D.images D.images_since opening.disk refused.1) }
    ensures later { MatchResult result
        (λ opened.
        D.faults opening.disk ≤ D.faults opened.0.disk)
        (λ refused. D.faults opening.disk ≤ D.faults refused.1) }
    ensures cause { IfErr result (λ refused. HasReason (D.faults opening.disk)
        (D.faults refused.1) refused.0) }
{
    match opening.finish() {
        Ok(journal) => Ok((Log::of(journal), store)),
        Err(refused) => {
            drop(store);
            Err(refused)
        }
    }
}

/// Opens a file that a stop may have left, and makes the store that stands for its batches. The
/// whole file is read, once, before anything in it is changed. Then of a file of at most 9 bytes,
/// an unfinished creation, an empty store of version 2 is made; any other is cut behind the gate
/// that ends its records, and one of version 1 without the mark gets it as a record, so that texts
/// may have languages from then on. So a file that stands for no list of batches is left alone,
/// whatever the answer.
///
/// An error hands the disk back. `NotStore`: the file has more than 9 bytes and begins with no
/// header. `Damaged`: the record whose gate stands at `offset` is the first that is not there in
/// full, has a length of 0 or above `PAYLOAD_LIMIT`, is neither a group of batches nor a mark that
/// may stand there, has a text with a language before the mark of a file of version 1, or has a
/// batch that is not well formed after those before it or passes a limit of a store. `Memory`: an
/// allocation was refused, or there is no room on the disk. These change nothing. `DiskFault`: the
/// disk failed; what stood for a list of batches may be cut already or have the mark, and stands
/// for that list. At every moment of the call a stop leaves what means the same as a file that a
/// stop might have left before it.
pub fn open_log<D: Disk>(alloc: Global, disk: D) -> Result<(Log<D>, Store), (JournalFault, D)>
    ensures means { MatchResult result
        (λ opened. ForSome (D.content disk) (λ file. StandsFor file opened.1))
        (λ refused. ForSome (D.content disk) (λ file. Refuses refused.0 (meaning file))) }
    ensures held { IfOk result (λ opened. ForSome (D.content disk) (λ file.
        IsHeld (D.content opened.0.disk) (D.images opened.0.disk) opened.0.gate opened.1)) }
    ensures no_doubt { IfOk result (λ opened. opened.0.doubt ≡ None) }

    // Each batch, also an empty one, is of a moment of a clock.
    ensures early { IfOk result (λ opened. AllByRecursion IsEarly opened.1) }
    ensures moments { MatchResult result
        (λ opened. ForSome (D.content disk) (λ file.
        LeavesOnly D.moment D.images D.images_since disk opened.0.disk (MeansOneOf
        (D.images disk))))
        (λ refused. ForSome (D.content disk) (λ file.
        LeavesOnly D.moment D.images D.images_since disk refused.1 (MeansOneOf (D.images disk)))) }
    ensures kept { MatchResult result
        (λ opened. ForSome (D.content disk) (λ file.
        IsKept D.content D.moment D.images D.images_since file disk opened.0.disk))
        (λ refused. ForSome (D.content disk) (λ file.
        IsKept D.content D.moment D.images D.images_since file disk refused.1)) }
    ensures told { MatchResult result
        (λ opened. is_some (D.content opened.0.disk) ≡ is_some (D.content disk))
        (λ refused. is_some (D.content refused.1) ≡ is_some (D.content disk)) }
    ensures untouched { IfErr result (λ refused. refused.0 ≢ JournalFault.DiskFault
        → IsUntouched D.content D.moment D.images D.images_since disk refused.1) }
    ensures later { MatchResult result
        (λ opened.
        D.faults disk ≤ D.faults opened.0.disk) (λ refused. D.faults disk ≤ D.faults refused.1) }
    ensures cause { IfErr result (λ refused. refused.0 ≡ JournalFault.DiskFault
        → Rose (D.faults disk) (D.faults refused.1)) }
{
    let mut opening = look(alloc, disk)?;
    match load(alloc, &mut opening) {
        Ok(store) => {
            let opened = complete(opening, store)?;
            Ok(opened)
        }
        Err(fault) => Err((fault, opening.into_disk())),
    }
}
