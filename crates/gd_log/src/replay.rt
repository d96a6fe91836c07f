//! The store for which payloads stand.
ghost use Rattle.std.specs.Prelude.{◌≡◌, ◌≢◌, ◌≤◌, ◌++◌, ◌∷◌, [], None, length, false, not, ◌&&◌};
ghost use Rattle.std.specs.Prelude.{bytes_eq, IfOk, IfErr, OnOk, OnErr, MatchBool, MatchOption};
ghost use Rattle.std.specs.Bool.{OnTrue};
ghost use Rattle.std.specs.Option.{ForSome};
ghost use Rattle.gd_base.specs.Counts.{Rose};
ghost use Rattle.gd_prim.specs.History.{prims_of};
ghost use Rattle.gd_prim.specs.WellFormed as defined;
ghost use Rattle.gd_bytes.specs.Disk.{IsUntouched};
ghost use Rattle.gd_bytes.specs.File.{mark, has_lang, damaged, record_batches, meaning};
ghost use Rattle.gd_journal.specs.Causes.{HasReason};
ghost use Rattle.gd_journal.specs.Reading.{IsRead};
ghost use Rattle.std.specs.List.{AllByRecursion};
ghost use Rattle.gd_log.specs.Stored.{IsEarly};
ghost use Rattle.gd_log.specs.Opening.{Refuses, AddsGroup, IsTaken, IsRefused, Loads};

use gd_base::memory::Memory;
use gd_codec::{CodecFault, Group, decode_group};
use gd_disk::disk::Disk;
use gd_journal::fault::JournalFault;
use gd_journal::opening::Opening;
use gd_journal::version::MARK;
use gd_prim::Batch;
use gd_store::store::Store;
use std::alloc::Global;

/// Whether the batch is well formed behind those of the store, and passes no limit.
fn may_follow(store: &Store, batch: &Batch) -> bool
    ensures { result ≡ defined.may_follow (prims_of store.now) (length store.now) batch.now }
{
    store.check(batch).is_ok() && store.fits(batch).is_ok()
}

/// Stores the batch, if it may follow those of the store.
pub(crate) fn absorb_batch(store: &mut Store, batch: &Batch) -> Result<bool, Memory>
    ensures taken { IfOk result (λ taken. taken ≡ defined.may_follow (prims_of store.old)
        (length store.old) batch.now) }
    ensures more { IfOk result (λ taken. OnTrue taken (store.new ≡ store.old ++ batch.now ∷ [])) }
    ensures same { IfOk result (λ taken. taken ≡ false → store.new ≡ store.old) }
    ensures refused { OnErr result (store.new ≡ store.old) }
{
    if !may_follow(store, batch) {
        return Ok(false);
    }
    store.absorb(batch)?;
    Ok(true)
}

/// Stores the batches one by one, up to the first that may not follow those of the store, and says
/// whether there is none such.
fn absorb_all(store: &mut Store, batches: &[Batch]) -> Result<bool, Memory>
    ensures taken { IfOk result (λ taken. taken ≡ defined.all_follow (prims_of store.old)
        (length store.old) batches.now) }
    ensures more { IfOk result (λ taken. OnTrue taken (store.new ≡ store.old ++ batches.now)) }
{
    for batch in batches {
        if !absorb_batch(store, batch)? {
            return Ok(false);
        }
    }
    Ok(true)
}

/// Whether the bytes are the mark, where it may stand: no text may have a language yet.
fn is_mark(marked: bool, bytes: &[u8]) -> bool
    ensures { result ≡ (not marked && bytes_eq bytes.now mark) }
{
    !marked && bytes == &MARK[..]
}

/// Whether some text of the group has a language where none may have one.
fn is_early(marked: bool, group: &Group) -> bool
    ensures { result ≡ (not marked && has_lang group.now) }
{
    !marked && group.has_lang()
}

/// Stores the batches of which the bytes are the group. False: they are no group, or a text of it
/// has a language where none may have one, or a batch of it may not follow.
fn absorb_bytes(
    alloc: Global,
    store: &mut Store,
    marked: bool,
    bytes: &[u8],
) -> Result<bool, Memory>
    ensures { IfOk result (λ taken. MatchBool taken
        (AddsGroup marked store.old bytes.now store.new)
        (record_batches marked store.old bytes.now ≡ None)) }
{
    match decode_group(alloc, bytes) {
        Ok(group) => {
            if is_early(marked, &group) {
                return Ok(false);
            }
            let taken = absorb_all(store, group.batches())?;
            Ok(taken)
        }
        Err(CodecFault::BadBytes { .. }) => Ok(false),
        Err(CodecFault::Memory) => Err(Memory),
    }
}

/// Takes in a payload: the mark, where it may stand and behind which texts may have languages, or a
/// group of batches, which are stored. False: it is neither, or no group that may stand there.
fn absorb_record(
    alloc: Global,
    store: &mut Store,
    marked: &mut bool,
    bytes: &[u8],
) -> Result<bool, Memory>
    ensures { IfOk result (λ taken. MatchBool taken
        (IsTaken marked.old store.old bytes.now marked.new store.new)
        (IsRefused marked.old store.old bytes.now)) }
{
    if is_mark(*marked, bytes) {
        *marked = true;
        return Ok(true);
    }
    let taken = absorb_bytes(alloc, store, *marked, bytes)?;
    Ok(taken)
}

/// Stores the batches of a file's payloads one by one, from the first payload on, and gives the
/// offset of the first record that is damaged: a payload that is neither a group nor a mark that
/// may stand there, or whose texts have languages where they may not, or a batch of which may not
/// follow, or a record behind the payloads that is not there in full.
fn absorb_records<D: Disk>(
    alloc: Global,
    opening: &mut Opening<D>,
    store: &mut Store,
) -> Result<Option<u64>, JournalFault>
    requires empty { store.old ≡ [] }
    requires unread { ForSome (D.content opening.old.disk) (λ file.
        IsRead [] opening.old.next file) }
    ensures taken { IfOk result (λ first. ForSome (D.content opening.old.disk) (λ file.
        MatchOption first
        (Loads opening.old.version file store.new) (λ offset. meaning file ≡ damaged offset))) }
    ensures undamaged { IfOk result (λ first. first ≡ None → opening.new.damaged ≡ None) }
    ensures version { opening.new.version ≡ opening.old.version }
    ensures early { IfOk result (λ first. first ≡ None → AllByRecursion IsEarly store.new) }
    ensures untouched { IsUntouched D.content D.moment D.images D.images_since opening.old.disk
        opening.new.disk }
    ensures later { D.faults opening.old.disk ≤ D.faults opening.new.disk }
    ensures cause { IfErr result (HasReason (D.faults opening.old.disk)
        (D.faults opening.new.disk)) }
{
    let mut marked = opening.version() == 2;
    loop {
        match opening.next_payload()? {
            None => return Ok(opening.damaged()),
            Some(payload) => {
                if !absorb_record(alloc, store, &mut marked, payload.bytes.as_slice())? {
                    return Ok(Some(payload.offset));
                }
            }
        }
    }
}

/// Stores the batches of a file's payloads, from the first payload on. `Damaged`: a payload is
/// neither a group nor a mark that may stand there, or its texts have languages where they may not,
/// or a batch of it may not follow those before it, or a record behind the payloads is not there in
/// full; the gate's offset of the first such record is told.
pub(crate) fn replay<D: Disk>(
    alloc: Global,
    opening: &mut Opening<D>,
    store: &mut Store,
) -> Result<(), JournalFault>
    requires empty { store.old ≡ [] }
    requires unread { ForSome (D.content opening.old.disk) (λ file.
        IsRead [] opening.old.next file) }
    ensures all { OnOk result (ForSome (D.content opening.old.disk) (λ file.
        Loads opening.old.version file store.new)) }
    ensures undamaged { OnOk result (opening.new.damaged ≡ None) }
    ensures version { opening.new.version ≡ opening.old.version }
    ensures early { OnOk result (AllByRecursion IsEarly store.new) }
    ensures refused { IfErr result (λ fault. ForSome (D.content opening.old.disk) (λ file.
        Refuses fault (meaning file))) }
    ensures not_store { IfErr result (λ fault. fault ≢ JournalFault.NotStore) }
    ensures untouched { IsUntouched D.content D.moment D.images D.images_since opening.old.disk
        opening.new.disk }
    ensures later { D.faults opening.old.disk ≤ D.faults opening.new.disk }
    ensures cause { IfErr result (λ fault. fault ≡ JournalFault.DiskFault
        → Rose (D.faults opening.old.disk) (D.faults opening.new.disk)) }
{
    match absorb_records(alloc, opening, store)? {
        Some(offset) => Err(JournalFault::Damaged { offset }),
        None => Ok(()),
    }
}
