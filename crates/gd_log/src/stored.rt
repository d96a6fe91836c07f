//! A log, and the store of its batches.
ghost use Rattle.std.specs.Prelude.{◌≡◌, ◌+◌, ◌-◌, ◌≤◌, ◌++◌, ◌↔◌, ◌⊎◌, List, ℕ, None, true};
ghost use Rattle.std.specs.Prelude.{length, take, IsSome, IsErr, IsErrOf, OnOk, OnErr, IfOk, IfErr};
ghost use Rattle.std.specs.Prelude.{MatchResult, MatchOption, Some, slice_get, false};
ghost use Rattle.std.specs.Prelude.{if◌then◌else◌};
ghost use Rattle.std.specs.Option.{is_some};
ghost use Rattle.gd_prim.specs.declared.Batch.{Batch};
ghost use Rattle.gd_prim.specs.History.{prims_of};
ghost use Rattle.gd_prim.specs.WellFormed.{may_follow, all_follow};
ghost use Rattle.gd_bytes.specs.Disk.{LeavesOnly};
ghost use Rattle.gd_bytes.specs.File.{StandsFor, MayStandFor};
ghost use Rattle.gd_journal.specs.Causes.{HasReason};
ghost use Rattle.gd_log.specs.Stored.{MayAppend, IsFirstUnfit, Holds, groups_in_doubt, doubt_after};

use crate::log::Log;
use crate::replay::absorb_batch;
use gd_base::memory::Memory;
use gd_disk::disk::Disk;
use gd_journal::fault::JournalFault;
use gd_prim::Batch;
use gd_store::store::Store;
use std::alloc::Global;
use std::marker::Model;

/// Takes so many batches out of a store again.
fn withdraw(store: &mut Store, count: usize)
    requires { count ≤ length store.old }
    ensures { store.new ≡ take (length store.old - count) store.old }
{
    for _place in 0..count {
        store.retract_last();
    }
}

/// Stores batches that may follow those of the store. `Memory`: an allocation was refused, and the
/// store is as it was.
fn absorb_group(store: &mut Store, batches: &[Batch]) -> Result<(), Memory>
    requires { all_follow (prims_of store.old) (length store.old) batches.now ≡ true }
    ensures taken { OnOk result (store.new ≡ store.old ++ batches.now) }
    ensures refused { OnErr result (store.new ≡ store.old) }
{
    let mut taken: usize = 0;
    for batch in batches {
        match store.absorb(batch) {
            Ok(()) => taken += 1,
            Err(refused) => {
                withdraw(store, taken);
                return Err(refused);
            }
        }
    }
    Ok(())
}

/// Stores batches one by one, up to the first that may not follow, and says how many these are, and
/// whether memory was wanting for the next one.
fn absorb_front(store: &mut Store, batches: &[Batch]) -> (usize, bool)
    ensures taken { store.new ≡ store.old ++ take result.0 batches.now }
    ensures few { result.0 ≤ length batches.now }
    ensures follow { all_follow (prims_of store.old) (length store.old) (take result.0 batches.now)
        ≡ true }
    ensures next { result.1 ≡ false → (b : Batch) → slice_get batches.now result.0 ≡ Some b
        → may_follow (prims_of store.new) (length store.new) b ≡ false }
{
    let mut taken: usize = 0;
    for batch in batches {
        match absorb_batch(store, batch) {
            Ok(true) => taken += 1,
            Ok(false) => return (taken, false),
            Err(Memory) => return (taken, true),
        }
    }
    (taken, false)
}

/// A log, and the store of its batches: what is appended to the log is in the store, and only that.
/// Contracts see the log as its journal, and the batches of the store. A group in doubt is not
/// among them; who appended it keeps it for `settle`.
#[derive(Drop)]
pub struct StoredLog<D: Disk> {
    log: Log<D>,
    store: Store,
}

impl<D: Disk> Model for StoredLog<D> {
    ghost use Rattle.gd_log.specs.Stored.{Stored};

    ghost Value = { Stored D };

    ghost view = { λ s. record { log = s.log; batches = s.store } };
}

impl<D: Disk> StoredLog<D> {
    /// What `open_log` gave. It takes no memory.
    pub fn of(log: Log<D>, store: Store) -> StoredLog<D>
        ensures { result ≡ record { log = log; batches = store } }
    {
        StoredLog { log, store }
    }

    /// The store.
    pub fn store(&self) -> &Store
        ensures { result.now ≡ self.now.batches }
    {
        &self.store
    }

    /// Whether a group is in doubt: a call of `append` answered `DiskFault`, and `settle` has not
    /// ended it since.
    pub fn in_doubt(&self) -> bool
        ensures { result ≡ is_some self.now.log.doubt }
    {
        self.log.in_doubt()
    }

    /// The disk. It takes no memory, and leaves the file as it is.
    pub fn into_disk(self) -> D
        ensures { result ≡ self.log.disk }
    {
        let StoredLog { log, store } = self;
        drop(store);
        log.into_disk()
    }

    /// The first of these batches that may not follow those of the store and those before it. It
    /// changes nothing. `Memory`: an allocation was refused.
    pub fn first_unfit(&mut self, batches: &[Batch]) -> Result<Option<usize>, Memory>
        ensures same { self.new ≡ self.old }
        ensures first { IfOk result (λ first. MatchOption first
            (all_follow (prims_of self.old.batches) (length self.old.batches) batches.now ≡ true)
            (IsFirstUnfit self.old.batches batches.now)) }
    {
        let (taken, wanting) = absorb_front(&mut self.store, batches);
        withdraw(&mut self.store, taken);
        if wanting {
            return Err(Memory);
        }
        if taken < batches.len() {
            return Ok(Some(taken));
        }
        Ok(None)
    }

    /// Adds a group of 1 to 256 batches, each of which may follow those of the store and those
    /// before it, to the store and to the log. An error leaves the store as it was. `Memory`: an
    /// allocation was refused, or there is no room on the disk; nothing was changed. `DiskFault`:
    /// the disk failed, and the group is in doubt until `settle` tells.
    ///
    /// At every moment of the call a stop leaves what stands for the batches of before, or for
    /// those of after, followed by all or none of a group in doubt.
    pub fn append(&mut self, alloc: Global, batches: &[Batch]) -> Result<(), JournalFault>
        requires may { MayAppend self.old.batches batches.now }
        requires no_doubt { self.old.log.doubt ≡ None }
        ensures batches { MatchResult result
            (λ _. self.new.batches ≡ self.old.batches ++ batches.now)
            (λ _. self.new.batches ≡ self.old.batches) }
        ensures doubt { IsSome self.new.log.doubt ↔ IsErrOf result JournalFault.DiskFault }
        ensures holds { Holds (D.content self.old.log.disk) (D.images self.old.log.disk)
            self.old.log.gate self.old.log.doubt self.old.batches None
            → Holds (D.content self.new.log.disk) (D.images self.new.log.disk) self.new.log.gate
            self.new.log.doubt self.new.batches (doubt_after result batches.now) }
        ensures moments { Holds (D.content self.old.log.disk) (D.images self.old.log.disk)
            self.old.log.gate self.old.log.doubt self.old.batches None
            → LeavesOnly D.moment D.images D.images_since self.old.log.disk self.new.log.disk
            (λ file. StandsFor file self.old.batches
            ⊎ MayStandFor self.new.batches (groups_in_doubt (doubt_after result batches.now))
            file) }
        ensures told { is_some (D.content self.new.log.disk)
            ≡ is_some (D.content self.old.log.disk) }
        ensures later { D.faults self.old.log.disk ≤ D.faults self.new.log.disk }
        ensures cause { IfErr result (HasReason (D.faults self.old.log.disk)
            (D.faults self.new.log.disk)) }
    {
        absorb_group(&mut self.store, batches)?;
        match self.log.append(alloc, batches) {
            Ok(()) => Ok(()),
            Err(fault) => {
                withdraw(&mut self.store, batches.len());
                Err(fault)
            }
        }
    }

    /// Ends a doubt, in which this group is: says whether it counts, and then the store has it. An
    /// error leaves the doubt, and the store as it was. `Memory`: an allocation was refused, or
    /// there is no room on the disk. `DiskFault`: the disk failed.
    ///
    /// At every moment of the call a stop leaves what stands for the batches of before, followed by
    /// all or none of the group.
    pub fn settle(&mut self, batches: &[Batch]) -> Result<bool, JournalFault>
        requires may { MayAppend self.old.batches batches.now }
        requires doubt { IsSome self.old.log.doubt }
        ensures batches { MatchResult result
            (λ counts. self.new.batches ≡ (if counts then self.old.batches ++ batches.now
            else self.old.batches))
            (λ _. self.new.batches ≡ self.old.batches) }
        ensures ended { OnOk result (self.new.log.doubt ≡ None) }
        ensures left { IsErr result → self.new.log.doubt ≡ self.old.log.doubt }
        ensures holds { Holds (D.content self.old.log.disk) (D.images self.old.log.disk)
            self.old.log.gate self.old.log.doubt self.old.batches (Some batches.now)
            → MatchResult result
            (λ _. Holds (D.content self.new.log.disk) (D.images self.new.log.disk) self.new.log.gate
            self.new.log.doubt self.new.batches None)
            (λ _. Holds (D.content self.new.log.disk) (D.images self.new.log.disk) self.new.log.gate
            self.new.log.doubt self.new.batches (Some batches.now)) }
        ensures moments { Holds (D.content self.old.log.disk) (D.images self.old.log.disk)
            self.old.log.gate self.old.log.doubt self.old.batches (Some batches.now)
            → LeavesOnly D.moment D.images D.images_since self.old.log.disk self.new.log.disk
            (MayStandFor self.old.batches (groups_in_doubt (Some batches.now))) }
        ensures told { is_some (D.content self.new.log.disk)
            ≡ is_some (D.content self.old.log.disk) }
        ensures later { D.faults self.old.log.disk ≤ D.faults self.new.log.disk }
        ensures cause { IfErr result (HasReason (D.faults self.old.log.disk)
            (D.faults self.new.log.disk)) }
    {
        absorb_group(&mut self.store, batches)?;
        match self.log.settle() {
            Ok(true) => Ok(true),
            Ok(false) => {
                withdraw(&mut self.store, batches.len());
                Ok(false)
            }
            Err(fault) => {
                withdraw(&mut self.store, batches.len());
                Err(fault)
            }
        }
    }
}
