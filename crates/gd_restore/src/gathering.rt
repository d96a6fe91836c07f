//! Batches of a text are gathered, and appended to a log in groups.
ghost use Rattle.std.specs.Prelude.{◌≡◌, ◌≤◌, ◌++◌, ◌∷◌, ℕ, List, [], None, length, OnOk, IfErr};
ghost use Rattle.std.specs.List.{AllByRecursion};
ghost use Rattle.gd_prim.specs.declared.Batch.{Batch};
ghost use Rattle.gd_bytes.specs.Disk.{LeavesOnly};
ghost use Rattle.gd_bytes.specs.File.{MayStandFor};
ghost use Rattle.gd_dump_laws.specs.Restoring.{is_full, BeginsWith, Follow};
ghost use Rattle.gd_log.specs.Stored.{IsEarly};
ghost use Rattle.gd_restore.specs.Gathered.{Gathers, IsReady, IsRefusal, IsAppended, IsFailure};
ghost use Rattle.gd_restore.specs.Gathered.{HoldsAs, HoldsAfter, Begins, IsWhole};
ghost use Rattle.gd_restore.specs.Restores.{Leaves, StopsAs, ActsOn};

use crate::stop::RestoreStop;
use gd_disk::disk::Disk;
use gd_log::stored::StoredLog;
use gd_prim::Batch;
use std::alloc::Global;
use std::marker::Model;

/// How many batches a group has at most.
const FULL_GROUP: usize = 256;

/// With so many primitives a group is full.
const MANY_PRIMS: usize = 4_096;

/// Whether a group is full.
fn is_full_group(group: &[Batch]) -> bool
    ensures { result ≡ is_full group.now }
{
    if group.len() >= FULL_GROUP {
        return true;
    }
    let mut prims: usize = 0;
    for batch in group {
        prims = prims.saturating_add(batch.prims.len());
    }
    prims >= MANY_PRIMS
}

/// A log, and batches that are gathered for it and not yet appended. Contracts see the log with its
/// batches, how many these were at first, and those that are gathered.
#[derive(Drop)]
pub struct Gathering<D: Disk> {
    log: StoredLog<D>,
    have: u32,
    group: Vec<Batch>,
}

impl<D: Disk> Model for Gathering<D> {
    ghost use Rattle.gd_restore.specs.Gathered.{Gathered};

    ghost Value = { Gathered D };

    ghost view = { λ g. record { stored = g.log; have = g.have; group = g.group.items } };
}

impl<D: Disk> Gathering<D> {
    /// A log for which nothing is gathered yet.
    pub fn new(alloc: Global, log: StoredLog<D>) -> Gathering<D>
        ensures { result ≡ record { stored = log; have = length log.batches; group = [] } }
    {
        let have = log.store().requests();
        Gathering {
            log,
            have,
            group: Vec::new(alloc),
        }
    }

    /// How many batches the log had at first.
    pub fn have(&self) -> u32
        ensures { result ≡ self.now.have }
    {
        self.have
    }

    /// The disk. It takes no memory, and leaves the file as it is.
    pub fn into_disk(self) -> D
        ensures { result ≡ self.stored.log.disk }
    {
        let Gathering {
            log,
            have: _,
            group,
        } = self;
        drop(group);
        log.into_disk()
    }

    /// Whether all batches that are gathered may follow those of the log. `Unfit`: this one is the
    /// first that may not. `Memory`: an allocation was refused. It changes nothing.
    pub fn check_group(&mut self) -> Result<(), RestoreStop>
        requires { length self.old.group ≤ 256 }
        ensures same { self.new ≡ self.old }
        ensures follow { OnOk result (Follow self.old.stored.batches self.old.group) }
        ensures refusal { IfErr result (IsRefusal self.old.stored.batches self.old.group) }
    {
        let stored = self.log.store().requests();
        match self.log.first_unfit(self.group.as_slice())? {
            Some(place) => Err(RestoreStop::Unfit {
                batch: stored + place as u32,
            }),
            None => Ok(()),
        }
    }

    /// Appends the batches that are gathered, 1 to 256, as a group, if they may all follow; then
    /// none is gathered. An error leaves the batches of the log as they were. `Unfit`: this batch
    /// is the first that may not follow; nothing was changed. `Memory`: an allocation was refused,
    /// or there is no room on the disk; nothing was changed. `DiskFault`: the disk failed, and the
    /// group is in doubt.
    ///
    /// At every moment of the call a stop leaves what stands for the batches of before, or for
    /// those of after, followed by all or none of a group in doubt.
    pub fn append_group(&mut self, alloc: Global) -> Result<(), RestoreStop>
        requires no_doubt { self.old.stored.log.doubt ≡ None }
        requires some { 1 ≤ length self.old.group }
        requires few { length self.old.group ≤ 256 }
        requires early { AllByRecursion IsEarly self.old.group }
        ensures appended { OnOk result (IsAppended self.old self.new) }
        ensures failed { IfErr result (IsFailure self.old self.new) }
        ensures holds { HoldsAs D.content D.images self.old.stored None
            → HoldsAfter D.content D.images result self.new.stored self.old.group }
        ensures moments { HoldsAs D.content D.images self.old.stored None
            → LeavesOnly D.moment D.images D.images_since self.old.stored.log.disk
            self.new.stored.log.disk (MayStandFor self.old.stored.batches (self.old.group ∷ [])) }
        ensures disk { ActsOn D.content D.faults result self.old.stored self.new.stored }
    {
        self.check_group()?;
        match self.log.append(alloc, self.group.as_slice()) {
            Ok(()) => {
                self.group.clear();
                Ok(())
            }
            Err(fault) => Err(RestoreStop::of_append(fault)),
        }
    }

    /// Gathers one batch more, and appends the group where it is full with it. An error is one of
    /// `append_group`.
    fn gather(&mut self, batch: Batch, alloc: Global) -> Result<(), RestoreStop>
        requires ready { IsReady self.old }
        requires early { IsEarly batch }
        ensures ready { OnOk result (IsReady self.new) }
        ensures gathers { OnOk result ((list : List Batch) (batches : List Batch)
            → Gathers D.content D.images list batches self.old
            → Gathers D.content D.images list (batches ++ batch ∷ []) self.new) }
        ensures stops { IfErr result
            (λ stop. (list : List Batch) (batches : List Batch) (text : List ℕ)
            → Gathers D.content D.images list batches self.old
            → BeginsWith text (length list) (batches ++ batch ∷ [])
            → StopsAs stop (Leaves D.content D.images self.new.stored.log.disk) list text
            self.new.stored.batches) }
        ensures disk { ActsOn D.content D.faults result self.old.stored self.new.stored }
    {
        match self.group.push(batch) {
            Ok(()) => {}
            Err(_) => return Err(RestoreStop::Memory),
        }
        if !is_full_group(self.group.as_slice()) {
            return Ok(());
        }
        match self.append_group(alloc) {
            Ok(()) => Ok(()),
            Err(stop) => Err(stop),
        }
    }

    /// Gathers batches one after another. An error is one of `append_group`.
    pub fn gather_all(&mut self, batches: Vec<Batch>, alloc: Global) -> Result<(), RestoreStop>
        requires ready { IsReady self.old }
        requires early { AllByRecursion IsEarly batches.items }
        ensures ready { OnOk result (IsReady self.new) }
        ensures gathers { OnOk result ((list : List Batch) (before : List Batch)
            → Gathers D.content D.images list before self.old
            → Gathers D.content D.images list (before ++ batches.items) self.new) }
        ensures stops { IfErr result
            (λ stop. (list : List Batch) (before : List Batch) (text : List ℕ)
            → Gathers D.content D.images list before self.old
            → Begins list text (before ++ batches.items)
            → StopsAs stop (Leaves D.content D.images self.new.stored.log.disk) list text
            self.new.stored.batches) }
        ensures disk { ActsOn D.content D.faults result self.old.stored self.new.stored }
    {
        for batch in batches {
            match self.gather(batch, alloc) {
                Ok(()) => {}
                Err(stop) => return Err(stop),
            }
        }
        Ok(())
    }

    /// Appends what is gathered, if anything is. An error is one of `append_group`.
    pub fn append_rest(&mut self, alloc: Global) -> Result<(), RestoreStop>
        requires { IsReady self.old }
        ensures whole { OnOk result ((list : List Batch) (batches : List Batch)
            → Gathers D.content D.images list batches self.old
            → IsWhole D.content D.images list batches self.new) }
        ensures stops { IfErr result
            (λ stop. (list : List Batch) (batches : List Batch) (text : List ℕ)
            → Gathers D.content D.images list batches self.old → Begins list text batches
            → StopsAs stop (Leaves D.content D.images self.new.stored.log.disk) list text
            self.new.stored.batches) }
        ensures disk { ActsOn D.content D.faults result self.old.stored self.new.stored }
    {
        if self.group.is_empty() {
            return Ok(());
        }
        match self.append_group(alloc) {
            Ok(()) => Ok(()),
            Err(stop) => Err(stop),
        }
    }
}
