//! A node: a log with its store, and the group in doubt.
ghost use Rattle.std.specs.Prelude.{◌≡◌, ◌≢◌, ◌≤◌, ◌<◌, None, Some, Err, length};
ghost use Rattle.std.specs.Prelude.{take, drop, IfOk, IfErr};
ghost use Rattle.std.specs.Prelude.{MatchResult};
ghost use Rattle.std.specs.Option.{ForSome, is_some};
ghost use Rattle.std.specs.List.{AllByRecursion};
ghost use Rattle.gd_base.specs.Counts.{Rose};
ghost use Rattle.gd_bytes.specs.Disk.{LeavesOnly, IsUntouched};
ghost use Rattle.gd_bytes.specs.File.{meaning, StandsFor};
ghost use Rattle.gd_codec.specs.Writable.{MayWrite};
ghost use Rattle.gd_journal.specs.declared.fault.JournalFault.TheVariants as JournalFault;
ghost use Rattle.gd_log.specs.Opening.{MeansOneOf, Refuses, IsKept};
ghost use Rattle.gd_log.specs.Stored.{IsEarly, MayAppend};
ghost use Rattle.gd_follow_laws.specs.World as world;
ghost use Rattle.gd_follow.specs.Asks.{Asks, MayBeWritten, IsOfList, IsWithin};
ghost use Rattle.gd_follow.specs.Node.{node_of, Appended, Answered, Gave, Ends, HasReason};
ghost use Rattle.gd_follow.specs.Node.{HoldsNode, LeavesNodes};

use crate::answer::{AskFault, Asked, GiveFault, Given};
use crate::asking::ask;
use crate::batches::copies_of;
use crate::compare::fork_at;
use gd_codec::Group;
use gd_disk::disk::Disk;
use gd_journal::fault::JournalFault;
use gd_log::opening::open_log;
use gd_log::stored::StoredLog;
use gd_prim::Batch;
use gd_store::store::Store;
use std::alloc::Global;
use std::marker::Model;

/// A node that follows another one. Contracts see its log, its batches, and the group that is in
/// doubt.
#[derive(Drop)]
pub struct Node<D: Disk> {
    alloc: Global,
    log: StoredLog<D>,
    doubt: Option<Vec<Batch>>,
}

impl<D: Disk> Model for Node<D> {
    ghost use Rattle.std.specs.Prelude.{option_map};
    ghost use Rattle.gd_follow.specs.Node.{NodeValue, IsSound};

    ghost Value = { NodeValue D };

    ghost view = { λ n. record {
      log = n.log.log;
      list = n.log.batches;
      doubt = option_map (λ v. v.items) n.doubt;
    } };

    ghost invariant = { λ n. IsSound n.log.log.doubt n.log.batches
        (option_map (λ v. v.items) n.doubt) };
}

impl<D: Disk> Node<D> {
    /// The node over a disk that a stop may have left. An error hands the disk back: the file holds
    /// no store (`NotStore`), or a damaged one (`Damaged`), there was no memory (`Memory`), all of
    /// which change nothing, or the disk failed (`DiskFault`).
    pub fn start(alloc: Global, disk: D) -> Result<Node<D>, (JournalFault, D)>
        ensures means { MatchResult result
            (λ node. ForSome (D.content disk) (λ file. StandsFor file node.list))
            (λ refused. ForSome (D.content disk) (λ file. Refuses refused.0 (meaning file))) }
        ensures certain { IfOk result (λ node. node.doubt ≡ None) }
        ensures holds { IfOk result (λ node. ForSome (D.content disk)
            (λ _. HoldsNode D.content D.images node)) }
        ensures moments { MatchResult result
            (λ node. ForSome (D.content disk) (λ _. LeavesOnly D.moment D.images D.images_since
            disk node.log.disk (MeansOneOf (D.images disk))))
            (λ refused. ForSome (D.content disk) (λ _. LeavesOnly D.moment D.images D.images_since
            disk refused.1 (MeansOneOf (D.images disk)))) }
        ensures kept { MatchResult result
            (λ node. ForSome (D.content disk) (λ file.
            IsKept D.content D.moment D.images D.images_since file disk node.log.disk))
            (λ refused. ForSome (D.content disk) (λ file.
            IsKept D.content D.moment D.images D.images_since file disk refused.1)) }
        ensures told { MatchResult result
            (λ node. is_some (D.content node.log.disk) ≡ is_some (D.content disk))
            (λ refused. is_some (D.content refused.1) ≡ is_some (D.content disk)) }
        ensures untouched { IfErr result (λ refused. refused.0 ≢ JournalFault.DiskFault
            → IsUntouched D.content D.moment D.images D.images_since disk refused.1) }
        ensures later { MatchResult result
            (λ node. D.faults disk ≤ D.faults node.log.disk)
            (λ refused. D.faults disk ≤ D.faults refused.1) }
        ensures cause { IfErr result (λ refused. refused.0 ≡ JournalFault.DiskFault
            → Rose (D.faults disk) (D.faults refused.1)) }
    {
        match open_log(alloc, disk) {
            Ok((log, store)) => Ok(Node {
                alloc,
                log: StoredLog::of(log, store),
                doubt: None,
            }),
            Err(refused) => Err(refused),
        }
    }

    /// The store of its batches.
    pub fn store(&self) -> &Store
        ensures { result.now ≡ self.now.list }
    {
        self.log.store()
    }

    /// The disk. It takes no memory, and leaves the file as it is.
    pub fn close(self) -> D
        ensures { result ≡ self.log.disk }
    {
        let Node { log, doubt, .. } = self;
        drop(doubt);
        log.into_disk()
    }

    /// The longest run of at most `most` batches, 1 to 256, from a number on whose group has at
    /// most 500,000 bytes; `Nothing` where the number is how many batches it has. A group in doubt
    /// is not among them. `CursorAhead`: the number is above that. `BatchTooLarge`: the group of
    /// the batch of this number alone has more bytes. `Memory`: an allocation was refused.
    pub fn ask(&self, from: u32, most: u32) -> Result<Asked, AskFault>
        requires some { 1 ≤ most }
        requires few { most ≤ 256 }
        ensures asks { Asks self.now.list from most result }
        ensures may { MayBeWritten result }
        ensures of_list { IsOfList self.now.list from result }
        ensures within { IfErr result IsWithin }
    {
        ask(self.alloc, self.log.store(), from, most)
    }

    /// Ends the doubt, if there is one. `DiskNo`: the disk failed, and the doubt stays; so it does
    /// for want of memory.
    fn settle(&mut self) -> Result<(), GiveFault>
        ensures ends { Ends (node_of self.old) result (node_of self.new) }
        ensures cause { IfErr result (HasReason (D.faults self.old.log.disk)
            (D.faults self.new.log.disk)) }
        ensures later { D.faults self.old.log.disk ≤ D.faults self.new.log.disk }
        ensures holds { HoldsNode D.content D.images self.old
            → HoldsNode D.content D.images self.new }
        ensures moments { HoldsNode D.content D.images self.old
            → LeavesNodes D.moment D.images D.images_since self.old self.new }
        ensures told { is_some (D.content self.new.log.disk)
            ≡ is_some (D.content self.old.log.disk) }
    {
        match std::mem::replace(&mut self.doubt, None) {
            None => Ok(()),
            Some(group) => match self.log.settle(group.as_slice()) {
                Ok(_counts) => {
                    drop(group);
                    Ok(())
                }
                Err(fault) => {
                    self.doubt = Some(group);
                    match fault {
                        JournalFault::DiskFault => Err(GiveFault::DiskNo),
                        _ => Err(GiveFault::Memory),
                    }
                }
            },
        }
    }

    /// Appends batches that may follow, 1 to 256. `DiskMaybe`: the disk failed, and they are in
    /// doubt. `Memory`: nothing was stored.
    fn append(&mut self, past: Vec<Batch>) -> Result<Given, GiveFault>
        requires may { MayAppend self.old.list past.items }
        requires certain { self.old.doubt ≡ None }
        ensures appended { Appended self.old.list past.items result (node_of self.new) }
        ensures cause { IfErr result (HasReason (D.faults self.old.log.disk)
            (D.faults self.new.log.disk)) }
        ensures later { D.faults self.old.log.disk ≤ D.faults self.new.log.disk }
        ensures holds { HoldsNode D.content D.images self.old
            → HoldsNode D.content D.images self.new }
        ensures moments { HoldsNode D.content D.images self.old
            → LeavesNodes D.moment D.images D.images_since self.old self.new }
        ensures told { is_some (D.content self.new.log.disk)
            ≡ is_some (D.content self.old.log.disk) }
    {
        match self.log.append(self.alloc, past.as_slice()) {
            Ok(()) => Ok(Given::Taken),
            Err(JournalFault::DiskFault) => {
                self.doubt = Some(past);
                Err(GiveFault::DiskMaybe)
            }
            Err(_) => Err(GiveFault::Memory),
        }
    }

    /// Appends the batches of a group that stand behind those of the node. `Unfit`: one of them may
    /// not follow, and nothing was changed.
    fn append_past(&mut self, past: &[Batch]) -> Result<Given, GiveFault>
        requires some { 1 ≤ length past.now }
        requires few { length past.now ≤ 256 }
        requires early { AllByRecursion IsEarly past.now }
        requires certain { self.old.doubt ≡ None }
        ensures appended { Appended self.old.list past.now result (node_of self.new) }
        ensures cause { IfErr result (HasReason (D.faults self.old.log.disk)
            (D.faults self.new.log.disk)) }
        ensures later { D.faults self.old.log.disk ≤ D.faults self.new.log.disk }
        ensures holds { HoldsNode D.content D.images self.old
            → HoldsNode D.content D.images self.new }
        ensures moments { HoldsNode D.content D.images self.old
            → LeavesNodes D.moment D.images D.images_since self.old self.new }
        ensures told { is_some (D.content self.new.log.disk)
            ≡ is_some (D.content self.old.log.disk) }
    {
        if let Some(place) = self.log.first_unfit(past)? {
            return Err(GiveFault::Unfit {
                entry: self.log.store().requests() + place as u32,
            });
        }
        let kept = copies_of(self.alloc, past)?;
        self.append(kept)
    }

    /// Takes a group where no doubt is left.
    fn take(&mut self, from: u32, group: &Group) -> Result<Given, GiveFault>
        requires group { MayWrite group.now }
        requires certain { self.old.doubt ≡ None }
        ensures answered { Answered self.old.list (record { from = from; group = group.now }) result
            (node_of self.new) }
        ensures cause { IfErr result (HasReason (D.faults self.old.log.disk)
            (D.faults self.new.log.disk)) }
        ensures later { D.faults self.old.log.disk ≤ D.faults self.new.log.disk }
        ensures holds { HoldsNode D.content D.images self.old
            → HoldsNode D.content D.images self.new }
        ensures moments { HoldsNode D.content D.images self.old
            → LeavesNodes D.moment D.images D.images_since self.old self.new }
        ensures told { is_some (D.content self.new.log.disk)
            ≡ is_some (D.content self.old.log.disk) }
    {
        let entries = self.log.store().requests();
        if from > entries {
            return Ok(Given::Gap);
        }
        let batches = group.batches();
        if let Some(at) = fork_at(self.log.store(), from, batches) {
            return Err(GiveFault::Fork { at });
        }
        let known = (entries - from) as usize;
        if batches.len() <= known {
            return Ok(Given::Known);
        }
        self.append_past(&batches[known..])
    }

    /// Gives the node a group, as `decode_group` read it, of the batches from a number on. A doubt
    /// is ended first: `DiskNo`, where the disk fails at that. Then the group is answered: `Gap`,
    /// where it begins behind the batches of the node; `Fork`, where a batch is another than the
    /// node's of the same number, with the first such number; `Known`, where the node has all of
    /// its batches; `Unfit`, where one of the others may not follow those before it; else they are
    /// appended as one group: `Taken`, or `DiskMaybe` where the disk fails at that, which leaves
    /// them in doubt. `Memory`: an allocation was refused, and nothing of the group was stored.
    ///
    /// At every moment of the call a stop leaves what stands for the batches of before, with all or
    /// none of what was in doubt, or so for those of after.
    pub fn give(&mut self, from: u32, group: &Group) -> Result<Given, GiveFault>
        requires { MayWrite group.now }
        ensures gave { Gave (node_of self.old) (record { from = from; group = group.now }) result
            (node_of self.new) }
        ensures step { world.Gives (node_of self.old) (record { from = from; group = group.now })
            (node_of self.new) }
        ensures cause { IfErr result (HasReason (D.faults self.old.log.disk)
            (D.faults self.new.log.disk)) }
        ensures later { D.faults self.old.log.disk ≤ D.faults self.new.log.disk }
        ensures holds { HoldsNode D.content D.images self.old
            → HoldsNode D.content D.images self.new }
        ensures moments { HoldsNode D.content D.images self.old
            → LeavesNodes D.moment D.images D.images_since self.old self.new }
        ensures told { is_some (D.content self.new.log.disk)
            ≡ is_some (D.content self.old.log.disk) }
    {
        self.settle()?;
        self.take(from, group)
    }
}
