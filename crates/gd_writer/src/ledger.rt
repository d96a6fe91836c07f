//! The history, with its log and its store.
ghost use Rattle.std.specs.Prelude.{◌≡◌, ◌≤◌, ◌+◌, ◌-◌, ◌++◌, ◌∷◌, ℕ, List, [], None, OnOk, OnErr};
ghost use Rattle.std.specs.Prelude.{IfOk, IfErr, IsSome, IsTrue, length};
ghost use Rattle.gd_journal.specs.Causes.{HasReason};
ghost use Rattle.gd_log.specs.State.{IsHeld};
ghost use Rattle.gd_log.specs.Stored.{MayAppend};
ghost use Rattle.gd_prim.specs.History.{is_history};
ghost use Rattle.gd_runs.specs.Legal.{batches, size, history_bytes};
ghost use Rattle.gd_writer.specs.Entries.{entry_view};
ghost use Rattle.gd_writer.specs.Parts.{LedgerValue, Backs, EndsAs, AppendsAs, Tells};
ghost use Rattle.gd_writer.specs.Parts.{StandsForLedger};

use crate::entry::Entry;
use crate::made::Made;
use crate::roomy::Roomy;
use gd_base::memory::Memory;
use gd_disk::disk::Disk;
use gd_journal::fault::JournalFault;
use gd_log::log::Log;
use gd_log::stored::StoredLog;
use gd_prim::Batch;
use gd_store::store::Store;
use std::alloc::Global;
use std::marker::Model;
use std::slice;

/// The log with the store of its batches, the entries of this run behind the loaded ones, the bytes
/// that they keep, and the write in doubt. Contracts see the history, the entry in doubt, the log,
/// and for how many more entries there is room.
#[derive(Drop)]
pub(crate) struct Ledger<D: Disk> {
    held: StoredLog<D>,
    loaded: u32,
    entries: Roomy<Entry>,
    kept: u64,
    doubt: Option<Made>,
}

impl<D: Disk> Model for Ledger<D> {
    ghost use Rattle.std.specs.Prelude.{option_map};
    ghost use Rattle.gd_writer.specs.Entries.{entry_view, history_of};
    ghost use Rattle.gd_writer.specs.Parts.{LedgerValue, IsLedger};
    ghost use Rattle.std.specs.Coded.{codes};
    ghost use Rattle.gd_tree.specs.JsonCode.{json_code};
    ghost use Rattle.gd_writer.specs.ChangeCode.{members_code};

    ghost Value = { LedgerValue D };

    ghost coded = { Prim.hlevel (codes, members_code, json_code, D.code) };

    ghost view = { λ l. record {
      history = history_of l.loaded l.entries.items l.held.batches;
      doubt = option_map (λ d. entry_view d.entry d.batch) l.doubt;
      log = l.held.log;
      spare = l.entries.spare;
    } };

    ghost invariant = { λ l. IsLedger D.content D.images l.held l.loaded l.entries.items l.kept
        (option_map (λ d. entry_view d.entry d.batch) l.doubt) };
}

/// Appends an entry at a reserved place, counts its bytes, and gives its batch.
fn enter(entries: &mut Roomy<Entry>, kept: &mut u64, made: Made) -> Batch
    requires room { 1 ≤ entries.old.spare }
    requires bytes { kept.old + made.kept ≤ 134_217_728 }
    ensures batch { result ≡ made.batch }
    ensures entries { entries.new ≡ record {
      items = entries.old.items ++ made.entry ∷ [];
      spare = entries.old.spare - 1;
    } }
    ensures kept { kept.new ≡ kept.old + made.kept }
{
    let Made {
        entry,
        batch,
        kept: bytes,
    } = made;
    *kept += bytes;
    entries.push(entry);
    batch
}

impl<D: Disk> Ledger<D> {
    /// A ledger of what `open_log` gave, without entries.
    pub(crate) fn new(alloc: Global, log: Log<D>, store: Store) -> Ledger<D>
        requires no_doubt { log.doubt ≡ None }
        requires held { Tells (D.content log.disk)
            → IsHeld (D.content log.disk) (D.images log.disk) log.gate store }
        ensures { result ≡ record {
          history = record { loaded = store; entries = [] };
          doubt = None;
          log = log;
          spare = 0;
        } }
    {
        let loaded = store.requests();
        Ledger {
            held: StoredLog::of(log, store),
            loaded,
            entries: Roomy::new(alloc),
            kept: 0,
            doubt: None,
        }
    }

    /// The store of the batches.
    pub(crate) fn store(&self) -> &Store
        ensures { result.now ≡ batches self.now.history }
    {
        let _loaded = self.loaded;
        self.held.store()
    }

    /// How many requests are stored. A ledger says here what its disk holds.
    pub(crate) fn requests(&self) -> u32
        ensures count { result ≡ size self.now.history }
        ensures history { IsTrue (is_history (batches self.now.history)) }
        ensures holds { Tells (D.content self.now.log.disk) → (file : List ℕ)
            → D.images self.now.log.disk file → StandsForLedger self.now file }
    {
        let _loaded = self.loaded;
        self.held.store().requests()
    }

    /// How many bytes the entries keep.
    pub(crate) fn kept(&self) -> u64
        ensures kept { result ≡ history_bytes self.now.history }
        ensures most { result ≤ 134_217_728 }
    {
        self.kept
    }

    /// The disk. It takes no memory, and leaves the file as it is.
    pub(crate) fn into_disk(self) -> D
        ensures { result ≡ self.log.disk }
    {
        self.held.into_disk()
    }

    /// Makes room for so many further entries.
    pub(crate) fn reserve(&mut self, more: usize) -> Result<(), Memory>
        ensures same { self.new ≡ record self.old { spare = self.new.spare } }
        ensures made { OnOk result (more ≤ self.new.spare) }
        ensures kept { self.old.spare ≤ self.new.spare }
    {
        self.entries.reserve(more)
    }

    /// Ends a doubt, if there is one, and gives the batch of a write that counts, which is an entry
    /// then. An error leaves the doubt. `DiskFault`: the disk failed.
    pub(crate) fn settle(&mut self) -> Result<Option<Batch>, JournalFault>
        requires room { 1 ≤ self.old.spare }
        ensures ends { IfOk result (EndsAs self.old self.new) }
        ensures err { OnErr result (self.new ≡ record self.old { log = self.new.log }) }
        ensures some { OnErr result (IsSome self.old.doubt) }
        ensures backs { Backs D.content D.moment D.images D.images_since D.faults self.old
            self.new }
        ensures cause { IfErr result (HasReason (D.faults self.old.log.disk)
            (D.faults self.new.log.disk)) }
    {
        let Some(made) = &self.doubt else {
            return Ok(None);
        };
        let counts = self.held.settle(slice::from_ref(&made.batch))?;
        let ended = self.doubt.take();
        if !counts {
            return Ok(None);
        }
        match ended {
            Some(made) => Ok(Some(enter(&mut self.entries, &mut self.kept, made))),
            None => unreachable!(),
        }
    }

    /// Appends a write that may follow, and gives its batch back. `DiskFault`: the disk failed, and
    /// the write is in doubt. Any other error: nothing was stored.
    pub(crate) fn append(&mut self, alloc: Global, made: Made) -> Result<Batch, JournalFault>
        requires may { MayAppend (batches self.old.history) (made.batch ∷ []) }
        requires bytes { history_bytes self.old.history + made.kept ≤ 134_217_728 }
        requires no_doubt { self.old.doubt ≡ None }
        requires room { 1 ≤ self.old.spare }
        ensures appends { AppendsAs result self.old (entry_view made.entry made.batch) self.new }
        ensures backs { Backs D.content D.moment D.images D.images_since D.faults self.old
            self.new }
        ensures cause { IfErr result (HasReason (D.faults self.old.log.disk)
            (D.faults self.new.log.disk)) }
    {
        match self.held.append(alloc, slice::from_ref(&made.batch)) {
            Ok(()) => Ok(enter(&mut self.entries, &mut self.kept, made)),
            Err(fault) => {
                if self.held.in_doubt() {
                    self.doubt = Some(made);
                    return Err(fault);
                }
                Err(fault)
            }
        }
    }
}
