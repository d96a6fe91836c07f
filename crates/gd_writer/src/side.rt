//! The write side: the history with its store and its log, the published copies, and what is kept
//! of write lines.
ghost use Rattle.std.specs.Prelude.{◌≡◌, ◌≤◌, ◌<◌, ◌^◌, [], length, None, IsSome, IfOk, IfErr};
ghost use Rattle.std.specs.Prelude.{IfSome, OnOk, OnErr, MatchResult, map, option_map, vec_len};
ghost use Rattle.std.specs.List.{All, AllByRecursion};
ghost use Rattle.std.specs.Option.{ForSome, is_some};
ghost use Rattle.gd_base.specs.Counts.{Rose};
ghost use Rattle.gd_bytes.specs.File.{meaning, StandsFor};
ghost use Rattle.gd_log.specs.State.{IsHeld};
ghost use Rattle.gd_writer.specs.Parts.{Tells};
ghost use Rattle.gd_log.specs.Opening.{Refuses};
ghost use Rattle.gd_runs.specs.Legal.{batches, size};
ghost use Rattle.gd_runs.specs.Side.{IsLeft, IsFresh};
ghost use Rattle.gd_core_laws.specs.Bounds.{kept_of};
ghost use Rattle.gd_mql.specs.Requests.{write_view};
ghost use Rattle.gd_shared.specs.Shared.{IsNewSeat};
ghost use Rattle.gd_writer.specs.Opened.{Opens};
ghost use Rattle.gd_writer.specs.Outcomes.{kept_view, is_stored, told_view, IsTold};
ghost use Rattle.gd_writer.specs.Side.{KeepsAll, ShowsStored, GoesOn, Writes, Begins, BeginsOver};

use crate::copies::Copies;
use crate::desk::Desk;
use crate::judge::Asked;
use crate::ledger::Ledger;
use crate::outcome::{Outcome, WriteOf};
use crate::roomy::Roomy;
use gd_base::memory::Memory;
use gd_disk::disk::Disk;
use gd_journal::fault::JournalFault;
use gd_log::log::Log;
use gd_log::opening::open_log;
use gd_mql::request::WriteRequest;
use gd_outside::clock::Clock;
use gd_shared::{Receipt, Seat, share};
use gd_store::store::Store;
use std::alloc::Global;
use std::marker::Model;
use std::sync::Wait;

/// How many seats a side has.
pub const SEATS: u32 = 64;

/// Two published copies of a store, and the seats from which they are read.
fn published<R: Wait>(rt: &R, alloc: Global, store: &Store) -> Result<(Copies, Vec<Seat>), Memory>
    ensures copies { IfOk result (λ both. both.0
        ≡ record { table = both.0.table; shown = store.now; all = store.now; spare = 0 }) }
    ensures seats { IfOk result (λ both. (vec_len both.1 ≡ SEATS)
        × All (IsNewSeat both.0.table store.now) both.1.items) }
{
    let first = store.copy()?;
    let second = store.copy()?;
    let (publisher, seats) = share(rt, alloc, first, second, SEATS)?;
    Ok((Copies::new(alloc, publisher), seats))
}

/// The first of these write lines that is this line.
fn find(outcomes: &[WriteOf], line: u64) -> Option<&WriteOf>
    requires told { AllByRecursion (λ w. IsTold w.line w.outcome) outcomes.now }
    ensures found { option_map (λ w. kept_view w.now.outcome) result
        ≡ kept_of (map told_view outcomes.now) line }
    ensures told { IfSome result (λ w. IsTold line w.now.outcome) }
{
    for told in outcomes {
        if told.line == line {
            return Some(told);
        }
    }
    None
}

/// What stands behind the lock of writes: a history with its store and its log, the published
/// copies, a clock, and what is kept of write lines until it is forgotten. It is ended by `close`
/// alone. Contracts see the history, the entry that is in doubt, what is kept, the list that is
/// shown, the log and the clock.
///
/// Its type keeps, and `stored` says, that the history is legal, that the store stands for it, that
/// what is shown is a front of it, that the disk holds it, or it with the entry in doubt, that each
/// moment is one that the clock may give, and that what is kept agrees with the history, in the
/// order of the writes.
pub struct WriteSide<D: Disk, C: Clock> {
    desk: Desk<D, C>,
    outcomes: Roomy<WriteOf>,
}

impl<D: Disk, C: Clock> Model for WriteSide<D, C> {
    ghost use Rattle.std.specs.Prelude.{map};
    ghost use Rattle.gd_writer.specs.Outcomes.{told_view};
    ghost use Rattle.gd_writer.specs.Side.{SideValue, IsSide, side_of};
    ghost use Rattle.std.specs.Coded.{codes};
    ghost use Rattle.gd_tree.specs.JsonCode.{json_code};
    ghost use Rattle.gd_writer.specs.ChangeCode.{members_code};

    ghost Value = { SideValue D C };

    ghost coded = { Prim.hlevel (codes, members_code, json_code, D.code, C.code) };

    ghost view = { λ s. side_of s.desk.ledger s.desk.copies s.desk.clock
        (map told_view s.outcomes.items) };

    ghost invariant = { λ s. IsSide C.may s.desk.ledger s.desk.copies s.desk.clock s.outcomes.items };
}

impl<D: Disk, C: Clock> WriteSide<D, C> {
    /// A side over the store that a disk holds, with nothing written yet and all shown, and its
    /// seats, which have seen all. It waits for nobody, since there is no reader yet. An error
    /// hands the disk and the clock back; it is one of `open_log`: `NotStore`, `Damaged`, `Memory`,
    /// also for the published copies, or `DiskFault`.
    pub fn start<R: Wait>(
        rt: &R,
        alloc: Global,
        disk: D,
        clock: C,
    ) -> Result<(WriteSide<D, C>, Vec<Seat>), (JournalFault, D, C)>
        ensures begins { IfOk result (λ both. Begins (D.content disk) (C.may clock) C.may both.0) }
        ensures seats { IfOk result (λ both. (vec_len both.1 ≡ SEATS)
            × All (IsNewSeat both.0.table both.0.shown) both.1.items) }
        ensures refused { IfErr result (λ refused. ForSome (D.content disk)
            (λ file. Refuses refused.0 (meaning file))) }
        ensures clock { IfErr result (λ refused. refused.2 ≡ clock) }
        ensures disk { MatchResult result
            (λ both. Opens D.content D.moment D.images D.images_since D.faults disk both.0.log.disk)
            (λ refused. Opens D.content D.moment D.images D.images_since D.faults disk refused.1) }
        ensures cause { IfErr result (λ refused. refused.0 ≡ JournalFault.DiskFault
            → Rose (D.faults disk) (D.faults refused.1)) }
    {
        match open_log(alloc, disk) {
            Ok((log, store)) => WriteSide::over(rt, alloc, log, store, clock),
            Err((fault, disk)) => Err((fault, disk, clock)),
        }
    }

    /// A side over an opened log with its store. `Memory`: an allocation was refused.
    fn over<R: Wait>(
        rt: &R,
        alloc: Global,
        log: Log<D>,
        store: Store,
        clock: C,
    ) -> Result<(WriteSide<D, C>, Vec<Seat>), (JournalFault, D, C)>
        requires no_doubt { log.doubt ≡ None }
        requires held { Tells (D.content log.disk)
            → IsHeld (D.content log.disk) (D.images log.disk) log.gate store }
        ensures begins { IfOk result (λ both. BeginsOver store (C.may clock) C.may log both.0) }
        ensures seats { IfOk result (λ both. (vec_len both.1 ≡ SEATS)
            × All (IsNewSeat both.0.table both.0.shown) both.1.items) }
        ensures refused { IfErr result (λ refused. refused
            ≡ (JournalFault.Memory, log.disk, clock)) }
    {
        let _requests = store.requests();
        match published(rt, alloc, &store) {
            Ok((copies, seats)) => {
                let ledger = Ledger::new(alloc, log, store);
                let outcomes = Roomy::new(alloc);
                let desk = Desk {
                    alloc,
                    ledger,
                    copies,
                    clock,
                };
                Ok((WriteSide { desk, outcomes }, seats))
            }
            Err(_) => Err((JournalFault::Memory, log.into_disk(), clock)),
        }
    }

    /// Carries a write of a line out, and keeps what it came to; `bytes` is the length of the line.
    /// An earlier doubt is ended first. Room for what is kept is made before; `Memory`: there is
    /// none, nothing was done, and nothing is kept. Publishing waits for readers.
    pub fn write<R: Wait>(
        &mut self,
        rt: &R,
        line: u64,
        request: &WriteRequest,
        bytes: u64,
    ) -> Result<(), Memory>
        requires left { IsLeft self.old.outcomes line }
        requires fresh { IsFresh self.old.history self.old.doubt line }
        requires bytes { bytes ≤ 262_144 }
        requires line { line < 2 ^ 63 }
        ensures ok { OnOk result (Writes (C.may self.old.clock) D.faults self.old line bytes
            (write_view request.now) self.new) }
        ensures err { OnErr result (self.new ≡ self.old) }
        ensures goes { GoesOn D.content D.moment D.images D.images_since D.faults C.may self.old
            self.new }
    {
        let _stored = self.stored();
        self.outcomes.reserve(1)?;
        let asked = Asked {
            line,
            request,
            bytes,
        };
        let outcome = self.desk.write(rt, asked);
        self.outcomes.push(WriteOf { line, outcome });
        Ok(())
    }

    /// Shows all that is stored. It waits for readers. `Memory`: nothing more is shown.
    pub fn publish_late<R: Wait>(&mut self, rt: &R) -> Result<(), Memory>
        ensures shown { OnOk result (self.new
            ≡ record self.old { shown = batches self.old.history }) }
        ensures err { OnErr result (self.new ≡ self.old) }
    {
        self.desk.copies.show(rt)
    }

    /// What is kept of a write line.
    pub fn outcome(&self, line: u64) -> Option<&Outcome>
        ensures found { option_map (λ o. kept_view o.now) result ≡ kept_of self.now.outcomes line }
        ensures told { IfSome result (λ o. IsTold line o.now) }
    {
        match find(self.outcomes.as_slice(), line) {
            Some(told) => Some(&told.outcome),
            None => None,
        }
    }

    /// A receipt of all that is shown, for a line that is stored and shown.
    pub fn receipt(&self, line: u64) -> Option<Receipt>
        ensures receipt { IfSome result (λ receipt. receipt
            ≡ record { history = self.now.table; list = self.now.shown }) }
        ensures stored { is_some result ≡ is_stored (kept_of self.now.outcomes line) }
    {
        match self.outcome(line) {
            Some(Outcome::Stored { .. }) => Some(self.tell()),
            _ => None,
        }
    }

    /// A receipt of all that is shown.
    pub fn tell(&self) -> Receipt
        ensures { result ≡ record { history = self.now.table; list = self.now.shown } }
    {
        self.desk.copies.tell()
    }

    /// The working store, of all that is stored.
    pub fn store(&self) -> &Store
        ensures { result.now ≡ batches self.now.history }
    {
        self.desk.ledger.store()
    }

    /// How many requests are stored. What the type keeps is said here.
    pub fn stored(&self) -> u32
        ensures count { result ≡ size self.now.history }
        ensures keeps { KeepsAll D.content D.images C.may self.now }
        ensures shows { ShowsStored self.now }
    {
        let _shown = self.desk.copies.shown();
        self.desk.ledger.requests()
    }

    /// How many requests are shown.
    pub fn shown(&self) -> u32
        ensures { result ≡ length self.now.shown }
    {
        self.desk.copies.shown()
    }

    /// Forgets what is kept of write lines.
    pub fn forget_outcomes(&mut self)
        ensures { self.new ≡ record self.old { outcomes = [] } }
    {
        self.outcomes.clear();
    }

    /// Gives what is kept of write lines, and forgets it. It takes no memory.
    pub fn take_outcomes(&mut self, alloc: Global) -> Vec<WriteOf>
        ensures outcomes { map told_view result.items ≡ self.old.outcomes }
        ensures told { AllByRecursion (λ w. IsTold w.line w.outcome) result.items }
        ensures side { self.new ≡ record self.old { outcomes = [] } }
    {
        self.outcomes.take(alloc)
    }

    /// Ends the side, and gives the disk and the clock back. It waits for readers.
    pub fn close<R: Wait>(self, rt: &R) -> (D, C)
        ensures { result ≡ (self.log.disk, self.clock) }
    {
        let WriteSide { desk, outcomes: _ } = self;
        desk.close(rt)
    }
}
