//! Where writes are carried out: the ledger, the published copies and the clock.
ghost use Rattle.std.specs.Prelude.{◌≡◌, ◌≤◌, ◌<◌, ◌+◌, ◌++◌, ◌∷◌, ◌^◌, ℕ, [], None, OnOk, OnErr};
ghost use Rattle.std.specs.Prelude.{IfErr, IsSome};
ghost use Rattle.gd_journal.specs.Causes.{HasReason};
ghost use Rattle.gd_mql.specs.Requests.{write_view};
ghost use Rattle.gd_runs.specs.Core.{Session, Settles};
ghost use Rattle.gd_runs.specs.Explained.{MayBe};
ghost use Rattle.gd_writer.specs.Parts.{Backs};
ghost use Rattle.gd_writer.specs.Judged.{IsStorable};
ghost use Rattle.gd_writer.specs.Carried.{Carries, Changes, IsAligned, desk_state, failed_as};

use crate::copies::Copies;
use crate::judge::{Asked, Next, Verdict, judge, moment};
use crate::ledger::Ledger;
use crate::outcome::Outcome;
use gd_base::memory::Memory;
use gd_disk::disk::Disk;
use gd_journal::fault::JournalFault;
use gd_outside::clock::Clock;
use std::alloc::Global;
use std::sync::Wait;

/// The ledger, the copies that show it, and the clock of its entries. All that the ledger has the
/// copies have, or are to show.
pub(crate) struct Desk<D: Disk, C: Clock> {
    pub(crate) alloc: Global,
    pub(crate) ledger: Ledger<D>,
    pub(crate) copies: Copies,
    pub(crate) clock: C,
}

/// Makes room for the entries and the batches of a write in doubt and of one more.
fn make_room<D: Disk>(ledger: &mut Ledger<D>, copies: &mut Copies) -> Result<(), Memory>
    ensures ledger { ledger.new ≡ record ledger.old { spare = ledger.new.spare } }
    ensures copies { copies.new ≡ record copies.old { spare = copies.new.spare } }
    ensures made { OnOk result ((2 ≤ ledger.new.spare) × (2 ≤ copies.new.spare)) }
{
    ledger.reserve(2)?;
    copies.reserve(2)?;
    Ok(())
}

/// What a write came to whose append failed over so many requests: it is in doubt where the disk
/// failed.
fn failed(fault: JournalFault, at: u32) -> Outcome
    ensures { result ≡ failed_as fault at }
{
    match fault {
        JournalFault::DiskFault => Outcome::Doubt { at },
        _ => Outcome::Memory,
    }
}

impl<D: Disk, C: Clock> Desk<D, C> {
    /// Carries a write line out, after an earlier doubt, and says what it came to. Publishing waits
    /// for readers.
    pub(crate) fn write<R: Wait>(&mut self, rt: &R, asked: Asked<'_>) -> Outcome
        requires aligned { IsAligned self.old.ledger self.old.copies }
        requires bytes { asked.bytes ≤ 262_144 }
        requires line { asked.line < 2 ^ 63 }
        ensures aligned { IsAligned self.new.ledger self.new.copies }
        ensures carries { Carries D.content D.moment D.images D.images_since D.faults C.may
            self.old.ledger self.old.copies self.old.clock
            asked.entry.line asked.entry.bytes (write_view asked.entry.request.now) self.new.ledger
            self.new.copies self.new.clock result }
    {
        let _stored = self.ledger.requests();
        if make_room(&mut self.ledger, &mut self.copies).is_err() {
            return Outcome::Memory;
        }
        self.write_in_room(rt, asked)
    }

    /// The same, where there is room for the entries and the batches of a write in doubt and of one
    /// more.
    fn write_in_room<R: Wait>(&mut self, rt: &R, asked: Asked<'_>) -> Outcome
        requires aligned { IsAligned self.old.ledger self.old.copies }
        requires room { (2 ≤ self.old.ledger.spare) × (2 ≤ self.old.copies.spare) }
        requires bytes { asked.bytes ≤ 262_144 }
        requires line { asked.line < 2 ^ 63 }
        ensures aligned { IsAligned self.new.ledger self.new.copies }
        ensures carries { Carries D.content D.moment D.images D.images_since D.faults C.may
            self.old.ledger self.old.copies self.old.clock
            asked.entry.line asked.entry.bytes (write_view asked.entry.request.now) self.new.ledger
            self.new.copies self.new.clock result }
    {
        match self.end_doubt(rt) {
            Ok(()) => self.change(rt, asked),
            Err(JournalFault::DiskFault) => Outcome::Unsettled,
            Err(_) => Outcome::Memory,
        }
    }

    /// Ends a doubt, if there is one. A write that counts is an entry then, and shown, if there is
    /// memory. An error leaves the doubt. `DiskFault`: the disk failed.
    fn end_doubt<R: Wait>(&mut self, rt: &R) -> Result<(), JournalFault>
        requires aligned { IsAligned self.old.ledger self.old.copies }
        requires room { (2 ≤ self.old.ledger.spare) × (2 ≤ self.old.copies.spare) }
        ensures aligned { IsAligned self.new.ledger self.new.copies }
        ensures settles { OnOk result ((sessions : ℕ → Session)
            → Settles (desk_state self.old.ledger self.old.copies sessions)
            (desk_state self.new.ledger self.new.copies sessions)) }
        ensures none { OnOk result (self.new.ledger.doubt ≡ None) }
        ensures err { OnErr result
            ((self.new.ledger ≡ record self.old.ledger { log = self.new.ledger.log })
            × (self.new.copies ≡ self.old.copies)) }
        ensures some { OnErr result (IsSome self.old.ledger.doubt) }
        ensures room { OnOk result ((1 ≤ self.new.ledger.spare) × (1 ≤ self.new.copies.spare)) }
        ensures table { self.new.copies.table ≡ self.old.copies.table }
        ensures clock { self.new.clock ≡ self.old.clock }
        ensures backs { Backs D.content D.moment D.images D.images_since D.faults self.old.ledger
            self.new.ledger }
        ensures cause { IfErr result (HasReason (D.faults self.old.ledger.log.disk)
            (D.faults self.new.ledger.log.disk)) }
    {
        match self.ledger.settle() {
            Ok(None) => Ok(()),
            Ok(Some(batch)) => {
                let _stored = self.ledger.requests();
                let _shown = self.copies.show_with(rt, batch);
                Ok(())
            }
            Err(fault) => Err(fault),
        }
    }

    /// Carries a write line out where none is in doubt.
    fn change<R: Wait>(&mut self, rt: &R, asked: Asked<'_>) -> Outcome
        requires aligned { IsAligned self.old.ledger self.old.copies }
        requires room { (1 ≤ self.old.ledger.spare) × (1 ≤ self.old.copies.spare) }
        requires none { self.old.ledger.doubt ≡ None }
        requires bytes { asked.bytes ≤ 262_144 }
        requires line { asked.line < 2 ^ 63 }
        ensures aligned { IsAligned self.new.ledger self.new.copies }
        ensures changes { Changes D.content D.moment D.images D.images_since D.faults C.may
            self.old.ledger self.old.copies self.old.clock
            asked.entry.line asked.entry.bytes (write_view asked.entry.request.now) self.new.ledger
            self.new.copies self.new.clock result }
    {
        let at = self.ledger.requests();
        let moment = moment(&mut self.clock);
        match judge(self.alloc, &self.ledger, asked, moment) {
            Ok(Verdict::Refused { fault, reply }) => Outcome::Refused { fault, at, reply },
            Ok(Verdict::Storable(next)) => self.store(rt, asked, moment, next),
            Err(_) => Outcome::Memory,
        }
    }

    /// Stores a write that may be stored, and shows it with all others, if there is memory. No
    /// memory is needed once it is on the disk.
    fn store<R: Wait>(&mut self, rt: &R, asked: Asked<'_>, moment: u64, next: Next) -> Outcome
        requires aligned { IsAligned self.old.ledger self.old.copies }
        requires room { (1 ≤ self.old.ledger.spare) × (1 ≤ self.old.copies.spare) }
        requires none { self.old.ledger.doubt ≡ None }
        requires moment { MayBe (C.may self.old.clock) moment }
        requires storable { IsStorable self.old.ledger.history asked.line asked.bytes
            (write_view asked.request.now) moment next }
        ensures aligned { IsAligned self.new.ledger self.new.copies }
        ensures changes { Changes D.content D.moment D.images D.images_since D.faults C.may
            self.old.ledger self.old.copies self.old.clock
            asked.entry.line asked.entry.bytes (write_view asked.entry.request.now) self.new.ledger
            self.new.copies self.new.clock result }
    {
        let at = self.ledger.requests();
        let Next {
            made,
            answer,
            reply,
        } = next;
        match self.ledger.append(self.alloc, made) {
            Ok(batch) => {
                let _stored = self.ledger.requests();
                match self.copies.show_with(rt, batch) {
                    Ok(()) => Outcome::Stored {
                        entry: at,
                        answer,
                        reply,
                    },
                    Err(_) => Outcome::Late { entry: at },
                }
            }
            Err(fault) => failed(fault, at),
        }
    }

    /// Ends the copies, and gives the disk and the clock back. It waits for readers.
    pub(crate) fn close<R: Wait>(self, rt: &R) -> (D, C)
        ensures { result ≡ (self.ledger.log.disk, self.clock) }
    {
        let Desk {
            alloc: _,
            ledger,
            copies,
            clock,
        } = self;
        copies.close(rt);
        (ledger.into_disk(), clock)
    }
}
