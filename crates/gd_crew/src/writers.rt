//! The lock of writes.
ghost use Rattle.std.specs.Prelude.{◌≡◌, ◌≤◌, ◌<◌, ◌^◌, ℕ, Bool, true, false, Some, IfOk, IfSome};
ghost use Rattle.std.specs.Prelude.{OnOk, OnErr, is_some};
ghost use Rattle.gd_runs.specs.Side.{IsLeft};
ghost use Rattle.gd_core_laws.specs.Bounds.{kept_of};
ghost use Rattle.gd_core_laws.specs.Lock.{HasOutcome};
ghost use Rattle.gd_mql.specs.Requests.{write_view};
ghost use Rattle.gd_writer.specs.Outcomes.{is_stored};
ghost use Rattle.gd_crew.specs.Round.{begun, BeginsRound, IsLocked, IsOfRound, IsToldLocked};

use gd_base::memory::Memory;
use gd_disk::disk::Disk;
use gd_mql::request::WriteRequest;
use gd_outside::clock::Clock;
use gd_shared::Receipt;
use gd_writer::side::WriteSide;
use std::marker::{Brand, Model, PhantomData};
use std::sync::{Mutex, Wait};

/// What stood when a round began, and its lines: the table of the published copies, the numbers
/// that the clock may give, whether the disk told its content, its moment, the history, the number
/// shown, the group in doubt and the disk's count. Whoever runs a round is generic in it, and is
/// called with `Brand`, for which the caller picks what is named.
pub trait Round {
    ghost use Rattle.gd_crew.specs.Round.{Named};

    ghost named: { Named };
}

impl Round for Brand {
    ghost use Rattle.gd_crew.specs.Round.{no_round};

    ghost named = { no_round };
}

/// The side under the lock, with what the lock keeps of it in a round.
struct Held<L: Round, D: Disk, C: Clock> {
    side: WriteSide<D, C>,
    of: PhantomData<L>,
}

impl<L: Round, D: Disk, C: Clock> Model for Held<L, D, C> {
    ghost use Rattle.gd_writer.specs.Side.{SideValue};
    ghost use Rattle.gd_crew.specs.Round.{IsLocked};
    ghost use Rattle.std.specs.Coded.{codes};
    ghost use Rattle.gd_tree.specs.JsonCode.{json_code};
    ghost use Rattle.gd_writer.specs.ChangeCode.{members_code};

    ghost Value = { SideValue D C };

    ghost coded = { Prim.hlevel (codes, members_code, json_code, D.code, C.code) };

    ghost view = { λ h. h.side };

    ghost invariant = { λ h. IsLocked D.content D.moment D.images D.images_since D.faults C.may
        L.named h.side };
}

impl<L: Round, D: Disk, C: Clock> Held<L, D, C> {
    /// Something is kept of this line.
    fn is_kept(&self, line: u64) -> bool
        ensures kept { result ≡ true → HasOutcome self.now.outcomes line }
        ensures left { result ≡ false → IsLeft self.now.outcomes line }
    {
        self.side.outcome(line).is_some()
    }

    /// Of this line nothing is kept, and something of the line before it, if there is one.
    fn is_next(&self, line: u64, before: Option<u64>) -> bool
        ensures left { result ≡ true → IsLeft self.now.outcomes line }
        ensures next { result ≡ true → IfSome before (λ m. HasOutcome self.now.outcomes m) }
    {
        if self.is_kept(line) {
            return false;
        }
        match before {
            Some(before) => self.is_kept(before),
            None => true,
        }
    }

    /// Writes a line of the round which is the next one of its session, and of which nothing is
    /// kept.
    fn write_next<R: Wait>(
        &mut self,
        rt: &R,
        line: u64,
        before: Option<u64>,
        request: &WriteRequest,
        bytes: u64,
    ) -> Result<(), Memory>
        requires of_round { IsOfRound (begun L.named) line before (write_view request.now) bytes }
        requires bytes { bytes ≤ 262_144 }
        requires line { line < 2 ^ 63 }
        requires left { IsLeft self.old.outcomes line }
        requires next { IfSome before (λ m. HasOutcome self.old.outcomes m) }
    {
        let _stored = self.side.stored();
        self.side.write(rt, line, request, bytes)?;
        Ok(())
    }

    /// A receipt of all that is shown, for a line that is stored and shown.
    fn receipt(&self, line: u64) -> Option<Receipt>
        ensures stored { is_some result ≡ is_stored (kept_of self.now.outcomes line) }
        ensures told { IfSome result (λ receipt. IsToldLocked D.content D.moment D.images
            D.images_since D.faults C.may L.named receipt) }
    {
        self.side.receipt(line)
    }

    /// Writes a line of the round where it is the next one of its session and nothing is kept of
    /// it, and gives a receipt where the line is stored and shown.
    fn write<R: Wait>(
        &mut self,
        rt: &R,
        line: u64,
        before: Option<u64>,
        request: &WriteRequest,
        bytes: u64,
    ) -> Result<Option<Receipt>, Memory>
        requires of_round { IsOfRound (begun L.named) line before (write_view request.now) bytes }
        requires bytes { bytes ≤ 262_144 }
        requires line { line < 2 ^ 63 }
        ensures stored { IfOk result (λ found. is_some found
            ≡ is_stored (kept_of self.new.outcomes line)) }
        ensures told { IfOk result (λ found. IfSome found
            (λ receipt. IsToldLocked D.content D.moment D.images D.images_since D.faults C.may
            L.named receipt)) }
    {
        if !self.is_next(line, before) {
            return Ok(self.receipt(line));
        }
        self.write_next(rt, line, before, request, bytes)?;
        Ok(self.receipt(line))
    }
}

/// The lock of writes round the write side, for one round, which `L` names.
pub struct Writers<L: Round, D: Disk, C: Clock> {
    held: Mutex<Held<L, D, C>>,
}

impl<L: Round, D: Disk, C: Clock> Writers<L, D, C> {
    /// A lock round a side that is as `L` names it. It takes no memory.
    pub fn new(side: WriteSide<D, C>) -> Writers<L, D, C>
        requires { BeginsRound D.content D.moment D.faults C.may L.named side }
    {
        // A side says here what it keeps.
        let _stored = side.stored();
        Writers {
            held: Mutex::new(Held {
                side,
                of: PhantomData,
            }),
        }
    }

    /// The side, once the round has ended, of which holds what the lock kept. It takes no memory.
    pub fn into_side(self) -> WriteSide<D, C>
        ensures { IsLocked D.content D.moment D.images D.images_since D.faults C.may L.named
            result }
    {
        let Writers { held } = self;
        let Held { side, of: _ } = held.into_inner();
        side
    }

    /// Writes a line of the round, where nothing is kept of it yet, and something of the write line
    /// of its session directly before it, `before`, if there is one. It gives a receipt where the
    /// line is stored and shown. `Memory`: there was no room to keep an outcome, and nothing was
    /// done. It waits for the lock and for readers.
    pub fn write<R: Wait>(
        &self,
        rt: &R,
        line: u64,
        before: Option<u64>,
        request: &WriteRequest,
        bytes: u64,
    ) -> Result<Option<Receipt>, Memory>
        requires of_round { IsOfRound (begun L.named) line before (write_view request.now) bytes }
        requires bytes { bytes ≤ 262_144 }
        requires line { line < 2 ^ 63 }
        ensures told { IfOk result (λ found. IfSome found
            (λ receipt. IsToldLocked D.content D.moment D.images D.images_since D.faults C.may
            L.named receipt)) }
    {
        self.held.lock(rt).write(rt, line, before, request, bytes)
    }
}
