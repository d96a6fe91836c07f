//! A session over a seat. No call waits.
ghost use Rattle.std.specs.Prelude.{◌≡◌, ◌≢◌, ◌+◌, ◌-◌, ◌<◌, ◌≤◌, ◌^◌, ℕ, true, None, Some, length};
ghost use Rattle.std.specs.Prelude.{max, min, option_map, Ok, Err, IfOk, IfErr, IfSome, IsNone, MatchBool};
ghost use mathlib.Core.List.{IsPrefix};
ghost use Rattle.gd_mql.specs.Requests.{read_set_view};
ghost use Rattle.gd_shared.specs.Shared.{longer};
ghost use Rattle.gd_read.specs.Left.{IsPastIds};
ghost use Rattle.gd_read.specs.Reading.{is_unfinished};
ghost use Rattle.gd_seats.specs.Session.{reads, seen_of, left_of};
ghost use Rattle.gd_seats.specs.Calls.{IsLater, BeginsAs, BeginsOver, LooksAs, SlicesAs, MeetsAs};
ghost use Rattle.gd_seats.specs.Calls.{IsDatelineFault, shown_of};
ghost use Rattle.gd_read.specs.Begun.{read_dateline};

use crate::fault::SessionFault;
use core::mem::{replace, replace_with};
use gd_base::memory::Memory;
use gd_base::steps::Steps;
use gd_mql::request::ReadSet;
use gd_read::dateline::dateline_asked;
use gd_read::fault::ReadFault;
use gd_read::reading::Progress;
use gd_read::session::SessionState;
use gd_shared::{Receipt, Seat};
use gd_store::store::Store;
use std::alloc::Global;
use std::marker::Model;

/// What a worker holds of a session: a seat of the published store, and the reading with which the
/// session goes on. Contracts see both; `reads` is the reading as the definitions have it.
#[derive(Drop)]
pub struct Session {
    seat: Seat,
    state: SessionState,
}

impl Model for Session {
    ghost use Rattle.std.specs.Prelude.{length};
    ghost use Rattle.std.specs.Coded.{codes};
    ghost use Rattle.gd_read.specs.contracts.reading.Reading as reading_row;
    ghost use Rattle.gd_read.specs.Session.{HoldsGoing};
    ghost use Rattle.gd_seats.specs.Session.{SessionValue};

    ghost Value = { SessionValue };

    ghost coded = { Prim.hlevel (codes, reading_row.the_row.coded) };

    ghost view = { λ session. record { seat = session.seat; held = session.state.reading } };

    ghost invariant = { λ session. HoldsGoing session.seat.entered (length session.seat.entered)
        session.state };
}

/// Where a session stands that looks for a read: the number of requests of the list that it
/// entered, and the dateline that the read would have there.
#[derive(Clone, Copy, Debug, PartialEq, Eq)]
pub struct Looked {
    pub snapshot: u32,
    pub dateline: u32,
}

/// What is to be read, by a session that is let in, and the steps that were taken.
#[derive(Drop)]
struct Beginning<L> {
    alloc: Global,
    request: ReadSet,
    // Over how many requests, if not over all that are shown.
    at: Option<u32>,
    steps: Steps<L>,
}

/// How far a session that is let in is to go on, for which line, and the steps that were taken.
#[derive(Drop)]
struct Slicing<L> {
    alloc: Global,
    budget: u64,
    line: u64,
    steps: Steps<L>,
}

/// Enters and leaves. What the session reads stays.
fn meet_in(session: Session, _nothing: ()) -> (Session, Result<(), SessionFault>)
    ensures { MeetsAs session result.0 result.1 }
{
    let Session { seat, state } = session;
    match seat.enter() {
        Ok(entered) => {
            let seat = entered.leave();
            (Session { seat, state }, Ok(()))
        }
        Err(seat) => (Session { seat, state }, Err(SessionFault::Shut)),
    }
}

/// The dateline of a read, where this is the latest one.
fn seen_at(latest: u32, request: &ReadSet) -> Result<Looked, SessionFault>
    ensures ok { IfOk result (λ l. (l.snapshot ≡ latest)
        × (read_dateline latest (read_set_view request.now) ≡ Ok l.dateline)) }
    ensures err { IfErr result (λ fault. IsDatelineFault latest (read_set_view request.now)
        fault) }
{
    match dateline_asked(latest, request) {
        Ok(dateline) => Ok(Looked {
            snapshot: latest,
            dateline,
        }),
        Err(fault) => Err(SessionFault::Read(fault)),
    }
}

/// Enters, asks for the dateline that a read would have, and leaves. What the session reads stays.
fn look_in(session: Session, request: &ReadSet) -> (Session, Result<Looked, SessionFault>)
    ensures { LooksAs session result.0 (read_set_view request.now) result.1 }
{
    let Session { seat, state } = session;
    match seat.enter() {
        Ok(entered) => {
            let latest = entered.store().requests();
            let seat = entered.leave();
            (Session { seat, state }, seen_at(latest, request))
        }
        Err(seat) => (Session { seat, state }, Err(SessionFault::Shut)),
    }
}

/// This number of requests of a store, or all of them.
fn shown_at(store: &Store, at: Option<u32>) -> u32
    requires { IfSome at (λ n. n ≤ length store.now) }
    ensures this { IfSome at (λ n. result ≡ n) }
    ensures all { IsNone at → result ≡ length store.now }
    ensures within { result ≤ length store.now }
{
    match at {
        Some(shown) => shown,
        None => store.requests(),
    }
}

/// Enters, begins a reading over the store that is there, and leaves.
fn begin_in<L>(
    session: Session,
    beginning: Beginning<L>,
) -> (Session, (Steps<L>, Result<u32, SessionFault>))
    requires none { reads session ≡ None }
    requires seen { IfSome beginning.at (λ n. n ≤ seen_of session.seat) }
    ensures begins { BeginsOver (shown_of beginning.at result.0) session result.0
        (read_set_view beginning.request) result.1.1 }
    ensures steps { beginning.steps ≤ result.1.0 }
{
    let Session { seat, state: held } = session;
    drop(held);
    let Beginning {
        alloc,
        request,
        at,
        mut steps,
    } = beginning;
    match seat.enter() {
        Ok(entered) => {
            let store = entered.store();
            let shown = shown_at(store, at);
            let begun = SessionState::begin(alloc, store, shown, request, &mut steps);
            let seat = entered.leave();
            match begun {
                Ok(state) => {
                    let dateline = state.dateline().unwrap();
                    (Session { seat, state }, (steps, Ok(dateline)))
                }
                Err(fault) => (Session::new(seat), (steps, Err(SessionFault::Read(fault)))),
            }
        }
        Err(seat) => {
            drop(request);
            (Session::new(seat), (steps, Err(SessionFault::Shut)))
        }
    }
}

/// What a session that was let in answers, by what its slice came to.
fn answer_of(sliced: Result<Progress, Memory>) -> Result<Progress, SessionFault>
    ensures ok { IfOk sliced (λ progress. result ≡ Ok progress) }
    ensures err { IfErr sliced (λ _. result ≡ Err (SessionFault.Read ReadFault.Memory)) }
{
    match sliced {
        Ok(progress) => Ok(progress),
        Err(refused) => Err(SessionFault::Read(ReadFault::from(refused))),
    }
}

/// Enters, goes on with the reading that is held over the store that is there, and leaves.
fn slice_in<L>(
    session: Session,
    slicing: Slicing<L>,
) -> (Session, (Steps<L>, Result<Progress, SessionFault>))
    requires held { reads session ≢ None }
    requires budget { 0 < slicing.budget }
    requires line { slicing.line < 2 ^ 63 }
    ensures slices { SlicesAs session result.0 slicing.line result.1.1 }
    ensures reached { IfOk result.1.1
        (λ progress. is_unfinished progress ≡ true
        → min (slicing.steps + slicing.budget) (2 ^ 64 - 1) ≤ result.1.0) }
    ensures less { (n : ℕ) → IsPastIds n → result.1.0 + left_of n result.0 ≤ slicing.steps + left_of
        n session }
    ensures work { result.1.0 ≤ slicing.steps + slicing.budget + 1024 }
    ensures steps { slicing.steps ≤ result.1.0 }
{
    let Session { seat, mut state } = session;
    let Slicing {
        alloc,
        budget,
        line,
        mut steps,
    } = slicing;
    match seat.enter() {
        Ok(entered) => {
            let sliced = state.slice(alloc, entered.store(), budget, line, &mut steps);
            let seat = entered.leave();
            (Session { seat, state }, (steps, answer_of(sliced)))
        }
        Err(seat) => (Session { seat, state }, (steps, Err(SessionFault::Shut))),
    }
}

impl Session {
    /// A session of this seat, which holds no reading.
    pub fn new(seat: Seat) -> Session
        ensures { result ≡ record { seat = seat; held = None } }
    {
        Session {
            seat,
            state: SessionState::none(),
        }
    }

    /// The number of requests of the longest list that it entered or was told of.
    pub fn seen(&self) -> u32
        ensures { result ≡ seen_of self.now.seat }
    {
        self.seat.seen()
    }

    /// How often it was not let in.
    pub fn turned_away(&self) -> u64
        ensures { result ≡ self.now.seat.turned_away }
    {
        self.seat.turned_away()
    }

    /// The dateline of the reading that it holds, if it holds one. The session has entered it.
    pub fn dateline(&self) -> Option<u32>
        ensures at { result ≡ option_map (λ r. r.dateline) (reads self.now) }
        ensures below { IfSome (reads self.now) (λ r. r.dateline ≤ length self.now.seat.entered) }
    {
        self.state.dateline()
    }

    /// Whether the list of a receipt begins with all that it has seen. If not, it is shorter than
    /// that. The receipt is of the table of its seat.
    pub fn has_only(&self, receipt: &Receipt) -> bool
        requires table { receipt.now.history ≡ self.now.seat.history }
        ensures { MatchBool result (IsPrefix self.now.seat.entered receipt.now.list
            × IsPrefix self.now.seat.told receipt.now.list)
            (length receipt.now.list < seen_of self.now.seat) }
    {
        self.seat.has_only(receipt)
    }

    /// Learns that a list was published: what it enters from now on begins with that. The receipt
    /// is of the table of its seat.
    pub fn learn(&mut self, receipt: Receipt)
        requires table { receipt.history ≡ self.old.seat.history }
        ensures told { self.new
            ≡ record self.old {
              seat = record self.old.seat {
                told = longer self.old.seat.told
                    receipt.list;
              };
            } }
        ensures begun { IsPrefix receipt.list self.new.seat.told }
        ensures later { IsLater self.old.seat self.new.seat }
    {
        self.seat.learn(receipt);
    }

    /// Drops the reading that it holds, if it holds one.
    pub fn end(&mut self)
        ensures { self.new ≡ record self.old { held = None } }
    {
        self.state.end();
    }

    /// Enters the published store and leaves it; the reading that is held stays. `Shut`: the
    /// session was not let in, and is as it was, but for the count of that.
    pub fn meet(&mut self) -> Result<(), SessionFault>
        ensures meets { MeetsAs self.old self.new result }
        ensures later { IsLater self.old.seat self.new.seat }
    {
        replace_with(self, (), meet_in)
    }

    /// Begins a read over the published store as it is now, or for a further page as it was at the
    /// dateline of the cursor, and says at which dateline. Its words are looked up here, which is
    /// not cut in slices. `Read`: the session has entered, but the reading is refused as the
    /// definitions say or there was no memory, and none is held. `Shut`: the session was not let
    /// in, and is as it was, but for the count of that.
    pub fn begin<L>(
        &mut self,
        alloc: Global,
        request: ReadSet,
        steps: &mut Steps<L>,
    ) -> Result<u32, SessionFault>
        requires none { reads self.old ≡ None }
        ensures begins { BeginsAs self.old self.new (read_set_view request) result }
        ensures later { IsLater self.old.seat self.new.seat }
        ensures steps { steps.old ≤ steps.new }
    {
        let beginning = Beginning {
            alloc,
            request,
            at: None,
            steps: replace(steps, Steps::new()),
        };
        let (taken, answer) = replace_with(self, beginning, begin_in::<L>);
        *steps = taken;
        answer
    }

    /// Enters the published store, asks for the dateline that a read would have over it, and leaves;
    /// the reading that is held stays. Nothing of the read but its cursor is looked at, so its reply
    /// may be looked up before it is begun. `Read`: the cursor is refused, as the definitions say,
    /// or there was no memory. `Shut`: the session was not let in, and is as it was, but for the
    /// count of that.
    pub fn look(&mut self, request: &ReadSet) -> Result<Looked, SessionFault>
        ensures looks { LooksAs self.old self.new (read_set_view request.now) result }
        ensures later { IsLater self.old.seat self.new.seat }
    {
        replace_with(self, request, look_in)
    }

    /// Begins a read as `begin` does, but over so many requests, which the session has seen, in
    /// place of all that are published.
    pub fn begin_at<L>(
        &mut self,
        alloc: Global,
        request: ReadSet,
        snapshot: u32,
        steps: &mut Steps<L>,
    ) -> Result<u32, SessionFault>
        requires none { reads self.old ≡ None }
        requires seen { snapshot ≤ seen_of self.old.seat }
        ensures begins { BeginsOver snapshot self.old self.new (read_set_view request) result }
        ensures later { IsLater self.old.seat self.new.seat }
        ensures steps { steps.old ≤ steps.new }
    {
        let beginning = Beginning {
            alloc,
            request,
            at: Some(snapshot),
            steps: replace(steps, Steps::new()),
        };
        let (taken, answer) = replace_with(self, beginning, begin_in::<L>);
        *steps = taken;
        answer
    }

    /// Goes on with the reading that is held, until the budget of steps is reached or the reply
    /// line is there: the page at the dateline of the reading, whatever was written since, or the
    /// refusal in its place. `line` is the number of the line that the reply tells. It takes at
    /// most 1,024 steps more than the budget. A reply ends the reading. `Read`: there was no
    /// memory, and that ends it too. `Shut`: the session was not let in, and is as it was, but for
    /// the count of that.
    pub fn slice<L>(
        &mut self,
        alloc: Global,
        budget: u64,
        line: u64,
        steps: &mut Steps<L>,
    ) -> Result<Progress, SessionFault>
        requires held { reads self.old ≢ None }
        requires budget { 0 < budget }
        requires line { line < 2 ^ 63 }
        ensures slices { SlicesAs self.old self.new line result }
        ensures reached { IfOk result (λ progress. is_unfinished progress ≡ true
            → min (steps.old + budget) (2 ^ 64 - 1) ≤ steps.new) }

        // What is left falls by at least the steps of the slice, whatever it comes to; `n` is a
        // number that no id reaches.
        ensures less { (n : ℕ) → IsPastIds n → steps.new + left_of n self.new
            ≤ steps.old + left_of n self.old }
        ensures work { steps.new ≤ steps.old + budget + 1024 }
        ensures later { IsLater self.old.seat self.new.seat }
        ensures steps { steps.old ≤ steps.new }
    {
        let slicing = Slicing {
            alloc,
            budget,
            line,
            steps: replace(steps, Steps::new()),
        };
        let (taken, answer) = replace_with(self, slicing, slice_in::<L>);
        *steps = taken;
        answer
    }
}
