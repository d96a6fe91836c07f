//! A session of the core.
ghost use Rattle.std.specs.Prelude.{◌≡◌, ◌≢◌, ◌+◌, ◌-◌, ◌<◌, ◌≤◌, ◌^◌, ◌⊎◌, ℕ, length, max, min};
ghost use Rattle.std.specs.Prelude.{None, false, IfOk, IfSome, OnErr};
ghost use Rattle.gd_mql.specs.Requests.{read_view, read_set_view};
ghost use Rattle.gd_runs.specs.Core as core;
ghost use Rattle.gd_runs.specs.Request.{one_query};
ghost use Rattle.gd_runs.specs.Pace.{DueOf, first_number};
ghost use Rattle.gd_held.specs.PassedOn.{IsPastIds};
ghost use Rattle.gd_held.specs.Held.{nothing, reads, held_left};
ghost use Rattle.gd_sessions.specs.Sessions.{in_session, holds_thawed, BeginsAs, SlicesAs, LearnsAs};
ghost use Rattle.gd_sessions.specs.Sessions.{FreezesAs, ThawsAs};
ghost use Rattle.gd_sessions.specs.Held.{session_view, IsGoingOn};

use crate::lines::{frozen_line, many_queries_line, no_reading_line, said};
use gd_base::memory::Memory;
use gd_base::steps::Steps;
use gd_held::Progress;
use gd_held::held::HeldReading;
use gd_mql::request::{ReadRequest, ReadSet};
use gd_reply::lines::err_line;
use gd_reply::refusal::Refusal;
use gd_store::store::Store;
use std::alloc::Global;

/// A session: how much it has seen, and what it holds of its reading.
#[derive(Drop)]
pub(crate) struct Held {
    pub(crate) seen: u32,
    pub(crate) state: HeldReading,
}

/// The reply line that says with this word at which dateline a reading is that is held.
fn said_of(alloc: Global, state: &HeldReading, line: u64, word: &str) -> Result<Vec<u8>, Memory>
    requires held { reads state.now ≢ None }
    ensures { IfOk result (λ bytes. IfSome (reads state.now)
        (λ r. bytes.items ≡ core.said r.dateline line word.now)) }
{
    match state.dateline() {
        Some(dateline) => said(alloc, dateline, line, word),
        None => unreachable!(),
    }
}

impl Held {
    /// A session that has seen nothing, and holds nothing.
    pub(crate) fn new() -> Held
        ensures { result ≡ record { seen = 0; state = nothing } }
    {
        Held {
            seen: 0,
            state: HeldReading::none(),
        }
    }

    /// The session has entered where so much is shown, and holds this.
    fn enter(&mut self, shown: u32, state: HeldReading)
        ensures { self.new ≡ record { seen = shown; state = state } }
    {
        self.seen = shown;
        self.state = state;
    }

    /// Begins a read over the requests of the store that are shown, and tells so, or tells why it
    /// does not begin. What the session held is dropped. `Memory`: there was none, and the session
    /// stays.
    pub(crate) fn begin<L>(
        &mut self,
        alloc: Global,
        store: &Store,
        shown: u32,
        line: u64,
        request: ReadSet,
        steps: &mut Steps<L>,
    ) -> Result<Vec<u8>, Memory>
        requires line { line < 2 ^ 63 }
        requires shown { shown ≤ length store.now }
        ensures begins { IfOk result (λ reply. BeginsAs store.now shown line (read_set_view request)
            reply.items (session_view self.new)) }
        ensures err { OnErr result (self.new ≡ self.old) }
        ensures held { IsGoingOn store.now shown self.old → IsGoingOn store.now shown self.new }

        // No more is left of a reading that has begun than its first number.
        ensures first { IfOk result (λ _. (n : ℕ) (due : DueOf) → IfSome (reads self.new.state)
            (λ r. held_left n store.now self.new.state ≤ first_number due store.now r)) }
        ensures later { steps.old ≤ steps.new }
    {
        match HeldReading::begin(alloc, store, shown, request, steps) {
            Ok(state) => {
                let reply = said_of(alloc, &state, line, "begun")?;
                self.enter(shown, state);
                Ok(reply)
            }
            Err(fault) => {
                let reply = fault.line(alloc, shown, line)?;
                self.enter(shown, HeldReading::none());
                Ok(reply)
            }
        }
    }

    /// Goes on with the reading that is held for a budget of steps, and tells that it is
    /// unfinished, or gives the reply that it owes, and holds it no more. Without a reading it
    /// tells so. `Memory`: there was none, and the reading stays or is dropped. It takes at most
    /// 1,024 steps more than the budget.
    pub(crate) fn slice<L>(
        &mut self,
        alloc: Global,
        store: &Store,
        shown: u32,
        line: u64,
        budget: u64,
        steps: &mut Steps<L>,
    ) -> Result<Vec<u8>, Memory>
        requires line { line < 2 ^ 63 }
        requires shown { shown ≤ length store.now }
        requires budget { 0 < budget }
        requires held { IsGoingOn store.now shown self.old }
        ensures slices { IfOk result (λ reply. SlicesAs store.now shown line (session_view self.old)
            reply.items (session_view self.new)) }
        ensures err { OnErr result ((session_view self.new ≡ session_view self.old)
            ⊎ (session_view self.new ≡ in_session shown None)) }
        ensures held { IsGoingOn store.now shown self.new }

        // A reading is held still only where the budget was reached.
        ensures reached { reads self.new.state ≢ None → min (steps.old + budget) (2 ^ 64 - 1)
            ≤ steps.new }

        // What is left of a reading that was not thawed falls by at least the steps, and of none is
        // left more than before.
        ensures less { holds_thawed (reads self.old.state) ≡ false → (n : ℕ) → IsPastIds n
            → steps.new + held_left n store.now self.new.state
            ≤ steps.old + held_left n store.now self.old.state }
        ensures fewer { (n : ℕ) → IsPastIds n
            → held_left n store.now self.new.state ≤ held_left n store.now self.old.state }
        ensures work { steps.new ≤ steps.old + budget + 1024 }
        ensures later { steps.old ≤ steps.new }
    {
        let Some(dateline) = self.state.dateline() else {
            return no_reading_line(alloc, line);
        };
        match self.state.slice(alloc, store, budget, line, steps) {
            Ok(Progress::Reply(bytes)) => {
                self.seen = shown;
                Ok(bytes)
            }
            Ok(Progress::Unfinished) => {
                let reply = said(alloc, dateline, line, "unfinished")?;
                self.seen = shown;
                Ok(reply)
            }
            Err(refused) => {
                self.seen = shown;
                Err(refused)
            }
        }
    }

    /// Tells a text of the reading that is held, which stays as it is, or that there is none, or
    /// that it is of several queries. `Memory`: there was none.
    pub(crate) fn freeze(&self, alloc: Global, store: &Store, line: u64) -> Result<Vec<u8>, Memory>
        requires line { line < 2 ^ 63 }
        requires held { IsGoingOn store.now (length store.now) self.now }
        ensures { IfOk result (λ reply. FreezesAs store.now line (reads self.now.state)
            reply.items) }
    {
        let Some(dateline) = self.state.dateline() else {
            return no_reading_line(alloc, line);
        };
        match self.state.freeze(alloc, store)? {
            Some(text) => frozen_line(alloc, dateline, line, text.as_slice()),
            None => many_queries_line(alloc, line),
        }
    }

    /// Takes up a reading of one query again from a text, and tells so, or tells why it is not
    /// taken up: what the session held stays then. Several queries are not thawed. `Memory`: there
    /// was none, and the session stays.
    pub(crate) fn thaw<L>(
        &mut self,
        alloc: Global,
        store: &Store,
        shown: u32,
        line: u64,
        request: ReadSet,
        text: &[u8],
        steps: &mut Steps<L>,
    ) -> Result<Vec<u8>, Memory>
        requires line { line < 2 ^ 63 }
        requires shown { shown ≤ length store.now }
        ensures thaws { IfOk result (λ reply. ThawsAs store.now shown line (read_set_view request)
            text.now (session_view self.old) reply.items (session_view self.new)) }
        ensures err { OnErr result (self.new ≡ self.old) }
        ensures held { IsGoingOn store.now shown self.old → IsGoingOn store.now shown self.new }

        // Of a reading that was thawed no steps are counted.
        ensures left { (n : ℕ)
            → held_left n store.now self.new.state ≤ held_left n store.now self.old.state }
        ensures later { steps.old ≤ steps.new }
    {
        match request {
            ReadSet::One(request) => {
                self.thaw_one(alloc, store, shown, line, request, text, steps)
            }
            ReadSet::Several(_) => many_queries_line(alloc, line),
        }
    }

    /// Takes up a reading of one query again from a text, and tells so, or tells why it is not
    /// taken up.
    fn thaw_one<L>(
        &mut self,
        alloc: Global,
        store: &Store,
        shown: u32,
        line: u64,
        request: ReadRequest,
        text: &[u8],
        steps: &mut Steps<L>,
    ) -> Result<Vec<u8>, Memory>
        requires line { line < 2 ^ 63 }
        requires shown { shown ≤ length store.now }
        ensures thaws { IfOk result (λ reply. ThawsAs store.now shown line
            (one_query (read_view request)) text.now (session_view self.old) reply.items
            (session_view self.new)) }
        ensures err { OnErr result (self.new ≡ self.old) }
        ensures held { IsGoingOn store.now shown self.old → IsGoingOn store.now shown self.new }
        ensures left { (n : ℕ)
            → held_left n store.now self.new.state ≤ held_left n store.now self.old.state }
        ensures later { steps.old ≤ steps.new }
    {
        match HeldReading::thaw(alloc, store, shown, request, text, steps) {
            Ok(state) => {
                let reply = said_of(alloc, &state, line, "thawed")?;
                self.enter(shown, state);
                Ok(reply)
            }
            Err(fault) => {
                let reply = fault.line(alloc, shown, line)?;
                self.seen = shown;
                Ok(reply)
            }
        }
    }

    /// Has seen at least this dateline, and at most what is shown.
    pub(crate) fn see(&mut self, shown: u32, dateline: u32)
        ensures { self.new ≡ record {
          seen = min shown (max dateline self.old.seen);
          state = self.old.state;
        } }
    {
        self.seen = shown.min(dateline.max(self.seen));
    }

    /// Learns of a dateline, and tells so, or that it is above what is shown. `Memory`: there was
    /// none, and the session stays.
    pub(crate) fn learn(
        &mut self,
        alloc: Global,
        shown: u32,
        line: u64,
        dateline: u32,
    ) -> Result<Vec<u8>, Memory>
        requires line { line < 2 ^ 63 }
        ensures learns { IfOk result (λ reply. LearnsAs shown line dateline (session_view self.old)
            reply.items (session_view self.new)) }
        ensures err { OnErr result (self.new ≡ self.old) }
        ensures state { self.new.state ≡ self.old.state }
    {
        if shown < dateline {
            let refusal = Refusal::CursorAhead {
                asked: dateline,
                have: shown,
            };
            return err_line(alloc, shown, line, &refusal);
        }
        let reply = said(alloc, dateline, line, "learnt")?;
        self.see(shown, dateline);
        Ok(reply)
    }
}
