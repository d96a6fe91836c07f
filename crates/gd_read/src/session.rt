//! What a session holds of its reading, without a seat.
ghost use Rattle.std.specs.Prelude.{◌≡◌, ◌≢◌, ◌+◌, ◌-◌, ◌<◌, ◌≤◌, ◌^◌, ℕ, true, None, Some, length, take};
ghost use Rattle.std.specs.Prelude.{min, option_map, IfOk, IfErr, IfSome};
ghost use Rattle.gd_mql.specs.Requests.{read_set_view};
ghost use Rattle.gd_runs.specs.Core as core;
ghost use Rattle.gd_runs.specs.Pace.{DueOf, first_number};
ghost use Rattle.gd_read.specs.Freezing.{FreezesTo, text_in};
ghost use Rattle.gd_read.specs.Left.{IsPastIds};
ghost use Rattle.gd_read.specs.Reading.{reading_view, Replies, is_unfinished};
ghost use Rattle.gd_read.specs.Session.{reads, GoesOn, HoldsGoing, left_of, session_left, BeginsAs};
ghost use Rattle.gd_read.specs.Session.{SlicesAs, holds_several};
ghost use Rattle.gd_read.specs.Start.{start_steps};

use crate::fault::ReadFault;
use crate::reading::{Progress, Reading};
use gd_base::memory::Memory;
use gd_base::steps::Steps;
use gd_frozen::frozen_text;
use gd_mql::request::ReadSet;
use gd_store::store::Store;
use std::alloc::Global;

/// What a session holds of its reading: the reading with which it goes on, if there is one. `reads`
/// is that reading as the definitions have it.
#[derive(Drop)]
pub struct SessionState {
    reading: Option<Reading>,
}

/// Goes on with a reading over a store with the batches below its dateline, for a budget of steps.
fn slice_over<L>(
    alloc: Global,
    store: &Store,
    reading: &mut Reading,
    budget: u64,
    line: u64,
    steps: &mut Steps<L>,
) -> Result<Progress, Memory>
    requires budget { 0 < budget }
    requires line { line < 2 ^ 63 }
    requires going { GoesOn store.now (length store.now) reading.old }
    ensures reply { IfOk result (λ progress. Replies
        (core.owed_line store.now line (reading_view reading.old)) progress) }
    ensures same { reading_view reading.new ≡ reading_view reading.old }
    ensures still { IfOk result (λ progress. is_unfinished progress ≡ true → (shown : ℕ)
        → GoesOn store.now shown reading.old → GoesOn store.now shown reading.new) }
    ensures reached { IfOk result (λ progress. is_unfinished progress ≡ true
        → min (steps.old + budget) (2 ^ 64 - 1) ≤ steps.new) }
    ensures less { (n : ℕ) → IsPastIds n → steps.new + left_of n store.now reading.new
        ≤ steps.old + left_of n store.now reading.old }
    ensures work { steps.new ≤ steps.old + budget + 1024 }
    ensures later { steps.old ≤ steps.new }
{
    let view = store.view(reading.dateline());
    reading.slice(alloc, &view, budget, line, steps)
}

/// The text of a reading that is put away, over a store with the batches below its dateline.
fn text_over(alloc: Global, store: &Store, reading: &Reading) -> Result<Option<Vec<u8>>, Memory>
    requires going { GoesOn store.now (length store.now) reading.now }
    ensures { IfOk result (λ given. FreezesTo store.now (reading_view reading.now)
        (text_in given)) }
{
    let dateline = reading.dateline();
    let view = store.view(dateline);
    match reading.freeze(alloc, &view)? {
        Some(frozen) => Ok(Some(frozen_text(alloc, &frozen)?)),
        None => Ok(None),
    }
}

impl SessionState {
    /// No reading is held.
    pub fn none() -> SessionState
        ensures { result ≡ record { reading = None } }
    {
        SessionState { reading: None }
    }

    /// The dateline of the reading that is held, if one is.
    pub fn dateline(&self) -> Option<u32>
        ensures { result ≡ option_map (λ r. r.dateline) (reads self.now) }
    {
        match &self.reading {
            Some(reading) => Some(reading.dateline()),
            None => None,
        }
    }

    /// Whether a reading of several queries is held.
    pub fn is_several(&self) -> bool
        ensures { result ≡ holds_several (reads self.now) }
    {
        match &self.reading {
            Some(reading) => reading.is_several(),
            None => false,
        }
    }

    /// The text of the reading that is held, which stays as it is, over a store with the batches
    /// below its dateline: None where it is of several queries. It may be taken up again at what
    /// the text says, and owes the same reply then. `Memory`: an allocation was refused.
    pub fn freeze(&self, alloc: Global, store: &Store) -> Result<Option<Vec<u8>>, Memory>
        requires held { reads self.now ≢ None }
        requires going { HoldsGoing store.now (length store.now) self.now }
        ensures { IfOk result (λ given. IfSome (reads self.now)
            (λ r. FreezesTo store.now r (text_in given))) }
    {
        let Some(reading) = &self.reading else {
            unreachable!()
        };
        text_over(alloc, store, reading)
    }

    /// Drops the reading that is held, if one is.
    pub fn end(&mut self)
        ensures { self.new ≡ record { reading = None } }
    {
        self.reading = None;
    }

    /// The reading of a request that begins over the requests of a store that are shown, or for a
    /// further page at the dateline of its cursor. Its words are looked up here, which is not cut
    /// in slices. A reading is refused as the definitions say; `Memory` may come in place of any.
    pub fn begin<L>(
        alloc: Global,
        store: &Store,
        shown: u32,
        request: ReadSet,
        steps: &mut Steps<L>,
    ) -> Result<SessionState, ReadFault>
        requires shown { shown ≤ length store.now }
        ensures begins { BeginsAs store.now shown (read_set_view request) result }

        // The reading goes on over the batches below its dateline, which is shown.
        ensures going { IfOk result (λ state. HoldsGoing store.now shown state) }

        // No more is left of it than the first number of the definitions.
        ensures first { IfOk result (λ state. (n : ℕ) (due : DueOf) → IfSome (reads state)
            (λ r. session_left n store.now state ≤ first_number due store.now r)) }

        // It takes no more steps than the bound on beginning its query, or its queries together,
        // over the requests that are shown.
        ensures work { steps.new ≤ steps.old + start_steps (take shown store.now)
            (read_set_view request) }
        ensures later { steps.old ≤ steps.new }
    {
        let view = store.view(shown);
        match Reading::begin(alloc, &view, request, steps) {
            Ok(reading) => Ok(SessionState {
                reading: Some(reading),
            }),
            Err(fault) => Err(fault),
        }
    }

    /// Goes on with the reading that is held, over a store with the batches below its dateline,
    /// until the budget of steps is reached or the reply line is there: the page at the dateline of
    /// the reading, or the refusal in its place. `line` is the number of the line that the reply
    /// tells. It takes at most 1,024 steps more than the budget. A reply ends the reading.
    /// `Memory`: there was none, and that ends it too.
    pub fn slice<L>(
        &mut self,
        alloc: Global,
        store: &Store,
        budget: u64,
        line: u64,
        steps: &mut Steps<L>,
    ) -> Result<Progress, Memory>
        requires held { reads self.old ≢ None }
        requires budget { 0 < budget }
        requires line { line < 2 ^ 63 }
        requires going { HoldsGoing store.now (length store.now) self.old }
        ensures slices { SlicesAs store.now line self.old result self.new }

        // What is held goes on where it went on before, however much is shown.
        ensures still { (shown : ℕ) → HoldsGoing store.now shown self.old
            → HoldsGoing store.now shown self.new }
        ensures reached { IfOk result (λ progress. is_unfinished progress ≡ true
            → min (steps.old + budget) (2 ^ 64 - 1) ≤ steps.new) }

        // What is left falls by at least the steps of the slice, whatever it comes to; `n` is a
        // number that no id reaches.
        ensures less { (n : ℕ) → IsPastIds n → steps.new + session_left n store.now self.new
            ≤ steps.old + session_left n store.now self.old }
        ensures work { steps.new ≤ steps.old + budget + 1024 }
        ensures later { steps.old ≤ steps.new }
    {
        let Some(reading) = &mut self.reading else {
            unreachable!()
        };
        match slice_over(alloc, store, reading, budget, line, steps) {
            Ok(Progress::Unfinished) => Ok(Progress::Unfinished),
            Ok(Progress::Reply(bytes)) => {
                self.end();
                Ok(Progress::Reply(bytes))
            }
            Err(refused) => {
                self.end();
                Err(refused)
            }
        }
    }
}
