//! What a session holds of its reading, without a seat.
ghost use Rattle.std.specs.Prelude.{◌≡◌, ◌≢◌, ◌+◌, ◌-◌, ◌<◌, ◌≤◌, ◌^◌, ℕ, true, None, length, take};
ghost use Rattle.std.specs.Prelude.{min, option_map, IfOk, IfSome};
ghost use Rattle.gd_mql.specs.Requests.{read_view, read_set_view};
ghost use Rattle.gd_runs.specs.Pace.{DueOf, first_number, is_counted};
ghost use Rattle.gd_read.specs.Freezing.{FreezesTo, text_in};
ghost use Rattle.gd_read.specs.Left.{IsPastIds};
ghost use Rattle.gd_read.specs.Reading.{is_unfinished};
ghost use Rattle.gd_read.specs.Session.{holds_several};
ghost use Rattle.gd_read.specs.Start.{start_steps};
ghost use Rattle.gd_held.specs.Held.{nothing, reads, HoldsGoing, held_left, BeginsAs, ThawsTo, SlicesAs};

use crate::fault::ThawFault;
use crate::thawed::ThawedReading;
use gd_base::memory::Memory;
use gd_base::steps::Steps;
use gd_mql::request::{ReadRequest, ReadSet};
use gd_read::fault::ReadFault;
use gd_read::reading::Progress;
use gd_read::session::SessionState;
use gd_store::store::Store;
use std::alloc::Global;

/// What a session holds of its reading. `reads` is that reading as the definitions have it.
#[derive(Drop)]
pub enum HeldReading {
    /// None, or one that began.
    Begun(SessionState),
    /// One of one query that goes on from a frozen text.
    Thawed(ThawedReading),
}

impl HeldReading {
    /// No reading is held.
    pub fn none() -> HeldReading
        ensures { result ≡ nothing }
    {
        HeldReading::Begun(SessionState::none())
    }

    /// The dateline of the reading that is held, if one is.
    pub fn dateline(&self) -> Option<u32>
        ensures { result ≡ option_map (λ r. r.dateline) (reads self.now) }
    {
        match self {
            HeldReading::Begun(state) => state.dateline(),
            HeldReading::Thawed(reading) => Some(reading.dateline()),
        }
    }

    /// Whether a reading of several queries is held.
    pub fn is_several(&self) -> bool
        ensures { result ≡ holds_several (reads self.now) }
    {
        match self {
            HeldReading::Begun(state) => state.is_several(),
            HeldReading::Thawed(_) => false,
        }
    }

    /// The text of the reading that is held, which stays as it is, over a store with the batches
    /// below its dateline: None where it is of several queries. It may be taken up again at what
    /// the text says, and owes the same reply then. `Memory`: an allocation was refused.
    pub fn freeze(&self, alloc: Global, store: &Store) -> Result<Option<Vec<u8>>, Memory>
        requires held { reads self.now ≢ None }
        requires going { HoldsGoing store.now (length store.now) self.now }
        ensures { IfOk result (λ given. IfSome (reads self.now)
            (λ r. FreezesTo store.now r (text_in given))) }
    {
        match self {
            HeldReading::Begun(state) => state.freeze(alloc, store),
            HeldReading::Thawed(reading) => Ok(Some(reading.freeze(alloc, store)?)),
        }
    }

    /// Drops the reading that is held, if one is.
    pub fn end(&mut self)
        ensures { self.new ≡ nothing }
    {
        *self = HeldReading::none();
    }

    /// The reading of a request that begins over the requests of a store that are shown, or for a
    /// further page at the dateline of its cursor. Its words are looked up here, which is not cut
    /// in slices. A reading is refused as the definitions say; `Memory` may come in place of any.
    pub fn begin<L>(
        alloc: Global,
        store: &Store,
        shown: u32,
        request: ReadSet,
        steps: &mut Steps<L>,
    ) -> Result<HeldReading, ReadFault>
        requires shown { shown ≤ length store.now }
        ensures begins { BeginsAs store.now shown (read_set_view request) result }

        // The reading goes on over the batches below its dateline, which is shown.
        ensures going { IfOk result (λ held. HoldsGoing store.now shown held) }

        // No more is left of it than the first number of the definitions.
        ensures first { IfOk result (λ held. (n : ℕ) (due : DueOf) → IfSome (reads held)
            (λ r. held_left n store.now held ≤ first_number due store.now r)) }

        // It takes no more steps than the bound on beginning its query, or its queries together,
        // over the requests that are shown.
        ensures work { steps.new ≤ steps.old + start_steps (take shown store.now)
            (read_set_view request) }
        ensures later { steps.old ≤ steps.new }
    {
        match SessionState::begin(alloc, store, shown, request, steps) {
            Ok(state) => Ok(HeldReading::Begun(state)),
            Err(fault) => Err(fault),
        }
    }

    /// The reading of a request that goes on from where a frozen text says, over the requests of a
    /// store that are shown. Its words are looked up here, and the text is read, which is not cut in
    /// slices. `BadFrozen`: the bytes are the text of no frozen reading, or of one that does not
    /// fit the query. `CursorAhead`: its dateline is above what is shown. `BadQuery`, `NoSuchId`,
    /// `NoSuchProperty`: the query has no meaning there. `Memory`: an allocation was refused, in
    /// place of any of these.
    pub fn thaw<L>(
        alloc: Global,
        store: &Store,
        shown: u32,
        request: ReadRequest,
        text: &[u8],
        steps: &mut Steps<L>,
    ) -> Result<HeldReading, ThawFault>
        requires shown { shown ≤ length store.now }
        ensures thaws { ThawsTo store.now shown (read_view request) text.now result }

        // The reading goes on over the batches below its dateline, which is shown.
        ensures going { IfOk result (λ held. HoldsGoing store.now shown held) }
        ensures later { steps.old ≤ steps.new }
    {
        match ThawedReading::thaw(alloc, store, shown, request, text, steps) {
            Ok(reading) => Ok(HeldReading::Thawed(reading)),
            Err(fault) => Err(fault),
        }
    }

    /// Goes on with the reading that is held, over a store with the batches below its dateline,
    /// until the budget of steps is reached or the reply line is there: the page at the dateline of
    /// the reading, or the refusal in its place. `line` is the number of the line that the reply
    /// tells. It takes at most 1,024 steps more than the budget. A reply ends the reading.
    /// `Memory`: there was none, and that ends it too.
    pub fn slice<L>(
        &mut self,
        alloc: Global,
        store: &Store,
        budget: u64,
        line: u64,
        steps: &mut Steps<L>,
    ) -> Result<Progress, Memory>
        requires held { reads self.old ≢ None }
        requires budget { 0 < budget }
        requires line { line < 2 ^ 63 }
        requires going { HoldsGoing store.now (length store.now) self.old }
        ensures slices { SlicesAs store.now line self.old result self.new }

        // What is held goes on where it went on before, however much is shown.
        ensures still { (shown : ℕ) → HoldsGoing store.now shown self.old
            → HoldsGoing store.now shown self.new }
        ensures reached { IfOk result (λ progress. is_unfinished progress ≡ true
            → min (steps.old + budget) (2 ^ 64 - 1) ≤ steps.new) }

        // What is left of a reading that began falls by at least the steps of the slice, whatever it
        // comes to; `n` is a number that no id reaches.
        ensures less { is_counted (reads self.old) ≡ true → (n : ℕ) → IsPastIds n
            → steps.new + held_left n store.now self.new ≤ steps.old
            + held_left n store.now self.old }

        // Of any reading no more is left than before.
        ensures fewer { (n : ℕ) → IsPastIds n
            → held_left n store.now self.new ≤ held_left n store.now self.old }
        ensures work { steps.new ≤ steps.old + budget + 1024 }
        ensures later { steps.old ≤ steps.new }
    {
        let progress = match self {
            HeldReading::Begun(state) => return state.slice(alloc, store, budget, line, steps),
            HeldReading::Thawed(reading) => reading.slice(alloc, store, budget, line, steps),
        };
        match progress {
            Ok(Progress::Unfinished) => Ok(Progress::Unfinished),
            Ok(Progress::Reply(bytes)) => {
                self.end();
                Ok(Progress::Reply(bytes))
            }
            Err(refused) => {
                self.end();
                Err(refused)
            }
        }
    }
}
