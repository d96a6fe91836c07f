//! A read that is suspended between slices: of one query, or of several.
ghost use Rattle.std.specs.Prelude.{◌≡◌, ◌+◌, ◌-◌, ◌<◌, ◌≤◌, ◌^◌, ℕ, true, length, take, min};
ghost use Rattle.std.specs.Prelude.{IfOk, IfErr};
ghost use Rattle.gd_runs.specs.Core as core;
ghost use Rattle.gd_runs.specs.Pace.{DueOf, first_number};
ghost use Rattle.gd_mql.specs.Requests.{read_set_view};
ghost use Rattle.gd_read.specs.Begun.{HasOffset, Begins};
ghost use Rattle.gd_read.specs.Freezing.{ReadingFreezes};
ghost use Rattle.gd_read.specs.Query.{one_view, QueryGoes};
ghost use Rattle.gd_read.specs.Reading.{reading_view, IsGoing, Replies, is_unfinished};
ghost use Rattle.gd_read.specs.Left.{IsPastIds, query_left, reading_left};
ghost use Rattle.gd_read.specs.Several.{asks_several};
ghost use Rattle.gd_read.specs.Start.{start_steps};

use crate::fault::ReadFault;
use crate::query::{QueryReading, Turn};
use crate::several::SeveralReading;
use gd_base::memory::Memory;
use gd_base::steps::Steps;
use gd_frozen::frozen::FrozenReading;
use gd_mql::request::ReadSet;
use gd_store::view::View;
use std::alloc::Global;

/// What a slice of a reading comes to.
#[derive(Drop)]
pub enum Progress {
    /// The reply line: a page, or the refusal in its place, or what several queries come to.
    Reply(Vec<u8>),
    /// The budget was reached.
    Unfinished,
}

/// A read that goes on in slices, at the dateline at which it began, while others write. Contracts
/// see it as the reading of the core, by `reading_view`; `IsGoing` says that it owes, over the
/// batches below its dateline, the reply of that reading.
#[derive(Drop)]
pub enum Reading {
    /// Of one query.
    One(QueryReading),
    /// Of several, at one dateline.
    Several(SeveralReading),
}

/// Goes on with the reading of one query: its answer is made the reply line.
fn slice_one<L>(
    reading: &mut QueryReading,
    alloc: Global,
    view: &View<'_>,
    budget: u64,
    line: u64,
    steps: &mut Steps<L>,
) -> Result<Progress, Memory>
    requires budget { 0 < budget }
    requires line { line < 2 ^ 63 }
    requires going { QueryGoes view.now reading.old }
    ensures reply { IfOk result (λ progress. Replies
        (core.owed_line view.now line (one_view reading.old)) progress) }
    ensures same { one_view reading.new ≡ one_view reading.old }
    ensures still { IfOk result (λ progress. is_unfinished progress ≡ true
        → QueryGoes view.now reading.new) }
    ensures reached { IfOk result (λ progress. is_unfinished progress ≡ true
        → min (steps.old + budget) (2 ^ 64 - 1) ≤ steps.new) }
    ensures less { (n : ℕ) → IsPastIds n → steps.new + query_left n view.now reading.new
        ≤ steps.old + query_left n view.now reading.old }
    ensures work { steps.new ≤ steps.old + budget + 1024 }
    ensures later { steps.old ≤ steps.new }
{
    match reading.slice(alloc, view, budget, steps)? {
        Turn::Answer(answer) => {
            let bytes = answer.line(alloc, reading.dateline(), line)?;
            Ok(Progress::Reply(bytes))
        }
        Turn::Unfinished => Ok(Progress::Unfinished),
    }
}

impl Reading {
    /// The reading of a request over the store as it is now, or for a further page as it was at the
    /// dateline of the cursor. Its words are looked up here, which is not cut in slices. A cursor
    /// that is none, or is ahead, and a query that has no meaning at the dateline are refused; of
    /// several queries each is refused by itself, in its place among the answers. `Memory` may come
    /// in place of any reading.
    pub fn begin<L>(
        alloc: Global,
        view: &View<'_>,
        request: ReadSet,
        steps: &mut Steps<L>,
    ) -> Result<Reading, ReadFault>
        ensures begun { Begins (length view.now) reading_view
            (core.reading_of view.now (length view.now) (read_set_view request)) result }

        // The reading goes on over the batches below its dateline.
        ensures going { IfOk result (λ reading. IsGoing
            (take (reading_view reading).dateline view.now) reading) }

        // No more is left of it than the first number of the definitions: the bound on the work of
        // its query, or of its queries together.
        ensures first { IfOk result (λ reading. (n : ℕ) (due : DueOf)
            → reading_left n (take (reading_view reading).dateline view.now) reading
            ≤ first_number due view.now (reading_view reading)) }
        ensures below { IfOk result (λ reading. (reading_view reading).dateline ≤ length view.now) }
        ensures offset { IfErr result (λ fault. HasOffset fault) }

        // It takes no more steps than the bound on beginning its query, or its queries together,
        // whatever it comes to.
        ensures work { steps.new ≤ steps.old + start_steps view.now (read_set_view request) }
        ensures later { steps.old ≤ steps.new }
    {
        match request {
            ReadSet::One(request) => match QueryReading::begin(alloc, view, request, steps) {
                Ok(reading) => Ok(Reading::One(reading)),
                Err(fault) => Err(fault),
            },
            ReadSet::Several(requests) => {
                let requests = requests.into_requests();
                match SeveralReading::begin(alloc, view, requests, steps) {
                    Ok(reading) => Ok(Reading::Several(reading)),
                    Err(refused) => Err(ReadFault::from(refused)),
                }
            }
        }
    }

    /// The dateline at which it reads.
    pub fn dateline(&self) -> u32
        ensures { result ≡ (reading_view self.now).dateline }
    {
        match self {
            Reading::One(reading) => reading.dateline(),
            Reading::Several(reading) => reading.dateline,
        }
    }

    /// The reading as it is put away, over a view of its dateline, if it is of one query. `Memory`:
    /// an allocation was refused.
    pub fn freeze(&self, alloc: Global, view: &View<'_>) -> Result<Option<FrozenReading>, Memory>
        requires going { IsGoing view.now self.now }
        ensures { IfOk result (λ given. ReadingFreezes view.now self.now given) }
    {
        match self {
            Reading::One(reading) => Ok(Some(reading.freeze(alloc, view)?)),
            Reading::Several(_) => Ok(None),
        }
    }

    /// Whether it is of several queries.
    pub(crate) fn is_several(&self) -> bool
        ensures { result ≡ asks_several (reading_view self.now).request }
    {
        matches!(self, Reading::Several(_))
    }

    /// Goes on over a view of the reading's dateline, on the store at which it began or a later
    /// one, until the budget of steps is reached or the reply line is there: the page at the
    /// dateline, or the refusal in its place; of several queries what each comes to. `line` is the
    /// number of the line that the reply tells. It takes at most 1,024 steps more than the budget.
    /// The number of what is left (`reading_left`) falls by at least the steps that it takes, so
    /// finitely many slices end a reading. `Memory`: an allocation was refused; after that, and
    /// after a reply, nothing more is to be asked.
    pub fn slice<L>(
        &mut self,
        alloc: Global,
        view: &View<'_>,
        budget: u64,
        line: u64,
        steps: &mut Steps<L>,
    ) -> Result<Progress, Memory>
        requires budget { 0 < budget }
        requires line { line < 2 ^ 63 }

        // The view stands for the batches below the dateline with which the reading began.
        requires going { IsGoing view.now self.old }
        ensures reply { IfOk result (λ progress. Replies
            (core.owed_line view.now line (reading_view self.old)) progress) }

        // Unfinished it is the same reading, and owes the same.
        ensures same { reading_view self.new ≡ reading_view self.old }
        ensures still { IfOk result (λ progress. is_unfinished progress ≡ true
            → IsGoing view.now self.new) }
        ensures reached { IfOk result (λ progress. is_unfinished progress ≡ true
            → min (steps.old + budget) (2 ^ 64 - 1) ≤ steps.new) }

        // What is left falls by at least the steps of the slice, whatever it comes to; `n` is a
        // number that no id reaches.
        ensures less { (n : ℕ) → IsPastIds n → steps.new + reading_left n view.now self.new
            ≤ steps.old + reading_left n view.now self.old }
        ensures work { steps.new ≤ steps.old + budget + 1024 }
        ensures later { steps.old ≤ steps.new }
    {
        match self {
            Reading::One(reading) => slice_one(reading, alloc, view, budget, line, steps),
            Reading::Several(reading) => reading.slice(alloc, view, budget, line, steps),
        }
    }
}
