//! The reading of several queries, one after the other, at one dateline.
ghost use Rattle.std.specs.Prelude.{◌≡◌, ◌+◌, ◌-◌, ◌<◌, ◌≤◌, ◌^◌, ℕ, All, None, Some, true, false};
ghost use Rattle.std.specs.Prelude.{List, length, map, min, sum_by, take, IfOk, IfSome};
ghost use Rattle.gd_prim.specs.declared.Batch.{Batch};
ghost use Rattle.gd_prim.specs.History.{prims_of};
ghost use Rattle.gd_runs.specs.Core as core;
ghost use Rattle.gd_runs.specs.Pace.{DueOf, begin_steps, begin_all_steps, first_number};
ghost use Rattle.gd_runs.specs.Request.{queries};
ghost use Rattle.gd_mql.specs.Requests.{read_view};
ghost use Rattle.gd_read.specs.Left.{IsPastIds, part_left, several_left};
ghost use Rattle.gd_read.specs.Paid.{PartIsPaid};
ghost use Rattle.gd_read.specs.Reading.{Replies, is_unfinished};
ghost use Rattle.gd_read.specs.Several.{part_request, several_view, text_among, PartGoes};
ghost use Rattle.gd_read.specs.Several.{is_answered, SeveralGo};

use crate::query::{QueryReading, Turn, plan_at, planned};
use crate::reading::Progress;
use core::mem::replace_with;
use gd_base::memory::Memory;
use gd_base::steps::Steps;
use gd_iter_core::budget::Budget;
use gd_mql::request::ReadRequest;
use gd_reply::answer::answers_line;
use gd_store::view::View;
use std::alloc::Global;

/// A query among others.
#[derive(Drop)]
pub enum Part {
    /// It is read.
    Going(QueryReading),
    /// It has its answer, of which this is the text.
    Answered { request: ReadRequest, text: Vec<u8> },
}

/// The reading of several queries, in order, at one dateline. Each is answered or refused by
/// itself. One goes on at a time: the first that has no answer. Contracts see it as the reading of
/// the core, by `several_view`; `SeveralGo` says that each part goes on over the batches below the
/// dateline, or has the text of its answer there.
#[derive(Drop)]
pub struct SeveralReading {
    pub(crate) dateline: u32,
    parts: Vec<Part>,
}

/// A query among others at the view's dateline. Its words are looked up here; where it has no
/// meaning, that is its answer. `Memory`: an allocation was refused.
#[tactic(auto, using(crate::proofs::Starts::starts_paid, crate::proofs::Starts::looked_paid))]
fn begun_part<L>(
    alloc: Global,
    view: &View<'_>,
    request: ReadRequest,
    steps: &mut Steps<L>,
) -> Result<Part, Memory>
    ensures goes { IfOk result (λ part. PartGoes view.now part) }
    ensures paid { IfOk result (λ part. PartIsPaid view.now part) }
    ensures request { IfOk result (λ part. part_request part ≡ read_view request) }
    ensures work { steps.new ≤ steps.old + begin_steps (prims_of view.now)
        (read_view request).query }
    ensures later { steps.old ≤ steps.new }
{
    match plan_at(alloc, view, &request, steps) {
        Ok(plan) => Ok(Part::Going(planned(alloc, view, None, request, plan, steps)?)),
        Err(fault) => match fault.text(alloc, view.dateline()) {
            Ok(text) => Ok(Part::Answered { request, text }),
            Err(refused) => {
                drop(request);
                Err(refused)
            }
        },
    }
}

/// Queries among one another at the view's dateline, in order. `Memory`: an allocation was refused.
fn begun_parts<L>(
    alloc: Global,
    view: &View<'_>,
    requests: Vec<ReadRequest>,
    steps: &mut Steps<L>,
) -> Result<Vec<Part>, Memory>
    ensures go { IfOk result (λ parts. All (PartGoes view.now) parts.items) }
    ensures paid { IfOk result (λ parts. All (PartIsPaid view.now) parts.items) }
    ensures requests { IfOk result (λ parts. map part_request parts.items
        ≡ map read_view requests.items) }
    ensures work { steps.new ≤ steps.old + begin_all_steps (prims_of view.now)
        (map read_view requests.items) }
    ensures later { steps.old ≤ steps.new }
{
    let mut parts = Vec::new(alloc);
    for request in requests {
        parts.push(begun_part(alloc, view, request, steps)?)?;
    }
    Ok(parts)
}

/// A part with the text of its answer. What it was is let go, but for the request.
fn answered(part: Part, text: Vec<u8>) -> (Part, ())
    ensures request { part_request result.0 ≡ part_request part }
    ensures answered { is_answered result.0 ≡ true }
    ensures goes { (batches : List Batch) → text.items ≡ text_among batches (part_request part)
        → PartGoes batches result.0 }
    ensures left { (n : ℕ) (batches : List Batch) → part_left n batches result.0 ≡ 0 }
{
    match part {
        Part::Going(reading) => {
            let request = reading.into_request();
            (Part::Answered { request, text }, ())
        }
        Part::Answered { request, text: old } => {
            drop(old);
            (Part::Answered { request, text }, ())
        }
    }
}

/// Goes on with the reading of a query among others: the text of its answer, or none where the
/// budget was reached before. `Memory`: an allocation was refused.
fn text_of<L>(
    reading: &mut QueryReading,
    alloc: Global,
    view: &View<'_>,
    budget: u64,
    steps: &mut Steps<L>,
) -> Result<Option<Vec<u8>>, Memory>
    requires budget { 0 < budget }
    requires goes { PartGoes view.now (Part.Going reading.old) }
    ensures same { reading.new.subject ≡ reading.old.subject }
    ensures text { IfOk result (λ given. IfSome given (λ text. text.items
        ≡ text_among view.now (part_request (Part.Going reading.old)))) }
    ensures still { IfOk result (λ given. given ≡ None
        → PartGoes view.now (Part.Going reading.new)) }
    ensures reached { IfOk result (λ given. given ≡ None
        → min (steps.old + budget) (2 ^ 64 - 1) ≤ steps.new) }
    ensures less { (n : ℕ) → IsPastIds n
        → steps.new + part_left n view.now (Part.Going reading.new)
        ≤ steps.old + part_left n view.now (Part.Going reading.old) }
    ensures work { steps.new ≤ steps.old + budget + 1024 }
    ensures later { steps.old ≤ steps.new }
{
    match reading.slice(alloc, view, budget, steps)? {
        Turn::Answer(answer) => Ok(Some(answer.text(alloc)?)),
        Turn::Unfinished => Ok(None),
    }
}

impl Part {
    /// Goes on with the query, if it has no answer: whether it has one then. `Memory`: an
    /// allocation was refused.
    fn go_on<L>(
        &mut self,
        alloc: Global,
        view: &View<'_>,
        budget: u64,
        steps: &mut Steps<L>,
    ) -> Result<bool, Memory>
        requires budget { 0 < budget }
        requires goes { PartGoes view.now self.old }
        ensures request { part_request self.new ≡ part_request self.old }
        ensures goes { IfOk result (λ _. PartGoes view.now self.new) }
        ensures answered { IfOk result (λ done. done ≡ true → is_answered self.new ≡ true) }
        ensures reached { IfOk result (λ done. done ≡ false
            → min (steps.old + budget) (2 ^ 64 - 1) ≤ steps.new) }
        ensures less { (n : ℕ) → IsPastIds n → steps.new + part_left n view.now self.new
            ≤ steps.old + part_left n view.now self.old }
        ensures work { steps.new ≤ steps.old + budget + 1024 }
        ensures later { steps.old ≤ steps.new }
    {
        let Part::Going(reading) = self else {
            return Ok(true);
        };
        match text_of(reading, alloc, view, budget, steps)? {
            Some(text) => {
                replace_with(self, text, answered);
                Ok(true)
            }
            None => Ok(false),
        }
    }
}

/// Goes on with queries, one after the other, within one budget: whether all have their answers
/// then. `Memory`: an allocation was refused.
fn go_on_all<L>(
    parts: &mut [Part],
    alloc: Global,
    view: &View<'_>,
    budget: u64,
    steps: &mut Steps<L>,
) -> Result<bool, Memory>
    requires budget { 0 < budget }
    requires go { All (PartGoes view.now) parts.old }
    ensures requests { map part_request parts.new ≡ map part_request parts.old }
    ensures go { IfOk result (λ _. All (PartGoes view.now) parts.new) }
    ensures answered { IfOk result (λ done. done ≡ true
        → All (λ part. is_answered part ≡ true) parts.new) }
    ensures reached { IfOk result (λ done. done ≡ false
        → min (steps.old + budget) (2 ^ 64 - 1) ≤ steps.new) }
    ensures less { (n : ℕ) → IsPastIds n → steps.new + sum_by (part_left n view.now) parts.new
        ≤ steps.old + sum_by (part_left n view.now) parts.old }
    ensures work { steps.new ≤ steps.old + budget + 1024 }
    ensures later { steps.old ≤ steps.new }
{
    let whole = Budget::new(budget, steps);
    for k in 0..parts.len() {
        if whole.is_spent(steps) {
            return Ok(false);
        }
        let left = whole.left(steps);
        if !parts[k].go_on(alloc, view, left, steps)? {
            return Ok(false);
        }
    }
    Ok(true)
}

/// The texts of the answers of queries, all of which have theirs.
fn texts_of<'a>(alloc: Global, parts: &'a [Part]) -> Result<Vec<&'a [u8]>, Memory>
    requires answered { All (λ part. is_answered part ≡ true) parts.now }
    ensures { IfOk result (λ texts. (batches : List Batch) → All (PartGoes batches) parts.now
        → map (λ t. t.now) texts.items
        ≡ map (λ part. text_among batches (part_request part)) parts.now) }
{
    let mut texts = Vec::new(alloc);
    for part in parts {
        match part {
            Part::Answered { text, .. } => texts.push(text.as_slice())?,
            Part::Going(_) => unreachable!(),
        }
    }
    Ok(texts)
}

/// The reply line of queries, all of which have their answers, at their dateline.
fn parts_line(alloc: Global, dateline: u32, line: u64, parts: &[Part]) -> Result<Vec<u8>, Memory>
    requires line { line < 2 ^ 63 }
    requires answered { All (λ part. is_answered part ≡ true) parts.now }
    ensures { IfOk result (λ bytes. (batches : List Batch) → length batches ≡ dateline
        → All (PartGoes batches) parts.now → bytes.items
        ≡ core.owed_line batches line (record {
          request = queries (map part_request parts.now);
          dateline = dateline;
          after = None;
          thawed = None;
        })) }
{
    let texts = texts_of(alloc, parts)?;
    answers_line(alloc, dateline, line, texts.as_slice())
}

impl SeveralReading {
    /// The reading of queries over the store as it is now. Their words are looked up here, one
    /// query after the other, which is not cut in slices; the text of a cursor is passed over.
    /// `Memory`: an allocation was refused.
    pub(crate) fn begin<L>(
        alloc: Global,
        view: &View<'_>,
        requests: Vec<ReadRequest>,
        steps: &mut Steps<L>,
    ) -> Result<SeveralReading, Memory>
        ensures begun { IfOk result (λ reading. several_view reading ≡ record {
          request = queries (map read_view requests.items);
          dateline = length view.now;
          after = None;
          thawed = None;
        }) }
        ensures going { IfOk result (λ reading. SeveralGo view.now reading) }
        ensures first { IfOk result (λ reading. (n : ℕ) (due : DueOf)
            → several_left n (take (several_view reading).dateline view.now) reading
            ≤ first_number due view.now (several_view reading)) }
        ensures work { steps.new ≤ steps.old + begin_all_steps (prims_of view.now)
            (map read_view requests.items) }
        ensures later { steps.old ≤ steps.new }
    {
        let dateline = view.dateline();
        let parts = begun_parts(alloc, view, requests, steps)?;
        Ok(SeveralReading { dateline, parts })
    }

    /// Goes on over a view of the reading's dateline, as `Reading::slice` does: with the first
    /// query that has no answer, and then with the next, until the budget of steps is reached or
    /// all have theirs, of which the reply line is made.
    pub(crate) fn slice<L>(
        &mut self,
        alloc: Global,
        view: &View<'_>,
        budget: u64,
        line: u64,
        steps: &mut Steps<L>,
    ) -> Result<Progress, Memory>
        requires budget { 0 < budget }
        requires line { line < 2 ^ 63 }
        requires going { SeveralGo view.now self.old }
        ensures reply { IfOk result (λ progress. Replies
            (core.owed_line view.now line (several_view self.old)) progress) }
        ensures same { several_view self.new ≡ several_view self.old }
        ensures still { IfOk result (λ progress. is_unfinished progress ≡ true
            → SeveralGo view.now self.new) }
        ensures reached { IfOk result (λ progress. is_unfinished progress ≡ true
            → min (steps.old + budget) (2 ^ 64 - 1) ≤ steps.new) }
        ensures less { (n : ℕ) → IsPastIds n → steps.new + several_left n view.now self.new
            ≤ steps.old + several_left n view.now self.old }
        ensures work { steps.new ≤ steps.old + budget + 1024 }
        ensures later { steps.old ≤ steps.new }
    {
        if !go_on_all(self.parts.as_mut_slice(), alloc, view, budget, steps)? {
            return Ok(Progress::Unfinished);
        }
        let bytes = parts_line(alloc, self.dateline, line, self.parts.as_slice())?;
        Ok(Progress::Reply(bytes))
    }
}
