//! The reading of one query that goes on from a frozen text.
ghost use Rattle.std.specs.Prelude.{◌≡◌, ◌≢◌, ◌+◌, ◌-◌, ◌<◌, ◌≤◌, ◌^◌, ℕ, List, true, length, min, Ok};
ghost use Rattle.std.specs.Prelude.{IfOk, IfErr, MatchResult};
ghost use Rattle.gd_prim.specs.declared.Batch.{Batch};
ghost use Rattle.gd_prim.specs.History.{prims_of};
ghost use Rattle.gd_defs.specs.Asked.{asked_query};
ghost use Rattle.gd_defs.specs.Reply.{unknown_refusal};
ghost use Rattle.gd_bytes.specs.Frozen.{Fits, IsFrozenText};
ghost use Rattle.gd_mql.specs.Requests.{read_view};
ghost use Rattle.gd_read.specs.PassedOn.{unknown_of};
ghost use Rattle.gd_plan.specs.Asked.{asked_view};
ghost use Rattle.gd_frozen.specs.Meaning.{reading_of};
ghost use Rattle.gd_runs.specs.Core as core;
ghost use Rattle.gd_runs.specs.Request as defined;
ghost use Rattle.gd_read.specs.Begun.{IsMeaningless};
ghost use Rattle.gd_read.specs.Freezing.{IsTextOf};
ghost use Rattle.gd_read.specs.Reading.{Replies, is_unfinished};
ghost use Rattle.gd_held.specs.Fault.{fault_at, HasOffset};
ghost use Rattle.gd_held.specs.Thawed.{thawed_view, ThawedGoesOn, PlanThaws, IsUnthawed, Thaws};

use crate::fault::ThawFault;
use gd_base::memory::Memory;
use gd_base::steps::Steps;
use gd_frozen::frozen::FrozenReading;
use gd_frozen::{FrozenFault, frozen_from, frozen_text};
use gd_mql::request::ReadRequest;
use gd_plan::plan::Plan;
use gd_read::reading::Progress;
use gd_read::{Unknown, compile};
use gd_store::store::Store;
use gd_store::view::View;
use gd_thawed::query::{ThawedQuery, Turn};
use std::alloc::Global;
use std::snapshot::Snapshot;

/// The reading of a request that goes on from a frozen text. Contracts see it as the reading of the
/// core, by `thawed_view`; `ThawedGoes` says that it owes, over the batches below its dateline, what
/// its text owes. What the text says is what clauses alone read, and takes no memory.
#[derive(Drop)]
pub struct ThawedReading {
    request: ReadRequest,
    query: ThawedQuery,
    from: Snapshot<FrozenReading>,
}

/// The frozen reading of a text, whose dateline is shown.
fn frozen_shown(alloc: Global, shown: u32, text: &[u8]) -> Result<FrozenReading, ThawFault>
    ensures read { IfOk result (λ frozen. IsFrozenText (reading_of frozen) text.now) }
    ensures below { IfOk result (λ frozen. frozen.dateline ≤ shown) }
    ensures refused { IfErr result (λ fault. (batches : List Batch) (r : defined.ReadRequest)
        → IsUnthawed batches shown r text.now fault) }
{
    match frozen_from(alloc, text) {
        Ok(frozen) => {
            let asked = frozen.dateline;
            if shown < asked {
                drop(frozen);
                return Err(ThawFault::CursorAhead { asked, have: shown });
            }
            Ok(frozen)
        }
        Err(FrozenFault::BadFrozen { offset }) => Err(ThawFault::BadFrozen { offset }),
        Err(FrozenFault::Memory) => Err(ThawFault::Memory),
    }
}

/// Why a text of a query that has no meaning at a dateline is not thawed.
fn meaning_fault(dateline: u32, unknown: Unknown) -> ThawFault
    ensures fault { (latest : ℕ) → result ≢ ThawFault.Memory
        → fault_at latest result ≡ (dateline, unknown_refusal (unknown_of unknown)) }
    ensures memory { result ≢ ThawFault.Memory → unknown ≢ Unknown.Memory }
    ensures offset { HasOffset result }
{
    match unknown {
        Unknown::NoSuchId { path } => ThawFault::NoSuchId { dateline, path },
        Unknown::NoSuchProperty { path } => ThawFault::NoSuchProperty { dateline, path },
        Unknown::BadQuery { code, path } => ThawFault::BadQuery {
            dateline,
            code,
            path,
        },
        Unknown::Memory => ThawFault::Memory,
    }
}

/// The plan of a read at the view's dateline.
fn plan_at<L>(
    alloc: Global,
    view: &View<'_>,
    request: &ReadRequest,
    steps: &mut Steps<L>,
) -> Result<Plan, ThawFault>
    ensures planned { MatchResult result
        (λ plan. asked_query (prims_of view.now) (read_view request.now).query
        ≡ Ok (asked_view plan))
        (λ fault. fault ≢ ThawFault.Memory → (latest : ℕ)
        → IsMeaningless (length view.now)
        (asked_query (prims_of view.now) (read_view request.now).query) (fault_at latest fault)) }
    ensures offset { IfErr result (λ fault. HasOffset fault) }
    ensures later { steps.old ≤ steps.new }
{
    match compile(alloc, view, request, steps) {
        Ok(plan) => Ok(plan),
        Err(unknown) => Err(meaning_fault(view.dateline(), unknown)),
    }
}

/// The reading of a request with its plan that goes on from a frozen reading, at the view's
/// dateline, which is that of the reading. None: it does not fit the query.
fn thaw_plan<L>(
    alloc: Global,
    view: &View<'_>,
    request: ReadRequest,
    plan: Plan,
    frozen: FrozenReading,
    steps: &mut Steps<L>,
) -> Result<Option<ThawedReading>, Memory>
    requires dateline { length view.now ≡ frozen.dateline }
    requires bounds { Fits (reading_of frozen) }
    requires asked { asked_query (prims_of view.now) (read_view request).query
        ≡ Ok (asked_view plan) }
    ensures thaws { IfOk result (λ given. PlanThaws view.now (read_view request) (asked_view plan)
        (reading_of frozen) given) }
    ensures later { steps.old ≤ steps.new }
{
    let from = Snapshot::of(&frozen);
    let with_cursor = request.cursor.asks_page();
    match ThawedQuery::thaw(alloc, view, plan, with_cursor, frozen, steps) {
        Ok(Some(query)) => Ok(Some(ThawedReading {
            request,
            query,
            from,
        })),
        Ok(None) => {
            drop(request);
            Ok(None)
        }
        Err(refused) => {
            drop(request);
            Err(refused)
        }
    }
}

/// How many bytes a text has.
fn length_of(text: &[u8]) -> u64
    ensures is { result ≡ length text.now }
    ensures small { result < 2 ^ 63 }
{
    text.len() as u64
}

impl ThawedReading {
    /// The reading of a request that goes on from where a text says, over the batches of a store
    /// that are shown, or why there is none.
    pub(crate) fn thaw<L>(
        alloc: Global,
        store: &Store,
        shown: u32,
        request: ReadRequest,
        text: &[u8],
        steps: &mut Steps<L>,
    ) -> Result<ThawedReading, ThawFault>
        requires shown { shown ≤ length store.now }
        ensures thaws { Thaws store.now shown (read_view request) text.now result }
        ensures later { steps.old ≤ steps.new }
    {
        let frozen = match frozen_shown(alloc, shown, text) {
            Ok(frozen) => frozen,
            Err(fault) => {
                drop(request);
                return Err(fault);
            }
        };
        let view = store.view(frozen.dateline);
        let plan = match plan_at(alloc, &view, &request, steps) {
            Ok(plan) => plan,
            Err(fault) => {
                drop(request);
                drop(frozen);
                return Err(fault);
            }
        };
        match thaw_plan(alloc, &view, request, plan, frozen, steps) {
            Ok(Some(reading)) => Ok(reading),
            Ok(None) => Err(ThawFault::BadFrozen {
                offset: length_of(text),
            }),
            Err(refused) => Err(ThawFault::from(refused)),
        }
    }

    /// The dateline at which it reads.
    pub(crate) fn dateline(&self) -> u32
        ensures { result ≡ (thawed_view self.now).dateline }
    {
        self.query.dateline()
    }

    /// The text of the reading, which stays as it is, over a store with the batches below its
    /// dateline: it tells where the reading stands. `Memory`: an allocation was refused.
    pub(crate) fn freeze(&self, alloc: Global, store: &Store) -> Result<Vec<u8>, Memory>
        requires going { ThawedGoesOn store.now (length store.now) self.now }
        ensures { IfOk result (λ text. IsTextOf store.now (read_view self.now.request)
            (thawed_view self.now) text.items) }
    {
        let view = store.view(self.query.dateline());
        let frozen = self.query.freeze(alloc, &view)?;
        frozen_text(alloc, &frozen)
    }

    /// Goes on over a store with the batches below its dateline, for a budget of steps: what its
    /// text owes is made the reply line.
    pub(crate) fn slice<L>(
        &mut self,
        alloc: Global,
        store: &Store,
        budget: u64,
        line: u64,
        steps: &mut Steps<L>,
    ) -> Result<Progress, Memory>
        requires budget { 0 < budget }
        requires line { line < 2 ^ 63 }
        requires going { ThawedGoesOn store.now (length store.now) self.old }
        ensures reply { IfOk result (λ progress. Replies
            (core.owed_line store.now line (thawed_view self.old)) progress) }
        ensures same { thawed_view self.new ≡ thawed_view self.old }
        ensures still { IfOk result (λ progress. is_unfinished progress ≡ true → (shown : ℕ)
            → ThawedGoesOn store.now shown self.old → ThawedGoesOn store.now shown self.new) }
        ensures reached { IfOk result (λ progress. is_unfinished progress ≡ true
            → min (steps.old + budget) (2 ^ 64 - 1) ≤ steps.new) }
        ensures work { steps.new ≤ steps.old + budget + 1024 }
        ensures later { steps.old ≤ steps.new }
    {
        let view = store.view(self.query.dateline());
        match self.query.slice(alloc, &view, budget, steps)? {
            Turn::Answer(answer) => {
                let bytes = answer.line(alloc, self.query.dateline(), line)?;
                Ok(Progress::Reply(bytes))
            }
            Turn::Unfinished => Ok(Progress::Unfinished),
        }
    }
}
