//! The reading of one query, which is suspended between slices.
ghost use Rattle.std.specs.Prelude.{◌≡◌, ◌≢◌, ◌+◌, ◌*◌, ◌-◌, ◌<◌, ◌≤◌, ◌^◌, ℕ, [], true, Some, Ok, Err};
ghost use Rattle.std.specs.Prelude.{length, take, min, option_map, MatchResult, MatchOption, IfOk};
ghost use Rattle.std.specs.Prelude.{IfErr, IsNone};
ghost use Rattle.gd_base.specs.Counts.{Rose};
ghost use Rattle.gd_prim.specs.History.{prims_of};
ghost use Rattle.gd_defs.specs.Asked.{asked_query};
ghost use Rattle.gd_defs.specs.Cost.{resolving};
ghost use Rattle.gd_defs.specs.Plan.{template_of};
ghost use Rattle.gd_defs.specs.Reply.{unknown_refusal};
ghost use Rattle.gd_bytes.specs.Frozen.{after_in_bounds};
ghost use Rattle.gd_runs.specs.Core as core;
ghost use Rattle.gd_runs.specs.Pace.{DueOf, begin_steps, first_number};
ghost use Rattle.gd_runs.specs.Request.{page_after, one_query};
ghost use Rattle.gd_mql.specs.Requests.{cursor_view, read_view};
ghost use Rattle.gd_plan.specs.Asked.{asked_view};
ghost use Rattle.gd_compile.specs.Fault.{unknown_of};
ghost use Rattle.gd_runs.specs.RootSets.{sets_by_link};
ghost use Rattle.gd_roots.specs.Sets.{numbered};
ghost use Rattle.gd_template.specs.Built.{its_clauses};
ghost use Rattle.gd_frozen.specs.Meaning.{reading_of};
ghost use Rattle.gd_frozen.specs.Meant.{meant};
ghost use Rattle.gd_window.specs.Kept.{HasSeen};
ghost use Rattle.gd_read.specs.Marked.{mark_of};
ghost use Rattle.gd_shape.specs.PassedOn.{window_of};
ghost use Rattle.gd_read.specs.Begun.{fault_at, HasOffset, asked_from, dateline_from, Begins};
ghost use Rattle.gd_read.specs.Begun.{IsMeaningless};
ghost use Rattle.gd_reply.specs.Answers.{Tells};
ghost use Rattle.gd_read.specs.Subject.{answer_of};
ghost use Rattle.gd_read.specs.Freezing.{IsFrozen};
ghost use Rattle.gd_read.specs.Stages.{IsAsked};
ghost use Rattle.gd_read.specs.Query.{one_view, QueryGoes, owed_answer, Gives, is_unanswered};
ghost use Rattle.gd_read.specs.Left.{IsPastIds, query_left};
ghost use Rattle.gd_read.specs.Paid.{QueryIsPaid};
ghost use Rattle.gd_read.specs.Start.{start_steps};

use crate::fault::ReadFault;
use crate::first::first_stage;
use crate::freezing::freeze_stage;
use crate::rows::window_behind;
use crate::stage::{Round, Stage};
use crate::subject::Subject;
use gd_base::memory::Memory;
use gd_base::steps::Steps;
use gd_compile::compile::compile;
use gd_compile::fault::Unknown;
use gd_frozen::cursor::Cursor;
use gd_frozen::frozen::FrozenReading;
use gd_frozen::{FrozenFault, cursor_from};
use gd_iter_core::budget::Budget;
use gd_json::value::JsonText;
use gd_mql::request::{CursorAsk, ReadRequest};
use gd_plan::plan::Plan;
use gd_reply::answer::Answer;
use gd_store::view::View;
use gd_window::window::Window;
use std::alloc::Global;

/// What a slice of the reading of a query comes to.
#[derive(Drop)]
pub enum Turn {
    /// What the query comes to: a page, or the refusal in its place.
    Answer(Answer),
    /// The budget was reached.
    Unfinished,
}

/// The reading of a query, which goes on in slices, at the dateline at which it began, while others
/// write. Contracts see it as the reading of the core, by `one_view`; `QueryGoes` says that it
/// owes, over the batches below its dateline, the answer of the definitions (`owed_answer`).
#[derive(Drop)]
pub struct QueryReading {
    subject: Subject,
    window: Window,
    stage: Stage,
}

/// The cursor of a text, whose dateline is not above the latest one.
fn cursor_in(latest: u32, text: &JsonText) -> Result<Cursor, ReadFault>
    ensures given { Begins latest (λ c. Some (meant c)) (asked_from latest (page_after text.now))
        result }
    ensures below { IfOk result (λ c. c.dateline ≤ latest) }
    ensures offset { IfErr result (λ fault. HasOffset fault) }
{
    match cursor_from(text.as_str().as_bytes()) {
        Ok(cursor) => {
            if latest < cursor.dateline {
                return Err(ReadFault::CursorAhead {
                    asked: cursor.dateline,
                    have: latest,
                });
            }
            Ok(cursor)
        }
        Err(FrozenFault::BadFrozen { offset }) => Err(ReadFault::BadCursor { offset }),
        Err(FrozenFault::Memory) => Err(ReadFault::Memory),
    }
}

/// The cursor from which a read asks, if there is one.
pub(crate) fn cursor_asked(latest: u32, ask: &CursorAsk) -> Result<Option<Cursor>, ReadFault>
    ensures given { Begins latest (λ after. option_map meant after)
        (asked_from latest (cursor_view ask.now)) result }
    ensures below { IfOk result (λ after. dateline_from latest (option_map meant after) ≤ latest) }
    ensures offset { IfErr result (λ fault. HasOffset fault) }
{
    match ask {
        CursorAsk::After(text) => Ok(Some(cursor_in(latest, text)?)),
        CursorAsk::Absent | CursorAsk::First => Ok(None),
    }
}

/// The dateline of a cursor, or else the latest one.
pub(crate) fn dateline_behind(latest: u32, after: &Option<Cursor>) -> u32
    ensures { result ≡ dateline_from latest (option_map meant after.now) }
{
    match after {
        Some(cursor) => cursor.dateline,
        None => latest,
    }
}

/// Why a reading of a query that has no meaning at a dateline does not begin.
fn meaning_fault(dateline: u32, unknown: Unknown) -> ReadFault
    ensures fault { (latest : ℕ) → result ≢ ReadFault.Memory
        → fault_at latest result ≡ (dateline, unknown_refusal (unknown_of unknown)) }
    ensures memory { result ≢ ReadFault.Memory → unknown ≢ Unknown.Memory }
    ensures offset { HasOffset result }
{
    match unknown {
        Unknown::NoSuchId { path } => ReadFault::NoSuchId { dateline, path },
        Unknown::NoSuchProperty { path } => ReadFault::NoSuchProperty { dateline, path },
        Unknown::BadQuery { code, path } => ReadFault::BadQuery {
            dateline,
            code,
            path,
        },
        Unknown::Memory => ReadFault::Memory,
    }
}

/// The plan of a read at the view's dateline.
pub(crate) fn plan_at<L>(
    alloc: Global,
    view: &View<'_>,
    request: &ReadRequest,
    steps: &mut Steps<L>,
) -> Result<Plan, ReadFault>
    ensures planned { MatchResult result
        (λ plan. asked_query (prims_of view.now) (read_view request.now).query
        ≡ Ok (asked_view plan))
        (λ fault. fault ≢ ReadFault.Memory → (latest : ℕ)
        → IsMeaningless (length view.now)
        (asked_query (prims_of view.now) (read_view request.now).query) (fault_at latest fault)) }
    ensures work { steps.new ≤ steps.old + 64 * resolving (prims_of view.now)
        (read_view request.now).query }
    ensures room { IfOk result (λ plan. steps.new + 24 * length
        (sets_by_link (prims_of view.now) (asked_view plan).members)
        ≤ steps.old + 64 * resolving (prims_of view.now) (read_view request.now).query) }
    ensures offset { IfErr result (λ fault. HasOffset fault) }
    ensures later { steps.old ≤ steps.new }
{
    match compile(alloc, view, request, steps) {
        Ok(plan) => Ok(plan),
        Err(unknown) => Err(meaning_fault(view.dateline(), unknown)),
    }
}

/// The reading of a window that has seen nothing, with its first stage.
fn begun_with<L>(
    alloc: Global,
    view: &View<'_>,
    subject: Subject,
    window: Window,
    plan: Plan,
    steps: &mut Steps<L>,
) -> Result<QueryReading, Memory>
    requires asked { IsAsked view.now subject (asked_view plan) }
    requires made { window ≡ window_of (prims_of view.now) (asked_view plan) (mark_of subject.after)
        [] }
    requires seen { HasSeen window [] }
    ensures subject { IfOk result (λ reading. reading.subject ≡ subject) }
    ensures going { IfOk result (λ reading. QueryGoes view.now reading) }
    ensures paid { IfOk result (λ reading. QueryIsPaid view.now reading) }
    ensures work { steps.new ≤ steps.old + 24 * length (numbered (prims_of view.now) 0
        (its_clauses (template_of (asked_view plan)))) }
    ensures later { steps.old ≤ steps.new }
{
    match first_stage(alloc, view, plan, steps) {
        Ok(stage) => Ok(QueryReading {
            subject,
            window,
            stage,
        }),
        Err(refused) => {
            drop(subject);
            drop(window);
            Err(refused)
        }
    }
}

/// The reading of a plan that has given nothing yet.
fn begun<L>(
    alloc: Global,
    view: &View<'_>,
    subject: Subject,
    plan: Plan,
    steps: &mut Steps<L>,
) -> Result<QueryReading, Memory>
    requires asked { IsAsked view.now subject (asked_view plan) }
    ensures subject { IfOk result (λ reading. reading.subject ≡ subject) }
    ensures going { IfOk result (λ reading. QueryGoes view.now reading) }
    ensures paid { IfOk result (λ reading. QueryIsPaid view.now reading) }
    ensures work { steps.new ≤ steps.old + 24 * length (numbered (prims_of view.now) 0
        (its_clauses (template_of (asked_view plan)))) }
    ensures later { steps.old ≤ steps.new }
{
    match window_behind(alloc, view, plan.asked(), &subject.after) {
        Ok(window) => begun_with(alloc, view, subject, window, plan, steps),
        Err(refused) => {
            drop(subject);
            drop(plan);
            Err(refused)
        }
    }
}

/// The reading of a request with its plan, at the view's dateline, from behind a cursor if there is
/// one. Choosing the places to visit takes steps.
pub(crate) fn planned<L>(
    alloc: Global,
    view: &View<'_>,
    after: Option<Cursor>,
    request: ReadRequest,
    plan: Plan,
    steps: &mut Steps<L>,
) -> Result<QueryReading, Memory>
    requires planned { asked_query (prims_of view.now) (read_view request).query
        ≡ Ok (asked_view plan) }
    requires mark { after_in_bounds (mark_of after) ≡ true }
    ensures subject { IfOk result (λ reading. reading.subject ≡ record {
      request = request;
      dateline = length view.now;
      after = after;
    }) }
    ensures going { IfOk result (λ reading. QueryGoes view.now reading) }
    ensures paid { IfOk result (λ reading. QueryIsPaid view.now reading) }
    ensures work { steps.new ≤ steps.old + 24 * length (numbered (prims_of view.now) 0
        (its_clauses (template_of (asked_view plan)))) }
    ensures later { steps.old ≤ steps.new }
{
    // Each primitive below the end may hold its value.
    let _end = view.end();
    let subject = Subject {
        request,
        dateline: view.dateline(),
        after,
    };
    begun(alloc, view, subject, plan, steps)
}

/// The reading of a request at the view's dateline, from behind a cursor if there is one.
#[tactic(auto, using(crate::proofs::Starts::starts_paid, crate::proofs::Starts::looked_paid))]
fn begin_at<L>(
    alloc: Global,
    view: &View<'_>,
    after: Option<Cursor>,
    request: ReadRequest,
    steps: &mut Steps<L>,
) -> Result<QueryReading, ReadFault>
    requires mark { after_in_bounds (mark_of after) ≡ true }
    ensures begun { MatchResult result
        (λ reading. core.with_meaning [] (read_view request) (length view.now) (mark_of after)
        (asked_query (prims_of view.now) (read_view request).query) ≡ Ok (one_view reading))
        (λ fault. fault ≢ ReadFault.Memory → (latest : ℕ)
        → core.with_meaning [] (read_view request) (length view.now) (mark_of after)
        (asked_query (prims_of view.now) (read_view request).query) ≡ Err (fault_at latest fault)) }
    ensures going { IfOk result (λ reading. QueryGoes view.now reading) }
    ensures paid { IfOk result (λ reading. QueryIsPaid view.now reading) }
    ensures work { steps.new ≤ steps.old + begin_steps (prims_of view.now)
        (read_view request).query }
    ensures offset { IfErr result (λ fault. HasOffset fault) }
    ensures later { steps.old ≤ steps.new }
{
    let plan = match plan_at(alloc, view, &request, steps) {
        Ok(plan) => plan,
        Err(fault) => {
            drop(request);
            drop(after);
            return Err(fault);
        }
    };
    match planned(alloc, view, after, request, plan, steps) {
        Ok(reading) => Ok(reading),
        Err(refused) => Err(ReadFault::from(refused)),
    }
}

impl QueryReading {
    /// The reading of a request over the store as it is now, or for a further page as it was at the
    /// dateline of the cursor. Its words are looked up here, which is not cut in slices. A cursor
    /// that is none, or is ahead, and a query that has no meaning at the dateline are refused;
    /// `Memory` may come in place of any reading.
    pub fn begin<L>(
        alloc: Global,
        view: &View<'_>,
        request: ReadRequest,
        steps: &mut Steps<L>,
    ) -> Result<QueryReading, ReadFault>
        ensures begun { Begins (length view.now) one_view
            (core.query_reading view.now (length view.now) (read_view request)) result }

        // The reading goes on over the batches below its dateline.
        ensures going { IfOk result (λ reading. QueryGoes
            (take (one_view reading).dateline view.now) reading) }

        // No more is left of it than the first number of the definitions, which is the bound on the
        // work of its query.
        ensures first { IfOk result (λ reading. (n : ℕ) (due : DueOf)
            → query_left n (take (one_view reading).dateline view.now) reading
            ≤ first_number due view.now (one_view reading)) }
        ensures below { IfOk result (λ reading. (one_view reading).dateline ≤ length view.now) }
        ensures offset { IfErr result (λ fault. HasOffset fault) }

        // It takes no more steps than the bound on beginning it, whatever it comes to: 64 for each
        // that its words and ids cost at the dateline at which it begins, and 64.
        ensures work { steps.new ≤ steps.old + start_steps view.now
            (one_query (read_view request)) }
        ensures later { steps.old ≤ steps.new }
    {
        let latest = view.dateline();
        match cursor_asked(latest, &request.cursor) {
            Ok(after) => {
                let below = view.earlier(dateline_behind(latest, &after));
                begin_at(alloc, &below, after, request, steps)
            }
            Err(fault) => {
                drop(request);
                Err(fault)
            }
        }
    }

    /// The dateline at which it reads.
    pub fn dateline(&self) -> u32
        ensures { result ≡ (one_view self.now).dateline }
    {
        self.subject.dateline
    }

    /// The reading as it is put away, over a view of its dateline: a frozen reading that has a text,
    /// fits the query and owes the same answer. `Memory`: an allocation was refused.
    pub fn freeze(&self, alloc: Global, view: &View<'_>) -> Result<FrozenReading, Memory>
        requires going { QueryGoes view.now self.now }
        ensures { IfOk result (λ frozen. IsFrozen view.now self.now.subject
            (reading_of frozen)) }
    {
        freeze_stage(alloc, view, &self.subject, &self.window, &self.stage)
    }

    /// The request, when the reading is done with.
    pub(crate) fn into_request(self) -> ReadRequest
        ensures { result ≡ self.subject.request }
    {
        let QueryReading {
            subject,
            window,
            stage,
        } = self;
        drop(window);
        drop(stage);
        let Subject { request, after, .. } = subject;
        drop(after);
        request
    }

    /// Goes on by a round: the answer, or none where it owes the same.
    fn round<L>(
        &mut self,
        alloc: Global,
        view: &View<'_>,
        budget: u64,
        steps: &mut Steps<L>,
    ) -> Result<Option<Answer>, Memory>
        requires budget { 0 < budget }
        requires going { QueryGoes view.now self.old }
        ensures gives { IfOk result (λ answer. MatchOption answer (QueryGoes view.now self.new)
            (λ told. Tells (answer_of view.now self.old.subject) told)) }
        ensures subject { self.new.subject ≡ self.old.subject }
        ensures counted { IfOk result (λ answer. IsNone answer → Rose steps.old steps.new) }
        ensures less { (n : ℕ) → IsPastIds n → steps.new + query_left n view.now self.new
            ≤ steps.old + query_left n view.now self.old }
        ensures work { steps.new ≤ steps.old + budget + 1024 }
        ensures later { steps.old ≤ steps.new }
    {
        let stage = std::mem::replace(&mut self.stage, Stage::Spent);
        match stage.go_on(alloc, &self.subject, &mut self.window, view, budget, steps)? {
            Round::Answer(answer) => Ok(Some(answer)),
            Round::Going(stage) => {
                drop(std::mem::replace(&mut self.stage, stage));
                Ok(None)
            }
        }
    }

    /// Goes on over a view of the reading's dateline, on the store at which it began or a later
    /// one, until the budget of steps is reached or the answer is there: the page at the dateline,
    /// or the refusal in its place. It takes at most 1,024 steps more than the budget. The number
    /// of what is left (`query_left`) falls by at least the steps that it takes, so finitely many
    /// slices end a reading. `Memory`: an allocation was refused; after that, and after an answer,
    /// nothing more is to be asked.
    pub fn slice<L>(
        &mut self,
        alloc: Global,
        view: &View<'_>,
        budget: u64,
        steps: &mut Steps<L>,
    ) -> Result<Turn, Memory>
        requires budget { 0 < budget }

        // The view stands for the batches below the dateline with which the reading began.
        requires going { QueryGoes view.now self.old }
        ensures answer { IfOk result (λ turn. Gives (owed_answer view.now self.old) turn) }

        // It reads the same, whatever it comes to.
        ensures same { self.new.subject ≡ self.old.subject }
        ensures still { IfOk result (λ turn. is_unanswered turn ≡ true
            → QueryGoes view.now self.new) }
        ensures reached { IfOk result (λ turn. is_unanswered turn ≡ true
            → min (steps.old + budget) (2 ^ 64 - 1) ≤ steps.new) }

        // What is left falls by at least the steps of the slice, whatever it comes to; `n` is a
        // number that no id reaches.
        ensures less { (n : ℕ) → IsPastIds n → steps.new + query_left n view.now self.new
            ≤ steps.old + query_left n view.now self.old }
        ensures work { steps.new ≤ steps.old + budget + 1024 }
        ensures later { steps.old ≤ steps.new }
    {
        let whole = Budget::new(budget, steps);
        for _round in 0..budget {
            if whole.is_spent(steps) {
                return Ok(Turn::Unfinished);
            }
            let left = whole.left(steps);
            if let Some(answer) = self.round(alloc, view, left, steps)? {
                return Ok(Turn::Answer(answer));
            }
        }
        Ok(Turn::Unfinished)
    }
}
