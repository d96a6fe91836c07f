//! Readings that print their page.
ghost use Rattle.std.specs.Prelude.{◌≡◌, ◌+◌, ◌<◌, ◌≤◌, ◌^◌, ℕ, [], Some, None, map, length, take};
ghost use Rattle.std.specs.Prelude.{nat_lt, option_map, if◌then◌else◌, Result, Err, IfOk, codes};
ghost use Rattle.gd_prim.specs.History.{prims_of};
ghost use Rattle.gd_tree.specs.Json.{Json as Value};
ghost use Rattle.gd_defs.specs.Lines.{refused_at};
ghost use Rattle.gd_defs.specs.Reply as reply;
ghost use Rattle.gd_json.specs.View.{view as json_view};
ghost use Rattle.gd_runs.specs.Request.{asks_page};
ghost use Rattle.gd_mql.specs.Requests.{cursor_view};
ghost use Rattle.gd_plan.specs.Asked.{asked_view};
ghost use Rattle.gd_read.specs.Marked.{mark_of, printed_view};
ghost use Rattle.gd_window.specs.Laws.{defined};
ghost use Rattle.gd_shape.specs.PassedOn.{rows_of, page_rows};
ghost use Rattle.gd_reply.specs.Answers.{Tells};
ghost use Rattle.gd_read.specs.Stages.{Prints, IsBuilt};
ghost use Rattle.gd_read.specs.Rounds.{RoundGives, RoundGoes};
ghost use Rattle.gd_shape.specs.Outcome.{text_of};
ghost use Rattle.gd_shape.specs.Shaping.{shape_due};
ghost use Rattle.gd_read.specs.Left.{prints_most, round_left};

use crate::cursors::row_text;
use crate::rows::page_of;
use crate::stage::{Round, Stage};
use crate::subject::Subject;
use gd_base::memory::Memory;
use gd_base::steps::Steps;
use gd_fault::fault::Path;
use gd_json::value::Json;
use gd_plan::plan::Plan;
use gd_reply::answer::Answer;
use gd_reply::refusal::Refusal;
use gd_shape::shape::{PageBody, Shape, ShapeFault, ShapeTurn};
use gd_store::view::View;
use gd_window::row::Row;
use gd_window::window::Window;
use std::alloc::Global;

/// The refusal that says that more than one object was found where one is asked.
fn too_many(alloc: Global) -> Answer
    ensures { Tells (Err (refused_at (codes "NotUnique") [])) result }
{
    Answer::Refused(Refusal::NotUnique {
        path: Path::root(alloc),
    })
}

/// Whether more than one object was found where one is asked.
fn are_many(plan: &Plan, window: &Window) -> bool
    ensures { result ≡ reply.is_ambiguous (asked_view plan.now).single
        (length (rows_of window.now)) }
{
    plan.asked().single && window.rows().len() > 1
}

/// Begins to print a page from a body, unless more than one object was found where one is asked.
pub(crate) fn print_page(
    alloc: Global,
    plan: Plan,
    body: PageBody,
    subject: &Subject,
    window: &Window,
    view: &View<'_>,
) -> Result<Round, Memory>
    requires built { IsBuilt view.now subject.now plan body window.now }
    ensures gives { IfOk result (λ round. RoundGives view.now subject.now window.now round) }
    ensures left { (n : ℕ) → IfOk result
        (λ round. round_left n view.now (mark_of subject.now.after) round
        ≤ prints_most (prims_of view.now) (asked_view plan) (mark_of subject.now.after)) }
{
    if are_many(&plan, window) {
        drop(plan);
        drop(body);
        return Ok(Round::Answer(too_many(alloc)));
    }
    let shape = Shape::start(alloc, plan.into_asked(), body)?;
    Ok(Round::Going(Stage::Printing(shape)))
}

/// The cursor of a page, of the rows that are kept: it marks the last row, and is false where no
/// row follows.
fn page_cursor(alloc: Global, dateline: u32, rows: &[Row], limit: u32) -> Result<Json, Memory>
    ensures { IfOk result (λ json. json_view json ≡ reply.page_cursor dateline
        (map defined (take limit rows.now)) (nat_lt limit (length rows.now))) }
{
    if rows.len() <= limit as usize {
        return Ok(Json::Bool(false));
    }
    match page_of(rows, limit).last() {
        Some(row) => row_text(alloc, dateline, row),
        None => Ok(Json::Bool(false)),
    }
}

/// The cursor of a page, if the answer tells one.
fn asked_cursor(alloc: Global, subject: &Subject, window: &Window) -> Result<Option<Json>, Memory>
    ensures { IfOk result (λ cursor. option_map json_view cursor
        ≡ (if asks_page (cursor_view subject.now.request.cursor)
        then Some (reply.page_cursor subject.now.dateline (page_rows window.now)
        (nat_lt window.now.limit (length (rows_of window.now)))) else None)) }
{
    if subject.with_cursor() {
        Ok(Some(page_cursor(alloc, subject.dateline, window.rows(), window.limit())?))
    } else {
        Ok(None)
    }
}

/// What a page comes to, of the text of what it prints or the first path at which two answers stand
/// where one is asked.
#[tactic(auto, using(crate::proofs::Printed::page_found, crate::proofs::Printed::page_refused))]
fn printed_answer(cursor: Option<Json>, printed: Result<Vec<u8>, Path>) -> Answer
    ensures { (page : Result Value reply.Path) → printed_view printed ≡ text_of page
        → Tells (reply.page_answer (option_map json_view cursor) page) result }
{
    match printed {
        Ok(outcome) => Answer::Found { cursor, outcome },
        Err(path) => Answer::Refused(Refusal::NotUnique { path }),
    }
}

/// The same, with the cursor of the page if one is asked for.
fn page_answer(
    alloc: Global,
    subject: &Subject,
    window: &Window,
    printed: Result<Vec<u8>, Path>,
) -> Result<Answer, Memory>
    ensures { IfOk result (λ answer. (page : Result Value reply.Path)
        → printed_view printed ≡ text_of page → Tells (reply.page_answer
        (if asks_page (cursor_view subject.now.request.cursor)
        then Some (reply.page_cursor subject.now.dateline (page_rows window.now)
        (nat_lt window.now.limit (length (rows_of window.now)))) else None) page) answer) }
{
    let cursor = asked_cursor(alloc, subject, window)?;
    Ok(printed_answer(cursor, printed))
}

/// Goes on with printing, or gives the answer.
pub(crate) fn print_on<L>(
    alloc: Global,
    mut shape: Shape,
    subject: &Subject,
    window: &Window,
    view: &View<'_>,
    budget: u64,
    steps: &mut Steps<L>,
) -> Result<Round, Memory>
    requires budget { 0 < budget }
    requires prints { Prints view.now subject.now shape window.now }
    ensures { RoundGoes view.now subject.now (λ n. shape_due (prims_of view.now) shape) window.now
        steps.old steps.new (budget + 1024) result }
{
    match shape.resume(alloc, view, budget, steps) {
        Ok(ShapeTurn::Reply(text)) => {
            drop(shape);
            Ok(Round::Answer(page_answer(alloc, subject, window, Ok(text))?))
        }
        Ok(ShapeTurn::Unfinished) => Ok(Round::Going(Stage::Printing(shape))),
        Err(ShapeFault::NotUnique { path }) => {
            drop(shape);
            let path = Path::from(path);
            Ok(Round::Answer(page_answer(alloc, subject, window, Err(path))?))
        }
        Err(ShapeFault::Memory) => {
            drop(shape);
            Err(Memory)
        }
    }
}
