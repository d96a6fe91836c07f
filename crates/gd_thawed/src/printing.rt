//! Readings that print their page.
ghost use Rattle.std.specs.Prelude.{◌≡◌, ◌+◌, ◌<◌, ◌≤◌, [], List, Some, None, false, map, length, take};
ghost use Rattle.std.specs.Prelude.{nat_lt, option_map, if◌then◌else◌, Result, Err, IfOk, codes};
ghost use Rattle.gd_prim.specs.declared.Batch.{Batch};
ghost use Rattle.gd_tree.specs.Json.{Json as Value};
ghost use Rattle.gd_defs.specs.Lines.{refused_at};
ghost use Rattle.gd_defs.specs.Reply as reply;
ghost use Rattle.gd_defs.specs.Reply.{Answer as TheAnswer};
ghost use Rattle.gd_json.specs.View.{view as json_view};
ghost use Rattle.gd_thawed.specs.Marked.{printed_view};
ghost use Rattle.gd_window.specs.Laws.{defined};
ghost use Rattle.gd_suspended_laws.specs.Standing.{rows_of, page_rows};
ghost use Rattle.gd_reply.specs.Answers.{Tells};
ghost use Rattle.gd_window.specs.Kept.{Kept};
ghost use Rattle.gd_thawed.specs.declared.subject.Subject.{Subject as TheSubject};
ghost use Rattle.gd_thawed.specs.Stages.{IsAsked, Prints, IsBuilt, CountsRows, StageOwes};
ghost use Rattle.gd_thawed.specs.Stages.{body_trees, kept_owes};
ghost use Rattle.gd_thawed.specs.Subject.{marks_in};
ghost use Rattle.gd_thawed.specs.Thaw.{HasKept, PrintFits};
ghost use Rattle.gd_prim.specs.declared.Primitive.{Primitive};
ghost use Rattle.gd_prim.specs.History.{prims_of};
ghost use Rattle.gd_tree.specs.Trees.{trees_count};
ghost use Rattle.gd_bytes.specs.Frozen.{printing};
ghost use Rattle.gd_frozen.specs.Meaning.{walk_of};
ghost use Rattle.gd_frozen.specs.Pieces.{trees_in};
ghost use Rattle.gd_plan.specs.Asked.{asked_view};
ghost use Rattle.gd_runs.specs.Scanned.{scan_order};
ghost use Rattle.gd_trees.specs.View.{trees_view};
ghost use Rattle.gd_thawed.specs.Rounds.{RoundGoes};
ghost use Rattle.gd_shape.specs.Outcome.{text_of};
ghost use Rattle.gd_shape.specs.Shaping as shaping;
ghost use Rattle.gd_shape.specs.Shaping.{page_of as page_told, asked_of, body_told, body_list};
ghost use Rattle.gd_shape.specs.Shaping.{body_places, walks_in, IsOf};

use crate::cursors::row_text;
use crate::rows::page_of;
use crate::stage::{Round, Stage};
use crate::subject::Subject;
use gd_base::memory::Memory;
use gd_base::steps::Steps;
use gd_fault::fault::Path;
use gd_frozen::frozen::{RowAt, Walk};
use gd_frozen::tree::FrozenTrees;
use gd_json::value::Json;
use gd_plan::plan::Plan;
use gd_reply::answer::Answer;
use gd_reply::refusal::Refusal;
use gd_roots::frozen_list;
use gd_shape::shape::{PageBody, Shape, ShapeFault, ShapeTurn};
use gd_store::view::View;
use gd_trees::tree::Trees;
use gd_window::row::Row;
use gd_window::window::Window;
use std::alloc::Global;

/// The greatest number of places that a text tells.
const MOST_PLACES: u64 = 4_294_967_295;

/// A reading that prints: its page, whether it asks for one object alone, and with what it is put
/// away: the rows, the trees of the page, and how many places these have, at most.
#[derive(Drop)]
pub(crate) struct Printing {
    pub(crate) shape: Shape,
    pub(crate) single: bool,
    pub(crate) rows: Vec<RowAt>,
    pub(crate) trees: FrozenTrees,
    pub(crate) places: u32,
}

/// The refusal that says that more than one object was found where one is asked.
fn too_many(alloc: Global) -> Answer
    ensures { Tells (Err (refused_at (codes "NotUnique") [])) result }
{
    Answer::Refused(Refusal::NotUnique {
        path: Path::root(alloc),
    })
}

/// Whether more than one object was found where one is asked.
fn are_many(single: bool, window: &Window) -> bool
    ensures { result ≡ reply.is_ambiguous single (length (rows_of window.now)) }
{
    single && window.rows().len() > 1
}

/// How many places the trees of a body have, or as many as a text tells where they have more: none
/// for a count.
fn places_of(body: &PageBody) -> u32
    ensures { result ≤ body_places body.now }
{
    match body {
        PageBody::Trees(trees) => trees.count().min(MOST_PLACES) as u32,
        PageBody::Count(_) => 0,
    }
}

/// A page that is printed from a body of which so many places were counted, and whose first ids are
/// spelt by walks; it is put away with these rows and trees.
fn printing_of(
    alloc: Global,
    plan: Plan,
    body: PageBody,
    printed: u32,
    walks: Vec<Walk>,
    rows: Vec<RowAt>,
    trees: FrozenTrees,
) -> Result<Printing, Memory>
    requires printed { printed ≤ body_places body }
    ensures page { IfOk result (λ printing. (prims : List Primitive)
        → page_told prims printing.shape
        ≡ body_told prims (asked_view plan) body (map walk_of walks.items)) }
    ensures of { IfOk result (λ printing. (prims : List Primitive) → IsOf prims printing.shape) }
    ensures walks { IfOk result (λ printing. walks_in printing.shape ≡ map walk_of walks.items) }
    ensures single { IfOk result (λ printing. printing.single ≡ plan.single) }
    ensures asks { IfOk result (λ printing. asked_of printing.shape ≡ asked_view plan) }
    ensures has { IfOk result (λ printing. shaping.trees_in printing.shape ≡ body_list body) }
    ensures rows { IfOk result (λ printing. printing.rows ≡ rows) }
    ensures trees { IfOk result (λ printing. printing.trees ≡ trees) }
    ensures places { IfOk result (λ printing. printing.places ≤ body_places body) }
    ensures low { IfOk result (λ printing. printing.places ≤ 4_294_967_295) }
{
    let single = plan.asked().single;
    let places = places_of(&body);
    match Shape::start_at(alloc, plan.into_asked(), body, printed, walks) {
        Ok(shape) => Ok(Printing {
            shape,
            single,
            rows,
            trees,
            places,
        }),
        Err(refused) => {
            drop(rows);
            drop(trees);
            Err(refused)
        }
    }
}

/// What a reading does that begins to print a page from a body, and is put away with these rows and
/// with the trees of the body.
pub(crate) fn page_stage(
    alloc: Global,
    plan: Plan,
    body: PageBody,
    rows: Vec<RowAt>,
    trees: FrozenTrees,
) -> Result<Stage, Memory>
    ensures { (batches : List Batch) (owed : TheAnswer) (s : TheSubject) (w : Kept)
        → IsBuilt batches owed s plan body (marks_in rows.items) w
        → trees_in trees ≡ body_trees body
        → IfOk result (λ stage. StageOwes batches owed s stage w) }
{
    let none = Vec::new(alloc);
    let printing = printing_of(alloc, plan, body, 0, none, rows, trees)?;
    Ok(Stage::Printing(printing))
}

/// What a reading does that prints how many rows its page has, and is put away with these rows.
pub(crate) fn count_stage(
    alloc: Global,
    plan: Plan,
    window: &Window,
    rows: Vec<RowAt>,
) -> Result<Stage, Memory>
    ensures { (batches : List Batch) (owed : TheAnswer) (s : TheSubject)
        → CountsRows batches owed s plan (marks_in rows.items) window.now
        → IfOk result (λ stage. StageOwes batches owed s stage window.now) }
{
    let count = page_of(window.rows(), window.limit()).len() as u32;
    match frozen_list(alloc, &[]) {
        Ok(none) => page_stage(alloc, plan, PageBody::Count(count), rows, none),
        Err(refused) => {
            drop(plan);
            drop(rows);
            Err(refused)
        }
    }
}

/// What a reading does that goes on printing from trees of which so many places were counted, whose
/// first ids are spelt by walks.
pub(crate) fn stage_at(
    alloc: Global,
    plan: Plan,
    trees: Trees,
    told: FrozenTrees,
    printed: u32,
    walks: Vec<Walk>,
    rows: Vec<RowAt>,
) -> Result<Stage, Memory>
    requires listed { (asked_view plan).count ≡ false }
    requires places { printed ≤ trees_count (trees_view trees) }
    ensures { (batches : List Batch) (s : TheSubject) (w : Kept)
        → IsAsked batches s (asked_view plan)
        → HasKept (prims_of batches) (asked_view plan) s (marks_in rows.items) w
        → trees_view trees ≡ trees_in told
        → PrintFits batches (asked_view plan) (marks_in rows.items) printed (trees_in told)
        (map walk_of walks.items)
        → IfOk result (λ stage. StageOwes batches (kept_owes batches s (asked_view plan)
        (scan_order (prims_of batches) (asked_view plan)) (marks_in rows.items)
        (printing printed (trees_in told) (map walk_of walks.items))) s stage w) }
{
    let body = PageBody::Trees(trees);
    let printing = printing_of(alloc, plan, body, printed, walks, rows, told)?;
    Ok(Stage::Printing(printing))
}

/// The cursor of a page, of the rows that are kept: it marks the last row, and is false where no
/// row follows.
fn page_cursor(alloc: Global, dateline: u32, rows: &[Row], limit: u32) -> Result<Json, Memory>
    ensures { IfOk result (λ json. json_view json ≡ reply.page_cursor dateline
        (map defined (take limit rows.now)) (nat_lt limit (length rows.now))) }
{
    if rows.len() <= limit as usize {
        return Ok(Json::Bool(false));
    }
    match page_of(rows, limit).last() {
        Some(row) => row_text(alloc, dateline, row),
        None => Ok(Json::Bool(false)),
    }
}

/// The cursor of a page, if the answer tells one.
fn asked_cursor(alloc: Global, subject: &Subject, window: &Window) -> Result<Option<Json>, Memory>
    ensures { IfOk result (λ cursor. option_map json_view cursor
        ≡ (if subject.now.with_cursor
        then Some (reply.page_cursor subject.now.dateline (page_rows window.now)
        (nat_lt window.now.limit (length (rows_of window.now)))) else None)) }
{
    if subject.with_cursor {
        Ok(Some(page_cursor(alloc, subject.dateline, window.rows(), window.limit())?))
    } else {
        Ok(None)
    }
}

/// What a page comes to, of the text of what it prints or the first path at which two answers stand
/// where one is asked.
#[tactic(auto, using(crate::proofs::Printed::page_found, crate::proofs::Printed::page_refused))]
fn printed_answer(cursor: Option<Json>, printed: Result<Vec<u8>, Path>) -> Answer
    ensures { (page : Result Value reply.Path) → printed_view printed ≡ text_of page
        → Tells (reply.page_answer (option_map json_view cursor) page) result }
{
    match printed {
        Ok(outcome) => Answer::Found { cursor, outcome },
        Err(path) => Answer::Refused(Refusal::NotUnique { path }),
    }
}

/// The same, with the cursor of the page if one is asked for.
fn page_answer(
    alloc: Global,
    subject: &Subject,
    window: &Window,
    printed: Result<Vec<u8>, Path>,
) -> Result<Answer, Memory>
    ensures { IfOk result (λ answer. (page : Result Value reply.Path)
        → printed_view printed ≡ text_of page → Tells (reply.page_answer
        (if subject.now.with_cursor
        then Some (reply.page_cursor subject.now.dateline (page_rows window.now)
        (nat_lt window.now.limit (length (rows_of window.now)))) else None) page) answer) }
{
    let cursor = asked_cursor(alloc, subject, window)?;
    Ok(printed_answer(cursor, printed))
}

impl Printing {
    /// Goes on with printing, or gives the answer. `Memory`: an allocation was refused.
    pub(crate) fn go_on<L>(
        self,
        alloc: Global,
        subject: &Subject,
        window: &Window,
        view: &View<'_>,
        budget: u64,
        steps: &mut Steps<L>,
    ) -> Result<Round, Memory>
        requires budget { 0 < budget }
        requires some { (owed : TheAnswer) × Prints view.now owed subject.now self window.now }
        ensures { (owed : TheAnswer) → Prints view.now owed subject.now self window.now
            → RoundGoes view.now owed subject.now window.now steps.old steps.new (budget + 1024)
            result }
    {
        if are_many(self.single, window) {
            drop(self);
            return Ok(Round::Answer(too_many(alloc)));
        }
        self.print_on(alloc, subject, window, view, budget, steps)
    }

    /// Goes on where one object alone was found, or more are asked.
    fn print_on<L>(
        mut self,
        alloc: Global,
        subject: &Subject,
        window: &Window,
        view: &View<'_>,
        budget: u64,
        steps: &mut Steps<L>,
    ) -> Result<Round, Memory>
        requires budget { 0 < budget }
        requires some { (owed : TheAnswer) × Prints view.now owed subject.now self window.now }
        requires one { reply.is_ambiguous self.single (length (rows_of window.now)) ≡ false }
        ensures { (owed : TheAnswer) → Prints view.now owed subject.now self window.now
            → RoundGoes view.now owed subject.now window.now steps.old steps.new (budget + 1024)
            result }
    {
        match self.shape.resume(alloc, view, budget, steps) {
            Ok(ShapeTurn::Reply(text)) => {
                drop(self);
                Ok(Round::Answer(page_answer(alloc, subject, window, Ok(text))?))
            }
            Ok(ShapeTurn::Unfinished) => Ok(Round::Going(Stage::Printing(self))),
            Err(ShapeFault::NotUnique { path }) => {
                drop(self);
                let path = Path::from(path);
                Ok(Round::Answer(page_answer(alloc, subject, window, Err(path))?))
            }
            Err(ShapeFault::Memory) => {
                drop(self);
                Err(Memory)
            }
        }
    }
}
