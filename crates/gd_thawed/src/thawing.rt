//! Readings that are thawed from frozen texts.
ghost use Rattle.std.specs.Prelude.{◌≡◌, ◌+◌, ◌≤◌, ◌<◌, List, length, map, nat_le, true, Ok, IfOk};
ghost use Rattle.std.specs.Prelude.{if◌then◌else◌};
ghost use Rattle.std.specs.List.{list_all};
ghost use Rattle.gd_prim.specs.declared.Batch.{Batch};
ghost use Rattle.gd_prim.specs.History.{prims_of};
ghost use Rattle.gd_tree.specs.Trees.{Trees as Listed, list_of, trees_of, trees_count};
ghost use Rattle.gd_defs.specs.Asked.{asked_query};
ghost use Rattle.gd_defs.specs.Query.{Query};
ghost use Rattle.gd_bytes.specs.Frozen.{Scan, scanning, building, printing, Fits, max_number};
ghost use Rattle.gd_bytes.specs.Frozen.{walk_in_bounds};
ghost use Rattle.gd_frozen.specs.Meaning.{body_of, reading_of, scan_of, walk_of};
ghost use Rattle.gd_frozen.specs.Pieces.{trees_in};
ghost use Rattle.gd_plan.specs.Asked.{asked_view};
ghost use Rattle.gd_runs.specs.Fitting.{tried_count};
ghost use Rattle.gd_runs.specs.Scanned.{scan_order};
ghost use Rattle.gd_thaw_laws.specs.Spelled.{NumbersFit};
ghost use Rattle.gd_trees.specs.View.{view as tree_view, trees_view};
ghost use Rattle.gd_thawed.specs.Stages.{IsAsked, StageOwes, kept_owes};
ghost use Rattle.gd_thawed.specs.Subject.{marks_in};
ghost use Rattle.gd_thawed.specs.Thaw.{HasKept, TreesThaw, StandsAt, BuildFits, PrintFits};
ghost use Rattle.gd_thawed.specs.Thaw.{StageThaws, Thaws};
ghost use Rattle.gd_thawed.specs.declared.subject.Subject.{Subject as TheSubject};

use crate::building::Building;
use crate::first::root_for;
use crate::fitting::{rows_fit, walks_fit};
use crate::printing::{count_stage, stage_at};
use crate::query::ThawedQuery;
use crate::rows::{objects_of, offer_marks, page_of, window_behind};
use crate::scanning::Scanning;
use crate::stage::Stage;
use crate::subject::Subject;
use gd_base::memory::Memory;
use gd_base::steps::Steps;
use gd_frozen::frozen::{FrozenBody, FrozenReading, FrozenScan, RowAt, Walk};
use gd_frozen::tree::FrozenTrees;
use gd_plan::asked::Asked;
use gd_plan::plan::Plan;
use gd_roots::{Matcher, Root, thawed_trees};
use gd_shape::ids::ids_printed;
use gd_store::view::View;
use gd_trees::tree::Trees;
use gd_window::window::Window;
use std::alloc::Global;
use std::snapshot::Snapshot;

/// A reading that scans from where a text says. None: the scan does not fit the query.
fn scan_stage<L>(
    alloc: Global,
    view: &View<'_>,
    plan: Plan,
    subject: &Subject,
    window: &Window,
    rows: &[RowAt],
    scan: FrozenScan,
    steps: &mut Steps<L>,
) -> Result<Option<Stage>, Memory>
    requires meaning { (written : Query) × (asked_query (prims_of view.now) written
        ≡ Ok (asked_view plan)) }
    requires asked { IsAsked view.now subject.now (asked_view plan) }
    requires kept { HasKept (prims_of view.now) (asked_view plan) subject.now (marks_in rows.now)
        window.now }
    requires light { (scan_of scan).weight ≤ max_number }
    ensures thaws { IfOk result (StageThaws view.now subject.now (asked_view plan)
        (marks_in rows.now) (scanning (scan_of scan)) window.now) }
    ensures later { steps.old ≤ steps.new }
{
    let root = root_for(alloc, view, plan.template(), steps)?;
    match Matcher::thaw(alloc, plan.template(), root, &scan, view, steps)? {
        Some(matcher) => Ok(Some(Stage::Scanning(Scanning {
            plan,
            matcher,
            before: scan,
            found: None,
        }))),
        None => Ok(None),
    }
}

/// How many trees there are, aside from those that lie within them.
#[tactic(auto, using(crate::proofs::FromText::count_trees))]
fn count_of(trees: &Trees) -> usize
    ensures { result ≡ length (list_of (trees_view trees.now)) }
{
    trees.items.len()
}

/// How many trees of built rows a text may have, with so many rows: none for a count.
fn most_trees(asked: &Asked, rows: usize) -> usize
    ensures { result ≡ (if (asked_view asked.now).count then 0 else rows) }
{
    if asked.count { 0 } else { rows }
}

/// The trees of built rows of a text. None: one does not fit the query, or there are more than
/// rows; for a count there may be none.
fn built_trees<L>(
    alloc: Global,
    view: &View<'_>,
    plan: &Plan,
    rows: usize,
    trees: &FrozenTrees,
    steps: &mut Steps<L>,
) -> Result<Option<Trees>, Memory>
    ensures thaws { IfOk result (TreesThaw (prims_of view.now) (asked_view plan.now) rows
        (trees_in trees.now)) }
    ensures later { steps.old ≤ steps.new }
{
    let most = most_trees(plan.asked(), rows);
    match thawed_trees(alloc, plan.template(), trees, view, steps)? {
        Some(trees) => {
            if count_of(&trees) > most {
                drop(trees);
                return Ok(None);
            }
            Ok(Some(trees))
        }
        None => Ok(None),
    }
}

/// How many candidates a scan tries: one, if it has frames.
fn tried_by(scan: &FrozenScan) -> usize
    ensures { result ≡ tried_count (scan_of scan.now).frames }
{
    if scan.frames.is_empty() { 0 } else { 1 }
}

/// Whether there are no more trees than rows before the one at which a scan of rows stands, with
/// that of the row that is tried.
fn are_few(trees: &Trees, scan: &FrozenScan) -> bool
    ensures { result ≡ nat_le (length (list_of (trees_view trees.now))
        + tried_count (scan_of scan.now).frames) (scan_of scan.now).iter.place }
{
    let place = scan.iter.place.place() as usize;
    let tried = tried_by(scan);
    tried <= place && count_of(trees) <= place - tried
}

/// A reading that builds from where a text says. None: its body does not fit the query.
fn build_stage<L>(
    alloc: Global,
    view: &View<'_>,
    plan: Plan,
    subject: &Subject,
    window: &Window,
    rows: Vec<RowAt>,
    weight: u32,
    trees: &FrozenTrees,
    scan: &FrozenScan,
    steps: &mut Steps<L>,
) -> Result<Option<Stage>, Memory>
    requires asked { IsAsked view.now subject.now (asked_view plan) }
    requires kept { HasKept (prims_of view.now) (asked_view plan) subject.now (marks_in rows.items)
        window.now }
    requires light { (scan_of scan.now).weight ≤ max_number }
    ensures thaws { IfOk result (StageThaws view.now subject.now (asked_view plan)
        (marks_in rows.items) (building weight (trees_in trees.now) (scan_of scan.now))
        window.now) }
    ensures later { steps.old ≤ steps.new }
{
    if scan.iter.place.place() as usize > rows.len() {
        return Ok(None);
    }
    if scan.iter.accepted.is_some() {
        return Ok(None);
    }
    let trees = match built_trees(alloc, view, &plan, rows.len(), trees, steps)? {
        Some(trees) => trees,
        None => return Ok(None),
    };
    if !are_few(&trees, scan) {
        return Ok(None);
    }
    let ids = objects_of(alloc, page_of(window.rows(), window.limit()))?;
    match Matcher::thaw_at(alloc, plan.template(), Root::Rows(ids), scan, view, steps)? {
        Some(matcher) => Ok(Some(build_from(alloc, plan, window, matcher, trees, weight, rows)?)),
        None => Ok(None),
    }
}

/// What a reading does that builds, with a matcher, trees and rows of a text: of a count no tree is
/// built, so its rows are printed.
fn build_from(
    alloc: Global,
    plan: Plan,
    window: &Window,
    matcher: Matcher,
    trees: Trees,
    weight: u32,
    rows: Vec<RowAt>,
) -> Result<Stage, Memory>
    ensures { (batches : List Batch) (s : TheSubject) (text : Scan) (ts : Listed)
        → IsAsked batches s (asked_view plan)
        → HasKept (prims_of batches) (asked_view plan) s (marks_in rows.items) window.now
        → trees_view trees ≡ ts
        → StandsAt batches plan text (length (marks_in rows.items)) window.now matcher
        → BuildFits batches (asked_view plan) (marks_in rows.items) weight ts text
        → IfOk result (λ stage. StageOwes batches (kept_owes batches s (asked_view plan)
        (scan_order (prims_of batches) (asked_view plan)) (marks_in rows.items)
        (building weight ts text)) s stage window.now) }
{
    if plan.asked().count {
        drop(matcher);
        drop(trees);
        return count_stage(alloc, plan, window, rows);
    }
    Ok(Stage::Building(building_of(plan, matcher, trees, weight, rows)))
}

/// A reading that builds, with the trees and the rows of a text.
#[tactic(auto, using(crate::proofs::FromText::trees_again))]
fn building_of(
    plan: Plan,
    matcher: Matcher,
    trees: Trees,
    weight: u32,
    rows: Vec<RowAt>,
) -> Building
    ensures plan { result.plan ≡ plan }
    ensures matcher { result.matcher ≡ matcher }
    ensures trees { trees_of (map tree_view result.trees.items) ≡ trees_view trees }
    ensures weight { result.weight ≡ weight }
    ensures rows { result.rows ≡ rows }
{
    Building {
        plan,
        matcher,
        trees: trees.items,
        weight: u64::from(weight),
        rows,
    }
}

/// How a page is printed of trees of a text whose walks and places fit: of a count its rows are
/// printed.
fn print_from(
    alloc: Global,
    plan: Plan,
    window: &Window,
    trees: Trees,
    told: FrozenTrees,
    printed: u32,
    walks: Vec<Walk>,
    rows: Vec<RowAt>,
) -> Result<Stage, Memory>
    requires places { printed ≤ trees_count (trees_view trees) }
    ensures { (batches : List Batch) (s : TheSubject)
        → IsAsked batches s (asked_view plan)
        → HasKept (prims_of batches) (asked_view plan) s (marks_in rows.items) window.now
        → trees_view trees ≡ trees_in told
        → PrintFits batches (asked_view plan) (marks_in rows.items) printed (trees_in told)
        (map walk_of walks.items)
        → IfOk result (λ stage. StageOwes batches (kept_owes batches s (asked_view plan)
        (scan_order (prims_of batches) (asked_view plan)) (marks_in rows.items)
        (printing printed (trees_in told) (map walk_of walks.items))) s stage window.now) }
{
    if plan.asked().count {
        drop(trees);
        drop(told);
        drop(walks);
        return count_stage(alloc, plan, window, rows);
    }
    stage_at(alloc, plan, trees, told, printed, walks, rows)
}

/// Whether trees have so many places.
fn has_places(trees: &Trees, printed: u32) -> bool
    ensures { result ≡ nat_le printed (trees_count (trees_view trees.now)) }
{
    u64::from(printed) <= trees.count()
}

/// A reading that prints from where a text says. None: its body does not fit the query.
fn print_stage<L>(
    alloc: Global,
    view: &View<'_>,
    plan: Plan,
    subject: &Subject,
    window: &Window,
    rows: Vec<RowAt>,
    printed: u32,
    told: FrozenTrees,
    walks: Vec<Walk>,
    steps: &mut Steps<L>,
) -> Result<Option<Stage>, Memory>
    requires asked { IsAsked view.now subject.now (asked_view plan) }
    requires kept { HasKept (prims_of view.now) (asked_view plan) subject.now (marks_in rows.items)
        window.now }
    requires bounds { list_all walk_in_bounds (map walk_of walks.items) ≡ true }
    ensures thaws { IfOk result (StageThaws view.now subject.now (asked_view plan)
        (marks_in rows.items) (printing printed (trees_in told) (map walk_of walks.items))
        window.now) }
    ensures later { steps.old ≤ steps.new }
{
    if !walks_fit(view.primitives(), walks.as_slice()) {
        return Ok(None);
    }
    let trees = match built_trees(alloc, view, &plan, rows.len(), &told, steps)? {
        Some(trees) => trees,
        None => return Ok(None),
    };
    if !has_places(&trees, printed) {
        return Ok(None);
    }
    if walks.as_slice().len() > ids_printed(alloc, view, plan.asked(), trees.items.as_slice())? {
        return Ok(None);
    }
    Ok(Some(print_from(alloc, plan, window, trees, told, printed, walks, rows)?))
}

/// What a reading does from where the body of a text says. None: it does not fit the query.
fn stage_of<L>(
    alloc: Global,
    view: &View<'_>,
    plan: Plan,
    subject: &Subject,
    window: &Window,
    rows: Vec<RowAt>,
    body: FrozenBody,
    steps: &mut Steps<L>,
) -> Result<Option<Stage>, Memory>
    requires meaning { (written : Query) × (asked_query (prims_of view.now) written
        ≡ Ok (asked_view plan)) }
    requires asked { IsAsked view.now subject.now (asked_view plan) }
    requires kept { HasKept (prims_of view.now) (asked_view plan) subject.now (marks_in rows.items)
        window.now }
    requires numbers { NumbersFit (body_of body) }
    ensures thaws { IfOk result (StageThaws view.now subject.now (asked_view plan)
        (marks_in rows.items) (body_of body) window.now) }
    ensures later { steps.old ≤ steps.new }
{
    match body {
        FrozenBody::Scan(scan) => scan_stage(
            alloc,
            view,
            plan,
            subject,
            window,
            rows.as_slice(),
            scan,
            steps,
        ),
        FrozenBody::Build {
            weight,
            trees,
            scan,
        } => build_stage(
            alloc, view, plan, subject, window, rows, weight, &trees, &scan, steps,
        ),
        FrozenBody::Print {
            printed,
            trees,
            walks,
        } => print_stage(
            alloc, view, plan, subject, window, rows, printed, trees, walks, steps,
        ),
    }
}

impl ThawedQuery {
    /// The reading that goes on from where a frozen text says, of a query with its plan at the
    /// text's dateline, which is that of the view. None: the text does not fit the query. The plan
    /// says whether its answer tells a cursor through `with_cursor`. `Memory`: an allocation was
    /// refused.
    pub fn thaw<L>(
        alloc: Global,
        view: &View<'_>,
        plan: Plan,
        with_cursor: bool,
        frozen: FrozenReading,
        steps: &mut Steps<L>,
    ) -> Result<Option<ThawedQuery>, Memory>
        requires dateline { length view.now ≡ frozen.dateline }

        // The text lies within its bounds, as each that was read.
        requires bounds { Fits (reading_of frozen) }

        // The plan is that of a query, with few sort keys and a limit.
        requires meaning { (written : Query) × (asked_query (prims_of view.now) written
            ≡ Ok (asked_view plan)) }
        requires few { length (asked_view plan).sort ≤ 4 }
        requires some { 0 < (asked_view plan).limit }
        requires most { (asked_view plan).limit ≤ 1000 }

        // It comes exactly where the text fits; it reads what the text says, and owes what that
        // owes.
        ensures thaws { IfOk result (Thaws view.now (asked_view plan) with_cursor
            (reading_of frozen)) }
        ensures later { steps.old ≤ steps.new }
    {
        let FrozenReading {
            dateline,
            after,
            rows,
            body,
        } = frozen;
        if !rows_fit(view.primitives(), plan.asked(), rows.as_slice()) {
            return Ok(None);
        }
        let mut window = window_behind(alloc, view, plan.asked(), &after)?;
        offer_marks(alloc, plan.asked(), &mut window, view, rows.as_slice())?;
        let subject = Subject {
            asked: Snapshot::of(plan.asked()),
            dateline,
            with_cursor,
            after,
        };
        let stage = stage_of(alloc, view, plan, &subject, &window, rows, body, steps)?;
        match stage {
            Some(stage) => Ok(Some(ThawedQuery {
                subject,
                window,
                stage,
            })),
            None => Ok(None),
        }
    }
}
