//! Readings of one query, as they are put away: their rows, and how far they came.
ghost use Rattle.std.specs.Prelude.{◌≡◌, ◌<◌, ◌≤◌, length, map, min, option_map, IfOk};
ghost use Rattle.std.specs.Prelude.{IfSome};
ghost use Rattle.gd_prim.specs.declared.Batch.{Batch};
ghost use Rattle.gd_prim.specs.History.{prims_of};
ghost use Rattle.gd_defs.specs.Reply.{row_mark};
ghost use Rattle.gd_shape.specs.PassedOn.{start, marks_of, page_objects, view as tree_view};
ghost use Rattle.gd_bytes.specs.Frozen.{building, scanning};
ghost use Rattle.gd_tree.specs.Trees.{no_trees, trees_of};
ghost use Rattle.gd_plan.specs.Asked.{asked_view};
ghost use Rattle.gd_defs.specs.Plan.{template_of};
ghost use Rattle.gd_frozen.specs.Meaning.{body_of, reading_of, row_of, scan_of};
ghost use Rattle.gd_frozen.specs.Pieces.{trees_in};
ghost use Rattle.gd_window.specs.Laws.{defined};
ghost use Rattle.gd_window.specs.declared.row.Row.{Row as WindowRow};
ghost use Rattle.gd_template.specs.Built.{view as template_view};
ghost use Rattle.gd_roots.specs.PassedOn.{between as scan_between, stands, told, CanBeTold};
ghost use Rattle.gd_read.specs.Freezing.{BodyStands, IsFrozen, number_ahead, scan_ahead};
ghost use Rattle.gd_read.specs.Freezing.{scan_with};
ghost use Rattle.gd_read.specs.Marked.{mark_of};
ghost use Rattle.gd_read.specs.Stages.{StageOwes, Visits};
ghost use Rattle.gd_read.specs.declared.subject.Subject.{Subject as TheSubject};

use crate::cursors::places_of;
use crate::gathering::Gathering;
use crate::rows::page_of;
use crate::stage::Stage;
use crate::subject::Subject;
use crate::trying::Trying;
use crate::visiting::Visiting;
use gd_base::id::Id;
use gd_base::memory::Memory;
use gd_frozen::cursor::{Cursor, Places};
use gd_frozen::frozen::{FrozenBody, FrozenReading, FrozenScan, RowAt};
use gd_iter_core::turn::FrozenIter;
use gd_roots::frozen_list;
use gd_store::view::View;
use gd_template::template::Template;
use gd_window::row::Row;
use gd_window::window::Window;
use std::alloc::Global;

/// The same places of keys.
fn places_again(keys: &[Option<Id>]) -> Places
    requires { length keys.now ≤ 4 }
    ensures { result ≡ keys.now }
{
    let mut places = Places::new();
    for key in keys {
        places.push(*key);
    }
    places
}

/// The row of a cursor, if there is one.
fn row_after(after: &Option<Cursor>) -> Option<RowAt>
    ensures { option_map row_of result ≡ mark_of after.now }
{
    match after {
        Some(cursor) => Some(RowAt {
            object: cursor.object,
            keys: places_again(cursor.keys.as_slice()),
        }),
        None => None,
    }
}

/// A row that a window keeps, by its places.
fn row_at(row: &Row) -> RowAt
    ensures { row_of result ≡ row_mark (defined row.now) }
{
    RowAt {
        object: row.id,
        keys: places_of(row.keys.as_slice()),
    }
}

/// The rows that a window keeps. `Memory`: an allocation was refused.
fn rows_at(alloc: Global, rows: &[Row]) -> Result<Vec<RowAt>, Memory>
    ensures { IfOk result (λ marks. map row_of marks.items
        ≡ map (λ (r : WindowRow). row_mark (defined r)) rows.now) }
{
    let mut marks = Vec::with_capacity(alloc, rows.len())?;
    for row in rows {
        marks.push(row_at(row))?;
    }
    Ok(marks)
}

/// The rows of the window of a reading. `Memory`: an allocation was refused.
fn window_rows(alloc: Global, window: &Window) -> Result<Vec<RowAt>, Memory>
    ensures { IfOk result (λ marks. map row_of marks.items ≡ marks_of window.now) }
{
    rows_at(alloc, window.rows())
}

/// The scan that stands before a place, between two candidates.
fn scan_before(alloc: Global, place: Id) -> FrozenScan
    ensures { scan_of result ≡ scan_between place }
{
    FrozenScan {
        iter: FrozenIter {
            place,
            accepted: None,
        },
        weight: 0,
        frames: Vec::new(alloc),
    }
}

/// The scan behind a number of which the place is tried, with the frames of its matcher; where none of
/// them can be told, the one before it, so that the place comes again. `Memory`: an allocation was
/// refused.
fn scan_tried(
    alloc: Global,
    template: &Template,
    trying: &Trying,
    number: Id,
) -> Result<FrozenScan, Memory>
    requires told { CanBeTold (stands trying.now.matcher) }
    requires few { number < 4_294_967_295 }
    ensures { IfOk result (λ scan. scan_of scan ≡ scan_with number
        (told (template_view template.now) (stands trying.now.matcher)).weight
        (told (template_view template.now) (stands trying.now.matcher)).frames) }
{
    let told = trying.matcher.freeze(alloc, template)?;
    if told.frames.is_empty() {
        return Ok(scan_before(alloc, number));
    }
    Ok(FrozenScan {
        iter: FrozenIter {
            place: Id::new(number.place() + 1),
            accepted: None,
        },
        weight: told.weight,
        frames: told.frames,
    })
}

/// The scan that goes on from a number, where the place there may be tried. `Memory`: an allocation was
/// refused.
fn scan_from(
    alloc: Global,
    template: &Template,
    tried: &Option<Trying>,
    number: Id,
) -> Result<FrozenScan, Memory>
    requires told { IfSome tried.now (λ trying. CanBeTold (stands trying.matcher)) }
    requires few { IfSome tried.now (λ _. number < 4_294_967_295) }
    ensures { IfOk result (λ scan. scan_of scan ≡ scan_ahead (template_view template.now) tried.now
        number) }
{
    match tried {
        Some(trying) => scan_tried(alloc, template, trying, number),
        None => Ok(scan_before(alloc, number)),
    }
}

/// A scan that has come nowhere yet.
fn scan_again(alloc: Global) -> FrozenBody
    ensures { body_of result ≡ scanning start }
{
    FrozenBody::Scan(scan_before(alloc, Id::new(0)))
}

/// Of the page no tree is built yet. `Memory`: an allocation was refused.
fn page_again(alloc: Global) -> Result<FrozenBody, Memory>
    ensures { IfOk result (λ body. body_of body ≡ building 0 no_trees start) }
{
    let trees = frozen_list(alloc, &[])?;
    Ok(FrozenBody::Build {
        weight: 0,
        trees,
        scan: scan_before(alloc, Id::new(0)),
    })
}

/// The number of the next row of a page, or of its end.
fn row_number(gathering: &Gathering, window: &Window) -> Id
    ensures number { result ≡ min gathering.now.next (length (page_objects window.now)) }
    ensures few { gathering.now.next < length (page_objects window.now) → result < 4_294_967_295 }
{
    let page = page_of(window.rows(), window.limit());
    Id::new(gathering.next.min(page.len()) as u32)
}

/// The trees that are gathered of the first rows, and the frames of the row that is tried. `Memory`: an
/// allocation was refused.
fn gathered_body(
    alloc: Global,
    gathering: &Gathering,
    window: &Window,
) -> Result<FrozenBody, Memory>
    requires little { gathering.now.gathered.weight ≤ 262_144 }
    requires told { IfSome gathering.now.tried (λ trying. CanBeTold (stands trying.matcher)) }
    requires next { IfSome gathering.now.tried (λ _. gathering.now.next
        < length (page_objects window.now)) }
    ensures { IfOk result (λ body. body_of body ≡ building gathering.now.gathered.weight
        (trees_of (map tree_view gathering.now.gathered.trees.items))
        (scan_ahead (template_of (asked_view gathering.now.plan)) gathering.now.tried
        (min gathering.now.next (length (page_objects window.now))))) }
{
    let trees = frozen_list(alloc, gathering.gathered.trees.as_slice())?;
    let number = row_number(gathering, window);
    let scan = scan_from(alloc, gathering.plan.template(), &gathering.tried, number)?;
    Ok(FrozenBody::Build {
        weight: gathering.gathered.weight as u32,
        trees,
        scan,
    })
}

/// The frozen reading with these rows and this body.
fn frozen(view: &View<'_>, subject: &Subject, rows: Vec<RowAt>, body: FrozenBody) -> FrozenReading
    requires { BodyStands view.now subject.now (map row_of rows.items) (body_of body) }
    ensures { IsFrozen view.now subject.now (reading_of result) }
{
    FrozenReading {
        dateline: view.dateline(),
        after: row_after(&subject.after),
        rows,
        body,
    }
}

/// The frozen reading with the rows of a window. `Memory`: an allocation was refused.
fn frozen_with(
    alloc: Global,
    view: &View<'_>,
    subject: &Subject,
    window: &Window,
    body: FrozenBody,
) -> Result<FrozenReading, Memory>
    requires { BodyStands view.now subject.now (marks_of window.now) (body_of body) }
    ensures { IfOk result (λ reading. IsFrozen view.now subject.now (reading_of reading)) }
{
    let rows = window_rows(alloc, window)?;
    Ok(frozen(view, subject, rows, body))
}

/// The number from which on a visit goes on: that of the place that is tried, or else the one behind
/// the last that was given. None: it lies past an end.
fn next_number(visiting: &Visiting, end: Id) -> Option<Id>
    ensures number { IfSome result (λ number. (number ≡ number_ahead visiting.now.tried
        visiting.now.last) × (number ≤ end)) }
    ensures before { IfSome result (λ number. IfSome visiting.now.last (λ last. last < end)) }
{
    let last = match visiting.last {
        Some(last) => last,
        None => return Some(Id::new(0)),
    };
    if last >= end.place() as usize {
        return None;
    }
    if visiting.tried.is_some() {
        Some(Id::new(last as u32))
    } else {
        Some(Id::new(last as u32 + 1))
    }
}

/// A reading that visits places, as it is put away: with the rows so far, at the next number, and with
/// the frames of the place that is tried. `Memory`: an allocation was refused.
fn freeze_visit(
    alloc: Global,
    view: &View<'_>,
    subject: &Subject,
    window: &Window,
    visiting: &Visiting,
) -> Result<FrozenReading, Memory>
    requires { Visits view.now subject.now visiting.now window.now }
    ensures { IfOk result (λ reading. IsFrozen view.now subject.now (reading_of reading)) }
{
    match next_number(visiting, view.end()) {
        Some(number) => {
            let scan = scan_from(alloc, visiting.plan.template(), &visiting.tried, number)?;
            frozen_with(alloc, view, subject, window, FrozenBody::Scan(scan))
        }
        None => Ok(frozen(view, subject, Vec::new(alloc), scan_again(alloc))),
    }
}

/// A reading as it is put away. A place and a row that are tried are told with the frames of their
/// matcher, where one of them can be told; of the page the trees are kept that were gathered, and
/// where it is printed they are gathered anew. `Memory`: an allocation was refused.
pub(crate) fn freeze_stage(
    alloc: Global,
    view: &View<'_>,
    subject: &Subject,
    window: &Window,
    stage: &Stage,
) -> Result<FrozenReading, Memory>
    requires { StageOwes view.now subject.now stage.now window.now }
    ensures { IfOk result (λ reading. IsFrozen view.now subject.now (reading_of reading)) }
{
    match stage {
        Stage::Visiting(visiting) => freeze_visit(alloc, view, subject, window, visiting),
        Stage::Gathering(gathering) => {
            let body = gathered_body(alloc, gathering, window)?;
            frozen_with(alloc, view, subject, window, body)
        }
        Stage::Printing(_) => {
            let body = page_again(alloc)?;
            frozen_with(alloc, view, subject, window, body)
        }
        Stage::Spent => unreachable!(),
    }
}
