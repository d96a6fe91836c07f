//! The rows that a reading keeps.
ghost use Rattle.std.specs.Prelude.{◌≡◌, ◌≤◌, [], length, map, option_map, take, IfOk, OnOk};
ghost use Rattle.gd_prim.specs.History.{prims_of};
ghost use Rattle.gd_defs.specs.Reply.{mark_row as row_of_mark};
ghost use Rattle.gd_frozen.specs.Meaning.{row_of};
ghost use Rattle.gd_plan.specs.Asked.{asked_view};
ghost use Rattle.gd_window.specs.Kept.{HasSeen};
ghost use Rattle.gd_window.specs.Laws.{with_values};
ghost use Rattle.gd_window.specs.declared.row.Row.{Row as WindowRow};
ghost use Rattle.gd_suspended_laws.specs.Standing.{window_of};
ghost use Rattle.gd_thaw_laws.specs.Gone.{read_rows};
ghost use Rattle.gd_thawed.specs.Subject.{after_of, marks_in};

use crate::keys::{mark_row, order_of};
use gd_base::id::Id;
use gd_base::memory::Memory;
use gd_frozen::frozen::RowAt;
use gd_plan::asked::Asked;
use gd_store::view::View;
use gd_window::row::Row;
use gd_window::window::Window;
use std::alloc::Global;

/// The row of a mark.
fn row_at(alloc: Global, view: &View<'_>, asked: &Asked, mark: &RowAt) -> Result<Row, Memory>
    requires { length (asked_view asked.now).sort ≤ 4 }
    ensures { IfOk result (λ row. row
        ≡ with_values (prims_of view.now) (asked_view asked.now).sort
        (row_of_mark (prims_of view.now) (asked_view asked.now).sort (row_of mark.now))) }
{
    mark_row(
        alloc,
        view.primitives(),
        asked.sort.as_slice(),
        mark.object,
        mark.keys.as_slice(),
    )
}

/// Offers the rows of marks to a window to which nothing was offered yet.
pub(crate) fn offer_marks(
    alloc: Global,
    asked: &Asked,
    window: &mut Window,
    view: &View<'_>,
    marks: &[RowAt],
) -> Result<(), Memory>
    requires few { length (asked_view asked.now).sort ≤ 4 }
    requires none { HasSeen window.old [] }
    ensures seen { OnOk result (HasSeen window.new
        (read_rows (prims_of view.now) (asked_view asked.now) (marks_in marks.now))) }
    ensures stays { window.new ≡ record window.old { rows = window.new.rows } }
{
    for mark in marks {
        window.offer(row_at(alloc, view, asked, mark)?)?;
    }
    Ok(())
}

/// The row behind which a page begins, if there is one.
fn row_behind(
    alloc: Global,
    view: &View<'_>,
    asked: &Asked,
    after: &Option<RowAt>,
) -> Result<Option<Row>, Memory>
    requires { length (asked_view asked.now).sort ≤ 4 }
    ensures { IfOk result (λ row. row ≡ option_map
        (λ m. with_values (prims_of view.now) (asked_view asked.now).sort
        (row_of_mark (prims_of view.now) (asked_view asked.now).sort m))
        (after_of after.now)) }
{
    match after {
        Some(mark) => Ok(Some(row_at(alloc, view, asked, mark)?)),
        None => Ok(None),
    }
}

/// The window of a query's page behind a row, to which no row was offered yet.
pub(crate) fn window_behind(
    alloc: Global,
    view: &View<'_>,
    asked: &Asked,
    after: &Option<RowAt>,
) -> Result<Window, Memory>
    requires { length (asked_view asked.now).sort ≤ 4 }
    ensures made { IfOk result (λ window. window ≡ window_of (prims_of view.now)
        (asked_view asked.now) (after_of after.now) []) }
    ensures seen { IfOk result (λ window. HasSeen window []) }
{
    let row = row_behind(alloc, view, asked, after)?;
    Window::new(alloc, order_of(asked.sort.as_slice()), asked.limit, row)
}

/// The rows of the page, of those that a window keeps.
pub(crate) fn page_of(rows: &[Row], limit: u32) -> &[Row]
    ensures { result.now ≡ take limit rows.now }
{
    if rows.len() > limit as usize {
        &rows[..limit as usize]
    } else {
        rows
    }
}

/// The objects of rows.
pub(crate) fn objects_of(alloc: Global, rows: &[Row]) -> Result<Vec<Id>, Memory>
    ensures { IfOk result (λ ids. ids.items ≡ map (λ (r : WindowRow). r.id) rows.now) }
{
    let mut ids = Vec::with_capacity(alloc, rows.len())?;
    for row in rows {
        ids.push(row.id)?;
    }
    Ok(ids)
}
