//! Which rows and walks of a text fit a query.
ghost use Rattle.std.specs.Prelude.{◌≡◌, ◌+◌, ◌&&◌, length, nat_le, is_some};
ghost use Rattle.std.specs.List.{list_all};
ghost use Rattle.gd_prim.specs.Live.{text_of, value_at};
ghost use Rattle.gd_frozen.specs.Meaning.{row_of, walk_of};
ghost use Rattle.gd_frozen.specs.declared.frozen.RowAt.{RowAt as Row};
ghost use Rattle.gd_frozen.specs.declared.frozen.Walk.{Walk as WalkAt};
ghost use Rattle.gd_plan.specs.Asked.{asked_view};
ghost use Rattle.gd_runs.specs.Fitting as fitting;

use gd_base::datum::Datum;
use gd_base::id::Id;
use gd_frozen::frozen::{RowAt, Walk};
use gd_plan::asked::Asked;
use gd_prim::Primitive;

/// Whether a place lies below the end.
fn is_inside(prims: &[Primitive], place: Id) -> bool
    ensures { result ≡ fitting.is_inside prims.now place }
{
    (place.place() as usize) < prims.len()
}

/// Whether the place of a key lies below the end, if there is one.
fn key_inside(prims: &[Primitive], key: &Option<Id>) -> bool
    ensures { result ≡ fitting.key_inside prims.now key.now }
{
    match key {
        None => true,
        Some(place) => is_inside(prims, *place),
    }
}

/// Whether the places of keys do.
fn keys_inside(prims: &[Primitive], keys: &[Option<Id>]) -> bool
    ensures { result ≡ list_all (fitting.key_inside prims.now) keys.now }
{
    keys.iter().all(|key| key_inside(prims, key))
}

/// Whether a row fits: its places lie below the end, and it has a key for each sort key.
fn row_fits(prims: &[Primitive], asked: &Asked, row: &RowAt) -> bool
    ensures { result ≡ fitting.row_fits prims.now (asked_view asked.now) (row_of row.now) }
{
    let keys = row.keys.as_slice();
    is_inside(prims, row.object) && keys.len() == asked.sort.len() && keys_inside(prims, keys)
}

/// Whether each of rows does.
fn all_fit(prims: &[Primitive], asked: &Asked, rows: &[RowAt]) -> bool
    ensures { result ≡ list_all (λ (r : Row). fitting.row_fits prims.now (asked_view asked.now)
        (row_of r)) rows.now }
{
    rows.iter().all(|row| row_fits(prims, asked, row))
}

/// Whether the rows of a text fit a query, of which there may be one more than its page has.
pub(crate) fn rows_fit(prims: &[Primitive], asked: &Asked, rows: &[RowAt]) -> bool
    ensures { result ≡ (list_all (λ (r : Row). fitting.row_fits prims.now (asked_view asked.now)
        (row_of r)) rows.now && nat_le (length rows.now) ((asked_view asked.now).limit + 1)) }
{
    all_fit(prims, asked, rows) && rows.len() <= asked.limit as usize + 1
}

/// Whether a value is a text.
fn is_text(value: &Datum) -> bool
    ensures { result ≡ is_some (text_of value.now) }
{
    match value {
        Datum::Text(_) => true,
        _ => false,
    }
}

/// Whether a text stands at a place.
fn has_text(prims: &[Primitive], place: Id) -> bool
    ensures { result ≡ is_some (text_of (value_at prims.now place)) }
{
    match prims.get(place.place() as usize) {
        Some(prim) => is_text(&prim.value),
        None => false,
    }
}

/// Whether a text stands at a place below the end.
fn link_fits(prims: &[Primitive], place: Id) -> bool
    ensures { result ≡ (fitting.is_inside prims.now place
        && is_some (text_of (value_at prims.now place))) }
{
    is_inside(prims, place) && has_text(prims, place)
}

/// Whether texts stand at the places of links.
fn links_fit(prims: &[Primitive], links: &[Id]) -> bool
    ensures { result ≡ list_all (λ k. fitting.is_inside prims.now k
        && is_some (text_of (value_at prims.now k))) links.now }
{
    links.iter().all(|link| link_fits(prims, *link))
}

/// Whether a walk fits: texts stand at its links.
fn walk_fits(prims: &[Primitive], walk: &Walk) -> bool
    ensures { result ≡ fitting.walk_fits prims.now (walk_of walk.now) }
{
    match walk {
        Walk::Guid | Walk::Root => true,
        Walk::Links(links) => links_fit(prims, links.as_slice()),
    }
}

/// Whether each of walks does.
pub(crate) fn walks_fit(prims: &[Primitive], walks: &[Walk]) -> bool
    ensures { result ≡ list_all (λ (w : WalkAt). fitting.walk_fits prims.now (walk_of w))
        walks.now }
{
    walks.iter().all(|walk| walk_fits(prims, walk))
}
