//! Rows with their sort keys.
ghost use Rattle.std.specs.Prelude.{◌≡◌, ◌≤◌, IfOk, drop, length, map, pos};
ghost use Rattle.gd_prim.specs.History.{AreTimed};
ghost use Rattle.gd_prim.specs.Live as live;
ghost use Rattle.gd_defs.specs.Rows as defs;
ghost use Rattle.gd_defs.specs.Reply as reply;
ghost use Rattle.gd_plan.specs.Seen.{sort_key_view};
ghost use Rattle.gd_window.specs.Laws.{with_values, directions, keys_at};
ghost use Rattle.gd_thawed.specs.KeysAt.{key_at, below};

use gd_base::datum::{Datum, Precision};
use gd_base::id::Id;
use gd_base::memory::Memory;
use gd_plan::asked::SortKey;
use gd_prim::Primitive;
use gd_window::keys::{Key, Keys4};
use gd_window::order::Order;
use gd_window::row::Row;
use std::alloc::Global;

/// The moment of a primitive.
fn moment_of(prim: &Primitive) -> Datum
    requires { prim.now.moment ≤ 253_402_300_799_999 }
    ensures { result ≡ Datum.Moment (pos prim.now.moment) Precision.Time }
{
    Datum::Moment {
        ms: prim.moment as i64,
        precision: Precision::Time,
    }
}

/// The moment of the primitive at a place, and `Empty` past the end.
fn timestamp(prims: &[Primitive], place: Id) -> Datum
    requires { AreTimed prims.now }
    ensures { result ≡ defs.timestamp prims.now place }
{
    match prims.get(place.place() as usize) {
        Some(prim) => moment_of(prim),
        None => Datum::Empty,
    }
}

/// The value at a place, and `Empty` past the end.
fn value_at(prims: &[Primitive], place: Id) -> Result<Datum, Memory>
    ensures { IfOk result (λ datum. datum ≡ live.value_at prims.now place) }
{
    match prims.get(place.place() as usize) {
        Some(prim) => prim.value.copy(),
        None => Ok(Datum::Empty),
    }
}

/// The sort key that stands at a place.
fn key_value(prims: &[Primitive], key: &SortKey, place: Id) -> Result<Datum, Memory>
    requires { AreTimed prims.now }
    ensures { IfOk result (λ datum. datum ≡ defs.key_value prims.now (sort_key_view key.now)
        place) }
{
    match key {
        SortKey::Guid { .. } => Ok(Datum::Object(place)),
        SortKey::Timestamp { .. } => Ok(timestamp(prims, place)),
        SortKey::Value { .. } => value_at(prims, place),
    }
}

/// A sort key at its place, with the value there.
pub(crate) fn key_at(prims: &[Primitive], key: &SortKey, place: Option<Id>) -> Result<Key, Memory>
    requires { AreTimed prims.now }
    ensures { IfOk result (λ k. k ≡ key_at prims.now (sort_key_view key.now) place) }
{
    match place {
        Some(at) => Ok(Key {
            value: Some(key_value(prims, key, at)?),
            place,
        }),
        None => Ok(Key {
            value: None,
            place: None,
        }),
    }
}

/// The place of a mark's key, where it lies below the end.
fn fitted(end: u32, place: Option<Id>) -> Option<Id>
    ensures { result ≡ below end place }
{
    match place {
        Some(at) if at.place() < end => place,
        _ => None,
    }
}

/// The place of the key behind so many, if a mark has one.
fn place_behind(places: &[Option<Id>], count: usize) -> Option<Id>
    ensures { result ≡ defs.first_key (drop count places.now) }
{
    if count < places.len() {
        places[count]
    } else {
        None
    }
}

/// The sort keys of a mark.
fn mark_keys(
    alloc: Global,
    prims: &[Primitive],
    sort: &[SortKey],
    places: &[Option<Id>],
) -> Result<Vec<Key>, Memory>
    requires timed { AreTimed prims.now }
    requires end { length prims.now ≤ 2_097_151 }
    ensures keys { IfOk result (λ keys. keys.items ≡ keys_at prims.now (map sort_key_view sort.now)
        (reply.fitted (length prims.now) (map sort_key_view sort.now) places.now)) }
    ensures count { IfOk result (λ keys. length keys.items ≡ length sort.now) }
{
    let end = prims.len() as u32;
    let mut keys = Vec::with_capacity(alloc, sort.len())?;
    for (count, key) in sort.iter().enumerate() {
        let place = fitted(end, place_behind(places, count));
        keys.push(key_at(prims, key, place)?)?;
    }
    Ok(keys)
}

/// The row of a mark, which is an object and the places of its sort keys: a place that lies past
/// the end counts as missing, and so do those that lack; those that are too many are left out.
/// `Memory`: an allocation was refused.
pub(crate) fn mark_row(
    alloc: Global,
    prims: &[Primitive],
    sort: &[SortKey],
    object: Id,
    places: &[Option<Id>],
) -> Result<Row, Memory>
    requires timed { AreTimed prims.now }
    requires end { length prims.now ≤ 2_097_151 }
    requires few { length sort.now ≤ 4 }
    ensures { IfOk result (λ row. row ≡ with_values prims.now (map sort_key_view sort.now)
        (reply.mark_row prims.now (map sort_key_view sort.now)
        (record { object = object; keys = places.now }))) }
{
    let keys = mark_keys(alloc, prims, sort, places)?;
    Ok(Row {
        keys: Keys4::from_vec(keys),
        id: object,
    })
}

/// Whether a sort key is descending.
fn is_descending(key: &SortKey) -> bool
    ensures { result ≡ (sort_key_view key.now).descending }
{
    match key {
        SortKey::Guid { descending }
        | SortKey::Timestamp { descending }
        | SortKey::Value { descending, .. } => *descending,
    }
}

/// The directions of sort keys.
pub(crate) fn order_of(sort: &[SortKey]) -> Order
    requires { length sort.now ≤ 4 }
    ensures { result ≡ directions (map sort_key_view sort.now) }
{
    let mut order = Order::new();
    for key in sort {
        order.push(is_descending(key));
    }
    order
}
