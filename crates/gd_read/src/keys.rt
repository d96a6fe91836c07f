//! Rows with their sort keys.
ghost use Rattle.std.specs.Prelude.{◌≡◌, ◌+◌, ◌≤◌, IfOk, IfSome, drop, length, map, max, pos};
ghost use Rattle.gd_prim.specs.History.{prims_of, AreTimed};
ghost use Rattle.gd_prim.specs.Live as live;
ghost use Rattle.gd_defs.specs.Rows as defs;
ghost use Rattle.gd_defs.specs.Reply as reply;
ghost use Rattle.gd_plan.specs.Seen.{sort_key_view};
ghost use Rattle.gd_window.specs.Laws.{with_values, directions, keys_at};
ghost use Rattle.gd_read.specs.KeysAt.{key_at, own_key, below};

use crate::answers::first_answer;
use gd_base::datum::{Datum, Precision};
use gd_base::id::Id;
use gd_base::memory::Memory;
use gd_base::steps::Steps;
use gd_iter_core::budget::Budget;
use gd_plan::asked::SortKey;
use gd_prim::Primitive;
use gd_store::view::View;
use gd_window::keys::{Key, Keys4};
use gd_window::order::Order;
use gd_window::row::Row;
use std::alloc::Global;

/// The place at which a sort key of an object stands, if it has one. None: the allowance was spent
/// before that was known.
fn key_place<L>(
    view: &View<'_>,
    key: &SortKey,
    object: Id,
    whole: Budget,
    steps: &mut Steps<L>,
) -> Option<Option<Id>>
    requires begun { whole.before ≤ steps.old }
    ensures place { IfSome result (λ o. o
        ≡ defs.key_place (prims_of view.now) object (sort_key_view key.now)) }
    ensures within { steps.new ≤ max steps.old (whole.before + whole.size + 22) }
    ensures later { steps.old ≤ steps.new }
{
    match key {
        SortKey::Guid { .. } | SortKey::Timestamp { .. } => Some(Some(object)),
        SortKey::Value { property, .. } => first_answer(view, property, object, whole, steps),
    }
}

/// The moment of a primitive.
fn moment_of(prim: &Primitive) -> Datum
    requires { prim.now.moment ≤ 253_402_300_799_999 }
    ensures { result ≡ Datum.Moment (pos prim.now.moment) Precision.Time }
{
    Datum::Moment {
        ms: prim.moment as i64,
        precision: Precision::Time,
    }
}

/// The moment of the primitive at a place, and `Empty` past the end.
fn timestamp(prims: &[Primitive], place: Id) -> Datum
    requires { AreTimed prims.now }
    ensures { result ≡ defs.timestamp prims.now place }
{
    match prims.get(place.place() as usize) {
        Some(prim) => moment_of(prim),
        None => Datum::Empty,
    }
}

/// The value at a place, and `Empty` past the end.
fn value_at(prims: &[Primitive], place: Id) -> Result<Datum, Memory>
    ensures { IfOk result (λ datum. datum ≡ live.value_at prims.now place) }
{
    match prims.get(place.place() as usize) {
        Some(prim) => prim.value.copy(),
        None => Ok(Datum::Empty),
    }
}

/// The sort key that stands at a place.
fn key_value(prims: &[Primitive], key: &SortKey, place: Id) -> Result<Datum, Memory>
    requires { AreTimed prims.now }
    ensures { IfOk result (λ datum. datum ≡ defs.key_value prims.now (sort_key_view key.now)
        place) }
{
    match key {
        SortKey::Guid { .. } => Ok(Datum::Object(place)),
        SortKey::Timestamp { .. } => Ok(timestamp(prims, place)),
        SortKey::Value { .. } => value_at(prims, place),
    }
}

/// A sort key at its place, with the value there.
fn key_at(prims: &[Primitive], key: &SortKey, place: Option<Id>) -> Result<Key, Memory>
    requires { AreTimed prims.now }
    ensures { IfOk result (λ k. k ≡ key_at prims.now (sort_key_view key.now) place) }
{
    match place {
        Some(at) => Ok(Key {
            value: Some(key_value(prims, key, at)?),
            place,
        }),
        None => Ok(Key {
            value: None,
            place: None,
        }),
    }
}

/// The sort keys of an object. None: the allowance was spent before they were known.
fn keys_of<L>(
    alloc: Global,
    view: &View<'_>,
    sort: &[SortKey],
    object: Id,
    whole: Budget,
    steps: &mut Steps<L>,
) -> Result<Option<Vec<Key>>, Memory>
    requires begun { whole.before ≤ steps.old }
    requires timed { AreTimed (prims_of view.now) }
    ensures keys { IfOk result (λ known. IfSome known (λ keys. keys.items
        ≡ map (own_key (prims_of view.now) object) (map sort_key_view sort.now))) }
    ensures count { IfOk result (λ known. IfSome known (λ keys. length keys.items
        ≡ length sort.now)) }
    ensures within { steps.new ≤ max steps.old (whole.before + whole.size + 22) }
    ensures later { steps.old ≤ steps.new }
{
    let mut keys = Vec::with_capacity(alloc, sort.len())?;
    for key in sort {
        let place = match key_place(view, key, object, whole, steps) {
            Some(place) => place,
            None => return Ok(None),
        };
        keys.push(key_at(view.primitives(), key, place)?)?;
    }
    Ok(Some(keys))
}

/// The row of an object, with the places and the values of its sort keys, each look counted. None:
/// the allowance was spent before they were known; it takes at most 22 steps more. `Memory`: an
/// allocation was refused.
#[tactic(auto, using(crate::proofs::KeyLinks::own_keys))]
pub fn row_of<L>(
    alloc: Global,
    view: &View<'_>,
    sort: &[SortKey],
    object: Id,
    whole: Budget,
    steps: &mut Steps<L>,
) -> Result<Option<Row>, Memory>
    requires begun { whole.before ≤ steps.old }
    requires timed { AreTimed (prims_of view.now) }
    requires few { length sort.now ≤ 4 }
    ensures row { IfOk result (λ known. IfSome known (λ row. row
        ≡ with_values (prims_of view.now) (map sort_key_view sort.now)
        (defs.row_of (prims_of view.now) (map sort_key_view sort.now) 0 object))) }
    ensures within { steps.new ≤ max steps.old (whole.before + whole.size + 22) }
    ensures later { steps.old ≤ steps.new }
{
    match keys_of(alloc, view, sort, object, whole, steps)? {
        Some(keys) => Ok(Some(Row {
            keys: Keys4::from_vec(keys),
            id: object,
        })),
        None => Ok(None),
    }
}

/// The place of a mark's key, where it lies below the end.
fn fitted(end: u32, place: Option<Id>) -> Option<Id>
    ensures { result ≡ below end place }
{
    match place {
        Some(at) if at.place() < end => place,
        _ => None,
    }
}

/// The place of the key behind so many, if a mark has one.
fn place_behind(places: &[Option<Id>], count: usize) -> Option<Id>
    ensures { result ≡ defs.first_key (drop count places.now) }
{
    if count < places.len() {
        places[count]
    } else {
        None
    }
}

/// The sort keys of a mark.
fn mark_keys(
    alloc: Global,
    prims: &[Primitive],
    sort: &[SortKey],
    places: &[Option<Id>],
) -> Result<Vec<Key>, Memory>
    requires timed { AreTimed prims.now }
    requires end { length prims.now ≤ 2_097_151 }
    ensures keys { IfOk result (λ keys. keys.items ≡ keys_at prims.now (map sort_key_view sort.now)
        (reply.fitted (length prims.now) (map sort_key_view sort.now) places.now)) }
    ensures count { IfOk result (λ keys. length keys.items ≡ length sort.now) }
{
    let end = prims.len() as u32;
    let mut keys = Vec::with_capacity(alloc, sort.len())?;
    for (count, key) in sort.iter().enumerate() {
        let place = fitted(end, place_behind(places, count));
        keys.push(key_at(prims, key, place)?)?;
    }
    Ok(keys)
}

/// The row of a mark, which is an object and the places of its sort keys: a place that lies past
/// the end counts as missing, and so do those that lack; those that are too many are left out.
/// `Memory`: an allocation was refused.
pub fn mark_row(
    alloc: Global,
    prims: &[Primitive],
    sort: &[SortKey],
    object: Id,
    places: &[Option<Id>],
) -> Result<Row, Memory>
    requires timed { AreTimed prims.now }
    requires end { length prims.now ≤ 2_097_151 }
    requires few { length sort.now ≤ 4 }
    ensures { IfOk result (λ row. row ≡ with_values prims.now (map sort_key_view sort.now)
        (reply.mark_row prims.now (map sort_key_view sort.now)
        (record { object = object; keys = places.now }))) }
{
    let keys = mark_keys(alloc, prims, sort, places)?;
    Ok(Row {
        keys: Keys4::from_vec(keys),
        id: object,
    })
}

/// Whether a sort key is descending.
fn is_descending(key: &SortKey) -> bool
    ensures { result ≡ (sort_key_view key.now).descending }
{
    match key {
        SortKey::Guid { descending }
        | SortKey::Timestamp { descending }
        | SortKey::Value { descending, .. } => *descending,
    }
}

/// The directions of sort keys.
pub fn order_of(sort: &[SortKey]) -> Order
    requires { length sort.now ≤ 4 }
    ensures { result ≡ directions (map sort_key_view sort.now) }
{
    let mut order = Order::new();
    for key in sort {
        order.push(is_descending(key));
    }
    order
}
