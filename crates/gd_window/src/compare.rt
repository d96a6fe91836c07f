//! Where rows stand in an order.
ghost use Rattle.std.specs.Prelude.{◌≡◌, drop};
ghost use Rattle.std.specs.Option.{option_copied};
ghost use Rattle.gd_defs.specs.Rows.{key_cmp};
ghost use Rattle.gd_window.specs.Rows.{first_value, keys_cmp, row_cmp};

use crate::keys::Key;
use crate::order::Order;
use crate::row::Row;
use gd_base::datum::Datum;
use std::cmp::Ordering;

/// Where a key's value stands beside another one. A missing value comes last in both directions.
fn key_order(descending: bool, a: Option<&Datum>, b: Option<&Datum>) -> Ordering
    ensures { result ≡ key_cmp descending (option_copied a.entry) (option_copied b.entry) }
{
    match (a, b) {
        (None, None) => Ordering::Equal,
        (None, Some(_)) => Ordering::Greater,
        (Some(_), None) => Ordering::Less,
        (Some(a), Some(b)) => {
            if descending {
                a.order(b).reverse()
            } else {
                a.order(b)
            }
        }
    }
}

/// The value of the key at a place. A key beyond the last one has none.
fn value_at(keys: &[Key], place: usize) -> Option<&Datum>
    ensures { option_copied result ≡ first_value (drop place keys.now) }
{
    if place < keys.len() {
        keys[place].value.as_ref()
    } else {
        None
    }
}

/// Where keys stand beside others, by the first that do not tie.
fn keys_order(order: &[bool], a: &[Key], b: &[Key]) -> Ordering
    ensures { result ≡ keys_cmp order.now a.now b.now }
{
    for (place, descending) in order.iter().enumerate() {
        match key_order(*descending, value_at(a, place), value_at(b, place)) {
            Ordering::Equal => {}
            ordering => return ordering,
        }
    }
    Ordering::Equal
}

/// Where a row stands beside another one: by their keys, and then by their objects.
pub(crate) fn row_order(order: &Order, a: &Row, b: &Row) -> Ordering
    ensures { result ≡ row_cmp order.now a.now b.now }
{
    keys_order(order.as_slice(), a.keys.as_slice(), b.keys.as_slice()).then(
        a.id.place().cmp(&b.id.place()),
    )
}
