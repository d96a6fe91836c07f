//! Values with numbers, in the order of their first entry, beside their numbers in the order of the
//! values.
ghost use Rattle.std.specs.Prelude.{◌≡◌, ◌+◌, ◌-◌, ◌<◌, ◌^◌, ◌++◌, ◌∷◌, [], None, Some, false};
ghost use Rattle.std.specs.Prelude.{length, slice_get, OnOk, OnErr, IfOk, IfSome};
ghost use Rattle.std.specs.List.{list_any};
ghost use Rattle.std.specs.Map.{keys_of};
ghost use Rattle.gd_base.specs.Order.{datum_eq};
ghost use Rattle.gd_valueidx.specs.Runs.{AreOrdered};
ghost use Rattle.gd_valueidx.specs.Values.{Sets, with_value};

use crate::order::Order;
use gd_base::datum::Datum;
use gd_base::memory::Memory;
use gd_postings::postings::Postings;
use indexmap::IndexMap;

/// The number that the next value gets, or `Memory` where all numbers were given.
fn next_number(lists: &IndexMap<Datum, Postings>) -> Result<u32, Memory>
    ensures { IfOk result (λ number. number ≡ length lists.now.entries) }
{
    let number = lists.len();
    if number >= u32::MAX as usize {
        return Err(Memory);
    }
    Ok(number as u32)
}

/// Gives a value that has no number the next one, with a list of its own, or for want of memory
/// leaves all as it was.
pub(crate) fn give_number(
    lists: &mut IndexMap<Datum, Postings>,
    order: &mut Order,
    value: &Datum,
    list: Postings,
) -> Result<(), Memory>
    requires none { list_any (datum_eq value.now) (keys_of lists.old.entries) ≡ false }
    requires ordered { AreOrdered order.old.runs.items (keys_of lists.old.entries) }
    ensures sets { OnOk result (Sets lists.old.entries lists.new.entries value.now (Some list)) }
    ensures keys { OnOk result (keys_of lists.new.entries ≡ keys_of lists.old.entries ++ value.now
        ∷ []) }
    ensures err { OnErr result (lists.new.entries ≡ lists.old.entries) }
    ensures ordered { AreOrdered order.new.runs.items (keys_of lists.new.entries) }
{
    let number = next_number(lists)?;
    let place = order.place(lists, value, false);
    lists.insert(value.copy()?, list)?;
    if let Err(fault) = order.insert(place, number) {
        let _last = lists.pop();
        return Err(fault);
    }
    Ok(())
}

/// Takes the value with the greatest number away, and its list.
pub(crate) fn take_number(lists: &mut IndexMap<Datum, Postings>, order: &mut Order, value: &Datum)
    requires last { slice_get (keys_of lists.old.entries) (length (keys_of lists.old.entries) - 1)
        ≡ Some value.now }
    requires ordered { AreOrdered order.old.runs.items (keys_of lists.old.entries) }
    ensures sets { Sets lists.old.entries lists.new.entries value.now None }
    ensures keys { keys_of lists.old.entries ≡ keys_of lists.new.entries ++ value.now ∷ [] }
    ensures ordered { AreOrdered order.new.runs.items (keys_of lists.new.entries) }
{
    let place = order.place(lists, value, true);
    let _last = lists.pop();
    order.remove_before(place);
}
