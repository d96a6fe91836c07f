//! The numbers of the values between two.
ghost use Rattle.std.specs.Prelude.{◌≡◌, ◌+◌, ◌≤◌, [], ◌∷◌, Some, None, length, drop, nat_lt};
ghost use Rattle.std.specs.Prelude.{if◌then◌else◌, IfOk, IfSome, IfNone};
ghost use Rattle.std.specs.List.{filter};
ghost use Rattle.std.specs.Map.{keys_of};
ghost use Rattle.std.specs.Option.{option_copied};
ghost use Rattle.gd_valueidx.specs.Ranked.{numbers_between};
ghost use Rattle.gd_valueidx.specs.Runs.{AreOrdered, IsPlace, flat, rank, is_from, is_to};

use crate::numbers::Numbers;
use crate::order::{Order, Place, stands_before};
use gd_base::datum::Datum;
use gd_base::memory::Memory;
use gd_base::steps::Steps;
use gd_postings::postings::Postings;
use indexmap::IndexMap;
use std::alloc::Global;

/// The place before the first number whose value is not below the least, or before all.
fn place_from(order: &Order, lists: &IndexMap<Datum, Postings>, lo: Option<&Datum>) -> Place
    requires { AreOrdered order.now.runs.items (keys_of lists.now.entries) }
    ensures rest { drop (rank order.now.runs.items result.run result.index)
        (flat order.now.runs.items)
        ≡ filter (is_from (keys_of lists.now.entries) (option_copied lo.entry))
        (flat order.now.runs.items) }
    ensures place { IsPlace order.now.runs.items result.run result.index }
{
    match lo {
        Some(least) => order.place(lists, least, false),
        None => order.start(),
    }
}

/// Whether the value with a number is not above the greatest.
fn stands_to(lists: &IndexMap<Datum, Postings>, number: u32, hi: Option<&Datum>) -> bool
    ensures { result ≡ is_to (keys_of lists.now.entries) (option_copied hi.entry) number }
{
    match hi {
        Some(greatest) => stands_before(lists, number, greatest, true),
        None => true,
    }
}

/// The number at a place, if its value is not above the greatest, and the place behind it.
fn next_to(
    order: &Order,
    lists: &IndexMap<Datum, Postings>,
    place: Place,
    hi: Option<&Datum>,
) -> Option<(u32, Place)>
    requires ordered { AreOrdered order.now.runs.items (keys_of lists.now.entries) }
    requires place { IsPlace order.now.runs.items place.run place.index }
    ensures number { IfSome result (λ next. filter
        (is_to (keys_of lists.now.entries) (option_copied hi.entry))
        (drop (rank order.now.runs.items place.run place.index) (flat order.now.runs.items))
        ≡ next.0 ∷ filter (is_to (keys_of lists.now.entries) (option_copied hi.entry))
        (drop (rank order.now.runs.items next.1.run next.1.index) (flat order.now.runs.items))) }
    ensures place { IfSome result (λ next. IsPlace order.now.runs.items next.1.run next.1.index) }
    ensures none { IfNone result (filter
        (is_to (keys_of lists.now.entries) (option_copied hi.entry))
        (drop (rank order.now.runs.items place.run place.index) (flat order.now.runs.items)) ≡ []) }
{
    match order.next(place) {
        Some((number, behind)) => {
            if stands_to(lists, number, hi) {
                Some((number, behind))
            } else {
                None
            }
        }
        None => None,
    }
}

/// The numbers from a place on up to the greatest value, or None where there are more than `most`.
fn gather<L>(
    order: &Order,
    lists: &IndexMap<Datum, Postings>,
    start: Place,
    hi: Option<&Datum>,
    most: u32,
    alloc: Global,
    steps: &mut Steps<L>,
) -> Result<Option<Numbers>, Memory>
    requires ordered { AreOrdered order.now.runs.items (keys_of lists.now.entries) }
    requires place { IsPlace order.now.runs.items start.run start.index }
    ensures numbers { IfOk result (λ found. found
        ≡ (if nat_lt most
        (length (filter (is_to (keys_of lists.now.entries) (option_copied hi.entry))
        (drop (rank order.now.runs.items start.run start.index) (flat order.now.runs.items))))
        then None
        else Some (filter (is_to (keys_of lists.now.entries) (option_copied hi.entry))
        (drop (rank order.now.runs.items start.run start.index) (flat order.now.runs.items))))) }
    ensures work { steps.new ≤ steps.old + most + 1 }
    ensures later { steps.old ≤ steps.new }
{
    let mut found = Numbers::new(alloc);
    let mut place = start;
    for _count in 0..most {
        steps.tick();
        match next_to(order, lists, place, hi) {
            Some((number, behind)) => {
                found.push(number)?;
                place = behind;
            }
            None => return Ok(Some(found)),
        }
    }
    steps.tick();
    match next_to(order, lists, place, hi) {
        Some(_) => Ok(None),
        None => Ok(Some(found)),
    }
}

/// The numbers of the values between two, in the order of the values, or None where there are more
/// than `most`.
pub(crate) fn between<L>(
    order: &Order,
    lists: &IndexMap<Datum, Postings>,
    lo: Option<&Datum>,
    hi: Option<&Datum>,
    most: u32,
    alloc: Global,
    steps: &mut Steps<L>,
) -> Result<Option<Numbers>, Memory>
    requires { AreOrdered order.now.runs.items (keys_of lists.now.entries) }
    ensures numbers { IfOk result (λ found. found
        ≡ (if nat_lt most (length (numbers_between (option_copied lo.entry) (option_copied hi.entry)
        (keys_of lists.now.entries))) then None
        else Some (numbers_between (option_copied lo.entry) (option_copied hi.entry)
        (keys_of lists.now.entries)))) }
    ensures work { steps.new ≤ steps.old + most + 1 }
    ensures later { steps.old ≤ steps.new }
{
    let start = place_from(order, lists, lo);
    gather(order, lists, start, hi, most, alloc, steps)
}
