//! What a posting list holds below a place.
ghost use Rattle.std.specs.Prelude.{◌≡◌, ◌+◌, ◌<◌, ◌≤◌, None, length, slice_get, IfSome};
ghost use Rattle.std.specs.List.{last_or};
ghost use Rattle.gd_base.specs.Counts.{Rose};
ghost use Rattle.gd_postings.specs.Postings.{ids_below, first_from};

use gd_base::id::Id;
use gd_base::steps::Steps;
use gd_postings::postings::Postings;

/// How many identities are less than `end`.
pub(crate) fn count_below<L>(list: &Postings, end: Id, steps: &mut Steps<L>) -> u32
    ensures count { result ≡ length (ids_below end list.now.ids) }
    ensures work { steps.new ≤ steps.old + 22 }
    ensures later { steps.old ≤ steps.new }
    ensures counted { Rose steps.old steps.new }
{
    if list.len() == 0 {
        steps.tick();
        return 0;
    }
    list.len_below(end, steps)
}

/// The identities that are less than `end`, in rising order.
pub(crate) fn front<'a, L>(list: &'a Postings, end: Id, steps: &mut Steps<L>) -> &'a [Id]
    ensures ids { result.now ≡ ids_below end list.now.ids }
    ensures work { steps.new ≤ steps.old + 22 }
    ensures later { steps.old ≤ steps.new }
    ensures counted { Rose steps.old steps.new }
{
    if list.len() == 0 {
        steps.tick();
        return &[];
    }
    list.below(end, steps)
}

/// How many of the identities that are less than `end` are less than `from`.
#[tactic(auto, using(crate::proofs::Rising::below_both))]
pub(crate) fn count_front<L>(list: &Postings, from: Id, end: Id, steps: &mut Steps<L>) -> u32
    ensures count { result ≡ length (ids_below from (ids_below end list.now.ids)) }
    ensures work { steps.new ≤ steps.old + 22 }
    ensures later { steps.old ≤ steps.new }
    ensures counted { Rose steps.old steps.new }
{
    let nearer = Id(from.place().min(end.place()));
    count_below(list, nearer, steps)
}

/// The first of the identities that are less than `end` that is not less than `from`, if there is
/// one. The place `at` of the list is looked at first, and is the one behind it afterwards.
#[tactic(auto, using(crate::proofs::Rising::first_both))]
pub(crate) fn first_front<L>(
    list: &Postings,
    from: Id,
    end: Id,
    at: &mut u32,
    steps: &mut Steps<L>,
) -> Option<Id>
    ensures first { result ≡ first_from from (ids_below end list.now.ids) }
    ensures below { IfSome result (λ id. id < end) }
    ensures work { steps.new ≤ steps.old + 24 }
    ensures later { steps.old ≤ steps.new }
    ensures counted { Rose steps.old steps.new }
{
    if list.len() == 0 {
        steps.tick();
        return None;
    }
    let first = list.next_from(from, at, steps)?;
    if first < end { Some(first) } else { None }
}

/// The last identity that is less than `end`, if there is one.
pub(crate) fn last_below<L>(list: &Postings, end: Id, steps: &mut Steps<L>) -> Option<Id>
    ensures last { result ≡ last_or None (ids_below end list.now.ids) }
    ensures work { steps.new ≤ steps.old + 23 }
    ensures later { steps.old ≤ steps.new }
{
    if list.len() == 0 {
        return None;
    }
    let count = list.len_below(end, steps);
    if count == 0 {
        return None;
    }
    Some(list.at(count - 1, steps))
}

/// The k-th of the identities that are less than `end`, from 0, if there is one.
pub(crate) fn at_below<L>(list: &Postings, k: u32, end: Id, steps: &mut Steps<L>) -> Option<Id>
    ensures id { result ≡ slice_get (ids_below end list.now.ids) k }
    ensures work { steps.new ≤ steps.old + 1 }
    ensures later { steps.old ≤ steps.new }
{
    if k >= list.len() {
        return None;
    }
    let id = list.at(k, steps);
    if id.place() < end.place() {
        return Some(id);
    }
    None
}
