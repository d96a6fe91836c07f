//! Lists of places.
ghost use Rattle.std.specs.Prelude.{◌≡◌, ◌+◌, ◌<◌, ◌≤◌, length, ℕ, IfSome, IfOk};
ghost use Rattle.gd_prim.specs.History.{prims_of};
ghost use Rattle.gd_postings.specs.Postings.{IsRising, ids_below, first_from};
ghost use Rattle.gd_iter_core.specs.Owed.{has_id};
ghost use Rattle.gd_leaf.specs.Sorted.{SortedFrom};

use gd_base::id::Id;
use gd_base::memory::Memory;
use gd_base::steps::Steps;
use gd_postings::postings::Postings;
use gd_store::view::View;
use std::alloc::Global;

/// A list of places.
#[derive(Drop)]
pub(crate) struct Listed {
    pub(crate) ids: Postings,
    ghost rises: { IsRising ids.ids },
}

/// No store has more places.
const PLACES: u32 = 2_097_151;

/// The places of identities, from the least on.
fn sorted(alloc: Global, ids: &[Id]) -> Result<Vec<u32>, Memory>
    ensures same { IfOk result (λ places. (id : ℕ) → has_id places.items id ≡ has_id ids.now id) }
    ensures sorted { IfOk result (λ places. SortedFrom 0 places.items) }
{
    let mut places = Vec::new(alloc);
    for id in ids {
        places.push(id.place())?;
    }
    places.sort_unstable();
    Ok(places)
}

/// The places of a list that does not fall, each once, as far as a store may have them.
fn distinct(alloc: Global, places: &[u32]) -> Result<Postings, Memory>
    requires { SortedFrom 0 places.now }
    ensures { IfOk result (λ list. (id : ℕ) → id < 2_097_151
        → has_id list.ids id ≡ has_id places.now id) }
{
    let mut list = Postings::new(alloc);
    let mut next = 0;
    for place in places {
        if *place < next {
            continue;
        }
        if *place >= PLACES {
            continue;
        }
        list.make_room()?;
        list.push(Id(*place));
        next = *place + 1;
    }
    Ok(list)
}

impl Listed {
    /// The places of a list, in any order. Those that no store has are left out. `Memory`: there is
    /// no room for them.
    pub(crate) fn new(alloc: Global, ids: &[Id]) -> Result<Listed, Memory>
        ensures { IfOk result (λ list. (id : ℕ) → id < 2_097_151
            → has_id list.ids.ids id ≡ has_id ids.now id) }
    {
        let places = sorted(alloc, ids)?;
        let list = distinct(alloc, places.as_slice())?;
        let _count = list.len();
        Ok(Listed { ids: list })
    }

    /// The first place below the view's end that is `from` or greater.
    pub(crate) fn first<L>(&self, view: &View<'_>, from: Id, steps: &mut Steps<L>) -> Option<Id>
        ensures first { result ≡ first_from from
            (ids_below (length (prims_of view.now)) self.now.ids.ids) }
        ensures below { IfSome result (λ id. id < length (prims_of view.now)) }
        ensures work { steps.new ≤ steps.old + 22 }
        ensures later { steps.old ≤ steps.new }
    {
        match self.ids.first_from(from, steps) {
            Some(id) => {
                if id.place() < view.end().place() {
                    return Some(id);
                }
                None
            }
            None => None,
        }
    }
}
