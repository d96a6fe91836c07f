//! How the ids of objects are found.
ghost use Rattle.std.specs.Prelude.{◌≡◌, ◌≢◌, ◌&&◌, ◌+◌, ◌≤◌, option_map, is_some, IfOk};
ghost use Rattle.gd_base.specs.Counts.{Rose};
ghost use Rattle.gd_prim.specs.History.{prims_of};
ghost use Rattle.gd_prim.specs.Live as live;
ghost use Rattle.gd_defs.specs.Ids as defined;
ghost use Rattle.gd_resolve.specs.Way.{namespace_from, links_up};

use crate::look::{prim_at, right_at};
use gd_base::datum::Datum;
use gd_base::id::Id;
use gd_base::memory::Memory;
use gd_base::steps::Steps;
use gd_store::view::View;
use std::alloc::Global;

/// The root namespace.
const ROOT: Id = Id(0);

/// How many of an object's key links are looked at.
const LINKS: u32 = 8;

/// How many steps lead from an object up to the root, at most.
const LEVELS: u32 = 16;

/// Whether a live link with a namespace stands at the place.
fn names<L>(view: &View<'_>, link: Id, steps: &mut Steps<L>) -> bool
    ensures names { result ≡ (live.is_live (prims_of view.now) link
        && is_some (live.end_at (λ p. p.right) (prims_of view.now) link)) }
    ensures work { steps.new ≤ steps.old + 3 }
    ensures later { steps.old ≤ steps.new }
    ensures counted { Rose steps.old steps.new }
{
    view.is_live(link, steps) && right_at(view, link, steps).is_some()
}

/// The key link by which an object is named: of its first eight the first one that is live and has
/// a namespace.
fn naming_link<L>(view: &View<'_>, object: Id, steps: &mut Steps<L>) -> Option<Id>
    ensures link { result ≡ defined.naming_link (prims_of view.now) object }
    ensures work { steps.new ≤ steps.old + 48 }
    ensures later { steps.old ≤ steps.new }
    ensures counted { Rose steps.old steps.new }
{
    for k in 0..LINKS {
        let link = view.key_at(object, k, steps)?;
        if names(view, link, steps) {
            return Some(link);
        }
    }
    None
}

/// The namespace of a key link, where its key is a text.
fn namespace_of<L>(view: &View<'_>, link: Id, steps: &mut Steps<L>) -> Option<Id>
    ensures namespace { result ≡ namespace_from (prims_of view.now) link }
    ensures work { steps.new ≤ steps.old + 1 }
    ensures later { steps.old ≤ steps.new }
{
    let prim = prim_at(view, link, steps)?;
    match &prim.value {
        Datum::Text(_) => prim.right,
        _ => None,
    }
}

/// The key links from an object up to the root, as they are below the dateline, by which its id is
/// spelt: the keys from the last link on, each behind a slash. Of an object's first eight key links
/// the first one counts that is live and has a namespace; at most 16 links lead up, and the key of
/// each of them is a text. None where they do not lead to the root: such an object has its guid for
/// an id. No links lead up from the root itself. Any place may be asked for, also one where no
/// object stands. `Memory`: an allocation was refused. It looks at no more than 784 things.
pub fn links_up<L>(
    alloc: Global,
    view: &View<'_>,
    object: Id,
    steps: &mut Steps<L>,
) -> Result<Option<Vec<Id>>, Memory>
    ensures links { IfOk result (λ found. option_map (λ links. links.items) found
        ≡ links_up (prims_of view.now) 16 object) }
    ensures work { steps.new ≤ steps.old + 784 }
    ensures later { steps.old ≤ steps.new }
    ensures counted { object ≢ 0 → Rose steps.old steps.new }
{
    let mut links = Vec::new(alloc);
    let mut place = object;
    let mut left = LEVELS;
    while left > 0 {
        if place == ROOT {
            return Ok(Some(links));
        }
        let Some(link) = naming_link(view, place, steps) else {
            return Ok(None);
        };
        let Some(namespace) = namespace_of(view, link, steps) else {
            return Ok(None);
        };
        links.push(link)?;
        place = namespace;
        left -= 1;
    }
    if place == ROOT {
        Ok(Some(links))
    } else {
        Ok(None)
    }
}
