//! The objects that ids name.
ghost use Rattle.std.specs.Prelude.{◌≡◌, ◌≢◌, ◌+◌, ◌*◌, ◌≤◌, ◌<◌, length, map, true};
ghost use Rattle.std.specs.Prelude.{option_and_then, IfOk, OnOk, IfSome, IsSome, Err};
ghost use Rattle.std.specs.List.{list_all};
ghost use Rattle.gd_base.specs.Answers.{Gives};
ghost use Rattle.gd_base.specs.Counts.{Rose};
ghost use Rattle.gd_prim.specs.Builtin.{root_place};
ghost use Rattle.gd_prim.specs.History.{prims_of};
ghost use Rattle.gd_prim.specs.Live as live;
ghost use Rattle.gd_defs.specs.Cost.{key_count};
ghost use Rattle.gd_defs.specs.Ids as defined;
ghost use Rattle.gd_resolve.specs.Asked as asked;
ghost use Rattle.gd_resolve.specs.Asked.{id_asked};

use crate::fault::ResolveFault;
use crate::look::{is_object, left_at};
use gd_base::id::Id;
use gd_base::memory::Memory;
use gd_base::steps::Steps;
use gd_base::text::Text;
use gd_fault::ids::{guid_place, id_keys};
use gd_json::value::JsonText;
use gd_store::view::View;
use std::alloc::Global;

/// The root namespace.
const ROOT: Id = Id(0);

/// The place, if an object stands there.
fn object_at<L>(view: &View<'_>, place: Id, steps: &mut Steps<L>) -> Option<Id>
    ensures object { result ≡ defined.object_at (prims_of view.now) place }
    ensures work { steps.new ≤ steps.old + 3 }
    ensures later { steps.old ≤ steps.new }
    ensures counted { place < length (prims_of view.now) → Rose steps.old steps.new }
{
    if is_object(view, place, steps) {
        Some(place)
    } else {
        None
    }
}

/// The place, if it lies below the dateline and an object stands there.
fn object_below<L>(view: &View<'_>, place: u64, steps: &mut Steps<L>) -> Option<Id>
    ensures object { result ≡ defined.object_at (prims_of view.now) place }
    ensures work { steps.new ≤ steps.old + 3 }
    ensures later { steps.old ≤ steps.new }
    ensures counted { place < length (prims_of view.now) → Rose steps.old steps.new }
{
    if place < u64::from(view.end().place()) {
        object_at(view, Id(place as u32), steps)
    } else {
        None
    }
}

/// The object whose guid the text is.
fn guid_object<L>(view: &View<'_>, text: &str, steps: &mut Steps<L>) -> Option<Id>
    ensures object { result ≡ option_and_then (defined.object_at (prims_of view.now))
        (defined.guid_place text.now) }
    ensures work { steps.new ≤ steps.old + 3 }
    ensures later { steps.old ≤ steps.new }
    ensures counted { IfSome (defined.guid_place text.now)
        (λ place. place < length (prims_of view.now) → Rose steps.old steps.new) }
    ensures found { IsSome result → Rose steps.old steps.new }
{
    match guid_place(text.as_bytes()) {
        Some(place) => object_below(view, place, steps),
        None => None,
    }
}

/// The left end of a link, if the link is live and an object stands there.
pub(crate) fn link_leads<L>(view: &View<'_>, link: Id, steps: &mut Steps<L>) -> Option<Id>
    ensures leads { result ≡ asked.link_leads (prims_of view.now) link }
    ensures work { steps.new ≤ steps.old + 6 }
    ensures later { steps.old ≤ steps.new }
    ensures counted { Rose steps.old steps.new }
{
    if !view.is_live(link, steps) {
        return None;
    }
    let object = left_at(view, link, steps)?;
    object_at(view, object, steps)
}

/// The object that a key in a namespace leads to: what the last link of that key into that
/// namespace leads to.
pub(crate) fn key_leads<L>(
    view: &View<'_>,
    namespace: Id,
    key: &Text,
    steps: &mut Steps<L>,
) -> Option<Id>
    ensures leads { result ≡ defined.key_leads (prims_of view.now) namespace key.now }
    ensures work { steps.new ≤ steps.old + 30 }
    ensures later { steps.old ≤ steps.new }
    ensures counted { Rose steps.old steps.new }
{
    let link = view.by_key(namespace, key, steps)?;
    link_leads(view, link, steps)
}

/// The object that keys lead to from the root, each in the object that the one before leads to.
fn follow<L>(
    alloc: Global,
    view: &View<'_>,
    keys: &[&str],
    steps: &mut Steps<L>,
) -> Result<Option<Id>, Memory>
    requires { list_all (λ key. defined.is_key key.now) keys.now ≡ true }
    ensures object { IfOk result (λ object. object ≡ defined.follow (prims_of view.now) root_place
        (map (λ key. key.now) keys.now)) }
    ensures work { steps.new ≤ steps.old + 30 * length keys.now }
    ensures later { steps.old ≤ steps.new }
    ensures counted { OnOk result (0 < length keys.now → Rose steps.old steps.new) }
{
    let mut object = ROOT;
    for key in keys {
        let key = Text::of(alloc, key)?;
        match key_leads(view, object, &key, steps) {
            Some(next) => object = next,
            None => return Ok(None),
        }
    }
    Ok(Some(object))
}

/// The object that an id text names below the dateline, or nothing where it is no id or names none;
/// `object_of` says which text names what, and is the call for who has to tell that none was there.
/// `Memory`: an allocation was refused. It looks at no more than 500 things.
pub fn named_object<L>(
    alloc: Global,
    view: &View<'_>,
    text: &str,
    steps: &mut Steps<L>,
) -> Result<Option<Id>, Memory>
    ensures object { IfOk result (λ object. object ≡ defined.object_of (prims_of view.now)
        text.now) }
    ensures keys { steps.new ≤ steps.old + 3 + 30 * key_count (defined.id_keys text.now) }
    ensures work { steps.new ≤ steps.old + 500 }
    ensures later { steps.old ≤ steps.new }
    ensures guid_counted { IfSome (defined.guid_place text.now)
        (λ place. place < length (prims_of view.now) → Rose steps.old steps.new) }
    ensures path_counted { OnOk result
        (IfSome (defined.id_keys text.now) (λ keys. 0 < length keys → Rose steps.old steps.new)) }
{
    if let Some(object) = guid_object(view, text, steps) {
        return Ok(Some(object));
    }
    match id_keys(alloc, text)? {
        Some(keys) => follow(alloc, view, keys.as_slice(), steps),
        None => Ok(None),
    }
}

/// The object that an id names below the dateline: a guid the object at its place, and a path,
/// which is `/` or 1 to 16 keys each behind a slash, the object to which the keys lead from the
/// root, one after another. A key leads to the left end of the last link of that key into the
/// namespace, if that link is live and an object stands there. `NoSuchId`: the text is no id or
/// names no object; with the text. It looks at no more than 500 things.
pub fn object_of<L>(
    alloc: Global,
    view: &View<'_>,
    path: &JsonText,
    steps: &mut Steps<L>,
) -> Result<Id, ResolveFault>
    ensures object { Gives (λ object. object) ResolveFault.Memory
        (id_asked (prims_of view.now) path.now) result }
    ensures work { steps.new ≤ steps.old + 500 }
    ensures later { steps.old ≤ steps.new }

    // A guid of a place below the dateline and a path with a key are looked up.
    ensures guid_counted { IfSome (defined.guid_place path.now)
        (λ place. place < length (prims_of view.now) → Rose steps.old steps.new) }
    ensures path_counted { result ≢ Err ResolveFault.Memory
        → IfSome (defined.id_keys path.now) (λ keys. 0 < length keys → Rose steps.old steps.new) }
{
    match named_object(alloc, view, path.as_str(), steps)? {
        Some(object) => Ok(object),
        None => Err(ResolveFault::NoSuchId { path: path.copy()? }),
    }
}
