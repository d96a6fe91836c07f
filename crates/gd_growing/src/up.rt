//! The ids of objects.
ghost use Rattle.std.specs.Prelude.{◌≡◌, ◌+◌, ◌^◌, ◌<◌, ◌≤◌, ◌++◌, Some, None, option_map, find};
ghost use Rattle.std.specs.Prelude.{take, length, codes, string_bytes, IfOk};
ghost use Rattle.gd_prim.specs.Keys.{is_key_of as is_key_link_of};
ghost use Rattle.gd_prim.specs.History.{prims_of};
ghost use Rattle.gd_prim.specs.Live as live;
ghost use Rattle.gd_store.specs.Scan.{places_from};
ghost use Rattle.gd_defs.specs.Ids as defined;
ghost use Rattle.gd_resolve.specs.Way.{key_from};
ghost use Rattle.gd_growing.specs.State.{so_far};
ghost use Rattle.gd_growing.specs.Scan.{names};

use crate::growing::Growing;
use crate::made::is_key_of;
use gd_base::datum::Datum;
use gd_base::id::Id;
use gd_base::memory::Memory;
use gd_base::steps::Steps;
use gd_base::text::Text;
use gd_fault::guid::guid;
use gd_json::value::JsonText;
use std::alloc::Global;

/// The root namespace.
const ROOT: Id = Id(0);

/// How many of an object's key links are looked at.
const LINKS: u32 = 8;

/// How many steps lead from an object up to the root, at most.
const LEVELS: u32 = 16;

/// The right end of the primitive at a place, if it has one.
fn right_at(growing: &Growing<'_>, place: Id) -> Option<Id>
    ensures { result ≡ live.end_at (λ p. p.right) (so_far growing.now) place }
{
    growing.primitive(place)?.right
}

/// Whether a live link with a namespace stands at the place.
fn names(growing: &Growing<'_>, link: Id) -> bool
    ensures { result ≡ names (so_far growing.now) link }
{
    growing.is_live(link) && right_at(growing, link).is_some()
}

/// Of the first so many key links of an object that the write has made, the first one that is live
/// and has a namespace.
fn naming_made(growing: &Growing<'_>, object: Id, links: u32) -> Option<Id>
    ensures { result ≡ find (names (so_far growing.now))
        (take links (places_from (is_key_link_of object) (length (prims_of growing.now.batches))
        growing.now.made)) }
{
    let first = growing.first_made();
    let mut left = links;
    for (i, prim) in growing.made().iter().enumerate() {
        if left == 0 {
            return None;
        }
        if is_key_of(prim, object) {
            let link = Id(first + i as u32);
            if names(growing, link) {
                return Some(link);
            }
            left -= 1;
        }
    }
    None
}

/// The key link by which an object is named: of its first eight the first one that is live and has
/// a namespace.
fn naming_link(growing: &Growing<'_>, object: Id) -> Option<Id>
    ensures { result ≡ defined.naming_link (so_far growing.now) object }
{
    let mut steps: Steps<()> = Steps::new();
    let below = growing.below();
    for k in 0..LINKS {
        let Some(link) = below.key_at(object, k, &mut steps) else {
            return naming_made(growing, object, LINKS - k);
        };
        if names(growing, link) {
            return Some(link);
        }
    }
    None
}

/// The key and the namespace of a key link, where its value is a text.
fn key_of<'a>(growing: &'a Growing<'_>, link: Id) -> Option<(&'a Text, Id)>
    ensures { option_map (λ named. (named.0.now, named.1)) result ≡ key_from (so_far growing.now)
        link }
{
    let prim = growing.primitive(link)?;
    match &prim.value {
        Datum::Text(key) => Some((key, prim.right?)),
        _ => None,
    }
}

/// A text with a key and a slash in front.
fn led_by(alloc: Global, key: &Text, text: &str) -> Result<String, Memory>
    ensures { IfOk result (λ path. string_bytes path ≡ codes "/" ++ key.now ++ text.now) }
{
    let mut path = String::from_str(alloc, "/")?;
    path.push_str(key.as_str())?;
    path.push_str(text)?;
    Ok(path)
}

/// The keys from the root down to an object, in front of a text, if at most so many steps lead up
/// to the root.
fn path_up(
    alloc: Global,
    growing: &Growing<'_>,
    levels: u32,
    object: Id,
    text: String,
) -> Result<Option<String>, Memory>
    ensures { IfOk result (λ path. option_map (λ p. string_bytes p) path
        ≡ defined.path_up (so_far growing.now) levels object (string_bytes text)) }
{
    if object == ROOT {
        return Ok(Some(text));
    }
    if levels == 0 {
        return Ok(None);
    }
    let Some(link) = naming_link(growing, object) else {
        return Ok(None);
    };
    let Some((key, namespace)) = key_of(growing, link) else {
        return Ok(None);
    };
    let path = led_by(alloc, key, text.as_str())?;
    path_up(alloc, growing, levels - 1, namespace, path)
}

/// The id of an object as it is among all primitives so far: `/` for the root, else the path of its
/// keys from the root down, else its guid. Of an object's first eight key links the first one
/// counts that is live and has a namespace; a path has at most 16 keys, and each of them is a text.
/// Any place has an id, also one where no object stands. `Memory`: an allocation was refused.
pub fn id_text(alloc: Global, growing: &Growing<'_>, object: Id) -> Result<JsonText, Memory>
    ensures { IfOk result (λ text. text ≡ defined.id_text (so_far growing.now) object) }
{
    if object == ROOT {
        return JsonText::from_str(alloc, "/");
    }
    match path_up(alloc, growing, LEVELS, object, String::new(alloc))? {
        Some(path) => Ok(JsonText::new(path)),
        None => guid(alloc, object),
    }
}
