//! Ids as walks spell them.
ghost use Rattle.std.specs.Prelude.{◌≡◌, ◌++◌, [], string_bytes, IfOk, OnOk};
ghost use Rattle.gd_frozen.specs.Meaning.{walk_of};
ghost use Rattle.gd_runs.specs.Shape.{links_text, walk_text};
ghost use Rattle.gd_shape.specs.Spelt.{link_text};

use crate::sight::Sight;
use gd_base::datum::Datum;
use gd_base::id::Id;
use gd_base::memory::Memory;
use gd_fault::guid::guid;
use gd_frozen::frozen::Walk;
use gd_json::value::JsonText;
use std::alloc::Global;

/// Writes the text at a place behind a slash; where no text stands there, the slash alone.
fn push_link(text: &mut String, sight: &Sight<'_>, link: Id) -> Result<(), Memory>
    ensures { OnOk result (string_bytes text.new
        ≡ string_bytes text.old ++ link_text sight.now link) }
{
    text.push_str("/")?;
    if let Some(prim) = sight.prim(link) {
        if let Datum::Text(key) = &prim.value {
            text.push_str(key.as_str())?;
        }
    }
    Ok(())
}

/// The id that key links spell, from an object up: the texts of the links, from the last one on.
#[tactic(auto, using(crate::proofs::Walked::link_last, crate::proofs::Walked::link_more))]
fn links_spelt(alloc: Global, sight: &Sight<'_>, links: &[Id]) -> Result<JsonText, Memory>
    ensures { IfOk result (λ text. text ≡ links_text sight.now links.now []) }
{
    let mut text = String::new(alloc);
    let mut left = links.len();
    while left > 0 {
        left -= 1;
        let link = links[left];
        push_link(&mut text, sight, link)?;
    }
    Ok(JsonText::new(text))
}

/// The id of an object as a walk spells it. `Memory`: an allocation was refused.
pub(crate) fn spelt(
    alloc: Global,
    sight: &Sight<'_>,
    object: Id,
    walk: &Walk,
) -> Result<JsonText, Memory>
    ensures { IfOk result (λ text. text ≡ walk_text sight.now object (walk_of walk.now)) }
{
    match walk {
        Walk::Guid => guid(alloc, object),
        Walk::Root => JsonText::from_str(alloc, "/"),
        Walk::Links(links) => links_spelt(alloc, sight, links.as_slice()),
    }
}
