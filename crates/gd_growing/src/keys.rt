//! The objects to which keys lead.
ghost use Rattle.std.specs.Prelude.{◌≡◌, None};
ghost use Rattle.std.specs.List.{last_or};
ghost use Rattle.gd_prim.specs.Live as live;
ghost use Rattle.gd_defs.specs.Ids as defined;
ghost use Rattle.gd_resolve.specs.Asked as asked;
ghost use Rattle.gd_growing.specs.State.{so_far};

use crate::growing::Growing;
use crate::made::last_key_link;
use gd_base::id::Id;
use gd_base::steps::Steps;
use gd_base::text::Text;

/// The last place whose primitive is a link of this key into this namespace.
#[tactic(auto, using(crate::proofs::Behind::places_behind, crate::proofs::Behind::last_behind))]
fn last_link(growing: &Growing<'_>, namespace: Id, key: &Text) -> Option<Id>
    ensures { result ≡ last_or None (live.places_where (defined.is_key_link namespace key.now)
        (so_far growing.now)) }
{
    let mut steps: Steps<()> = Steps::new();
    let below = growing.below().by_key(namespace, key, &mut steps);
    last_key_link(growing.made(), growing.first_made(), namespace, key, below)
}

/// The left end of a link, if the link is live and an object stands there.
fn link_leads(growing: &Growing<'_>, link: Id) -> Option<Id>
    ensures { result ≡ asked.link_leads (so_far growing.now) link }
{
    if !growing.is_live(link) {
        return None;
    }
    let object = growing.primitive(link)?.left?;
    if growing.is_object(object) {
        Some(object)
    } else {
        None
    }
}

/// The object that a key in a namespace leads to: the left end of the last link of that key into
/// that namespace, if the link is live and an object stands there. It takes no memory.
pub fn key_leads(growing: &Growing<'_>, namespace: Id, key: &Text) -> Option<Id>
    ensures { result ≡ defined.key_leads (so_far growing.now) namespace key.now }
{
    let link = last_link(growing, namespace, key)?;
    link_leads(growing, link)
}
