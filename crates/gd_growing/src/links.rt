//! What inserting, deleting and updating links adds.
ghost use Rattle.std.specs.Prelude.{◌≡◌, ◌∷◌, [], ◌++◌, ◌&&◌, ◌==◌, Some, None, IfOk, OnOk, OnErr};
ghost use Rattle.std.specs.Prelude.{if◌then◌else◌, map, nat_lt, length, slice_get, option_and_then};
ghost use Rattle.std.specs.Option.{option_eq};
ghost use Rattle.gd_mql.specs.Changes.{connect_view};
ghost use Rattle.gd_defs.specs.Ids as ids;
ghost use Rattle.gd_defs.specs.Property as property_defs;
ghost use Rattle.gd_defs.specs.Write.Links as defined;
ghost use Rattle.gd_defs.specs.Write.Parts as parts;
ghost use Rattle.gd_growing.specs.State.{so_far};
ghost use Rattle.gd_growing.specs.Seen.{target_view, answer_word};
ghost use Rattle.gd_growing.specs.Carried.{Gives, IsFree, update_at};
ghost use Rattle.gd_growing.specs.Scan.{is_link};

use crate::answers::{answers, equal_links};
use crate::fault::LinkFault;
use crate::growing::Growing;
use crate::keys::key_leads;
use crate::stamp::{Stamp, deletion, new_link, new_object};
use crate::target::{Target, has_fact, is_target};
use gd_base::datum::Datum;
use gd_base::id::Id;
use gd_base::memory::Memory;
use gd_base::text::Text;
use gd_mql::write_parts::ConnectWord;
use gd_prim::Primitive;
use gd_prim::live::refers;
use gd_resolve::property::Property;
use std::alloc::Global;

/// What a connect form did.
#[derive(Clone, Copy, Debug, PartialEq, Eq)]
pub enum Answer {
    /// The fact was there.
    Present,
    /// A new link was made.
    Inserted,
    /// The fact was not there.
    Absent,
    /// Each link that stated the fact was ended.
    Deleted,
    /// A link gave way to a new one.
    Updated,
}

impl Answer {
    /// The word that is printed for it. It takes no memory.
    pub fn word(self) -> &'static str
        ensures { result.now ≡ answer_word self }
    {
        match self {
            Answer::Present => "present",
            Answer::Inserted => "inserted",
            Answer::Absent => "absent",
            Answer::Deleted => "deleted",
            Answer::Updated => "updated",
        }
    }
}

/// The first answer of a property on an object, if there is one, and whether there are more.
#[derive(Clone, Copy)]
struct First {
    first: Option<Id>,
    more: bool,
}

/// The first answer of a property on an object.
fn first_answer(
    alloc: Global,
    growing: &Growing<'_>,
    property: &Property,
    object: Id,
) -> Result<First, Memory>
    ensures first { IfOk result (λ f. f.first
        ≡ slice_get (property_defs.answers (so_far growing.now) property.now object) 0) }
    ensures more { IfOk result (λ f. f.more
        ≡ nat_lt 1 (length (property_defs.answers (so_far growing.now) property.now object))) }
{
    let answers = answers(alloc, growing, property, object)?;
    Ok(First {
        first: answers.first().copied(),
        more: answers.len() > 1,
    })
}

/// Whether a property is unique and has an answer on an object.
fn is_taken(
    alloc: Global,
    growing: &Growing<'_>,
    property: &Property,
    object: Id,
) -> Result<bool, Memory>
    ensures { IfOk result (λ taken. taken
        ≡ (property.now.unique && nat_lt 0
        (length (property_defs.answers (so_far growing.now) property.now object)))) }
{
    if !property.unique {
        return Ok(false);
    }
    let answers = answers(alloc, growing, property, object)?;
    Ok(!answers.is_empty())
}

/// Puts a new object behind the others, and gives its place. `Memory`: an allocation was refused,
/// or all places are taken; then all is as it was.
pub fn create(growing: &mut Growing<'_>, stamp: &Stamp) -> Result<Id, Memory>
    ensures place { IfOk result (λ place. place ≡ length (so_far growing.old)) }
    ensures ok { OnOk result (so_far growing.new ≡ so_far growing.old ++ defined.new_object
        stamp.now ∷ []) }
    ensures below { growing.new.batches ≡ growing.old.batches }
    ensures same { OnErr result (growing.new ≡ growing.old) }
{
    let place = growing.end();
    growing.push(new_object(stamp))?;
    Ok(place)
}

/// Puts a link from an object to a target behind the others.
fn push_link(
    growing: &mut Growing<'_>,
    stamp: &Stamp,
    property: &Property,
    object: Id,
    target: &Target,
    previous: Option<Id>,
) -> Result<(), Memory>
    ensures ok { OnOk result (so_far growing.new ≡ so_far growing.old ++ defined.new_link stamp.now
        property.now object (target_view target.now) previous ∷ []) }
    ensures below { growing.new.batches ≡ growing.old.batches }
    ensures same { OnErr result (growing.new ≡ growing.old) }
{
    let link = new_link(stamp, property, object, target, previous)?;
    growing.push(link)?;
    Ok(())
}

/// The object that a key in a namespace leads to, if it is another one.
fn other_holder(growing: &Growing<'_>, object: Id, namespace: Id, key: &Text) -> Option<Id>
    ensures { result ≡ option_and_then (λ h. if h == object then None else Some h)
        (ids.key_leads (so_far growing.now) namespace key.now) }
{
    let holder = key_leads(growing, namespace, key)?;
    if holder == object { None } else { Some(holder) }
}

/// Whether the key of a target, if it is one, leads to no other object.
fn key_is_free(growing: &Growing<'_>, object: Id, target: &Target) -> Result<(), LinkFault>
    ensures { IsFree (defined.other_holder (so_far growing.now) object (target_view target.now))
        (target_view target.now) result }
{
    let Target::Key { namespace, key } = target else {
        return Ok(());
    };
    match other_holder(growing, object, *namespace, key) {
        Some(holder) => Err(LinkFault::KeyTaken {
            key: key.copy()?,
            holder,
        }),
        None => Ok(()),
    }
}

/// Inserts a link from an object to a target. Where the fact holds nothing is made (`Present`),
/// else the link (`Inserted`). `NotUnique`: the property is unique, and has another answer;
/// `KeyTaken`: the key of the target leads to another object. After a refusal all is as it was.
pub fn inserted(
    alloc: Global,
    growing: &mut Growing<'_>,
    stamp: &Stamp,
    property: &Property,
    object: Id,
    target: &Target,
) -> Result<Answer, LinkFault>
    ensures links { Gives (λ path. defined.inserted stamp.now path (so_far growing.old) property.now
        object (target_view target.now)) (so_far growing.new) result }
    ensures below { growing.new.batches ≡ growing.old.batches }
    ensures same { OnErr result (growing.new ≡ growing.old) }
{
    if has_fact(growing, property, object, target) {
        return Ok(Answer::Present);
    }
    if is_taken(alloc, growing, property, object)? {
        return Err(LinkFault::NotUnique);
    }
    key_is_free(growing, object, target)?;
    push_link(growing, stamp, property, object, target, None)?;
    Ok(Answer::Inserted)
}

/// The successors by which links are deleted.
fn deletions(
    alloc: Global,
    growing: &Growing<'_>,
    stamp: &Stamp,
    links: &[Id],
) -> Result<Vec<Primitive>, Memory>
    ensures { IfOk result (λ made. made.items
        ≡ map (defined.deletion stamp.now (so_far growing.now)) links.now) }
{
    let mut made = Vec::new(alloc);
    for link in links {
        made.push(deletion(stamp, growing, *link)?)?;
    }
    Ok(made)
}

/// Deletes each link from an object that leads to a target: a successor is made that is not live
/// (`Deleted`). `Absent`: there is none. `Memory`: an allocation was refused, or places are
/// wanting; then all is as it was.
pub fn deleted(
    alloc: Global,
    growing: &mut Growing<'_>,
    stamp: &Stamp,
    property: &Property,
    object: Id,
    target: &Target,
) -> Result<Answer, LinkFault>
    ensures links { Gives (λ path. defined.deleted stamp.now (so_far growing.old) property.now
        object (target_view target.now)) (so_far growing.new) result }
    ensures below { growing.new.batches ≡ growing.old.batches }
    ensures same { OnErr result (growing.new ≡ growing.old) }
{
    let made = ends(alloc, growing, stamp, property, object, target)?;
    if made.is_empty() {
        return Ok(Answer::Absent);
    }
    growing.append(made)?;
    Ok(Answer::Deleted)
}

/// The successors by which the links from an object to a target are deleted.
fn ends(
    alloc: Global,
    growing: &Growing<'_>,
    stamp: &Stamp,
    property: &Property,
    object: Id,
    target: &Target,
) -> Result<Vec<Primitive>, Memory>
    ensures { IfOk result (λ made. made.items
        ≡ map (defined.deletion stamp.now (so_far growing.now))
        (parts.equal_links (so_far growing.now) property.now object (target_view target.now))) }
{
    let links = equal_links(alloc, growing, property, object, target)?;
    deletions(alloc, growing, stamp, links.as_slice())
}

/// Updates the one answer of a unique property on an object. Where the fact holds nothing is made
/// (`Present`); where there is one other answer, it gives way to a link to the target (`Updated`),
/// and where there is none, the link is new (`Inserted`). `BadConnect`: the property is not unique;
/// `NotUnique`: it has more than one answer. After a refusal all is as it was.
pub fn updated(
    alloc: Global,
    growing: &mut Growing<'_>,
    stamp: &Stamp,
    property: &Property,
    object: Id,
    target: &Target,
) -> Result<Answer, LinkFault>
    ensures links { Gives (λ path. defined.updated stamp.now path (so_far growing.old) property.now
        object (target_view target.now)) (so_far growing.new) result }
    ensures below { growing.new.batches ≡ growing.old.batches }
    ensures same { OnErr result (growing.new ≡ growing.old) }
{
    if !property.unique {
        return Err(LinkFault::BadConnect);
    }
    if has_fact(growing, property, object, target) {
        return Ok(Answer::Present);
    }
    let answer = first_answer(alloc, growing, property, object)?;
    match answer.first {
        None => {
            push_link(growing, stamp, property, object, target, None)?;
            Ok(Answer::Inserted)
        }
        Some(previous) => {
            if answer.more {
                return Err(LinkFault::NotUnique);
            }
            push_link(growing, stamp, property, object, target, Some(previous))?;
            Ok(Answer::Updated)
        }
    }
}

/// The end of a link by which the property is asked.
fn near_of(property: &Property, prim: &Primitive) -> Option<Id>
    ensures { result ≡ property_defs.near_of property.now prim.now }
{
    if property.reversed {
        prim.right
    } else {
        prim.left
    }
}

/// The language of a target: of a text that of its property; nothing else has one.
fn target_language(property: &Property, target: &Target) -> Option<Id>
    ensures { result ≡ defined.target_language property.now (target_view target.now) }
{
    match target {
        Target::Value(Datum::Text(_)) => property.language,
        _ => None,
    }
}

fn are_same(language: Option<Id>, other: Option<Id>) -> bool
    ensures { result ≡ option_eq ◌==◌ language other }
{
    match (language, other) {
        (Some(language), Some(other)) => language == other,
        (None, None) => true,
        _ => false,
    }
}

/// Whether a primitive is marked live and a link of the property, with the object at the end by
/// which it is asked and in the language.
fn is_link(property: &Property, object: Id, language: Option<Id>, prim: &Primitive) -> bool
    ensures { result ≡ is_link property.now object language prim.now }
{
    prim.live
        && refers(prim.typ, property.stored)
        && refers(near_of(property, prim), object)
        && are_same(prim.language(), language)
}

/// The place, if a link of the property and the object in the language stands there that is marked
/// live.
fn link_at(
    growing: &Growing<'_>,
    property: &Property,
    object: Id,
    language: Option<Id>,
    place: u64,
) -> Option<Id>
    ensures { result ≡ (if defined.is_link_of (so_far growing.now) property.now object language
        place then Some place else None) }
{
    if place >= u64::from(growing.end().place()) {
        return None;
    }
    let link = Id(place as u32);
    if is_link(property, object, language, growing.primitive(link)?) {
        Some(link)
    } else {
        None
    }
}

/// Updates the link at a place, which the request names as `previous`: it gives way to a link to
/// the target (`Updated`), unless it leads there itself (`Present`). `BadPrevious`: no link of the
/// object and the property in the language of the target that is marked live stands there;
/// `StaleVersion`: it has a successor. After a refusal all is as it was.
pub fn updated_from(
    growing: &mut Growing<'_>,
    stamp: &Stamp,
    property: &Property,
    object: Id,
    target: &Target,
    previous: u64,
) -> Result<Answer, LinkFault>
    ensures links { Gives (λ path. defined.updated_from stamp.now path (so_far growing.old)
        property.now object (target_view target.now) previous) (so_far growing.new) result }
    ensures below { growing.new.batches ≡ growing.old.batches }
    ensures same { OnErr result (growing.new ≡ growing.old) }
{
    let language = target_language(property, target);
    let Some(link) = link_at(growing, property, object, language, previous) else {
        return Err(LinkFault::BadPrevious);
    };
    if let Some(successor) = growing.successor(link) {
        return Err(LinkFault::StaleVersion {
            previous: link,
            successor,
        });
    }
    if is_target(growing, property, target, link) {
        return Ok(Answer::Present);
    }
    push_link(growing, stamp, property, object, target, Some(link))?;
    Ok(Answer::Updated)
}

/// Updates the one answer of the property, or the link that `previous` names.
fn update_at(
    alloc: Global,
    growing: &mut Growing<'_>,
    stamp: &Stamp,
    property: &Property,
    object: Id,
    target: &Target,
    previous: Option<u64>,
) -> Result<Answer, LinkFault>
    ensures links { Gives (λ path. update_at stamp.now path (so_far growing.old) property.now object
        (target_view target.now) previous) (so_far growing.new) result }
    ensures below { growing.new.batches ≡ growing.old.batches }
    ensures same { OnErr result (growing.new ≡ growing.old) }
{
    match previous {
        None => updated(alloc, growing, stamp, property, object, target),
        Some(place) => updated_from(growing, stamp, property, object, target, place),
    }
}

/// Carries out a connect form on an object: `insert` as `inserted`, `delete` as `deleted`, and
/// `update` as `updated_from` where the request names a link by `previous`, else as `updated`; what
/// `previous` names is told by its place. Of the refusals are beside theirs `BadConnect`: a key in
/// a namespace is to be updated. After a refusal all is as it was.
pub fn connected(
    alloc: Global,
    growing: &mut Growing<'_>,
    stamp: &Stamp,
    property: &Property,
    object: Id,
    word: ConnectWord,
    target: &Target,
    previous: Option<u64>,
) -> Result<Answer, LinkFault>
    ensures links { Gives (λ path. defined.connected stamp.now path (so_far growing.old)
        property.now object (connect_view word) (target_view target.now) previous)
        (so_far growing.new) result }
    ensures below { growing.new.batches ≡ growing.old.batches }
    ensures same { OnErr result (growing.new ≡ growing.old) }
{
    match word {
        ConnectWord::Insert => inserted(alloc, growing, stamp, property, object, target),
        ConnectWord::Delete => deleted(alloc, growing, stamp, property, object, target),
        ConnectWord::Update => {
            if let Target::Key { .. } = target {
                return Err(LinkFault::BadConnect);
            }
            update_at(alloc, growing, stamp, property, object, target, previous)
        }
    }
}
