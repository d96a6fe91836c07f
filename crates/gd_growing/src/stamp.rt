//! The primitives that a write makes.
ghost use Rattle.std.specs.Prelude.{◌≡◌, IfOk};
ghost use Rattle.gd_defs.specs.Write.Links as defined;
ghost use Rattle.gd_growing.specs.State.{so_far};
ghost use Rattle.gd_growing.specs.Seen.{target_view, bare, ended};

use crate::growing::Growing;
use crate::target::Target;
use gd_base::datum::Datum;
use gd_base::id::Id;
use gd_base::memory::Memory;
use gd_prim::{ENGLISH, Primitive};
use gd_resolve::property::Property;
use std::marker::Model;

/// What all primitives of a write have in common: the scope, and the moment in milliseconds since
/// 1970-01-01 in UTC. Contracts see it as the definitions' stamp.
#[derive(Clone, Copy, Debug, PartialEq, Eq)]
pub struct Stamp {
    pub scope: Option<Id>,
    pub moment: u64,
}

impl Model for Stamp {
    ghost use Rattle.gd_defs.specs.Write.Links.{Stamp};

    ghost Value = { Stamp };

    ghost view = { λ s. record { scope = s.scope; moment = s.moment } };

    ghost inverse = { λ s. record { scope = s.scope; moment = s.moment } };
}

/// A new object. It takes no memory.
pub fn new_object(stamp: &Stamp) -> Primitive
    ensures { result ≡ defined.new_object stamp.now }
{
    Primitive {
        scope: stamp.scope,
        ..Primitive::object(stamp.moment)
    }
}

/// The language that a link of a value names: of a text that of its property, unless it is English.
fn named_language(value: &Datum, language: Option<Id>) -> Option<Id>
    ensures { result ≡ defined.named_language value.now language }
{
    match (value, language) {
        (Datum::Text(_), Some(language)) => {
            if language == ENGLISH {
                None
            } else {
                Some(language)
            }
        }
        _ => None,
    }
}

/// A link of the property without its ends.
fn bare(stamp: &Stamp, property: &Property, value: Datum, previous: Option<Id>) -> Primitive
    ensures { result ≡ bare stamp.now property.now value previous }
{
    let lang = named_language(&value, property.language);
    Primitive {
        left: None,
        right: None,
        typ: Some(property.stored),
        scope: stamp.scope,
        value,
        name: None,
        previous,
        live: true,
        moment: stamp.moment,
        lang,
    }
}

/// The link between its near and its far end, turned where the property is reversed.
fn between(property: &Property, near: Id, far: Option<Id>, link: Primitive) -> Primitive
    ensures { result ≡ defined.between property.now.reversed near far link }
{
    if property.reversed {
        Primitive {
            left: far,
            right: Some(near),
            ..link
        }
    } else {
        Primitive {
            left: Some(near),
            right: far,
            ..link
        }
    }
}

/// A link of the property from an object to a target, as the successor of a previous one or as a
/// new one. `Memory`: an allocation was refused.
pub fn new_link(
    stamp: &Stamp,
    property: &Property,
    object: Id,
    target: &Target,
    previous: Option<Id>,
) -> Result<Primitive, Memory>
    ensures { IfOk result (λ link. link ≡ defined.new_link stamp.now property.now object
        (target_view target.now) previous) }
{
    match target {
        Target::Object(other) => {
            let link = bare(stamp, property, Datum::Empty, previous);
            Ok(between(property, object, Some(*other), link))
        }
        Target::Value(value) => {
            let link = bare(stamp, property, value.copy()?, previous);
            Ok(between(property, object, None, link))
        }
        Target::Key { namespace, key } => {
            let link = bare(stamp, property, Datum::Text(key.copy()?), previous);
            Ok(between(property, object, Some(*namespace), link))
        }
    }
}

/// The successor by which the primitive at a place is deleted.
fn ended(stamp: &Stamp, place: Id, prim: &Primitive) -> Result<Primitive, Memory>
    ensures { IfOk result (λ made. made ≡ ended stamp.now place prim.now) }
{
    Ok(Primitive {
        left: prim.left,
        right: prim.right,
        typ: prim.typ,
        scope: stamp.scope,
        value: prim.value.copy()?,
        name: None,
        previous: Some(place),
        live: false,
        moment: stamp.moment,
        lang: prim.lang,
    })
}

/// The successor by which the link at a place is deleted; where none stands there, a new object.
/// `Memory`: an allocation was refused.
pub fn deletion(stamp: &Stamp, growing: &Growing<'_>, place: Id) -> Result<Primitive, Memory>
    ensures { IfOk result (λ made. made ≡ defined.deletion stamp.now (so_far growing.now) place) }
{
    match growing.primitive(place) {
        Some(prim) => ended(stamp, place, prim),
        None => Ok(new_object(stamp)),
    }
}
