//! What a property says of itself.
ghost use Rattle.std.specs.Prelude.{◌≡◌, ◌+◌, ◌*◌, ◌≤◌, ◌<◌, ◌&&◌, Some, length, find, IsTrue};
ghost use Rattle.gd_base.specs.Counts.{Rose};
ghost use Rattle.gd_prim.specs.declared.End.TheVariants.{Left};
ghost use Rattle.gd_prim.specs.End.{places_with};
ghost use Rattle.gd_prim.specs.History.{prims_of};
ghost use Rattle.gd_prim.specs.Live as live;
ghost use Rattle.gd_prim.specs.Builtin.{property_place, expected_place};
ghost use Rattle.gd_defs.specs.Property as defined;
ghost use Rattle.gd_resolve.specs.Found as found;

use crate::look::{is_object, prim_at, right_at};
use gd_base::datum::Datum;
use gd_base::id::Id;
use gd_base::steps::Steps;
use gd_prim::live::refers;
use gd_prim::{ENGLISH, End, Primitive};
use gd_store::view::View;
use std::marker::Model;

/// The type of properties.
const PROPERTY: Id = Id(6);

/// The typ of links to types.
const TYPE: Id = Id(14);

/// The type of texts.
const TEXT: Id = Id(7);

/// The typ of links to namespaces, with a key.
const KEY: Id = Id(15);

/// The namespace of languages.
const LANGUAGES: Id = Id(2);

/// The typ of links to expected types.
const EXPECTED_TYPE: Id = Id(16);

/// The typ of marks of unique properties.
const UNIQUE: Id = Id(17);

/// The typ of links to master properties.
const MASTER_PROPERTY: Id = Id(18);

/// What a property asks for. Contracts see it as the definitions' property.
#[derive(Clone, Copy, PartialEq, Eq)]
pub struct Property {
    /// The typ of the links that answer it.
    pub stored: Id,
    /// False where the links lead from the object that is asked, true where they lead to it.
    pub reversed: bool,
    /// The type that is expected at the other end.
    pub expected: Option<Id>,
    /// Whether there is one answer at most.
    pub unique: bool,
    /// The language of the texts that are asked for, where those of one alone are.
    pub language: Option<Id>,
}

impl Model for Property {
    ghost use Rattle.gd_defs.specs.Property.{Property};

    ghost Value = { Property };

    ghost view = { λ p. record {
      stored = p.stored;
      reversed = p.reversed;
      expected = p.expected;
      unique = p.unique;
      language = p.language;
    } };

    ghost inverse = { λ p. record {
      stored = p.stored;
      reversed = p.reversed;
      expected = p.expected;
      unique = p.unique;
      language = p.language;
    } };
}

/// What a scan looks for: a live link of a typ from an object, a live link that gives an object a
/// type, a live mark of a property that has a truth value, or a live link that gives an object a
/// key among languages.
#[derive(Drop)]
enum Wanted {
    Link { typ: Id, object: Id },
    TypeLink { object: Id, of: Id },
    Mark { property: Id },
    Language { object: Id },
}

fn is_link(prim: &Primitive, typ: Id, object: Id) -> bool
    ensures { result ≡ found.is_link typ object prim.now }
{
    refers(prim.typ, typ) && refers(prim.left, object)
}

fn truth(value: &Datum) -> Option<bool>
    ensures { result ≡ defined.boolean_of value.now }
{
    match value {
        Datum::Bool(truth) => Some(*truth),
        _ => None,
    }
}

fn is_wanted(prim: &Primitive, wanted: &Wanted) -> bool
    ensures { result ≡ found.is_wanted wanted.now prim.now }
{
    match wanted {
        Wanted::Link { typ, object } => is_link(prim, *typ, *object),
        Wanted::TypeLink { object, of } => is_link(prim, TYPE, *object) && refers(prim.right, *of),
        Wanted::Mark { property } => is_link(prim, UNIQUE, *property)
            && truth(&prim.value).is_some(),
        Wanted::Language { object } => is_link(prim, KEY, *object) && refers(prim.right, LANGUAGES),
    }
}

fn is_found<L>(view: &View<'_>, wanted: &Wanted, place: Id, steps: &mut Steps<L>) -> bool
    ensures found { result ≡ found.is_found (found.is_wanted wanted.now) (prims_of view.now) place }
    ensures work { steps.new ≤ steps.old + 3 }
    ensures later { steps.old ≤ steps.new }
    ensures counted { place < length (prims_of view.now) → Rose steps.old steps.new }
{
    match prim_at(view, place, steps) {
        Some(prim) => is_wanted(prim, wanted) && view.is_live(place, steps),
        None => false,
    }
}

/// The object that what is wanted leads from.
fn left_of(wanted: &Wanted) -> Id
    ensures { result ≡ found.left_of wanted.now }
{
    match wanted {
        Wanted::Link { object, .. } => *object,
        Wanted::TypeLink { object, .. } => *object,
        Wanted::Mark { property } => *property,
        Wanted::Language { object } => *object,
    }
}

/// How many places lead from an object.
fn said_of<L>(view: &View<'_>, object: Id, steps: &mut Steps<L>) -> u32
    ensures said { result ≡ length (places_with Left object (prims_of view.now)) }
    ensures work { steps.new ≤ steps.old + 22 }
    ensures later { steps.old ≤ steps.new }
    ensures counted { Rose steps.old steps.new }
{
    view.list_len(End::Left, object, steps)
}

/// The first of the places that lead from an object, of which there are so many, at which a live
/// primitive stands that is wanted.
fn first_from<L>(
    view: &View<'_>,
    wanted: &Wanted,
    object: Id,
    said: u32,
    steps: &mut Steps<L>,
) -> Option<Id>
    requires { said ≡ length (places_with Left object (prims_of view.now)) }
    ensures first { result ≡ find (found.is_found (found.is_wanted wanted.now) (prims_of view.now))
        (places_with Left object (prims_of view.now)) }
    ensures work { steps.new ≤ steps.old + 4 * said }
    ensures later { steps.old ≤ steps.new }
{
    for k in 0..said {
        let place = view.list_at(End::Left, object, k, steps);
        if is_found(view, wanted, place, steps) {
            return Some(place);
        }
    }
    None
}

/// The first place at which a live primitive stands that is wanted. It looks at the places that
/// lead from its object, of which there are so many.
fn first_found<L>(view: &View<'_>, wanted: &Wanted, said: u32, steps: &mut Steps<L>) -> Option<Id>
    requires { said ≡ length (places_with Left (found.left_of wanted.now) (prims_of view.now)) }
    ensures first { result ≡ found.first_found (found.is_wanted wanted.now) (prims_of view.now) }
    ensures work { steps.new ≤ steps.old + 4 * said }
    ensures later { steps.old ≤ steps.new }
{
    first_from(view, wanted, left_of(wanted), said, steps)
}

/// The right end of the first live link of a typ from an object, from which so many places lead.
fn first_right<L>(
    view: &View<'_>,
    typ: Id,
    object: Id,
    said: u32,
    steps: &mut Steps<L>,
) -> Option<Id>
    requires { said ≡ length (places_with Left object (prims_of view.now)) }
    ensures right { result ≡ defined.first_right (prims_of view.now) typ object }
    ensures work { steps.new ≤ steps.old + 4 * said + 1 }
    ensures later { steps.old ≤ steps.new }
{
    match first_found(view, &Wanted::Link { typ, object }, said, steps) {
        Some(link) => right_at(view, link, steps),
        None => None,
    }
}

/// The type that the property at a place states to expect, in its own direction: what the first
/// live link to an expected type names, if there is one. It takes no memory.
pub fn expected_type<L>(view: &View<'_>, place: Id, steps: &mut Steps<L>) -> Option<Id>
    ensures expected { result ≡ defined.first_right (prims_of view.now) expected_place place }
    ensures work { steps.new ≤ steps.old + 23 + 4 * length
        (places_with Left place (prims_of view.now)) }
    ensures later { steps.old ≤ steps.new }
    ensures counted { 0 < length (prims_of view.now) → Rose steps.old steps.new }
{
    let said = said_of(view, place, steps);
    first_right(view, EXPECTED_TYPE, place, said, steps)
}

/// Whether a live link gives the object the type.
fn has_type<L>(view: &View<'_>, object: Id, of: Id, steps: &mut Steps<L>) -> bool
    ensures has { result ≡ defined.has_type (prims_of view.now) object of }
    ensures work { steps.new ≤ steps.old + 22 + 4 * length
        (places_with Left object (prims_of view.now)) }
    ensures later { steps.old ≤ steps.new }
    ensures counted { 0 < length (prims_of view.now) → Rose steps.old steps.new }
{
    let said = said_of(view, object, steps);
    first_found(view, &Wanted::TypeLink { object, of }, said, steps).is_some()
}

fn truth_at<L>(view: &View<'_>, place: Id, steps: &mut Steps<L>) -> Option<bool>
    ensures truth { result ≡ defined.boolean_of (live.value_at (prims_of view.now) place) }
    ensures work { steps.new ≤ steps.old + 1 }
    ensures later { steps.old ≤ steps.new }
{
    truth(&prim_at(view, place, steps)?.value)
}

/// Whether the first live mark with a truth value says that the property is unique, from which so
/// many places lead.
fn is_unique<L>(view: &View<'_>, property: Id, said: u32, steps: &mut Steps<L>) -> bool
    requires { said ≡ length (places_with Left property (prims_of view.now)) }
    ensures unique { result ≡ defined.is_unique (prims_of view.now) property }
    ensures work { steps.new ≤ steps.old + 4 * said + 1 }
    ensures later { steps.old ≤ steps.new }
{
    match first_found(view, &Wanted::Mark { property }, said, steps) {
        Some(mark) => truth_at(view, mark, steps).unwrap_or(false),
        None => false,
    }
}

/// The language of the texts that are asked for where nothing is said of it, by the type that is
/// expected.
#[tactic(auto, using(crate::proofs::Languages::plain_by_type))]
fn type_language(of: Id) -> Option<Id>
    ensures { result ≡ defined.plain_language (defined.expects_of (Some of)) }
{
    if of == TEXT { Some(ENGLISH) } else { None }
}

/// The language of the texts that are asked for where nothing is said of it: English; of what is no
/// text none.
fn plain_language(expected: &Option<Id>) -> Option<Id>
    ensures { result ≡ defined.plain_language (defined.expects_of expected.now) }
{
    match expected {
        Some(of) => type_language(*of),
        None => None,
    }
}

/// Whether the object is a language: a live link gives it a key among languages. It goes over the
/// places that lead from there. It takes no memory.
pub fn is_language<L>(view: &View<'_>, object: Id, steps: &mut Steps<L>) -> bool
    ensures language { result ≡ defined.is_language (prims_of view.now) object }
    ensures work { steps.new ≤ steps.old + 22 + 4 * length
        (places_with Left object (prims_of view.now)) }
    ensures later { steps.old ≤ steps.new }
    ensures counted { 0 < length (prims_of view.now) → Rose steps.old steps.new }
{
    let said = said_of(view, object, steps);
    first_found(view, &Wanted::Language { object }, said, steps).is_some()
}

/// Whether a primitive is in the language that a property asks for, if it asks for one.
fn in_language(property: &Property, prim: &Primitive) -> bool
    ensures { result ≡ defined.in_language property.now prim.now }
{
    match property.language {
        Some(language) => refers(prim.language(), language),
        None => true,
    }
}

/// Whether a primitive is of a property: it has its typ, and is in the language that is asked for,
/// if one is. It takes no memory.
pub fn is_of(property: &Property, prim: &Primitive) -> bool
    ensures { result ≡ defined.is_of property.now prim.now }
{
    refers(prim.typ, property.stored) && in_language(property, prim)
}

/// What the property at a place states. Where a live link names a master, the links of the master,
/// backwards; else its own. The type that is expected is what the first live link to an expected
/// type names, if there is one. It is unique where the first live mark that has a truth value says
/// so. Where no property stands at the place the same rules tell something too: ask `is_property`
/// first. It goes three times over the places that lead from there. It takes no memory.
pub fn stated<L>(view: &View<'_>, place: Id, steps: &mut Steps<L>) -> Property
    ensures stated { result ≡ defined.stated (prims_of view.now) place }
    ensures work { steps.new ≤ steps.old + 25 + 12 * length
        (places_with Left place (prims_of view.now)) }
    ensures later { steps.old ≤ steps.new }
    ensures counted { 0 < length (prims_of view.now) → Rose steps.old steps.new }
{
    let said = said_of(view, place, steps);
    let master = first_right(view, MASTER_PROPERTY, place, said, steps);
    let expected = first_right(view, EXPECTED_TYPE, place, said, steps);
    let language = plain_language(&expected);
    Property {
        stored: master.unwrap_or(place),
        reversed: master.is_some(),
        expected,
        unique: is_unique(view, place, said, steps),
        language,
    }
}

/// Whether a property stands at a place: an object to which a live link gives the type of
/// properties. It takes no memory.
pub fn is_property<L>(view: &View<'_>, place: Id, steps: &mut Steps<L>) -> bool
    ensures property { result ≡ (live.is_object (prims_of view.now) place
        && defined.has_type (prims_of view.now) place property_place) }
    ensures work { steps.new ≤ steps.old + 25 + 4 * length
        (places_with Left place (prims_of view.now)) }
    ensures later { steps.old ≤ steps.new }
    ensures counted { place < length (prims_of view.now) → Rose steps.old steps.new }
    ensures found { IsTrue result → Rose steps.old steps.new }
{
    is_object(view, place, steps) && has_type(view, place, PROPERTY, steps)
}
