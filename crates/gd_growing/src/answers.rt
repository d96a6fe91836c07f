//! The answers of a property on an object.
ghost use Rattle.std.specs.Prelude.{◌≡◌, ◌++◌, length, filter, option_map, IfOk, OnOk};
ghost use Rattle.std.specs.List.{range_with_len};
ghost use Rattle.gd_prim.specs.End.{places_with};
ghost use Rattle.gd_prim.specs.History.{prims_of};
ghost use Rattle.gd_defs.specs.Data as data_kinds;
ghost use Rattle.gd_defs.specs.Plan as plan;
ghost use Rattle.gd_defs.specs.Property as defined;
ghost use Rattle.gd_defs.specs.Write.Parts as parts;
ghost use Rattle.gd_datum.specs.Values.{kind_of};
ghost use Rattle.gd_plan.specs.Seen.{expects_view};
ghost use Rattle.gd_growing.specs.State.{so_far};
ghost use Rattle.gd_growing.specs.Scan.{is_answer, is_answer_at, is_wanted_at, kept};
ghost use Rattle.gd_growing.specs.Seen.{target_view};

use crate::growing::Growing;
use crate::target::{Target, leads_at};
use gd_base::datum::Datum;
use gd_base::id::Id;
use gd_base::memory::Memory;
use gd_base::steps::Steps;
use gd_datum::value::Kind;
use gd_plan::constraint::asked_end;
use gd_plan::expects::{Expects, expects_of};
use gd_prim::Primitive;
use gd_prim::live::refers;
use gd_resolve::property::{Property, is_of};
use std::alloc::Global;

/// Whether the value is of the kind.
fn has_kind(kind: Kind, value: &Datum) -> bool
    ensures { result ≡ data_kinds.has_kind (kind_of kind) value.now }
{
    match kind {
        Kind::Text => matches!(value, Datum::Text(_)),
        Kind::Int => matches!(value, Datum::Int(_)),
        Kind::Boolean => matches!(value, Datum::Bool(_)),
        Kind::Datetime => matches!(value, Datum::Moment { .. }),
    }
}

/// Whether an end of a link is there, and an object.
fn leads_to_object(growing: &Growing<'_>, end: Option<Id>) -> bool
    ensures { result ≡ defined.leads_to_object (so_far growing.now) end }
{
    match end {
        Some(object) => growing.is_object(object),
        None => false,
    }
}

/// Whether a link holds what is expected.
fn holds_expected(growing: &Growing<'_>, expects: Expects, prim: &Primitive) -> bool
    ensures { result ≡ defined.holds_expected (so_far growing.now) (expects_view expects) prim.now }
{
    match expects {
        Expects::Value(kind) => has_kind(kind, &prim.value),
        Expects::Key => {
            leads_to_object(growing, prim.right) && has_kind(Kind::Text, &prim.value)
        }
        Expects::SystemObject | Expects::PlainObject => leads_to_object(growing, prim.right),
    }
}

/// Whether a link answers the property on the object, if it is live.
fn is_answer(growing: &Growing<'_>, property: &Property, object: Id, prim: &Primitive) -> bool
    ensures { result ≡ is_answer (so_far growing.now) property.now object prim.now }
{
    if property.reversed {
        is_of(property, prim) && refers(prim.right, object) && leads_to_object(growing, prim.left)
    } else {
        is_of(property, prim)
            && refers(prim.left, object)
            && holds_expected(growing, expects_of(property.expected), prim)
    }
}

/// Whether an answer of the property on the object stands at the place.
pub(crate) fn is_answer_at(
    growing: &Growing<'_>,
    property: &Property,
    object: Id,
    place: Id,
) -> bool
    ensures { result ≡ is_answer_at (so_far growing.now) property.now object place }
{
    match growing.primitive(place) {
        Some(prim) => is_answer(growing, property, object, prim) && growing.is_live(place),
        None => false,
    }
}

/// Whether an answer of the property on the object stands at a place, and leads to the target, if
/// one is given.
fn is_wanted_at(
    growing: &Growing<'_>,
    property: &Property,
    object: Id,
    target: Option<&Target>,
    place: Id,
) -> bool
    ensures { result ≡ is_wanted_at (so_far growing.now) property.now object
        (option_map (λ t. target_view t.now) target.entry) place }
{
    match target {
        Some(target) => leads_at(growing, property, object, target, place),
        None => is_answer_at(growing, property, object, place),
    }
}

/// Puts a place behind others, if an answer stands there that is wanted.
fn push_wanted(
    growing: &Growing<'_>,
    property: &Property,
    object: Id,
    target: Option<&Target>,
    place: Id,
    links: &mut Vec<Id>,
) -> Result<(), Memory>
    ensures { OnOk result (links.new.items ≡ links.old.items ++ kept
        (is_wanted_at (so_far growing.now) property.now object
        (option_map (λ t. target_view t.now) target.entry)) place) }
{
    if is_wanted_at(growing, property, object, target, place) {
        links.push(place)?;
    }
    Ok(())
}

/// Puts the answers below the dateline that are wanted behind other places.
fn push_below(
    growing: &Growing<'_>,
    property: &Property,
    object: Id,
    target: Option<&Target>,
    links: &mut Vec<Id>,
) -> Result<(), Memory>
    ensures { OnOk result (links.new.items ≡ links.old.items
        ++ filter (is_wanted_at (so_far growing.now) property.now object
        (option_map (λ t. target_view t.now) target.entry))
        (places_with (plan.asked_end property.now) object (prims_of growing.now.batches))) }
{
    let mut steps: Steps<()> = Steps::new();
    let end = asked_end(property);
    let below = growing.below();
    for k in 0..below.list_len(end, object, &mut steps) {
        let place = below.list_at(end, object, k, &mut steps);
        push_wanted(growing, property, object, target, place, links)?;
    }
    Ok(())
}

/// Puts the answers that the write has made and that are wanted behind other places.
fn push_made(
    growing: &Growing<'_>,
    property: &Property,
    object: Id,
    target: Option<&Target>,
    links: &mut Vec<Id>,
) -> Result<(), Memory>
    ensures { OnOk result (links.new.items ≡ links.old.items
        ++ filter (is_wanted_at (so_far growing.now) property.now object
        (option_map (λ t. target_view t.now) target.entry))
        (range_with_len (length (prims_of growing.now.batches)) (length growing.now.made))) }
{
    for place in growing.first_made()..growing.end().place() {
        push_wanted(growing, property, object, target, Id(place), links)?;
    }
    Ok(())
}

/// The answers of a property on an object: the places of the live links of its stored property, of
/// texts those in its language, that have the object at the end by which it is asked and hold what
/// is expected at the other one, in rising order. `Memory`: an allocation was refused.
#[tactic(auto, using(crate::proofs::Answering::parts))]
pub fn answers(
    alloc: Global,
    growing: &Growing<'_>,
    property: &Property,
    object: Id,
) -> Result<Vec<Id>, Memory>
    ensures { IfOk result (λ answers. answers.items ≡ defined.answers (so_far growing.now)
        property.now object) }
{
    let mut answers = Vec::new(alloc);
    push_below(growing, property, object, None, &mut answers)?;
    push_made(growing, property, object, None, &mut answers)?;
    Ok(answers)
}

/// The answers of a property on an object that lead to the target, in rising order. `Memory`: an
/// allocation was refused.
#[tactic(auto, using(crate::proofs::Targets::links_in_parts))]
pub fn equal_links(
    alloc: Global,
    growing: &Growing<'_>,
    property: &Property,
    object: Id,
    target: &Target,
) -> Result<Vec<Id>, Memory>
    ensures { IfOk result (λ links. links.items ≡ parts.equal_links (so_far growing.now)
        property.now object (target_view target.now)) }
{
    let mut links = Vec::new(alloc);
    push_below(growing, property, object, Some(target), &mut links)?;
    push_made(growing, property, object, Some(target), &mut links)?;
    Ok(links)
}
