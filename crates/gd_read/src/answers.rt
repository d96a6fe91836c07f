//! The answers of a property on an object, found among its links, each look counted.
ghost use Rattle.std.specs.Prelude.{◌≡◌, ◌+◌, ◌≤◌, ◌&&◌, None, IfSome, filter, is_none, max};
ghost use Rattle.gd_prim.specs.History.{prims_of};
ghost use Rattle.gd_prim.specs.Live as live;
ghost use Rattle.gd_defs.specs.Data as tests;
ghost use Rattle.gd_defs.specs.Property as defs;
ghost use Rattle.gd_datum.specs.Values.{kind_of};
ghost use Rattle.gd_plan.specs.Seen.{expects_view};
ghost use Rattle.gd_read.specs.KeysAt.{holds, is_answer_at};

use gd_base::datum::Datum;
use gd_base::id::Id;
use gd_base::steps::Steps;
use gd_compile::{Property, is_of};
use gd_datum::value::Kind;
use gd_iter_core::budget::Budget;
use gd_plan::constraint::asked_end;
use gd_plan::expects::{Expects, expects_of};
use gd_prim::Primitive;
use gd_store::view::View;

/// Whether a primitive without typ stands at the place.
fn has_no_typ(prims: &[Primitive], place: Id) -> bool
    ensures { result ≡ live.passes_at (λ p. is_none p.typ) prims.now place }
{
    match prims.get(place.place() as usize) {
        Some(prim) => prim.typ.is_none(),
        None => false,
    }
}

/// Whether an object stands at the place.
#[tactic(auto, using(crate::proofs::KeyLinks::object_is))]
fn is_object<L>(view: &View<'_>, place: Id, steps: &mut Steps<L>) -> bool
    ensures object { result ≡ live.is_object (prims_of view.now) place }
    ensures work { steps.new ≤ steps.old + 3 }
    ensures later { steps.old ≤ steps.new }
{
    steps.tick();
    view.is_live(place, steps) && has_no_typ(view.primitives(), place)
}

/// Whether an end is there, and an object.
fn leads_to_object<L>(view: &View<'_>, end: Option<Id>, steps: &mut Steps<L>) -> bool
    ensures leads { result ≡ defs.leads_to_object (prims_of view.now) end }
    ensures work { steps.new ≤ steps.old + 3 }
    ensures later { steps.old ≤ steps.new }
{
    match end {
        Some(place) => is_object(view, place, steps),
        None => false,
    }
}

/// Whether a value is of a kind.
fn has_kind(kind: Kind, value: &Datum) -> bool
    ensures { result ≡ tests.has_kind (kind_of kind) value.now }
{
    match kind {
        Kind::Text => matches!(value, Datum::Text(_)),
        Kind::Int => matches!(value, Datum::Int(_)),
        Kind::Boolean => matches!(value, Datum::Bool(_)),
        Kind::Datetime => matches!(value, Datum::Moment { .. }),
    }
}

/// Whether a link holds what is expected.
fn holds_expected<L>(
    view: &View<'_>,
    expects: Expects,
    link: &Primitive,
    steps: &mut Steps<L>,
) -> bool
    ensures holds { result ≡ defs.holds_expected (prims_of view.now) (expects_view expects)
        link.now }
    ensures work { steps.new ≤ steps.old + 3 }
    ensures later { steps.old ≤ steps.new }
{
    match expects {
        Expects::Value(kind) => has_kind(kind, &link.value),
        Expects::Key => {
            leads_to_object(view, link.right, steps) && has_kind(Kind::Text, &link.value)
        }
        Expects::SystemObject | Expects::PlainObject => leads_to_object(view, link.right, steps),
    }
}

/// Whether a link is one of a property, and holds what that expects in its direction.
fn holds<L>(view: &View<'_>, property: &Property, link: &Primitive, steps: &mut Steps<L>) -> bool
    ensures holds { result ≡ (defs.is_of property.now link.now
        && holds (prims_of view.now) property.now link.now) }
    ensures work { steps.new ≤ steps.old + 3 }
    ensures later { steps.old ≤ steps.new }
{
    if !is_of(property, link) {
        return false;
    }
    if property.reversed {
        leads_to_object(view, link.left, steps)
    } else {
        holds_expected(view, expects_of(property.expected), link, steps)
    }
}

/// Whether a link of the property stands at the place, and holds what that expects.
fn holds_at<L>(view: &View<'_>, property: &Property, place: Id, steps: &mut Steps<L>) -> bool
    ensures holds { result ≡ live.passes_at (λ k. defs.is_of property.now k
        && holds (prims_of view.now) property.now k) (prims_of view.now) place }
    ensures work { steps.new ≤ steps.old + 4 }
    ensures later { steps.old ≤ steps.new }
{
    steps.tick();
    match view.primitives().get(place.place() as usize) {
        Some(link) => holds(view, property, link, steps),
        None => false,
    }
}

/// Whether the link at the place, which has an object at the end by which the property is asked, is
/// an answer on it.
fn is_answer_at<L>(view: &View<'_>, property: &Property, place: Id, steps: &mut Steps<L>) -> bool
    ensures answers { result ≡ is_answer_at (prims_of view.now) property.now place }
    ensures work { steps.new ≤ steps.old + 6 }
    ensures later { steps.old ≤ steps.new }
{
    holds_at(view, property, place, steps) && view.is_live(place, steps)
}

/// The first of these links that is an answer. None: the allowance was spent before that was known.
#[tactic(auto, using(crate::proofs::KeyLinks::first_yes, crate::proofs::KeyLinks::first_no))]
fn first_of<L>(
    view: &View<'_>,
    property: &Property,
    links: &[Id],
    whole: Budget,
    steps: &mut Steps<L>,
) -> Option<Option<Id>>
    requires begun { whole.before ≤ steps.old }
    ensures first { IfSome result (λ o. o
        ≡ defs.first (filter (is_answer_at (prims_of view.now) property.now) links.now)) }
    ensures within { steps.new ≤ max steps.old (whole.before + whole.size + 22) }
    ensures later { steps.old ≤ steps.new }
{
    for link in links {
        if whole.is_spent(steps) {
            return None;
        }
        if is_answer_at(view, property, *link, steps) {
            return Some(Some(*link));
        }
    }
    Some(None)
}

/// The first answer of a property on an object, if it has one. None: the allowance was spent before
/// that was known. Each look is counted: it takes at most 22 steps more than the allowance.
#[tactic(auto, using(crate::proofs::KeyLinks::first_answer))]
pub(crate) fn first_answer<L>(
    view: &View<'_>,
    property: &Property,
    object: Id,
    whole: Budget,
    steps: &mut Steps<L>,
) -> Option<Option<Id>>
    requires begun { whole.before ≤ steps.old }
    ensures first { IfSome result (λ o. o
        ≡ defs.first (defs.answers (prims_of view.now) property.now object)) }
    ensures within { steps.new ≤ max steps.old (whole.before + whole.size + 22) }
    ensures later { steps.old ≤ steps.new }
{
    if whole.is_spent(steps) {
        return None;
    }
    let links = view.links(asked_end(property), object, steps);
    first_of(view, property, links, whole, steps)
}
