//! Where links lead, and which facts hold.
ghost use Rattle.std.specs.Prelude.{◌≡◌, ◌&&◌, filter, length};
ghost use Rattle.std.specs.List.{list_any, range_with_len};
ghost use Rattle.std.specs.Option.{option_map_or};
ghost use Rattle.gd_base.specs.Order.{datum_eq};
ghost use Rattle.gd_base.specs.declared.datum.Datum.TheVariants as datum;
ghost use Rattle.gd_prim.specs.End.{places_with};
ghost use Rattle.gd_prim.specs.History.{prims_of};
ghost use Rattle.gd_prim.specs.Live as live;
ghost use Rattle.gd_defs.specs.Plan as plan;
ghost use Rattle.gd_defs.specs.Property as defined;
ghost use Rattle.gd_defs.specs.Write.Parts as parts;
ghost use Rattle.gd_growing.specs.State.{so_far};
ghost use Rattle.gd_growing.specs.Scan.{is_answer_at};
ghost use Rattle.gd_growing.specs.Seen.{target_view};

use crate::answers::is_answer_at;
use crate::growing::Growing;
use gd_base::datum::Datum;
use gd_base::id::Id;
use gd_base::steps::Steps;
use gd_base::text::Text;
use gd_plan::constraint::{answers_of, asked_end};
use gd_plan::expects::holds_values;
use gd_prim::live::refers;
use gd_resolve::property::Property;

/// Where a link leads. Contracts see it as the target of the definitions, `target_view`.
#[derive(Debug, PartialEq, Eq, Drop)]
pub enum Target {
    /// To an object.
    Object(Id),
    /// To a value.
    Value(Datum),
    /// To a key in a namespace.
    Key { namespace: Id, key: Text },
}

/// Whether the answers of a property in its direction are values or keys.
pub(crate) fn gives_values(property: &Property) -> bool
    ensures { result ≡ defined.holds_values (plan.answers_of property.now) }
{
    holds_values(answers_of(property))
}

/// The other end of the link at a place, if it has one.
fn far_end(growing: &Growing<'_>, property: &Property, place: Id) -> Option<Id>
    ensures { result ≡ defined.far_end (so_far growing.now) property.now place }
{
    let link = growing.primitive(place)?;
    if property.reversed {
        link.left
    } else {
        link.right
    }
}

/// The object as a datum, `Empty` where there is none.
fn object_datum(object: Option<Id>) -> Datum
    ensures { result ≡ live.object_datum object }
{
    match object {
        Some(place) => Datum::Object(place),
        None => Datum::Empty,
    }
}

/// Whether the value at a place, `Empty` past the end, is this datum.
fn value_is(growing: &Growing<'_>, place: Id, datum: &Datum) -> bool
    ensures { result ≡ datum_eq (live.value_at (so_far growing.now) place) datum.now }
{
    match growing.primitive(place) {
        Some(prim) => prim.value.is(datum),
        None => Datum::Empty.is(datum),
    }
}

/// Whether the answer that the link at a place gives is this datum.
#[tactic(auto, using(crate::proofs::Targets::gives_value, crate::proofs::Targets::gives_object))]
fn answer_is(growing: &Growing<'_>, property: &Property, place: Id, datum: &Datum) -> bool
    ensures { result ≡ datum_eq (defined.answer_datum (so_far growing.now) property.now place)
        datum.now }
{
    if gives_values(property) {
        value_is(growing, place, datum)
    } else {
        object_datum(far_end(growing, property, place)).is(datum)
    }
}

/// Whether the datum is this text.
fn is_text(held: &Datum, text: &Text) -> bool
    ensures { result ≡ datum_eq held.now (datum.Text text.now) }
{
    match held {
        Datum::Text(held) => held.cmp(text).is_eq(),
        _ => false,
    }
}

/// Whether the answer that the link at a place gives is this text.
#[tactic(auto, using(crate::proofs::Targets::gives_value, crate::proofs::Targets::gives_no_text))]
fn answer_is_text(growing: &Growing<'_>, property: &Property, place: Id, text: &Text) -> bool
    ensures { result ≡ datum_eq (defined.answer_datum (so_far growing.now) property.now place)
        (datum.Text text.now) }
{
    gives_values(property) && value_is_text(growing, place, text)
}

/// Whether the value at a place is this text.
fn value_is_text(growing: &Growing<'_>, place: Id, text: &Text) -> bool
    ensures { result ≡ datum_eq (live.value_at (so_far growing.now) place) (datum.Text text.now) }
{
    match growing.primitive(place) {
        Some(prim) => is_text(&prim.value, text),
        None => false,
    }
}

/// Whether the link at a place has this object at its right end.
fn leads_right(growing: &Growing<'_>, place: Id, object: Id) -> bool
    ensures { result ≡ live.passes_at (λ q. live.refers q.right object) (so_far growing.now) place }
{
    match growing.primitive(place) {
        Some(prim) => refers(prim.right, object),
        None => false,
    }
}

/// Whether the link at a place, as an answer of the property, leads to the target: to the object,
/// to the value, or to the key, with the namespace at its right end. It takes no memory.
pub fn is_target(growing: &Growing<'_>, property: &Property, target: &Target, place: Id) -> bool
    ensures { result ≡ parts.is_target (so_far growing.now) property.now (target_view target.now)
        place }
{
    match target {
        Target::Object(object) => answer_is(growing, property, place, &Datum::Object(*object)),
        Target::Value(value) => answer_is(growing, property, place, value),
        Target::Key { namespace, key } => {
            answer_is_text(growing, property, place, key) && leads_right(growing, place, *namespace)
        }
    }
}

/// Whether what stands at a place leads to the target, and is an answer of the property on the
/// object. What costs more, whether it is a live answer, is asked last.
pub(crate) fn leads_at(
    growing: &Growing<'_>,
    property: &Property,
    object: Id,
    target: &Target,
    place: Id,
) -> bool
    ensures { result ≡ (parts.is_target (so_far growing.now) property.now (target_view target.now)
        place && is_answer_at (so_far growing.now) property.now object place) }
{
    is_target(growing, property, target, place) && is_answer_at(growing, property, object, place)
}

/// Whether an answer below the dateline leads to the target.
fn some_below(growing: &Growing<'_>, property: &Property, object: Id, target: &Target) -> bool
    ensures { result ≡ list_any (parts.is_target (so_far growing.now) property.now
        (target_view target.now))
        (filter (is_answer_at (so_far growing.now) property.now object)
        (places_with (plan.asked_end property.now) object (prims_of growing.now.batches))) }
{
    let mut steps: Steps<()> = Steps::new();
    let end = asked_end(property);
    let below = growing.below();
    for k in 0..below.list_len(end, object, &mut steps) {
        let place = below.list_at(end, object, k, &mut steps);
        if leads_at(growing, property, object, target, place) {
            return true;
        }
    }
    false
}

/// Whether an answer that the write has made leads to the target.
fn some_made(growing: &Growing<'_>, property: &Property, object: Id, target: &Target) -> bool
    ensures { result ≡ list_any (parts.is_target (so_far growing.now) property.now
        (target_view target.now))
        (filter (is_answer_at (so_far growing.now) property.now object)
        (range_with_len (length (prims_of growing.now.batches)) (length growing.now.made))) }
{
    for place in growing.first_made()..growing.end().place() {
        if leads_at(growing, property, object, target, Id(place)) {
            return true;
        }
    }
    false
}

/// Whether the fact holds: some answer of the property on the object leads to the target. It takes
/// no memory.
pub fn has_fact(growing: &Growing<'_>, property: &Property, object: Id, target: &Target) -> bool
    ensures { result ≡ parts.has_fact (so_far growing.now) property.now object
        (target_view target.now) }
{
    some_below(growing, property, object, target) || some_made(growing, property, object, target)
}
