//! The objects on which a fact holds, by the links that state it.
ghost use Rattle.std.specs.Prelude.{◌≡◌, false, IfOk};
ghost use Rattle.gd_prim.specs.End.{places_with};
ghost use Rattle.gd_prim.specs.History.{prims_of};
ghost use Rattle.gd_prim.specs.Live as live;
ghost use Rattle.gd_prim.specs.declared.End.TheVariants.{Typ};
ghost use Rattle.gd_store.specs.Valued.{has_value};
ghost use Rattle.gd_defs.specs.Plan as plan;
ghost use Rattle.gd_defs.specs.Property as defined;
ghost use Rattle.gd_growing.specs.State.{so_far};
ghost use Rattle.gd_growing.specs.Scan.{holder_at, datum_of, far_side};
ghost use Rattle.gd_growing.specs.Facts.{Holds};
ghost use Rattle.gd_growing.specs.Seen.{target_view};

use crate::growing::Growing;
use crate::target::{Target, gives_values, leads_at};
use gd_base::datum::Datum;
use gd_base::id::Id;
use gd_base::memory::Memory;
use gd_base::steps::Steps;
use gd_prim::End;
use gd_resolve::property::Property;

/// The object at the end of the link at a place by which the property is asked, if one is there.
fn near_end(growing: &Growing<'_>, property: &Property, place: Id) -> Option<Id>
    ensures { result ≡ live.end_at (defined.near_of property.now) (so_far growing.now) place }
{
    let link = growing.primitive(place)?;
    if property.reversed {
        link.right
    } else {
        link.left
    }
}

/// The object of which the link at a place states the fact: the one by which the property is asked,
/// where the link is an answer on it that leads to the target. It takes no memory.
pub fn holder_at(
    growing: &Growing<'_>,
    property: &Property,
    target: &Target,
    place: Id,
) -> Option<Id>
    ensures { result ≡ holder_at (so_far growing.now) property.now (target_view target.now) place }
{
    let object = near_end(growing, property, place)?;
    if leads_at(growing, property, object, target, place) {
        Some(object)
    } else {
        None
    }
}

/// The end of a link at which the answer stands, where that is an object.
fn far_side(property: &Property) -> End
    ensures { result ≡ far_side property.now }
{
    if property.reversed {
        End::Left
    } else {
        End::Right
    }
}

/// The links below the dateline of the property, dead ones among them.
fn property_links<'a>(growing: &Growing<'a>, property: &Property) -> &'a [Id]
    ensures { result.now ≡ places_with Typ property.now.stored (prims_of growing.now.batches) }
{
    let mut steps: Steps<()> = Steps::new();
    growing.below().links(End::Typ, property.stored, &mut steps)
}

/// The links below the dateline with the object at the end where the property's answers stand, dead
/// ones among them.
fn object_links<'a>(growing: &Growing<'a>, property: &Property, object: Id) -> &'a [Id]
    ensures { result.now ≡ places_with (far_side property.now) object
        (prims_of growing.now.batches) }
{
    let mut steps: Steps<()> = Steps::new();
    growing
        .below()
        .links(far_side(property), object, &mut steps)
}

/// The places below the dateline that have the value.
fn value_links<'a>(growing: &Growing<'a>, value: &Datum) -> &'a [Id]
    ensures { result.now ≡ live.places_where (has_value value.now) (prims_of growing.now.batches) }
{
    let mut steps: Steps<()> = Steps::new();
    let below = growing.below();
    match below.number_of(value, &mut steps) {
        Some(number) => below.value_places(number, &mut steps),
        None => &[],
    }
}

/// The places below the dateline that have the value by which links lead to the target. `Memory`:
/// an allocation was refused.
fn datum_links<'a>(growing: &Growing<'a>, target: &Target) -> Result<&'a [Id], Memory>
    ensures { IfOk result (λ links. links.now
        ≡ live.places_where (has_value (datum_of (target_view target.now)))
        (prims_of growing.now.batches)) }
{
    match target {
        Target::Object(object) => Ok(value_links(growing, &Datum::Object(*object))),
        Target::Value(value) => Ok(value_links(growing, value)),
        Target::Key { key, .. } => Ok(value_links(growing, &Datum::Text(key.copy()?))),
    }
}

/// Links below the dateline that lead to the target, where the property's answers are objects:
/// those with the object at their other end, or for another target all of the property.
#[tactic(auto, using(crate::proofs::Held::of_property, crate::proofs::Held::of_object))]
fn links_to<'a>(growing: &Growing<'a>, property: &Property, target: &Target) -> &'a [Id]
    requires objects { defined.holds_values (plan.answers_of property.now) ≡ false }
    ensures { Holds growing.now property.now (target_view target.now) result.now }
{
    match target {
        Target::Object(object) => object_links(growing, property, *object),
        Target::Value(_) | Target::Key { .. } => property_links(growing, property),
    }
}

/// Links below the dateline that lead to the target. `Memory`: an allocation was refused.
#[tactic(auto, using(crate::proofs::Held::of_value))]
fn leading_links<'a>(
    growing: &Growing<'a>,
    property: &Property,
    target: &Target,
) -> Result<&'a [Id], Memory>
    ensures { IfOk result (λ links. Holds growing.now property.now (target_view target.now)
        links.now) }
{
    if gives_values(property) {
        datum_links(growing, target)
    } else {
        Ok(links_to(growing, property, target))
    }
}

/// Places below the dateline, in rising order, among which are all links that state the fact of an
/// object: those that lead to the target, or those of the property where these are fewer. Others
/// may stand among them. `Memory`: an allocation was refused.
#[tactic(auto, using(crate::proofs::Held::of_property))]
pub fn fact_links<'a>(
    growing: &Growing<'a>,
    property: &Property,
    target: &Target,
) -> Result<&'a [Id], Memory>
    ensures { IfOk result (λ links. Holds growing.now property.now (target_view target.now)
        links.now) }
{
    let leading = leading_links(growing, property, target)?;
    let typed = property_links(growing, property);
    if typed.len() < leading.len() {
        Ok(typed)
    } else {
        Ok(leading)
    }
}
