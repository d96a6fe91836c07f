//! Tests as constraints of a template.
ghost use Rattle.std.specs.Prelude.{◌≡◌, ◌++◌, ◌∷◌, [], map, option_map, Some, None, IfOk, OnOk};
ghost use Rattle.std.specs.Prelude.{if◌then◌else◌};
ghost use Rattle.std.specs.Option.{option_to_list};
ghost use Rattle.gd_defs.specs.Plan as plan;
ghost use Rattle.gd_defs.specs.Data.{equals, differs, is_one_of};
ghost use Rattle.gd_defs.specs.Template as template;
ghost use Rattle.gd_datum.specs.Values.{kind_of};
ghost use Rattle.gd_template.specs.Seen.{constraint_of};
ghost use Rattle.gd_plan.specs.Seen.{expects_view, test_view};
ghost use Rattle.gd_plan.specs.Planned.{asks_kind, value_constraint, place_of};

use crate::expects::{Expects, expects_of};
use crate::test::Test;
use gd_base::datum::{Datum, Precision};
use gd_base::id::Id;
use gd_base::memory::Memory;
use gd_base::text::Text;
use gd_datum::value::Kind;
use gd_prim::End;
use gd_resolve::property::Property;
use gd_template::constraint::Constraint;
use std::alloc::Global;

/// The first millisecond of the year 0000.
const FIRST_MOMENT: i64 = -62_167_219_200_000;

/// The least datum of a kind.
fn least(alloc: Global, kind: Kind) -> Result<Datum, Memory>
    ensures { IfOk result (λ datum. datum ≡ plan.least (kind_of kind)) }
{
    match kind {
        Kind::Text => Ok(Datum::Text(Text::of(alloc, "")?)),
        Kind::Int => Ok(Datum::Int(i64::MIN)),
        Kind::Boolean => Ok(Datum::Bool(false)),
        Kind::Datetime => Ok(Datum::Moment {
            ms: FIRST_MOMENT,
            precision: Precision::Year,
        }),
    }
}

/// The constraint of a value of a kind: it is not below the least one. `Memory`: an allocation was
/// refused.
pub fn of_kind(alloc: Global, kind: Kind) -> Result<Constraint, Memory>
    ensures { IfOk result (λ constraint. constraint_of constraint ≡ plan.of_kind (kind_of kind)) }
{
    Ok(Constraint::Above {
        value: least(alloc, kind)?,
        or_equal: true,
    })
}

fn push(constraints: &mut Vec<Constraint>, constraint: Constraint) -> Result<(), Memory>
    ensures { OnOk result (constraints.new.items ≡ constraints.old.items ++ constraint ∷ []) }
{
    constraints.push(constraint)?;
    Ok(())
}

/// Puts the constraint of the language of texts behind others, where those of one are asked for.
fn push_language(constraints: &mut Vec<Constraint>, language: Option<Id>) -> Result<(), Memory>
    ensures { OnOk result (map constraint_of constraints.new.items
        ≡ map constraint_of constraints.old.items ++ plan.language_test language) }
{
    match language {
        Some(language) => push(constraints, Constraint::LangIs(language)),
        None => Ok(()),
    }
}

/// The constraints of the links of a property: its typ, and its language where that is asked for.
/// `Memory`: an allocation was refused.
pub fn links_of(alloc: Global, property: &Property) -> Result<Vec<Constraint>, Memory>
    ensures { IfOk result (λ cs. map constraint_of cs.items ≡ plan.property_tests property.now) }
{
    let mut constraints = vec![in alloc; Constraint::EndIs(End::Typ, property.stored)]?;
    push_language(&mut constraints, property.language)?;
    Ok(constraints)
}

/// Puts what a test asks of the language of a text behind other constraints. `Memory`: an
/// allocation was refused.
pub(crate) fn push_lang_test(constraints: &mut Vec<Constraint>, test: &Test) -> Result<(), Memory>
    ensures { OnOk result (map constraint_of constraints.new.items
        ≡ map constraint_of constraints.old.items ++ plan.lang_tests (test_view test.now)) }
{
    match test {
        Test::Equals(Datum::Object(language)) => push(constraints, Constraint::LangIs(*language)),
        _ => Ok(()),
    }
}

/// Whether a test of a value leaves open of which kind that is.
fn asks_kind(test: &Test) -> bool
    ensures { result ≡ asks_kind (test_view test.now) }
{
    matches!(test, Test::Anything | Test::Differs(_))
}

/// Data again, in order.
fn copies(alloc: Global, data: &[Datum]) -> Result<Vec<Datum>, Memory>
    ensures { IfOk result (λ copies. copies.items ≡ «data».now) }
{
    let mut copies = Vec::with_capacity(alloc, data.len())?;
    for datum in data {
        copies.push(datum.copy()?)?;
    }
    Ok(copies)
}

/// What a test of a value asks beside its kind.
fn value_constraint(alloc: Global, test: &Test) -> Result<Option<Constraint>, Memory>
    ensures { IfOk result (λ c. option_map constraint_of c
        ≡ value_constraint (test_view test.now)) }
{
    match test {
        Test::Anything => Ok(None),
        Test::Equals(value) => Ok(Some(Constraint::ValueIs(value.copy()?))),
        Test::Differs(value) => Ok(Some(Constraint::ValueNot(value.copy()?))),
        Test::OneOf(values) => among_values(alloc, values),
        Test::Below { value, or_equal } => below(value, *or_equal),
        Test::Above { value, or_equal } => above(value, *or_equal),
        Test::Matches(pattern) => Ok(Some(Constraint::Matches(pattern.copy()?))),
    }
}

/// The constraint that a value is one of these.
fn among_values(alloc: Global, values: &[Datum]) -> Result<Option<Constraint>, Memory>
    ensures { IfOk result (λ c. option_map constraint_of c ≡ Some (template.value_in values.now)) }
{
    Ok(Some(Constraint::ValueIn(copies(alloc, values)?)))
}

/// The constraint that a value, or an object's moment, is below this one.
fn below(value: &Datum, or_equal: bool) -> Result<Option<Constraint>, Memory>
    ensures { IfOk result (λ c. option_map constraint_of c
        ≡ Some (template.below value.now or_equal)) }
{
    Ok(Some(Constraint::Below {
        value: value.copy()?,
        or_equal,
    }))
}

/// The same above this one.
fn above(value: &Datum, or_equal: bool) -> Result<Option<Constraint>, Memory>
    ensures { IfOk result (λ c. option_map constraint_of c
        ≡ Some (template.above value.now or_equal)) }
{
    Ok(Some(Constraint::Above {
        value: value.copy()?,
        or_equal,
    }))
}

/// Puts a constraint behind others, if there is one.
pub(crate) fn push_some(
    constraints: &mut Vec<Constraint>,
    more: Option<Constraint>,
) -> Result<(), Memory>
    ensures { OnOk result (map constraint_of constraints.new.items
        ≡ map constraint_of constraints.old.items ++ option_to_list
        (option_map constraint_of more)) }
{
    match more {
        Some(constraint) => push(constraints, constraint),
        None => Ok(()),
    }
}

/// Puts the constraint that a value is of a kind behind others, if it is asked for.
fn push_kind(
    alloc: Global,
    constraints: &mut Vec<Constraint>,
    kind: Kind,
    asked: bool,
) -> Result<(), Memory>
    ensures { OnOk result (map constraint_of constraints.new.items
        ≡ map constraint_of constraints.old.items ++ option_to_list
        (if asked then Some (plan.of_kind (kind_of kind)) else None)) }
{
    if asked {
        let of_kind = of_kind(alloc, kind)?;
        push(constraints, of_kind)
    } else {
        Ok(())
    }
}

/// Puts what a test of values of a kind asks of a link behind other constraints. `Memory`: an
/// allocation was refused.
#[tactic(auto, using(crate::proofs::Planned::value_parts))]
pub fn push_value_test(
    alloc: Global,
    constraints: &mut Vec<Constraint>,
    kind: Kind,
    test: &Test,
) -> Result<(), Memory>
    ensures { OnOk result (map constraint_of constraints.new.items
        ≡ map constraint_of constraints.old.items ++ plan.value_test (kind_of kind)
        (test_view test.now)) }
{
    push_kind(alloc, constraints, kind, asks_kind(test))?;
    let more = value_constraint(alloc, test)?;
    push_some(constraints, more)
}

/// The end of a link by which a property is asked. It takes no memory.
pub fn asked_end(property: &Property) -> End
    ensures { result ≡ plan.asked_end property.now }
{
    if property.reversed {
        End::Right
    } else {
        End::Left
    }
}

/// The end of a link at which its answer stands. It takes no memory.
pub fn answer_end(property: &Property) -> End
    ensures { result ≡ plan.answer_end property.now }
{
    if property.reversed {
        End::Left
    } else {
        End::Right
    }
}

/// What the answers of a property are in its direction: backwards they are plain objects. It takes
/// no memory.
pub fn answers_of(property: &Property) -> Expects
    ensures { expects_view result ≡ plan.answers_of property.now }
{
    if property.reversed {
        Expects::PlainObject
    } else {
        expects_of(property.expected)
    }
}

/// The place of the object that a datum is.
fn place_of(datum: &Datum) -> Option<Id>
    ensures { result ≡ place_of datum.now }
{
    match datum {
        Datum::Object(place) => Some(*place),
        _ => None,
    }
}

fn push_place(places: &mut Vec<Id>, datum: &Datum) -> Result<(), Memory>
    ensures { OnOk result (places.new.items ≡ places.old.items ++ option_to_list
        (place_of datum.now)) }
{
    if let Some(place) = place_of(datum) {
        places.push(place)?;
    }
    Ok(())
}

/// The places of the objects among data.
fn places_of(alloc: Global, data: &[Datum]) -> Result<Vec<Id>, Memory>
    ensures { IfOk result (λ places. places.items ≡ plan.places_of «data».now) }
{
    let mut places = Vec::new(alloc);
    for datum in data {
        push_place(&mut places, datum)?;
    }
    Ok(places)
}

/// The constraint that an object is the one that a datum is; no object is where it is none.
fn same_place(alloc: Global, datum: &Datum) -> Result<Option<Constraint>, Memory>
    ensures { IfOk result (λ c. option_to_list (option_map constraint_of c)
        ≡ plan.object_test (equals datum.now)) }
{
    let mut places = Vec::new(alloc);
    push_place(&mut places, datum)?;
    Ok(Some(Constraint::PlaceIn(places)))
}

/// The constraint that an object is one of those that data are.
fn among_places(alloc: Global, data: &[Datum]) -> Result<Option<Constraint>, Memory>
    ensures { IfOk result (λ c. option_to_list (option_map constraint_of c)
        ≡ plan.object_test (is_one_of «data».now)) }
{
    Ok(Some(Constraint::PlaceIn(places_of(alloc, data)?)))
}

/// What a test asks of an object: of its identity, or of its timestamp; nothing where no object can
/// differ by it. `Memory`: an allocation was refused.
pub fn object_constraint(alloc: Global, test: &Test) -> Result<Option<Constraint>, Memory>
    ensures { IfOk result (λ c. option_to_list (option_map constraint_of c)
        ≡ plan.object_test (test_view test.now)) }
{
    match test {
        Test::Anything | Test::Matches(_) => Ok(None),
        Test::Equals(value) => same_place(alloc, value),
        Test::Differs(value) => Ok(other_place(value)),
        Test::OneOf(values) => among_places(alloc, values),
        Test::Below { value, or_equal } => below(value, *or_equal),
        Test::Above { value, or_equal } => above(value, *or_equal),
    }
}

/// The constraint that an object is not the one that a datum is; none where it is no object.
fn other_place(datum: &Datum) -> Option<Constraint>
    ensures { option_to_list (option_map constraint_of result)
        ≡ plan.object_test (differs datum.now) }
{
    match datum {
        Datum::Object(place) => Some(Constraint::PlaceNot(*place)),
        _ => None,
    }
}
