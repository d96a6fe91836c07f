//! The words of members: what is computed, and which property is asked for.
ghost use Rattle.std.specs.Prelude.{◌≡◌, ◌≤◌, ◌+◌, ◌*◌, Ok, Some, IfOk, IsOk, map};
ghost use Rattle.std.specs.Prelude.{option_map, codes};
ghost use Rattle.std.specs.Prelude.{if◌then◌else◌};
ghost use Rattle.gd_base.specs.Counts.{Rose};
ghost use Rattle.gd_prim.specs.History.{prims_of};
ghost use Rattle.gd_defs.specs.Asked as defs;
ghost use Rattle.gd_defs.specs.Cost.{said_of};
ghost use Rattle.gd_defs.specs.Property as property;
ghost use Rattle.gd_defs.specs.Query as query;
ghost use Rattle.gd_json.specs.View.{view as json_of};
ghost use Rattle.gd_tree.specs.Look.{item_count};
ghost use Rattle.gd_mql.specs.Names.{operator_view, name_view};
ghost use Rattle.gd_compile.specs.Fault.{Finds};
ghost use Rattle.gd_compile.specs.Looks.{context_steps, member_steps, own_steps, turned_steps};
ghost use Rattle.gd_compile.specs.Spoken.{language_steps, object_named};
ghost use Rattle.gd_plan.specs.Seen.{expects_view, test_view};
ghost use Rattle.gd_plan.specs.Seen.{own_view};

use crate::fault::{Code, Unknown, bad, no_property};
use crate::operand::place_named;
use crate::test::{allows, test_of};
use gd_base::datum::Datum;
use gd_base::id::Id;
use gd_base::steps::Steps;
use gd_datum::value::Kind;
use gd_json::value::Json;
use gd_mql::name::{Name, Operator};
use gd_plan::asked::Own;
use gd_plan::expects::{Expects, expects_of, holds_values};
use gd_plan::test::Test;
use gd_plan::{Named, Property, View, expected_type, is_language, named_property};
use std::alloc::Global;

/// Whether the word asks for the id: `id`, also as a path below `/type/object`. It takes no memory.
pub fn is_id(word: &str) -> bool
    ensures { result ≡ query.is_word (codes "id") word.now }
{
    word == "id" || word == "/type/object/id"
}

pub(crate) fn is_guid(word: &str) -> bool
    ensures { result ≡ query.is_word (codes "guid") word.now }
{
    word == "guid" || word == "/type/object/guid"
}

pub(crate) fn is_timestamp(word: &str) -> bool
    ensures { result ≡ query.is_word (codes "timestamp") word.now }
{
    word == "timestamp" || word == "/type/object/timestamp"
}

pub(crate) fn is_link(word: &str) -> bool
    ensures { result ≡ query.is_link word.now }
{
    word == "link"
}

/// What a word tells by itself, if it is computed: `id`, `guid` and `timestamp`, also as a path
/// below `/type/object`, and `link`. It takes no memory.
pub fn own_of(word: &str) -> Option<Own>
    ensures { option_map own_view result ≡ defs.own_of word.now }
{
    if is_id(word) {
        Some(Own::Id)
    } else if is_guid(word) {
        Some(Own::Guid)
    } else if is_timestamp(word) {
        Some(Own::Timestamp)
    } else if is_link(word) {
        Some(Own::Link)
    } else {
        None
    }
}

/// What a computed word expects of its operand: a moment, or the id of an object. It takes no
/// memory.
pub fn own_expects(own: Own) -> Expects
    ensures { expects_view result ≡ defs.own_expects (own_view own) }
{
    match own {
        Own::Timestamp => Expects::Value(Kind::Datetime),
        _ => Expects::SystemObject,
    }
}

fn timestamp_takes(operator: Operator) -> bool
    ensures { result ≡ defs.takes defs.its_timestamp (operator_view operator) }
{
    matches!(
        operator,
        Operator::Below | Operator::AtMost | Operator::Above | Operator::AtLeast
    )
}

/// Whether what a link leads to takes this operator: none at all but an operand by itself.
fn reference_takes(operator: Operator) -> bool
    ensures namespace { result ≡ defs.takes defs.its_namespace (operator_view operator) }
    ensures language { result ≡ defs.takes defs.its_lang (operator_view operator) }
{
    matches!(operator, Operator::Absent)
}

/// Whether a computed word takes this operator: `link` none, the namespace of a key and the
/// language of a text no operator at all but an operand by itself, the timestamp the comparisons,
/// and the others what objects allow. It takes no memory.
pub fn takes(own: Own, operator: Operator) -> bool
    ensures { result ≡ defs.takes (own_view own) (operator_view operator) }
{
    match own {
        Own::Link => false,
        Own::Timestamp => timestamp_takes(operator),
        Own::Namespace | Own::Lang => reference_takes(operator),
        Own::Id | Own::Guid | Own::Value => allows(Expects::SystemObject, operator),
    }
}

/// The object that a test asks for, if it asks for one alone.
fn asked_object(test: &Test) -> Option<Id>
    ensures { result ≡ defs.asked_object (test_view test.now) }
{
    match test {
        Test::Equals(Datum::Object(object)) => Some(*object),
        _ => None,
    }
}

/// Whether a test asks for a language. It takes no memory.
fn names_language<L>(view: &View<'_>, test: &Test, steps: &mut Steps<L>) -> bool
    ensures language { result ≡ defs.names_language (prims_of view.now) (test_view test.now) }
    ensures work { steps.new ≤ steps.old + 22 + 4 * said_of (prims_of view.now)
        (defs.asked_object (test_view test.now)) }
    ensures later { steps.old ≤ steps.new }
{
    match asked_object(test) {
        Some(object) => is_language(view, object, steps),
        None => false,
    }
}

/// What a computed word asks of its test: `lang` that it names a language, the others nothing.
fn told<L>(
    alloc: Global,
    view: &View<'_>,
    path: &[&str],
    own: Own,
    test: Test,
    steps: &mut Steps<L>,
) -> Result<Test, Unknown>
    ensures test { Finds test_view (defs.told (prims_of view.now) (map (λ name. name.now) path.now)
        (own_view own) (test_view test)) result }
    ensures work { steps.new ≤ steps.old + language_steps (prims_of view.now) (own_view own)
        (defs.asked_object (test_view test)) }
    ensures later { steps.old ≤ steps.new }
{
    match own {
        Own::Lang => {
            if names_language(view, &test, steps) {
                Ok(test)
            } else {
                Err(bad(alloc, Code::BadLang, path))
            }
        }
        Own::Id | Own::Guid | Own::Timestamp | Own::Link | Own::Value | Own::Namespace => Ok(test),
    }
}

/// The test that an operator makes with its operand on a computed word. `BadQuery` with
/// `BadOperator` and the path: the word does not take the operator; else what `test_of` says, where
/// objects are named by ids and `timestamp` is compared with moments; of `lang` then `BadQuery`
/// with `BadLang` and the path: the object is no language. `Memory`: an allocation was refused. It
/// looks at no more than 500 things for each operand, and of `lang` at what is said of the object.
pub fn own_test<L>(
    alloc: Global,
    view: &View<'_>,
    path: &[&str],
    own: Own,
    operator: Operator,
    json: &Json,
    steps: &mut Steps<L>,
) -> Result<Test, Unknown>
    ensures test { Finds test_view (defs.own_test (prims_of view.now)
        (map (λ name. name.now) path.now) (own_view own) (operator_view operator)
        (json_of json.now)) result }
    ensures looks { steps.new ≤ steps.old + own_steps (prims_of view.now) (own_view own)
        (operator_view operator) (json_of json.now) }
    ensures work { steps.new ≤ steps.old + 500 + 500 * item_count
        (json_of json.now) + language_steps (prims_of view.now) (own_view own)
        (object_named (prims_of view.now) (json_of json.now)) }
    ensures later { steps.old ≤ steps.new }
{
    if takes(own, operator) {
        let test = test_of(alloc, view, own_expects(own), path, operator, json, steps)?;
        told(alloc, view, path, own, test, steps)
    } else {
        Err(bad(alloc, Code::BadOperator, path))
    }
}

/// The context type of a clause: what the text of its member `type` names, if it has one, and else
/// the type that the property expects that leads to it. `NoSuchId`: the text is no id or names no
/// object; with the text. `Memory`: an allocation was refused. It looks at no more than 500 things.
pub fn context_of<L>(
    alloc: Global,
    view: &View<'_>,
    above: Option<Id>,
    type_text: Option<&str>,
    steps: &mut Steps<L>,
) -> Result<Option<Id>, Unknown>
    ensures context { Finds (λ context. context)
        (defs.context_of (prims_of view.now) above (option_map (λ text. text.now) type_text.entry))
        result }
    ensures looks { steps.new ≤ steps.old + context_steps
        (option_map (λ text. text.now) type_text.entry) }
    ensures work { steps.new ≤ steps.old + 500 }
    ensures later { steps.old ≤ steps.new }
{
    match type_text {
        Some(id) => Ok(Some(place_named(alloc, view, id, steps)?)),
        None => Ok(above),
    }
}

/// Whether the object states a property of values, and what is asked for is reversed.
fn is_reversed_value<L>(view: &View<'_>, named: &Named, steps: &mut Steps<L>) -> bool
    ensures reversed { result ≡ property.is_reversed_value (prims_of view.now) named.now.object
        named.now.property }
    ensures looks { steps.new ≤ steps.old + turned_steps (prims_of view.now)
        (Some named.now.object) (Some named.now.property) }
    ensures later { steps.old ≤ steps.new }
{
    named.property.reversed && holds_values(expects_of(expected_type(view, named.object, steps)))
}

/// The property that a member asks for in a context, the type of the objects that are asked, if one
/// is known; turned where `!` stands before its word. `path` has the names that lead to the member
/// from the root down, its own among them. `NoSuchProperty` with the path: the word leads to no
/// property. `BadQuery` with `ValueReversed` and the path: the property holds values, and they are
/// asked for backwards. `Memory`: an allocation was refused.
pub fn member_property<L>(
    alloc: Global,
    view: &View<'_>,
    context: Option<Id>,
    path: &[&str],
    name: &Name<'_>,
    steps: &mut Steps<L>,
) -> Result<Property, Unknown>
    ensures property { Finds (λ p. p)
        (defs.member_property (prims_of view.now) context (map (λ name. name.now) path.now)
        (name_view name.now)) result }

    // It is the property that the word asks for.
    ensures named { IfOk result (λ p. property.property (prims_of view.now) context
        name.now.reversed name.now.word.now ≡ Some p) }
    ensures looks { steps.new ≤ steps.old + member_steps (prims_of view.now) context
        name.now.reversed name.now.word.now }
    ensures later { steps.old ≤ steps.new }
    ensures counted { IsOk result → Rose steps.old steps.new }
{
    match named_property(alloc, view, context, name.word, name.reversed, steps)? {
        Some(named) => unless_reversed(alloc, view, path, &named, steps),
        None => Err(no_property(alloc, path)),
    }
}

/// The property of a named one, unless it holds values that are asked for backwards.
fn unless_reversed<L>(
    alloc: Global,
    view: &View<'_>,
    path: &[&str],
    named: &Named,
    steps: &mut Steps<L>,
) -> Result<Property, Unknown>
    ensures property { Finds (λ p. p)
        (if property.is_reversed_value (prims_of view.now) named.now.object named.now.property
        then defs.bad query.value_reversed (map (λ name. name.now) path.now) else Ok
        named.now.property) result }
    ensures same { IfOk result (λ p. p ≡ named.now.property) }
    ensures looks { steps.new ≤ steps.old + turned_steps (prims_of view.now)
        (Some named.now.object) (Some named.now.property) }
    ensures later { steps.old ≤ steps.new }
{
    if is_reversed_value(view, named, steps) {
        Err(bad(alloc, Code::ValueReversed, path))
    } else {
        Ok(named.property)
    }
}
