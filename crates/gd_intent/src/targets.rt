//! Where the links of a write lead, looked up.
ghost use Rattle.std.specs.Prelude.{◌≡◌, ◌≢◌, ◌≤◌, ◌++◌, ◌∷◌, [], Ok, codes, map, option_map};
ghost use Rattle.std.specs.Prelude.{if◌then◌else◌};
ghost use Rattle.std.specs.Option.{ok_or};
ghost use Rattle.gd_tree.specs.Json.{text as json_text};
ghost use Rattle.gd_prim.specs.History.{prims_of};
ghost use Rattle.gd_defs.specs.Ids as ids;
ghost use Rattle.gd_defs.specs.Data as data_kinds;
ghost use Rattle.gd_defs.specs.Query.{bad_value};
ghost use Rattle.gd_defs.specs.Property as property;
ghost use Rattle.gd_defs.specs.Asked as asked;
ghost use Rattle.gd_defs.specs.Change as change;
ghost use Rattle.gd_defs.specs.Write.Parts as parts;
ghost use Rattle.gd_json.specs.View.{view as json_of};
ghost use Rattle.gd_mql.specs.Changes.{target_view as target_spelled};
ghost use Rattle.gd_compile.specs.PassedOn.{expects_view};
ghost use Rattle.gd_growing.specs.Seen.{target_view};
ghost use Rattle.gd_compile.specs.declared.fault.Unknown.TheVariants as fault;
ghost use Rattle.gd_compile.specs.Fault.{Finds, code_view, unknown_of};
ghost use Rattle.gd_intent.specs.Walk.{operand_target};

use gd_base::datum::Datum;
use gd_base::steps::Steps;
use gd_base::text::Text;
use gd_compile::fault::{Code, Unknown, bad};
use gd_compile::operand::{operand_datum, place_named};
use gd_compile::path::longer;
use gd_compile::{Expects, holds_values};
use gd_growing::target::Target;
use gd_json::value::Json;
use gd_mql::ids::{is_id, is_key};
use gd_mql::write_parts::Target as SpelledTarget;
use gd_store::view::View;
use std::alloc::Global;

/// A datum as a target.
fn datum_target(datum: Datum) -> Target
    ensures { target_view result ≡ parts.datum_target datum }
{
    match datum {
        Datum::Object(object) => Target::Object(object),
        value => Target::Value(value),
    }
}

/// The refusal of a code at the member of this name below a path.
pub(crate) fn bad_below<'a>(alloc: Global, code: Code, path: &[&'a str], name: &'a str) -> Unknown
    ensures { result ≢ fault.Memory → unknown_of result ≡ asked.bad_query (code_view code)
        (map (λ name. name.now) path.entry.now ++ name.now ∷ []) }
{
    match longer(alloc, path, name) {
        Ok(below) => bad(alloc, code, &below),
        Err(_) => Unknown::Memory,
    }
}

/// The target that an operand is.
fn operand_target<L>(
    alloc: Global,
    view: &View<'_>,
    path: &[&str],
    expects: Expects,
    json: &Json,
    steps: &mut Steps<L>,
) -> Result<Target, Unknown>
    ensures target { Finds target_view
        (operand_target (prims_of view.now) (expects_view expects) (map (λ name. name.now) path.now)
        (json_of json.now)) result }
    ensures later { steps.old ≤ steps.new }
{
    let datum = operand_datum(alloc, view, expects, path, json, steps)?;
    Ok(datum_target(datum))
}

/// The object that a text names, which has the form of an id.
fn named_target<L>(
    alloc: Global,
    view: &View<'_>,
    path: &[&str],
    id: &str,
    steps: &mut Steps<L>,
) -> Result<Target, Unknown>
    ensures target { Finds target_view
        (parts.literal_target (prims_of view.now) (map (λ name. name.now) path.now)
        property.an_object_of_system (json_text id.now)) result }
    ensures later { steps.old ≤ steps.new }
{
    if is_id(id) {
        Ok(Target::Object(place_named(alloc, view, id, steps)?))
    } else {
        Err(bad(alloc, Code::BadValue, path))
    }
}

/// The object of the system that a literal names.
fn system_target<L>(
    alloc: Global,
    view: &View<'_>,
    path: &[&str],
    json: &Json,
    steps: &mut Steps<L>,
) -> Result<Target, Unknown>
    ensures target { Finds target_view
        (parts.literal_target (prims_of view.now) (map (λ name. name.now) path.now)
        property.an_object_of_system (json_of json.now)) result }
    ensures later { steps.old ≤ steps.new }
{
    match json {
        Json::Text(id) => named_target(alloc, view, path, id.as_str(), steps),
        _ => Err(bad(alloc, Code::BadValue, path)),
    }
}

/// The target of a literal where answers are of this sort: a value of the kind, a key without a
/// namespace, or the object of the system that an id names below the dateline. `path` has the names
/// that lead to the literal from the root down. `NoSuchId`: an object of the system is wanted, and
/// the id names none. `BadQuery` with `BadValue` and the path: the literal is none of these, or
/// other objects are wanted, which no literal names. `Memory`: an allocation was refused.
pub fn literal_target<L>(
    alloc: Global,
    view: &View<'_>,
    path: &[&str],
    expects: Expects,
    json: &Json,
    steps: &mut Steps<L>,
) -> Result<Target, Unknown>
    ensures target { Finds target_view
        (parts.literal_target (prims_of view.now) (map (λ name. name.now) path.now)
        (expects_view expects) (json_of json.now)) result }
    ensures later { steps.old ≤ steps.new }
{
    match expects {
        Expects::PlainObject => Err(bad(alloc, Code::BadValue, path)),
        Expects::SystemObject => system_target(alloc, view, path, json, steps),
        Expects::Value(_) | Expects::Key => operand_target(alloc, view, path, expects, json, steps),
    }
}

/// The target of a literal of which a link is to be made. It is that of `literal_target`, but a key
/// by itself, which has no namespace, is refused: `BadQuery` with `BadValue` and the path.
pub fn new_target<L>(
    alloc: Global,
    view: &View<'_>,
    path: &[&str],
    expects: Expects,
    json: &Json,
    steps: &mut Steps<L>,
) -> Result<Target, Unknown>
    ensures target { Finds target_view
        (parts.new_target (prims_of view.now) (map (λ name. name.now) path.now)
        (expects_view expects) (json_of json.now)) result }
    ensures later { steps.old ≤ steps.new }
{
    match expects {
        Expects::Key => Err(bad(alloc, Code::BadValue, path)),
        _ => literal_target(alloc, view, path, expects, json, steps),
    }
}

/// The text that is a key.
fn text_key<'a>(alloc: Global, path: &[&'a str], key: &str) -> Result<Text, Unknown>
    ensures { Finds (λ key. key) (ok_or (data_kinds.key_from (json_text key.now))
        (asked.bad_query bad_value (map (λ name. name.now) path.entry.now ++ codes "value" ∷ [])))
        result }
{
    if is_key(key) {
        Ok(Text::of(alloc, key)?)
    } else {
        Err(bad_below(alloc, Code::BadValue, path, "value"))
    }
}

/// The key that the member `value` of a form spells.
fn form_key<'a>(alloc: Global, path: &[&'a str], json: &Json) -> Result<Text, Unknown>
    ensures { Finds (λ key. key) (ok_or (data_kinds.key_from (json_of json.now))
        (asked.bad_query bad_value (map (λ name. name.now) path.entry.now ++ codes "value" ∷ [])))
        result }
{
    match json {
        Json::Text(key) => text_key(alloc, path, key.as_str()),
        _ => Err(bad_below(alloc, Code::BadValue, path, "value")),
    }
}

/// The key that a form spells, in the namespace that it names.
fn key_target<'a, L>(
    alloc: Global,
    view: &View<'_>,
    path: &[&'a str],
    namespace: &str,
    json: &Json,
    steps: &mut Steps<L>,
) -> Result<Target, Unknown>
    ensures target { Finds target_view
        (parts.target_of (prims_of view.now) (map (λ name. name.now) path.entry.now) property.a_key
        (change.to_key namespace.now (json_of json.now))) result }
    ensures later { steps.old ≤ steps.new }
{
    let namespace = place_named(alloc, view, namespace, steps)?;
    let key = form_key(alloc, path, json)?;
    Ok(Target::Key { namespace, key })
}

/// What a form with a namespace leads to.
fn spaced_target<'a, L>(
    alloc: Global,
    view: &View<'_>,
    path: &[&'a str],
    expects: Expects,
    namespace: &str,
    json: &Json,
    steps: &mut Steps<L>,
) -> Result<Target, Unknown>
    ensures target { Finds target_view
        (parts.target_of (prims_of view.now) (map (λ name. name.now) path.entry.now)
        (expects_view expects) (change.to_key namespace.now (json_of json.now))) result }
    ensures later { steps.old ≤ steps.new }
{
    match expects {
        Expects::Key => key_target(alloc, view, path, namespace, json, steps),
        _ => Err(bad_below(alloc, Code::BadValue, path, "namespace")),
    }
}

/// What a form with a literal leads to.
fn valued_target<'a, L>(
    alloc: Global,
    view: &View<'_>,
    path: &[&'a str],
    expects: Expects,
    json: &Json,
    steps: &mut Steps<L>,
) -> Result<Target, Unknown>
    ensures target { Finds target_view
        (parts.target_of (prims_of view.now) (map (λ name. name.now) path.entry.now)
        (expects_view expects) (change.to_literal (json_of json.now))) result }
    ensures later { steps.old ≤ steps.new }
{
    let below = longer(alloc, path, "value")?;
    new_target(alloc, view, &below, expects, json, steps)
}

/// What a form with an id leads to.
fn object_target<'a, L>(
    alloc: Global,
    view: &View<'_>,
    path: &[&'a str],
    expects: Expects,
    id: &str,
    steps: &mut Steps<L>,
) -> Result<Target, Unknown>
    ensures target { Finds target_view
        (parts.target_of (prims_of view.now) (map (λ name. name.now) path.entry.now)
        (expects_view expects) (change.to_id id.now)) result }
    ensures later { steps.old ≤ steps.new }
{
    if holds_values(expects) {
        Err(bad_below(alloc, Code::BadValue, path, "id"))
    } else {
        Ok(Target::Object(place_named(alloc, view, id, steps)?))
    }
}

/// What a form `{..}` leads to where answers are of this sort: the object that `id` names, the
/// literal `value`, or the key `value` in the namespace that `namespace` names. `path` has the
/// names that lead to the form from the root down. `NoSuchId`: the id of an object or a namespace
/// names none. `BadQuery` with `BadValue` and the path of the member: `id` does not go with values
/// and keys, `namespace` only with keys, and `value` is to be a value, or beside `namespace` a key.
/// `Memory`: an allocation was refused.
pub fn target_of<'a, L>(
    alloc: Global,
    view: &View<'_>,
    path: &[&'a str],
    expects: Expects,
    target: SpelledTarget<'a>,
    steps: &mut Steps<L>,
) -> Result<Target, Unknown>
    ensures target { Finds target_view
        (parts.target_of (prims_of view.now) (map (λ name. name.now) path.entry.now)
        (expects_view expects) (target_spelled target.entry)) result }
    ensures later { steps.old ≤ steps.new }
{
    match target {
        SpelledTarget::Id(id) => object_target(alloc, view, path, expects, id.as_str(), steps),
        SpelledTarget::Literal(json) => valued_target(alloc, view, path, expects, json, steps),
        SpelledTarget::Text(_, json) => valued_target(alloc, view, path, expects, json, steps),
        SpelledTarget::Key(namespace, json) => {
            spaced_target(alloc, view, path, expects, namespace.as_str(), json, steps)
        }
    }
}
