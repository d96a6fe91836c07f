//! What literals and forms of a write do, looked up.
ghost use Rattle.std.specs.Prelude.{◌≡◌, ◌≤◌, None, Some, codes, map};
ghost use Rattle.gd_prim.specs.History.{prims_of};
ghost use Rattle.gd_defs.specs.Query as query;
ghost use Rattle.gd_defs.specs.Change as change;
ghost use Rattle.gd_defs.specs.Write.Parts as parts;
ghost use Rattle.gd_json.specs.View.{view as json_of, members_view as json_members};
ghost use Rattle.gd_mql.specs.Changes.{connect_view, target_view as target_spelled};
ghost use Rattle.gd_mql.specs.Entries.{item_view as item_spelled};
ghost use Rattle.gd_mql.specs.Names.{name_view};
ghost use Rattle.gd_growing.specs.Seen.{target_view};
ghost use Rattle.gd_compile.specs.Fault.{Finds};
ghost use Rattle.gd_intent.specs.Seen.{item_view};
ghost use Rattle.gd_intent.specs.Walk.{language_named};

use crate::intent::{Connect, Item, Spelled};
use crate::targets::{bad_below, literal_target, new_target, target_of};
use gd_base::id::Id;
use gd_base::steps::Steps;
use gd_compile::fault::{Code, Unknown, bad};
use gd_compile::operand::place_named;
use gd_compile::words::is_id;
use gd_compile::{expects_of, has_lang};
use gd_growing::growing::Growing;
use gd_growing::target::{Target, has_fact};
use gd_json::value::{Json, JsonText};
use gd_mql::change::{Connect as SpelledConnect, Item as SpelledItem};
use gd_mql::name::Name;
use gd_mql::write_parts::Target as SpelledTarget;
use gd_resolve::property::{Property, is_language};
use gd_store::view::View;
use std::alloc::Global;

/// Whether a fact holds at the view's dateline.
#[tactic(auto, using(crate::proofs::Before::all_before))]
fn holds(alloc: Global, view: &View<'_>, property: &Property, object: Id, target: &Target) -> bool
    ensures { result ≡ parts.has_fact (prims_of view.now) property.now object
        (target_view target.now) }
{
    let before = Growing::new(alloc, view.earlier(view.dateline()));
    has_fact(&before, property, object, target)
}

/// The fact that a literal states in a create.
fn new_fact<'a, L>(
    alloc: Global,
    view: &View<'_>,
    path: &[&str],
    property: &Property,
    json: &'a Json,
    steps: &mut Steps<L>,
) -> Result<Item<'a>, Unknown>
    ensures item { Finds item_view (parts.fact_item (prims_of view.now)
        (map (λ name. name.now) path.now) None property.now (json_of json.entry.now)) result }
    ensures later { steps.old ≤ steps.new }
{
    let expects = expects_of(property.expected);
    let target = new_target(alloc, view, path, expects, json, steps)?;
    Ok(Item::Fact {
        property: *property,
        target,
        spelled: Spelled::Value(json),
    })
}

/// A literal that states what holds of an object.
fn held_fact<'a, L>(
    alloc: Global,
    view: &View<'_>,
    path: &[&str],
    object: Id,
    property: &Property,
    json: &'a Json,
    steps: &mut Steps<L>,
) -> Result<Item<'a>, Unknown>
    ensures item { Finds item_view (parts.fact_item (prims_of view.now)
        (map (λ name. name.now) path.now) (Some object) property.now (json_of json.entry.now))
        result }
    ensures later { steps.old ≤ steps.new }
{
    let expects = expects_of(property.expected);
    let target = literal_target(alloc, view, path, expects, json, steps)?;
    if holds(alloc, view, property, object, &target) {
        Ok(Item::Spelled(Spelled::Value(json)))
    } else {
        Err(bad(alloc, Code::NotMet, path))
    }
}

/// What a literal does: in a create it is a fact to be made, on an existing object `on` one that
/// must hold at the view's dateline. The refusals are those of `new_target` and of
/// `literal_target`, and on an existing object `BadQuery` with `NotMet` and the path where the fact
/// does not hold. `Memory`: an allocation was refused.
pub fn fact_item<'a, L>(
    alloc: Global,
    view: &View<'_>,
    path: &[&str],
    on: Option<Id>,
    property: &Property,
    json: &'a Json,
    steps: &mut Steps<L>,
) -> Result<Item<'a>, Unknown>
    ensures item { Finds item_view (parts.fact_item (prims_of view.now)
        (map (λ name. name.now) path.now) on property.now (json_of json.entry.now)) result }
    ensures later { steps.old ≤ steps.new }
{
    match on {
        Some(object) => held_fact(alloc, view, path, object, property, json, steps),
        None => new_fact(alloc, view, path, property, json, steps),
    }
}

/// The property, which holds texts, in the language that an id names.
fn in_language<'a, L>(
    alloc: Global,
    view: &View<'_>,
    path: &[&'a str],
    property: &Property,
    lang: &str,
    steps: &mut Steps<L>,
) -> Result<Property, Unknown>
    ensures property { Finds (λ p. p)
        (language_named (prims_of view.now) (map (λ name. name.now) path.entry.now) property.now
        lang.now) result }
    ensures later { steps.old ≤ steps.new }
{
    let language = place_named(alloc, view, lang, steps)?;
    if is_language(view, language, steps) {
        Ok(Property {
            language: Some(language),
            ..*property
        })
    } else {
        Err(bad_below(alloc, Code::BadLang, path, "lang"))
    }
}

/// The property in the language that a target names, if it names one, which texts alone have.
/// `BadQuery` with the path of the member `lang`: with `BadValue` the property holds no texts, with
/// `BadLang` the object is no language. `NoSuchId`: the id names no object. `Memory`: an allocation
/// was refused.
fn spoken<'a, L>(
    alloc: Global,
    view: &View<'_>,
    path: &[&'a str],
    property: &Property,
    target: &SpelledTarget<'a>,
    steps: &mut Steps<L>,
) -> Result<Property, Unknown>
    ensures property { Finds (λ p. p)
        (parts.in_language_of (prims_of view.now) (map (λ name. name.now) path.entry.now)
        property.now (target_spelled target.entry.now)) result }
    ensures later { steps.old ≤ steps.new }
{
    match target {
        SpelledTarget::Text(lang, _) => {
            if has_lang(expects_of(property.expected)) {
                in_language(alloc, view, path, property, lang.as_str(), steps)
            } else {
                Err(bad_below(alloc, Code::BadValue, path, "lang"))
            }
        }
        _ => Ok(*property),
    }
}

/// What a form that states a fact does: it leads to its target, and prints as these members.
pub(crate) fn form_fact<'a, L>(
    alloc: Global,
    view: &View<'_>,
    path: &[&'a str],
    on: Option<Id>,
    property: &Property,
    target: SpelledTarget<'a>,
    members: &'a [(JsonText, Json)],
    steps: &mut Steps<L>,
) -> Result<Item<'a>, Unknown>
    ensures item { Finds item_view (parts.resolved_item (prims_of view.now) on
        (map (λ name. name.now) path.entry.now) property.now
        (change.fact (target_spelled target.entry) (json_members members.entry.now))) result }
    ensures later { steps.old ≤ steps.new }
{
    let expects = expects_of(property.expected);
    let property = spoken(alloc, view, path, property, &target, steps)?;
    let target = target_of(alloc, view, path, expects, target, steps)?;
    Ok(Item::Fact {
        property,
        target,
        spelled: Spelled::Form(members),
    })
}

/// What a connect form does: its word, with its target looked up.
pub(crate) fn connect_item<'a, L>(
    alloc: Global,
    view: &View<'_>,
    path: &[&'a str],
    on: Option<Id>,
    property: &Property,
    connect: &SpelledConnect<'a>,
    steps: &mut Steps<L>,
) -> Result<Item<'a>, Unknown>
    ensures item { Finds item_view (parts.resolved_item (prims_of view.now) on
        (map (λ name. name.now) path.entry.now) property.now
        (change.connect (connect_view connect.entry.now.word)
        (target_spelled connect.entry.now.target) connect.entry.now.previous
        (json_members connect.entry.now.members.now))) result }
    ensures later { steps.old ≤ steps.new }
{
    let expects = expects_of(property.expected);
    let property = spoken(alloc, view, path, property, &connect.target, steps)?;
    let target = target_of(alloc, view, path, expects, connect.target, steps)?;
    Ok(Item::Connect(Connect {
        property,
        word: connect.word,
        target,
        previous: connect.previous,
        members: connect.members,
    }))
}

fn is_guid(word: &str) -> bool
    ensures { result ≡ query.is_word (codes "guid") word.now }
{
    word == "guid" || word == "/type/object/guid"
}

fn is_timestamp(word: &str) -> bool
    ensures { result ≡ query.is_word (codes "timestamp") word.now }
{
    word == "timestamp" || word == "/type/object/timestamp"
}

/// Whether a word asks for no property: `id`, `guid` and `timestamp`, also as paths below
/// `/type/object`.
pub(crate) fn is_computed(word: &str) -> bool
    ensures { result ≡ query.is_computed word.now }
{
    is_id(word) || is_guid(word) || is_timestamp(word)
}

/// What `id` and `guid` do: null asks for it, a text prints as it was spelled. It takes no memory.
pub fn identity_item<'a>(name: &Name<'_>, item: &SpelledItem<'a>) -> Item<'a>
    ensures { item_view result ≡ parts.identity_item (name_view name.now)
        (item_spelled item.entry.now) }
{
    match item {
        SpelledItem::Plain(json) => Item::Spelled(Spelled::Value(json)),
        _ => {
            if is_id(name.word) {
                Item::Id
            } else {
                Item::Guid
            }
        }
    }
}
