//! A write with its words looked up at a view's dateline, clause by clause.
ghost use Rattle.std.specs.Prelude.{◌≡◌, ◌<◌, ◌≤◌, ◌++◌, ◌∷◌, [], Ok, IfOk, OnOk, map, option_map};
ghost use Rattle.std.specs.Prelude.{length, decimal};
ghost use Rattle.std.specs.Option.{option_or};
ghost use Rattle.gd_prim.specs.History.{prims_of};
ghost use Rattle.gd_tree.specs.Look.{text_of};
ghost use Rattle.gd_defs.specs.Change as change;
ghost use Rattle.gd_defs.specs.Write as write;
ghost use Rattle.gd_defs.specs.Write.Parts as parts;
ghost use Rattle.gd_json.specs.View.{view as json_of};
ghost use Rattle.gd_mql.specs.Changes.{create_view};
ghost use Rattle.gd_mql.specs.Names.{name_view};
ghost use Rattle.gd_mql.specs.Entries.{change_view, root_view, entries_left, items_left};
ghost use Rattle.gd_mql.specs.Entries.{item_view as item_spelled, with_entry as with_spelled};
ghost use Rattle.gd_mql.specs.Requests.{asked_change, write_set_view, write_view};
ghost use Rattle.gd_compile.specs.Fault.{Finds};
ghost use Rattle.gd_intent.specs.Seen.{intent_view, item_view, many_view, members_view};
ghost use Rattle.gd_intent.specs.Seen.{resolved_view};
ghost use Rattle.gd_intent.specs.Walk.{Leads, change_resolved, clause_resolved, intent_of};
ghost use Rattle.gd_intent.specs.Walk.{member_item, property_item, root_object};

use crate::facts::{connect_item, fact_item, form_fact, identity_item, is_computed};
use crate::intent::{Entry, Intent, Item, ResolvedChange, Spelled};
use gd_base::id::Id;
use gd_base::memory::Memory;
use gd_base::steps::Steps;
use gd_compile::fault::{Code, Unknown, bad};
use gd_compile::operand::place_named;
use gd_compile::path::longer;
use gd_compile::words::{context_of, member_property};
use gd_compile::{expects_of, holds_values};
use gd_json::value::{Json, JsonText};
use gd_mql::change::{
    Change, Entry as SpelledEntry, Item as SpelledItem, Items as SpelledItems,
    Members as SpelledMembers, Root,
};
use gd_mql::name::Name;
use gd_mql::number::number_text;
use gd_mql::request::{ChangeRequest, WriteRequest, WriteSet};
use gd_mql::write_parts::CreateWord;
use gd_resolve::property::Property;
use gd_store::view::View;
use std::alloc::Global;

/// The same object again, if there is one.
fn same(object: &Option<Id>) -> Option<Id>
    ensures { result ≡ object.now }
{
    match object {
        Some(place) => Some(*place),
        None => None,
    }
}

/// The text that a literal is.
fn text_of(json: &Json) -> Option<&str>
    ensures { option_map (λ text. text.now) result ≡ text_of (json_of json.entry.now) }
{
    match json.as_text() {
        Some(text) => Some(text.as_str()),
        None => None,
    }
}

/// The text of an entry that is the plain member `type` with a text.
fn entry_type<'a>(spelled: &SpelledEntry<'a>) -> Option<&'a str>
    ensures { (ms : change.Members) → parts.type_text (with_spelled spelled.entry.now ms)
        ≡ option_or (option_map (λ text. text.now) result) (parts.type_text ms) }
{
    match spelled {
        SpelledEntry::Member(name, SpelledItem::Plain(json)) => {
            if name.spelled == "type" {
                text_of(json)
            } else {
                None
            }
        }
        _ => None,
    }
}

/// The text of the plain member `type`, if the members have it.
fn type_text<'a>(members: &SpelledMembers<'a>) -> Option<&'a str>
    ensures { option_map (λ text. text.now) result
        ≡ parts.type_text (entries_left members.entry.now) }
{
    let mut rest = *members;
    while let Some((entry, others)) = rest.split() {
        if let Some(text) = entry_type(&entry) {
            return Some(text);
        }
        rest = others;
    }
    None
}

fn push_entry<'a>(
    entries: &mut Vec<Entry<'a, Item<'a>>>,
    entry: Entry<'a, Item<'a>>,
) -> Result<(), Memory>
    ensures { OnOk result (entries.new.items ≡ entries.old.items ++ entry.entry ∷ []) }
{
    entries.push(entry)?;
    Ok(())
}

fn push_item<'a>(items: &mut Vec<Item<'a>>, item: Item<'a>) -> Result<(), Memory>
    ensures { OnOk result (items.new.items ≡ items.old.items ++ item.entry ∷ []) }
{
    items.push(item)?;
    Ok(())
}

/// What the members of a clause do, in order, on an existing object `on` or in a create, in a
/// context type.
#[cycle(resolved)]
fn resolved<'a, L>(
    alloc: Global,
    view: &View<'_>,
    on: Option<Id>,
    context: Option<Id>,
    path: &[&'a str],
    members: &SpelledMembers<'a>,
    steps: &mut Steps<L>,
) -> Result<Vec<Entry<'a, Item<'a>>>, Unknown>
    ensures members { Finds (λ entries. members_view entries.items)
        (parts.resolved (prims_of view.now) on context (map (λ name. name.now) path.entry.now)
        (entries_left members.entry.now)) result }
    ensures later { steps.old ≤ steps.new }
{
    let mut entries = Vec::new(alloc);
    let mut rest = *members;
    while let Some((spelled, others)) = rest.split() {
        let entry = resolved_entry(
            alloc,
            view,
            same(&on),
            same(&context),
            path,
            &spelled,
            steps,
        )?;
        push_entry(&mut entries, entry)?;
        rest = others;
    }
    Ok(entries)
}

/// What an entry of a clause does.
#[cycle(resolved)]
fn resolved_entry<'a, L>(
    alloc: Global,
    view: &View<'_>,
    on: Option<Id>,
    context: Option<Id>,
    path: &[&'a str],
    spelled: &SpelledEntry<'a>,
    steps: &mut Steps<L>,
) -> Result<Entry<'a, Item<'a>>, Unknown>
    ensures entry { Leads (parts.resolved (prims_of view.now) on context
        (map (λ name. name.now) path.entry.now)) spelled.entry.now result }
    ensures later { steps.old ≤ steps.new }
{
    match spelled {
        SpelledEntry::Member(name, item) => {
            let item = resolved_member(alloc, view, on, context, path, name, item, steps)?;
            Ok(Entry::Member(name.spelled, item))
        }
        SpelledEntry::Created(_) => Ok(Entry::Created),
    }
}

/// What a member of a clause does: `id` and `guid` print, others have a property.
#[cycle(resolved)]
fn resolved_member<'a, L>(
    alloc: Global,
    view: &View<'_>,
    on: Option<Id>,
    context: Option<Id>,
    path: &[&'a str],
    name: &Name<'a>,
    item: &SpelledItem<'a>,
    steps: &mut Steps<L>,
) -> Result<Item<'a>, Unknown>
    ensures item { Finds item_view (member_item (prims_of view.now) on context
        (map (λ name. name.now) path.entry.now) (name_view name.entry.now)
        (item_spelled item.entry.now)) result }
    ensures later { steps.old ≤ steps.new }
{
    if is_computed(name.word) {
        return Ok(identity_item(name, item));
    }
    let below = longer(alloc, path, name.spelled)?;
    property_item(alloc, view, on, context, &below, name, item, steps)
}

/// What a member of a property does, at its own path.
#[cycle(resolved)]
fn property_item<'a, L>(
    alloc: Global,
    view: &View<'_>,
    on: Option<Id>,
    context: Option<Id>,
    path: &[&'a str],
    name: &Name<'a>,
    item: &SpelledItem<'a>,
    steps: &mut Steps<L>,
) -> Result<Item<'a>, Unknown>
    ensures item { Finds item_view (property_item (prims_of view.now) on context
        (map (λ name. name.now) path.entry.now) (name_view name.entry.now)
        (item_spelled item.entry.now)) result }
    ensures later { steps.old ≤ steps.new }
{
    let property = member_property(alloc, view, context, path, name, steps)?;
    resolved_item(alloc, view, on, path, &property, item, steps)
}

/// What a member does, with its target looked up.
#[cycle(resolved)]
fn resolved_item<'a, L>(
    alloc: Global,
    view: &View<'_>,
    on: Option<Id>,
    path: &[&'a str],
    property: &Property,
    item: &SpelledItem<'a>,
    steps: &mut Steps<L>,
) -> Result<Item<'a>, Unknown>
    ensures item { Finds item_view (parts.resolved_item (prims_of view.now) on
        (map (λ name. name.now) path.entry.now) property.now (item_spelled item.entry.now)) result }
    ensures later { steps.old ≤ steps.new }
{
    match item {
        SpelledItem::Blank => Ok(Item::Spelled(Spelled::Null)),
        SpelledItem::Plain(json) => fact_item(alloc, view, path, on, property, json, steps),
        SpelledItem::Fact(target, form) => {
            form_fact(alloc, view, path, on, property, *target, form, steps)
        }
        SpelledItem::Connect(connect) => {
            connect_item(alloc, view, path, on, property, connect, steps)
        }
        SpelledItem::Nested(word, members) => {
            resolved_nested(alloc, view, on, path, property, *word, members, steps)
        }
        SpelledItem::Several(items) => {
            resolved_several(alloc, view, on, path, property, items, steps)
        }
    }
}

/// What a nested create does: it makes an object, to which a link of its property leads.
#[cycle(resolved)]
fn resolved_nested<'a, L>(
    alloc: Global,
    view: &View<'_>,
    on: Option<Id>,
    path: &[&'a str],
    property: &Property,
    word: CreateWord,
    members: &SpelledMembers<'a>,
    steps: &mut Steps<L>,
) -> Result<Item<'a>, Unknown>
    ensures item { Finds item_view (parts.resolved_item (prims_of view.now) on
        (map (λ name. name.now) path.entry.now) property.now
        (change.nested (create_view word) (entries_left members.entry.now))) result }
    ensures later { steps.old ≤ steps.new }
{
    if holds_values(expects_of(property.expected)) {
        return Err(bad(alloc, Code::BadValue, path));
    }
    let members = resolved_clause(alloc, view, None, property.expected, path, members, steps)?;
    Ok(Item::Nested {
        property: *property,
        word,
        members,
    })
}

/// What the items of a list do, in order.
#[cycle(resolved)]
fn resolved_several<'a, L>(
    alloc: Global,
    view: &View<'_>,
    on: Option<Id>,
    path: &[&'a str],
    property: &Property,
    items: &SpelledItems<'a>,
    steps: &mut Steps<L>,
) -> Result<Item<'a>, Unknown>
    ensures item { Finds item_view (parts.resolved_item (prims_of view.now) on
        (map (λ name. name.now) path.entry.now) property.now
        (change.several (items_left items.entry.now))) result }
    ensures later { steps.old ≤ steps.new }
{
    let items = resolved_items(alloc, view, on, path, property, items, steps)?;
    Ok(Item::Several(items))
}

/// What each item of a list does, in order.
#[cycle(resolved)]
fn resolved_items<'a, L>(
    alloc: Global,
    view: &View<'_>,
    on: Option<Id>,
    path: &[&'a str],
    property: &Property,
    items: &SpelledItems<'a>,
    steps: &mut Steps<L>,
) -> Result<Vec<Item<'a>>, Unknown>
    ensures items { Finds (λ items. many_view items.items)
        (parts.resolved_items (prims_of view.now) on (map (λ name. name.now) path.entry.now)
        property.now (items_left items.entry.now)) result }
    ensures later { steps.old ≤ steps.new }
{
    let mut done = Vec::new(alloc);
    let mut rest = *items;
    while let Some((spelled, others)) = rest.split() {
        let item = resolved_item(alloc, view, same(&on), path, property, &spelled, steps)?;
        push_item(&mut done, item)?;
        rest = others;
    }
    Ok(done)
}

/// What a clause does in its context type: what the text of its member `type` names, else the type
/// that is passed.
#[cycle(resolved)]
fn resolved_clause<'a, L>(
    alloc: Global,
    view: &View<'_>,
    on: Option<Id>,
    above: Option<Id>,
    path: &[&'a str],
    members: &SpelledMembers<'a>,
    steps: &mut Steps<L>,
) -> Result<Vec<Entry<'a, Item<'a>>>, Unknown>
    ensures members { Finds (λ entries. members_view entries.items)
        (clause_resolved (prims_of view.now) on above (map (λ name. name.now) path.entry.now)
        (entries_left members.entry.now)) result }
    ensures later { steps.old ≤ steps.new }
{
    let context = context_of(alloc, view, above, type_text(members), steps)?;
    resolved(alloc, view, on, context, path, members, steps)
}

/// The object that the id of a scope names below the view's dateline, if a scope is given.
/// `NoSuchId`: the text is no id or names no object. `Memory`: an allocation was refused.
pub fn scope_of<L>(
    alloc: Global,
    view: &View<'_>,
    scope: &Option<JsonText>,
    steps: &mut Steps<L>,
) -> Result<Option<Id>, Unknown>
    ensures scope { Finds (λ object. object) (write.scope_of (prims_of view.now) scope.now) result }
    ensures later { steps.old ≤ steps.new }
{
    match scope {
        Some(id) => Ok(Some(place_named(alloc, view, id.as_str(), steps)?)),
        None => Ok(None),
    }
}

/// The existing object that the root of a write names, if it does not create one.
fn root_object<L>(
    alloc: Global,
    view: &View<'_>,
    root: Root<'_>,
    steps: &mut Steps<L>,
) -> Result<Option<Id>, Unknown>
    ensures object { Finds (λ object. object)
        (root_object (prims_of view.now) (root_view root.entry)) result }
    ensures later { steps.old ≤ steps.new }
{
    match root {
        Root::Existing(id) => Ok(Some(place_named(alloc, view, id.as_str(), steps)?)),
        Root::Create(_) => Ok(None),
    }
}

/// A change with its words looked up at the view's dateline, where its root has this path: the
/// existing object of its root, if it names one, and what its members do.
pub fn resolved_root<'a, L>(
    alloc: Global,
    view: &View<'_>,
    path: Vec<&'a str>,
    change: &Change<'a>,
    steps: &mut Steps<L>,
) -> Result<ResolvedChange<'a>, Unknown>
    ensures root { Finds resolved_view (change_resolved (prims_of view.now)
        (map (λ name. name.now) path.entry.items) (change_view change.entry.now)) result }
    ensures later { steps.old ≤ steps.new }
{
    let root = change.root;
    let on = root_object(alloc, view, root, steps)?;
    let members = resolved_clause(alloc, view, same(&on), None, &path, &change.members, steps)?;
    Ok(ResolvedChange {
        path,
        root,
        on,
        members,
    })
}

fn push_change<'a>(
    changes: &mut Vec<ResolvedChange<'a>>,
    change: ResolvedChange<'a>,
) -> Result<(), Memory>
    ensures { OnOk result (changes.new.items ≡ changes.old.items ++ change.entry ∷ []) }
{
    changes.push(change)?;
    Ok(())
}

/// The only change of a write.
fn resolved_alone<'a, L>(
    alloc: Global,
    view: &View<'_>,
    request: &'a ChangeRequest,
    steps: &mut Steps<L>,
) -> Result<Vec<ResolvedChange<'a>>, Unknown>
    ensures changes { Finds (λ changes. map resolved_view changes.items)
        (write.resolved_all (prims_of view.now) (([], asked_change request.entry.now) ∷ []))
        result }
    ensures later { steps.old ≤ steps.new }
{
    let mut changes = Vec::new(alloc);
    let change = resolved_root(alloc, view, Vec::new(alloc), &request.change(), steps)?;
    push_change(&mut changes, change)?;
    Ok(changes)
}

/// The path of the root of a change among several: its number.
fn numbered_path<'a>(alloc: Global, number: usize) -> Result<Vec<&'a str>, Memory>
    requires { number < 16 }
    ensures { IfOk result (λ path. map (λ name. name.now) path.items ≡ decimal number ∷ []) }
{
    let mut path = Vec::new(alloc);
    path.push(number_text(number))?;
    Ok(path)
}

/// The change with this number among several.
fn resolved_numbered<'a, L>(
    alloc: Global,
    view: &View<'_>,
    number: usize,
    request: &'a ChangeRequest,
    steps: &mut Steps<L>,
) -> Result<ResolvedChange<'a>, Unknown>
    requires { number < 16 }
    ensures change { Finds resolved_view (change_resolved (prims_of view.now)
        (decimal number ∷ []) (asked_change request.entry.now)) result }
    ensures later { steps.old ≤ steps.new }
{
    let path = numbered_path(alloc, number)?;
    resolved_root(alloc, view, path, &request.change(), steps)
}

/// The changes of a list, in order, the path of each its number.
fn resolved_list<'a, L>(
    alloc: Global,
    view: &View<'_>,
    requests: &'a [ChangeRequest],
    steps: &mut Steps<L>,
) -> Result<Vec<ResolvedChange<'a>>, Unknown>
    requires { length requests.now ≤ 16 }
    ensures changes { Finds (λ changes. map resolved_view changes.items)
        (write.resolved_all (prims_of view.now)
        (write.numbered 0 (map asked_change requests.entry.now))) result }
    ensures later { steps.old ≤ steps.new }
{
    let mut changes = Vec::new(alloc);
    for (number, request) in requests.iter().enumerate() {
        let change = resolved_numbered(alloc, view, number, request, steps)?;
        push_change(&mut changes, change)?;
    }
    Ok(changes)
}

/// The changes of a write, in order.
fn resolved_changes<'a, L>(
    alloc: Global,
    view: &View<'_>,
    asks: &'a WriteSet,
    steps: &mut Steps<L>,
) -> Result<Vec<ResolvedChange<'a>>, Unknown>
    ensures changes { Finds (λ changes. map resolved_view changes.items)
        (write.resolved_all (prims_of view.now) (write.changes_of (write_set_view asks.entry.now)))
        result }
    ensures later { steps.old ≤ steps.new }
{
    match asks {
        WriteSet::One(request) => resolved_alone(alloc, view, request, steps),
        WriteSet::Several(requests) => resolved_list(alloc, view, requests.as_slice(), steps),
    }
}

/// A write with its words looked up at the view's dateline: the object of its scope, and of each of
/// its changes the existing object of its root, and what its members do. All changes are looked up
/// at this one state. The write has no meaning where an id or a property is not there, where a
/// target does not go with what its property holds, or where an existing object does not have a
/// value that is stated of it. The first refusal decides: the scope first, then change by change
/// the object of the root, then clause by clause and member by member, each clause's context type
/// before its members, with the path of the member from the root down. Where several changes are
/// asked the number of the change begins the path. `Memory`: an allocation was refused.
pub fn resolved_write<'a, L>(
    alloc: Global,
    view: &View<'_>,
    request: &'a WriteRequest,
    steps: &mut Steps<L>,
) -> Result<Intent<'a>, Unknown>
    ensures intent { Finds intent_view
        (intent_of (prims_of view.now) (write_view request.entry.now)) result }
    ensures later { steps.old ≤ steps.new }
{
    let scope = scope_of(alloc, view, &request.scope, steps)?;
    let changes = resolved_changes(alloc, view, &request.asks, steps)?;
    Ok(Intent { scope, changes })
}
