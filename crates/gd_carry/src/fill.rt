//! What a write prints, at the state at its end.
ghost use Rattle.std.specs.Prelude.{◌≡◌, IfOk, OnOk, ◌++◌, ◌∷◌, [], ◌+◌, ◌<◌, map, drop, length};
ghost use Rattle.std.specs.Prelude.{codes, bytes_eq};
ghost use Rattle.gd_tree.specs.Json.{text as tree_text, object as tree_object};
ghost use Rattle.gd_json.specs.View.{view, items_view, members_view, member_view};
ghost use Rattle.gd_defs.specs.Write.Carried.{answered, created_text};
ghost use Rattle.gd_growing.specs.Seen.{answer_word};
ghost use Rattle.gd_growing.specs.State.{so_far};
ghost use Rattle.gd_intent.specs.Seen.{spelled_view};
ghost use Rattle.gd_carry.specs.Printed.{printed_view, fields_view, many_view};

use crate::print::Printed;
use gd_base::memory::Memory;
use gd_growing::growing::Growing;
use gd_growing::up::id_text;
use gd_intent::intent::Spelled;
use gd_json::value::{Json, JsonText};
use gd_reply::guid::guid;
use gd_reply::members::push_member;
use std::alloc::Global;

/// The members of an object as they are printed.
type Members = Vec<(JsonText, Json)>;

/// Puts the same member behind others.
fn push_copy(members: &mut Members, name: &JsonText, value: &Json) -> Result<(), Memory>
    ensures { OnOk result (map member_view members.new.items
        ≡ map member_view members.old.items ++ (name.now, view value.now) ∷ []) }
{
    members.push((name.copy()?, value.copy()?))?;
    Ok(())
}

/// Puts the same members behind others.
fn push_copies(members: &mut Members, more: &[(JsonText, Json)]) -> Result<(), Memory>
    ensures { OnOk result (map member_view members.new.items
        ≡ map member_view members.old.items ++ map member_view more.now) }
{
    for member in more {
        push_copy(members, &member.0, &member.1)?;
    }
    Ok(())
}

/// The object of the same members.
fn form_json(alloc: Global, form: &[(JsonText, Json)]) -> Result<Json, Memory>
    ensures { IfOk result (λ json. view json ≡ tree_object (members_view form.now)) }
{
    let mut members = Vec::new(alloc);
    push_copies(&mut members, form)?;
    Ok(Json::Object(members))
}

/// A value as the request spells it.
fn spelled_json(alloc: Global, spelled: Spelled<'_>) -> Result<Json, Memory>
    ensures { IfOk result (λ json. view json ≡ spelled_view spelled.entry) }
{
    match spelled {
        Spelled::Null => Ok(Json::Null),
        Spelled::Value(json) => Ok(json.copy()?),
        Spelled::Form(form) => form_json(alloc, form),
    }
}

/// What `create` prints: whether the object was there.
fn created_json(alloc: Global, existed: bool) -> Result<Json, Memory>
    ensures { IfOk result (λ json. view json ≡ created_text existed) }
{
    if existed {
        Json::text(alloc, "existed")
    } else {
        Json::text(alloc, "created")
    }
}

/// Whether the name is `connect`.
fn is_connect(name: &JsonText) -> bool
    ensures { result ≡ bytes_eq name.now (codes "connect") }
{
    name.as_str() == "connect"
}

/// What stands behind an index.
fn behind(form: &[(JsonText, Json)], i: usize) -> &[(JsonText, Json)]
    requires { i < length form.now }
    ensures { result.now ≡ drop (i + 1) form.now }
{
    &form[i + 1..]
}

/// The members of a connect form with its answer in place of its word.
fn answered(alloc: Global, answer: &str, form: &[(JsonText, Json)]) -> Result<Members, Memory>
    ensures { IfOk result (λ members. members_view members.items
        ≡ answered answer.now (members_view form.now)) }
{
    let mut members = Vec::new(alloc);
    for (i, member) in form.iter().enumerate() {
        if is_connect(&member.0) {
            push_answer(alloc, &mut members, &member.0, answer)?;
            push_copies(&mut members, behind(form, i))?;
            return Ok(members);
        }
        push_copy(&mut members, &member.0, &member.1)?;
    }
    Ok(members)
}

/// Puts a text under the name of a member behind others.
fn push_answer(
    alloc: Global,
    members: &mut Members,
    name: &JsonText,
    answer: &str,
) -> Result<(), Memory>
    ensures { OnOk result (map member_view members.new.items
        ≡ map member_view members.old.items ++ (name.now, tree_text answer.now) ∷ []) }
{
    members.push((name.copy()?, Json::text(alloc, answer)?))?;
    Ok(())
}

fn push_json(items: &mut Vec<Json>, item: Json) -> Result<(), Memory>
    ensures { OnOk result (map view items.new.items ≡ map view items.old.items ++ view item ∷ []) }
{
    items.push(item)?;
    Ok(())
}

/// What a part of a write prints, at the state at its end. `Memory`: an allocation was refused.
#[cycle(fill)]
#[tactic(auto, using(crate::proofs::Fields::fields_seen, crate::proofs::Fields::items_seen))]
pub(crate) fn fill(
    alloc: Global,
    growing: &Growing<'_>,
    printed: &Printed<'_>,
) -> Result<Json, Memory>
    ensures { IfOk result (λ json. view json ≡ printed_view (so_far growing.now)
        printed.entry.now) }
{
    match printed {
        Printed::Spelled(spelled) => spelled_json(alloc, *spelled),
        Printed::Id(object) => Ok(Json::Text(id_text(alloc, growing, *object)?)),
        Printed::Guid(object) => Ok(Json::Text(guid(alloc, *object)?)),
        Printed::Created(existed) => created_json(alloc, *existed),
        Printed::Connected(answer, form) => {
            Ok(Json::Object(answered(alloc, answer.word(), form)?))
        }
        Printed::Form(fields) => Ok(Json::Object(fill_fields(alloc, growing, fields)?)),
        Printed::Several(items) => Ok(Json::List(fill_items(alloc, growing, items)?)),
    }
}

/// The members of an object, at the state at the end.
#[cycle(fill)]
#[tactic(auto, using(crate::proofs::Fields::fields_seen, crate::proofs::Fields::items_seen))]
fn fill_fields(
    alloc: Global,
    growing: &Growing<'_>,
    fields: &[(&str, Printed<'_>)],
) -> Result<Members, Memory>
    ensures { IfOk result (λ members. members_view members.items ≡ fields_view (so_far growing.now)
        fields.entry.now) }
{
    let mut members = Vec::new(alloc);
    for field in fields {
        let value = fill(alloc, growing, &field.1)?;
        push_member(alloc, &mut members, field.0, value)?;
    }
    Ok(members)
}

/// The items of a list, at the state at the end. `Memory`: an allocation was refused.
#[cycle(fill)]
#[tactic(auto, using(crate::proofs::Fields::fields_seen, crate::proofs::Fields::items_seen))]
pub(crate) fn fill_items(
    alloc: Global,
    growing: &Growing<'_>,
    items: &[Printed<'_>],
) -> Result<Vec<Json>, Memory>
    ensures { IfOk result (λ filled. items_view filled.items ≡ many_view (so_far growing.now)
        items.entry.now) }
{
    let mut filled = Vec::new(alloc);
    for item in items {
        let json = fill(alloc, growing, item)?;
        push_json(&mut filled, json)?;
    }
    Ok(filled)
}
