//! The first fault of form of a write: a clause itself, then its members in byte order of their
//! names.
ghost use Rattle.std.specs.Prelude.{◌≡◌, ◌||◌, ◌&&◌, ◌∷◌, [], Ok, not, is_some, option_map};
ghost use Rattle.std.specs.Prelude.{if◌then◌else◌, Some, None, codes, bytes_eq, false};
ghost use Rattle.std.specs.Option.{option_or};
ghost use Rattle.std.specs.Result.{result_err};
ghost use Rattle.gd_tree.specs.Json.{list, object};
ghost use Rattle.gd_defs.specs.Query.{is_word};
ghost use Rattle.gd_defs.specs.Query as query;
ghost use Rattle.gd_defs.specs.Change as defined;
ghost use Rattle.gd_json.specs.View.{view, items_view, members_view};
ghost use Rattle.gd_form_laws.specs.Faults.{below as seen_below};
ghost use Rattle.gd_form_laws.specs.WriteFaults as faults;
ghost use Rattle.gd_fault.specs.Fault.{code_view};
ghost use Rattle.gd_mql.specs.FormFault.{Checks};
ghost use Rattle.gd_mql.specs.Names.{name_view};
ghost use Rattle.gd_mql.specs.Changes.{setting_view, WriteNameGives};

use crate::directive::is_directive;
use crate::form_fault::{FormFault, below, fault_at, root_fault};
use crate::name::Name;
use crate::object::{member, text_of};
use crate::operand::{are_literals, is_computed, is_id_text, is_identity, is_link};
use crate::query_form::{has_operator, is_object, member_name};
use crate::write_parts::{
    CreateWord, Setting, connect_word, create_word, first_part_code, is_connect_form, is_fact_form,
    setting_of, target_of,
};
use gd_fault::fault::Code;
use gd_json::value::{Json, JsonText};
use std::alloc::Global;

/// Whether the name may be that of a member of a write: it has no operator, and of the words that
/// ask for no property it is `id` or `guid`.
fn may_be_written(name: &Name<'_>) -> bool
    ensures { result ≡ faults.is_written (name_view name.now) }
{
    !has_operator(name)
        && !is_link(name.word)
        && !(is_computed(name.word) && !is_identity(name.word))
}

/// The name of a member of a write; or the code of the fault at that member.
pub fn write_name(root: bool, spelled: &str) -> Result<Name<'_>, Code>
    ensures { WriteNameGives root spelled.now result }
{
    if is_directive(spelled) {
        return Err(Code::BadDirective);
    }
    let name = match member_name(root, spelled) {
        Ok(name) => name,
        Err(code) => return Err(code),
    };
    if may_be_written(&name) {
        Ok(name)
    } else {
        Err(Code::BadWrite)
    }
}

/// Whether the word of a create may stand in the clause: `unless_exists` needs a fact of the
/// clause's own.
fn create_fits(setting: Setting, value: &Json) -> bool
    ensures { result ≡ faults.create_fits (setting_view setting)
        (defined.create_word (view value.now)) }
{
    match create_word(value) {
        None => false,
        Some(CreateWord::UnlessExists) => setting.has_fact,
        Some(CreateWord::Unconditional) => true,
    }
}

fn check_create(alloc: Global, setting: Setting, value: &Json) -> Result<(), FormFault>
    ensures { Checks (result_err (defined.create_in (setting_view setting) (view value.now)))
        result }
{
    if create_fits(setting, value) {
        Ok(())
    } else {
        Err(fault_at(alloc, Code::BadCreate, "create"))
    }
}

fn is_guid_word(word: &str) -> bool
    ensures { result ≡ is_word (codes "guid") word.now }
{
    word == "guid" || word == "/type/object/guid"
}

/// Whether `id` or `guid` may be null: in a create, and `guid` beside `id` as a text.
fn may_be_null(setting: Setting, name: &Name<'_>) -> bool
    ensures { result ≡ (setting.creates
        || (setting.has_id && is_word (codes "guid") name.now.word.now)) }
{
    setting.creates || setting.has_id && is_guid_word(name.word)
}

/// Whether the member names the object of its clause.
fn names_object(setting: Setting, name: &Name<'_>) -> bool
    ensures { result ≡ bytes_eq name.now.spelled.now
        (if setting.has_id then codes "id" else codes "guid") }
{
    if setting.has_id {
        name.spelled == "id"
    } else {
        name.spelled == "guid"
    }
}

/// The code of a member `id` or `guid` that has not what is its own.
fn identity_code(setting: Setting, name: &Name<'_>, value: &Json) -> Option<Code>
    ensures { option_map (λ code. record {
      code = code_view code;
      path = name.now.spelled.now
          ∷ [];
    }) result
        ≡ result_err (defined.identity_item (setting_view setting) (name_view name.now)
        (view value.now)) }
{
    if value.is_null() {
        return if may_be_null(setting, name) {
            None
        } else {
            Some(Code::BadWrite)
        };
    }
    if setting.creates {
        return Some(Code::BadWrite);
    }
    if !names_object(setting, name) {
        return Some(Code::BadWrite);
    }
    if is_id_text(value) {
        None
    } else {
        Some(Code::BadOperand)
    }
}

fn check_identity(
    alloc: Global,
    setting: Setting,
    name: &Name<'_>,
    value: &Json,
) -> Result<(), FormFault>
    ensures { Checks (result_err (defined.identity_item (setting_view setting) (name_view name.now)
        (view value.now))) result }
{
    match identity_code(setting, name, value) {
        None => Ok(()),
        Some(code) => Err(fault_at(alloc, code, name.spelled)),
    }
}

/// The first fault of the target of a form {..} below the member of this name.
fn check_target(alloc: Global, name: &str, form: &[(JsonText, Json)]) -> Result<(), FormFault>
    ensures { Checks (faults.target_fault name.now (members_view form.now)) result }
{
    if let Some((code, part)) = first_part_code(form) {
        return Err(below(alloc, name, fault_at(alloc, code, part.as_str())));
    }
    if target_of(form).is_some() {
        Ok(())
    } else {
        Err(fault_at(alloc, Code::BadWrite, name))
    }
}

/// The first fault of a connect form, whose `connect` has this value.
fn check_connect(
    alloc: Global,
    name: &Name<'_>,
    form: &[(JsonText, Json)],
    word: &Json,
) -> Result<(), FormFault>
    ensures { Checks (if defined.is_connect_form (members_view form.now)
        then option_or (faults.target_fault name.now.spelled.now (members_view form.now))
        (if is_some (defined.connect_word (view word.now)) then None
        else Some (record { code = query.bad_connect; path = name.now.spelled.now ∷ [] }))
        else Some (record { code = query.bad_write; path = name.now.spelled.now ∷ [] })) result }
{
    if !is_connect_form(form) {
        return Err(fault_at(alloc, Code::BadWrite, name.spelled));
    }
    check_target(alloc, name.spelled, form)?;
    if connect_word(word).is_some() {
        Ok(())
    } else {
        Err(fault_at(alloc, Code::BadConnect, name.spelled))
    }
}

/// The first fault of a form {..} that neither connects nor creates.
fn check_fact(
    alloc: Global,
    setting: Setting,
    name: &Name<'_>,
    form: &[(JsonText, Json)],
) -> Result<(), FormFault>
    ensures { Checks (if setting.creates && defined.is_fact_form (members_view form.now)
        then faults.target_fault name.now.spelled.now (members_view form.now)
        else Some (record { code = query.bad_write; path = name.now.spelled.now ∷ [] })) result }
{
    if setting.creates && is_fact_form(form) {
        check_target(alloc, name.spelled, form)
    } else {
        Err(fault_at(alloc, Code::BadWrite, name.spelled))
    }
}

fn are_forms(items: &[Json]) -> bool
    ensures { result ≡ query.all_items defined.is_form (items_view items.now) }
{
    for item in items {
        if !is_object(item) {
            return false;
        }
    }
    true
}

/// The code of a list as such, which has to have forms alone, or in a create literals alone.
fn list_code(setting: Setting, items: &[Json]) -> Option<Code>
    ensures { option_map code_view result ≡ faults.list_code (setting_view setting)
        (items_view items.now) }
{
    if items.is_empty() {
        return Some(Code::BadWrite);
    }
    if are_forms(items) {
        return None;
    }
    if !are_literals(items) {
        return Some(Code::ListForm);
    }
    if setting.creates {
        None
    } else {
        Some(Code::BadWrite)
    }
}

/// The first fault of the members of a clause of a write.
#[cycle(check_entries)]
pub fn check_entries(
    alloc: Global,
    setting: Setting,
    members: &[(JsonText, Json)],
) -> Result<(), FormFault>
    ensures { Checks (faults.entries_fault (setting_view setting) (members_view members.now))
        result }
{
    for member in members {
        check_entry(alloc, setting, &member.0, &member.1)?;
    }
    Ok(())
}

#[cycle(check_entries)]
fn check_entry(
    alloc: Global,
    setting: Setting,
    name: &JsonText,
    value: &Json,
) -> Result<(), FormFault>
    ensures { Checks (faults.entry_fault (setting_view setting) name.now (view value.now)) result }
{
    let spelled = name.as_str();
    if spelled == "create" {
        return check_create(alloc, setting, value);
    }
    match write_name(setting.at_root, spelled) {
        Ok(name) => check_named(alloc, setting, &name, value),
        Err(code) => Err(fault_at(alloc, code, spelled)),
    }
}

#[cycle(check_entries)]
fn check_named(
    alloc: Global,
    setting: Setting,
    name: &Name<'_>,
    value: &Json,
) -> Result<(), FormFault>
    ensures { Checks (faults.named_item_fault (setting_view setting) (name_view name.now)
        (view value.now)) result }
{
    if is_identity(name.word) {
        check_identity(alloc, setting, name, value)
    } else {
        check_item(alloc, setting, name, value)
    }
}

#[cycle(check_entries)]
#[tactic(auto, unfolding(gd_form_laws::specs::WriteFaults::item_fault))]
fn check_item(
    alloc: Global,
    setting: Setting,
    name: &Name<'_>,
    value: &Json,
) -> Result<(), FormFault>
    ensures { Checks (faults.item_fault (setting_view setting) (name_view name.now)
        (view value.now)) result }
{
    match value {
        Json::Null => Err(fault_at(alloc, Code::BadWrite, name.spelled)),
        Json::Object(form) => check_form(alloc, setting, name, form),
        Json::List(items) => check_list(alloc, setting, name, items),
        _ => Ok(()),
    }
}

#[cycle(check_entries)]
fn check_form(
    alloc: Global,
    setting: Setting,
    name: &Name<'_>,
    form: &[(JsonText, Json)],
) -> Result<(), FormFault>
    ensures { Checks (faults.item_fault (setting_view setting) (name_view name.now)
        (object (members_view form.now))) result }
{
    if let Some(word) = member(form, "connect") {
        return check_connect(alloc, name, form, word);
    }
    if let Some(word) = member(form, "create") {
        return check_nested(alloc, name, form, word);
    }
    check_fact(alloc, setting, name, form)
}

#[cycle(check_entries)]
fn check_nested(
    alloc: Global,
    name: &Name<'_>,
    form: &[(JsonText, Json)],
    word: &Json,
) -> Result<(), FormFault>
    ensures { Checks (option_map (seen_below name.now.spelled.now)
        (option_or (faults.entries_fault (defined.setting_of false (members_view form.now))
        (members_view form.now))
        (if is_some (defined.create_word (view word.now)) then None else Some
        (record { code = query.bad_create; path = codes "create" ∷ [] })))) result }
{
    match check_created(alloc, false, form, word) {
        Ok(()) => Ok(()),
        Err(fault) => Err(below(alloc, name.spelled, fault)),
    }
}

/// The first fault of a clause that creates, whose `create` has this value.
#[cycle(check_entries)]
fn check_created(
    alloc: Global,
    root: bool,
    members: &[(JsonText, Json)],
    word: &Json,
) -> Result<(), FormFault>
    ensures { Checks
        (option_or (faults.entries_fault (defined.setting_of root (members_view members.now))
        (members_view members.now))
        (if is_some (defined.create_word (view word.now)) then None else Some
        (record { code = query.bad_create; path = codes "create" ∷ [] }))) result }
{
    check_entries(alloc, setting_of(root, members), members)?;
    if create_word(word).is_some() {
        Ok(())
    } else {
        Err(fault_at(alloc, Code::BadCreate, "create"))
    }
}

#[cycle(check_entries)]
fn check_list(
    alloc: Global,
    setting: Setting,
    name: &Name<'_>,
    items: &[Json],
) -> Result<(), FormFault>
    ensures { Checks (faults.item_fault (setting_view setting) (name_view name.now)
        (list (items_view items.now))) result }
{
    match list_code(setting, items) {
        Some(code) => Err(fault_at(alloc, code, name.spelled)),
        None => check_items(alloc, setting, name, items),
    }
}

#[cycle(check_entries)]
fn check_items(
    alloc: Global,
    setting: Setting,
    name: &Name<'_>,
    items: &[Json],
) -> Result<(), FormFault>
    ensures { Checks (faults.items_fault (setting_view setting) (name_view name.now)
        (items_view items.now)) result }
{
    for item in items {
        check_item(alloc, setting, name, item)?;
    }
    Ok(())
}

/// Whether the clause names an object, by the text of `id` or `guid`.
fn has_object(members: &[(JsonText, Json)]) -> bool
    ensures { result ≡ is_some (option_or
        (defined.text_member (codes "id") (members_view members.now))
        (defined.text_member (codes "guid") (members_view members.now))) }
{
    text_of(members, "id").is_some() || text_of(members, "guid").is_some()
}

/// The first fault of the clause of a write.
pub fn check_change(alloc: Global, members: &[(JsonText, Json)]) -> Result<(), FormFault>
    ensures { Checks (faults.change_fault (object (members_view members.now))) result }
{
    if let Some(word) = member(members, "create") {
        return check_created(alloc, true, members, word);
    }
    if has_object(members) {
        check_entries(alloc, setting_of(true, members), members)
    } else {
        Err(root_fault(alloc, Code::BadWrite))
    }
}
