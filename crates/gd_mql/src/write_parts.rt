//! The parts of a write: its words, its forms {..}, and what is to be known of a clause.
ghost use Rattle.std.specs.Prelude.{◌≡◌, ◌||◌, ◌&&◌, Some, None, is_some, not, option_map};
ghost use Rattle.std.specs.Prelude.{option_and_then, if◌then◌else◌, codes, false};
ghost use Rattle.std.specs.List.{list_all};
ghost use Rattle.std.specs.Option.{option_map_or};
ghost use Rattle.gd_tree.specs.Json.{null};
ghost use Rattle.gd_tree.specs.Look.{get};
ghost use Rattle.gd_defs.specs.Query.Names.{name_of, is_computed as names_computed};
ghost use Rattle.gd_defs.specs.Change as defined;
ghost use Rattle.gd_defs.specs.Query.Operands.{all_items, is_literal as spells_literal};
ghost use Rattle.gd_json.specs.View.{view, items_view, members_view};
ghost use Rattle.gd_fault.specs.Fault.{code_view};
ghost use Rattle.gd_mql.specs.Changes.{connect_view, create_view, target_view, setting_view};
ghost use Rattle.gd_mql.specs.Changes.{fault_of};

use crate::directive::is_directive;
use crate::name::name_from;
use crate::object::{
    has, is_made_of_one, is_made_of_three_or, is_made_of_two, is_made_of_two_or,
    is_made_of_two_or_both, member, text_of,
};
use crate::operand::{is_computed, is_id_text, is_literal};
use gd_fault::fault::Code;
use gd_fault::ids::guid_place;
use gd_json::value::{Json, JsonText};

/// What a connect form does.
#[derive(Clone, Copy)]
pub enum ConnectWord {
    Insert,
    Delete,
    Update,
}

/// When a create makes an object.
#[derive(Clone, Copy)]
pub enum CreateWord {
    UnlessExists,
    Unconditional,
}

/// What a link leads to, as it is spelled: an id, a literal, a literal as a text in a language, or
/// as a key in a namespace.
#[derive(Clone, Copy)]
pub enum Target<'a> {
    Id(&'a JsonText),
    Literal(&'a Json),
    Text(&'a JsonText, &'a Json),
    Key(&'a JsonText, &'a Json),
}

/// What the members of a clause have to know of it: whether it is the root, creates, has `id` as a
/// text, and has a fact of its own.
#[derive(Clone, Copy)]
pub struct Setting {
    pub at_root: bool,
    pub creates: bool,
    pub has_id: bool,
    pub has_fact: bool,
}

/// The word that the value of `create` spells.
pub fn create_word(value: &Json) -> Option<CreateWord>
    ensures { option_map create_view result ≡ defined.create_word (view value.now) }
{
    match value.as_text()?.as_str() {
        "unless_exists" => Some(CreateWord::UnlessExists),
        "unconditional" => Some(CreateWord::Unconditional),
        _ => None,
    }
}

/// The word that the value of `connect` spells.
pub fn connect_word(value: &Json) -> Option<ConnectWord>
    ensures { option_map connect_view result ≡ defined.connect_word (view value.now) }
{
    match value.as_text()?.as_str() {
        "insert" => Some(ConnectWord::Insert),
        "delete" => Some(ConnectWord::Delete),
        "update" => Some(ConnectWord::Update),
        _ => None,
    }
}

/// Whether the members have the names of a fact as a form: of an id, of a text in a language, or of
/// a key in a namespace.
pub fn is_fact_form(form: &[(JsonText, Json)]) -> bool
    ensures { result ≡ defined.is_fact_form (members_view form.now) }
{
    is_made_of_one(form, "id")
        || is_made_of_two(form, "lang", "value")
        || is_made_of_two(form, "namespace", "value")
}

/// Whether the members have the names of a connect form: with an id, a value that may have a
/// language, or a key in a namespace; and maybe `previous`.
pub fn is_connect_form(form: &[(JsonText, Json)]) -> bool
    ensures { result ≡ defined.is_connect_form (members_view form.now) }
{
    is_made_of_two_or(form, "connect", "id", "previous")
        || is_made_of_two_or_both(form, "connect", "value", "lang", "previous")
        || is_made_of_three_or(form, "connect", "namespace", "value", "previous")
}

/// The place whose guid the member of this name has.
pub fn guid_of(form: &[(JsonText, Json)], name: &str) -> Option<u64>
    ensures { result ≡ defined.guid_member name.now (members_view form.now) }
{
    guid_place(text_of(form, name)?.as_str().as_bytes())
}

/// The word of a connect form.
pub fn form_word(form: &[(JsonText, Json)]) -> Option<ConnectWord>
    ensures { option_map connect_view result ≡ option_and_then defined.connect_word
        (get (codes "connect") (members_view form.now)) }
{
    connect_word(member(form, "connect")?)
}

fn updates(form: &[(JsonText, Json)]) -> bool
    ensures { result ≡ defined.is_update
        (option_and_then defined.connect_word (get (codes "connect") (members_view form.now))) }
{
    match form_word(form) {
        Some(ConnectWord::Update) => true,
        _ => false,
    }
}

fn previous_code(form: &[(JsonText, Json)]) -> Option<Code>
    ensures { option_map code_view result ≡ defined.part_code (members_view form.now)
        (codes "previous") null }
{
    if !updates(form) {
        return Some(Code::BadWrite);
    }
    if guid_of(form, "previous").is_some() {
        None
    } else {
        Some(Code::BadOperand)
    }
}

/// The code, unless the part is as it should be.
fn unless(is_right: bool, code: Code) -> Option<Code>
    ensures { result ≡ (if is_right then None else Some code) }
{
    if is_right { None } else { Some(code) }
}

/// The code of a member of a form {..} that is not as its name asks.
fn part_code(form: &[(JsonText, Json)], name: &str, value: &Json) -> Option<Code>
    ensures { option_map code_view result ≡ defined.part_code (members_view form.now) name.now
        (view value.now) }
{
    if name == "connect" {
        unless(connect_word(value).is_some(), Code::BadConnect)
    } else if name == "value" {
        unless(is_literal(value), Code::BadOperand)
    } else if name == "previous" {
        previous_code(form)
    } else {
        unless(is_id_text(value), Code::BadOperand)
    }
}

/// The first code that a member of a form {..} has, with the name of that member.
pub fn first_part_code(form: &[(JsonText, Json)]) -> Option<(Code, &JsonText)>
    ensures { option_map (λ found. fault_of found.1.now found.0) result
        ≡ defined.first_code (defined.part_code (members_view form.now)) (members_view form.now) }
{
    for part in form {
        if let Some(code) = part_code(form, part.0.as_str(), &part.1) {
            return Some((code, &part.0));
        }
    }
    None
}

/// The target that the members `id`, `namespace`, `lang` and `value` of a form {..} spell.
pub fn target_of(form: &[(JsonText, Json)]) -> Option<Target<'_>>
    ensures { option_map target_view result ≡ defined.target_of (members_view form.now) }
{
    if let Some(id) = text_of(form, "id") {
        return Some(Target::Id(id));
    }
    let value = member(form, "value")?;
    match text_of(form, "namespace") {
        Some(namespace) => Some(Target::Key(namespace, value)),
        None => Some(value_target(form, value)),
    }
}

/// The target that a literal is, with the language that the member `lang` of its form names, if it
/// has one.
fn value_target<'a>(form: &'a [(JsonText, Json)], value: &'a Json) -> Target<'a>
    ensures { target_view result ≡ option_map_or (λ lang. defined.to_text lang (view value.now))
        (defined.text_member (codes "lang") (members_view form.now))
        (defined.to_literal (view value.now)) }
{
    match text_of(form, "lang") {
        Some(lang) => Target::Text(lang, value),
        None => Target::Literal(value),
    }
}

fn neither(members: &[(JsonText, Json)]) -> bool
    ensures { result ≡ not (is_some (get (codes "connect") (members_view members.now))
        || is_some (get (codes "create") (members_view members.now))) }
{
    !has(members, "connect") && !has(members, "create")
}

/// Whether the value is a fact: a literal, or a form that neither connects nor creates.
fn is_fact(value: &Json) -> bool
    ensures { result ≡ defined.is_fact (view value.now) }
{
    match value.as_object() {
        Some(members) => neither(members),
        None => is_literal(value),
    }
}

fn none_is_fact(items: &[Json]) -> bool
    ensures { result ≡ all_items (λ item. not (defined.is_fact item)) (items_view items.now) }
{
    for item in items {
        if is_fact(item) {
            return false;
        }
    }
    true
}

/// Whether the value is a fact, or a list that has one.
fn has_fact(value: &Json) -> bool
    ensures { result ≡ defined.has_fact (view value.now) }
{
    match value.as_list() {
        Some(items) => !none_is_fact(items),
        None => is_fact(value),
    }
}

fn asks_property(name: &str) -> bool
    ensures { result ≡ option_map_or (λ n. not (names_computed n.word)) (name_of name.now) false }
{
    match name_from(name) {
        Some(name) => !is_computed(name.word),
        None => false,
    }
}

/// Whether the name may be that of a property.
fn is_property_name(name: &str) -> bool
    ensures { result ≡ defined.is_property_name name.now }
{
    if name == "create" {
        return false;
    }
    if is_directive(name) {
        return false;
    }
    asks_property(name)
}

fn is_own_fact(name: &str, value: &Json) -> bool
    ensures { result ≡ (defined.is_property_name name.now && defined.has_fact (view value.now)) }
{
    is_property_name(name) && has_fact(value)
}

/// Whether some member is a fact of a property.
fn has_own_fact(members: &[(JsonText, Json)]) -> bool
    ensures { result ≡ defined.has_own_fact (members_view members.now) }
{
    for member in members {
        if is_own_fact(member.0.as_str(), &member.1) {
            return true;
        }
    }
    false
}

/// What is to be known of a clause with these members.
pub fn setting_of(root: bool, members: &[(JsonText, Json)]) -> Setting
    ensures { setting_view result ≡ defined.setting_of root (members_view members.now) }
{
    Setting {
        at_root: root,
        creates: has(members, "create"),
        has_id: text_of(members, "id").is_some(),
        has_fact: has_own_fact(members),
    }
}
