//! The first fault of form of a query: a clause itself, then its members in byte order of their
//! names.
ghost use Rattle.std.specs.Prelude.{◌≡◌, ◌||◌, ◌&&◌, ◌∷◌, [], Ok, not, option_map, if◌then◌else◌};
ghost use Rattle.std.specs.Prelude.{Some, None, false, is_some};
ghost use Rattle.std.specs.Result.{result_err};
ghost use Rattle.gd_tree.specs.Json.{list, item, no_items};
ghost use Rattle.gd_tree.specs.Look.{members_in};
ghost use Rattle.gd_defs.specs.Query as defined;
ghost use Rattle.gd_json.specs.View.{view, items_view, members_view};
ghost use Rattle.gd_form_laws.specs.Faults.{clause_fault, member_fault, form_fault, value_fault};
ghost use Rattle.gd_form_laws.specs.Faults.{query_fault, below as seen_below};
ghost use Rattle.gd_mql.specs.Directives.{word_name};
ghost use Rattle.gd_mql.specs.FormFault.{Checks};
ghost use Rattle.gd_mql.specs.Names.{name_view};
ghost use Rattle.gd_mql.specs.QueryForm.{NameGives, takes_operand};

use crate::directive::{DirectiveWord, directive_fits, directive_word};
use crate::form_fault::{FormFault, below, fault_at, root_fault};
use crate::name::{Name, Operator, name_from};
use crate::operand::{is_computed, is_left_out, is_link, operand_fits};
use gd_fault::fault::Code;
use gd_json::value::{Json, JsonText};
use std::alloc::Global;

/// Whether the name may stand in a clause, at the root or elsewhere: `link` is no word at the root,
/// and computed words take no `!`.
fn may_stand(root: bool, name: &Name<'_>) -> bool
    ensures { result ≡ not ((name.now.reversed && defined.is_computed name.now.word.now)
        || (root && defined.is_link name.now.word.now)) }
{
    !(name.reversed && is_computed(name.word)) && !(root && is_link(name.word))
}

/// The name of a member that is no directive; or the code of the fault at that member.
pub fn member_name(root: bool, spelled: &str) -> Result<Name<'_>, Code>
    ensures { NameGives root spelled.now result }
{
    let Some(name) = name_from(spelled) else {
        return Err(Code::BadWord);
    };
    if is_left_out(name.word) {
        return Err(Code::LeftOut);
    }
    if !may_stand(root, &name) {
        return Err(Code::BadWord);
    }
    Ok(name)
}

/// Whether the name ends with an operator.
pub fn has_operator(name: &Name<'_>) -> bool
    ensures { result ≡ defined.has_operator (name_view name.now) }
{
    match name.operator {
        Operator::Absent => false,
        _ => true,
    }
}

/// Whether the value is a list that is neither empty nor of one object.
fn is_other_list(value: &Json) -> bool
    ensures { result ≡ defined.is_other_list (view value.now) }
{
    match value.as_list() {
        Some(items) => is_other(items),
        None => false,
    }
}

fn is_other(items: &[Json]) -> bool
    ensures { result ≡ defined.is_other_list (list (items_view items.now)) }
{
    match items {
        [] => false,
        [sole] => !is_object(sole),
        _ => true,
    }
}

/// Whether the value is an object.
pub fn is_object(value: &Json) -> bool
    ensures { result ≡ is_some (members_in (view value.now)) }
{
    value.as_object().is_some()
}

fn is_plain_word(word: &str) -> bool
    ensures { result ≡ not (defined.is_computed word.now || defined.is_link word.now) }
{
    !is_computed(word) && !is_link(word)
}

/// Whether the value stands for an operand: behind an operator, and at a computed word or `link`,
/// unless it is null or a list that is none.
pub fn wants_operand(name: &Name<'_>, value: &Json) -> bool
    ensures { result ≡ takes_operand (name_view name.now) (view value.now) }
{
    if has_operator(name) {
        return true;
    }
    if is_plain_word(name.word) {
        return false;
    }
    !value.is_null() && !is_other_list(value)
}

fn check_operand(alloc: Global, name: &Name<'_>, value: &Json) -> Result<(), FormFault>
    ensures { Checks (if defined.operand_fits (name_view name.now) (view value.now) then None
        else Some (record { code = defined.bad_operand; path = name.now.spelled.now ∷ [] }))
        result }
{
    if operand_fits(name, value) {
        Ok(())
    } else {
        Err(fault_at(alloc, Code::BadOperand, name.spelled))
    }
}

fn check_directive(
    alloc: Global,
    root: bool,
    word: DirectiveWord,
    value: &Json,
) -> Result<(), FormFault>
    ensures { Checks (result_err (defined.with_directive root (word_name word) (view value.now)
        (Ok (defined.no_directives, defined.no_members)))) result }
{
    if directive_fits(root, word, value) {
        Ok(())
    } else {
        Err(fault_at(alloc, Code::BadDirective, word.name()))
    }
}

/// The first fault of a clause of these members, at the root or elsewhere.
#[cycle(check_clause)]
pub fn check_clause(
    alloc: Global,
    root: bool,
    members: &[(JsonText, Json)],
) -> Result<(), FormFault>
    ensures { Checks (clause_fault root (members_view members.now)) result }
{
    for member in members {
        check_member(alloc, root, &member.0, &member.1)?;
    }
    Ok(())
}

#[cycle(check_clause)]
fn check_member(alloc: Global, root: bool, name: &JsonText, value: &Json) -> Result<(), FormFault>
    ensures { Checks (member_fault root name.now (view value.now)) result }
{
    let spelled = name.as_str();
    if let Some(word) = directive_word(spelled) {
        return check_directive(alloc, root, word, value);
    }
    match member_name(root, spelled) {
        Ok(name) => check_form(alloc, &name, value),
        Err(code) => Err(fault_at(alloc, code, spelled)),
    }
}

#[cycle(check_clause)]
fn check_form(alloc: Global, name: &Name<'_>, value: &Json) -> Result<(), FormFault>
    ensures { Checks (value_fault (name_view name.now) (view value.now)) result }
{
    if wants_operand(name, value) {
        check_operand(alloc, name, value)
    } else {
        check_value(alloc, name, value)
    }
}

#[cycle(check_clause)]
#[tactic(auto, unfolding(gd_form_laws::specs::Faults::form_fault))]
fn check_value(alloc: Global, name: &Name<'_>, value: &Json) -> Result<(), FormFault>
    ensures { Checks (form_fault (name_view name.now) (view value.now)) result }
{
    match value {
        Json::Object(members) => check_below(alloc, name, members),
        Json::List(items) => check_list(alloc, name, items),
        _ => Ok(()),
    }
}

#[cycle(check_clause)]
fn check_list(alloc: Global, name: &Name<'_>, items: &[Json]) -> Result<(), FormFault>
    ensures { Checks (form_fault (name_view name.now) (list (items_view items.now))) result }
{
    match items {
        [] => Ok(()),
        [sole] => check_sole(alloc, name, sole),
        _ => Err(fault_at(alloc, Code::ListForm, name.spelled)),
    }
}

#[cycle(check_clause)]
#[tactic(auto, unfolding(gd_form_laws::specs::Faults::form_fault))]
fn check_sole(alloc: Global, name: &Name<'_>, sole: &Json) -> Result<(), FormFault>
    ensures { Checks (form_fault (name_view name.now) (list (item (view sole.now) no_items)))
        result }
{
    match sole {
        Json::Object(members) => check_below(alloc, name, members),
        _ => Err(fault_at(alloc, Code::ListForm, name.spelled)),
    }
}

#[cycle(check_clause)]
fn check_below(
    alloc: Global,
    name: &Name<'_>,
    members: &[(JsonText, Json)],
) -> Result<(), FormFault>
    ensures { Checks (option_map (seen_below name.now.spelled.now)
        (clause_fault false (members_view members.now))) result }
{
    match check_clause(alloc, false, members) {
        Ok(()) => Ok(()),
        Err(fault) => Err(below(alloc, name.spelled, fault)),
    }
}

/// The first fault of the query of a read: `{..}` or `[{..}]`.
#[tactic(auto, unfolding(gd_form_laws::specs::Faults::query_fault))]
pub fn check_query(alloc: Global, query: &Json) -> Result<(), FormFault>
    ensures { Checks (query_fault (view query.now)) result }
{
    match query {
        Json::Object(members) => check_clause(alloc, true, members),
        Json::List(items) => check_query_list(alloc, items),
        _ => Err(root_fault(alloc, Code::Envelope)),
    }
}

fn check_query_list(alloc: Global, items: &[Json]) -> Result<(), FormFault>
    ensures { Checks (query_fault (list (items_view items.now))) result }
{
    match items {
        [] => Err(root_fault(alloc, Code::Envelope)),
        [sole] => check_query_sole(alloc, sole),
        _ => Err(root_fault(alloc, Code::ListForm)),
    }
}

#[tactic(auto, unfolding(gd_form_laws::specs::Faults::query_fault))]
fn check_query_sole(alloc: Global, sole: &Json) -> Result<(), FormFault>
    ensures { Checks (query_fault (list (item (view sole.now) no_items))) result }
{
    match sole {
        Json::Object(members) => check_clause(alloc, true, members),
        _ => Err(root_fault(alloc, Code::ListForm)),
    }
}
