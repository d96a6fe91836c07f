//! Members that are computed, and those of forms on values and keys.
ghost use Rattle.std.specs.Prelude.{◌≡◌, ◌≤◌, ◌+◌, ◌&&◌, None, Some, IfOk, map, codes, bytes_eq};
ghost use Rattle.gd_prim.specs.History.{prims_of};
ghost use Rattle.gd_defs.specs.Asked as defs;
ghost use Rattle.gd_defs.specs.Asked.Tests as tests;
ghost use Rattle.gd_defs.specs.Data.{anything};
ghost use Rattle.gd_defs.specs.Query as query;
ghost use Rattle.gd_json.specs.View.{view as json_of};
ghost use Rattle.gd_mql.specs.Names.{name_view};
ghost use Rattle.gd_mql.specs.Clauses.{form_view, left, with_part};
ghost use Rattle.gd_plan.specs.Asked.{put};
ghost use Rattle.gd_plan.specs.Seen.{expects_view, own_view, test_view};
ghost use Rattle.gd_compile.specs.Fault.{Finds};
ghost use Rattle.gd_compile.specs.Looks.{own_looks, itself_looks, part_looks, value_looks};
ghost use Rattle.gd_compile.specs.Walk.{Adds, Leads, clause_view};

use crate::fault::{Code, Unknown, bad};
use crate::gathered::{AskedClause, Gathered};
use crate::path::longer;
use crate::test::checked_test;
use crate::words::{is_link, own_test};
use gd_base::memory::Memory;
use gd_base::steps::Steps;
use gd_json::value::{Json, JsonText};
use gd_mql::clause::{Form, Members, Part};
use gd_mql::name::Name;
use gd_plan::View;
use gd_plan::asked::{Member, Own};
use gd_plan::expects::{Expects, has_lang};
use gd_plan::test::Test;
use std::alloc::Global;

/// The computed member that null asks.
fn plain_own(alloc: Global, name: &Name<'_>, own: Own) -> Result<Member, Memory>
    ensures { IfOk result (λ member. put member ≡ defs.own name.now.spelled.now (own_view own)
        anything None) }
{
    Ok(Member::Own {
        name: JsonText::from_str(alloc, name.spelled)?,
        own,
        test: Test::Anything,
        operand: None,
    })
}

/// The text of a name, and a copy of an operand.
fn texts_of(alloc: Global, name: &str, json: &Json) -> Result<(JsonText, Json), Memory>
    ensures name { IfOk result (λ texts. texts.0 ≡ name.now) }
    ensures operand { IfOk result (λ texts. json_of texts.1 ≡ json_of json.now) }
{
    let operand = json.copy()?;
    Ok((JsonText::from_str(alloc, name)?, operand))
}

/// The computed member that a literal or an operand asks, with its test. The operand is copied.
fn tested_own(
    alloc: Global,
    name: &Name<'_>,
    own: Own,
    json: &Json,
    test: Test,
) -> Result<Member, Memory>
    ensures { IfOk result (λ member. put member ≡ defs.own name.now.spelled.now (own_view own)
        (test_view test) (Some (json_of json.now))) }
{
    match texts_of(alloc, name.spelled, json) {
        Ok((name, operand)) => Ok(Member::Own {
            name,
            own,
            test,
            operand: Some(operand),
        }),
        Err(refused) => {
            drop(test);
            Err(refused)
        }
    }
}

/// What a computed member asks, by its form: null, or a literal or an operand with the test that
/// its word makes of it. `path` has the names that lead to the member from the root down, its own
/// among them. `BadQuery` with `ObjectForm` and the path: the form is another one; else what
/// `own_test` says. `Memory`: an allocation was refused.
pub(crate) fn own_member<L>(
    alloc: Global,
    view: &View<'_>,
    path: &[&str],
    name: &Name<'_>,
    own: Own,
    form: &Form<'_>,
    steps: &mut Steps<L>,
) -> Result<Member, Unknown>
    ensures member { Leads (defs.own_member (map (λ name. name.now) path.now) (name_view name.now)
        (own_view own) (form_view form.now)
        (defs.own_test (prims_of view.now) (map (λ name. name.now) path.now) (own_view own)
        (name_view name.now).operator)) result }
    ensures looks { steps.new ≤ steps.old + own_looks (prims_of view.now) (own_view own)
        (name_view name.now).operator (form_view form.now) }
    ensures later { steps.old ≤ steps.new }
{
    match form {
        Form::Ask => Ok(plain_own(alloc, name, own)?),
        Form::Literal(json) | Form::Operand(json) => {
            let test = own_test(alloc, view, path, own, name.operator, json, steps)?;
            Ok(tested_own(alloc, name, own, json, test)?)
        }
        Form::AskAll | Form::One(_) | Form::Many(_) => Err(bad(alloc, Code::ObjectForm, path)),
    }
}

/// What the member `value` of a form on a value or a key asks, by its form, as `own_member` says;
/// its test is one of such answers, by `checked_test`.
fn value_itself<L>(
    alloc: Global,
    view: &View<'_>,
    expects: Expects,
    path: &[&str],
    name: &Name<'_>,
    form: &Form<'_>,
    steps: &mut Steps<L>,
) -> Result<Member, Unknown>
    ensures member { Leads (defs.own_member (map (λ name. name.now) path.now) (name_view name.now)
        defs.its_value (form_view form.now)
        (tests.checked_test (prims_of view.now) (expects_view expects)
        (map (λ name. name.now) path.now) (name_view name.now).operator)) result }
    ensures looks { steps.new ≤ steps.old + itself_looks (expects_view expects)
        (form_view form.now) }
    ensures later { steps.old ≤ steps.new }
{
    match form {
        Form::Ask => Ok(plain_own(alloc, name, Own::Value)?),
        Form::Literal(json) | Form::Operand(json) => {
            let test = checked_test(alloc, view, expects, path, name.operator, json, steps)?;
            Ok(tested_own(alloc, name, Own::Value, json, test)?)
        }
        Form::AskAll | Form::One(_) | Form::Many(_) => Err(bad(alloc, Code::ObjectForm, path)),
    }
}

/// Whether the answers have a namespace, as keys do.
fn has_namespace(expects: Expects) -> bool
    ensures { result ≡ defs.has_namespace (expects_view expects) }
{
    matches!(expects, Expects::Key)
}

fn is_value(word: &str) -> bool
    ensures { result ≡ bytes_eq word.now (codes "value") }
{
    word == "value"
}

/// Whether the word asks for the namespace of such answers, which are keys.
fn is_namespace(expects: Expects, word: &str) -> bool
    ensures { result ≡ (bytes_eq word.now (codes "namespace")
        && defs.has_namespace (expects_view expects)) }
{
    word == "namespace" && has_namespace(expects)
}

/// Whether the word asks for the language of such answers, which are texts.
fn is_lang(expects: Expects, word: &str) -> bool
    ensures { result ≡ (bytes_eq word.now (codes "lang") && defs.has_lang (expects_view expects)) }
{
    word == "lang" && has_lang(expects)
}

/// What a member of a form on a value or a key asks: its link, its value, of a key the namespace,
/// or of a text the language. `BadQuery` with `ObjectForm` and the path: it is another member.
fn value_member<L>(
    alloc: Global,
    view: &View<'_>,
    expects: Expects,
    path: &[&str],
    name: &Name<'_>,
    form: &Form<'_>,
    steps: &mut Steps<L>,
) -> Result<Member, Unknown>
    ensures member { Leads (defs.value_member (prims_of view.now) (expects_view expects)
        (map (λ name. name.now) path.now) (name_view name.now) (form_view form.now)) result }
    ensures looks { steps.new ≤ steps.old + part_looks (prims_of view.now) (expects_view expects)
        (name_view name.now) (form_view form.now) }
    ensures later { steps.old ≤ steps.new }
{
    if is_link(name.word) {
        return own_member(alloc, view, path, name, Own::Link, form, steps);
    }
    if is_value(name.word) {
        return value_itself(alloc, view, expects, path, name, form, steps);
    }
    if is_namespace(expects, name.word) {
        return own_member(alloc, view, path, name, Own::Namespace, form, steps);
    }
    if is_lang(expects, name.word) {
        return own_member(alloc, view, path, name, Own::Lang, form, steps);
    }
    Err(bad(alloc, Code::ObjectForm, path))
}

/// Puts what a part of a form on a value or a key asks behind what was gathered. `BadQuery` with
/// `ObjectForm` and the path: it is `sort`.
fn add_value_part<'a, L>(
    alloc: Global,
    view: &View<'_>,
    expects: Expects,
    path: &[&'a str],
    part: &Part<'a>,
    gathered: &mut Gathered,
    steps: &mut Steps<L>,
) -> Result<(), Unknown>
    ensures part { (rest : query.Members)
        → Adds (defs.value_members (prims_of view.now) (expects_view expects)
        (map (λ name. name.now) path.entry.now) (with_part part.entry.now rest))
        (defs.value_members (prims_of view.now) (expects_view expects)
        (map (λ name. name.now) path.entry.now) rest) gathered.old gathered.new result }
    ensures looks { (rest : query.Members)
        → steps.new + value_looks (prims_of view.now) (expects_view expects) rest
        ≤ steps.old + value_looks (prims_of view.now) (expects_view expects)
        (with_part part.entry.now rest) }
    ensures later { steps.old ≤ steps.new }
{
    match part {
        Part::Member(name, form) => {
            let below = longer(alloc, path, name.spelled)?;
            let member = value_member(alloc, view, expects, &below, name, form, steps)?;
            gathered.push(member)?;
            Ok(())
        }
        Part::Sort(_) => {
            let below = longer(alloc, path, "sort")?;
            Err(bad(alloc, Code::ObjectForm, &below))
        }
    }
}

/// What the members of a form on a value or a key ask, in order; the first one that is refused is
/// refused as `value_member` says, and `sort` with `ObjectForm` and its path. `path` has the names
/// that lead to the form from the root down. `Memory`: an allocation was refused.
pub(crate) fn value_members<'a, L>(
    alloc: Global,
    view: &View<'_>,
    expects: Expects,
    path: &[&'a str],
    members: &Members<'a>,
    steps: &mut Steps<L>,
) -> Result<AskedClause, Unknown>
    ensures members { Finds clause_view
        (defs.value_members (prims_of view.now) (expects_view expects)
        (map (λ name. name.now) path.entry.now) (left members.entry.now)) result }
    ensures looks { steps.new ≤ steps.old + value_looks (prims_of view.now) (expects_view expects)
        (left members.entry.now) }
    ensures later { steps.old ≤ steps.new }
{
    let mut gathered = Gathered::new(alloc);
    let mut rest = *members;
    while let Some((part, others)) = rest.split() {
        add_value_part(alloc, view, expects, path, &part, &mut gathered, steps)?;
        rest = others;
    }
    Ok(gathered.clause(alloc))
}
