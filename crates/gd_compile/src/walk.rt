//! The clauses of a query, walked with their words looked up.
ghost use Rattle.std.specs.Prelude.{◌≡◌, ◌≤◌, ◌+◌, true, OnOk, is_none, map, option_map};
ghost use Rattle.std.specs.Option.{option_or};
ghost use Rattle.gd_base.specs.Counts.{Rose};
ghost use Rattle.gd_prim.specs.History.{prims_of};
ghost use Rattle.gd_defs.specs.Asked as defs;
ghost use Rattle.gd_defs.specs.Asked.Tests.{tested_as};
ghost use Rattle.gd_defs.specs.Property.{expects_of};
ghost use Rattle.gd_defs.specs.Query as query;
ghost use Rattle.gd_tree.specs.Look.{text_of};
ghost use Rattle.gd_json.specs.View.{view as json_of};
ghost use Rattle.gd_mql.specs.Names.{name_view, operator_view};
ghost use Rattle.gd_mql.specs.Clauses.{clause_view as clause_spelled, form_view, left, sort_view};
ghost use Rattle.gd_mql.specs.Clauses.{with_part};
ghost use Rattle.gd_plan.specs.Asked.{put};
ghost use Rattle.gd_compile.specs.Fault.{Finds};
ghost use Rattle.gd_compile.specs.Looks.{operand_steps, looks, member_looks, form_looks};
ghost use Rattle.gd_compile.specs.Looks.{below_looks, clause_looks};
ghost use Rattle.gd_compile.specs.Walk.{Adds, Leads, asked_below, asked_clause, asked_member};
ghost use Rattle.gd_compile.specs.Walk.{asks_property, clause_view, object_form, part_asks};
ghost use Rattle.gd_compile.specs.Walk.{tested_form};

use crate::asking::{ask_form, clause_form, operand_form};
use crate::fault::Unknown;
use crate::gathered::{AskedClause, Gathered};
use crate::own::{own_member, value_members};
use crate::path::longer;
use crate::sort::{same, sort_keys};
use crate::test::checked_test;
use crate::words::{context_of, member_property, own_of};
use gd_base::id::Id;
use gd_base::steps::Steps;
use gd_json::value::Json;
use gd_mql::clause::{Clause, Form, Members, Part, SortWords};
use gd_mql::name::{Name, Operator};
use gd_plan::asked::Member;
use gd_plan::expects::{expects_of, holds_values};
use gd_plan::{Property, View};
use std::alloc::Global;

/// The text that a literal is.
fn text_of(json: &Json) -> Option<&str>
    ensures { option_map (λ text. text.now) result ≡ text_of (json_of json.entry.now) }
{
    match json.as_text() {
        Some(text) => Some(text.as_str()),
        None => None,
    }
}

/// The text of a part that is the plain member `type` with a text.
fn part_type<'a>(part: &Part<'a>) -> Option<&'a str>
    ensures { (ms : query.Members) → defs.type_text (with_part part.entry.now ms)
        ≡ option_or (option_map (λ text. text.now) result) (defs.type_text ms) }
{
    match part {
        Part::Member(name, Form::Literal(json)) => {
            if name.spelled == "type" {
                text_of(json)
            } else {
                None
            }
        }
        _ => None,
    }
}

/// The text of the plain member `type`, if the members have it.
fn type_text<'a>(members: &Members<'a>) -> Option<&'a str>
    ensures { option_map (λ text. text.now) result ≡ defs.type_text (left members.entry.now) }
{
    let mut rest = *members;
    while let Some((part, others)) = rest.split() {
        if let Some(text) = part_type(&part) {
            return Some(text);
        }
        rest = others;
    }
    None
}

/// What a literal or an operand asks of a property, with the test that its operator makes of it.
fn tested_form<L>(
    alloc: Global,
    view: &View<'_>,
    path: &[&str],
    name: &Name<'_>,
    property: &Property,
    operator: Operator,
    literal: bool,
    json: &Json,
    steps: &mut Steps<L>,
) -> Result<Member, Unknown>
    ensures form { Finds put (tested_form (prims_of view.now) (map (λ name. name.now) path.now)
        name.now.spelled.now property.now (operator_view operator) literal (json_of json.now))
        result }
    ensures looks { steps.new ≤ steps.old + operand_steps
        (tested_as (expects_of property.now.expected)) (json_of json.now) }
    ensures later { steps.old ≤ steps.new }
{
    let expects = expects_of(property.expected);
    let test = checked_test(alloc, view, expects, path, operator, json, steps)?;
    Ok(operand_form(alloc, name.spelled, property, expects, literal, json, test)?)
}

/// Puts the sort keys of a clause behind what was gathered of it.
fn add_sort<'a, L>(
    alloc: Global,
    view: &View<'_>,
    context: Option<Id>,
    path: &[&'a str],
    words: &SortWords<'_>,
    gathered: &mut Gathered,
    steps: &mut Steps<L>,
) -> Result<(), Unknown>
    ensures part { (rest : query.Members)
        → Adds (defs.asked (prims_of view.now) context (map (λ name. name.now) path.entry.now)
        (query.sort_by (sort_view words.now) rest))
        (defs.asked (prims_of view.now) context (map (λ name. name.now) path.entry.now) rest)
        gathered.old gathered.new result }
    ensures looks { (rest : query.Members) → steps.new + looks (prims_of view.now) context rest
        ≤ steps.old + looks (prims_of view.now) context
        (query.sort_by (sort_view words.now) rest) }
    ensures later { steps.old ≤ steps.new }
{
    let below = longer(alloc, path, "sort")?;
    let keys = sort_keys(alloc, view, context, &below, words, steps)?;
    gathered.sort_by(keys);
    Ok(())
}

/// What a clause asks in its context type, with its members in order and its sort words at their
/// place; the first that is refused decides. `path` has the names that lead to the clause from the
/// root down. `Memory`: an allocation was refused.
#[cycle(asked)]
fn asked<'a, L>(
    alloc: Global,
    view: &View<'_>,
    context: Option<Id>,
    path: &[&'a str],
    members: &Members<'a>,
    steps: &mut Steps<L>,
) -> Result<AskedClause, Unknown>
    ensures asked { Finds clause_view
        (defs.asked (prims_of view.now) context (map (λ name. name.now) path.entry.now)
        (left members.entry.now)) result }
    ensures looks { steps.new ≤ steps.old + looks (prims_of view.now) context
        (left members.entry.now) }
    ensures later { steps.old ≤ steps.new }

    // Where a member asks a property, something was looked at.
    ensures counted { OnOk result (asks_property (left members.entry.now) ≡ true
        → Rose steps.old steps.new) }
{
    let mut gathered = Gathered::new(alloc);
    let mut rest = *members;
    while let Some((part, others)) = rest.split() {
        add_part(
            alloc,
            view,
            same(&context),
            path,
            &part,
            &mut gathered,
            steps,
        )?;
        rest = others;
    }
    Ok(gathered.clause(alloc))
}

/// Puts what a part of a clause asks behind what was gathered.
#[cycle(asked)]
fn add_part<'a, L>(
    alloc: Global,
    view: &View<'_>,
    context: Option<Id>,
    path: &[&'a str],
    part: &Part<'a>,
    gathered: &mut Gathered,
    steps: &mut Steps<L>,
) -> Result<(), Unknown>
    ensures part { (rest : query.Members)
        → Adds (defs.asked (prims_of view.now) context (map (λ name. name.now) path.entry.now)
        (with_part part.entry.now rest))
        (defs.asked (prims_of view.now) context (map (λ name. name.now) path.entry.now) rest)
        gathered.old gathered.new result }
    ensures looks { (rest : query.Members) → steps.new + looks (prims_of view.now) context rest
        ≤ steps.old + looks (prims_of view.now) context (with_part part.entry.now rest) }
    ensures later { steps.old ≤ steps.new }
    ensures counted { OnOk result (part_asks part.entry.now ≡ true → Rose steps.old steps.new) }
{
    match part {
        Part::Member(name, form) => {
            let below = longer(alloc, path, name.spelled)?;
            let member = asked_member(alloc, view, context, &below, name, form, steps)?;
            gathered.push(member)?;
            Ok(())
        }
        Part::Sort(words) => add_sort(alloc, view, context, path, words, gathered, steps),
    }
}

/// What a member of a clause asks: a computed word, or a property.
#[cycle(asked)]
fn asked_member<'a, L>(
    alloc: Global,
    view: &View<'_>,
    context: Option<Id>,
    path: &[&'a str],
    name: &Name<'a>,
    form: &Form<'a>,
    steps: &mut Steps<L>,
) -> Result<Member, Unknown>
    ensures member { Leads (asked_member (prims_of view.now) context
        (map (λ name. name.now) path.entry.now) (name_view name.entry.now)
        (form_view form.entry.now)) result }
    ensures looks { steps.new ≤ steps.old + member_looks (prims_of view.now) context
        (name_view name.entry.now) (form_view form.entry.now) }
    ensures later { steps.old ≤ steps.new }
    ensures counted { OnOk result (is_none (defs.own_of name.entry.now.word.now) ≡ true
        → Rose steps.old steps.new) }
{
    match own_of(name.word) {
        Some(own) => own_member(alloc, view, path, name, own, form, steps),
        None => {
            let property = member_property(alloc, view, context, path, name, steps)?;
            asked_form(alloc, view, path, name, &property, form, steps)
        }
    }
}

/// What a member asks of its property, by its form.
#[cycle(asked)]
fn asked_form<'a, L>(
    alloc: Global,
    view: &View<'_>,
    path: &[&'a str],
    name: &Name<'a>,
    property: &Property,
    form: &Form<'a>,
    steps: &mut Steps<L>,
) -> Result<Member, Unknown>
    ensures form { Finds put (defs.asked_form (prims_of view.now)
        (map (λ name. name.now) path.entry.now) (name_view name.entry.now) property.now
        (form_view form.entry.now)) result }
    ensures looks { steps.new ≤ steps.old + form_looks (prims_of view.now) property.now.expected
        (form_view form.entry.now) }
    ensures later { steps.old ≤ steps.new }
{
    match form {
        Form::Ask => Ok(ask_form(alloc, name.spelled, property, false)?),
        Form::AskAll => Ok(ask_form(alloc, name.spelled, property, true)?),
        Form::Literal(json) => {
            tested_form(
                alloc,
                view,
                path,
                name,
                property,
                Operator::Absent,
                true,
                json,
                steps,
            )
        }
        Form::Operand(json) => {
            tested_form(
                alloc,
                view,
                path,
                name,
                property,
                name.operator,
                false,
                json,
                steps,
            )
        }
        Form::One(clause) => {
            asked_object(alloc, view, path, name, property, clause, false, steps)
        }
        Form::Many(clause) => {
            asked_object(alloc, view, path, name, property, clause, true, steps)
        }
    }
}

/// What `{..}` asks of a property, or `[{..}]` where a list is asked for.
#[cycle(asked)]
fn asked_object<'a, L>(
    alloc: Global,
    view: &View<'_>,
    path: &[&'a str],
    name: &Name<'a>,
    property: &Property,
    clause: &Clause<'a>,
    listed: bool,
    steps: &mut Steps<L>,
) -> Result<Member, Unknown>
    ensures form { Finds put (object_form (prims_of view.now)
        (map (λ name. name.now) path.entry.now) name.entry.now.spelled.now property.now
        (clause_spelled clause.entry.now) listed) result }
    ensures looks { steps.new ≤ steps.old + below_looks (prims_of view.now) property.now.expected
        (clause_spelled clause.entry.now).1 }
    ensures later { steps.old ≤ steps.new }
{
    let below = asked_below(alloc, view, path, property, clause, steps)?;
    Ok(clause_form(
        alloc,
        name.spelled,
        property,
        &clause.directives(),
        listed,
        below,
    )?)
}

/// What a form below a property asks: of values and keys their members, of objects a clause in its
/// context type.
#[cycle(asked)]
fn asked_below<'a, L>(
    alloc: Global,
    view: &View<'_>,
    path: &[&'a str],
    property: &Property,
    clause: &Clause<'a>,
    steps: &mut Steps<L>,
) -> Result<AskedClause, Unknown>
    ensures below { Finds clause_view
        (asked_below (prims_of view.now) (map (λ name. name.now) path.entry.now) property.now
        (clause_spelled clause.entry.now).1) result }
    ensures looks { steps.new ≤ steps.old + below_looks (prims_of view.now) property.now.expected
        (clause_spelled clause.entry.now).1 }
    ensures later { steps.old ≤ steps.new }
{
    let expects = expects_of(property.expected);
    if holds_values(expects) {
        value_members(alloc, view, expects, path, &clause.members(), steps)
    } else {
        asked_clause(alloc, view, property.expected, path, clause, steps)
    }
}

/// What a clause asks in its context type: what the text of its member `type` names, else the type
/// that is passed.
#[cycle(asked)]
pub(crate) fn asked_clause<'a, L>(
    alloc: Global,
    view: &View<'_>,
    above: Option<Id>,
    path: &[&'a str],
    clause: &Clause<'a>,
    steps: &mut Steps<L>,
) -> Result<AskedClause, Unknown>
    ensures asked { Finds clause_view
        (asked_clause (prims_of view.now) above (map (λ name. name.now) path.entry.now)
        (clause_spelled clause.entry.now).1) result }
    ensures looks { steps.new ≤ steps.old + clause_looks (prims_of view.now) above
        (clause_spelled clause.entry.now).1 }
    ensures later { steps.old ≤ steps.new }
    ensures counted { OnOk result (asks_property (clause_spelled clause.entry.now).1 ≡ true
        → Rose steps.old steps.new) }
{
    let members = clause.members();
    let context = context_of(alloc, view, above, type_text(&members), steps)?;
    asked(alloc, view, context, path, &members, steps)
}
