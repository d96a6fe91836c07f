//! What a clause prints of an object, written as it is found.
ghost use Rattle.std.specs.Prelude.{◌≡◌, List, IfErr, IfOk, OnOk, map, ◌∷◌};
ghost use Rattle.std.specs.Prelude.{option_map, true, false};
ghost use Rattle.json.specs.Token.{Token};
ghost use Rattle.gd_bytes.specs.Frozen.{Walk};
ghost use Rattle.gd_defs.specs.Asked as defs;
ghost use Rattle.gd_defs.specs.Property.{answer_datum};
ghost use Rattle.gd_defs.specs.Reply as reply;
ghost use Rattle.gd_json.specs.View.{view};
ghost use Rattle.gd_match_laws.specs.Walks.{id_of, own_listed, where_id};
ghost use Rattle.gd_match_laws.specs.Walks.{each_listed, object_listed};
ghost use Rattle.gd_plan.specs.Asked.{asking_view, members_view, put, style_view};
ghost use Rattle.gd_plan.specs.Seen.{own_view};
ghost use Rattle.gd_runs.specs.Shape.{name_shape, own_shape};
ghost use Rattle.gd_runs.specs.Shape.{each_shape, list_shape, object_shape};
ghost use Rattle.gd_trees.specs.View.{view as tree_view};
ghost use Rattle.gd_shape.specs.InTrees.{lists_view};
ghost use Rattle.gd_shape.specs.Knowing.{IsKnownOf};
ghost use Rattle.gd_shape.specs.Listed.{answer_listed, asks_listed, first_listed};
ghost use Rattle.gd_shape.specs.Outcome.{beside, seen, written, Adds, Lacks, LacksOf};
ghost use Rattle.gd_shape.specs.Printed as print;
ghost use Rattle.gd_shape.specs.Ranking.{ranked_view};

use crate::answer::{Answer, behind_member, first_place};
use crate::cut::cut;
use crate::datum::{write_answer_id, write_answer_value, write_own, write_value_at};
use crate::known::Known;
use crate::lists::first_trees;
use crate::ranked::Ranked;
use crate::sight::{Lack, Sight};
use crate::told::Told;
use gd_base::memory::Memory;
use gd_json::text::write;
use gd_json::value::{Json, JsonText};
use gd_plan::Property;
use gd_plan::asked::{Asking, Member, Own, Style};
use gd_trees::tree::{Tree, Trees};
use json::Writer;
use std::alloc::Global;

/// The names of the members that lead to two answers where one is asked.
pub(crate) type Names = Vec<JsonText>;

/// Writes the first name that the lists of an object have, or null.
#[tactic(auto, using(crate::proofs::Prints::named, crate::proofs::Prints::unnamed))]
fn write_name(
    alloc: Global,
    out: &mut Writer,
    sight: &Sight<'_>,
    lists: &[Trees],
) -> Result<(), Memory>
    ensures printed { OnOk result (Adds out.old.tokens out.new.tokens
        (name_shape sight.now (lists_view lists.now))) }
    ensures before { out.new.before ≡ out.old.before }
{
    match first_place(first_trees(lists)) {
        Some(place) => write_value_at(alloc, out, sight, place)?,
        None => out.null()?,
    }
    Ok(())
}

/// Writes an answer in a style that is not its clause's, from its link and the lists of the object
/// there.
fn write_style(
    alloc: Global,
    out: &mut Writer,
    sight: &Sight<'_>,
    ids: &Known,
    told: &mut Told<'_>,
    property: &Property,
    style: &Style,
    row: &Ranked<'_>,
) -> Result<(), Lack>
    requires { IsKnownOf sight.now ids.now }
    ensures printed { OnOk result (Adds out.old.tokens out.new.tokens
        (print.style_print sight.now property.now row.now.link (lists_view row.now.lists.now)
        (style_view style.now) told.old).0) }
    ensures left { OnOk result (told.new
        ≡ (print.style_print sight.now property.now row.now.link (lists_view row.now.lists.now)
        (style_view style.now) told.old).1) }
    ensures before { out.new.before ≡ out.old.before }
    ensures lacks { IfErr result (λ lack. Lacks ids.now lack) }
    ensures listed { IfErr result (λ lack. LacksOf
        (where_id (style_view style.now) (id_of (answer_datum sight.now property.now row.now.link))) lack) }
{
    match style {
        Style::Operand(json) => write(out, json)?,
        Style::Value => write_answer_value(alloc, out, sight, property, row.link)?,
        Style::Id => write_answer_id(alloc, out, sight, ids, told, property, row.link)?,
        Style::Name | Style::Clause => write_name(alloc, out, sight, row.lists)?,
    }
    Ok(())
}

/// The operand that a literal or an operator prints in place of its answers.
pub(crate) fn operand(style: &Style) -> Option<&Json>
    ensures { option_map (λ json. view json.now) result ≡ reply.operand_of (style_view style.now) }
{
    match style {
        Style::Operand(json) => Some(json),
        _ => None,
    }
}

/// Whether answers print the members of their clause.
pub(crate) fn is_clause(style: &Style) -> bool
    ensures { result ≡ reply.is_clause (style_view style.now) }
{
    matches!(style, Style::Clause)
}

/// More than one was found where one is asked.
fn is_ambiguous(single: bool, found: usize) -> bool
    ensures { result ≡ reply.is_ambiguous single found }
{
    single && found > 1
}

/// A path below a member of this name.
fn with_name(name: &JsonText, names: Names) -> Result<Names, Memory>
    ensures { IfOk result (λ path. path.items ≡ name.now ∷ names.items) }
{
    let mut path = names;
    path.insert(0, name.copy()?)?;
    Ok(path)
}

/// The outcome below a member, whose name begins the path of two answers.
fn under(name: &JsonText, printed: Result<(), Names>) -> Result<Result<(), Names>, Memory>
    ensures { IfOk result (λ outcome. (out : List Token × List Walk) → seen (λ _. out) outcome
        ≡ reply.under name.now (seen (λ _. out) printed)) }
{
    match printed {
        Ok(()) => Ok(Ok(())),
        Err(names) => Ok(Err(with_name(name, names)?)),
    }
}

/// Writes what a computed member prints: its operand, or what it tells.
fn write_own_or(
    alloc: Global,
    out: &mut Writer,
    sight: &Sight<'_>,
    ids: &Known,
    told: &mut Told<'_>,
    own: Own,
    operand: &Option<Json>,
    at: &Answer<'_>,
) -> Result<(), Lack>
    requires { IsKnownOf sight.now ids.now }
    ensures printed { OnOk result (Adds out.old.tokens out.new.tokens
        (own_shape sight.now (own_view own) (option_map view operand.now) at.now.link at.now.object
        told.old).0) }
    ensures left { OnOk result (told.new
        ≡ (own_shape sight.now (own_view own) (option_map view operand.now) at.now.link
        at.now.object told.old).1) }
    ensures before { out.new.before ≡ out.old.before }
    ensures lacks { IfErr result (λ lack. Lacks ids.now lack) }
    ensures listed { IfErr result (λ lack. LacksOf
        (own_listed sight.now (own_view own) (option_map view operand.now) at.now.link
        at.now.object) lack) }
{
    match operand {
        Some(json) => write(out, json)?,
        None => write_own(alloc, out, sight, ids, told, own, at.link, at.object)?,
    }
    Ok(())
}

/// The name of a member.
fn name_of(member: &Member) -> &JsonText
    ensures { result.now ≡ print.first_name (put member.now defs.no_members) }
{
    match member {
        Member::Own { name, .. } => name,
        Member::Asks { name, .. } => name,
    }
}

/// Writes the object of what members print of an object from the lists of its clauses, or finds the
/// first path of two answers.
#[cycle(print)]
#[tactic(auto, using(crate::proofs::Written::object_begins, crate::proofs::Members::members_more, crate::proofs::Members::members_path, crate::proofs::Members::members_all, crate::proofs::Listed::among_behind, crate::proofs::Listed::member_lacks))]
pub(crate) fn write_object(
    alloc: Global,
    out: &mut Writer,
    sight: &Sight<'_>,
    ids: &Known,
    told: &mut Told<'_>,
    members: &[Member],
    at: &Answer<'_>,
) -> Result<Result<(), Names>, Lack>
    requires { IsKnownOf sight.now ids.now }
    ensures printed { IfOk result (λ outcome. seen (λ _. (out.new.tokens, told.new)) outcome
        ≡ written out.old.tokens (print.as_object (object_shape sight.now
        (members_view members.now) at.now.link at.now.object (lists_view at.now.lists.now)
        told.old))) }
    ensures before { out.new.before ≡ out.old.before }
    ensures lacks { IfErr result (λ lack. Lacks ids.now lack) }
    ensures listed { IfErr result (λ lack. LacksOf
        (object_listed sight.now (members_view members.now) at.now.link at.now.object
        (lists_view at.now.lists.now)) lack) }
{
    out.begin_object()?;
    let mut lists = at.lists;
    for member in members {
        out.key(name_of(member).as_str())?;
        match write_member(alloc, out, sight, ids, told, member, at, lists)? {
            Ok(()) => {}
            Err(names) => return Ok(Err(names)),
        }
        lists = behind_member(member, lists);
    }
    out.end_object()?;
    Ok(Ok(()))
}

/// Writes what a member prints of an object from the lists from its own on.
#[cycle(print)]
fn write_member(
    alloc: Global,
    out: &mut Writer,
    sight: &Sight<'_>,
    ids: &Known,
    told: &mut Told<'_>,
    member: &Member,
    at: &Answer<'_>,
    lists: &[Trees],
) -> Result<Result<(), Names>, Lack>
    requires { IsKnownOf sight.now ids.now }
    ensures printed { IfOk result (λ outcome. seen (λ _. (out.new.tokens, told.new)) outcome
        ≡ written out.old.tokens (print.first_print sight.now (put member.now defs.no_members)
        at.now.link at.now.object (lists_view lists.now) told.old)) }
    ensures before { out.new.before ≡ out.old.before }
    ensures lacks { IfErr result (λ lack. Lacks ids.now lack) }
    ensures listed { IfErr result (λ lack. LacksOf
        (first_listed sight.now (put member.now defs.no_members) at.now.link at.now.object
        (lists_view lists.now)) lack) }
{
    match member {
        Member::Own { own, operand, .. } => {
            write_own_or(alloc, out, sight, ids, told, *own, operand, at)?;
            Ok(Ok(()))
        }
        Member::Asks {
            name,
            asking,
            clause,
        } => {
            let outcome = write_asks(
                alloc,
                out,
                sight,
                ids,
                told,
                clause,
                asking,
                first_trees(lists),
            )?;
            Ok(under(name, outcome)?)
        }
    }
}

/// Writes what a member that asks a property prints of the trees of its links.
#[cycle(print)]
#[tactic(auto, using(crate::proofs::Prints::asks_given, crate::proofs::Prints::asks_twice, crate::proofs::Prints::asks_found, crate::proofs::Listed::asks_lacks))]
fn write_asks(
    alloc: Global,
    out: &mut Writer,
    sight: &Sight<'_>,
    ids: &Known,
    told: &mut Told<'_>,
    clause: &[Member],
    asking: &Asking,
    trees: &[Tree],
) -> Result<Result<(), Names>, Lack>
    requires { IsKnownOf sight.now ids.now }
    ensures printed { IfOk result (λ outcome. seen (λ _. (out.new.tokens, told.new)) outcome
        ≡ written out.old.tokens (print.asks_print sight.now (asking_view asking.now)
        (members_view clause.now) (map tree_view trees.now) told.old)) }
    ensures before { out.new.before ≡ out.old.before }
    ensures lacks { IfErr result (λ lack. Lacks ids.now lack) }
    ensures listed { IfErr result (λ lack. LacksOf
        (asks_listed sight.now (asking_view asking.now) (members_view clause.now)
        (map tree_view trees.now)) lack) }
{
    if let Some(json) = operand(&asking.style) {
        write(out, json)?;
        return Ok(Ok(()));
    }
    if is_ambiguous(asking.single, trees.len()) {
        return Ok(Err(Vec::new(alloc)));
    }
    let rows = cut(alloc, sight, asking, clause, trees)?;
    write_answers(
        alloc,
        out,
        sight,
        ids,
        told,
        clause,
        asking,
        rows.as_slice(),
    )
}

/// Writes answers as a list, or the first of them, or null where there is none.
#[cycle(print)]
fn write_answers(
    alloc: Global,
    out: &mut Writer,
    sight: &Sight<'_>,
    ids: &Known,
    told: &mut Told<'_>,
    clause: &[Member],
    asking: &Asking,
    rows: &[Ranked<'_>],
) -> Result<Result<(), Names>, Lack>
    requires { IsKnownOf sight.now ids.now }
    ensures printed { IfOk result (λ outcome. seen (λ _. (out.new.tokens, told.new)) outcome
        ≡ written out.old.tokens (list_shape asking.now.listed (each_shape
        (print.answer_print sight.now (asking_view asking.now) (members_view clause.now))
        (map ranked_view rows.now) told.old))) }
    ensures before { out.new.before ≡ out.old.before }
    ensures lacks { IfErr result (λ lack. Lacks ids.now lack) }
    ensures listed { IfErr result (λ lack. LacksOf
        (each_listed (answer_listed sight.now (asking_view asking.now) (members_view clause.now))
        (map ranked_view rows.now)) lack) }
{
    if asking.listed {
        return write_each(alloc, out, sight, ids, told, clause, asking, rows);
    }
    write_first(alloc, out, sight, ids, told, clause, asking, rows)
}

/// Writes the list of answers as they print, or finds the first path of two answers.
#[cycle(print)]
#[tactic(auto, using(crate::proofs::Written::list_begins, crate::proofs::Prints::each_more, crate::proofs::Prints::each_path, crate::proofs::Prints::each_all, crate::proofs::Listed::each_lacks))]
fn write_each(
    alloc: Global,
    out: &mut Writer,
    sight: &Sight<'_>,
    ids: &Known,
    told: &mut Told<'_>,
    clause: &[Member],
    asking: &Asking,
    rows: &[Ranked<'_>],
) -> Result<Result<(), Names>, Lack>
    requires { IsKnownOf sight.now ids.now }
    ensures printed { IfOk result (λ outcome. seen (λ _. (out.new.tokens, told.new)) outcome
        ≡ written out.old.tokens (list_shape true (each_shape
        (print.answer_print sight.now (asking_view asking.now) (members_view clause.now))
        (map ranked_view rows.now) told.old))) }
    ensures before { out.new.before ≡ out.old.before }
    ensures lacks { IfErr result (λ lack. Lacks ids.now lack) }
    ensures listed { IfErr result (λ lack. LacksOf
        (each_listed (answer_listed sight.now (asking_view asking.now) (members_view clause.now))
        (map ranked_view rows.now)) lack) }
{
    out.begin_array()?;
    for row in rows {
        match write_answer(alloc, out, sight, ids, told, clause, asking, row)? {
            Ok(()) => {}
            Err(names) => return Ok(Err(names)),
        }
    }
    out.end_array()?;
    Ok(Ok(()))
}

/// Writes the first of answers, or null where there is none. A path of two answers in those behind
/// it is found too.
#[cycle(print)]
#[tactic(auto, using(crate::proofs::Prints::first_more, crate::proofs::Prints::first_fails, crate::proofs::Prints::no_first, crate::proofs::Listed::first_lacks, crate::proofs::Listed::rest_lack))]
fn write_first(
    alloc: Global,
    out: &mut Writer,
    sight: &Sight<'_>,
    ids: &Known,
    told: &mut Told<'_>,
    clause: &[Member],
    asking: &Asking,
    rows: &[Ranked<'_>],
) -> Result<Result<(), Names>, Lack>
    requires { IsKnownOf sight.now ids.now }
    ensures printed { IfOk result (λ outcome. seen (λ _. (out.new.tokens, told.new)) outcome
        ≡ written out.old.tokens (list_shape false (each_shape
        (print.answer_print sight.now (asking_view asking.now) (members_view clause.now))
        (map ranked_view rows.now) told.old))) }
    ensures before { out.new.before ≡ out.old.before }
    ensures lacks { IfErr result (λ lack. Lacks ids.now lack) }
    ensures listed { IfErr result (λ lack. LacksOf
        (each_listed (answer_listed sight.now (asking_view asking.now) (members_view clause.now))
        (map ranked_view rows.now)) lack) }
{
    let Some((row, rest)) = rows.split_first() else {
        out.null()?;
        return Ok(Ok(()));
    };
    match write_answer(alloc, out, sight, ids, told, clause, asking, row)? {
        Ok(()) => pass_each(alloc, sight, ids, told, clause, asking, rest),
        Err(names) => Ok(Err(names)),
    }
}

/// The first path of two answers in answers that are not printed.
#[cycle(print)]
#[tactic(auto, using(crate::proofs::Prints::none_beside, crate::proofs::Written::listed_beside))]
fn pass_each(
    alloc: Global,
    sight: &Sight<'_>,
    ids: &Known,
    told: &mut Told<'_>,
    clause: &[Member],
    asking: &Asking,
    rows: &[Ranked<'_>],
) -> Result<Result<(), Names>, Lack>
    requires { IsKnownOf sight.now ids.now }
    ensures printed { IfOk result (λ outcome. (out : List Token)
        → seen (λ _. (out, told.new)) outcome
        ≡ beside out (each_shape (print.answer_print sight.now (asking_view asking.now)
        (members_view clause.now)) (map ranked_view rows.now) told.old)) }
    ensures lacks { IfErr result (λ lack. Lacks ids.now lack) }
    ensures listed { IfErr result (λ lack. LacksOf
        (each_listed (answer_listed sight.now (asking_view asking.now) (members_view clause.now))
        (map ranked_view rows.now)) lack) }
{
    if rows.is_empty() {
        return Ok(Ok(()));
    }
    let mut aside = Writer::new(Vec::new(alloc));
    write_each(alloc, &mut aside, sight, ids, told, clause, asking, rows)
}

/// Writes what an answer of a member prints.
#[cycle(print)]
fn write_answer(
    alloc: Global,
    out: &mut Writer,
    sight: &Sight<'_>,
    ids: &Known,
    told: &mut Told<'_>,
    clause: &[Member],
    asking: &Asking,
    row: &Ranked<'_>,
) -> Result<Result<(), Names>, Lack>
    requires { IsKnownOf sight.now ids.now }
    ensures printed { IfOk result (λ outcome. seen (λ _. (out.new.tokens, told.new)) outcome
        ≡ written out.old.tokens (print.answer_print sight.now (asking_view asking.now)
        (members_view clause.now) (ranked_view row.now) told.old)) }
    ensures before { out.new.before ≡ out.old.before }
    ensures lacks { IfErr result (λ lack. Lacks ids.now lack) }
    ensures listed { IfErr result (λ lack. LacksOf
        (answer_listed sight.now (asking_view asking.now) (members_view clause.now)
        (ranked_view row.now)) lack) }
{
    if !is_clause(&asking.style) {
        write_style(
            alloc,
            out,
            sight,
            ids,
            told,
            &asking.property,
            &asking.style,
            row,
        )?;
        return Ok(Ok(()));
    }
    let at = Answer {
        link: row.link,
        object: row.object,
        lists: row.lists,
    };
    write_object(alloc, out, sight, ids, told, clause, &at)
}
