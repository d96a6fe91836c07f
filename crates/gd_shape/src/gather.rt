//! The objects whose ids a page prints, before it is printed.
ghost use Rattle.std.specs.Prelude.{◌≡◌, ◌++◌, IfOk, None, OnOk, map, option_map};
ghost use Rattle.gd_tree.specs.Trees.{place_of, lists_of};
ghost use Rattle.gd_prim.specs.Live.{object_datum};
ghost use Rattle.gd_defs.specs.Asked as defs;
ghost use Rattle.gd_defs.specs.Property as props;
ghost use Rattle.gd_json.specs.View.{view};
ghost use Rattle.gd_match_laws.specs.Walks.{id_of, own_listed, where_id};
ghost use Rattle.gd_match_laws.specs.Walks.{each_listed, object_listed, rows_listed};
ghost use Rattle.gd_plan.specs.Asked.{asked_view, asking_view, members_view, put, style_view};
ghost use Rattle.gd_plan.specs.Seen.{own_view};
ghost use Rattle.gd_trees.specs.View.{view as tree_view};
ghost use Rattle.gd_shape.specs.InTrees.{lists_view};
ghost use Rattle.gd_shape.specs.Listed.{is_id, answer_listed, asks_listed, first_listed};
ghost use Rattle.gd_shape.specs.Ranking.{ranked_view};

use crate::answer::{Answer, behind_member};
use crate::cut::cut;
use crate::datum::{answer_object, language_of, right_of};
use crate::lists::first_trees;
use crate::print::{is_clause, operand};
use crate::ranked::Ranked;
use crate::sight::Sight;
use gd_base::id::Id;
use gd_base::memory::Memory;
use gd_json::value::Json;
use gd_plan::asked::{Asked, Asking, Member, Own, Style};
use gd_trees::tree::{Tree, Trees};
use std::alloc::Global;

/// Puts the object behind others, if there is one.
#[tactic(auto, using(crate::proofs::Listed::none_behind, crate::proofs::Listed::none_listed))]
fn push_some(objects: &mut Vec<Id>, object: Option<Id>) -> Result<(), Memory>
    ensures { OnOk result (objects.new.items
        ≡ objects.old.items ++ id_of (object_datum object)) }
{
    if let Some(object) = object {
        objects.push(object)?;
    }
    Ok(())
}

/// The object whose id a computed member prints that has no operand, if it prints one.
fn told_object(sight: &Sight<'_>, own: Own, at: &Answer<'_>) -> Option<Id>
    ensures { id_of (object_datum result)
        ≡ own_listed sight.now (own_view own) None at.now.link at.now.object }
{
    match own {
        Own::Id => Some(at.object),
        Own::Namespace => right_of(sight, at.link),
        Own::Lang => language_of(sight, at.link),
        Own::Guid | Own::Timestamp | Own::Link | Own::Value => None,
    }
}

/// The object whose id a computed member prints, if it prints one.
#[tactic(auto, using(crate::proofs::Listed::own_given))]
fn own_object(sight: &Sight<'_>, own: Own, operand: &Option<Json>, at: &Answer<'_>) -> Option<Id>
    ensures { id_of (object_datum result) ≡ own_listed sight.now (own_view own)
        (option_map view operand.now) at.now.link at.now.object }
{
    match operand {
        Some(_) => None,
        None => told_object(sight, own, at),
    }
}

/// Whether answers print their ids.
fn is_id(style: &Style) -> bool
    ensures { result ≡ is_id (style_view style.now) }
{
    matches!(style, Style::Id)
}

/// Puts the object whose id an answer prints behind others, if it prints one.
#[tactic(auto, using(crate::proofs::Listed::no_id, crate::proofs::Listed::an_id))]
fn push_answer(
    sight: &Sight<'_>,
    objects: &mut Vec<Id>,
    asking: &Asking,
    link: Id,
) -> Result<(), Memory>
    ensures { OnOk result (objects.new.items
        ≡ objects.old.items ++ where_id (style_view asking.now.style)
        (id_of (props.answer_datum sight.now asking.now.property link))) }
{
    if !is_id(&asking.style) {
        return Ok(());
    }
    push_some(objects, answer_object(sight, &asking.property, link))?;
    Ok(())
}

/// Puts the objects whose ids members print of an object behind others, in the order in which they
/// are printed.
#[cycle(objects)]
#[tactic(auto, using(crate::proofs::Listed::listed_more, crate::proofs::Listed::listed_all))]
fn push_members(
    alloc: Global,
    sight: &Sight<'_>,
    objects: &mut Vec<Id>,
    members: &[Member],
    at: &Answer<'_>,
) -> Result<(), Memory>
    ensures { OnOk result (objects.new.items
        ≡ objects.old.items ++ object_listed sight.now (members_view members.now) at.now.link
        at.now.object (lists_view at.now.lists.now)) }
{
    let mut lists = at.lists;
    for member in members {
        push_member(alloc, sight, objects, member, at, lists)?;
        lists = behind_member(member, lists);
    }
    Ok(())
}

/// The same for one member.
#[cycle(objects)]
fn push_member(
    alloc: Global,
    sight: &Sight<'_>,
    objects: &mut Vec<Id>,
    member: &Member,
    at: &Answer<'_>,
    lists: &[Trees],
) -> Result<(), Memory>
    ensures { OnOk result (objects.new.items
        ≡ objects.old.items ++ first_listed sight.now (put member.now defs.no_members) at.now.link
        at.now.object (lists_view lists.now)) }
{
    match member {
        Member::Own { own, operand, .. } => {
            push_some(objects, own_object(sight, *own, operand, at))?;
            Ok(())
        }
        Member::Asks { asking, clause, .. } => {
            push_asks(alloc, sight, objects, clause, asking, first_trees(lists))
        }
    }
}

/// The same for a member that asks a property.
#[cycle(objects)]
#[tactic(auto, using(crate::proofs::Listed::asks_none, crate::proofs::Listed::asks_each))]
fn push_asks(
    alloc: Global,
    sight: &Sight<'_>,
    objects: &mut Vec<Id>,
    clause: &[Member],
    asking: &Asking,
    trees: &[Tree],
) -> Result<(), Memory>
    ensures { OnOk result (objects.new.items
        ≡ objects.old.items ++ asks_listed sight.now (asking_view asking.now)
        (members_view clause.now) (map tree_view trees.now)) }
{
    if let Some(_json) = operand(&asking.style) {
        return Ok(());
    }
    let rows = cut(alloc, sight, asking, clause, trees)?;
    push_rows(alloc, sight, objects, clause, asking, rows.as_slice())
}

/// The same for its answers.
#[cycle(objects)]
#[tactic(auto, using(crate::proofs::Listed::each_more, crate::proofs::Listed::each_all))]
fn push_rows(
    alloc: Global,
    sight: &Sight<'_>,
    objects: &mut Vec<Id>,
    clause: &[Member],
    asking: &Asking,
    rows: &[Ranked<'_>],
) -> Result<(), Memory>
    ensures { OnOk result (objects.new.items
        ≡ objects.old.items ++ each_listed (answer_listed sight.now (asking_view asking.now)
        (members_view clause.now)) (map ranked_view rows.now)) }
{
    for row in rows {
        push_row(alloc, sight, objects, clause, asking, row)?;
    }
    Ok(())
}

/// The same for one of its answers.
#[cycle(objects)]
fn push_row(
    alloc: Global,
    sight: &Sight<'_>,
    objects: &mut Vec<Id>,
    clause: &[Member],
    asking: &Asking,
    row: &Ranked<'_>,
) -> Result<(), Memory>
    ensures { OnOk result (objects.new.items
        ≡ objects.old.items ++ answer_listed sight.now (asking_view asking.now)
        (members_view clause.now) (ranked_view row.now)) }
{
    if !is_clause(&asking.style) {
        return push_answer(sight, objects, asking, row.link);
    }
    let at = Answer {
        link: row.link,
        object: row.object,
        lists: row.lists,
    };
    push_members(alloc, sight, objects, clause, &at)
}

/// Puts the objects whose ids the row of a tree prints behind others.
#[tactic(auto, using(crate::proofs::InTrees::row_seen))]
fn push_tree(
    alloc: Global,
    sight: &Sight<'_>,
    objects: &mut Vec<Id>,
    members: &[Member],
    tree: &Tree,
) -> Result<(), Memory>
    ensures { OnOk result (objects.new.items
        ≡ objects.old.items ++ object_listed sight.now (members_view members.now) 0
        (place_of (tree_view tree.now)) (lists_of (tree_view tree.now))) }
{
    let at = Answer {
        link: Id(0),
        object: tree.place,
        lists: tree.lists.as_slice(),
    };
    push_members(alloc, sight, objects, members, &at)?;
    Ok(())
}

/// The objects whose ids a page prints, in the order in which it prints them, each as often as it
/// does.
#[tactic(auto, using(crate::proofs::Listed::rows_more, crate::proofs::Listed::rows_all))]
pub(crate) fn objects_printed(
    alloc: Global,
    sight: &Sight<'_>,
    asked: &Asked,
    trees: &[Tree],
) -> Result<Vec<Id>, Memory>
    ensures { IfOk result (λ objects. objects.items
        ≡ rows_listed sight.now (asked_view asked.now).members (map tree_view trees.now)) }
{
    let members = asked.members.as_slice();
    let mut objects = Vec::new(alloc);
    for tree in trees {
        push_tree(alloc, sight, &mut objects, members, tree)?;
    }
    Ok(objects)
}
