//! The answers of a member.
ghost use Rattle.std.specs.Prelude.{◌≡◌, None, true, IfOk, map, option_map};
ghost use Rattle.gd_tree.specs.Trees.{place_of};
ghost use Rattle.gd_defs.specs.Property.{first};
ghost use Rattle.gd_defs.specs.Asked as defs;
ghost use Rattle.gd_trees.specs.View.{view};
ghost use Rattle.gd_plan.specs.Asked.{asking_view, members_view, put};
ghost use Rattle.gd_plan.specs.Seen.{sort_key_view};
ghost use Rattle.gd_runs.specs.Shape.Answers as shape;
ghost use Rattle.gd_shape.specs.InTrees.{lists_view};
ghost use Rattle.gd_shape.specs.Printed.{behind_first};
ghost use Rattle.gd_shape.specs.Ranking.{answer_view};

use crate::lists::{first_trees, lists_behind};
use gd_base::id::Id;
use gd_base::memory::Memory;
use gd_plan::asked::{Asking, Member, SortKey};
use gd_plan::constraint::answers_of;
use gd_plan::expects::Expects;
use gd_trees::tree::{Tree, Trees};
use std::alloc::Global;

/// An answer: its link, the object at the other end, and the lists of that object's clauses.
#[derive(Clone, Copy, Drop)]
pub(crate) struct Answer<'t> {
    pub(crate) link: Id,
    pub(crate) object: Id,
    pub(crate) lists: &'t [Trees],
}

/// The lists of a member's clauses: where it is no literal, behind one that stays empty.
fn own_lists(given: bool, lists: &[Trees]) -> &[Trees]
    ensures { lists_view result.now ≡ shape.own_lists given (lists_view lists.now) }
{
    if given { lists } else { lists_behind(lists) }
}

/// The answer of a link that leads to nothing.
fn no_far(link: Id) -> Answer<'static>
    ensures { answer_view result ≡ shape.far_answer link true None }
{
    Answer {
        link,
        object: Id(0),
        lists: &[],
    }
}

/// The answer of a link, with the first tree at its other end.
#[tactic(auto, using(crate::proofs::InTrees::tree_seen))]
fn far_answer<'t>(link: Id, given: bool, far: &'t [Tree]) -> Answer<'t>
    ensures { answer_view result ≡ shape.far_answer link given (first (map view far.now)) }
{
    match far.first() {
        Some(tree) => Answer {
            link,
            object: tree.place,
            lists: own_lists(given, tree.lists.as_slice()),
        },
        None => no_far(link),
    }
}

/// The answer that the tree of a link stands for.
#[tactic(auto, using(crate::proofs::InTrees::tree_seen))]
pub(crate) fn answer_of<'t>(asking: &Asking, tree: &'t Tree) -> Answer<'t>
    ensures { answer_view result ≡ shape.answer_of (asking_view asking.now) (view tree.now) }
{
    let lists = tree.lists.as_slice();
    match answers_of(&asking.property) {
        Expects::Value(_) => no_far(tree.place),
        Expects::Key => far_answer(
            tree.place,
            true,
            first_trees(own_lists(asking.given, lists)),
        ),
        Expects::SystemObject | Expects::PlainObject => {
            far_answer(tree.place, asking.given, first_trees(lists))
        }
    }
}

/// The lists behind that of a member, if it has one.
pub(crate) fn behind_member<'t>(member: &Member, lists: &'t [Trees]) -> &'t [Trees]
    ensures { lists_view result.now ≡ behind_first (put member.now defs.no_members)
        (lists_view lists.now) }
{
    match member {
        Member::Own { .. } => lists,
        Member::Asks { .. } => lists_behind(lists),
    }
}

/// The lists of the sort keys, which stand behind those of the members.
#[tactic(auto, using(crate::proofs::Members::sort_left))]
pub(crate) fn sort_lists<'t>(members: &[Member], lists: &'t [Trees]) -> &'t [Trees]
    ensures { lists_view result.now ≡ shape.sort_lists (members_view members.now)
        (lists_view lists.now) }
{
    let mut left = lists;
    for member in members {
        left = behind_member(member, left);
    }
    left
}

/// The place of the first of trees.
pub(crate) fn first_place(trees: &[Tree]) -> Option<Id>
    ensures { result ≡ option_map place_of (first (map view trees.now)) }
{
    match trees.first() {
        Some(tree) => Some(tree.place),
        None => None,
    }
}

/// The place at which a sort key of an object stands, by the tree of its first answer.
fn key_place(key: &SortKey, object: Id, lists: &[Trees]) -> Option<Id>
    ensures { result ≡ shape.key_place (sort_key_view key.now).key object (lists_view lists.now) }
{
    match key {
        SortKey::Value { .. } => first_place(first_trees(lists)),
        SortKey::Guid { .. } | SortKey::Timestamp { .. } => Some(object),
    }
}

/// The lists behind that of a sort key, if it has one.
fn behind_key<'t>(key: &SortKey, lists: &'t [Trees]) -> &'t [Trees]
    ensures { lists_view result.now ≡ shape.behind_key (sort_key_view key.now).key
        (lists_view lists.now) }
{
    match key {
        SortKey::Value { .. } => lists_behind(lists),
        SortKey::Guid { .. } | SortKey::Timestamp { .. } => lists,
    }
}

/// The places at which the sort keys of an object stand.
#[tactic(auto, using(crate::proofs::Members::key_more))]
pub(crate) fn key_places(
    alloc: Global,
    sort: &[SortKey],
    object: Id,
    lists: &[Trees],
) -> Result<Vec<Option<Id>>, Memory>
    ensures { IfOk result (λ places. places.items ≡ shape.key_places (map sort_key_view sort.now)
        object (lists_view lists.now)) }
{
    let mut places = Vec::with_capacity(alloc, sort.len())?;
    let mut left = lists;
    for key in sort {
        places.push(key_place(key, object, left))?;
        left = behind_key(key, left);
    }
    Ok(places)
}
