//! Answers as rows.
ghost use Rattle.std.specs.Prelude.{◌≡◌, IfOk};
ghost use Rattle.gd_trees.specs.View.{view};
ghost use Rattle.gd_plan.specs.Asked.{asking_view, members_view};
ghost use Rattle.gd_runs.specs.Shape.Answers as shape;
ghost use Rattle.gd_shape.specs.Ranking.{ranked_view};

use crate::answer::{answer_of, key_places, sort_lists};
use gd_base::id::Id;
use gd_base::memory::Memory;
use gd_plan::asked::{Asking, Member};
use gd_trees::tree::{Tree, Trees};
use std::alloc::Global;

/// An answer as a row, by which it is sorted: the object at the other end of its link, the link,
/// the places of its sort keys, and the lists of the object's clauses.
#[derive(Drop)]
pub(crate) struct Ranked<'t> {
    pub(crate) object: Id,
    pub(crate) link: Id,
    pub(crate) keys: Vec<Option<Id>>,
    pub(crate) lists: &'t [Trees],
}

/// The row of the answer that the tree of a link stands for.
pub(crate) fn row_of<'t>(
    alloc: Global,
    asking: &Asking,
    clause: &[Member],
    tree: &'t Tree,
) -> Result<Ranked<'t>, Memory>
    ensures { let a = asking_view asking.now in IfOk result
        (λ row. ranked_view row ≡ shape.ranked a (members_view clause.now)
        (shape.answer_of a (view tree.now))) }
{
    let answer = answer_of(asking, tree);
    let lists = sort_lists(clause, answer.lists);
    let keys = key_places(alloc, asking.sort.as_slice(), answer.object, lists)?;
    Ok(Ranked {
        object: answer.object,
        link: answer.link,
        keys,
        lists: answer.lists,
    })
}
