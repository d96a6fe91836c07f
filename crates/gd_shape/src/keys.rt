//! Where the sort keys of a row stand, as its tree tells.
ghost use Rattle.std.specs.Prelude.{◌≡◌, IfOk};
ghost use Rattle.gd_tree.specs.Trees.{place_of, lists_of};
ghost use Rattle.gd_trees.specs.View.{view};
ghost use Rattle.gd_plan.specs.Asked.{asked_view};
ghost use Rattle.gd_runs.specs.Shape.Answers as shape;

use crate::answer::{key_places, sort_lists};
use gd_base::id::Id;
use gd_base::memory::Memory;
use gd_plan::asked::Asked;
use gd_trees::tree::Tree;
use std::alloc::Global;

/// The places at which the sort keys of a row stand, one for each key, none where a key is missing.
/// The tree of the row's object tells them, so no store is looked at. `Memory`: an allocation was
/// refused.
#[tactic(auto, using(crate::proofs::InTrees::tree_seen))]
pub fn row_places(alloc: Global, asked: &Asked, tree: &Tree) -> Result<Vec<Option<Id>>, Memory>
    ensures { IfOk result (λ places. places.items ≡ shape.key_places (asked_view asked.now).sort
        (place_of (view tree.now))
        (shape.sort_lists (asked_view asked.now).members (lists_of (view tree.now)))) }
{
    let lists = sort_lists(asked.members.as_slice(), tree.lists.as_slice());
    key_places(alloc, asked.sort.as_slice(), tree.place, lists)
}
