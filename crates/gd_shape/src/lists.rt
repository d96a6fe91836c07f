//! Lists of trees.
ghost use Rattle.std.specs.Prelude.{◌≡◌, map};
ghost use Rattle.gd_tree.specs.Trees.{list_of, first_list, rest_lists};
ghost use Rattle.gd_trees.specs.View.{view, trees_view};
ghost use Rattle.gd_shape.specs.InTrees.{lists_view};

use gd_trees::tree::{Tree, Trees};

/// Trees as a slice.
#[tactic(auto, using(crate::proofs::InTrees::list_seen))]
fn items_of(trees: &Trees) -> &[Tree]
    ensures { map view result.now ≡ list_of (trees_view trees.now) }
{
    trees.items.as_slice()
}

/// The trees of the first list, none where there is no list.
pub(crate) fn first_trees(lists: &[Trees]) -> &[Tree]
    ensures { map view result.now ≡ first_list (lists_view lists.now) }
{
    match lists.first() {
        Some(trees) => items_of(trees),
        None => &[],
    }
}

/// The lists behind the first one.
pub(crate) fn lists_behind(lists: &[Trees]) -> &[Trees]
    ensures { lists_view result.now ≡ rest_lists (lists_view lists.now) }
{
    match lists.split_first() {
        Some((_, behind)) => behind,
        None => lists,
    }
}
