//! How many bytes the texts of trees have, counted without a text. A count stops at `u64::MAX`.
ghost use Rattle.std.specs.Prelude.{◌≡◌, ◌+◌, length, min, map, decimal, if◌then◌else◌};
ghost use Rattle.gd_bytes.specs.Frozen as defined;
ghost use Rattle.gd_tree.specs.Trees.{trees_of, tree_lists_of};
ghost use Rattle.gd_trees.specs.View.{view, trees_view};
ghost use Rattle.gd_tplang.specs.Printed.{lists_part};

use gd_base::id::Id;
use gd_trees::tree::{Tree, Trees};
use itoa::Buffer;

/// How many bytes stand between brackets and beside them, where nothing stands within.
pub(crate) const BRACKETS: u64 = 2;

/// How many digits a place has.
fn place_length(place: Id) -> u64
    ensures { result ≡ length (decimal place) }
{
    Buffer::new().format(place.place()).len() as u64
}

/// How many bytes there are with an item of `item` bytes more, and with the byte that stands
/// before it unless it is the first.
pub(crate) fn with_item(total: u64, is_first: bool, item: u64) -> u64
    ensures { result ≡ min (total + ((if is_first then 0 else 1) + item)) u64.MAX }
{
    let parted = if is_first {
        total
    } else {
        total.saturating_add(1)
    };
    parted.saturating_add(item)
}

/// How many bytes the text of a tree has.
#[cycle(length)]
#[tactic(auto, using(crate::proofs::Lengths::tree_counted))]
pub(crate) fn tree_length(tree: &Tree) -> u64
    ensures { result ≡ min (length (defined.tree_text (view tree.now))) u64.MAX }
{
    place_length(tree.place).saturating_add(lists_length(&tree.lists))
}

/// How many bytes lists of trees have with their brackets, 0 where there are none.
#[cycle(length)]
fn lists_length(lists: &[Trees]) -> u64
    ensures { result ≡ min (length (lists_part (tree_lists_of (map trees_view lists.now))))
        u64.MAX }
{
    if lists.is_empty() {
        return 0;
    }
    let mut total = BRACKETS;
    let mut is_first = true;
    for trees in lists {
        total = with_item(total, is_first, trees_length(trees));
        is_first = false;
    }
    total
}

/// How many bytes the text of trees has.
#[cycle(length)]
fn trees_length(trees: &Trees) -> u64
    ensures { result ≡ min (length (defined.trees_text (trees_view trees.now))) u64.MAX }
{
    let mut total = BRACKETS;
    let mut is_first = true;
    for tree in &trees.items {
        total = with_item(total, is_first, tree_length(tree));
        is_first = false;
    }
    total
}
