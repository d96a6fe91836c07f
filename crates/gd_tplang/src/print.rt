//! Texts of trees.
ghost use Rattle.std.specs.Prelude.{◌≡◌, ◌++◌, ◌∷◌, [], OnOk, IfOk, codes, decimal, map};
ghost use Rattle.std.specs.Prelude.{if◌then◌else◌};
ghost use Rattle.gd_bytes.specs.Frozen as defined;
ghost use Rattle.gd_tree.specs.Trees.{trees_of, tree_lists_of};
ghost use Rattle.gd_trees.specs.View.{view, trees_view};
ghost use Rattle.gd_tplang.specs.Printed.{lists_part};

use gd_base::id::Id;
use gd_base::memory::Memory;
use gd_trees::tree::{Tree, Trees};
use itoa::Buffer;

/// Appends a place in decimal digits.
fn push_place(out: &mut Vec<u8>, place: Id) -> Result<(), Memory>
    ensures { OnOk result (out.new.items ≡ out.old.items ++ decimal place) }
{
    out.extend_from_slice(Buffer::new().format(place.place()).as_bytes())?;
    Ok(())
}

/// Appends a byte, unless it would stand before the first of some.
pub(crate) fn separate(out: &mut Vec<u8>, is_first: bool, byte: u8) -> Result<(), Memory>
    ensures { OnOk result (out.new.items ≡ out.old.items
        ++ (if is_first then [] else (byte ∷ []))) }
{
    if !is_first {
        out.push(byte)?;
    }
    Ok(())
}

/// Appends a tree.
#[cycle(print)]
#[tactic(auto, using(crate::proofs::Prints::tree_parts))]
pub(crate) fn push_tree(out: &mut Vec<u8>, tree: &Tree) -> Result<(), Memory>
    ensures { OnOk result (out.new.items ≡ out.old.items ++ defined.tree_text (view tree.now)) }
{
    push_place(out, tree.place)?;
    push_lists(out, &tree.lists)?;
    Ok(())
}

/// Appends lists of trees in brackets, or nothing where there are none.
#[cycle(print)]
fn push_lists(out: &mut Vec<u8>, lists: &[Trees]) -> Result<(), Memory>
    ensures { OnOk result (out.new.items ≡ out.old.items
        ++ lists_part (tree_lists_of (map trees_view lists.now))) }
{
    if lists.is_empty() {
        return Ok(());
    }
    out.push(b'(')?;
    let mut is_first = true;
    for trees in lists {
        separate(out, is_first, b',')?;
        push_trees(out, trees)?;
        is_first = false;
    }
    out.push(b')')?;
    Ok(())
}

/// Appends trees.
#[cycle(print)]
#[tactic(auto, using(crate::proofs::Prints::trees_parts))]
fn push_trees(out: &mut Vec<u8>, trees: &Trees) -> Result<(), Memory>
    ensures { OnOk result (out.new.items ≡ out.old.items
        ++ defined.trees_text (trees_view trees.now)) }
{
    out.push(b'[')?;
    let mut is_first = true;
    for tree in &trees.items {
        separate(out, is_first, b';')?;
        push_tree(out, tree)?;
        is_first = false;
    }
    out.push(b']')?;
    Ok(())
}
