//! Trees of frozen texts that grow.
ghost use Rattle.std.specs.Prelude.{◌≡◌, ◌++◌, ◌∷◌, [], IfOk};
ghost use Rattle.gd_tree.specs.Trees.{tree, no_trees, and_tree, no_lists, append};
ghost use Rattle.gd_frozen.specs.Pieces.{trees_in};

use gd_base::id::Id;
use gd_base::memory::Memory;
use gd_frozen::tree::{FrozenTrees, Piece};
use std::alloc::Global;

/// These trees and behind them the tree of a place that has no lists.
pub fn with_place(alloc: Global, trees: &FrozenTrees, place: Id) -> Result<FrozenTrees, Memory>
    ensures { IfOk result (λ grown. trees_in grown ≡ append (trees_in trees.now)
        (and_tree (tree place no_lists) no_trees)) }
{
    let mut pieces = Vec::new(alloc);
    for piece in trees.pieces() {
        pieces.push(*piece)?;
    }
    pieces.push(Piece::Place(place))?;
    Ok(FrozenTrees::of(pieces))
}
