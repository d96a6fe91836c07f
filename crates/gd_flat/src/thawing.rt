//! Trees of frozen texts as those of a matcher.
ghost use Rattle.std.specs.Prelude.{◌≡◌, ◌+◌, ◌*◌, ◌≤◌, ◌<◌, ◌&&◌, true, false, drop, IfOk};
ghost use Rattle.std.specs.Prelude.{MatchOption, map};
ghost use Rattle.std.specs.List.{list_all};
ghost use Rattle.gd_prim.specs.History.{prims_of};
ghost use Rattle.gd_tree.specs.Trees.{list_of, place_of, trees_count};
ghost use Rattle.gd_defs.specs.Template.{led_to};
ghost use Rattle.gd_template.specs.View.{parts};
ghost use Rattle.gd_runs.specs.Owed as owed;
ghost use Rattle.gd_template.specs.Built.{view as template_view};
ghost use Rattle.gd_trees.specs.View.{view, trees_view};
ghost use Rattle.gd_frozen.specs.Pieces.{trees_in, trees_pieces};
ghost use Rattle.gd_flat.specs.Deep.{goes_deep};

use crate::fits::{tree_fits, trees_fit};
use crate::growing::{Growing, in_order, settled};
use gd_base::id::Id;
use gd_base::memory::Memory;
use gd_base::steps::Steps;
use gd_frozen::tree::{FrozenTrees, Piece};
use gd_template::template::{Clause, Template};
use gd_trees::View;
use gd_trees::tree::{Tree, Trees};
use std::alloc::Global;

/// Whether so many lists lie one within the other.
#[tactic(auto, using(crate::proofs::Deep::place_next, crate::proofs::Deep::opens_next, crate::proofs::Deep::opens_far, crate::proofs::Deep::closes_next))]
fn is_deep(pieces: &[Piece], most: u32) -> bool
    ensures { result ≡ goes_deep most 0 pieces.now }
{
    let mut depth = 0u32;
    for piece in pieces {
        match piece {
            Piece::Place(_) => {}
            Piece::Opens => {
                if depth >= most || depth + 1 >= most {
                    return true;
                }
                depth += 1;
            }
            Piece::Closes => depth = depth.saturating_sub(1),
        }
    }
    false
}

/// The trees that pieces make.
#[tactic(auto, using(crate::proofs::Whole::trees_whole, crate::proofs::Whole::one_piece))]
fn made(alloc: Global, pieces: &[Piece]) -> Result<Trees, Memory>
    ensures { IfOk result (λ trees. trees_view trees ≡ trees_in pieces.now) }
{
    let mut growing = Growing::new(alloc);
    for piece in pieces {
        growing = growing.put(alloc, *piece)?;
    }
    let items = settled(growing.done, growing.last)?;
    Ok(in_order(items))
}

/// Whether each of trees fits a template.
#[tactic(auto, using(crate::proofs::Fitting::trees_seen, crate::proofs::Fitting::one_tree, crate::proofs::Counts::trees_counted, crate::proofs::Counts::one_tree_less))]
fn all_fit<L>(template: &Template, trees: &Trees, store: &View<'_>, steps: &mut Steps<L>) -> bool
    ensures fits { result ≡ list_all
        (owed.tree_fits (prims_of store.now) (template_view template.now))
        (list_of (trees_view trees.now)) }
    ensures work { steps.new ≤ steps.old + 4 * trees_count (trees_view trees.now) }
    ensures later { steps.old ≤ steps.new }
{
    for tree in &trees.items {
        if !tree_fits(template, tree, store, steps) {
            return false;
        }
    }
    true
}

/// The trees of a frozen text. None: one does not fit the template.
#[tactic(auto, using(crate::proofs::Deep::deep_fails))]
pub fn thawed_trees<L>(
    alloc: Global,
    template: &Template,
    frozen: &FrozenTrees,
    store: &View<'_>,
    steps: &mut Steps<L>,
) -> Result<Option<Trees>, Memory>
    ensures fits { IfOk result (λ thawed. MatchOption thawed
        (list_all (owed.tree_fits (prims_of store.now) (template_view template.now))
        (list_of (trees_in frozen.now)) ≡ false)
        (λ trees. (trees_view trees ≡ trees_in frozen.now)
        × (list_all (owed.tree_fits (prims_of store.now) (template_view template.now))
        (list_of (trees_in frozen.now)) ≡ true))) }
    ensures work { steps.new ≤ steps.old + 4 * trees_count (trees_in frozen.now) }
    ensures later { steps.old ≤ steps.new }
{
    let pieces = frozen.pieces();
    if is_deep(pieces, template.depth()) {
        return Ok(None);
    }
    let trees = made(alloc, pieces)?;
    if !all_fit(template, &trees, store, steps) {
        return Ok(None);
    }
    Ok(Some(trees))
}

/// The trees of a frozen text that answer a clause at a place. None: the clause does not lead to
/// the place of one, or that does not fit its template.
#[tactic(auto, using(crate::proofs::Deep::deep_fails_led))]
pub fn thawed_list<L>(
    alloc: Global,
    clause: &Clause,
    place: Id,
    frozen: &FrozenTrees,
    store: &View<'_>,
    steps: &mut Steps<L>,
) -> Result<Option<Trees>, Memory>
    ensures fits { IfOk result (λ thawed. MatchOption thawed
        (list_all (λ u. owed.is_among (led_to (prims_of store.now) (parts clause.now).1 place)
        (place_of u) && owed.tree_fits (prims_of store.now) (parts clause.now).2 u)
        (list_of (trees_in frozen.now)) ≡ false)
        (λ trees. (trees_view trees ≡ trees_in frozen.now)
        × (list_all (λ u. owed.is_among (led_to (prims_of store.now) (parts clause.now).1 place)
        (place_of u) && owed.tree_fits (prims_of store.now) (parts clause.now).2 u)
        (list_of (trees_in frozen.now)) ≡ true))) }
    ensures work { steps.new ≤ steps.old + 4 * trees_count (trees_in frozen.now) }
    ensures later { steps.old ≤ steps.new }
{
    let pieces = frozen.pieces();
    if is_deep(pieces, clause.template().depth()) {
        return Ok(None);
    }
    let trees = made(alloc, pieces)?;
    if !trees_fit(clause, &trees, place, store, steps) {
        return Ok(None);
    }
    Ok(Some(trees))
}
