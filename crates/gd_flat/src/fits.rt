//! Which trees fit a template.
ghost use Rattle.std.specs.Prelude.{◌≡◌, ◌+◌, ◌*◌, ◌≤◌, ◌<◌, ◌&&◌, drop, length, map};
ghost use Rattle.std.specs.List.{list_all};
ghost use Rattle.gd_prim.specs.End.{end_of};
ghost use Rattle.gd_prim.specs.History.{prims_of};
ghost use Rattle.gd_prim.specs.Live.{end_at, refers};
ghost use Rattle.gd_tree.specs.Trees.{list_of, place_of, tree_lists_of, lists_of, lists_count};
ghost use Rattle.gd_tree.specs.Trees.{trees_count};
ghost use Rattle.gd_defs.specs.Template as defs;
ghost use Rattle.gd_runs.specs.Owed as owed;
ghost use Rattle.gd_template.specs.Built.{view as template_view};
ghost use Rattle.gd_template.specs.View.{hop_of, parts, clauses_view};
ghost use Rattle.gd_trees.specs.View.{view, trees_view};

use gd_base::id::Id;
use gd_base::steps::Steps;
use gd_prim::End;
use gd_template::meets::view_meets_constraints;
use gd_template::template::{Clause, Hop, Template};
use gd_trees::View;
use gd_trees::tree::{Tree, Trees};

/// The place at an end of a primitive, if there is one.
fn end_there<L>(end: End, place: Id, store: &View<'_>, steps: &mut Steps<L>) -> Option<Id>
    ensures there { result ≡ end_at (end_of end) (prims_of store.now) place }
    ensures work { steps.new ≤ steps.old + 1 }
    ensures later { steps.old ≤ steps.new }
{
    if place.place() >= store.end().place() {
        return None;
    }
    store.primitive(place, steps).end(end)
}

/// Whether this is the place.
fn names(found: Option<Id>, place: Id) -> bool
    ensures { result ≡ refers found place }
{
    match found {
        Some(id) => id.place() == place.place(),
        None => false,
    }
}

/// Whether a hop leads from one place to another one.
#[tactic(auto, using(crate::proofs::Fitting::leads_links, crate::proofs::Fitting::leads_end))]
pub fn leads<L>(hop: Hop, from: Id, to: Id, store: &View<'_>, steps: &mut Steps<L>) -> bool
    ensures leads { result ≡ owed.is_among (defs.led_to (prims_of store.now) (hop_of hop) from) to }
    ensures work { steps.new ≤ steps.old + 1 }
    ensures later { steps.old ≤ steps.new }
{
    match hop {
        Hop::LinksBy(end) => {
            let found = end_there(end, to, store, steps);
            names(found, from)
        }
        Hop::EndOf(end) => {
            let found = end_there(end, from, store, steps);
            names(found, to)
        }
    }
}

/// Whether a tree fits a template: its place meets the constraints, and its lists fit the clauses.
#[cycle(fits)]
#[tactic(auto, using(crate::proofs::Fitting::tree_seen, crate::proofs::Counts::tree_counted, gd_template::specs::Falls::below))]
pub fn tree_fits<L>(
    template: &Template,
    tree: &Tree,
    store: &View<'_>,
    steps: &mut Steps<L>,
) -> bool
    ensures fits { result ≡ owed.tree_fits (prims_of store.now) (template_view template.now)
        (view tree.now) }
    ensures work { steps.new ≤ steps.old + 3 + 4 * lists_count (lists_of (view tree.now)) }
    ensures later { steps.old ≤ steps.new }
{
    if !view_meets_constraints(store, template.constraints(), tree.place, steps) {
        return false;
    }
    lists_fit(
        template.clauses(),
        tree.lists.as_slice(),
        tree.place,
        store,
        steps,
    )
}

/// Whether lists fit clauses at a place: there is one for each, of trees that fit it.
#[cycle(fits)]
#[tactic(auto, using(crate::proofs::Fitting::other_lengths, crate::proofs::Fitting::one_list, crate::proofs::Counts::one_list_less, gd_template::specs::Falls::among))]
fn lists_fit<L>(
    clauses: &[Clause],
    lists: &[Trees],
    place: Id,
    store: &View<'_>,
    steps: &mut Steps<L>,
) -> bool
    ensures fits { result ≡ owed.lists_fit (prims_of store.now) (clauses_view clauses.now) place
        (tree_lists_of (map trees_view lists.now)) }
    ensures work { steps.new ≤ steps.old + 4 * lists_count
        (tree_lists_of (map trees_view lists.now)) }
    ensures later { steps.old ≤ steps.new }
{
    if clauses.len() != lists.len() {
        return false;
    }
    for number in 0..clauses.len() {
        if !trees_fit(&clauses[number], &lists[number], place, store, steps) {
            return false;
        }
    }
    true
}

/// Whether trees fit a clause at a place: it leads to the place of each, which fits its template.
#[cycle(fits)]
#[tactic(auto, using(crate::proofs::Fitting::trees_seen, crate::proofs::Fitting::one_tree, crate::proofs::Fitting::tree_place, crate::proofs::Counts::trees_counted, crate::proofs::Counts::one_tree_less))]
pub(crate) fn trees_fit<L>(
    clause: &Clause,
    trees: &Trees,
    place: Id,
    store: &View<'_>,
    steps: &mut Steps<L>,
) -> bool
    ensures fits { result ≡ list_all
        (λ u. owed.is_among (defs.led_to (prims_of store.now) (parts clause.now).1 place)
        (place_of u) && owed.tree_fits (prims_of store.now) (parts clause.now).2 u)
        (list_of (trees_view trees.now)) }
    ensures work { steps.new ≤ steps.old + 4 * trees_count (trees_view trees.now) }
    ensures later { steps.old ≤ steps.new }
{
    for tree in &trees.items {
        if !leads(clause.hop(), place, tree.place, store, steps) {
            return false;
        }
        if !tree_fits(clause.template(), tree, store, steps) {
            return false;
        }
    }
    true
}
