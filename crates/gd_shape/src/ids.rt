//! How many ids a page prints.
ghost use Rattle.std.specs.Prelude.{◌≡◌, map, take, IfOk, if◌then◌else◌};
ghost use Rattle.gd_prim.specs.History.{prims_of};
ghost use Rattle.gd_match_laws.specs.Walks.{rows_listed};
ghost use Rattle.gd_plan.specs.Asked.{asked_view};
ghost use Rattle.gd_runs.specs.Shape.Ids.{page_ids};
ghost use Rattle.gd_trees.specs.View.{view as tree_view};

use crate::gather::objects_printed;
use crate::sight::Sight;
use gd_base::id::Id;
use gd_base::memory::Memory;
use gd_plan::asked::Asked;
use gd_trees::View;
use gd_trees::tree::Tree;
use std::alloc::Global;

/// The first tree alone, if there is one.
fn first_alone(trees: &[Tree]) -> &[Tree]
    ensures { result.now ≡ take 1 trees.now }
{
    if trees.len() > 1 { &trees[..1] } else { trees }
}

/// The trees of the rows that are printed: an object form prints the first alone.
fn trees_printed(listed: bool, trees: &[Tree]) -> &[Tree]
    ensures { result.now ≡ (if listed then trees.now else take 1 trees.now) }
{
    if listed { trees } else { first_alone(trees) }
}

/// How many of the objects that are gathered from the trees of its rows a page prints: an object
/// form prints those of the first row alone. `Memory`: an allocation was refused.
#[tactic(auto, using(crate::proofs::Counted::all_counted))]
pub(crate) fn ids_among(
    alloc: Global,
    view: &View<'_>,
    asked: &Asked,
    trees: &[Tree],
    objects: &[Id],
) -> Result<usize, Memory>
    requires { objects.now ≡ rows_listed (prims_of view.now) (asked_view asked.now).members
        (map tree_view trees.now) }
    ensures { IfOk result (λ count. count ≡ page_ids (prims_of view.now) (asked_view asked.now)
        (map tree_view trees.now)) }
{
    if asked.listed {
        return Ok(objects.len());
    }
    ids_printed(alloc, view, asked, trees)
}

/// How many ids a page prints of a query, over a view, from the trees of its rows: each as often as
/// it does. `Memory`: an allocation was refused.
pub fn ids_printed(
    alloc: Global,
    view: &View<'_>,
    asked: &Asked,
    trees: &[Tree],
) -> Result<usize, Memory>
    ensures { IfOk result (λ count. count ≡ page_ids (prims_of view.now) (asked_view asked.now)
        (map tree_view trees.now)) }
{
    let sight = Sight::new(view);
    let printed = trees_printed(asked.listed, trees);
    let objects = objects_printed(alloc, &sight, asked, printed)?;
    Ok(objects.as_slice().len())
}
