//! Walks that tell the ids of objects, as they are found and told.
ghost use Rattle.std.specs.Prelude.{◌≡◌, ◌++◌, ◌+◌, ◌≤◌, drop, length, map, take, IfOk, OnOk};
ghost use Rattle.gd_prim.specs.History.{prims_of};
ghost use Rattle.gd_frozen.specs.Meaning.{walk_of};
ghost use Rattle.gd_shape.specs.Knowing.{walks_found};
ghost use Rattle.gd_shape.specs.WalkUp as up;

use crate::known::Known;
use gd_base::id::Id;
use gd_base::memory::Memory;
use gd_base::steps::Steps;
use gd_frozen::frozen::Walk;
use gd_plan::links_up;
use gd_trees::View;
use std::alloc::Global;

/// The root namespace.
const ROOT: Id = Id(0);

/// The walk that tells the id of an object: that of the root, the key links from the object up, or a
/// guid where none lead to the root. `Memory`: an allocation was refused.
pub(crate) fn walk_up<L>(
    alloc: Global,
    view: &View<'_>,
    object: Id,
    steps: &mut Steps<L>,
) -> Result<Walk, Memory>
    ensures walk { IfOk result (λ walk. walk_of walk ≡ up.walk_up (prims_of view.now) object) }
    ensures work { steps.new ≤ steps.old + 784 }
    ensures later { steps.old ≤ steps.new }
{
    if object == ROOT {
        return Ok(Walk::Root);
    }
    match links_up(alloc, view, object, steps)? {
        Some(links) => Ok(Walk::Links(links)),
        None => Ok(Walk::Guid),
    }
}

/// The same links. `Memory`: an allocation was refused.
fn links_again(alloc: Global, links: &[Id]) -> Result<Vec<Id>, Memory>
    ensures { IfOk result (λ again. again.items ≡ links.now) }
{
    let mut again = Vec::with_capacity(alloc, links.len())?;
    for link in links {
        again.push(*link)?;
    }
    Ok(again)
}

/// The same walk. `Memory`: an allocation was refused.
fn walk_again(alloc: Global, walk: &Walk) -> Result<Walk, Memory>
    ensures { IfOk result (λ again. walk_of again ≡ walk_of walk.now) }
{
    match walk {
        Walk::Guid => Ok(Walk::Guid),
        Walk::Root => Ok(Walk::Root),
        Walk::Links(links) => Ok(Walk::Links(links_again(alloc, links.as_slice())?)),
    }
}

/// The same walks. `Memory`: an allocation was refused.
pub(crate) fn walks_again(alloc: Global, walks: &[Walk]) -> Result<Vec<Walk>, Memory>
    ensures { IfOk result (λ again. map walk_of again.items ≡ map walk_of walks.now) }
{
    let mut again = Vec::with_capacity(alloc, walks.len())?;
    for walk in walks {
        again.push(walk_again(alloc, walk)?)?;
    }
    Ok(again)
}

/// The first so many of objects, or all where there are fewer.
fn first_of(objects: &[Id], count: usize) -> &[Id]
    ensures { result.now ≡ take count objects.now }
{
    if objects.len() > count {
        &objects[..count]
    } else {
        objects
    }
}

/// Those behind so many.
fn behind(objects: &[Id], count: usize) -> &[Id]
    ensures { result.now ≡ drop count objects.now }
{
    if objects.len() > count {
        &objects[count..]
    } else {
        &[]
    }
}

/// Puts the walks of objects behind others, up to the first object that is not known. `Memory`: an
/// allocation was refused.
#[tactic(auto, using(crate::proofs::Found::walk_found, crate::proofs::Found::walk_unknown, crate::proofs::Found::walks_all))]
fn push_found(
    alloc: Global,
    walks: &mut Vec<Walk>,
    objects: &[Id],
    ids: &Known,
) -> Result<(), Memory>
    ensures { OnOk result (map walk_of walks.new.items
        ≡ map walk_of walks.old.items ++ walks_found ids.now objects.now) }
{
    for object in objects {
        match ids.at(*object) {
            Some(walk) => walks.push(walk_again(alloc, walk)?)?,
            None => return Ok(()),
        }
    }
    Ok(())
}

/// These walks, and behind them those that are known of the objects behind as many: of the first so
/// many alone, and up to the first object that is not known. `Memory`: an allocation was refused.
pub(crate) fn walks_so_far(
    alloc: Global,
    walks: &[Walk],
    objects: &[Id],
    count: usize,
    ids: &Known,
) -> Result<Vec<Walk>, Memory>
    ensures { IfOk result (λ told. map walk_of told.items
        ≡ map walk_of walks.now
        ++ walks_found ids.now (drop (length (map walk_of walks.now)) (take count objects.now))) }
{
    let mut told = walks_again(alloc, walks)?;
    let left = behind(first_of(objects, count), walks.len());
    push_found(alloc, &mut told, left, ids)?;
    Ok(told)
}
