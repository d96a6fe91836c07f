//! Parts of frozen readings, once more.
ghost use Rattle.std.specs.Prelude.{◌≡◌, ◌≤◌, length, map, IfOk};
ghost use Rattle.gd_frozen.specs.Meaning.{frame_of, row_of, scan_of};
ghost use Rattle.gd_thawed.specs.Subject.{after_of, marks_in};

use gd_base::id::Id;
use gd_base::memory::Memory;
use gd_frozen::cursor::Places;
use gd_frozen::frozen::{FrozenFrame, FrozenScan, RowAt};
use gd_frozen::tree::FrozenTrees;
use std::alloc::Global;

/// The same places of keys.
fn places_again(keys: &[Option<Id>]) -> Places
    requires { length keys.now ≤ 4 }
    ensures { result ≡ keys.now }
{
    let mut places = Places::new();
    for key in keys {
        places.push(*key);
    }
    places
}

/// The same row.
fn row_again(row: &RowAt) -> RowAt
    ensures { row_of result ≡ row_of row.now }
{
    RowAt {
        object: row.object,
        keys: places_again(row.keys.as_slice()),
    }
}

/// The same row, if there is one.
pub(crate) fn after_again(after: &Option<RowAt>) -> Option<RowAt>
    ensures { after_of result ≡ after_of after.now }
{
    match after {
        Some(row) => Some(row_again(row)),
        None => None,
    }
}

/// The same rows. `Memory`: an allocation was refused.
pub(crate) fn rows_again(alloc: Global, rows: &[RowAt]) -> Result<Vec<RowAt>, Memory>
    ensures { IfOk result (λ again. marks_in again.items ≡ marks_in rows.now) }
{
    let mut again = Vec::with_capacity(alloc, rows.len())?;
    for row in rows {
        again.push(row_again(row))?;
    }
    Ok(again)
}

/// The same trees. `Memory`: an allocation was refused.
pub(crate) fn trees_again(alloc: Global, trees: &FrozenTrees) -> Result<FrozenTrees, Memory>
    ensures { IfOk result (λ again. again ≡ trees.now) }
{
    let pieces = trees.pieces();
    let mut again = Vec::with_capacity(alloc, pieces.len())?;
    for piece in pieces {
        again.push(*piece)?;
    }
    Ok(FrozenTrees::of(again))
}

/// The same lists of trees. `Memory`: an allocation was refused.
fn lists_again(alloc: Global, lists: &[FrozenTrees]) -> Result<Vec<FrozenTrees>, Memory>
    ensures { IfOk result (λ again. again.items ≡ lists.now) }
{
    let mut again = Vec::with_capacity(alloc, lists.len())?;
    for trees in lists {
        again.push(trees_again(alloc, trees)?)?;
    }
    Ok(again)
}

/// The same place that is tried. `Memory`: an allocation was refused.
fn frame_again(alloc: Global, frame: &FrozenFrame) -> Result<FrozenFrame, Memory>
    ensures { IfOk result (λ again. frame_of again ≡ frame_of frame.now) }
{
    Ok(FrozenFrame {
        place: frame.place,
        iter: frame.iter,
        lists: lists_again(alloc, frame.lists.as_slice())?,
    })
}

/// The same places. `Memory`: an allocation was refused.
fn frames_again(alloc: Global, frames: &[FrozenFrame]) -> Result<Vec<FrozenFrame>, Memory>
    ensures { IfOk result (λ again. map frame_of again.items ≡ map frame_of frames.now) }
{
    let mut again = Vec::with_capacity(alloc, frames.len())?;
    for frame in frames {
        again.push(frame_again(alloc, frame)?)?;
    }
    Ok(again)
}

/// The same scan. `Memory`: an allocation was refused.
pub(crate) fn scan_again(alloc: Global, scan: &FrozenScan) -> Result<FrozenScan, Memory>
    ensures { IfOk result (λ again. scan_of again ≡ scan_of scan.now) }
{
    Ok(FrozenScan {
        iter: scan.iter,
        weight: scan.weight,
        frames: frames_again(alloc, scan.frames.as_slice())?,
    })
}
