//! Scans, read from their texts.
ghost use Rattle.std.specs.Prelude.{map};
ghost use Rattle.gd_tree.specs.Trees.{tree_lists_of};
ghost use Rattle.gd_frozen.specs.Halts.{Gets};
ghost use Rattle.gd_frozen.specs.FrozenAt.{all_at, one_or_more_at, lists_at, frame_at, scan_at};
ghost use Rattle.gd_frozen.specs.Meaning.{frame_of, scan_of};
ghost use Rattle.gd_frozen.specs.Pieces.{trees_at, trees_in};

use crate::frozen::{FrozenFrame, FrozenScan};
use crate::halt::Halt;
use crate::number::number;
use crate::place::{MAX_PLACE, byte};
use crate::row::{position, skip};
use crate::tree::{FrozenTrees, trees};
use gd_base::id::Id;
use std::alloc::Global;

/// Reads a list of trees, and all that come behind commas.
fn some_lists(alloc: Global, bytes: &[u8]) -> Result<(Vec<FrozenTrees>, &[u8]), Halt>
    ensures { Gets (λ x. (map trees_in x.0.items, x.1.now)) (one_or_more_at 44 trees_at bytes.now)
        result }
{
    let mut lists = Vec::new(alloc);
    let (first, after) = trees(alloc, bytes)?;
    lists.push(first)?;
    let mut rest = after;
    while let Some(behind) = skip(rest, b',') {
        let (next, after) = trees(alloc, behind)?;
        lists.push(next)?;
        rest = after;
    }
    Ok((lists, rest))
}

/// Reads lists of trees between parentheses.
#[tactic(auto, using(crate::proofs::Loops::halts_then))]
fn lists(alloc: Global, bytes: &[u8]) -> Result<(Vec<FrozenTrees>, &[u8]), Halt>
    ensures { Gets (λ x. (tree_lists_of (map trees_in x.0.items), x.1.now)) (lists_at bytes.now)
        result }
{
    let rest = byte(bytes, b'(')?;
    let (lists, rest) = some_lists(alloc, rest)?;
    let rest = byte(rest, b')')?;
    Ok((lists, rest))
}

/// Reads a frame.
#[tactic(auto, using(crate::proofs::Loops::halts_then))]
fn frame(alloc: Global, bytes: &[u8]) -> Result<(FrozenFrame, &[u8]), Halt>
    ensures { Gets (λ x. (frame_of x.0, x.1.now)) (frame_at bytes.now) result }
{
    let (place, rest) = number(bytes, MAX_PLACE)?;
    let rest = byte(rest, b',')?;
    let (at, rest) = match position(rest) {
        Ok(found) => found,
        Err(halt) => return Err(halt),
    };
    let rest = byte(rest, b',')?;
    let (lists, rest) = lists(alloc, rest)?;
    let frame = FrozenFrame {
        place: Id::new(place),
        iter: at,
        lists,
    };
    Ok((frame, rest))
}

/// Reads all frames, a semicolon before each.
fn frames(alloc: Global, bytes: &[u8]) -> Result<(Vec<FrozenFrame>, &[u8]), Halt>
    ensures { Gets (λ x. (map frame_of x.0.items, x.1.now)) (all_at 59 frame_at bytes.now) result }
{
    let mut frames = Vec::new(alloc);
    let mut rest = bytes;
    while let Some(behind) = skip(rest, b';') {
        let (next, after) = frame(alloc, behind)?;
        frames.push(next)?;
        rest = after;
    }
    Ok((frames, rest))
}

/// Reads a scan.
#[tactic(auto, using(crate::proofs::Loops::halts_then))]
pub(crate) fn scan(alloc: Global, bytes: &[u8]) -> Result<(FrozenScan, &[u8]), Halt>
    ensures { Gets (λ x. (scan_of x.0, x.1.now)) (scan_at bytes.now) result }
{
    let rest = byte(bytes, b'[')?;
    let (at, rest) = match position(rest) {
        Ok(found) => found,
        Err(halt) => return Err(halt),
    };
    let rest = byte(rest, b',')?;
    let (weight, rest) = number(rest, u32::MAX)?;
    let (frames, rest) = frames(alloc, rest)?;
    let rest = byte(rest, b']')?;
    let scan = FrozenScan {
        iter: at,
        weight,
        frames,
    };
    Ok((scan, rest))
}
