//! Walks, read from their texts.
ghost use Rattle.std.specs.Prelude.{map};
ghost use Rattle.gd_grammar.specs.Grammar.{number_at};
ghost use Rattle.gd_prim.specs.Limits.{max_prims};
ghost use Rattle.gd_bytes.specs.FrozenRead.{some_at, walk_at};
ghost use Rattle.gd_frozen.specs.Halts.{Gets};
ghost use Rattle.gd_frozen.specs.FrozenAt.{one_or_more_at, walks_at};
ghost use Rattle.gd_frozen.specs.Meaning.{walk_of};
ghost use Rattle.gd_frozen.specs.WalkSteps.{linked_at, rooted_at, some_walks_at, walks_behind_at};

use crate::frozen::Walk;
use crate::halt::Halt;
use crate::number::number;
use crate::place::{MAX_PLACE, byte};
use crate::row::skip;
use gd_base::id::Id;
use std::alloc::Global;

/// Reads a key link and at most 15 behind it.
fn links(alloc: Global, bytes: &[u8]) -> Result<(Vec<Id>, &[u8]), Halt>
    ensures { Gets (λ x. (x.0.items, x.1.now)) (some_at 15 44 (number_at max_prims) bytes.now)
        result }
{
    let mut links = Vec::new(alloc);
    let (first, after) = number(bytes, MAX_PLACE)?;
    links.push(Id::new(first))?;
    let mut rest = after;
    for _place in 0..15u32 {
        match skip(rest, b',') {
            Some(behind) => {
                let (next, after) = number(behind, MAX_PLACE)?;
                links.push(Id::new(next))?;
                rest = after;
            }
            None => return Ok((links, rest)),
        }
    }
    Ok((links, rest))
}

/// Reads a walk of links.
#[tactic(auto, unfolding(crate::specs::WalkSteps::linked_at), using(crate::proofs::Loops::halts_then))]
fn linked(alloc: Global, bytes: &[u8]) -> Result<(Walk, &[u8]), Halt>
    ensures { Gets (λ x. (walk_of x.0, x.1.now)) (linked_at bytes.now) result }
{
    let (links, rest) = links(alloc, bytes)?;
    Ok((Walk::Links(links), rest))
}

/// Reads a walk that is no guid.
#[tactic(auto, using(crate::proofs::Others::rooted_root, crate::proofs::Others::rooted_linked))]
fn rooted(alloc: Global, bytes: &[u8]) -> Result<(Walk, &[u8]), Halt>
    ensures { Gets (λ x. (walk_of x.0, x.1.now)) (rooted_at bytes.now) result }
{
    match skip(bytes, b'/') {
        Some(behind) => Ok((Walk::Root, behind)),
        None => linked(alloc, bytes),
    }
}

/// Reads a walk.
#[tactic(auto, using(crate::proofs::Others::walk_guid, crate::proofs::Others::walk_rooted))]
fn walk(alloc: Global, bytes: &[u8]) -> Result<(Walk, &[u8]), Halt>
    ensures { Gets (λ x. (walk_of x.0, x.1.now)) (walk_at bytes.now) result }
{
    match skip(bytes, b'g') {
        Some(behind) => Ok((Walk::Guid, behind)),
        None => rooted(alloc, bytes),
    }
}

/// Reads a walk, and all that come behind semicolons.
fn some_walks(alloc: Global, bytes: &[u8]) -> Result<(Vec<Walk>, &[u8]), Halt>
    ensures { Gets (λ x. (map walk_of x.0.items, x.1.now)) (one_or_more_at 59 walk_at bytes.now)
        result }
{
    let mut walks = Vec::new(alloc);
    let (first, after) = walk(alloc, bytes)?;
    walks.push(first)?;
    let mut rest = after;
    while let Some(behind) = skip(rest, b';') {
        let (next, after) = walk(alloc, behind)?;
        walks.push(next)?;
        rest = after;
    }
    Ok((walks, rest))
}

/// Reads walks behind a bracket that is not closed at once.
#[tactic(auto, unfolding(crate::specs::WalkSteps::some_walks_at), using(crate::proofs::Loops::halts_then))]
fn further_walks(alloc: Global, bytes: &[u8]) -> Result<(Vec<Walk>, &[u8]), Halt>
    ensures { Gets (λ x. (map walk_of x.0.items, x.1.now)) (some_walks_at bytes.now) result }
{
    let (walks, rest) = some_walks(alloc, bytes)?;
    let rest = byte(rest, b']')?;
    Ok((walks, rest))
}

/// Reads walks behind a bracket.
fn walks_behind(alloc: Global, bytes: &[u8]) -> Result<(Vec<Walk>, &[u8]), Halt>
    ensures { Gets (λ x. (map walk_of x.0.items, x.1.now)) (walks_behind_at bytes.now) result }
{
    match skip(bytes, b']') {
        Some(behind) => Ok((Vec::new(alloc), behind)),
        None => further_walks(alloc, bytes),
    }
}

/// Reads walks between brackets.
#[tactic(auto, unfolding(crate::specs::WalkSteps::walks_behind_at))]
pub(crate) fn walks(alloc: Global, bytes: &[u8]) -> Result<(Vec<Walk>, &[u8]), Halt>
    ensures { Gets (λ x. (map walk_of x.0.items, x.1.now)) (walks_at bytes.now) result }
{
    let rest = byte(bytes, b'[')?;
    walks_behind(alloc, rest)
}
