//! Which batches an ask is answered.
ghost use Rattle.std.specs.Prelude.{◌≡◌, ◌<◌, ◌≤◌, ◌+◌, Some, length, take, drop, slice_get};
ghost use Rattle.std.specs.Prelude.{IfOk, IfErr};
ghost use Rattle.std.specs.List.{AllByRecursion};
ghost use Rattle.gd_prim.specs.declared.Batch.{Batch};
ghost use Rattle.gd_bytes.specs.Group as group;
ghost use Rattle.gd_log.specs.Stored.{IsEarly};
ghost use Rattle.gd_follow.specs.Asks.{IsLongest, Asks, MayBeWritten, IsOfList, IsWithin};

use crate::answer::{AskFault, Asked};
use crate::batches::{batch_at, batch_prims};
use gd_base::memory::Memory;
use gd_codec::{Group, primitives_length};
use gd_prim::Batch;
use gd_store::store::Store;
use std::alloc::Global;

/// How many bytes a group has at most that answers an ask.
const PART_LIMIT: usize = 500_000;

/// How many bytes the n-th batch has in a group.
fn batch_length(store: &Store, n: u32) -> usize
    requires there { n < length store.now }
    requires small { n < 4_194_303 }
    ensures length { (b : Batch) → slice_get store.now n ≡ Some b
        → result ≡ length (group.batch_bytes b) }
    ensures bound { result ≤ 33_677_322 }
{
    10 + primitives_length(batch_prims(store, n))
}

/// How many batches from a number on, at most `most`, have a group that is not too large; one more
/// would have one that is, or there is none.
fn longest(store: &Store, from: u32, most: u32) -> u32
    requires from { from ≤ length store.now }
    requires most { most ≤ 256 }
    ensures { IsLongest store.now from most result }
{
    let entries = store.requests();
    let mut total = 2;
    for count in 0..most {
        if count >= entries - from {
            return count;
        }
        total += batch_length(store, from + count);
        if total > PART_LIMIT {
            return count;
        }
    }
    most
}

/// So many batches from a number on.
fn collect(alloc: Global, store: &Store, from: u32, count: u32) -> Result<Vec<Batch>, Memory>
    requires { from + count ≤ length store.now }
    ensures { IfOk result (λ batches. batches.items ≡ take count (drop from store.now)) }
{
    let _few = store.requests();
    let mut batches = Vec::new(alloc);
    for place in 0..count {
        batches.push(batch_at(alloc, store, from + place)?)?;
    }
    Ok(batches)
}

/// The longest run of at most `most` batches of the store from a number on whose group has at most
/// 500,000 bytes.
pub(crate) fn ask(alloc: Global, store: &Store, from: u32, most: u32) -> Result<Asked, AskFault>
    requires some { 1 ≤ most }
    requires few { most ≤ 256 }
    ensures asks { Asks store.now from most result }
    ensures may { AllByRecursion IsEarly store.now → MayBeWritten result }
    ensures of_list { IsOfList store.now from result }
    ensures within { IfErr result IsWithin }
{
    let have = store.requests();
    if from > have {
        return Err(AskFault::CursorAhead { asked: from, have });
    }
    if from == have {
        return Ok(Asked::Nothing);
    }
    let count = longest(store, from, most);
    if count == 0 {
        return Err(AskFault::BatchTooLarge {
            bytes: 2 + batch_length(store, from) as u64,
            entry: from,
        });
    }
    let batches = collect(alloc, store, from, count)?;
    Ok(Asked::Part(Group::of(batches)))
}
