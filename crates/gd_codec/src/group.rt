//! Groups of batches, read from bytes.
ghost use Rattle.std.specs.Prelude.{◌≡◌, ◌<◌, ◌≤◌, ℕ, List, None, Some, IfOk, ◌≢◌, MatchResult};
ghost use Rattle.std.specs.Prelude.{is_some};
ghost use Rattle.gd_grammar.specs.Reading.{items_at};
ghost use Rattle.gd_codec.specs.Groups as defined;
ghost use Rattle.gd_codec.specs.Stop.{Finds, IsCause};
ghost use Rattle.gd_bytes.specs.Group.{IsGroup, group_of};
ghost use Rattle.gd_bytes.specs.File.{has_lang};
ghost use Rattle.std.specs.List.{list_any};
ghost use Rattle.gd_prim.specs.declared.Batch.{Batch};
ghost use Rattle.gd_codec.specs.Writable.{MayWrite};
ghost use Rattle.gd_codec.specs.declared.stop.CodecFault.TheVariants as fault;

use crate::number::{Range, number};
use crate::primitive::primitive;
use crate::stop::{CodecFault, Stop};
use gd_prim::limits::MAX_BATCH;
use gd_prim::well_formed::MAX_MOMENT;
use gd_prim::{Batch, Primitive, Prims};
use std::alloc::Global;
use std::marker::Model;

const MOMENTS: [Range; 1] = [(0, MAX_MOMENT)];

const PRIMITIVES: [Range; 1] = [(0, MAX_BATCH as u64)];

const BATCHES: [Range; 1] = [(1, 256)];

/// Reads so many primitives of this moment.
fn primitives(
    alloc: Global,
    moment: u64,
    count: u64,
    bytes: &[u8],
) -> Result<(Vec<Primitive>, &[u8]), Stop>
    ensures { Finds (λ x. (x.0.items, x.1.now))
        (items_at (defined.primitive_at moment) count bytes.now) result }
{
    let mut prims = Vec::new(alloc);
    let mut rest = bytes;
    for _place in 0..count {
        let (prim, behind) = primitive(alloc, moment, rest)?;
        prims.push(prim)?;
        rest = behind;
    }
    Ok((prims, rest))
}

/// Reads a batch: its moment, the number of its primitives, and the primitives.
#[tactic(auto, unfolding(crate::specs::Groups::batch_at))]
fn batch(alloc: Global, bytes: &[u8]) -> Result<(Batch, &[u8]), Stop>
    ensures { Finds (λ x. (x.0, x.1.now)) (defined.batch_at bytes.now) result }
{
    let (moment, rest) = number(bytes, 8, &MOMENTS)?;
    let (count, rest) = number(rest, 2, &PRIMITIVES)?;
    let (prims, rest) = primitives(alloc, moment, count, rest)?;
    let batch = Batch {
        moment,
        prims: Prims::from(prims),
    };
    Ok((batch, rest))
}

/// Reads so many batches.
fn batches(alloc: Global, count: u64, bytes: &[u8]) -> Result<(Vec<Batch>, &[u8]), Stop>
    ensures { Finds (λ x. (x.0.items, x.1.now)) (items_at defined.batch_at count bytes.now) result }
{
    let mut batches = Vec::new(alloc);
    let mut rest = bytes;
    for _place in 0..count {
        let (batch, behind) = batch(alloc, rest)?;
        batches.push(batch)?;
        rest = behind;
    }
    Ok((batches, rest))
}

/// Reads a group: the number of its batches, 1 to 256, and the batches.
#[tactic(auto, unfolding(crate::specs::Groups::group_at))]
fn counted_batches(alloc: Global, bytes: &[u8]) -> Result<(Vec<Batch>, &[u8]), Stop>
    ensures { Finds (λ x. (x.0.items, x.1.now)) (defined.group_at bytes.now) result }
{
    let (count, rest) = number(bytes, 2, &BATCHES)?;
    batches(alloc, count, rest)
}

/// The batches of which the bytes are the group.
fn whole_group(alloc: Global, bytes: &[u8]) -> Result<Vec<Batch>, Stop>
    ensures { Finds (λ x. x.items) (defined.whole_group_at bytes.now) result }
{
    let (batches, rest) = counted_batches(alloc, bytes)?;
    if !rest.is_empty() {
        return Err(Stop::Bad { left: rest.len() });
    }
    Ok(batches)
}

/// Whether some primitive names a language.
fn names_lang(prims: &[Primitive]) -> bool
    ensures { result ≡ list_any (λ p. is_some p.lang) prims.now }
{
    prims.iter().any(|prim| prim.lang.is_some())
}

/// The batches that a record of a log holds. Contracts see them as their list.
#[derive(Drop)]
pub struct Group {
    batches: Vec<Batch>,
}

impl Model for Group {
    ghost use Rattle.std.specs.Prelude.{List};
    ghost use Rattle.gd_prim.specs.declared.Batch.{Batch};

    ghost Value = { List Batch };

    ghost view = { λ group. group.batches.items };
}

impl Group {
    /// The group of these batches. It takes no memory.
    pub fn of(batches: Vec<Batch>) -> Group
        ensures { result ≡ batches.items }
    {
        Group { batches }
    }

    /// The batches in their order; of a group that was read 1 to 256.
    pub fn batches(&self) -> &[Batch]
        ensures { result.now ≡ self.now }
    {
        self.batches.as_slice()
    }

    /// Whether some primitive of the batches names a language. It takes no memory.
    pub fn has_lang(&self) -> bool
        ensures { result ≡ has_lang self.now }
    {
        self.batches
            .iter()
            .any(|batch| names_lang(batch.prims.as_slice()))
    }

    /// The vector of these batches. It takes no memory.
    pub fn into_vec(self) -> Vec<Batch>
        ensures { result.items ≡ self }
    {
        self.batches
    }
}

/// Reads a group of batches. `BadBytes`: the bytes are no group, or more follow one; the longest
/// front of the bytes that begins some group has `offset` bytes. Each group has one spelling, so
/// what was read is written as these bytes.
pub fn decode_group(alloc: Global, bytes: &[u8]) -> Result<Group, CodecFault>
    ensures read { MatchResult result (λ group. IsGroup bytes.now group) (IsCause bytes.now) }
    ensures writable { IfOk result (λ group. MayWrite group) }
    ensures again { (batches : List Batch) → IsGroup bytes.now batches
        → MatchResult result (λ group. group ≡ batches) (λ refused. refused ≡ fault.Memory) }
    ensures meant { MatchResult result (λ group. group_of bytes.now ≡ Some group)
        (λ refused. refused ≢ fault.Memory → group_of bytes.now ≡ None) }
{
    match whole_group(alloc, bytes) {
        Ok(batches) => Ok(Group { batches }),
        Err(Stop::Bad { left }) => Err(CodecFault::BadBytes {
            offset: (bytes.len() - left) as u64,
        }),
        Err(Stop::Memory) => Err(CodecFault::Memory),
    }
}
