//! Frozen readings, read from their texts.
ghost use Rattle.std.specs.Prelude.{◌≡◌, ◌≢◌, MatchResult, List, ℕ, IfOk, map, Ok};
ghost use Rattle.gd_bytes.specs.Frozen as defined;
ghost use Rattle.gd_frozen.specs.Finds.{Finds};
ghost use Rattle.gd_frozen.specs.Halts.{Gets};
ghost use Rattle.gd_frozen.specs.FrozenAt.{building_at, printing_at, body_at};
ghost use Rattle.gd_frozen.specs.Meaning.{body_of, reading_of, IsFrozenCause};
ghost use Rattle.gd_frozen.specs.BodySteps.{head_at, scanning_at, further_body_at, lettered_at};
ghost use Rattle.gd_frozen.specs.BodySteps.{behind_at, read_at, whole_frozen_at};
ghost use Rattle.gd_frozen.specs.declared.stop.FrozenFault.TheVariants.{Memory as no_memory};

use crate::frozen::{FrozenBody, FrozenReading};
use crate::halt::Halt;
use crate::number::number;
use crate::place::byte;
use crate::row::{after, rows, skip};
use crate::scan::scan;
use crate::stop::{FrozenFault, Stop};
use crate::tree::trees;
use crate::walk::walks;
use gd_prim::limits::MAX_REQUESTS;
use std::alloc::Global;

/// The greatest dateline.
const MAX_DATELINE: u32 = MAX_REQUESTS as u32;

/// Reads what a reading that scans does, behind its letter.
#[tactic(auto, unfolding(crate::specs::BodySteps::scanning_at), using(crate::proofs::Loops::halts_then))]
fn scanning(alloc: Global, bytes: &[u8]) -> Result<(FrozenBody, &[u8]), Halt>
    ensures { Gets (λ x. (body_of x.0, x.1.now)) (scanning_at bytes.now) result }
{
    let (scan, rest) = scan(alloc, bytes)?;
    Ok((FrozenBody::Scan(scan), rest))
}

/// Reads what a reading that builds trees does, behind its letter.
#[tactic(auto, using(crate::proofs::Loops::halts_then))]
fn building(alloc: Global, bytes: &[u8]) -> Result<(FrozenBody, &[u8]), Halt>
    ensures { Gets (λ x. (body_of x.0, x.1.now)) (building_at bytes.now) result }
{
    let (weight, rest) = number(bytes, u32::MAX)?;
    let rest = byte(rest, b':')?;
    let (trees, rest) = trees(alloc, rest)?;
    let rest = byte(rest, b':')?;
    let (scan, rest) = scan(alloc, rest)?;
    let body = FrozenBody::Build {
        weight,
        trees,
        scan,
    };
    Ok((body, rest))
}

/// Reads what a reading that prints does, behind its letter.
#[tactic(auto, using(crate::proofs::Loops::halts_then))]
fn printing(alloc: Global, bytes: &[u8]) -> Result<(FrozenBody, &[u8]), Halt>
    ensures { Gets (λ x. (body_of x.0, x.1.now)) (printing_at bytes.now) result }
{
    let (printed, rest) = number(bytes, u32::MAX)?;
    let rest = byte(rest, b':')?;
    let (trees, rest) = trees(alloc, rest)?;
    let rest = byte(rest, b':')?;
    let (walks, rest) = walks(alloc, rest)?;
    let body = FrozenBody::Print {
        printed,
        trees,
        walks,
    };
    Ok((body, rest))
}

/// Reads what a reading does that neither scans nor builds trees.
#[tactic(auto, unfolding(crate::specs::BodySteps::lettered_at))]
fn lettered(alloc: Global, bytes: &[u8]) -> Result<(FrozenBody, &[u8]), Halt>
    ensures { Gets (λ x. (body_of x.0, x.1.now)) (lettered_at bytes.now) result }
{
    let rest = byte(bytes, b'p')?;
    printing(alloc, rest)
}

/// Reads what a reading does that does not scan.
#[tactic(auto, using(crate::proofs::Bodies::further_built, crate::proofs::Bodies::further_lettered))]
fn further_body(alloc: Global, bytes: &[u8]) -> Result<(FrozenBody, &[u8]), Halt>
    ensures { Gets (λ x. (body_of x.0, x.1.now)) (further_body_at bytes.now) result }
{
    match skip(bytes, b'b') {
        Some(behind) => building(alloc, behind),
        None => lettered(alloc, bytes),
    }
}

/// Reads what a reading does.
#[tactic(auto, using(crate::proofs::Bodies::body_scanned, crate::proofs::Bodies::body_further))]
fn body(alloc: Global, bytes: &[u8]) -> Result<(FrozenBody, &[u8]), Halt>
    ensures { Gets (λ x. (body_of x.0, x.1.now)) (body_at bytes.now) result }
{
    match skip(bytes, b's') {
        Some(behind) => scanning(alloc, behind),
        None => further_body(alloc, bytes),
    }
}

/// Reads what stands in front of the dateline.
#[tactic(auto, unfolding(crate::specs::BodySteps::head_at))]
fn head(bytes: &[u8]) -> Result<&[u8], Stop>
    ensures { Finds (λ rest. (tt, rest.now)) (head_at bytes.now) result }
{
    let rest = byte(bytes, b'f')?;
    let rest = byte(rest, b'1')?;
    byte(rest, b':')
}

/// Reads the rest of a frozen reading.
#[tactic(auto, unfolding(crate::specs::BodySteps::behind_at), using(crate::proofs::Loops::halts_then))]
fn behind_head(alloc: Global, bytes: &[u8]) -> Result<(FrozenReading, &[u8]), Halt>
    ensures { Gets (λ x. (reading_of x.0, x.1.now)) (behind_at bytes.now) result }
{
    let (dateline, rest) = number(bytes, MAX_DATELINE)?;
    let rest = byte(rest, b':')?;
    let (after, rest) = after(rest)?;
    let rest = byte(rest, b':')?;
    let (rows, rest) = rows(alloc, rest)?;
    let rest = byte(rest, b':')?;
    let (body, rest) = body(alloc, rest)?;
    let reading = FrozenReading {
        dateline,
        after,
        rows,
        body,
    };
    Ok((reading, rest))
}

/// Reads a frozen reading.
#[tactic(auto, unfolding(crate::specs::BodySteps::read_at))]
fn reading(alloc: Global, bytes: &[u8]) -> Result<(FrozenReading, &[u8]), Halt>
    ensures { Gets (λ x. (reading_of x.0, x.1.now)) (read_at bytes.now) result }
{
    let rest = head(bytes)?;
    behind_head(alloc, rest)
}

/// The frozen reading that all of the bytes spell.
#[tactic(auto, using(crate::proofs::Loops::halts_then))]
fn whole_reading(alloc: Global, bytes: &[u8]) -> Result<FrozenReading, Halt>
    ensures { Gets (λ x. reading_of x) (whole_frozen_at bytes.now) result }
{
    let (reading, rest) = reading(alloc, bytes)?;
    if !rest.is_empty() {
        return Err(Halt::Bad { left: rest.len() });
    }
    Ok(reading)
}

/// The frozen reading of a text. `BadFrozen`: the bytes are the text of none, and the longest front
/// of them that begins one has `offset` bytes. `Memory`: an allocation was refused. Each frozen
/// reading has one text, so `frozen_text` of what was read gives these bytes.
pub fn frozen_from(alloc: Global, bytes: &[u8]) -> Result<FrozenReading, FrozenFault>
    ensures read { MatchResult result
        (λ reading. defined.IsFrozenText (reading_of reading) bytes.now) (IsFrozenCause bytes.now) }
{
    match whole_reading(alloc, bytes) {
        Ok(reading) => Ok(reading),
        Err(Halt::Bad { left }) => Err(FrozenFault::BadFrozen {
            offset: (bytes.len() - left) as u64,
        }),
        Err(Halt::Memory) => Err(FrozenFault::Memory),
    }
}
