//! The lines of primitives.
ghost use Rattle.std.specs.Prelude.{◌≡◌, ◌==◌, ◌||◌};
ghost use Rattle.gd_grammar.specs.Reading.{byte_if};
ghost use Rattle.gd_dump_laws.specs.Reading as reading;
ghost use Rattle.gd_dump.specs.Stop.{Finds};

use crate::number::number_to;
use crate::stop::Stop;
use crate::value::{name, value};
use crate::word::{byte, word};
use gd_base::id::Id;
use gd_prim::Primitive;
use std::alloc::Global;

/// Reads a place and a space.
#[tactic(auto, unfolding(gd_dump_laws::specs::Reading::some_place_at))]
fn some_place(bytes: &[u8]) -> Result<(Option<u32>, &[u8]), Stop>
    ensures { Finds (λ x. (x.0, x.1.now)) (reading.some_place_at bytes.now) result }
{
    let (place, rest) = number_to(bytes, u64::from(u32::MAX), b' ')?;
    Ok((Some(place as u32), rest))
}

/// Reads `-` in place of a place, and a space.
#[tactic(auto, unfolding(gd_dump_laws::specs::Reading::no_place_at))]
fn no_place(bytes: &[u8]) -> Result<(Option<u32>, &[u8]), Stop>
    ensures { Finds (λ x. (x.0, x.1.now)) (reading.no_place_at bytes.now) result }
{
    let rest = word(bytes, b"- ")?;
    Ok((None, rest))
}

/// Reads a reference.
#[tactic(auto, unfolding(gd_dump_laws::specs::Reading::place_at))]
fn place(bytes: &[u8]) -> Result<(Option<u32>, &[u8]), Stop>
    ensures { Finds (λ x. (x.0, x.1.now)) (reading.place_at bytes.now) result }
{
    match bytes {
        [] => Err(Stop::Bad { left: 0 }),
        [first, ..] => {
            if *first == b'-' {
                no_place(bytes)
            } else {
                some_place(bytes)
            }
        }
    }
}

/// Reads the sign of a primitive that is live or not.
fn sign(bytes: &[u8]) -> Result<(u8, &[u8]), Stop>
    ensures { Finds (λ x. (x.0, x.1.now)) (byte_if (λ c. c == 43 || c == 45) bytes.now) result }
{
    match bytes {
        [] => Err(Stop::Bad { left: 0 }),
        [sign, rest @ ..] => {
            if *sign != b'+' && *sign != b'-' {
                return Err(Stop::Bad { left: bytes.len() });
            }
            Ok((*sign, rest))
        }
    }
}

/// Reads whether a primitive is live.
#[tactic(auto, unfolding(gd_dump_laws::specs::Reading::live_at))]
fn live(bytes: &[u8]) -> Result<(bool, &[u8]), Stop>
    ensures { Finds (λ x. (x.0, x.1.now)) (reading.live_at bytes.now) result }
{
    let (sign, rest) = sign(bytes)?;
    let rest = byte(rest, b' ')?;
    Ok((sign == b'+', rest))
}

/// The place of a reference, where it is there.
fn id(place: Option<u32>) -> Option<Id>
    ensures { result ≡ place }
{
    place.map(Id::new)
}

/// Reads what stands behind the first five references of a primitive of this moment.
fn behind_previous(
    alloc: Global,
    moment: u64,
    left: Option<u32>,
    right: Option<u32>,
    typ: Option<u32>,
    scope: Option<u32>,
    previous: Option<u32>,
    bytes: &[u8],
) -> Result<(Primitive, &[u8]), Stop>
    ensures { Finds (λ x. (x.0, x.1.now))
        (reading.behind_previous_at moment left right typ scope previous bytes.now) result }
{
    let (lang, rest) = place(bytes)?;
    let (live, rest) = live(rest)?;
    let (value, rest) = value(alloc, rest)?;
    let (name, rest) = name(alloc, rest)?;
    let prim = Primitive {
        left: id(left),
        right: id(right),
        typ: id(typ),
        scope: id(scope),
        value,
        name,
        previous: id(previous),
        live,
        moment,
        lang: id(lang),
    };
    Ok((prim, rest))
}

/// Reads what stands behind the first three references of a primitive of this moment.
#[tactic(auto, unfolding(gd_dump_laws::specs::Reading::behind_typ_at))]
fn behind_typ(
    alloc: Global,
    moment: u64,
    left: Option<u32>,
    right: Option<u32>,
    typ: Option<u32>,
    bytes: &[u8],
) -> Result<(Primitive, &[u8]), Stop>
    ensures { Finds (λ x. (x.0, x.1.now)) (reading.behind_typ_at moment left right typ bytes.now)
        result }
{
    let (scope, rest) = place(bytes)?;
    let (previous, rest) = place(rest)?;
    behind_previous(alloc, moment, left, right, typ, scope, previous, rest)
}

/// Reads the line of a primitive of this moment.
#[tactic(auto, unfolding(gd_dump_laws::specs::Reading::prim_at))]
pub(crate) fn primitive(
    alloc: Global,
    moment: u64,
    bytes: &[u8],
) -> Result<(Primitive, &[u8]), Stop>
    ensures { Finds (λ x. (x.0, x.1.now)) (reading.prim_at moment bytes.now) result }
{
    let (left, rest) = place(bytes)?;
    let (right, rest) = place(rest)?;
    let (typ, rest) = place(rest)?;
    behind_typ(alloc, moment, left, right, typ, rest)
}
