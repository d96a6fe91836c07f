//! Primitives: a byte of flags, the references that it announces, a value, and a name where it
//! announces one.
ghost use Rattle.std.specs.Prelude.{◌≡◌, ◌<◌, ◌≤◌, ℕ};
ghost use Rattle.gd_codec.specs.Groups as defined;
ghost use Rattle.gd_codec.specs.Stop.{Finds};

use crate::number::{Range, number};
use crate::stop::Stop;
use crate::text::text;
use crate::value::value;
use gd_base::id::Id;
use gd_base::text::Text;
use gd_prim::Primitive;
use std::alloc::Global;

const FLAGS: [Range; 1] = [(0, 255)];

const PLACES: [Range; 1] = [(0, u32::MAX as u64)];

/// Whether the flag at this place of a flag byte is set.
fn flag(flags: u64, place: u32) -> bool
    requires { place < 8 }
    ensures { result ≡ defined.flag_at flags place }
{
    flags >> place & 1 == 1
}

/// Reads a reference where it is there.
#[tactic(auto, unfolding(crate::specs::Groups::reference_at))]
fn reference(present: bool, bytes: &[u8]) -> Result<(Option<u32>, &[u8]), Stop>
    ensures { Finds (λ x. (x.0, x.1.now)) (defined.reference_at present bytes.now) result }
{
    if !present {
        return Ok((None, bytes));
    }
    let (place, rest) = number(bytes, 4, &PLACES)?;
    Ok((Some(place as u32), rest))
}

/// Reads a name where it is there.
#[tactic(auto, unfolding(crate::specs::Groups::name_at))]
fn name(alloc: Global, present: bool, bytes: &[u8]) -> Result<(Option<Text>, &[u8]), Stop>
    ensures { Finds (λ x. (x.0, x.1.now)) (defined.name_at present bytes.now) result }
{
    if !present {
        return Ok((None, bytes));
    }
    let (text, rest) = text(alloc, bytes)?;
    Ok((Some(text), rest))
}

/// The place of a reference, where it is there.
fn id(place: Option<u32>) -> Option<Id>
    ensures { result ≡ place }
{
    place.map(Id::new)
}

/// Reads what stands behind the first five references of a primitive of this moment and these
/// flags.
fn behind_previous(
    alloc: Global,
    moment: u64,
    flags: u64,
    left: Option<u32>,
    right: Option<u32>,
    typ: Option<u32>,
    scope: Option<u32>,
    previous: Option<u32>,
    bytes: &[u8],
) -> Result<(Primitive, &[u8]), Stop>
    ensures { Finds (λ x. (x.0, x.1.now))
        (defined.behind_previous_at moment flags left right typ scope previous bytes.now) result }
{
    let (lang, rest) = reference(flag(flags, 7), bytes)?;
    let (value, rest) = value(alloc, rest)?;
    let (name, rest) = name(alloc, flag(flags, 5), rest)?;
    let prim = Primitive {
        left: id(left),
        right: id(right),
        typ: id(typ),
        scope: id(scope),
        value,
        name,
        previous: id(previous),
        live: flag(flags, 6),
        moment,
        lang: id(lang),
    };
    Ok((prim, rest))
}

/// Reads what stands behind the first three references of a primitive of this moment and these
/// flags.
fn behind_typ(
    alloc: Global,
    moment: u64,
    flags: u64,
    left: Option<u32>,
    right: Option<u32>,
    typ: Option<u32>,
    bytes: &[u8],
) -> Result<(Primitive, &[u8]), Stop>
    ensures { Finds (λ x. (x.0, x.1.now))
        (defined.behind_typ_at moment flags left right typ bytes.now) result }
{
    let (scope, rest) = reference(flag(flags, 3), bytes)?;
    let (previous, rest) = reference(flag(flags, 4), rest)?;
    behind_previous(
        alloc, moment, flags, left, right, typ, scope, previous, rest,
    )
}

/// Reads a primitive of this moment.
#[tactic(auto, unfolding(crate::specs::Groups::primitive_at))]
pub(crate) fn primitive(
    alloc: Global,
    moment: u64,
    bytes: &[u8],
) -> Result<(Primitive, &[u8]), Stop>
    ensures { Finds (λ x. (x.0, x.1.now)) (defined.primitive_at moment bytes.now) result }
{
    let (flags, rest) = number(bytes, 1, &FLAGS)?;
    let (left, rest) = reference(flag(flags, 0), rest)?;
    let (right, rest) = reference(flag(flags, 1), rest)?;
    let (typ, rest) = reference(flag(flags, 2), rest)?;
    behind_typ(alloc, moment, flags, left, right, typ, rest)
}
