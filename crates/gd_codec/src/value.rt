//! Values: a byte for the kind, and the contents.
ghost use Rattle.std.specs.Prelude.{◌≡◌, ◌<◌, ◌≤◌, ℕ};
ghost use Rattle.gd_codec.specs.Groups as defined;
ghost use Rattle.gd_codec.specs.Stop.{Finds};

use crate::number::{Range, number};
use crate::stop::Stop;
use crate::text::text;
use gd_base::datum::{Datum, Precision};
use gd_prim::well_formed::MAX_MOMENT;
use std::alloc::Global;

const KINDS: [Range; 1] = [(0, 4)];

const INTEGERS: [Range; 1] = [(0, u64::MAX)];

const BOOLEANS: [Range; 1] = [(0, 1)];

const PRECISIONS: [Range; 1] = [(0, 3)];

/// The milliseconds from the year 0000 to the last of 9999, in two's complement.
const MOMENTS: [Range; 2] = [(0, MAX_MOMENT), (18_446_681_906_490_351_616, u64::MAX)];

/// The precision at this place in their order.
fn precision(place: u64) -> Precision
    ensures { result ≡ defined.precision_from place }
{
    match place {
        0 => Precision::Year,
        1 => Precision::Month,
        2 => Precision::Day,
        _ => Precision::Time,
    }
}

/// Reads a number of 64 bits in two's complement.
fn integer(bytes: &[u8]) -> Result<(Datum, &[u8]), Stop>
    ensures { Finds (λ x. (x.0, x.1.now)) (defined.integer_at bytes.now) result }
{
    let (n, rest) = number(bytes, 8, &INTEGERS)?;
    Ok((Datum::Int(n.cast_signed()), rest))
}

/// Reads a truth value.
fn boolean(bytes: &[u8]) -> Result<(Datum, &[u8]), Stop>
    ensures { Finds (λ x. (x.0, x.1.now)) (defined.boolean_at bytes.now) result }
{
    let (n, rest) = number(bytes, 1, &BOOLEANS)?;
    Ok((Datum::Bool(n == 1), rest))
}

/// Reads a moment: its precision and its milliseconds.
fn moment(bytes: &[u8]) -> Result<(Datum, &[u8]), Stop>
    ensures { Finds (λ x. (x.0, x.1.now)) (defined.moment_at bytes.now) result }
{
    let (place, rest) = number(bytes, 1, &PRECISIONS)?;
    let (n, rest) = number(rest, 8, &MOMENTS)?;
    let datum = Datum::Moment {
        ms: n.cast_signed(),
        precision: precision(place),
    };
    Ok((datum, rest))
}

/// Reads the contents of a value of this kind.
#[tactic(auto, unfolding(crate::specs::Groups::contents_at))]
fn contents(alloc: Global, kind: u64, bytes: &[u8]) -> Result<(Datum, &[u8]), Stop>
    ensures { Finds (λ x. (x.0, x.1.now)) (defined.contents_at kind bytes.now) result }
{
    match kind {
        0 => Ok((Datum::Empty, bytes)),
        1 => {
            let (text, rest) = text(alloc, bytes)?;
            Ok((Datum::Text(text), rest))
        }
        2 => integer(bytes),
        3 => boolean(bytes),
        _ => moment(bytes),
    }
}

/// Reads a value: its kind and its contents.
#[tactic(auto, unfolding(crate::specs::Groups::value_at))]
pub(crate) fn value(alloc: Global, bytes: &[u8]) -> Result<(Datum, &[u8]), Stop>
    ensures { Finds (λ x. (x.0, x.1.now)) (defined.value_at bytes.now) result }
{
    let (kind, rest) = number(bytes, 1, &KINDS)?;
    contents(alloc, kind, rest)
}
