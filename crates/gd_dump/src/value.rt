//! Values and names: a letter for the kind, the contents, and the byte behind them.
ghost use Rattle.std.specs.Prelude.{◌≡◌, ◌==◌};
ghost use Rattle.gd_grammar.specs.Reading.{between, byte_if};
ghost use Rattle.gd_dump_laws.specs.Reading as reading;
ghost use Rattle.gd_dump.specs.Stop.{Finds};

use crate::hex::text;
use crate::number::int_to;
use crate::stop::Stop;
use crate::word::{byte, word};
use gd_base::datum::{Datum, Precision};
use gd_base::text::Text;
use gd_prim::well_formed::MAX_MOMENT;
use std::alloc::Global;

/// The moments before 1970: so many milliseconds.
const BEFORE: u64 = 62_167_219_200_000;

/// The numbers of 64 bits: so many below 0.
const BELOW: u64 = 1 << 63;

/// The greatest number of 64 bits.
const GREATEST: u64 = (1 << 63) - 1;

/// Whether the byte is the letter of a kind of values.
fn is_kind(byte: u8) -> bool
    ensures { result ≡ reading.is_kind byte }
{
    matches!(byte, b'e' | b'i' | b'b' | b'm' | b't')
}

/// Reads the letter of a kind of values.
fn kind(bytes: &[u8]) -> Result<(u8, &[u8]), Stop>
    ensures { Finds (λ x. (x.0, x.1.now)) (byte_if reading.is_kind bytes.now) result }
{
    match bytes {
        [] => Err(Stop::Bad { left: 0 }),
        [letter, rest @ ..] => {
            if !is_kind(*letter) {
                return Err(Stop::Bad { left: bytes.len() });
            }
            Ok((*letter, rest))
        }
    }
}

/// Reads the letter of a precision.
fn precision(bytes: &[u8]) -> Result<(u8, &[u8]), Stop>
    ensures { Finds (λ x. (x.0, x.1.now)) (byte_if reading.is_precision bytes.now) result }
{
    match bytes {
        [] => Err(Stop::Bad { left: 0 }),
        [letter, rest @ ..] => {
            if !matches!(letter, b'y' | b'm' | b'd' | b't') {
                return Err(Stop::Bad { left: bytes.len() });
            }
            Ok((*letter, rest))
        }
    }
}

/// The precision of its letter.
fn precision_of(letter: u8) -> Precision
    ensures { result ≡ reading.precision_of letter }
{
    match letter {
        b'y' => Precision::Year,
        b'm' => Precision::Month,
        b'd' => Precision::Day,
        _ => Precision::Time,
    }
}

/// Reads a digit of a truth value.
fn digit(bytes: &[u8]) -> Result<(u8, &[u8]), Stop>
    ensures { Finds (λ x. (x.0, x.1.now)) (byte_if (between 48 49) bytes.now) result }
{
    match bytes {
        [] => Err(Stop::Bad { left: 0 }),
        [digit, rest @ ..] => {
            if *digit < b'0' || b'1' < *digit {
                return Err(Stop::Bad { left: bytes.len() });
            }
            Ok((*digit, rest))
        }
    }
}

/// Reads a truth value.
#[tactic(auto, unfolding(gd_dump_laws::specs::Reading::boolean_at))]
fn boolean(bytes: &[u8]) -> Result<(Datum, &[u8]), Stop>
    ensures { Finds (λ x. (x.0, x.1.now)) (reading.boolean_at bytes.now) result }
{
    let (digit, rest) = digit(bytes)?;
    let rest = byte(rest, b' ')?;
    Ok((Datum::Bool(digit == b'1'), rest))
}

/// Reads a moment.
#[tactic(auto, unfolding(gd_dump_laws::specs::Reading::moment_at))]
fn moment(bytes: &[u8]) -> Result<(Datum, &[u8]), Stop>
    ensures { Finds (λ x. (x.0, x.1.now)) (reading.moment_at bytes.now) result }
{
    let (letter, rest) = precision(bytes)?;
    let (ms, rest) = int_to(rest, BEFORE, MAX_MOMENT, b' ')?;
    let precision = precision_of(letter);
    Ok((Datum::Moment { ms, precision }, rest))
}

/// Reads a number.
#[tactic(auto, unfolding(gd_dump_laws::specs::Reading::integer_at))]
fn integer(bytes: &[u8]) -> Result<(Datum, &[u8]), Stop>
    ensures { Finds (λ x. (x.0, x.1.now)) (reading.integer_at bytes.now) result }
{
    let (n, rest) = int_to(bytes, BELOW, GREATEST, b' ')?;
    Ok((Datum::Int(n), rest))
}

/// Reads a text.
#[tactic(auto, unfolding(gd_dump_laws::specs::Reading::string_at))]
fn string(alloc: Global, bytes: &[u8]) -> Result<(Datum, &[u8]), Stop>
    ensures { Finds (λ x. (x.0, x.1.now)) (reading.string_at bytes.now) result }
{
    let (text, rest) = text(alloc, bytes, b' ')?;
    Ok((Datum::Text(text), rest))
}

/// Reads no contents.
#[tactic(auto, unfolding(gd_dump_laws::specs::Reading::nothing_at))]
fn nothing(bytes: &[u8]) -> Result<(Datum, &[u8]), Stop>
    ensures { Finds (λ x. (x.0, x.1.now)) (reading.nothing_at bytes.now) result }
{
    let rest = byte(bytes, b' ')?;
    Ok((Datum::Empty, rest))
}

/// Reads the contents of a value of the kind of this letter.
#[tactic(auto, unfolding(gd_dump_laws::specs::Reading::contents_at))]
fn contents(alloc: Global, letter: u8, bytes: &[u8]) -> Result<(Datum, &[u8]), Stop>
    ensures { Finds (λ x. (x.0, x.1.now)) (reading.contents_at letter bytes.now) result }
{
    match letter {
        b'e' => nothing(bytes),
        b'i' => integer(bytes),
        b'b' => boolean(bytes),
        b'm' => moment(bytes),
        _ => string(alloc, bytes),
    }
}

/// Reads a value and a space.
#[tactic(auto, unfolding(gd_dump_laws::specs::Reading::value_at))]
pub(crate) fn value(alloc: Global, bytes: &[u8]) -> Result<(Datum, &[u8]), Stop>
    ensures { Finds (λ x. (x.0, x.1.now)) (reading.value_at bytes.now) result }
{
    let (letter, rest) = kind(bytes)?;
    contents(alloc, letter, rest)
}

/// Reads a name that is there.
#[tactic(auto, unfolding(gd_dump_laws::specs::Reading::some_name_at))]
fn some_name(alloc: Global, bytes: &[u8]) -> Result<(Option<Text>, &[u8]), Stop>
    ensures { Finds (λ x. (x.0, x.1.now)) (reading.some_name_at bytes.now) result }
{
    let rest = byte(bytes, b't')?;
    let (text, rest) = text(alloc, rest, b'\n')?;
    Ok((Some(text), rest))
}

/// Reads `-` in place of a name.
#[tactic(auto, unfolding(gd_dump_laws::specs::Reading::no_name_at))]
fn no_name(bytes: &[u8]) -> Result<(Option<Text>, &[u8]), Stop>
    ensures { Finds (λ x. (x.0, x.1.now)) (reading.no_name_at bytes.now) result }
{
    let rest = word(bytes, b"-\n")?;
    Ok((None, rest))
}

/// Reads a name, or `-`, and the end of the line.
#[tactic(auto, unfolding(gd_dump_laws::specs::Reading::name_at))]
pub(crate) fn name(alloc: Global, bytes: &[u8]) -> Result<(Option<Text>, &[u8]), Stop>
    ensures { Finds (λ x. (x.0, x.1.now)) (reading.name_at bytes.now) result }
{
    match bytes {
        [] => Err(Stop::Bad { left: 0 }),
        [first, ..] => {
            if *first == b'-' {
                no_name(bytes)
            } else {
                some_name(alloc, bytes)
            }
        }
    }
}
