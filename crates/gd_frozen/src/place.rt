//! The places of keys: each behind a colon, in digits, or a dash where the key is missing.
ghost use Rattle.std.specs.Prelude.{◌≡◌, ◌∷◌, []};
ghost use Rattle.gd_bytes.specs.Cursor.{place_at};
ghost use Rattle.gd_grammar.specs.Choice.{is_next};
ghost use Rattle.gd_grammar.specs.Grammar.{more_at, text_at};
ghost use Rattle.gd_frozen.specs.Finds.{Finds, next_at};

use crate::cursor::Places;
use crate::number::number;
use crate::stop::Stop;
use gd_base::id::Id;
use gd_prim::limits::MAX_PRIMS;

/// The greatest place.
pub(crate) const MAX_PLACE: u32 = MAX_PRIMS as u32;

/// Reads this very byte.
pub(crate) fn byte(bytes: &[u8], expected: u8) -> Result<&[u8], Stop>
    ensures { Finds (λ rest. (tt, rest.now)) (text_at (expected ∷ []) bytes.now) result }
{
    match bytes {
        [] => Err(Stop { left: 0 }),
        [first, behind @ ..] => {
            if expected != *first {
                return Err(Stop { left: bytes.len() });
            }
            Ok(behind)
        }
    }
}

/// Reads the place of a key.
pub(crate) fn place(bytes: &[u8]) -> Result<(Option<u32>, &[u8]), Stop>
    ensures { Finds (λ x. (x.0, x.1.now)) (place_at bytes.now) result }
{
    match bytes {
        [] => Err(Stop { left: 0 }),
        [first, behind @ ..] => {
            if *first == b'-' {
                return Ok((None, behind));
            }
            let (place, rest) = number(bytes, MAX_PLACE)?;
            Ok((Some(place), rest))
        }
    }
}

/// Whether a colon comes next.
fn is_colon_next(bytes: &[u8]) -> bool
    ensures { result ≡ is_next 58 bytes.now }
{
    match bytes {
        [first, ..] => *first == b':',
        [] => false,
    }
}

/// Reads the place of one more key behind a colon.
#[tactic(auto, unfolding(crate::specs::Finds::next_at))]
fn next_place(bytes: &[u8]) -> Result<(Option<u32>, &[u8]), Stop>
    ensures { Finds (λ x. (x.0, x.1.now)) (next_at bytes.now) result }
{
    let rest = byte(bytes, b':')?;
    place(rest)
}

/// The identity at a place.
pub(crate) fn id_of(place: Option<u32>) -> Option<Id>
    ensures { result ≡ place }
{
    match place {
        Some(place) => Some(Id::new(place)),
        None => None,
    }
}

/// Reads the places of at most four keys.
pub(crate) fn places(bytes: &[u8]) -> Result<(Places, &[u8]), Stop>
    ensures { Finds (λ x. (x.0, x.1.now)) (more_at 4 58 place_at bytes.now) result }
{
    let mut places = Places::new();
    let mut rest = bytes;
    for _place in 0..4u32 {
        if !is_colon_next(rest) {
            return Ok((places, rest));
        }
        let (place, behind) = next_place(rest)?;
        places.push(id_of(place));
        rest = behind;
    }
    Ok((places, rest))
}
