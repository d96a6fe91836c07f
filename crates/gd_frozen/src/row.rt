//! Rows, and positions of iterators, read from their texts.
ghost use Rattle.std.specs.Prelude.{◌≡◌, ◌∷◌, [], false, map, option_map, MatchOption};
ghost use Rattle.gd_grammar.specs.Grammar.{more_at};
ghost use Rattle.gd_bytes.specs.Cursor.{place_at};
ghost use Rattle.gd_bytes.specs.FrozenRead.{mark_at, iter_at, row_at, after_at, some_at};
ghost use Rattle.gd_bytes.specs.FrozenRead.{bracketed_at};
ghost use Rattle.gd_frozen.specs.Finds.{Finds};
ghost use Rattle.gd_frozen.specs.Halts.{Gets};
ghost use Rattle.gd_frozen.specs.Meaning.{row_of, iter_of};
ghost use Rattle.gd_grammar.specs.Choice.{is_next};
ghost use Rattle.gd_frozen.specs.RowSteps.{given_row_at, some_rows_at, rows_behind_at};

use crate::cursor::Places;
use crate::frozen::RowAt;
use crate::halt::Halt;
use crate::number::number;
use crate::place::{MAX_PLACE, byte, id_of, place};
use crate::stop::Stop;
use gd_base::id::Id;
use gd_iter_core::turn::FrozenIter;
use std::alloc::Global;

/// The bytes behind this one, if it comes next.
pub(crate) fn skip(bytes: &[u8], mark: u8) -> Option<&[u8]>
    ensures { MatchOption result (is_next mark bytes.now ≡ false)
        (λ rest. bytes.now ≡ mark ∷ rest.now) }
{
    match bytes {
        [] => None,
        [first, behind @ ..] => {
            if *first == mark {
                return Some(behind);
            }
            None
        }
    }
}

/// Reads how many members accept a place, if that is told.
fn accepted(bytes: &[u8]) -> Result<(Option<u32>, &[u8]), Stop>
    ensures { Finds (λ x. (x.0, x.1.now)) (mark_at bytes.now) result }
{
    match bytes {
        [] => Ok((None, bytes)),
        [first, behind @ ..] => {
            if *first == b'?' {
                let (members, rest) = number(behind, u32::MAX)?;
                return Ok((Some(members), rest));
            }
            Ok((None, bytes))
        }
    }
}

/// Reads the position of an iterator.
pub(crate) fn position(bytes: &[u8]) -> Result<(FrozenIter, &[u8]), Halt>
    ensures { Gets (λ x. (iter_of x.0, x.1.now)) (iter_at bytes.now) result }
{
    let (place, rest) = number(bytes, MAX_PLACE)?;
    let (accepted, rest) = accepted(rest)?;
    let iter = FrozenIter {
        place: Id::new(place),
        accepted,
    };
    Ok((iter, rest))
}

/// Reads the places of at most four keys, a comma before each.
fn keys(bytes: &[u8]) -> Result<(Places, &[u8]), Stop>
    ensures { Finds (λ x. (x.0, x.1.now)) (more_at 4 44 place_at bytes.now) result }
{
    let mut places = Places::new();
    let mut rest = bytes;
    for _place in 0..4u32 {
        match skip(rest, b',') {
            Some(behind) => {
                let (key, after) = place(behind)?;
                places.push(id_of(key));
                rest = after;
            }
            None => return Ok((places, rest)),
        }
    }
    Ok((places, rest))
}

/// Reads a row.
fn row(bytes: &[u8]) -> Result<(RowAt, &[u8]), Stop>
    ensures { Finds (λ x. (row_of x.0, x.1.now)) (row_at bytes.now) result }
{
    let (object, rest) = number(bytes, MAX_PLACE)?;
    let (keys, rest) = keys(rest)?;
    let row = RowAt {
        object: Id::new(object),
        keys,
    };
    Ok((row, rest))
}

/// Reads a row between parentheses.
#[tactic(auto, unfolding(crate::specs::RowSteps::given_row_at))]
fn given(bytes: &[u8]) -> Result<(RowAt, &[u8]), Stop>
    ensures { Finds (λ x. (row_of x.0, x.1.now)) (given_row_at bytes.now) result }
{
    let rest = byte(bytes, b'(')?;
    let (row, rest) = row(rest)?;
    let rest = byte(rest, b')')?;
    Ok((row, rest))
}

/// Reads the row after which a page begins, or that there is none.
#[tactic(auto, using(crate::proofs::Others::after_none, crate::proofs::Others::after_given))]
pub(crate) fn after(bytes: &[u8]) -> Result<(Option<RowAt>, &[u8]), Stop>
    ensures { Finds (λ x. (option_map row_of x.0, x.1.now)) (after_at bytes.now) result }
{
    match skip(bytes, b'-') {
        Some(behind) => Ok((None, behind)),
        None => {
            let (row, rest) = given(bytes)?;
            Ok((Some(row), rest))
        }
    }
}

/// Reads a row and at most a thousand behind it.
fn some_rows(alloc: Global, bytes: &[u8]) -> Result<(Vec<RowAt>, &[u8]), Halt>
    ensures { Gets (λ x. (map row_of x.0.items, x.1.now)) (some_at 1000 59 row_at bytes.now)
        result }
{
    let mut rows = Vec::new(alloc);
    let (first, after) = row(bytes)?;
    rows.push(first)?;
    let mut rest = after;
    for _place in 0..1000u32 {
        match skip(rest, b';') {
            Some(behind) => {
                let (next, after) = row(behind)?;
                rows.push(next)?;
                rest = after;
            }
            None => return Ok((rows, rest)),
        }
    }
    Ok((rows, rest))
}

/// Reads rows behind a bracket that is not closed at once.
#[tactic(auto, unfolding(crate::specs::RowSteps::some_rows_at), using(crate::proofs::Loops::halts_then))]
fn further_rows(alloc: Global, bytes: &[u8]) -> Result<(Vec<RowAt>, &[u8]), Halt>
    ensures { Gets (λ x. (map row_of x.0.items, x.1.now)) (some_rows_at bytes.now) result }
{
    let (rows, rest) = some_rows(alloc, bytes)?;
    let rest = byte(rest, b']')?;
    Ok((rows, rest))
}

/// Reads rows behind a bracket.
fn rows_behind(alloc: Global, bytes: &[u8]) -> Result<(Vec<RowAt>, &[u8]), Halt>
    ensures { Gets (λ x. (map row_of x.0.items, x.1.now)) (rows_behind_at bytes.now) result }
{
    match skip(bytes, b']') {
        Some(behind) => Ok((Vec::new(alloc), behind)),
        None => further_rows(alloc, bytes),
    }
}

/// Reads rows between brackets.
#[tactic(auto, unfolding(crate::specs::RowSteps::rows_behind_at))]
pub(crate) fn rows(alloc: Global, bytes: &[u8]) -> Result<(Vec<RowAt>, &[u8]), Halt>
    ensures { Gets (λ x. (map row_of x.0.items, x.1.now)) (bracketed_at 1000 row_at bytes.now)
        result }
{
    let rest = byte(bytes, b'[')?;
    rows_behind(alloc, rest)
}
