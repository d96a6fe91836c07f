//! Cursors, read from their texts.
ghost use Rattle.std.specs.Prelude.{◌≡◌, MatchResult};
ghost use Rattle.gd_bytes.specs.Cursor as defined;
ghost use Rattle.gd_frozen.specs.Finds.{Finds, head_at, rest_at, read_at, whole_cursor_at};
ghost use Rattle.gd_frozen.specs.Meant.{meant, IsCause, Refuses};

use crate::cursor::Cursor;
use crate::number::number;
use crate::place::{MAX_PLACE, byte, places};
use crate::stop::{FrozenFault, Stop};
use gd_base::id::Id;
use gd_prim::limits::MAX_REQUESTS;

/// The greatest dateline.
const MAX_DATELINE: u32 = MAX_REQUESTS as u32;

/// Reads what stands in front of the dateline.
#[tactic(auto, unfolding(crate::specs::Finds::head_at))]
fn head(bytes: &[u8]) -> Result<&[u8], Stop>
    ensures { Finds (λ rest. (tt, rest.now)) (head_at bytes.now) result }
{
    let rest = byte(bytes, b'c')?;
    let rest = byte(rest, b'1')?;
    byte(rest, b':')
}

/// Reads the rest of a cursor.
#[tactic(auto, unfolding(crate::specs::Finds::rest_at))]
fn behind_head(bytes: &[u8]) -> Result<(Cursor, &[u8]), Stop>
    ensures { Finds (λ x. (meant x.0, x.1.now)) (rest_at bytes.now) result }
{
    let (dateline, rest) = number(bytes, MAX_DATELINE)?;
    let rest = byte(rest, b':')?;
    let (object, rest) = number(rest, MAX_PLACE)?;
    let (keys, rest) = places(rest)?;
    let cursor = Cursor {
        dateline,
        object: Id::new(object),
        keys,
    };
    Ok((cursor, rest))
}

/// Reads a cursor.
#[tactic(auto, unfolding(crate::specs::Finds::read_at))]
fn cursor(bytes: &[u8]) -> Result<(Cursor, &[u8]), Stop>
    ensures { Finds (λ x. (meant x.0, x.1.now)) (read_at bytes.now) result }
{
    let rest = head(bytes)?;
    behind_head(rest)
}

/// The cursor that all of the bytes spell.
fn whole_cursor(bytes: &[u8]) -> Result<Cursor, Stop>
    ensures { Finds (λ x. meant x) (whole_cursor_at bytes.now) result }
{
    let (cursor, rest) = cursor(bytes)?;
    if !rest.is_empty() {
        return Err(Stop { left: rest.len() });
    }
    Ok(cursor)
}

/// The cursor of a text. `BadFrozen`: the bytes are the text of no cursor, and the longest front of
/// them that begins one has `offset` bytes. It takes no memory, and never tells `Memory`. Each
/// cursor has one text, so `cursor_text` of what was read gives these bytes.
pub fn cursor_from(bytes: &[u8]) -> Result<Cursor, FrozenFault>
    ensures read { MatchResult result (λ cursor. defined.IsCursorText (meant cursor) bytes.now)
        (IsCause bytes.now) }
    ensures given { MatchResult result (λ cursor. defined.cursor_of bytes.now ≡ Ok (meant cursor))
        (λ fault. Refuses fault (defined.cursor_of bytes.now)) }
{
    match whole_cursor(bytes) {
        Ok(cursor) => Ok(cursor),
        Err(stop) => Err(FrozenFault::BadFrozen {
            offset: (bytes.len() - stop.left) as u64,
        }),
    }
}
