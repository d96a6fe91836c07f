//! Texts: a length in two bytes, and so many bytes of UTF-8.
ghost use Rattle.std.specs.Prelude.{◌≡◌, ◌<◌, ℕ, length};
ghost use Rattle.gd_grammar.specs.Reading as reading;
ghost use Rattle.gd_utf8.specs.Utf8 as utf8;
ghost use Rattle.gd_codec.specs.Groups as defined;
ghost use Rattle.gd_codec.specs.Stop.{Finds};

use crate::number::{Range, number};
use crate::stop::Stop;
use gd_base::text::{TEXT_LIMIT, Text};
use gd_utf8::due::Due;
use gd_utf8::text::text_of_utf8;
use std::alloc::Global;

/// How many bytes a text may have.
const LENGTHS: [Range; 1] = [(0, TEXT_LIMIT as u64)];

/// Reads the next byte of a text, before `more` bytes of it.
fn next_byte(bytes: &[u8], more: usize, state: Due) -> Result<(u8, &[u8]), Stop>
    ensures { Finds (λ x. (x.0, x.1.now))
        (reading.byte_if (utf8.may_come more state) bytes.now) result }
{
    match bytes {
        [] => Err(Stop::Bad { left: 0 }),
        [byte, rest @ ..] => {
            if !state.may_come(more, *byte) {
                return Err(Stop::Bad { left: bytes.len() });
            }
            Ok((*byte, rest))
        }
    }
}

/// Reads so many bytes of UTF-8.
fn utf8(bytes: &[u8], count: usize) -> Result<(&[u8], &[u8]), Stop>
    ensures { Finds (λ x. (x.0.now, x.1.now)) (utf8.utf8_at count bytes.now) result }
{
    let mut state = Due::start();
    let mut rest = bytes;
    for at in 0..count {
        let (byte, behind) = next_byte(rest, count - 1 - at, state)?;
        state = state.after(byte);
        rest = behind;
    }
    Ok((&bytes[..count], rest))
}

/// Reads a text: its length, at most 4,096, and so many bytes of UTF-8.
pub(crate) fn text(alloc: Global, bytes: &[u8]) -> Result<(Text, &[u8]), Stop>
    ensures { Finds (λ x. (x.0, x.1.now)) (defined.text_at bytes.now) result }
{
    let (count, rest) = number(bytes, 2, &LENGTHS)?;
    let (front, rest) = utf8(rest, count as usize)?;
    Ok((text_of_utf8(alloc, front)?, rest))
}
