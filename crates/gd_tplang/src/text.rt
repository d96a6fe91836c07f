//! Texts in quotes.
ghost use Rattle.std.specs.Prelude.{◌≡◌, ◌∷◌, [], ◌<◌, ◌≤◌, ◌&&◌, ◌==◌};
ghost use Rattle.gd_grammar.specs.Reading.{byte_if};
ghost use Rattle.gd_utf8.specs.Utf8.{start};
ghost use Rattle.gd_grammar.specs.Choice.{is_byte, begins, with_front};
ghost use Rattle.gd_tplang.specs.Stop.{Finds};
ghost use Rattle.gd_tplang.specs.Written as written;

use crate::byte::{byte, is_next};
use crate::stop::Stop;
use gd_base::text::{TEXT_LIMIT, Text};
use gd_utf8::due::Due;
use gd_utf8::text::text_of_utf8;
use std::alloc::Global;

/// Whether the byte is written with a stroke before it.
fn is_escaped(byte: u8) -> bool
    ensures { result ≡ written.is_escaped byte }
{
    byte == b'"' || byte == b'\\'
}

/// Whether the byte may come next as it is, before `more` bytes of the text.
fn may_stand(more: usize, state: Due, byte: u8) -> bool
    ensures { result ≡ written.may_stand more state byte }
{
    31 < byte && !is_escaped(byte) && state.may_come(more, byte)
}

/// Reads a byte that is written with a stroke before it.
fn escaped(bytes: &[u8]) -> Result<(u8, &[u8]), Stop>
    ensures { Finds (λ x. (x.0, x.1.now)) (byte_if written.is_escaped bytes.now) result }
{
    match bytes {
        [] => Err(Stop::Bad { left: 0 }),
        [byte, rest @ ..] => {
            if !is_escaped(*byte) {
                return Err(Stop::Bad { left: bytes.len() });
            }
            Ok((*byte, rest))
        }
    }
}

/// Reads a stroke and the byte behind it.
fn escape(bytes: &[u8]) -> Result<(u8, &[u8]), Stop>
    ensures { Finds (λ x. (x.0, x.1.now)) (written.escape_at bytes.now) result }
{
    let rest = byte(bytes, b'\\')?;
    let (byte, rest) = escaped(rest)?;
    Ok((byte, rest))
}

/// Reads a byte that stands as it is, before `more` bytes of the text.
fn plain(bytes: &[u8], more: usize, state: Due) -> Result<(u8, &[u8]), Stop>
    ensures { Finds (λ x. (x.0, x.1.now)) (byte_if (written.may_stand more state)
        bytes.now) result }
{
    match bytes {
        [] => Err(Stop::Bad { left: 0 }),
        [byte, rest @ ..] => {
            if !may_stand(more, state, *byte) {
                return Err(Stop::Bad { left: bytes.len() });
            }
            Ok((*byte, rest))
        }
    }
}

/// Reads a byte of a text, before `more` bytes of it.
fn char(bytes: &[u8], more: usize, state: Due) -> Result<(u8, &[u8]), Stop>
    ensures { Finds (λ x. (x.0, x.1.now)) (written.char_at more state bytes.now) result }
{
    if state.is_between() {
        if is_next(bytes, b'\\') {
            return escape(bytes);
        }
    }
    plain(bytes, more, state)
}

/// Whether a text ends here: between two characters, with a quote.
fn ends(bytes: &[u8], state: Due) -> bool
    ensures { result ≡ (state.due == 0 && begins (is_byte 34) bytes.now) }
{
    state.is_between() && is_next(bytes, b'"')
}

/// Reads the quote that ends a text.
fn quote(text: Vec<u8>, bytes: &[u8]) -> Result<(Vec<u8>, &[u8]), Stop>
    ensures { Finds (λ x. (x.0.items, x.1.now)) (with_front text.items (written.quote_at bytes.now))
        result }
{
    let rest = byte(bytes, b'"')?;
    Ok((text, rest))
}

/// Reads the bytes of a text and the quote that ends it.
fn tail(alloc: Global, bytes: &[u8]) -> Result<(Vec<u8>, &[u8]), Stop>
    ensures { Finds (λ x. (x.0.items, x.1.now)) (written.tail_at 4096 start bytes.now)
        result }
{
    let mut text = Vec::new(alloc);
    let mut state = Due::start();
    let mut rest = bytes;
    for at in 0..TEXT_LIMIT {
        if ends(rest, state) {
            return quote(text, rest);
        }
        let (byte, behind) = char(rest, TEXT_LIMIT - 1 - at, state)?;
        text.push(byte)?;
        state = state.after(byte);
        rest = behind;
    }
    quote(text, rest)
}

/// Reads a text in quotes.
#[tactic(auto, unfolding(crate::specs::Written::string_at))]
pub(crate) fn string(alloc: Global, bytes: &[u8]) -> Result<(Text, &[u8]), Stop>
    ensures { Finds (λ x. (x.0, x.1.now)) (written.string_at bytes.now) result }
{
    let rest = byte(bytes, b'"')?;
    let (text, rest) = tail(alloc, rest)?;
    Ok((text_of_utf8(alloc, &text)?, rest))
}
