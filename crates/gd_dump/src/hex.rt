//! Texts in hexadecimal digits: UTF-8 of at most 4,096 bytes, and the byte behind it.
ghost use Rattle.std.specs.Prelude.{◌≡◌, ◌<◌, ◌-◌, ◌&&◌, ◌||◌, ◌==◌, false, length, IsTrue};
ghost use Rattle.gd_grammar.specs.Reading.{byte_if};
ghost use Rattle.gd_grammar.specs.Choice.{is_next, with_front};
ghost use Rattle.gd_dump_laws.specs.Reading as reading;
ghost use Rattle.gd_dump.specs.Stop.{Finds};

use crate::stop::Stop;
use crate::word::byte;
use gd_base::text::{TEXT_LIMIT, Text};
use gd_utf8::due::Due;
use gd_utf8::text::text_of_utf8;
use std::alloc::Global;

/// The hexadecimal digits.
const DIGITS: &[u8] = b"0123456789abcdef";

/// Whether the byte is a hexadecimal digit.
fn is_hex(byte: u8) -> bool
    ensures { result ≡ reading.is_hex byte }
{
    byte.is_ascii_digit() || b'a' <= byte && byte <= b'f'
}

/// What a hexadecimal digit is worth.
fn hex_value(digit: u8) -> u8
    requires { IsTrue (reading.is_hex digit) }
    ensures value { result ≡ reading.hex_value digit }
    ensures small { result < 16 }
{
    if digit.is_ascii_digit() {
        digit - b'0'
    } else {
        digit - 87
    }
}

/// Whether the digit may come behind another one in a byte of a text that has room for `more` bytes
/// behind it.
fn second_digit(more: usize, state: Due, first: u8, digit: u8) -> bool
    ensures { result ≡ reading.second_digit more state first digit }
{
    is_hex(first) && is_hex(digit) && state.may_come(more, 16 * hex_value(first) + hex_value(digit))
}

/// Whether the digit may begin a byte of the text.
fn first_digit(more: usize, state: Due, digit: u8) -> bool
    ensures { result ≡ reading.first_digit more state digit }
{
    DIGITS
        .iter()
        .any(|second| second_digit(more, state, digit, *second))
}

/// Reads the first digit of a byte of a text.
fn first(bytes: &[u8], more: usize, state: Due) -> Result<(u8, &[u8]), Stop>
    ensures { Finds (λ x. (x.0, x.1.now))
        (byte_if (reading.first_digit more state) bytes.now) result }
{
    match bytes {
        [] => Err(Stop::Bad { left: 0 }),
        [digit, rest @ ..] => {
            if !first_digit(more, state, *digit) {
                return Err(Stop::Bad { left: bytes.len() });
            }
            Ok((*digit, rest))
        }
    }
}

/// Reads the second digit of a byte of a text.
fn second(bytes: &[u8], more: usize, state: Due, first: u8) -> Result<(u8, &[u8]), Stop>
    ensures { Finds (λ x. (x.0, x.1.now))
        (byte_if (reading.second_digit more state first) bytes.now) result }
{
    match bytes {
        [] => Err(Stop::Bad { left: 0 }),
        [digit, rest @ ..] => {
            if !second_digit(more, state, first, *digit) {
                return Err(Stop::Bad { left: bytes.len() });
            }
            Ok((*digit, rest))
        }
    }
}

/// Reads a byte of a text, before `more` bytes of it at most.
#[tactic(auto, unfolding(gd_dump_laws::specs::Reading::pair_at))]
fn pair(bytes: &[u8], more: usize, state: Due) -> Result<(u8, &[u8]), Stop>
    ensures { Finds (λ x. (x.0, x.1.now)) (reading.pair_at more state bytes.now) result }
{
    let (high, rest) = first(bytes, more, state)?;
    let (low, rest) = second(rest, more, state, high)?;
    Ok((16 * hex_value(high) + hex_value(low), rest))
}

/// Whether the text ends here: between two characters, before the mark.
fn is_end(bytes: &[u8], state: Due, mark: u8) -> bool
    ensures { result ≡ (state.due == 0 && is_next mark bytes.now) }
{
    match bytes {
        [next, ..] => state.is_between() && *next == mark,
        [] => false,
    }
}

/// Reads the mark behind the bytes of a text.
#[tactic(auto, unfolding(gd_dump_laws::specs::Reading::end_to))]
fn ended(text: Vec<u8>, bytes: &[u8], mark: u8) -> Result<(Vec<u8>, &[u8]), Stop>
    ensures { Finds (λ x. (x.0.items, x.1.now))
        (with_front text.items (reading.end_to mark bytes.now)) result }
{
    let rest = byte(bytes, mark)?;
    Ok((text, rest))
}

/// Reads the bytes of a text, and the mark behind them.
fn utf8(alloc: Global, bytes: &[u8], mark: u8) -> Result<(Vec<u8>, &[u8]), Stop>
    ensures { Finds (λ x. (x.0.items, x.1.now)) (reading.hex_to mark bytes.now) result }
{
    let mut text = Vec::new(alloc);
    let mut state = Due::start();
    let mut rest = bytes;
    for at in 0..TEXT_LIMIT {
        if is_end(rest, state, mark) {
            return ended(text, rest, mark);
        }
        let (next, behind) = pair(rest, TEXT_LIMIT - 1 - at, state)?;
        text.push(next)?;
        state = state.after(next);
        rest = behind;
    }
    ended(text, rest, mark)
}

/// Reads a text and the mark behind it, which is no hexadecimal digit.
pub(crate) fn text(alloc: Global, bytes: &[u8], mark: u8) -> Result<(Text, &[u8]), Stop>
    requires { reading.is_hex mark ≡ false }
    ensures { Finds (λ x. (x.0, x.1.now)) (reading.hex_to mark bytes.now) result }
{
    let (front, rest) = utf8(alloc, bytes, mark)?;
    Ok((text_of_utf8(alloc, front.as_slice())?, rest))
}
