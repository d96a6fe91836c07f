//! Numbers in so many bytes, the high ones first.
ghost use Rattle.std.specs.Prelude.{◌≡◌, ◌<◌, ◌≤◌, ◌^◌, ℕ, length};
ghost use Rattle.gd_grammar.specs.Reading as reading;
ghost use Rattle.gd_codec.specs.Stop.{Finds};

use crate::stop::Stop;

/// The least and the greatest number of a range.
pub(crate) type Range = (u64, u64);

/// Whether a number that begins with `n` and has `more` bytes to come can lie in the range.
fn may_reach(range: &Range, more: u32, n: u64) -> bool
    requires { more < 8 }
    ensures { result ≡ reading.may_reach more n range.now }
{
    let bits = 8 * more;
    range.0 >> bits <= n && n <= range.1 >> bits
}

/// Whether a number that begins with `n` and has `more` bytes to come can lie in one of the ranges.
fn begins_number(ranges: &[Range], more: u32, n: u64) -> bool
    requires { more < 8 }
    ensures { result ≡ reading.begins_number ranges.now more n }
{
    ranges.iter().any(|range| may_reach(range, more, n))
}

/// Reads the byte behind `n` in a number of one of the ranges, before `more` bytes to come.
fn next_byte<'a>(
    bytes: &'a [u8],
    ranges: &[Range],
    more: u32,
    n: u64,
) -> Result<(u8, &'a [u8]), Stop>
    requires few { more < 8 }
    requires fits { n < 2 ^ 56 }
    ensures { Finds (λ x. (x.0, x.1.now))
        (reading.byte_if (reading.number_goes_on ranges.now more n) bytes.now) result }
{
    match bytes {
        [] => Err(Stop::Bad { left: 0 }),
        [byte, rest @ ..] => {
            if !begins_number(ranges, more, 256 * n + u64::from(*byte)) {
                return Err(Stop::Bad { left: bytes.len() });
            }
            Ok((*byte, rest))
        }
    }
}

/// Reads a number of one of the ranges in `size` bytes.
pub(crate) fn number<'a>(
    bytes: &'a [u8],
    size: u32,
    ranges: &[Range],
) -> Result<(u64, &'a [u8]), Stop>
    requires { size ≤ 8 }
    ensures { Finds (λ x. (x.0, x.1.now)) (reading.number_at ranges.now size bytes.now) result }
{
    let mut n = 0;
    let mut rest = bytes;
    for place in 0..size {
        let (byte, after) = next_byte(rest, ranges, size - 1 - place, n)?;
        n = 256 * n + u64::from(byte);
        rest = after;
    }
    Ok((n, rest))
}
