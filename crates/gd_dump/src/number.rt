//! Decimal numbers without a leading zero, up to a bound, each with the byte behind it.
ghost use Rattle.std.specs.Prelude.{◌≡◌, ◌+◌, ◌-◌, ◌*◌, ◌<◌, ◌≤◌, ◌^◌, ◌==◌, ◌&&◌, not, nat_le};
ghost use Rattle.std.specs.Prelude.{negsuc, IfOk};
ghost use Rattle.std.specs.Char.{is_ascii_digit};
ghost use Rattle.gd_grammar.specs.Grammar.{digits_at, number_at};
ghost use Rattle.gd_dump_laws.specs.Reading as reading;
ghost use Rattle.gd_dump.specs.Stop.{Finds};

use crate::stop::Stop;
use crate::word::{byte, word};

/// Whether a number goes on with a byte: a digit with which it stays within the bound. Nothing goes
/// on behind 0.
fn goes_on(n: u64, byte: u8, bound: u64) -> bool
    requires { n ≤ bound }
    ensures { result
        ≡ (is_ascii_digit byte && not (n == 0) && nat_le (10 * n + (byte - 48)) bound) }
{
    byte.is_ascii_digit()
        && n != 0
        && 10 * u128::from(n) + u128::from(byte - b'0') <= u128::from(bound)
}

/// Whether a number begins with a byte: a digit within the bound.
fn begins(byte: u8, bound: u64) -> bool
    ensures { result ≡ (is_ascii_digit byte && nat_le (byte - 48) bound) }
{
    byte.is_ascii_digit() && u64::from(byte - b'0') <= bound
}

/// The number that `first` becomes by the digits that follow, and the bytes behind them.
fn digits(bytes: &[u8], first: u64, bound: u64) -> (u64, &[u8])
    requires { first ≤ bound }
    ensures digits { digits_at bound first bytes.now ≡ (result.0, result.1.now) }
    ensures within { result.0 ≤ bound }
{
    let mut n = first;
    let mut rest = bytes;
    while let [byte, behind @ ..] = rest {
        if !goes_on(n, *byte, bound) {
            return (n, rest);
        }
        n = 10 * n + u64::from(*byte - b'0');
        rest = behind;
    }
    (n, rest)
}

/// Reads a number within the bound.
fn number(bytes: &[u8], bound: u64) -> Result<(u64, &[u8]), Stop>
    ensures number { Finds (λ x. (x.0, x.1.now)) (number_at bound bytes.now) result }
    ensures within { IfOk result (λ x. x.0 ≤ bound) }
{
    match bytes {
        [] => Err(Stop::Bad { left: 0 }),
        [first, behind @ ..] => {
            if !begins(*first, bound) {
                return Err(Stop::Bad { left: bytes.len() });
            }
            Ok(digits(behind, u64::from(*first - b'0'), bound))
        }
    }
}

/// Reads a number within the bound and the byte behind it.
#[tactic(auto, unfolding(gd_dump_laws::specs::Reading::number_to))]
pub(crate) fn number_to(bytes: &[u8], bound: u64, mark: u8) -> Result<(u64, &[u8]), Stop>
    ensures number { Finds (λ x. (x.0, x.1.now)) (reading.number_to bound mark bytes.now) result }
    ensures within { IfOk result (λ x. x.0 ≤ bound) }
{
    let (n, rest) = number(bytes, bound)?;
    let rest = byte(rest, mark)?;
    Ok((n, rest))
}

/// Reads a number from 1 to the bound and the byte behind it.
#[tactic(auto, unfolding(gd_dump_laws::specs::Reading::positive_to))]
fn positive_to(bytes: &[u8], bound: u64, mark: u8) -> Result<(u64, &[u8]), Stop>
    ensures number { Finds (λ x. (x.0, x.1.now)) (reading.positive_to bound mark bytes.now) result }
    ensures within { IfOk result (λ x. x.0 ≤ bound) }
{
    match bytes {
        [] => Err(Stop::Bad { left: 0 }),
        [first, ..] => {
            if *first == b'0' {
                return Err(Stop::Bad { left: bytes.len() });
            }
            number_to(bytes, bound, mark)
        }
    }
}

/// So much below 0.
fn below_zero(n: u64) -> i64
    requires { n ≤ 2 ^ 63 }
    ensures { result ≡ negsuc (n - 1) }
{
    -1 - n.saturating_sub(1) as i64
}

/// Reads a number below 0, at least minus `bound`, and the byte behind it.
#[tactic(auto, unfolding(gd_dump_laws::specs::Reading::negative_to))]
fn negative_to(bytes: &[u8], bound: u64, mark: u8) -> Result<(i64, &[u8]), Stop>
    requires { bound ≤ 2 ^ 63 }
    ensures { Finds (λ x. (x.0, x.1.now)) (reading.negative_to bound mark bytes.now) result }
{
    let rest = byte(bytes, b'-')?;
    let (n, rest) = positive_to(rest, bound, mark)?;
    Ok((below_zero(n), rest))
}

/// Reads a number from 0 to the bound and the byte behind it.
#[tactic(auto, unfolding(gd_dump_laws::specs::Reading::natural_to))]
fn natural_to(bytes: &[u8], bound: u64, mark: u8) -> Result<(i64, &[u8]), Stop>
    requires { bound < 2 ^ 63 }
    ensures { Finds (λ x. (x.0, x.1.now)) (reading.natural_to bound mark bytes.now) result }
{
    let (n, rest) = number_to(bytes, bound, mark)?;
    Ok((n as i64, rest))
}

/// Reads a whole number from minus `low` to `high` and the byte behind it.
#[tactic(auto, unfolding(gd_dump_laws::specs::Reading::int_to))]
pub(crate) fn int_to(bytes: &[u8], low: u64, high: u64, mark: u8) -> Result<(i64, &[u8]), Stop>
    requires low { low ≤ 2 ^ 63 }
    requires high { high < 2 ^ 63 }
    ensures { Finds (λ x. (x.0, x.1.now)) (reading.int_to low high mark bytes.now) result }
{
    match bytes {
        [] => Err(Stop::Bad { left: 0 }),
        [first, ..] => {
            if *first == b'-' {
                negative_to(bytes, low, mark)
            } else {
                natural_to(bytes, high, mark)
            }
        }
    }
}
