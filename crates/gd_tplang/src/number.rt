//! Decimal numbers without a leading zero, up to a bound.
ghost use Rattle.std.specs.Prelude.{◌≡◌, ◌+◌, ◌-◌, ◌*◌, ◌<◌, ◌≤◌, ◌^◌, ◌==◌, ◌&&◌, not, nat_le};
ghost use Rattle.std.specs.Char.{is_ascii_digit};
ghost use Rattle.gd_grammar.specs.Grammar.{digits_at, number_at};
ghost use Rattle.gd_tplang.specs.Stop.{Finds};
ghost use Rattle.gd_tplang.specs.Written.{positive_at};

use crate::byte::is_next;
use crate::stop::Stop;

/// Whether a number goes on with a byte: a digit with which it stays within the bound. Nothing goes
/// on behind 0.
#[tactic(auto, using(crate::proofs::Digits::goes_on_is))]
fn goes_on(n: u64, byte: u8, bound: u64) -> bool
    requires { bound ≤ 2 ^ 63 }
    ensures { result ≡ (is_ascii_digit byte && not (n == 0) && nat_le (10 * n + (byte - 48))
        bound) }
{
    byte.is_ascii_digit() && n != 0 && n <= bound / 10 && 10 * n + u64::from(byte - b'0') <= bound
}

/// Whether a number begins with a byte: a digit within the bound.
fn begins(byte: u8, bound: u64) -> bool
    ensures { result ≡ (is_ascii_digit byte && nat_le (byte - 48) bound) }
{
    byte.is_ascii_digit() && u64::from(byte - b'0') <= bound
}

/// The number that `first` becomes by the digits that follow, and the bytes behind them.
fn digits(bytes: &[u8], first: u64, bound: u64) -> (u64, &[u8])
    requires small { bound ≤ 2 ^ 63 }
    requires within { first ≤ bound }
    ensures { digits_at bound first bytes.now ≡ (result.0, result.1.now) }
{
    let mut n = first;
    let mut rest = bytes;
    while let [byte, behind @ ..] = rest {
        if !goes_on(n, *byte, bound) {
            return (n, rest);
        }
        n = 10 * n + u64::from(*byte - b'0');
        rest = behind;
    }
    (n, rest)
}

/// Reads a number within the bound.
pub(crate) fn number(bytes: &[u8], bound: u64) -> Result<(u64, &[u8]), Stop>
    requires { bound ≤ 2 ^ 63 }
    ensures { Finds (λ x. (x.0, x.1.now)) (number_at bound bytes.now) result }
{
    match bytes {
        [] => Err(Stop::Bad { left: 0 }),
        [first, behind @ ..] => {
            if !begins(*first, bound) {
                return Err(Stop::Bad { left: bytes.len() });
            }
            Ok(digits(behind, u64::from(*first - b'0'), bound))
        }
    }
}

/// Reads a number within the bound that is not 0.
pub(crate) fn positive(bytes: &[u8], bound: u64) -> Result<(u64, &[u8]), Stop>
    requires { bound ≤ 2 ^ 63 }
    ensures { Finds (λ x. (x.0, x.1.now)) (positive_at bound bytes.now) result }
{
    if is_next(bytes, b'0') {
        return Err(Stop::Bad { left: bytes.len() });
    }
    number(bytes, bound)
}
