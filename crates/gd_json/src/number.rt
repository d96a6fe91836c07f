//! The numbers of JSON, by the rules of the crate serde_json.
ghost use Rattle.std.specs.Prelude.{◌≡◌, ◌==◌, is_some, option_and_then, true, false, slice_index};
ghost use Rattle.std.specs.Prelude.{drop, MatchOption};
ghost use Rattle.fast_float.specs.Text.{minus, scan};
ghost use Rattle.serde_json.specs.Find.{as_i64};
ghost use Rattle.serde_json.specs.Read.{number_of, number_from};

use fast_float::Numeral;

/// The number of these digits, if it is whole and has at most 64 bits with a sign.
fn whole(digits: &[u8]) -> Option<i64>
    ensures { result ≡ option_and_then as_i64 (number_from false (scan digits.now)) }
{
    i64::try_from(Numeral::scan(digits).to_u64()?).ok()
}

/// The number of these digits behind a minus, if it is whole, below 0 and has at most 64 bits with
/// a sign.
fn whole_below_zero(digits: &[u8]) -> Option<i64>
    ensures { result ≡ option_and_then as_i64 (number_from true (scan digits.now)) }
{
    let number = Numeral::scan(digits).to_i64(true)?;
    if number < 0 { Some(number) } else { None }
}

/// Whether the number of these digits fits 64 bits, or is a float that is finite.
fn fits(digits: &[u8]) -> bool
    ensures { result ≡ is_some (number_from false (scan digits.now)) }
{
    let numeral = Numeral::scan(digits);
    numeral.to_u64().is_some() || numeral.to_float::<f64>(false).is_finite()
}

/// The same of the number behind a minus.
fn fits_below_zero(digits: &[u8]) -> bool
    ensures { result ≡ is_some (number_from true (scan digits.now)) }
{
    if whole_below_zero(digits).is_some() {
        return true;
    }
    Numeral::scan(digits).to_float::<f64>(true).is_finite()
}

/// The digits behind a minus.
fn behind_minus(number: &[u8]) -> Option<&[u8]>
    ensures { MatchOption result ((slice_index number.now 0 == minus) ≡ false)
        (λ digits. ((slice_index number.now 0 == minus) ≡ true)
        × (digits.now ≡ drop 1 number.now)) }
{
    match number.split_first() {
        Some((first, digits)) => { if *first == b'-' { Some(digits) } else { None } }
        None => None,
    }
}

/// The whole number of 64 bits with a sign that a text spells.
#[tactic(auto, unfolding(serde_json::specs::Read::number_of))]
pub(crate) fn whole_from(number: &str) -> Option<i64>
    ensures { result ≡ option_and_then as_i64 (number_of number.now) }
{
    match behind_minus(number.as_bytes()) {
        Some(digits) => whole_below_zero(digits),
        None => whole(number.as_bytes()),
    }
}

/// Whether the number that a text spells is not too large.
#[tactic(auto, unfolding(serde_json::specs::Read::number_of))]
pub(crate) fn is_in_range(number: &str) -> bool
    ensures { result ≡ is_some (number_of number.now) }
{
    match behind_minus(number.as_bytes()) {
        Some(digits) => fits_below_zero(digits),
        None => fits(number.as_bytes()),
    }
}
