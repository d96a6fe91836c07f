//! Numbers on a command line.
ghost use Rattle.std.specs.Prelude.{◌≡◌, option_map};
ghost use Rattle.std.specs.List.{list_all};
ghost use Rattle.std.specs.Char.{is_ascii_digit};
ghost use Rattle.gd_words.specs.Words.{number_of, number_or as number_or_of};

/// The most digits that a number may have.
const MOST_DIGITS: usize = 10;

/// Whether there are digits alone.
fn are_digits(text: &str) -> bool
    ensures { result ≡ list_all is_ascii_digit text.now }
{
    text.as_bytes().iter().all(|byte| byte.is_ascii_digit())
}

/// The number that a text of 1 to 10 digits is, from `low` to `high`. None for any other text.
pub fn number(text: &str, low: u32, high: u32) -> Option<u32>
    ensures { result ≡ number_of low high text.now }
{
    if text.len() > MOST_DIGITS || !are_digits(text) {
        return None;
    }
    match text.parse::<u32>() {
        Ok(number) if number >= low && number <= high => Some(number),
        _ => None,
    }
}

/// The number of a value, or the default where there is none.
pub fn number_or(default: u32, low: u32, high: u32, value: Option<&str>) -> Option<u32>
    ensures { result ≡ number_or_of default low high (option_map (λ v. v.now) value.entry) }
{
    match value {
        Some(text) => number(text, low, high),
        None => Some(default),
    }
}
