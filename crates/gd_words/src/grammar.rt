//! Which words spell options.
ghost use Rattle.std.specs.Prelude.{◌≡◌, Option, map, option_map, is_none, is_some, bytes_eq};
ghost use Rattle.std.specs.Prelude.{count_by, false, position, IfSome, nat_le, ◌<◌, ◌==◌, length};
ghost use Rattle.std.specs.Option.{option_map_or};
ghost use Rattle.std.specs.List.{list_any, list_all};
ghost use Rattle.gd_words.specs.Options.{parted as parted_of, is_option as is_option_of};
ghost use Rattle.gd_words.specs.Options.{option_of as option_in, is_value as is_value_of};
ghost use Rattle.gd_words.specs.Options.{options_of};
ghost use Rattle.gd_words.specs.Spelling.{due_after as due_next, spells, sets as sets_of};

/// An option in a word: its name, and its value where that stands in the same word.
type Spelled<'a> = (&'a [u8], Option<&'a [u8]>);

/// Whether an option has this name, of those with these names.
fn is_name(names: &[&str], name: &[u8]) -> bool
    ensures { result ≡ list_any (λ n. bytes_eq name.now n.now) names.now }
{
    names.iter().any(|known| name == known.as_bytes())
}

/// The place of the first `=`.
fn first_equals(text: &[u8]) -> Option<usize>
    ensures value { result ≡ position (λ b. b == 61) text.now }
    ensures bound { IfSome result (λ place. place < length text.now) }
{
    text.iter().position(|byte| *byte == b'=')
}

/// A text as a name, with what stands behind its first `=`.
fn parted(text: &[u8]) -> Spelled<'_>
    ensures { (result.0.now, option_map (λ v. v.now) result.1) ≡ parted_of text.now }
{
    match first_equals(text) {
        Some(place) => (&text[..place], Some(&text[place + 1..])),
        None => (text, None),
    }
}

/// Whether a text has the name of an option, and no empty value.
fn is_option(names: &[&str], name: &[u8], value: Option<&[u8]>) -> bool
    ensures { result ≡ is_option_of (map (λ n. n.now) names.now)
        (name.now, option_map (λ v. v.now) value.entry) }
{
    let is_filled = match value {
        Some(value) => !value.is_empty(),
        None => true,
    };
    is_name(names, name) && is_filled
}

/// The option that a word spells as `--name` or `--name=value`.
#[tactic(auto, unfolding(crate::specs::Options::option_of))]
fn option_of<'a>(names: &[&str], word: &'a [u8]) -> Option<Spelled<'a>>
    ensures { option_map (λ o. (o.0.now, option_map (λ v. v.now) o.1)) result
        ≡ option_in (map (λ n. n.now) names.now) word.now }
{
    let text = word.strip_prefix(b"--".as_slice())?;
    let (name, value) = parted(text);
    if is_option(names, name, value) {
        Some((name, value))
    } else {
        None
    }
}

/// Whether the word may be a value by itself: it is not empty and does not begin with `-`.
fn is_value(word: &[u8]) -> bool
    ensures { result ≡ is_value_of word.now }
{
    !word.is_empty() && word[0] != b'-'
}

/// Whether a value is due after a word. None where the word cannot stand there.
fn due_after(names: &[&str], due: bool, word: &[u8]) -> Option<bool>
    ensures { result ≡ due_next (map (λ n. n.now) names.now) due word.now }
{
    if due {
        return if is_value(word) { Some(false) } else { None };
    }
    let (_name, value) = option_of(names, word)?;
    Some(value.is_none())
}

/// Whether the words spell settings.
fn are_settings(names: &[&str], words: &[&str]) -> bool
    ensures { result ≡ spells (map (λ n. n.now) names.now) false (map (λ w. w.now) words.now) }
{
    let mut due = false;
    for word in words {
        due = match due_after(names, due, word.as_bytes()) {
            Some(due) => due,
            None => return false,
        };
    }
    !due
}

/// Whether the word sets the option of this name.
fn sets(names: &[&str], name: &str, word: &str) -> bool
    ensures { result ≡ sets_of (map (λ n. n.now) names.now) name.now word.now }
{
    match option_of(names, word.as_bytes()) {
        Some((named, _value)) => named == name.as_bytes(),
        None => false,
    }
}

/// Whether at most one of the words sets the option.
fn is_once(names: &[&str], name: &str, words: &[&str]) -> bool
    ensures { result ≡ nat_le (count_by (λ w. sets_of (map (λ n. n.now) names.now) name.now w.now)
        words.now) 1 }
{
    words.iter().filter(|word| sets(names, name, word)).count() <= 1
}

/// Whether at most one of the words sets each option.
fn are_once(names: &[&str], words: &[&str]) -> bool
    ensures { result ≡ list_all (λ name. nat_le
        (count_by (λ w. sets_of (map (λ n. n.now) names.now) name.now w.now) words.now) 1)
        names.now }
{
    names.iter().all(|name| is_once(names, name, words))
}

/// Whether the words spell settings of options with these names, each at most once.
#[tactic(auto, using(crate::proofs::Counted::options_is))]
pub fn are_options(names: &[&str], words: &[&str]) -> bool
    ensures { result ≡ is_some (options_of (map (λ n. n.now) names.now)
        (map (λ w. w.now) words.now)) }
{
    are_settings(names, words) && are_once(names, words)
}
