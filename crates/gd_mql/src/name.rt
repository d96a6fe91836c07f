//! The names of members: an optional label, an optional `!`, a word, and an optional operator.
ghost use Rattle.std.specs.Prelude.{◌≡◌, ◌≤◌, ◌&&◌, ◌||◌, ◌==◌, Some, None, length, drop};
ghost use Rattle.std.specs.Prelude.{option_map, if◌then◌else◌};
ghost use Rattle.std.specs.Char.{is_ascii_digit, is_ascii_lowercase};
ghost use Rattle.std.specs.List.{list_all};
ghost use Rattle.gd_defs.specs.Ids.{is_key_byte};
ghost use Rattle.gd_defs.specs.Query.Names as defined;
ghost use Rattle.gd_mql.specs.Names.{operator_view, name_view};

use gd_fault::ids::{is_key, is_key_path, may_be_in_key};

/// The operator at the end of a name: none, `|=`, `!=`, `<`, `<=`, `>`, `>=` or `~=`.
#[derive(Clone, Copy)]
pub enum Operator {
    Absent,
    OneOf,
    Differs,
    Below,
    AtMost,
    Above,
    AtLeast,
    Words,
}

/// The name of a member, taken apart: how it is spelled, whether `!` turns its property round, its
/// word and its operator.
#[derive(Clone, Copy)]
pub struct Name<'a> {
    pub spelled: &'a str,
    pub reversed: bool,
    pub word: &'a str,
    pub operator: Operator,
}

/// The operator that a text is; the empty text is none.
fn operator_from(text: &str) -> Option<Operator>
    ensures { option_map operator_view result ≡ defined.operator_of text.now }
{
    match text {
        "" => Some(Operator::Absent),
        "|=" => Some(Operator::OneOf),
        "!=" => Some(Operator::Differs),
        "<" => Some(Operator::Below),
        "<=" => Some(Operator::AtMost),
        ">" => Some(Operator::Above),
        ">=" => Some(Operator::AtLeast),
        "~=" => Some(Operator::Words),
        _ => None,
    }
}

fn is_label_byte(byte: u8) -> bool
    ensures { result ≡ (is_ascii_lowercase byte || is_ascii_digit byte || byte == 95) }
{
    byte.is_ascii_lowercase() || byte.is_ascii_digit() || byte == b'_'
}

fn are_label_bytes(bytes: &[u8]) -> bool
    ensures { result ≡ list_all (λ byte. is_ascii_lowercase byte || is_ascii_digit byte || byte
        == 95) bytes.now }
{
    bytes.iter().all(|byte| is_label_byte(*byte))
}

/// Whether the text is a label: 1 to 16 lower-case letters, digits or `_`, beginning with a letter.
fn is_label(text: &str) -> bool
    ensures { result ≡ defined.is_label text.now }
{
    match text.as_bytes().split_first() {
        None => false,
        Some((first, rest)) => {
            first.is_ascii_lowercase() && rest.len() < 16 && are_label_bytes(rest)
        }
    }
}

/// What stands behind the label, which is well formed, or all where there is no label.
fn behind_label(name: &str) -> Option<&str>
    ensures { option_map (λ rest. rest.now) result
        ≡ (if defined.label_fits name.now then Some (defined.behind_label name.now) else None) }
{
    match name.split_once(':') {
        None => Some(name),
        Some((label, rest)) => { if is_label(label) { Some(rest) } else { None } }
    }
}

/// Whether the text begins with `!`, and what stands behind that, or all where it does not.
fn behind_mark(body: &str) -> (bool, &str)
    ensures marked { result.0 ≡ defined.is_marked body.now }
    ensures behind { result.1.now ≡ defined.behind_mark body.now }
{
    match body.strip_prefix("!") {
        Some(rest) => (true, rest),
        None => (false, body),
    }
}

/// Whether the byte may stand in a word: a byte of keys, a slash or a star.
fn is_word_byte(byte: u8) -> bool
    ensures { result ≡ (is_key_byte byte || byte == 47 || byte == 42) }
{
    may_be_in_key(byte) || byte == b'/' || byte == b'*'
}

/// How many bytes in front may stand in a word.
fn word_len(bytes: &[u8]) -> usize
    ensures count { result ≡ length (defined.word_front bytes.now) }
    ensures bound { result ≤ length bytes.now }
{
    for (i, byte) in bytes.iter().enumerate() {
        if !is_word_byte(*byte) {
            return i;
        }
    }
    bytes.len()
}

/// The front of a text that has bytes of words alone, and the rest.
fn split_word(text: &str) -> (&str, &str)
    ensures front { result.0.now ≡ defined.word_front text.now }
    ensures back { result.1.now ≡ drop (length (defined.word_front text.now)) text.now }
{
    text.split_at(word_len(text.as_bytes()))
}

/// Whether the text may be a word: a key, a path, or the star that is left out; behind `!` a path
/// alone.
fn may_be_word(reversed: bool, word: &str) -> bool
    ensures { result ≡ defined.may_be_word reversed word.now }
{
    is_key_path(word) || !reversed && (is_key(word) || word == "*")
}

/// The name that a text spells. It takes no memory.
pub fn name_from(spelled: &str) -> Option<Name<'_>>
    ensures { option_map name_view result ≡ defined.name_of spelled.now }
{
    let (reversed, rest) = behind_mark(behind_label(spelled)?);
    let (word, end) = split_word(rest);
    let operator = operator_from(end)?;
    if may_be_word(reversed, word) {
        Some(Name {
            spelled,
            reversed,
            word,
            operator,
        })
    } else {
        None
    }
}
