//! What the text of an id spells: a guid, or keys.
ghost use Rattle.std.specs.Prelude.{◌≡◌, ◌≤◌, ◌<◌, ◌^◌, Some, None, is_some, length, map, take};
ghost use Rattle.std.specs.Prelude.{drop, nat_eq, nat_le, ◌&&◌, true, codes, IfOk, IfSome};
ghost use Rattle.std.specs.Prelude.{option_map};
ghost use Rattle.std.specs.List.{list_all, slice_split, starts_with};
ghost use Rattle.gd_defs.specs.Ids as defined;

use gd_base::memory::Memory;
use std::alloc::{AllocError, Global};

/// What every guid begins with.
const GUID_FRONT: &[u8] = b"#0000000000000001";

/// How many digits of a place follow it.
const GUID_DIGITS: usize = 16;

/// The greatest number of bytes of a key.
const MAX_KEY: usize = 64;

/// The greatest number of keys of an id.
const MAX_KEYS: usize = 16;

/// The value of a lower-case hexadecimal digit.
fn hex_value(digit: u8) -> Option<u64>
    ensures value { result ≡ defined.hex_value digit }
    ensures small { IfSome result (λ value. value < 16) }
{
    match digit {
        b'0'..=b'9' => Some(u64::from(digit - b'0')),
        b'a'..=b'f' => Some(u64::from(digit - 87)),
        _ => None,
    }
}

/// The number that at most 16 hexadecimal digits spell.
fn hex_number(digits: &[u8]) -> Option<u64>
    requires { length digits.now ≤ 16 }
    ensures { result ≡ defined.hex_number 0 digits.now }
{
    let mut number = 0;
    for digit in digits {
        number = 16 * number + hex_value(*digit)?;
    }
    Some(number)
}

/// The place whose guid the bytes are: `#0000000000000001` and 16 lower-case hexadecimal digits. It
/// takes no memory.
pub fn guid_place(text: &[u8]) -> Option<u64>
    ensures { result ≡ defined.guid_place text.now }
{
    let digits = text.strip_prefix(GUID_FRONT)?;
    if digits.len() != GUID_DIGITS {
        return None;
    }
    hex_number(digits)
}

/// Whether the byte may stand in a key: an ASCII letter, a digit, `_`, `-` or `$`.
pub fn may_be_in_key(byte: u8) -> bool
    ensures { result ≡ defined.is_key_byte byte }
{
    byte.is_ascii_alphanumeric() || byte == b'_' || byte == b'-' || byte == b'$'
}

fn has_key_bytes(text: &[u8]) -> bool
    ensures { result ≡ list_all defined.is_key_byte text.now }
{
    text.iter().all(|byte| may_be_in_key(*byte))
}

/// Whether the text is a key: 1 to 64 ASCII letters, digits, `_`, `-` or `$`. It takes no memory.
pub fn is_key(text: &str) -> bool
    ensures { result ≡ defined.is_key text.now }
{
    (1..=MAX_KEY).contains(&text.len()) && has_key_bytes(text.as_bytes())
}

fn are_keys(texts: &[&str]) -> bool
    ensures { result ≡ list_all (λ text. defined.is_key text.now) texts.now }
{
    texts.iter().all(|text| is_key(text))
}

/// Whether these are keys, and no more of them than an id has.
fn are_id_keys(texts: &[&str]) -> bool
    ensures { result ≡ (nat_le (length texts.now) 16 && list_all (λ text. defined.is_key text.now)
        texts.now) }
{
    texts.len() <= MAX_KEYS && are_keys(texts)
}

/// The first 17 parts of a path behind its first slash, each as far as the next one.
fn first_parts<'a>(alloc: Global, path: &'a str) -> Result<Vec<&'a str>, AllocError>
    ensures { IfOk result (λ parts. map (λ part. part.now) parts.items
        ≡ take 17 (drop 1 (slice_split defined.is_slash path.now))) }
{
    path.split('/').skip(1).take(MAX_KEYS + 1).collect(alloc)
}

fn starts_with_slash(text: &str) -> bool
    ensures { result ≡ starts_with nat_eq text.now (codes "/") }
{
    text.starts_with("/")
}

/// The keys of an id that is no guid: none for `/`, else 1 to 16, each behind a slash. A key has 1
/// to 64 ASCII letters, digits, `_`, `-` or `$`.
pub fn id_keys<'a>(alloc: Global, text: &'a str) -> Result<Option<Vec<&'a str>>, Memory>
    ensures found { IfOk result (λ keys. option_map (λ keys. map (λ key. key.now) keys.items) keys
        ≡ defined.id_keys text.now) }
    ensures few { IfOk result (λ keys. IfSome keys (λ keys. length keys.items ≤ 16)) }
    ensures each { IfOk result (λ keys. IfSome keys
        (λ keys. list_all (λ key. defined.is_key key.now) keys.items ≡ true)) }
{
    if text == "/" {
        return Ok(Some(Vec::new(alloc)));
    }
    if !starts_with_slash(text) {
        return Ok(None);
    }
    let keys = first_parts(alloc, text)?;
    if are_id_keys(keys.as_slice()) {
        Ok(Some(keys))
    } else {
        Ok(None)
    }
}

/// How many parts a path has behind its first slash, counted to 17 at most.
fn part_count(path: &str) -> usize
    ensures { result ≡ length (take 17 (drop 1 (slice_split defined.is_slash path.now))) }
{
    path.split('/').skip(1).take(MAX_KEYS + 1).count()
}

/// Whether the first 17 of these parts are keys.
fn parts_are_keys(path: &str) -> bool
    ensures { result ≡ list_all defined.is_key
        (take 17 (drop 1 (slice_split defined.is_slash path.now))) }
{
    path.split('/')
        .skip(1)
        .take(MAX_KEYS + 1)
        .all(|part| is_key(part))
}

fn has_id_keys(path: &str) -> bool
    ensures { result ≡ (nat_le (length (take 17 (drop 1 (slice_split defined.is_slash path.now))))
        16
        && list_all defined.is_key (take 17 (drop 1 (slice_split defined.is_slash path.now)))) }
{
    part_count(path) <= MAX_KEYS && parts_are_keys(path)
}

/// Whether the text is `/`, or 1 to 16 keys, each behind a slash.
fn is_path(text: &str) -> bool
    ensures { result ≡ is_some (defined.id_keys text.now) }
{
    if text == "/" {
        return true;
    }
    if !starts_with_slash(text) {
        return false;
    }
    has_id_keys(text)
}

/// Whether the parts of a text behind its first slash, each as far as the next one, are keys.
fn behind_slash_keys(path: &str) -> bool
    ensures { result ≡ list_all defined.is_key (drop 1 (slice_split defined.is_slash path.now)) }
{
    path.split('/').skip(1).all(|part| is_key(part))
}

/// Whether the text is a path of keys: one key or more, each behind a slash. It takes no memory.
pub fn is_key_path(text: &str) -> bool
    ensures { result ≡ is_some (defined.path_keys text.now) }
{
    if !starts_with_slash(text) {
        return false;
    }
    behind_slash_keys(text)
}

/// Whether the text is an id: `/`, 1 to 16 keys each behind a slash, or a guid. It takes no memory.
pub fn is_id(text: &str) -> bool
    ensures { result ≡ defined.is_id text.now }
{
    is_path(text) || guid_place(text.as_bytes()).is_some()
}
