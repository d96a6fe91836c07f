//! Values, and lists of them.
ghost use Rattle.std.specs.Prelude.{◌≡◌, ◌-◌, ◌<◌, ◌≤◌, ◌^◌, pos, negsuc, ◌∷◌, []};
ghost use Rattle.gd_base.specs.declared.datum.Datum.TheVariants as datum;
ghost use Rattle.gd_prim.specs.Limits.{max_prims};
ghost use Rattle.gd_grammar.specs.Grammar.{number_at};
ghost use Rattle.gd_grammar.specs.Choice.{word_at, behind_at, seen_at, list_at};
ghost use Rattle.gd_tplang.specs.Stop.{Finds};
ghost use Rattle.gd_tplang.specs.Written as written;
ghost use Rattle.gd_tplang.specs.Steps.{next_at};

use crate::byte::{byte, is_next, word};
use crate::number::{number, positive};
use crate::stop::Stop;
use crate::text::string;
use gd_base::datum::Datum;
use gd_base::id::Id;
use gd_prim::limits::MAX_PRIMS;
use std::alloc::Global;

/// The greatest number of 64 bits with a sign.
const GREATEST: u64 = 9_223_372_036_854_775_807;

/// How far the least one lies below 0.
const LEAST: u64 = 9_223_372_036_854_775_808;

/// The greatest place.
const MAX_PLACE: u64 = MAX_PRIMS as u64;

/// How many parts a list may have behind its first one.
const MORE_PARTS: u32 = 63;

/// So far below 0.
fn below_zero(n: u64) -> i64
    requires some { 0 < n }
    requires within { n ≤ 2 ^ 63 }
    ensures { result ≡ negsuc (n - 1) }
{
    -((n - 1) as i64) - 1
}

/// So far above 0.
fn above_zero(n: u64) -> i64
    requires { n < 2 ^ 63 }
    ensures { result ≡ pos n }
{
    n as i64
}

/// Reads a number below 0.
fn negative(bytes: &[u8]) -> Result<(Datum, &[u8]), Stop>
    ensures { Finds (λ x. (x.0, x.1.now))
        (behind_at (45 ∷ []) (λ n. datum.Int (negsuc (n - 1))) (written.positive_at
        9_223_372_036_854_775_808) bytes.now) result }
{
    let rest = byte(bytes, b'-')?;
    let (n, rest) = positive(rest, LEAST)?;
    Ok((Datum::Int(below_zero(n)), rest))
}

/// Reads a number without a sign.
fn natural(bytes: &[u8]) -> Result<(Datum, &[u8]), Stop>
    ensures { Finds (λ x. (x.0, x.1.now))
        (seen_at (λ n. datum.Int (pos n)) (number_at 9_223_372_036_854_775_807) bytes.now) result }
{
    let (n, rest) = number(bytes, GREATEST)?;
    Ok((Datum::Int(above_zero(n)), rest))
}

/// Reads a number of 64 bits with a sign.
#[tactic(auto, unfolding(crate::specs::Written::int_at))]
fn int(bytes: &[u8]) -> Result<(Datum, &[u8]), Stop>
    ensures { Finds (λ x. (x.0, x.1.now)) (written.int_at bytes.now) result }
{
    if is_next(bytes, b'-') {
        return negative(bytes);
    }
    natural(bytes)
}

/// Reads a truth value.
fn truth<'a>(bytes: &'a [u8], expected: &[u8], truth: bool) -> Result<(Datum, &'a [u8]), Stop>
    ensures { Finds (λ x. (x.0, x.1.now)) (word_at expected.now (datum.Bool truth) bytes.now)
        result }
{
    let rest = word(bytes, expected)?;
    Ok((Datum::Bool(truth), rest))
}

/// Reads a text as a value.
fn text(alloc: Global, bytes: &[u8]) -> Result<(Datum, &[u8]), Stop>
    ensures { Finds (λ x. (x.0, x.1.now)) (seen_at (λ t. datum.Text t) written.string_at bytes.now)
        result }
{
    let (text, rest) = string(alloc, bytes)?;
    Ok((Datum::Text(text), rest))
}

/// Reads a value.
#[tactic(auto, unfolding(crate::specs::Written::value_at))]
pub(crate) fn value(alloc: Global, bytes: &[u8]) -> Result<(Datum, &[u8]), Stop>
    ensures { Finds (λ x. (x.0, x.1.now)) (written.value_at bytes.now) result }
{
    if is_next(bytes, b'"') {
        return text(alloc, bytes);
    }
    if is_next(bytes, b't') {
        return truth(bytes, b"true", true);
    }
    if is_next(bytes, b'f') {
        return truth(bytes, b"false", false);
    }
    int(bytes)
}

/// Reads a place.
pub(crate) fn place(bytes: &[u8]) -> Result<(u32, &[u8]), Stop>
    ensures { Finds (λ x. (x.0, x.1.now)) (number_at max_prims bytes.now) result }
{
    let (place, rest) = number(bytes, MAX_PLACE)?;
    Ok((place as u32, rest))
}

/// Reads a place behind a bar.
#[tactic(auto, unfolding(crate::specs::Steps::next_at))]
fn next_place(bytes: &[u8]) -> Result<(u32, &[u8]), Stop>
    ensures { Finds (λ x. (x.0, x.1.now)) (next_at 124 (number_at max_prims) bytes.now) result }
{
    let rest = byte(bytes, b'|')?;
    place(rest)
}

/// Reads places with bars between them.
pub(crate) fn places(alloc: Global, bytes: &[u8]) -> Result<(Vec<Id>, &[u8]), Stop>
    ensures { Finds (λ x. (x.0.items, x.1.now)) (list_at 63 124 (number_at max_prims) bytes.now)
        result }
{
    let (first, mut rest) = place(bytes)?;
    let mut places = Vec::new(alloc);
    places.push(Id::new(first))?;
    for _part in 0..MORE_PARTS {
        if !is_next(rest, b'|') {
            return Ok((places, rest));
        }
        let (place, behind) = next_place(rest)?;
        places.push(Id::new(place))?;
        rest = behind;
    }
    Ok((places, rest))
}

/// Reads a value behind a bar.
#[tactic(auto, unfolding(crate::specs::Steps::next_at))]
fn next_value(alloc: Global, bytes: &[u8]) -> Result<(Datum, &[u8]), Stop>
    ensures { Finds (λ x. (x.0, x.1.now)) (next_at 124 written.value_at bytes.now) result }
{
    let rest = byte(bytes, b'|')?;
    value(alloc, rest)
}

/// Reads values with bars between them.
pub(crate) fn values(alloc: Global, bytes: &[u8]) -> Result<(Vec<Datum>, &[u8]), Stop>
    ensures { Finds (λ x. (x.0.items, x.1.now)) (list_at 63 124 written.value_at bytes.now) result }
{
    let (first, mut rest) = value(alloc, bytes)?;
    let mut values = Vec::new(alloc);
    values.push(first)?;
    for _part in 0..MORE_PARTS {
        if !is_next(rest, b'|') {
            return Ok((values, rest));
        }
        let (value, behind) = next_value(alloc, rest)?;
        values.push(value)?;
        rest = behind;
    }
    Ok((values, rest))
}
