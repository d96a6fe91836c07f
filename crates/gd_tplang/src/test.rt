//! What is asked of one place.
ghost use Rattle.std.specs.Prelude.{◌≡◌, codes};
ghost use Rattle.gd_prim.specs.Limits.{max_prims};
ghost use Rattle.gd_grammar.specs.Grammar.{number_at};
ghost use Rattle.gd_grammar.specs.Choice.{begins, either_at, is_byte, word_at, behind_at, seen_at};
ghost use Rattle.gd_grammar.specs.Choice.{list_at};
ghost use Rattle.gd_tplang.specs.Seen.{relation_of, test_of};
ghost use Rattle.gd_tplang.specs.Stop.{Finds};
ghost use Rattle.gd_tplang.specs.Written as written;

use crate::byte::{byte, is_next, word};
use crate::stop::Stop;
use crate::text::string;
use crate::value::{place, places, value, values};
use gd_base::datum::Datum;
use gd_base::id::Id;
use gd_base::text::Text;
use gd_prim::End;
use std::alloc::Global;

/// How a value stands to another one.
#[derive(Clone, Copy)]
pub(crate) enum Relation {
    Equal,
    Unequal,
    Below,
    AtMost,
    Above,
    AtLeast,
}

/// What is asked of one place, as it is written.
#[derive(Drop)]
pub(crate) enum Test {
    /// It has this place at the end.
    EndIs(End, Id),
    /// It has no `typ`.
    IsObject,
    /// It is one of these.
    PlaceIn(Vec<Id>),
    /// It is another one.
    PlaceNot(Id),
    /// Its value stands so to this one.
    Value(Relation, Datum),
    /// Its value is one of these.
    ValueIn(Vec<Datum>),
    /// Its value has the words of this text.
    ValueLike(Text),
}

/// Whether the byte begins the name of an end.
fn begins_end(byte: u8) -> bool
    ensures { result ≡ written.begins_end byte }
{
    b"lrts".iter().any(|first| *first == byte)
}

/// Whether the name of an end comes next.
fn is_end_next(bytes: &[u8]) -> bool
    ensures { result ≡ begins written.begins_end bytes.now }
{
    match bytes {
        [first, ..] => begins_end(*first),
        [] => false,
    }
}

/// Reads the name of this end.
fn end_name<'a>(bytes: &'a [u8], expected: &[u8], end: End) -> Result<(End, &'a [u8]), Stop>
    ensures { Finds (λ x. (x.0, x.1.now)) (word_at expected.now end bytes.now) result }
{
    let rest = word(bytes, expected)?;
    Ok((end, rest))
}

/// Reads the name of an end.
#[tactic(auto, unfolding(crate::specs::Written::end_at))]
pub(crate) fn end(bytes: &[u8]) -> Result<(End, &[u8]), Stop>
    ensures { Finds (λ x. (x.0, x.1.now)) (written.end_at bytes.now) result }
{
    if is_next(bytes, b'l') {
        return end_name(bytes, b"left", End::Left);
    }
    if is_next(bytes, b'r') {
        return end_name(bytes, b"right", End::Right);
    }
    if is_next(bytes, b't') {
        return end_name(bytes, b"type", End::Typ);
    }
    end_name(bytes, b"scope", End::Scope)
}

/// Reads an end and the place that it is to be.
#[tactic(auto, unfolding(crate::specs::Written::end_test_at))]
fn end_test(bytes: &[u8]) -> Result<(Test, &[u8]), Stop>
    ensures { Finds (λ x. (test_of x.0, x.1.now)) (written.end_test_at bytes.now) result }
{
    let (end, rest) = end(bytes)?;
    let rest = byte(rest, b'=')?;
    let (place, rest) = place(rest)?;
    Ok((Test::EndIs(end, Id::new(place)), rest))
}

/// Reads a value to which another one is to stand so.
fn compared(alloc: Global, bytes: &[u8], relation: Relation) -> Result<(Test, &[u8]), Stop>
    ensures { Finds (λ x. (test_of x.0, x.1.now)) (seen_at (written.value (relation_of relation))
        written.value_at bytes.now) result }
{
    let (value, rest) = value(alloc, bytes)?;
    Ok((Test::Value(relation, value), rest))
}

/// Reads these bytes and a value to which another one is to stand so.
fn related<'a>(
    alloc: Global,
    bytes: &'a [u8],
    expected: &[u8],
    relation: Relation,
) -> Result<(Test, &'a [u8]), Stop>
    ensures { Finds (λ x. (test_of x.0, x.1.now)) (behind_at expected.now (written.value
        (relation_of relation)) written.value_at bytes.now) result }
{
    let rest = word(bytes, expected)?;
    let (test, rest) = compared(alloc, rest, relation)?;
    Ok((test, rest))
}

/// Reads a value which another one may equal where `=` stands before it.
fn loosely(
    alloc: Global,
    bytes: &[u8],
    strict: Relation,
    loose: Relation,
) -> Result<(Test, &[u8]), Stop>
    ensures { Finds (λ x. (test_of x.0, x.1.now)) (either_at (is_byte 61) (behind_at (codes "=")
        (written.value (relation_of loose)) written.value_at) (seen_at (written.value (relation_of
        strict)) written.value_at) bytes.now) result }
{
    if is_next(bytes, b'=') {
        return related(alloc, bytes, b"=", loose);
    }
    compared(alloc, bytes, strict)
}

/// Reads a value below or above which another one is to be.
#[tactic(auto, unfolding(crate::specs::Written::bound_at))]
fn bound<'a>(
    alloc: Global,
    bytes: &'a [u8],
    expected: &[u8],
    strict: Relation,
    loose: Relation,
) -> Result<(Test, &'a [u8]), Stop>
    ensures { Finds (λ x. (test_of x.0, x.1.now)) (written.bound_at expected.now (relation_of
        strict) (relation_of loose) bytes.now) result }
{
    let rest = word(bytes, expected)?;
    let (test, rest) = loosely(alloc, rest, strict, loose)?;
    Ok((test, rest))
}

/// Reads the values of which one is to be there.
fn value_in(alloc: Global, bytes: &[u8]) -> Result<(Test, &[u8]), Stop>
    ensures { Finds (λ x. (test_of x.0, x.1.now)) (behind_at (codes "|=") written.value_in
        (list_at 63 124 written.value_at) bytes.now) result }
{
    let rest = word(bytes, b"|=")?;
    let (values, rest) = values(alloc, rest)?;
    Ok((Test::ValueIn(values), rest))
}

/// Reads the text whose words are to be there.
fn value_like(alloc: Global, bytes: &[u8]) -> Result<(Test, &[u8]), Stop>
    ensures { Finds (λ x. (test_of x.0, x.1.now)) (behind_at (codes "~=") written.value_like
        written.string_at bytes.now) result }
{
    let rest = word(bytes, b"~=")?;
    let (text, rest) = string(alloc, rest)?;
    Ok((Test::ValueLike(text), rest))
}

/// Reads what is asked of the value.
#[tactic(auto, unfolding(crate::specs::Written::asked_at))]
fn asked(alloc: Global, bytes: &[u8]) -> Result<(Test, &[u8]), Stop>
    ensures { Finds (λ x. (test_of x.0, x.1.now)) (written.asked_at bytes.now) result }
{
    if is_next(bytes, b'=') {
        return related(alloc, bytes, b"=", Relation::Equal);
    }
    if is_next(bytes, b'!') {
        return related(alloc, bytes, b"!=", Relation::Unequal);
    }
    if is_next(bytes, b'|') {
        return value_in(alloc, bytes);
    }
    if is_next(bytes, b'~') {
        return value_like(alloc, bytes);
    }
    if is_next(bytes, b'<') {
        return bound(alloc, bytes, b"<", Relation::Below, Relation::AtMost);
    }
    bound(alloc, bytes, b">", Relation::Above, Relation::AtLeast)
}

/// Reads that there is no `typ`.
fn object(bytes: &[u8]) -> Result<(Test, &[u8]), Stop>
    ensures { Finds (λ x. (test_of x.0, x.1.now)) (word_at (codes "object") written.is_object
        bytes.now) result }
{
    let rest = word(bytes, b"object")?;
    Ok((Test::IsObject, rest))
}

/// Reads the places of which it is to be one.
fn place_in(alloc: Global, bytes: &[u8]) -> Result<(Test, &[u8]), Stop>
    ensures { Finds (λ x. (test_of x.0, x.1.now)) (behind_at (codes "at=") written.place_in
        (list_at 63 124 (number_at max_prims)) bytes.now) result }
{
    let rest = word(bytes, b"at=")?;
    let (places, rest) = places(alloc, rest)?;
    Ok((Test::PlaceIn(places), rest))
}

/// Reads the place that it is not to be.
fn place_not(bytes: &[u8]) -> Result<(Test, &[u8]), Stop>
    ensures { Finds (λ x. (test_of x.0, x.1.now)) (behind_at (codes "not=") written.place_not
        (number_at max_prims) bytes.now) result }
{
    let rest = word(bytes, b"not=")?;
    let (place, rest) = place(rest)?;
    Ok((Test::PlaceNot(Id::new(place)), rest))
}

/// Reads the word `value` and what is asked of it.
fn value_test(alloc: Global, bytes: &[u8]) -> Result<(Test, &[u8]), Stop>
    ensures { Finds (λ x. (test_of x.0, x.1.now)) (behind_at (codes "value") (λ t. t)
        written.asked_at bytes.now) result }
{
    let rest = word(bytes, b"value")?;
    let (test, rest) = asked(alloc, rest)?;
    Ok((test, rest))
}

/// Reads what is asked of one place.
#[tactic(auto, unfolding(crate::specs::Written::test_at))]
pub(crate) fn read_test(alloc: Global, bytes: &[u8]) -> Result<(Test, &[u8]), Stop>
    ensures { Finds (λ x. (test_of x.0, x.1.now)) (written.test_at bytes.now) result }
{
    if is_end_next(bytes) {
        return end_test(bytes);
    }
    if is_next(bytes, b'o') {
        return object(bytes);
    }
    if is_next(bytes, b'a') {
        return place_in(alloc, bytes);
    }
    if is_next(bytes, b'n') {
        return place_not(bytes);
    }
    value_test(alloc, bytes)
}
