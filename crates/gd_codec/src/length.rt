//! How many bytes the parts of a group have.
ghost use Rattle.std.specs.Prelude.{◌≡◌, ◌≤◌, flat_map, length};
ghost use Rattle.std.specs.List.{AllByRecursion};
ghost use Rattle.gd_bytes.specs.Group as group;
ghost use Rattle.gd_codec.specs.Writable.{BatchMay};

use gd_base::datum::Datum;
use gd_base::id::Id;
use gd_base::text::Text;
use gd_prim::{Batch, Primitive};

/// The bytes of a text with its length.
fn text_length(text: &Text) -> usize
    ensures length { result ≡ length (group.text_bytes text.now) }
    ensures bound { result ≤ 4_098 }
{
    2 + text.as_bytes().len()
}

/// The bytes of a reference.
fn reference_length(reference: Option<Id>) -> usize
    ensures length { result ≡ length (group.reference_bytes reference) }
    ensures bound { result ≤ 4 }
{
    match reference {
        Some(_) => 4,
        None => 0,
    }
}

/// The bytes of a name.
fn name_length(name: &Option<Text>) -> usize
    ensures length { result ≡ length (group.name_bytes name.now) }
    ensures bound { result ≤ 4_098 }
{
    match name {
        Some(text) => text_length(text),
        None => 0,
    }
}

/// The bytes of a value.
fn value_length(value: &Datum) -> usize
    ensures length { result ≡ length (group.value_bytes value.now) }
    ensures bound { result ≤ 4_099 }
{
    match value {
        Datum::Empty => 1,
        Datum::Text(text) => 1 + text_length(text),
        Datum::Int(_) => 9,
        Datum::Bool(_) => 2,
        Datum::Moment { .. } => 10,
        Datum::Object(_) => 0,
    }
}

/// The bytes of a primitive.
fn primitive_length(prim: &Primitive) -> usize
    ensures length { result ≡ length (group.primitive_bytes prim.now) }
    ensures bound { result ≤ 8_222 }
{
    1 + reference_length(prim.left)
        + reference_length(prim.right)
        + reference_length(prim.typ)
        + reference_length(prim.scope)
        + reference_length(prim.previous)
        + reference_length(prim.lang)
        + value_length(&prim.value)
        + name_length(&prim.name)
}

/// How many bytes at most 4,096 primitives have in a group. They are not made.
pub fn primitives_length(prims: &[Primitive]) -> usize
    requires { length prims.now ≤ 4_096 }
    ensures length { result ≡ length (flat_map group.primitive_bytes prims.now) }
    ensures bound { result ≤ 33_677_312 }
{
    let mut total = 0;
    for prim in prims {
        total += primitive_length(prim);
    }
    total
}

/// The bytes of a batch.
fn batch_length(batch: &Batch) -> usize
    requires { BatchMay batch.now }
    ensures length { result ≡ length (group.batch_bytes batch.now) }
    ensures bound { result ≤ 33_677_322 }
{
    10 + primitives_length(batch.prims.as_slice())
}

/// The bytes of a group of at most 256 batches.
pub(crate) fn group_length(batches: &[Batch]) -> usize
    requires few { length batches.now ≤ 256 }
    requires each { AllByRecursion BatchMay batches.now }
    ensures { result ≡ length (group.spelling batches.now) }
{
    let mut total = 2;
    for batch in batches {
        total += batch_length(batch);
    }
    total
}
