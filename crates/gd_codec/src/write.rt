//! Groups of batches, written as bytes.
ghost use Rattle.std.specs.Prelude.{◌≡◌, ◌≤◌, ◌++◌, flat_map, length, Some, IsTrue, OnOk, IfOk};
ghost use Rattle.std.specs.List.{AllByRecursion};
ghost use Rattle.gd_base.specs.Order.{precision_index};
ghost use Rattle.gd_prim.specs.WellFormed.{may_hold};
ghost use Rattle.gd_bytes.specs.Group as group;
ghost use Rattle.gd_codec.specs.Writable.{BatchMay, MayWrite};

use crate::length::group_length;
use gd_base::datum::{Datum, Precision};
use gd_base::id::Id;
use gd_base::memory::Memory;
use gd_base::text::Text;
use gd_prim::{Batch, Primitive};
use std::alloc::Global;

/// Writes bytes at the end.
fn write_bytes(out: &mut Vec<u8>, bytes: &[u8]) -> Result<(), Memory>
    ensures { OnOk result (out.new.items ≡ out.old.items ++ bytes.now) }
{
    out.extend_from_slice(bytes)?;
    Ok(())
}

/// Writes a text: its length in two bytes, and the text.
fn write_text(out: &mut Vec<u8>, text: &Text) -> Result<(), Memory>
    ensures written { OnOk result (out.new.items ≡ out.old.items ++ group.text_bytes text.now) }
    ensures fits { OnOk result (group.TextFits text.now) }
{
    let bytes = text.as_str().as_bytes();
    write_bytes(out, &(bytes.len() as u16).to_be_bytes())?;
    write_bytes(out, bytes)?;
    Ok(())
}

/// Writes a reference where it is there: four bytes.
fn write_reference(out: &mut Vec<u8>, reference: Option<Id>) -> Result<(), Memory>
    ensures written { OnOk result (out.new.items ≡ out.old.items ++ group.reference_bytes
        reference) }
    ensures fits { OnOk result (group.ReferenceFits reference) }
{
    match reference {
        Some(id) => write_bytes(out, &id.place().to_be_bytes()),
        None => Ok(()),
    }
}

/// Writes a name where it is there.
fn write_name(out: &mut Vec<u8>, name: &Option<Text>) -> Result<(), Memory>
    ensures written { OnOk result (out.new.items ≡ out.old.items ++ group.name_bytes name.now) }
    ensures fits { OnOk result (group.NameFits name.now) }
{
    match name {
        Some(text) => write_text(out, text),
        None => Ok(()),
    }
}

/// The place of a precision in their order.
fn precision_place(precision: Precision) -> u8
    ensures { result ≡ precision_index precision }
{
    match precision {
        Precision::Year => 0,
        Precision::Month => 1,
        Precision::Day => 2,
        Precision::Time => 3,
    }
}

/// Writes a value that a primitive may hold: a byte for its kind, and its contents.
fn write_value(out: &mut Vec<u8>, value: &Datum) -> Result<(), Memory>
    requires { IsTrue (may_hold value.now) }
    ensures written { OnOk result (out.new.items ≡ out.old.items ++ group.value_bytes value.now) }
    ensures fits { OnOk result (group.ValueFits value.now) }
{
    match value {
        Datum::Empty => write_bytes(out, &[0]),
        Datum::Text(text) => {
            write_bytes(out, &[1])?;
            write_text(out, text)
        }
        Datum::Int(n) => {
            write_bytes(out, &[2])?;
            write_bytes(out, &n.cast_unsigned().to_be_bytes())
        }
        Datum::Bool(b) => write_bytes(out, &[3, u8::from(*b)]),
        Datum::Moment { ms, precision } => {
            write_bytes(out, &[4, precision_place(*precision)])?;
            write_bytes(out, &ms.cast_unsigned().to_be_bytes())
        }
        Datum::Object(_) => unreachable!(),
    }
}

/// What a flag adds to the flag byte.
fn flag(worth: u8, set: bool) -> u8
    ensures { result ≡ group.flag worth set }
{
    if set { worth } else { 0 }
}

/// The flag byte of a primitive: which references and whether a name and a language are there, and
/// whether it is live.
fn flags(prim: &Primitive) -> u8
    ensures { result ≡ group.flags prim.now }
{
    flag(1, prim.left.is_some())
        + flag(2, prim.right.is_some())
        + flag(4, prim.typ.is_some())
        + flag(8, prim.scope.is_some())
        + flag(16, prim.previous.is_some())
        + flag(32, prim.name.is_some())
        + flag(64, prim.live)
        + flag(128, prim.lang.is_some())
}

/// Writes a primitive: flags, the references that are there, the value, the name.
fn write_primitive(out: &mut Vec<u8>, prim: &Primitive) -> Result<(), Memory>
    requires { IsTrue (may_hold prim.now.value) }
    ensures written { OnOk result (out.new.items ≡ out.old.items ++ group.primitive_bytes
        prim.now) }
    ensures fits { OnOk result (group.PrimitiveFits prim.now.moment prim.now) }
{
    write_bytes(out, &[flags(prim)])?;
    write_reference(out, prim.left)?;
    write_reference(out, prim.right)?;
    write_reference(out, prim.typ)?;
    write_reference(out, prim.scope)?;
    write_reference(out, prim.previous)?;
    write_reference(out, prim.lang)?;
    write_value(out, &prim.value)?;
    write_name(out, &prim.name)
}

/// Writes primitives one after another.
fn write_primitives(out: &mut Vec<u8>, prims: &[Primitive]) -> Result<(), Memory>
    requires { AllByRecursion (λ p. IsTrue (may_hold p.value)) prims.now }
    ensures written { OnOk result (out.new.items ≡ out.old.items ++ flat_map group.primitive_bytes
        prims.now) }
    ensures fits { OnOk result (AllByRecursion (λ p. group.PrimitiveFits p.moment p) prims.now) }
{
    for prim in prims {
        write_primitive(out, prim)?;
    }
    Ok(())
}

/// Writes a batch: its moment, the number of its primitives, and the primitives.
fn write_batch(out: &mut Vec<u8>, batch: &Batch) -> Result<(), Memory>
    requires { BatchMay batch.now }
    ensures written { OnOk result (out.new.items ≡ out.old.items ++ group.batch_bytes batch.now) }
    ensures fits { OnOk result (group.BatchFits batch.now) }
{
    write_bytes(out, &batch.moment.to_be_bytes())?;
    write_bytes(out, &(batch.prims.len() as u16).to_be_bytes())?;
    write_primitives(out, batch.prims.as_slice())
}

/// Writes batches one after another.
fn write_batches(out: &mut Vec<u8>, batches: &[Batch]) -> Result<(), Memory>
    requires { AllByRecursion BatchMay batches.now }
    ensures written { OnOk result (out.new.items ≡ out.old.items ++ flat_map group.batch_bytes
        batches.now) }
    ensures fits { OnOk result (AllByRecursion group.BatchFits batches.now) }
{
    for batch in batches {
        write_batch(out, batch)?;
    }
    Ok(())
}

/// The bytes of a group of 1 to 256 batches, which `decode_group` reads again. Each batch has at
/// most 4,096 primitives and a moment of at most 253,402,300,799,999; its primitives have its
/// moment, no object as a value and no moment outside the years 0000 to 9999.
pub fn encode_group(alloc: Global, batches: &[Batch]) -> Result<Vec<u8>, Memory>
    requires { MayWrite batches.now }
    ensures spelled { IfOk result (λ bytes. group.IsGroup bytes.items batches.now) }
    ensures meant { IfOk result (λ bytes. group.group_of bytes.items ≡ Some batches.now) }
{
    let mut out = Vec::with_capacity(alloc, group_length(batches))?;
    write_bytes(&mut out, &(batches.len() as u16).to_be_bytes())?;
    write_batches(&mut out, batches)?;
    Ok(out)
}
