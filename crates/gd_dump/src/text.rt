//! Lines of dumps, written.
ghost use Rattle.std.specs.Prelude.{◌≡◌, ◌≤◌, ◌∷◌, ◌++◌, [], flat_map, length, decimal, IsTrue};
ghost use Rattle.std.specs.Prelude.{OnOk};
ghost use Rattle.std.specs.List.{AllByRecursion};
ghost use Rattle.gd_prim.specs.WellFormed.{may_hold, max_moment};
ghost use Rattle.gd_grammar.specs.Mark.{place_text};
ghost use Rattle.gd_tree.specs.Hex.{hex_digit};
ghost use Rattle.gd_dump_laws.specs.Dump as dump;

use gd_base::datum::{Datum, Precision};
use gd_base::id::Id;
use gd_base::memory::Memory;
use gd_base::text::Text;
use gd_prim::Primitive;
use itoa::Buffer;

/// Writes bytes at the end.
pub(crate) fn push_bytes(out: &mut Vec<u8>, bytes: &[u8]) -> Result<(), Memory>
    ensures { OnOk result (out.new.items ≡ out.old.items ++ bytes.now) }
{
    out.extend_from_slice(bytes)?;
    Ok(())
}

/// Writes a number and the byte behind it.
pub(crate) fn push_number(out: &mut Vec<u8>, n: u64, mark: u8) -> Result<(), Memory>
    ensures { OnOk result (out.new.items ≡ out.old.items ++ (decimal n ++ mark ∷ [])) }
{
    push_bytes(out, Buffer::new().format(n).as_bytes())?;
    push_bytes(out, &[mark])
}

/// Writes a whole number and a space.
fn push_int(out: &mut Vec<u8>, n: i64) -> Result<(), Memory>
    ensures { OnOk result (out.new.items ≡ out.old.items ++ (dump.int_text n ++ 32 ∷ [])) }
{
    if n < 0 {
        push_bytes(out, b"-")?;
    }
    push_number(out, n.unsigned_abs(), b' ')
}

/// The lower-case hexadecimal digit of a number below 16.
fn digit(n: u8) -> u8
    requires { n ≤ 15 }
    ensures { result ≡ hex_digit n }
{
    if n < 10 { b'0' + n } else { 87 + n }
}

/// Writes bytes in hexadecimal digits, and the byte behind them.
fn push_hex(out: &mut Vec<u8>, bytes: &[u8], mark: u8) -> Result<(), Memory>
    ensures { OnOk result
        (out.new.items ≡ out.old.items ++ (dump.hex_text bytes.now ++ mark ∷ [])) }
{
    for byte in bytes {
        push_bytes(out, &[digit(*byte / 16), digit(*byte % 16)])?;
    }
    push_bytes(out, &[mark])
}

/// Writes a text in hexadecimal digits, behind a `t`, and the byte behind it.
fn push_text(out: &mut Vec<u8>, text: &Text, mark: u8) -> Result<(), Memory>
    ensures written { OnOk result
        (out.new.items ≡ out.old.items ++ (116 ∷ dump.hex_text text.now ++ mark ∷ [])) }
    ensures fits { OnOk result (dump.TextFits text.now) }
{
    push_bytes(out, b"t")?;
    push_hex(out, text.as_str().as_bytes(), mark)
}

/// Writes a reference and a space.
fn push_place(out: &mut Vec<u8>, place: Option<Id>) -> Result<(), Memory>
    ensures written { OnOk result (out.new.items ≡ out.old.items ++ (place_text place ++ 32 ∷ [])) }
    ensures fits { OnOk result (dump.PlaceFits place) }
{
    match place {
        Some(id) => push_number(out, u64::from(id.place()), b' '),
        None => push_bytes(out, b"- "),
    }
}

/// The letter of a precision.
fn letter(precision: Precision) -> u8
    ensures { result ≡ dump.precision_letter precision }
{
    match precision {
        Precision::Year => b'y',
        Precision::Month => b'm',
        Precision::Day => b'd',
        Precision::Time => b't',
    }
}

/// Writes a value that a primitive may hold, and a space.
fn push_value(out: &mut Vec<u8>, value: &Datum) -> Result<(), Memory>
    requires { IsTrue (may_hold value.now) }
    ensures written { OnOk result
        (out.new.items ≡ out.old.items ++ (dump.value_text value.now ++ 32 ∷ [])) }
    ensures fits { OnOk result (dump.ValueFits value.now) }
{
    match value {
        Datum::Empty => push_bytes(out, b"e "),
        Datum::Int(n) => {
            push_bytes(out, b"i")?;
            push_int(out, *n)
        }
        Datum::Bool(true) => push_bytes(out, b"b1 "),
        Datum::Bool(false) => push_bytes(out, b"b0 "),
        Datum::Moment { ms, precision } => {
            push_bytes(out, &[b'm', letter(*precision)])?;
            push_int(out, *ms)
        }
        Datum::Text(text) => push_text(out, text, b' '),
        Datum::Object(_) => unreachable!(),
    }
}

/// Writes a name, or `-`, and the end of the line.
fn push_name(out: &mut Vec<u8>, name: &Option<Text>) -> Result<(), Memory>
    ensures written { OnOk result
        (out.new.items ≡ out.old.items ++ (dump.name_text name.now ++ 10 ∷ [])) }
    ensures fits { OnOk result (dump.NameFits name.now) }
{
    match name {
        Some(text) => push_text(out, text, b'\n'),
        None => push_bytes(out, b"-\n"),
    }
}

/// Writes the line of a primitive: its references, of which the last is its language, and the rest.
#[tactic(auto, using(crate::proofs::Written::line_whole))]
fn push_prim(out: &mut Vec<u8>, prim: &Primitive) -> Result<(), Memory>
    requires { IsTrue (may_hold prim.now.value) }
    ensures written { OnOk result (out.new.items ≡ out.old.items ++ dump.prim_line prim.now) }
    ensures fits { OnOk result (dump.PrimitiveFits prim.now.moment prim.now) }
{
    push_place(out, prim.left)?;
    push_place(out, prim.right)?;
    push_place(out, prim.typ)?;
    push_place(out, prim.scope)?;
    push_place(out, prim.previous)?;
    push_place(out, prim.lang)?;
    push_bytes(out, if prim.live { b"+ " } else { b"- " })?;
    push_value(out, &prim.value)?;
    push_name(out, &prim.name)
}

/// Writes the lines of primitives.
fn push_prims(out: &mut Vec<u8>, prims: &[Primitive]) -> Result<(), Memory>
    requires { AllByRecursion (λ p. IsTrue (may_hold p.value)) prims.now }
    ensures written { OnOk result
        (out.new.items ≡ out.old.items ++ flat_map dump.prim_line prims.now) }
    ensures fits { OnOk result (AllByRecursion (λ p. dump.PrimitiveFits p.moment p) prims.now) }
{
    for prim in prims {
        push_prim(out, prim)?;
    }
    Ok(())
}

/// Writes the lines of a batch: of its moment and its primitives.
pub(crate) fn push_batch(out: &mut Vec<u8>, moment: u64, prims: &[Primitive]) -> Result<(), Memory>
    requires { AllByRecursion (λ p. IsTrue (may_hold p.value)) prims.now }
    ensures written { OnOk result
        (out.new.items ≡ out.old.items ++ (dump.batch_head moment (length prims.now) ++ flat_map
        dump.prim_line prims.now)) }
    ensures fits { OnOk result (AllByRecursion (λ p. dump.PrimitiveFits p.moment p) prims.now) }
{
    push_bytes(out, b"batch ")?;
    push_number(out, moment, b' ')?;
    push_number(out, prims.len() as u64, b'\n')?;
    push_prims(out, prims)
}

/// Writes the first line of a dump.
pub(crate) fn push_head(out: &mut Vec<u8>, first: u32) -> Result<(), Memory>
    ensures { OnOk result (out.new.items ≡ out.old.items ++ dump.dump_head first) }
{
    push_bytes(out, b"graphd-dump 1 ")?;
    push_number(out, u64::from(first), b'\n')
}

/// Writes the last line of a dump.
pub(crate) fn push_end(out: &mut Vec<u8>, count: u32) -> Result<(), Memory>
    ensures { OnOk result (out.new.items ≡ out.old.items ++ dump.dump_end count) }
{
    push_bytes(out, b"end ")?;
    push_number(out, u64::from(count), b'\n')
}
