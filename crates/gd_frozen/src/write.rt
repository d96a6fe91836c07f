//! Texts of cursors.
ghost use Rattle.std.specs.Prelude.{◌≡◌, ℕ, List, ◌++◌, OnOk, IfOk, codes, decimal, flat_map};
ghost use Rattle.std.specs.Prelude.{string_bytes};
ghost use Rattle.gd_grammar.specs.Mark.{place_text, cursor_text as cursor_text_of};
ghost use Rattle.gd_bytes.specs.Cursor as defined;
ghost use Rattle.gd_frozen.specs.Meant.{meant};

use crate::cursor::Cursor;
use gd_base::id::Id;
use gd_base::memory::Memory;
use itoa::Buffer;
use std::alloc::Global;

/// Appends a text and, behind it, a number in decimal digits.
pub(crate) fn push_number(out: &mut String, front: &str, n: u32) -> Result<(), Memory>
    ensures { OnOk result (string_bytes out.new ≡ string_bytes out.old ++ front.now ++ decimal n) }
{
    out.push_str(front)?;
    out.push_str(Buffer::new().format(n))?;
    Ok(())
}

/// Appends the place of a key.
fn push_place(out: &mut String, place: Option<Id>) -> Result<(), Memory>
    ensures { OnOk result (string_bytes out.new
        ≡ string_bytes out.old ++ (codes ":" ++ place_text place)) }
{
    match place {
        Some(id) => push_number(out, ":", id.place()),
        None => {
            out.push_str(":-")?;
            Ok(())
        }
    }
}

/// Appends the places of keys.
fn push_places(out: &mut String, places: &[Option<Id>]) -> Result<(), Memory>
    ensures { OnOk result (string_bytes out.new ≡ string_bytes out.old ++ flat_map
        (λ place. codes ":" ++ place_text place) places.now) }
{
    for place in places {
        push_place(out, *place)?;
    }
    Ok(())
}

/// The text of a cursor: of its dateline, its object and the places of its keys. `Memory`: an
/// allocation was refused.
pub fn mark_text(
    alloc: Global,
    dateline: u32,
    object: Id,
    keys: &[Option<Id>],
) -> Result<String, Memory>
    ensures { IfOk result (λ text. string_bytes text ≡ cursor_text_of dateline
        (record { object = object; keys = keys.now })) }
{
    let mut out = String::new(alloc);
    push_number(&mut out, "c1:", dateline)?;
    push_number(&mut out, ":", object.place())?;
    push_places(&mut out, keys)?;
    Ok(out)
}

/// The text of a cursor whose dateline is at most 4,194,303 and whose places are at most 2,097,151.
/// `cursor_from` gives the cursor again; of a cursor that was read it is the text that was read.
pub fn cursor_text(alloc: Global, cursor: &Cursor) -> Result<Vec<u8>, Memory>
    requires { defined.Fits (meant cursor.now) }
    ensures spelled { IfOk result (λ text. defined.IsCursorText (meant cursor.now) text.items) }
    ensures one { (bytes : List ℕ) → defined.IsCursorText (meant cursor.now) bytes
        → IfOk result (λ text. text.items ≡ bytes) }
    ensures again { IfOk result (λ text. defined.cursor_of text.items ≡ Ok (meant cursor.now)) }
{
    let text = mark_text(
        alloc,
        cursor.dateline,
        cursor.object,
        cursor.keys.as_slice(),
    )?;
    Ok(text.into_bytes())
}
