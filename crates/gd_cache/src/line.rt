//! The reply line of what is kept.
ghost use Rattle.std.specs.Prelude.{◌≡◌, ◌++◌, OnOk, IfOk, decimal};
ghost use Rattle.gd_cache.specs.Line.{cursor_part, kept_text};

use crate::key::{Kept, ReplyText};
use gd_base::memory::Memory;
use itoa::Buffer;
use std::alloc::Global;

/// Appends a text and, behind it, a number in decimal digits.
pub(crate) fn push_number(bytes: &mut Vec<u8>, front: &str, n: u64) -> Result<(), Memory>
    ensures { OnOk result (bytes.new.items ≡ bytes.old.items ++ (front.now ++ decimal n)) }
{
    bytes.extend_from_slice(front.as_bytes())?;
    bytes.extend_from_slice(Buffer::new().format(n).as_bytes())?;
    Ok(())
}

/// Appends a text and, behind it, a part of a line.
fn push_part(bytes: &mut Vec<u8>, front: &str, part: &ReplyText) -> Result<(), Memory>
    ensures { OnOk result (bytes.new.items ≡ bytes.old.items ++ (front.now ++ part.now)) }
{
    bytes.extend_from_slice(front.as_bytes())?;
    bytes.extend_from_slice(part.as_slice())?;
    Ok(())
}

/// Appends the member of the cursor, where there is one.
fn push_cursor(bytes: &mut Vec<u8>, cursor: &Option<ReplyText>) -> Result<(), Memory>
    ensures { OnOk result (bytes.new.items ≡ bytes.old.items ++ cursor_part cursor.now) }
{
    match cursor {
        Some(text) => {
            push_part(bytes, ",\"cursor\":", text)?;
            Ok(())
        }
        None => Ok(()),
    }
}

/// The reply line, at the number of a line and at a dateline, of which this was kept. `Memory`: an
/// allocation was refused.
pub fn kept_line(alloc: Global, dateline: u32, line: u64, kept: &Kept) -> Result<Vec<u8>, Memory>
    ensures { IfOk result (λ bytes. bytes.items ≡ kept_text dateline line kept.now) }
{
    let mut bytes = Vec::new(alloc);
    bytes.extend_from_slice(b"{\"code\":\"/api/status/ok\"")?;
    push_cursor(&mut bytes, &kept.cursor)?;
    push_number(&mut bytes, ",\"dateline\":", u64::from(dateline))?;
    push_number(&mut bytes, ",\"line\":", line)?;
    push_part(&mut bytes, ",\"result\":", &kept.outcome)?;
    bytes.push(b'}')?;
    Ok(bytes)
}
