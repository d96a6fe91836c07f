//! Lines of a text and a number.
ghost use Rattle.std.specs.Prelude.{◌≡◌, ◌++◌, IfOk, decimal};

use gd_base::memory::Memory;
use itoa::Buffer;
use std::alloc::Global;

/// A line of these bytes.
pub(crate) fn said(alloc: Global, text: &str) -> Result<Vec<u8>, Memory>
    ensures { IfOk result (λ line. line.items ≡ text.now) }
{
    let mut line = Vec::new(alloc);
    line.extend_from_slice(text.as_bytes())?;
    Ok(line)
}

/// A line of these bytes and a number.
pub(crate) fn counted(alloc: Global, front: &str, n: u64) -> Result<Vec<u8>, Memory>
    ensures { IfOk result (λ line. line.items ≡ front.now ++ decimal n) }
{
    let mut line = said(alloc, front)?;
    line.extend_from_slice(Buffer::new().format(n).as_bytes())?;
    Ok(line)
}
