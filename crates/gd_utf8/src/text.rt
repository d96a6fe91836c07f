//! Texts of bytes that were read as UTF-8.
ghost use Rattle.std.specs.Prelude.{◌≡◌, ◌≤◌, length, IfOk, IsTrue};
ghost use Rattle.std.specs.Str.{is_utf8};

use gd_base::memory::Memory;
use gd_base::text::{Text, TextFault};
use std::alloc::Global;

/// The text of UTF-8 of at most `TEXT_LIMIT` bytes. `Memory`: an allocation was refused.
pub fn text_of_utf8(alloc: Global, bytes: &[u8]) -> Result<Text, Memory>
    requires short { length bytes.now ≤ 4096 }
    requires utf8 { IsTrue (is_utf8 bytes.now) }
    ensures { IfOk result (λ text. text ≡ bytes.now) }
{
    match Text::new(alloc, bytes) {
        Ok(text) => Ok(text),
        Err(TextFault::Memory) => Err(Memory),
        Err(TextFault::TooLong) => unreachable!(),
        Err(TextFault::NotUtf8 { .. }) => unreachable!(),
    }
}
