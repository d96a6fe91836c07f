//! Bytes as texts of hexadecimal digits in lower case.
ghost use Rattle.std.specs.Prelude.{◌≡◌, IfOk, option_map};
ghost use Rattle.std.specs.List.{list_all};
ghost use Rattle.hex.specs.Hex.{encode_lower};
ghost use Rattle.gd_following.specs.Parts as parts;

use gd_base::memory::Memory;
use gd_json::value::JsonText;
use hex::FromHexError;
use std::alloc::Global;

/// Whether the byte is a hexadecimal digit in lower case.
fn is_lower_digit(byte: u8) -> bool
    ensures { result ≡ parts.is_lower_digit byte }
{
    matches!(byte, b'0'..=b'9' | b'a'..=b'f')
}

/// Whether each byte is a hexadecimal digit in lower case.
fn are_lower_digits(text: &[u8]) -> bool
    ensures { result ≡ list_all parts.is_lower_digit text.now }
{
    text.iter().all(|byte| is_lower_digit(*byte))
}

/// The bytes that the text spells, each by two hexadecimal digits in lower case; none where it is
/// no such text. `Memory`: an allocation was refused.
pub(crate) fn bytes_spelled(alloc: Global, text: &[u8]) -> Result<Option<Vec<u8>>, Memory>
    ensures { IfOk result (λ spelled. option_map (λ bytes. bytes.items) spelled
        ≡ parts.bytes_spelled text.now) }
{
    if !are_lower_digits(text) {
        return Ok(None);
    }
    match hex::decode(alloc, text) {
        Ok(bytes) => Ok(Some(bytes)),
        Err(FromHexError::OutOfMemory) => Err(Memory),
        Err(_) => Ok(None),
    }
}

/// The text of bytes, each by two hexadecimal digits in lower case. `Memory`: an allocation was
/// refused.
pub(crate) fn spelled(alloc: Global, bytes: &[u8]) -> Result<JsonText, Memory>
    ensures { IfOk result (λ text. text ≡ encode_lower bytes.now) }
{
    Ok(JsonText::new(hex::encode(alloc, bytes)?))
}
