//! The texts of identities.
ghost use Rattle.std.specs.Prelude.{◌≡◌, ◌<◌, ◌++◌, ◌∷◌, [], OnOk, IfOk, string_bytes};
ghost use Rattle.gd_tree.specs.Hex.{hex, hex_digit as hex_digit_of};
ghost use Rattle.gd_defs.specs.Ids.{guid as guid_of};

use gd_base::id::Id;
use gd_base::memory::Memory;
use gd_json::value::JsonText;
use std::alloc::Global;

/// How many digits follow the prefix of a guid.
const DIGITS: u32 = 16;

fn hex_digit(n: u32) -> u8
    requires { n < 16 }
    ensures { result ≡ hex_digit_of n }
{
    if n < 10 { 48 + n as u8 } else { 87 + n as u8 }
}

fn push_digit(text: &mut String, n: u32) -> Result<(), Memory>
    requires { n < 16 }
    ensures { OnOk result (string_bytes text.new ≡ string_bytes text.old ++ hex_digit_of n ∷ []) }
{
    text.push(char::from(hex_digit(n)))?;
    Ok(())
}

fn push_hex(text: &mut String, width: u32, n: u32) -> Result<(), Memory>
    ensures { OnOk result (string_bytes text.new ≡ string_bytes text.old ++ hex width n) }
{
    if width == 0 {
        return Ok(());
    }
    push_hex(text, width - 1, n / 16)?;
    push_digit(text, n % 16)?;
    Ok(())
}

/// The guid of a place: `#0000000000000001` and the place in 16 lower-case hexadecimal digits.
pub fn guid(alloc: Global, id: Id) -> Result<JsonText, Memory>
    ensures { IfOk result (λ text. text ≡ guid_of id) }
{
    let mut text = String::from_str(alloc, "#0000000000000001")?;
    push_hex(&mut text, DIGITS, id.place())?;
    Ok(JsonText::new(text))
}
