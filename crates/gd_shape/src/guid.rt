//! Guids as bytes.
ghost use Rattle.std.specs.Prelude.{◌≡◌, ◌<◌};
ghost use Rattle.gd_tree.specs.Hex.{hex_digit as hex_digit_of};
ghost use Rattle.gd_defs.specs.Ids.{guid as guid_of};

/// How many of the digits of a guid, the last ones, differ from place to place.
const DIGITS: usize = 8;

fn hex_digit(n: u32) -> u8
    requires { n < 16 }
    ensures { result ≡ hex_digit_of n }
{
    if n < 10 { 48 + n as u8 } else { 87 + n as u8 }
}

/// The bytes of the guid of a place: `#0000000000000001` and the place in 16 lower-case hexadecimal
/// digits. It takes no memory.
pub(crate) fn guid_bytes(place: u32) -> [u8; 33]
    ensures { result ≡ guid_of place }
{
    let mut bytes = *b"#00000000000000010000000000000000";
    let mut left = place;
    for done in 0..DIGITS {
        bytes[32 - done] = hex_digit(left % 16);
        left /= 16;
    }
    bytes
}
