//! Bytes and words.
ghost use Rattle.std.specs.Prelude.{◌≡◌, ◌∷◌, []};
ghost use Rattle.gd_grammar.specs.Grammar.{text_at};
ghost use Rattle.gd_grammar.specs.Choice.{is_byte, begins};
ghost use Rattle.gd_tplang.specs.Stop.{Finds};

use crate::stop::Stop;

/// Whether this byte comes next.
pub(crate) fn is_next(bytes: &[u8], expected: u8) -> bool
    ensures { result ≡ begins (is_byte expected) bytes.now }
{
    match bytes {
        [first, ..] => *first == expected,
        [] => false,
    }
}

/// Reads this very byte.
pub(crate) fn byte(bytes: &[u8], expected: u8) -> Result<&[u8], Stop>
    ensures { Finds (λ rest. (tt, rest.now)) (text_at (expected ∷ []) bytes.now) result }
{
    match bytes {
        [] => Err(Stop::Bad { left: 0 }),
        [first, behind @ ..] => {
            if expected != *first {
                return Err(Stop::Bad { left: bytes.len() });
            }
            Ok(behind)
        }
    }
}

/// Reads these very bytes.
pub(crate) fn word<'a>(bytes: &'a [u8], expected: &[u8]) -> Result<&'a [u8], Stop>
    ensures { Finds (λ rest. (tt, rest.now)) (text_at expected.now bytes.now) result }
{
    let mut rest = bytes;
    for expected in expected {
        rest = byte(rest, *expected)?;
    }
    Ok(rest)
}
