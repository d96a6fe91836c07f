//! Single bytes and words.
ghost use Rattle.std.specs.Prelude.{◌≡◌, [], ◌∷◌};
ghost use Rattle.gd_grammar.specs.Grammar.{text_at};
ghost use Rattle.gd_grammar.specs.Reading.{byte_if};
ghost use Rattle.gd_dump.specs.Stop.{Finds};

use crate::stop::Stop;

/// Reads this very byte.
pub(crate) fn byte(bytes: &[u8], expected: u8) -> Result<&[u8], Stop>
    ensures { Finds (λ rest. (tt, rest.now)) (text_at (expected ∷ []) bytes.now) result }
{
    match bytes {
        [] => Err(Stop::Bad { left: 0 }),
        [first, behind @ ..] => {
            if expected != *first {
                return Err(Stop::Bad { left: bytes.len() });
            }
            Ok(behind)
        }
    }
}

/// Reads these very bytes.
pub(crate) fn word<'a>(bytes: &'a [u8], expected: &[u8]) -> Result<&'a [u8], Stop>
    ensures { Finds (λ rest. (tt, rest.now)) (text_at expected.now bytes.now) result }
{
    let mut rest = bytes;
    for next in expected {
        rest = byte(rest, *next)?;
    }
    Ok(rest)
}
