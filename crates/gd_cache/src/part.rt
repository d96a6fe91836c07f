//! What is to be kept of a reply line.
ghost use Rattle.std.specs.Prelude.{◌≡◌, ◌<◌, ◌^◌, ◌++◌, ◌∷◌, List, ℕ, true, Some, IfOk, IfSome};
ghost use Rattle.std.specs.Prelude.{IsNone, Option, codes, decimal, option_map, nat_eq};
ghost use Rattle.std.specs.List.{position};
ghost use Rattle.gd_cache.specs.Line.{cursor_part, kept_text, middle_text};
ghost use Rattle.gd_cache.specs.Right.{Commaless, IsPlainCursor, IsPlainKept};

use crate::key::{Kept, ReplyText};
use crate::line::push_number;
use gd_base::memory::Memory;
use std::alloc::Global;

/// What stands behind these bytes, if they come first.
#[tactic(auto, using(crate::proofs::Parts::stripped, crate::proofs::Parts::not_stripped))]
fn behind<'a>(bytes: &'a [u8], front: &[u8]) -> Option<&'a [u8]>
    ensures found { IfSome result (λ rest. bytes.now ≡ front.now ++ rest.now) }
    ensures none { IsNone result → (rest : List ℕ) → bytes.now ≡ front.now ++ rest → ⊥ }
{
    bytes.strip_prefix(front)
}

/// The place of the first comma.
fn comma(bytes: &[u8]) -> Option<usize>
    ensures { result ≡ position (λ byte. nat_eq byte 44) bytes.now }
{
    bytes.iter().position(|byte| *byte == b',')
}

/// What stands before the first comma, and what begins with it.
fn to_comma(bytes: &[u8]) -> Option<(&[u8], &[u8])>
    ensures found { IfSome result (λ parts. (bytes.now ≡ parts.0.now ++ parts.1.now)
        × Commaless parts.0.now) }
    ensures none { IsNone result → (front rest : List ℕ) → bytes.now ≡ front ++ 44 ∷ rest → ⊥ }
    ensures first { IfSome result (λ parts. (front rest : List ℕ) → Commaless front
        → bytes.now ≡ front ++ 44 ∷ rest
        → (parts.0.now ≡ front) × (parts.1.now ≡ 44 ∷ rest)) }
{
    let place = comma(bytes)?;
    Some((&bytes[..place], &bytes[place..]))
}

/// What the member of the cursor holds, if it comes first, and what stands behind it.
fn cursor_in(bytes: &[u8]) -> (Option<&[u8]>, &[u8])
    ensures found { bytes.now ≡ cursor_part (option_map (λ c. c.now) result.0) ++ result.1.now }
    ensures plain { IsPlainCursor (option_map (λ c. c.now) result.0) }
    ensures first { (cursor : Option (List ℕ)) (rest : List ℕ) → IsPlainCursor cursor
        → bytes.now ≡ cursor_part cursor ++ (codes ",\"dateline\":" ++ rest)
        → (option_map (λ c. c.now) result.0 ≡ cursor)
        × (result.1.now ≡ codes ",\"dateline\":" ++ rest) }
{
    let Some(rest) = behind(bytes, b",\"cursor\":") else {
        return (None, bytes);
    };
    match to_comma(rest) {
        Some((cursor, rest)) => (Some(cursor), rest),
        None => (None, bytes),
    }
}

/// The number that these bytes are in decimal digits, if they are.
fn number_of(digits: &[u8]) -> Option<u32>
    ensures { (n : ℕ) → n < 2 ^ 32 → digits.now ≡ decimal n → result ≡ Some n }
{
    match std::str::from_utf8(digits) {
        Ok(text) => text.parse::<u32>().ok(),
        Err(_) => None,
    }
}

/// The dateline, if its member comes first.
fn dateline_in(bytes: &[u8]) -> Option<u32>
    ensures { (n : ℕ) (rest : List ℕ) → n < 2 ^ 32
        → bytes.now ≡ codes ",\"dateline\":" ++ (decimal n ++ 44 ∷ rest) → result ≡ Some n }
{
    let rest = behind(bytes, b",\"dateline\":")?;
    let (digits, _) = to_comma(rest)?;
    number_of(digits)
}

/// What stands between the cursor and the result.
fn middle(alloc: Global, dateline: u32, line: u64) -> Result<Vec<u8>, Memory>
    ensures { IfOk result (λ bytes. bytes.items ≡ middle_text dateline line) }
{
    let mut bytes = Vec::new(alloc);
    push_number(&mut bytes, ",\"dateline\":", u64::from(dateline))?;
    push_number(&mut bytes, ",\"line\":", line)?;
    bytes.extend_from_slice(b",\"result\":")?;
    Ok(bytes)
}

/// What stands before the last byte, if that is a brace.
fn before_brace(bytes: &[u8]) -> Option<&[u8]>
    ensures found { IfSome result (λ front. bytes.now ≡ front.now ++ codes "}") }
    ensures none { IsNone result → (front : List ℕ) → bytes.now ≡ front ++ codes "}" → ⊥ }
{
    bytes.strip_suffix(b"}")
}

/// The result between what stands before it and the brace that ends a line.
fn outcome_in<'a>(bytes: &'a [u8], middle: &[u8]) -> Option<&'a [u8]>
    ensures found { IfSome result (λ outcome. bytes.now
        ≡ middle.now ++ (outcome.now ++ codes "}")) }
    ensures none { IsNone result → (outcome : List ℕ)
        → bytes.now ≡ middle.now ++ (outcome ++ codes "}") → ⊥ }
{
    let rest = behind(bytes, middle)?;
    before_brace(rest)
}

/// A text of its own of these bytes.
fn text(alloc: Global, bytes: &[u8]) -> Result<ReplyText, Memory>
    ensures { IfOk result (λ text. text ≡ bytes.now) }
{
    let mut copied = Vec::new(alloc);
    copied.extend_from_slice(bytes)?;
    Ok(ReplyText::new(copied))
}

/// What is kept of a cursor and a result.
fn kept(alloc: Global, cursor: Option<&[u8]>, outcome: &[u8]) -> Result<Kept, Memory>
    ensures { IfOk result (λ kept. kept ≡ record {
      cursor = option_map (λ c. c.now) cursor.entry;
      outcome = outcome.now;
    }) }
{
    let cursor = match cursor {
        Some(cursor) => Some(text(alloc, cursor)?),
        None => None,
    };
    let outcome = text(alloc, outcome)?;
    Ok(Kept { cursor, outcome })
}

/// What is to be kept of the reply to line `line`, with its dateline, if it is an answer: this is
/// its line. None only where the line is that of nothing that may be kept. `Memory`: an allocation
/// was refused.
pub fn kept_of(alloc: Global, bytes: &[u8], line: u64) -> Result<Option<(u32, Kept)>, Memory>
    ensures right { IfOk result (λ found. IfSome found (λ pair. (bytes.now
        ≡ kept_text pair.0 line pair.1) × IsPlainKept pair.1)) }
    ensures complete { IfOk result (λ found. (dateline : ℕ) (kept : Kept) → dateline < 2 ^ 32
        → IsPlainKept kept → bytes.now ≡ kept_text dateline line kept
        → found ≡ Some (dateline, kept)) }
{
    let Some(rest) = behind(bytes, b"{\"code\":\"/api/status/ok\"") else {
        return Ok(None);
    };
    let (cursor, rest) = cursor_in(rest);
    let Some(dateline) = dateline_in(rest) else {
        return Ok(None);
    };
    let middle = middle(alloc, dateline, line)?;
    let Some(outcome) = outcome_in(rest, &middle) else {
        return Ok(None);
    };
    Ok(Some((dateline, kept(alloc, cursor, outcome)?)))
}
