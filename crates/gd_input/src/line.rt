//! Lines of bounded length.
ghost use Rattle.std.specs.Prelude.{◌≡◌, ◌≤◌, ◌++◌, ◌+◌, ◌-◌, ◌^◌, ℕ, List, [], length, nat_eq};
ghost use Rattle.std.specs.Prelude.{slice_get, Some, IfOk, bytes_eq, if◌then◌else◌};
ghost use Rattle.std.specs.Option.{option_eq};
ghost use Rattle.gd_runs.specs.Explained.{without_return as line_of};
ghost use Rattle.gd_input.specs.Line.{IsKept, HasAtMost};

use std::alloc::{AllocError, Global};

/// The greatest number of bytes of a line of a round.
pub const LINE_LIMIT: usize = 262_144;

/// A line that was read.
#[derive(Debug, PartialEq, Eq, Drop)]
pub enum RoundLine {
    /// Its bytes, at most as many as a line may have: `LINE_LIMIT` in a round.
    Bytes(Vec<u8>),
    /// It has more bytes. They were read and dropped.
    TooLong,
}

impl RoundLine {
    /// The beginning of a line, before its first byte.
    pub fn new(alloc: Global) -> RoundLine
        ensures { (limit : ℕ) → IsKept limit result [] }
    {
        RoundLine::Bytes(Vec::new(alloc))
    }

    /// Whether the line has no bytes.
    pub fn is_blank(&self) -> bool
        ensures { (limit : ℕ) (line : List ℕ) → IsKept limit self.now line
            → result ≡ bytes_eq line [] }
    {
        match self {
            RoundLine::Bytes(bytes) => bytes.is_empty(),
            RoundLine::TooLong => false,
        }
    }

    /// The beginning of a line with further bytes, which are kept as long as they are at most
    /// `limit`.
    pub fn extended(self, more: &[u8], limit: usize) -> Result<RoundLine, AllocError>
        ensures { (begun : List ℕ) → IsKept limit self begun
            → IfOk result (λ line. IsKept limit line (begun ++ more.now)) }
    {
        match self {
            RoundLine::Bytes(mut bytes) => {
                if more.len() > limit.saturating_sub(bytes.len()) {
                    return Ok(RoundLine::TooLong);
                }
                bytes.extend_from_slice(more)?;
                Ok(RoundLine::Bytes(bytes))
            }
            RoundLine::TooLong => Ok(RoundLine::TooLong),
        }
    }

    /// The line that ends here, by a newline or by the end of input, and may have `most` bytes.
    /// Before a newline a carriage return is dropped, so one byte more was kept of it.
    pub fn ended(self, by_newline: bool, most: usize) -> RoundLine
        ensures kept { (begun : List ℕ) → IsKept (most + 1) self begun
            → IsKept most result (if by_newline then line_of begun else begun) }
        ensures short { HasAtMost most result }
    {
        match self {
            RoundLine::Bytes(bytes) => within(line_bytes(bytes, by_newline), most),
            RoundLine::TooLong => RoundLine::TooLong,
        }
    }
}

fn ends_with_return(bytes: &[u8]) -> bool
    ensures { result ≡ option_eq nat_eq (slice_get bytes.now (length bytes.now - 1)) (Some 13) }
{
    bytes.last().copied() == Some(b'\r')
}

/// The bytes of the line that a piece of the input is.
fn line_bytes(mut piece: Vec<u8>, by_newline: bool) -> Vec<u8>
    ensures { result.items ≡ (if by_newline then line_of piece.items else piece.items) }
{
    if by_newline && ends_with_return(&piece) {
        piece.pop();
    }
    piece
}

/// The line of these bytes, as far as lines may be.
fn within(bytes: Vec<u8>, most: usize) -> RoundLine
    ensures kept { IsKept most result bytes.items }
    ensures short { HasAtMost most result }
{
    if bytes.len() > most {
        RoundLine::TooLong
    } else {
        RoundLine::Bytes(bytes)
    }
}
