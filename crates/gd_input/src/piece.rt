//! Pieces of the input, which end at a newline or at the input's end.
ghost use Rattle.std.specs.Prelude.{◌≡◌, ◌≢◌, ◌<◌, ◌≤◌, ◌+◌, ◌^◌, ◌⊎◌, ℕ, List, [], length, false};
ghost use Rattle.std.specs.Prelude.{true, MatchOption, IfOk, IfSome, OnErr};
ghost use Rattle.std.specs.Io.KnownBytes.{prepend_known, IsAtEnd};
ghost use Rattle.gd_base.specs.Counts.{Rose};
ghost use Rattle.gd_input.specs.Line.{HasAtMost, IsShort};
ghost use Rattle.gd_input.specs.Pieces.{IsPlain, IsFirstNewline};

use crate::fault::InputFault;
use crate::line::{LINE_LIMIT, RoundLine};
use crate::reader::Reader;
use gd_outside::source::Source;
use memchr::memchr;
use std::alloc::AllocError;

/// A line, as far as it was read, and whether a newline ended it.
#[derive(Drop)]
pub struct Piece {
    pub line: RoundLine,
    pub by_newline: bool,
}

/// How many bytes stand before the first newline, if there is one.
fn newline_in(bytes: &[u8]) -> Option<usize>
    ensures within { IfSome result (λ n. n < length bytes.now) }
    ensures first { MatchOption result (IsPlain bytes.now) (IsFirstNewline bytes.now) }
{
    memchr(b'\n', bytes)
}

impl Reader {
    ghost use Rattle.gd_input.specs.Held.{IsBounded, CountsOn};
    ghost use Rattle.gd_input.specs.Pieces.{Known, Advances, TakesChunk, TakesPiece};
    ghost use Rattle.gd_input.specs.Pieces.{TakesPieceWithin, StopsInLine};

    /// Adds the held bytes to a line that has begun and is kept within `limit` bytes, up to a
    /// newline, which is then dropped.
    fn take_chunk(&mut self, begun: RoundLine, limit: usize) -> Result<Piece, AllocError>
        requires { self.old.bytes ≢ [] }
        ensures chunk { IfOk result (TakesChunk limit self.old self.new begun) }
        ensures forward { IfOk result (λ _. self.old.consumed < self.new.consumed) }
        ensures bounded { IsBounded self.new }
        ensures err { OnErr result (self.new ≡ self.old) }
    {
        match newline_in(self.bytes()) {
            Some(count) => {
                let line = begun.extended(&self.bytes()[..count], limit)?;
                self.consume(count + 1);
                Ok(Piece {
                    line,
                    by_newline: true,
                })
            }
            None => {
                let line = begun.extended(self.bytes(), limit)?;
                self.consume(self.bytes().len());
                Ok(Piece {
                    line,
                    by_newline: false,
                })
            }
        }
    }

    /// Reads the next line of the input, which may have `most` bytes: the bytes up to a newline or
    /// to the input's end, without a carriage return before the newline. `Failed`: the source did,
    /// and its count rose. `TooMuch`: 2^40 bytes of the input were taken, and it had not ended.
    pub fn read_line_within<S: Source>(
        &mut self,
        source: &mut S,
        most: usize,
    ) -> Result<Piece, InputFault>
        requires { most ≤ 2 ^ 30 }
        ensures line { IfOk result (λ piece. Known
            (prepend_known self.old.bytes (S.left source.old))
            (prepend_known self.new.bytes (S.left source.new)) (TakesPieceWithin most piece)) }
        ensures short { IfOk result (λ piece. HasAtMost most piece.line) }
        ensures advances { Advances (prepend_known self.old.bytes (S.left source.old))
            (prepend_known self.new.bytes (S.left source.new)) self.old.consumed self.new.consumed }
        ensures bounded { IsBounded self.new }
        ensures forward { IfOk result (λ piece. piece.by_newline ≡ true
            → self.old.consumed < self.new.consumed) }
        ensures at_end { IfOk result (λ piece. piece.by_newline ≡ false
            → (self.new.bytes ≡ []) × IsAtEnd (S.left source.new)) }
        ensures counted { CountsOn self.old (S.given source.old) self.new (S.given source.new) }
        ensures stopped { OnErr result (Known (prepend_known self.old.bytes (S.left source.old))
            (prepend_known self.new.bytes (S.left source.new)) StopsInLine) }
        ensures none { (result ≡ Err InputFault.Failed) ⊎ (result ≡ Err InputFault.TooMuch)
            → self.new.bytes ≡ [] }
        ensures failed { result ≡ Err InputFault.Failed
            → Rose (S.faults source.old) (S.faults source.new) }
        ensures too_much { result ≡ Err InputFault.TooMuch → 2 ^ 40 ≤ self.new.consumed }
        ensures later { S.faults source.old ≤ S.faults source.new }
    {
        let mut line = RoundLine::new(self.allocator());
        loop {
            if !self.fill(source)? {
                return Ok(Piece {
                    line: line.ended(false, most),
                    by_newline: false,
                });
            }
            let piece = self.take_chunk(line, most + 1)?;
            if piece.by_newline {
                return Ok(Piece {
                    line: piece.line.ended(true, most),
                    by_newline: true,
                });
            }
            line = piece.line;
        }
    }

    /// Reads the next line of the input, as `read_line_within` does, where it may have `LINE_LIMIT`
    /// bytes.
    pub fn read_line<S: Source>(&mut self, source: &mut S) -> Result<Piece, InputFault>
        ensures line { IfOk result (λ piece. Known
            (prepend_known self.old.bytes (S.left source.old))
            (prepend_known self.new.bytes (S.left source.new)) (TakesPiece piece)) }
        ensures short { IfOk result (λ piece. IsShort piece.line) }
        ensures advances { Advances (prepend_known self.old.bytes (S.left source.old))
            (prepend_known self.new.bytes (S.left source.new)) self.old.consumed self.new.consumed }
        ensures bounded { IsBounded self.new }
        ensures forward { IfOk result (λ piece. piece.by_newline ≡ true
            → self.old.consumed < self.new.consumed) }
        ensures at_end { IfOk result (λ piece. piece.by_newline ≡ false
            → (self.new.bytes ≡ []) × IsAtEnd (S.left source.new)) }
        ensures counted { CountsOn self.old (S.given source.old) self.new (S.given source.new) }
        ensures stopped { OnErr result (Known (prepend_known self.old.bytes (S.left source.old))
            (prepend_known self.new.bytes (S.left source.new)) StopsInLine) }
        ensures none { (result ≡ Err InputFault.Failed) ⊎ (result ≡ Err InputFault.TooMuch)
            → self.new.bytes ≡ [] }
        ensures failed { result ≡ Err InputFault.Failed
            → Rose (S.faults source.old) (S.faults source.new) }
        ensures too_much { result ≡ Err InputFault.TooMuch → 2 ^ 40 ≤ self.new.consumed }
        ensures later { S.faults source.old ≤ S.faults source.new }
    {
        self.read_line_within(source, LINE_LIMIT)
    }
}
