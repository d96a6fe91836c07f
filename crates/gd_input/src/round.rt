//! Rounds of the input.
ghost use Rattle.std.specs.Prelude.{◌≡◌, ◌<◌, ◌≤◌, ◌^◌, ◌⊎◌, ℕ, List, Option, [], IfOk, true};
ghost use Rattle.std.specs.Prelude.{false, vec_len};
ghost use Rattle.std.specs.Io.KnownBytes.{prepend_known, IsAtEnd};
ghost use Rattle.std.specs.List.{All};
ghost use Rattle.gd_base.specs.Counts.{Rose};
ghost use Rattle.gd_input.specs.Line.{IsShort};

use crate::fault::InputFault;
use crate::line::RoundLine;
use crate::piece::Piece;
use crate::reader::Reader;
use gd_outside::source::Source;

/// The greatest number of lines in a round.
pub const ROUND_LIMIT: usize = 256;

/// The lines of a round that are not blank, in order, and whether the input ended with it.
#[derive(Debug, PartialEq, Eq, Drop)]
pub struct Round {
    pub lines: Vec<RoundLine>,
    pub ended: bool,
}

impl Reader {
    ghost use Rattle.gd_input.specs.Held.{IsBounded, CountsOn};
    ghost use Rattle.gd_input.specs.Pieces.{Known, Advances};
    ghost use Rattle.gd_input.specs.Rounds.{TakesRound, StopsInRound};

    /// Reads the next round of the input: its lines up to a blank line, the `ROUND_LIMIT`-th line
    /// or the input's end. No more is read than the round needs, but for what the buffer holds.
    /// `Failed`: the source did, and its count rose. `TooMuch`: 2^40 bytes of the input were taken,
    /// and it had not ended. After an `Err` the lines of the unfinished round are lost, and a
    /// further call goes on behind what was read of them.
    pub fn read_round<S: Source>(&mut self, source: &mut S) -> Result<Round, InputFault>
        // What is left begins with the lines of this round, and goes on with the rounds of what is
        // left now.
        ensures round { IfOk result (λ round. Known
            (prepend_known self.old.bytes (S.left source.old))
            (prepend_known self.new.bytes (S.left source.new)) (TakesRound round)) }
        ensures short { IfOk result (λ round. All IsShort round.lines.items) }
        ensures few { IfOk result (λ round. vec_len round.lines ≤ ROUND_LIMIT) }
        ensures at_end { IfOk result (λ round. round.ended ≡ true
            → (self.new.bytes ≡ []) × IsAtEnd (S.left source.new)) }
        ensures forward { IfOk result (λ round. round.ended ≡ false
            → self.old.consumed < self.new.consumed) }

        // At any outcome bytes are only taken off the front of what is left, and are counted.
        ensures advances { Advances (prepend_known self.old.bytes (S.left source.old))
            (prepend_known self.new.bytes (S.left source.new)) self.old.consumed self.new.consumed }
        // So it is with all that was taken since an earlier moment.
        ensures since { (first : Option (List ℕ)) (before : ℕ)
            → Advances first (prepend_known self.old.bytes (S.left source.old)) before
            self.old.consumed
            → Advances first (prepend_known self.new.bytes (S.left source.new)) before
            self.new.consumed }
        // What was taken is counted by the source.
        ensures counted { CountsOn self.old (S.given source.old) self.new (S.given source.new) }
        ensures bounded { IsBounded self.new }

        // Where the source failed or had too much, all that was taken is used up, and no further
        // round lies wholly in it.
        ensures stopped { (result ≡ Err InputFault.Failed) ⊎ (result ≡ Err InputFault.TooMuch)
            → (self.new.bytes ≡ []) × Known (prepend_known self.old.bytes (S.left source.old))
            (prepend_known self.new.bytes (S.left source.new)) StopsInRound }

        // Each fault has its cause.
        ensures failed { result ≡ Err InputFault.Failed
            → Rose (S.faults source.old) (S.faults source.new) }
        ensures too_much { result ≡ Err InputFault.TooMuch → 2 ^ 40 ≤ self.new.consumed }
        ensures later { S.faults source.old ≤ S.faults source.new }
    {
        let mut lines = Vec::new(self.allocator());
        while lines.len() < ROUND_LIMIT {
            let Piece { line, by_newline } = self.read_line(source)?;
            if line.is_blank() {
                return Ok(Round {
                    lines,
                    ended: !by_newline,
                });
            }
            lines.push(line)?;
            if !by_newline {
                return Ok(Round { lines, ended: true });
            }
        }
        Ok(Round {
            lines,
            ended: false,
        })
    }
}
