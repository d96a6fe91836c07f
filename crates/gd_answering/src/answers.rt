//! Who answers lines.
ghost use Rattle.std.specs.Prelude.{◌≡◌, ◌≤◌, ◌<◌, ◌^◌, ℕ, List};
ghost use Rattle.gd_input.specs.Line.{IsKept, HasAtMost};
ghost use Rattle.gd_answering.specs.Texts.{answer_text};

use crate::answer::Answer;
use gd_input::line::RoundLine;
use std::alloc::Global;

/// Who answers lines, one after another. Each line may change it.
pub trait Answers {
    /// How many bytes a line may have.
    ghost most: { ℕ };

    /// What comes of a line: what answers before it, the number of the line, its bytes, the reply
    /// and what answers after it.
    ghost answers: { Self → ℕ → List ℕ → List ℕ → Self → Type 0 };

    /// How many bytes a line may have. One that has more is told as too long.
    fn most() -> usize
        ensures most { result ≡ most }
        ensures bound { result ≤ 2 ^ 30 };

    /// Answers line number `line`, which is not blank. It always has an answer; want of memory is
    /// one that needs none.
    fn answer(&mut self, alloc: Global, line: u64, text: RoundLine) -> Answer
        requires line { line < 2 ^ 63 }
        requires short { HasAtMost most text }
        ensures answers { (bytes : List ℕ) → IsKept most text bytes
            → answers self.old line bytes (answer_text result) self.new };
}
