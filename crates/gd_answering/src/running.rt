//! A piece of the input is answered.
ghost use Rattle.std.specs.Prelude.{◌≡◌, ◌≤◌, ◌<◌, ◌+◌, ◌^◌, ℕ, List, IfOk, OnOk, OnErr, true};
ghost use Rattle.gd_base.specs.Counts.{Rose};
ghost use Rattle.gd_input.specs.Line.{IsKept, HasAtMost};
ghost use Rattle.gd_answering.specs.Runs.{LinePrints, LineFront, PiecePrints, PieceFront};

use crate::answers::Answers;
use crate::sending::send_answer;
use gd_input::line::RoundLine;
use gd_outside::Failed;
use gd_outside::sink::Sink;
use std::alloc::Global;

/// Answers a line that is not blank, and sends the reply on. `Failed`: the sink did.
fn take_line<A: Answers, K: Sink>(
    alloc: Global,
    answers: &mut A,
    line: u64,
    text: RoundLine,
    sink: &mut K,
) -> Result<(), Failed>
    requires line { line < 2 ^ 63 }
    requires short { HasAtMost A.most text }
    ensures prints { OnOk result ((bytes : List ℕ) → IsKept A.most text bytes
        → LinePrints A.answers answers.old line bytes answers.new (K.held sink.old)
        (K.held sink.new)) }
    ensures sent { OnOk result (K.sent sink.new ≡ true) }
    ensures front { OnErr result ((bytes : List ℕ) → IsKept A.most text bytes
        → LineFront A.answers answers.old line bytes answers.new (K.held sink.old)
        (K.held sink.new)) }
    ensures failed { OnErr result (Rose (K.faults sink.old) (K.faults sink.new)) }
    ensures later { K.faults sink.old ≤ K.faults sink.new }
{
    let answer = answers.answer(alloc, line, text);
    send_answer(sink, &answer)?;
    Ok(())
}

/// Takes a piece of the input, which is a line unless it is blank, and gives the number of the next
/// line. `Failed`: the sink did.
pub(crate) fn take_piece<A: Answers, K: Sink>(
    alloc: Global,
    answers: &mut A,
    line: u64,
    piece: RoundLine,
    sink: &mut K,
) -> Result<u64, Failed>
    requires line { line < 2 ^ 63 }
    requires short { HasAtMost A.most piece }
    ensures prints { IfOk result (λ next. (bytes : List ℕ) → IsKept A.most piece bytes
        → PiecePrints A.answers answers.old line bytes answers.new next (K.held sink.old)
        (K.held sink.new)) }
    ensures few { IfOk result (λ next. next ≤ line + 1) }
    ensures sent { OnOk result (K.sent sink.old ≡ true → K.sent sink.new ≡ true) }
    ensures front { OnErr result ((bytes : List ℕ) → IsKept A.most piece bytes
        → PieceFront A.answers answers.old line bytes answers.new (K.held sink.old)
        (K.held sink.new)) }
    ensures failed { OnErr result (Rose (K.faults sink.old) (K.faults sink.new)) }
    ensures later { K.faults sink.old ≤ K.faults sink.new }
{
    if piece.is_blank() {
        return Ok(line);
    }
    take_line(alloc, answers, line, piece, sink)?;
    Ok(line + 1)
}
