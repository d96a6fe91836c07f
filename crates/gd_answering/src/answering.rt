//! The lines of an input are answered to its end.
ghost use Rattle.std.specs.Prelude.{◌≡◌, ◌≤◌, ◌^◌, ℕ, true, OnOk, IfSome};
ghost use Rattle.std.specs.Io.KnownBytes.{IsAtEnd};
ghost use Rattle.gd_base.specs.Counts.{Rose};
ghost use Rattle.gd_input.specs.Taken.{TakesAtLeast};
ghost use Rattle.gd_answering.specs.Answering.{AnswersAll, AnswersTaken, AnswersFront, Reaches};
ghost use Rattle.gd_answering.specs.Stops.{EndsAs, EndsBy, IfBetween};

use crate::answers::Answers;
use crate::running::take_piece;
use crate::stop::Stop;
use gd_input::reader::Reader;
use gd_outside::sink::Sink;
use gd_outside::source::Source;
use std::alloc::Global;

/// Reads the lines of an input to its end, has each answered that is not blank, one after another,
/// and prints the reply and a newline. All is sent on behind each reply, before the next line is
/// read.
///
/// `ReadFault`: the source failed. `SinkFault`: the sink did. `TooMuch`: 2^40 bytes of the input
/// were taken, and it had not ended. `Memory`: a line could not be read for want of memory.
pub fn answer_all<A: Answers, S: Source, K: Sink>(
    alloc: Global,
    answers: &mut A,
    source: &mut S,
    sink: &mut K,
) -> Result<(), Stop>
    // What is printed is a reply and a newline for each line of the input: for all of them, or
    // where no further line was read for those before, or where the sink failed a front of that.
    ensures ends { EndsAs result
        (IfSome (S.left source.old) (AnswersAll A.answers answers.old answers.new
        (K.held sink.old) (K.held sink.new)))
        (IfSome (S.left source.old) (AnswersTaken A.answers answers.old answers.new
        (K.held sink.old) (K.held sink.new)))
        (IfSome (S.left source.old) (AnswersFront A.answers answers.old answers.new
        (K.held sink.old) (K.held sink.new))) }

    // Whatever the source tells, what answers is made by lines alone.
    ensures reaches { Reaches A.answers answers.old answers.new }
    ensures at_end { OnOk result (IsAtEnd (S.left source.new)) }

    // Unless the sink failed, all that was printed is sent on, behind whichever line it ends.
    ensures sent { IfBetween result (K.sent sink.new ≡ true) }

    // Each stop has its cause.
    ensures caused { EndsBy result (Rose (S.faults source.old) (S.faults source.new))
        (Rose (K.faults sink.old) (K.faults sink.new))
        (TakesAtLeast (2 ^ 40) (S.left source.old) (S.left source.new) (S.given source.old)
        (S.given source.new)) }
    ensures source_later { S.faults source.old ≤ S.faults source.new }
    ensures sink_later { K.faults sink.old ≤ K.faults sink.new }
{
    sink.flush()?;
    let mut reader = Reader::new(alloc);
    let mut line = 0;
    loop {
        let piece = reader.read_line_within(source, A::most())?;
        let by_newline = piece.by_newline;
        line = take_piece(alloc, answers, line, piece.line, sink)?;
        if !by_newline {
            return Ok(());
        }
    }
}
