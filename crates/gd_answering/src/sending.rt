//! Answers are printed and sent on.
ghost use Rattle.std.specs.Prelude.{◌≡◌, ◌≤◌, ◌∷◌, ◌++◌, [], OnOk, OnErr, true};
ghost use Rattle.std.specs.Io.KnownBytes.{Appends};
ghost use Rattle.gd_base.specs.Counts.{Rose};
ghost use Rattle.gd_outside.specs.Gains.{GainsFront};
ghost use Rattle.gd_answering.specs.Texts.{answer_text};

use crate::answer::Answer;
use gd_outside::Failed;
use gd_outside::printing::write_line;
use gd_outside::sink::Sink;
use gd_reply::printing::print_failure;

/// Prints an answer and its newline. It takes no memory. `Failed`: the sink did, and a front of it
/// is printed.
fn print_answer<K: Sink>(sink: &mut K, answer: &Answer) -> Result<(), Failed>
    ensures all { OnOk result (Appends (K.held sink.old) (K.held sink.new)
        (answer_text answer.now ++ 10 ∷ [])) }
    ensures front { OnErr result (GainsFront (K.held sink.old) (K.held sink.new)
        (answer_text answer.now ++ 10 ∷ [])) }
    ensures failed { OnErr result (Rose (K.faults sink.old) (K.faults sink.new)) }
    ensures later { K.faults sink.old ≤ K.faults sink.new }
{
    match answer {
        Answer::Made(line) => write_line(sink, line),
        Answer::Fixed(line) => write_line(sink, line.as_bytes()),
        Answer::Failed { failure, line } => print_failure(sink, *failure, *line),
    }
}

/// Prints an answer and its newline, and sends on all that was printed. `Failed`: the sink did, and
/// a front of it is printed.
pub(crate) fn send_answer<K: Sink>(sink: &mut K, answer: &Answer) -> Result<(), Failed>
    ensures all { OnOk result (Appends (K.held sink.old) (K.held sink.new)
        (answer_text answer.now ++ 10 ∷ [])) }
    ensures sent { OnOk result (K.sent sink.new ≡ true) }
    ensures front { OnErr result (GainsFront (K.held sink.old) (K.held sink.new)
        (answer_text answer.now ++ 10 ∷ [])) }
    ensures failed { OnErr result (Rose (K.faults sink.old) (K.faults sink.new)) }
    ensures later { K.faults sink.old ≤ K.faults sink.new }
{
    print_answer(sink, answer)?;
    sink.flush()?;
    Ok(())
}
