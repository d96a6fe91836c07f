//! Replies as they are printed.
ghost use Rattle.std.specs.Prelude.{◌≡◌, ◌≤◌, ◌∷◌, ◌++◌, [], codes, decimal, OnOk, OnErr};
ghost use Rattle.std.specs.Io.KnownBytes.{Appends};
ghost use Rattle.gd_base.specs.Counts.{Rose};
ghost use Rattle.gd_outside.specs.Gains.{GainsFront};
ghost use Rattle.gd_reply.specs.Replies.{failure_line, reply_text, late_front};
ghost use Rattle.gd_runs.specs.Explained.{late_line};

use crate::reply::{Failure, Reply};
use gd_outside::Failed;
use gd_outside::printing::{write_all, write_line};
use gd_outside::sink::Sink;
use itoa::Buffer;

/// Prints a number in decimal digits, and behind it the end of an object and its newline.
fn print_last_number<K: Sink>(sink: &mut K, n: u64) -> Result<(), Failed>
    ensures all { OnOk result (Appends (K.held sink.old) (K.held sink.new)
        (decimal n ++ codes "}" ++ 10 ∷ [])) }
    ensures front { OnErr result (GainsFront (K.held sink.old) (K.held sink.new)
        (decimal n ++ codes "}" ++ 10 ∷ [])) }
    ensures failed { OnErr result (Rose (K.faults sink.old) (K.faults sink.new)) }
    ensures later { K.faults sink.old ≤ K.faults sink.new }
{
    write_all(sink, Buffer::new().format(n).as_bytes())?;
    write_line(sink, b"}")?;
    Ok(())
}

/// Prints the line that tells a failure, and its newline. It takes no memory. `Failed`: the sink
/// did, and a front of it is printed.
pub fn print_failure<K: Sink>(sink: &mut K, failure: Failure, line: u64) -> Result<(), Failed>
    ensures all { OnOk result (Appends (K.held sink.old) (K.held sink.new)
        (failure_line failure line ++ 10 ∷ [])) }
    ensures front { OnErr result (GainsFront (K.held sink.old) (K.held sink.new)
        (failure_line failure line ++ 10 ∷ [])) }
    ensures failed { OnErr result (Rose (K.faults sink.old) (K.faults sink.new)) }
    ensures later { K.faults sink.old ≤ K.faults sink.new }
{
    write_all(sink, failure.front().as_bytes())?;
    print_last_number(sink, line)?;
    Ok(())
}

/// Prints the number of an entry, and what stands between it and the number of its line.
fn print_entry<K: Sink>(sink: &mut K, entry: u32) -> Result<(), Failed>
    ensures all { OnOk result (Appends (K.held sink.old) (K.held sink.new)
        (decimal entry ++ codes "},\"line\":")) }
    ensures front { OnErr result (GainsFront (K.held sink.old) (K.held sink.new)
        (decimal entry ++ codes "},\"line\":")) }
    ensures failed { OnErr result (Rose (K.faults sink.old) (K.faults sink.new)) }
    ensures later { K.faults sink.old ≤ K.faults sink.new }
{
    write_all(sink, Buffer::new().format(entry).as_bytes())?;
    write_all(sink, b"},\"line\":")?;
    Ok(())
}

/// Prints what stands before the number of the line where a write is stored and not shown yet.
fn print_late_front<K: Sink>(sink: &mut K, entry: u32) -> Result<(), Failed>
    ensures all { OnOk result (Appends (K.held sink.old) (K.held sink.new) (late_front entry)) }
    ensures front { OnErr result (GainsFront (K.held sink.old) (K.held sink.new)
        (late_front entry)) }
    ensures failed { OnErr result (Rose (K.faults sink.old) (K.faults sink.new)) }
    ensures later { K.faults sink.old ≤ K.faults sink.new }
{
    write_all(
        sink,
        b"{\"code\":\"/api/status/error\",\"error\":\"MemoryLate\",\"info\":{\"entry\":",
    )?;
    print_entry(sink, entry)?;
    Ok(())
}

/// Prints the line that tells that a write is this entry and not shown yet, and its newline. It
/// takes no memory.
fn print_late<K: Sink>(sink: &mut K, line: u64, entry: u32) -> Result<(), Failed>
    ensures all { OnOk result (Appends (K.held sink.old) (K.held sink.new)
        (late_line line entry ++ 10 ∷ [])) }
    ensures front { OnErr result (GainsFront (K.held sink.old) (K.held sink.new)
        (late_line line entry ++ 10 ∷ [])) }
    ensures failed { OnErr result (Rose (K.faults sink.old) (K.faults sink.new)) }
    ensures later { K.faults sink.old ≤ K.faults sink.new }
{
    print_late_front(sink, entry)?;
    print_last_number(sink, line)?;
    Ok(())
}

/// Prints a reply and its newline. It takes no memory. `Failed`: the sink did, and a front of it is
/// printed.
pub fn print_reply<K: Sink>(sink: &mut K, reply: &Reply) -> Result<(), Failed>
    ensures all { OnOk result (Appends (K.held sink.old) (K.held sink.new)
        (reply_text reply.now ++ 10 ∷ [])) }
    ensures front { OnErr result (GainsFront (K.held sink.old) (K.held sink.new)
        (reply_text reply.now ++ 10 ∷ [])) }
    ensures failed { OnErr result (Rose (K.faults sink.old) (K.faults sink.new)) }
    ensures later { K.faults sink.old ≤ K.faults sink.new }
{
    match reply {
        Reply::Line(line) => write_line(sink, line),
        Reply::Failed { failure, line } => print_failure(sink, *failure, *line),
        Reply::Late { line, entry } => print_late(sink, *line, *entry),
    }
}
