//! Replies as they are printed, and the line of the counts behind them.
ghost use Rattle.std.specs.Prelude.{◌≡◌, ◌≤◌, ◌-◌, ◌∷◌, ◌++◌, [], true, map, codes, decimal, OnOk};
ghost use Rattle.std.specs.Prelude.{OnErr};
ghost use Rattle.std.specs.Io.KnownBytes.{Appends};
ghost use Rattle.gd_base.specs.Counts.{Rose};
ghost use Rattle.gd_outside.specs.Gains.{GainsFront};
ghost use Rattle.gd_reply.specs.Replies.{reply_text};
ghost use Rattle.gd_round_lines.specs.Replies.{no_memory, reply_texts};
ghost use Rattle.gd_threads.specs.PassedOn.{printed};
ghost use Rattle.gd_top.specs.Counted.{counts_line};

use gd_outside::Failed;
use gd_outside::printing::{write_all, write_line};
use gd_outside::sink::Sink;
use gd_reply::printing::{print_failure, print_reply};
use gd_reply::reply::{Failure, Reply};
use gd_round_lines::replies::Replies;
use itoa::Buffer;

/// Prints a text and, behind it, a number in decimal digits.
fn print_number<K: Sink>(sink: &mut K, front: &str, n: u64) -> Result<(), Failed>
    ensures all { OnOk result (Appends (K.held sink.old) (K.held sink.new)
        (front.now ++ decimal n)) }
    ensures front { OnErr result (GainsFront (K.held sink.old) (K.held sink.new)
        (front.now ++ decimal n)) }
    ensures failed { OnErr result (Rose (K.faults sink.old) (K.faults sink.new)) }
    ensures later { K.faults sink.old ≤ K.faults sink.new }
{
    write_all(sink, front.as_bytes())?;
    write_all(sink, Buffer::new().format(n).as_bytes())?;
    Ok(())
}

/// Prints how many puts found no memory, and behind it the end of the line of counts and its
/// newline.
fn print_refused<K: Sink>(sink: &mut K, refused: u64) -> Result<(), Failed>
    ensures all { OnOk result (Appends (K.held sink.old) (K.held sink.new)
        ((codes ",\"refused\":" ++ decimal refused) ++ (codes "}}" ++ 10 ∷ []))) }
    ensures front { OnErr result (GainsFront (K.held sink.old) (K.held sink.new)
        ((codes ",\"refused\":" ++ decimal refused) ++ (codes "}}" ++ 10 ∷ []))) }
    ensures failed { OnErr result (Rose (K.faults sink.old) (K.faults sink.new)) }
    ensures later { K.faults sink.old ≤ K.faults sink.new }
{
    print_number(sink, ",\"refused\":", refused)?;
    write_line(sink, b"}}")?;
    Ok(())
}

/// Prints how many reads found their reply kept, and how many were answered, as the line of counts
/// begins.
fn print_hits<K: Sink>(sink: &mut K, hits: u64, reads: u64) -> Result<(), Failed>
    ensures all { OnOk result (Appends (K.held sink.old) (K.held sink.new)
        ((codes "{\"cache\":{\"hits\":" ++ decimal hits) ++ (codes ",\"reads\":" ++ decimal reads))) }
    ensures front { OnErr result (GainsFront (K.held sink.old) (K.held sink.new)
        ((codes "{\"cache\":{\"hits\":" ++ decimal hits) ++ (codes ",\"reads\":" ++ decimal reads))) }
    ensures failed { OnErr result (Rose (K.faults sink.old) (K.faults sink.new)) }
    ensures later { K.faults sink.old ≤ K.faults sink.new }
{
    print_number(sink, "{\"cache\":{\"hits\":", hits)?;
    print_number(sink, ",\"reads\":", reads)?;
    Ok(())
}

/// Prints the line of the counts of a run whose sessions keep replies, and its newline.
fn print_counts_line<K: Sink>(
    sink: &mut K,
    hits: u64,
    reads: u64,
    refused: u64,
) -> Result<(), Failed>
    ensures all { OnOk result (Appends (K.held sink.old) (K.held sink.new)
        (counts_line hits reads refused ++ 10 ∷ [])) }
    ensures front { OnErr result (GainsFront (K.held sink.old) (K.held sink.new)
        (counts_line hits reads refused ++ 10 ∷ [])) }
    ensures failed { OnErr result (Rose (K.faults sink.old) (K.faults sink.new)) }
    ensures later { K.faults sink.old ≤ K.faults sink.new }
{
    print_hits(sink, hits, reads)?;
    print_refused(sink, refused)?;
    Ok(())
}

/// Prints the line of the counts of a run whose sessions keep replies, and its newline, and sends
/// them on. It takes no memory. `Failed`: the sink did, and a front of it is printed.
pub fn print_counts<K: Sink>(
    sink: &mut K,
    hits: u64,
    reads: u64,
    refused: u64,
) -> Result<(), Failed>
    ensures all { OnOk result (Appends (K.held sink.old) (K.held sink.new)
        (counts_line hits reads refused ++ 10 ∷ [])) }
    ensures front { OnErr result (GainsFront (K.held sink.old) (K.held sink.new)
        (counts_line hits reads refused ++ 10 ∷ [])) }
    ensures sent { OnOk result (K.sent sink.new ≡ true) }
    ensures failed { OnErr result (Rose (K.faults sink.old) (K.faults sink.new)) }
    ensures later { K.faults sink.old ≤ K.faults sink.new }
{
    print_counts_line(sink, hits, reads, refused)?;
    sink.flush()?;
    Ok(())
}

/// Prints replies that were made, each with its newline.
fn print_made<K: Sink>(sink: &mut K, replies: &[Reply]) -> Result<(), Failed>
    ensures all { OnOk result (Appends (K.held sink.old) (K.held sink.new)
        (printed (map reply_text replies.now))) }
    ensures front { OnErr result (GainsFront (K.held sink.old) (K.held sink.new)
        (printed (map reply_text replies.now))) }
    ensures failed { OnErr result (Rose (K.faults sink.old) (K.faults sink.new)) }
    ensures later { K.faults sink.old ≤ K.faults sink.new }
{
    for reply in replies {
        print_reply(sink, reply)?;
    }
    Ok(())
}

/// Prints to each line from `first` up to `end` the reply that says that there was no memory, with
/// its newline.
fn print_no_memory<K: Sink>(sink: &mut K, first: u64, end: u64) -> Result<(), Failed>
    ensures all { OnOk result (Appends (K.held sink.old) (K.held sink.new)
        (printed (no_memory first (end - first)))) }
    ensures front { OnErr result (GainsFront (K.held sink.old) (K.held sink.new)
        (printed (no_memory first (end - first)))) }
    ensures failed { OnErr result (Rose (K.faults sink.old) (K.faults sink.new)) }
    ensures later { K.faults sink.old ≤ K.faults sink.new }
{
    for line in first..end {
        print_failure(sink, Failure::NoMemory, line)?;
    }
    Ok(())
}

/// Prints the replies to the lines of a round, each with its newline. `Failed`: the sink did, and a
/// front of them is printed.
pub fn print_replies<K: Sink>(sink: &mut K, replies: &Replies) -> Result<(), Failed>
    ensures all { OnOk result (Appends (K.held sink.old) (K.held sink.new)
        (printed (reply_texts replies.now))) }
    ensures front { OnErr result (GainsFront (K.held sink.old) (K.held sink.new)
        (printed (reply_texts replies.now))) }
    ensures failed { OnErr result (Rose (K.faults sink.old) (K.faults sink.new)) }
    ensures later { K.faults sink.old ≤ K.faults sink.new }
{
    match replies {
        Replies::Made(replies) => print_made(sink, replies.as_slice()),
        Replies::NoMemory { first, end } => print_no_memory(sink, *first, *end),
    }
}
