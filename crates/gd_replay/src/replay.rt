//! The whole run.
ghost use Rattle.std.specs.Prelude.{◌≡◌, ◌≤◌, ◌^◌, List, Ok, Err, true, OnOk, IfSome};
ghost use Rattle.std.specs.Option.{ForSome, is_some};
ghost use Rattle.std.specs.Io.KnownBytes.{IsAtEnd};
ghost use Rattle.gd_base.specs.Counts.{Rose};
ghost use Rattle.gd_prim.specs.declared.Batch.{Batch};
ghost use Rattle.gd_bytes.specs.File.{StandsFor, meaning};
ghost use Rattle.gd_input.specs.Taken.{TakesAtLeast};
ghost use Rattle.gd_log.specs.Opening.{IsKept, Refuses};
ghost use Rattle.gd_runs.specs.Core as core;
ghost use Rattle.gd_runs.specs.Legal.{batches};
ghost use Rattle.gd_replay_laws.specs.Paced.{AreWithin};
ghost use Rattle.gd_sessions.specs.PassedOn.{Tells};
ghost use Rattle.gd_sessions.specs.Running.{core_state, left_now};
ghost use Rattle.gd_replay.specs.Stops.{Leaves, RoseWith, IfUnopened, EndsAs, EndsBy, EndsSent};
ghost use Rattle.gd_replay.specs.Stops.{stop_of};
ghost use Rattle.gd_replay.specs.Kept.{HasBatches, KeepsAs};
ghost use Rattle.gd_replay.specs.Replays.{Loads, Replays, ReplaysTaken, ReplaysFront};

use crate::running::{halted, take_piece};
use crate::stop::Stop;
use gd_disk::disk::Disk;
use gd_input::fault::InputFault;
use gd_input::reader::Reader;
use gd_outside::Failed;
use gd_outside::clock::Clock;
use gd_outside::sink::Sink;
use gd_outside::source::Source;
use gd_sessions::running::Running;
use std::alloc::Global;
use std::sync::Wait;

/// Ends a core where all of the input was read.
fn ended<R: Wait, D: Disk, C: Clock>(rt: &R, running: Running<D, C>) -> (Result<(), Stop>, D, C)
    ensures parts { result ≡ (Ok tt, running.side.log.disk, running.side.clock) }
    ensures holds { Tells (D.content running.side.log.disk)
        → Leaves (D.images running.side.log.disk) (core_state running) }
{
    let (disk, clock) = running.close(rt);
    (Ok(()), disk, clock)
}

/// Ends a core where the input could not be read further.
fn stopped<R: Wait, D: Disk, C: Clock>(
    rt: &R,
    running: Running<D, C>,
    fault: InputFault,
) -> (Result<(), Stop>, D, C)
    ensures parts { result ≡ (Err (stop_of fault), running.side.log.disk, running.side.clock) }
    ensures holds { Tells (D.content running.side.log.disk)
        → Leaves (D.images running.side.log.disk) (core_state running) }
{
    let (stop, disk, clock) = halted(rt, running, Stop::of_input(fault));
    (Err(stop), disk, clock)
}

/// Reads the lines of an input to its end, answers each over a core that was just opened, and
/// prints its reply.
fn replay_lines<R: Wait, D: Disk, S: Source, K: Sink, C: Clock>(
    rt: &R,
    alloc: Global,
    running: Running<D, C>,
    source: &mut S,
    sink: &mut K,
) -> (Result<(), Stop>, D, C)
    requires opened { core_state running ≡ core.opened running.side.history.loaded }
    requires left { AreWithin (left_now running) (λ i. 0) }
    ensures ends { EndsAs result.0
        (IfSome (S.left source.old) (Replays
        (is_some (D.content running.side.log.disk)) (C.may running.side.clock)
        (λ loaded. loaded ≡ running.side.history.loaded)
        (λ s. Tells (D.content running.side.log.disk) → Leaves (D.images result.1) s)
        (RoseWith (D.faults running.side.log.disk) (D.faults result.1) result.0) (K.held sink.old)
        (K.held sink.new)))
        (IfSome (S.left source.old) (ReplaysTaken
        (is_some (D.content running.side.log.disk)) (C.may running.side.clock)
        (λ loaded. loaded ≡ running.side.history.loaded)
        (λ s. Tells (D.content running.side.log.disk) → Leaves (D.images result.1) s)
        (RoseWith (D.faults running.side.log.disk) (D.faults result.1) result.0) (K.held sink.old)
        (K.held sink.new)))
        (IfSome (S.left source.old) (ReplaysFront
        (is_some (D.content running.side.log.disk)) (C.may running.side.clock)
        (λ loaded. loaded ≡ running.side.history.loaded)
        (λ s. Tells (D.content running.side.log.disk) → Leaves (D.images result.1) s)
        (RoseWith (D.faults running.side.log.disk) (D.faults result.1) result.0) (K.held sink.old)
        (K.held sink.new)))
        ⊥ }
    ensures begun { IfUnopened result.0 ⊥ }
    ensures at_end { OnOk result.0 (IsAtEnd (S.left source.new)) }
    ensures caused { EndsBy result.0 (Rose (S.faults source.old) (S.faults source.new))
        (Rose (K.faults sink.old) (K.faults sink.new))
        (Rose (D.faults running.side.log.disk) (D.faults result.1))
        (TakesAtLeast (2 ^ 40) (S.left source.old) (S.left source.new) (S.given source.old)
        (S.given source.new)) }
    ensures kept { Tells (D.content running.side.log.disk)
        → KeepsAs result.0 (HasBatches (D.content result.1) (D.images result.1)
        (batches running.side.history)) (λ _. ⊥) }
    ensures disk { D.faults running.side.log.disk ≤ D.faults result.1 }
    ensures later { K.faults sink.old ≤ K.faults sink.new }
{
    let mut reader = Reader::new(alloc);
    let mut current = running;
    let mut line = 0;
    loop {
        match reader.read_line(source) {
            Ok(piece) => {
                let by_newline = piece.by_newline;
                match take_piece(rt, alloc, current, line, piece.line, sink) {
                    Ok((next, count)) => {
                        if by_newline {
                            current = next;
                            line = count;
                        } else {
                            return ended(rt, next);
                        }
                    }
                    Err((stop, disk, clock)) => return (Err(stop), disk, clock),
                }
            }
            Err(fault) => return stopped(rt, current, fault),
        }
    }
}

/// How a run ended whose output was sent on, or was not.
fn sent_on(end: Result<(), Stop>, sent: Result<(), Failed>) -> Result<(), Stop>
    ensures { EndsSent end sent result }
{
    match end {
        Ok(()) => match sent {
            Ok(()) => Ok(()),
            Err(_) => Err(Stop::SinkFault),
        },
        Err(stop) => Err(stop),
    }
}

/// Runs events over the store that a disk holds: opens it, reads the lines of the input to its end,
/// and prints one reply line for each that is not blank. The sink is flushed once, at the end. The
/// disk and the clock come back, however it ends.
pub fn replay<R: Wait, D: Disk, S: Source, K: Sink, C: Clock>(
    rt: &R,
    alloc: Global,
    disk: D,
    source: &mut S,
    sink: &mut K,
    clock: C,
) -> (Result<(), Stop>, D, C)
    // What is printed is what the definitions' core replies to the lines of the input, from some
    // batches on: to all of them, or where the run has stopped between two lines to those before,
    // or where it has stopped at a line a front of that. Over a disk that does not tell its content
    // a line that opens the store again gives a store of some batches, whose number its reply tells. The disk's count of faults rose by at least as many as
    // there are lines that tell one, and by one more where the store was lost by one. A file that
    // is told stands for these batches, and what is left on the disk for the state that the lines
    // make. No reading that began is unfinished too often: what is printed keeps the pace of what
    // the readings have left, which begins with the first number of each.
    ensures ends { EndsAs result.0
        (IfSome (S.left source.old) (Replays (is_some (D.content disk))
        (C.may clock) (Loads (D.content disk))
        (λ s. Tells (D.content disk) → Leaves (D.images result.1) s)
        (RoseWith (D.faults disk) (D.faults result.1) result.0) (K.held sink.old)
        (K.held sink.new)))
        (IfSome (S.left source.old) (ReplaysTaken (is_some (D.content disk))
        (C.may clock) (Loads (D.content disk))
        (λ s. Tells (D.content disk) → Leaves (D.images result.1) s)
        (RoseWith (D.faults disk) (D.faults result.1) result.0) (K.held sink.old)
        (K.held sink.new)))
        (IfSome (S.left source.old) (ReplaysFront (is_some (D.content disk))
        (C.may clock) (Loads (D.content disk))
        (λ s. Tells (D.content disk) → Leaves (D.images result.1) s)
        (RoseWith (D.faults disk) (D.faults result.1) result.0) (K.held sink.old)
        (K.held sink.new)))
        ((source.new ≡ source.old) × (sink.new ≡ sink.old)) }
    ensures at_end { OnOk result.0 (IsAtEnd (S.left source.new)) }

    // Whatever the disk tells, where the store was not opened nothing is read and nothing printed.
    ensures unopened { IfUnopened result.0 ((source.new ≡ source.old) × (sink.new ≡ sink.old)) }

    // Where all of the input was read, all that was printed is sent on.
    ensures sent { OnOk result.0 (K.sent sink.new ≡ true) }

    // Each stop has its cause.
    ensures caused { EndsBy result.0 (Rose (S.faults source.old) (S.faults source.new))
        (Rose (K.faults sink.old) (K.faults sink.new))
        (Rose (D.faults disk) (D.faults result.1))
        (TakesAtLeast (2 ^ 40) (S.left source.old) (S.left source.new) (S.given source.old)
        (S.given source.new)) }
    ensures disk { D.faults disk ≤ D.faults result.1 }

    // Of a file that is told is kept what it stood for, with further batches behind it; where the
    // store was not opened, a read and a stop give the same bytes, or what stands for the same
    // batches, and what is said of the file is so.
    ensures kept { ForSome (D.content disk) (λ file. KeepsAs result.0
        ((bs : List Batch) × StandsFor file bs × HasBatches (D.content result.1) (D.images result.1)
        bs)
        (λ fault. IsKept D.content D.moment D.images D.images_since file disk result.1
        × Refuses fault (meaning file))) }
{
    match Running::start(rt, alloc, disk, clock) {
        Ok(running) => {
            let (end, disk, clock) = replay_lines(rt, alloc, running, source, sink);
            let sent = sink.flush();
            (sent_on(end, sent), disk, clock)
        }
        Err((fault, disk, clock)) => (Err(Stop::Unopened(fault)), disk, clock),
    }
}
