//! Rounds: they are read, answered and printed.
ghost use Rattle.std.specs.Prelude.{◌≡◌, ◌≢◌, ◌≤◌, ◌<◌, ◌+◌, ◌^◌, ◌⊎◌, ℕ, List, Bool, true, length};
ghost use Rattle.std.specs.Prelude.{Err, IfSome, OnOk, OnErr};
ghost use Rattle.std.specs.List.{All};
ghost use Rattle.std.specs.Option.{is_some};
ghost use Rattle.std.specs.Io.KnownBytes.{IsAtEnd};
ghost use Rattle.gd_base.specs.Counts.{Rose, RoseBy};
ghost use Rattle.gd_input.specs.Line.{IsShort};
ghost use Rattle.gd_input.specs.Taken.{TakesAtLeast};
ghost use Rattle.gd_threads.specs.Served.{state_at};
ghost use Rattle.gd_top.specs.Counted.{ServesKeeping};
ghost use Rattle.gd_top.specs.Lines.{AnswersLines};
ghost use Rattle.gd_top.specs.Opened.{HoldsAs, IsAtStart};
ghost use Rattle.gd_top.specs.Serves.{Serves, ServesFront, ServesRounds};

use crate::printing::print_replies;
use crate::stop::Stop;
use gd_disk::disk::Disk;
use gd_input::line::RoundLine;
use gd_input::reader::Reader;
use gd_outside::Failed;
use gd_outside::clock::Clock;
use gd_outside::gate::Gate;
use gd_outside::sink::Sink;
use gd_outside::source::Source;
use gd_threads::rounds::Rounds;
use std::alloc::Global;
use std::sync::Wait;
use std::thread::Threads;

/// Answers the lines of a round, prints what they come to and sends it on, also where it was not
/// printed in full. `Failed`: a front of it is printed.
fn answer_round<R: Threads + Wait + Sync, D: Disk + Send, K: Sink, C: Clock + Send, G: Gate>(
    rt: &R,
    alloc: Global,
    gate: &G,
    rounds: &mut Rounds<D, C>,
    lines: &[RoundLine],
    sink: &mut K,
) -> Result<(), Failed>
    requires lines { rounds.old.lines + length lines.now < 2 ^ 63 }
    requires short { All IsShort lines.now }
    ensures { AnswersLines D.content D.faults C.may lines.now rounds.old rounds.new
        (K.held sink.old) (K.held sink.new) (K.sent sink.new) (K.faults sink.old)
        (K.faults sink.new) result }
{
    let replies = rounds.answer_round(rt, alloc, gate, lines);
    let printed = print_replies(sink, &replies);
    let sent = sink.flush();
    printed?;
    sent?;
    Ok(())
}

/// Serves the whole input, round by round, from a run on that is before its first line. Its workers
/// are held where the gate holds them. `ReadFault` and `TooMuch`: the lines of the unfinished round
/// were not answered. `SinkFault`, `Memory`: what was printed is a front of what was due.
pub fn serve_rounds<
    R: Threads + Wait + Sync,
    D: Disk + Send,
    S: Source,
    K: Sink,
    C: Clock + Send,
    G: Gate,
>(
    rt: &R,
    alloc: Global,
    gate: &G,
    rounds: &mut Rounds<D, C>,
    source: &mut S,
    sink: &mut K,
) -> Result<(), Stop>
    requires { IsAtStart rounds.old }
    ensures done { OnOk result (IfSome (S.left source.old) (Serves (C.may rounds.old.side.clock)
        (λ loaded. loaded ≡ rounds.old.side.history.loaded)
        (HoldsAs (C.may rounds.old.side.clock) (state_at rounds.new.side))
        (RoseBy (D.faults rounds.old.side.log.disk) (D.faults rounds.new.side.log.disk))
        (K.held sink.old) (K.held sink.new))) }

    // The answers to reads were counted in what sessions keep.
    ensures served { OnOk result (IfSome (S.left source.old)
        (ServesKeeping (C.may rounds.old.side.clock)
        (λ loaded. loaded ≡ rounds.old.side.history.loaded)
        (HoldsAs (C.may rounds.old.side.clock) (state_at rounds.new.side))
        (RoseBy (D.faults rounds.old.side.log.disk) (D.faults rounds.new.side.log.disk))
        (K.held sink.old) (K.held sink.new) rounds.old.keeping rounds.new.keeping)) }
    ensures caches { length rounds.new.keeping.caches ≡ length rounds.old.keeping.caches }
    ensures at_end { OnOk result (IsAtEnd (S.left source.new)) }

    // At the end all that was printed is sent on, and at each stop but one of the sink all, or
    // nothing was printed.
    ensures sent { OnOk result (K.sent sink.new ≡ true) }
    ensures rounds_sent { result ≢ Err Stop.SinkFault → (sink.new ≡ sink.old)
        ⊎ (K.sent sink.new ≡ true) }
    ensures rounds { result ≡ Err Stop.ReadFault
        → IfSome (S.left source.old) (ServesRounds (C.may rounds.old.side.clock)
        (λ loaded. loaded ≡ rounds.old.side.history.loaded)
        (HoldsAs (C.may rounds.old.side.clock) (state_at rounds.new.side))
        (RoseBy (D.faults rounds.old.side.log.disk) (D.faults rounds.new.side.log.disk))
        (K.held sink.old) (K.held sink.new) (S.left source.new)) }
    ensures rounds_taken { result ≡ Err Stop.TooMuch
        → IfSome (S.left source.old) (ServesRounds (C.may rounds.old.side.clock)
        (λ loaded. loaded ≡ rounds.old.side.history.loaded)
        (HoldsAs (C.may rounds.old.side.clock) (state_at rounds.new.side))
        (RoseBy (D.faults rounds.old.side.log.disk) (D.faults rounds.new.side.log.disk))
        (K.held sink.old) (K.held sink.new) (S.left source.new)) }
    ensures front { OnErr result (IfSome (S.left source.old)
        (ServesFront (C.may rounds.old.side.clock)
        (λ loaded. loaded ≡ rounds.old.side.history.loaded)
        (HoldsAs (C.may rounds.old.side.clock) (state_at rounds.new.side))
        (RoseBy (D.faults rounds.old.side.log.disk) (D.faults rounds.new.side.log.disk))
        (K.held sink.old) (K.held sink.new))) }
    ensures loaded { rounds.new.side.history.loaded ≡ rounds.old.side.history.loaded }
    ensures told { is_some (D.content rounds.new.side.log.disk)
        ≡ is_some (D.content rounds.old.side.log.disk) }
    ensures read_fault { result ≡ Err Stop.ReadFault
        → Rose (S.faults source.old) (S.faults source.new) }
    ensures sink_fault { result ≡ Err Stop.SinkFault
        → Rose (K.faults sink.old) (K.faults sink.new) }
    ensures too_much { result ≡ Err Stop.TooMuch
        → TakesAtLeast (2 ^ 40) (S.left source.old) (S.left source.new) (S.given source.old)
        (S.given source.new) }
    ensures disk_later { D.faults rounds.old.side.log.disk ≤ D.faults rounds.new.side.log.disk }
    ensures sink_later { K.faults sink.old ≤ K.faults sink.new }
{
    let mut reader = Reader::new(alloc);
    loop {
        let round = reader.read_round(source)?;
        answer_round(rt, alloc, gate, rounds, &round.lines, sink)?;
        if round.ended {
            return Ok(());
        }
    }
}
