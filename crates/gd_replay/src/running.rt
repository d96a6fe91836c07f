//! The lines of an input are read, answered and printed, one after another.
ghost use Rattle.std.specs.Prelude.{◌≡◌, ◌≤◌, ◌<◌, ◌+◌, ◌++◌, ◌∷◌, ◌^◌, ℕ, List, []};
ghost use Rattle.std.specs.Prelude.{Err, IfOk, IfErr, MatchResult};
ghost use Rattle.std.specs.Io.KnownBytes.{Appends};
ghost use Rattle.std.specs.Option.{is_some};
ghost use Rattle.gd_base.specs.Counts.{Rose};
ghost use Rattle.gd_runs.specs.Legal.{batches};
ghost use Rattle.gd_input.specs.Line.{IsKept, IsShort};
ghost use Rattle.gd_sessions.specs.PassedOn.{Tells};
ghost use Rattle.gd_replay_laws.specs.Runs.{AreBelow};
ghost use Rattle.gd_reply.specs.Replies.{reply_text};
ghost use Rattle.gd_sessions.specs.Running.{core_state, left_now};
ghost use Rattle.gd_replay.specs.Stops.{Leaves, GoesAlong, IsHalt, IsCaused};
ghost use Rattle.gd_replay.specs.Kept.{HasBatches, KeepsAs};
ghost use Rattle.gd_outside.specs.Gains.{GainsFront};
ghost use Rattle.gd_replay.specs.Runs.{IsDue, IsUnmade, LinePrints, LineStops, PiecePrints};
ghost use Rattle.gd_replay.specs.Runs.{PieceStops};

use crate::answering::answer;
use crate::stop::Stop;
use gd_base::memory::Memory;
use gd_disk::disk::Disk;
use gd_input::line::RoundLine;
use gd_outside::clock::Clock;
use gd_outside::sink::Sink;
use gd_reply::printing::print_reply;
use gd_reply::reply::Reply;
use gd_sessions::running::Running;
use std::alloc::Global;
use std::sync::Wait;

/// Ends a core where a run stops.
pub(crate) fn halted<R: Wait, D: Disk, C: Clock>(
    rt: &R,
    running: Running<D, C>,
    stop: Stop,
) -> (Stop, D, C)
    ensures parts { result ≡ (stop, running.side.log.disk, running.side.clock) }
    ensures holds { Tells (D.content running.side.log.disk)
        → Leaves (D.images running.side.log.disk) (core_state running) }
{
    let (disk, clock) = running.close(rt);
    (stop, disk, clock)
}

/// Prints a reply, and ends the core where that fails, or where there was no memory for it.
fn print_or_halt<R: Wait, D: Disk, K: Sink, C: Clock>(
    rt: &R,
    running: Running<D, C>,
    reply: Result<Reply, Memory>,
    sink: &mut K,
) -> Result<Running<D, C>, (Stop, D, C)>
    ensures same { IfOk result (λ next. next ≡ running) }
    ensures printed { IfOk result (λ _. MatchResult reply
        (λ made. Appends (K.held sink.old) (K.held sink.new) (reply_text made ++ 10 ∷ []))
        (λ _. ⊥)) }
    ensures front { IfErr result (λ _. (line : List ℕ) → IsDue reply line
        → GainsFront (K.held sink.old) (K.held sink.new) (line ++ 10 ∷ [])) }
    ensures halt { IfErr result (λ halt. IsHalt halt.0
        (Rose (K.faults sink.old) (K.faults sink.new))
        (IsUnmade reply (K.held sink.old) (K.held sink.new))) }
    ensures disk { IfErr result (λ halt. halt.1 ≡ running.side.log.disk) }
    ensures holds { IfErr result (λ halt. Tells (D.content running.side.log.disk)
        → Leaves (D.images halt.1) (core_state running)) }
    ensures later { K.faults sink.old ≤ K.faults sink.new }
{
    match reply {
        Ok(reply) => match print_reply(sink, &reply) {
            Ok(()) => Ok(running),
            Err(_) => Err(halted(rt, running, Stop::SinkFault)),
        },
        Err(_) => Err(halted(rt, running, Stop::Memory)),
    }
}

/// Answers a line that is not blank, and prints what it comes to. An error: the run stops at it.
fn take_line<R: Wait, D: Disk, K: Sink, C: Clock>(
    rt: &R,
    alloc: Global,
    running: Running<D, C>,
    line: u64,
    text: RoundLine,
    sink: &mut K,
) -> Result<Running<D, C>, (Stop, D, C)>
    requires line { line < 2 ^ 63 }
    requires short { IsShort text }
    requires below { AreBelow line (core_state running) }
    ensures prints { IfOk result (λ next. (bytes : List ℕ)
        → IsKept 262_144 text bytes
        → LinePrints (is_some (D.content running.side.log.disk))
        (C.may running.side.clock) (core_state running) line bytes (core_state next)
        (K.held sink.old) (K.held sink.new)
        (D.faults running.side.log.disk) (D.faults next.side.log.disk)
        (left_now running) (left_now next)) }
    ensures below { IfOk result (λ next. AreBelow (line + 1) (core_state next)) }
    ensures along { IfOk result (λ next. GoesAlong D.content D.faults C.may running.side
        next.side) }
    ensures stops { IfErr result (λ halt. (bytes : List ℕ)
        → IsKept 262_144 text bytes
        → LineStops (is_some (D.content running.side.log.disk))
        (C.may running.side.clock) (core_state running) line bytes
        (λ s. Tells (D.content running.side.log.disk) → Leaves (D.images halt.1) s) halt.0
        (K.held sink.old) (K.held sink.new)
        (D.faults running.side.log.disk) (D.faults halt.1) (left_now running)) }
    ensures caused { IfErr result (λ halt. IsCaused halt.0
        (Rose (K.faults sink.old) (K.faults sink.new))
        (Rose (D.faults running.side.log.disk) (D.faults halt.1))) }
    ensures kept { IfErr result (λ halt. Tells (D.content running.side.log.disk)
        → KeepsAs (Err halt.0) (HasBatches (D.content halt.1) (D.images halt.1)
        (batches running.side.history)) (λ _. ⊥)) }
    ensures disk { IfErr result (λ halt. D.faults running.side.log.disk ≤ D.faults halt.1) }
    ensures later { K.faults sink.old ≤ K.faults sink.new }
{
    match answer(rt, alloc, running, line, text) {
        Ok((running, reply)) => print_or_halt(rt, running, reply, sink),
        Err((fault, disk, clock)) => Err((Stop::Lost(fault), disk, clock)),
    }
}

/// Takes a piece of the input, which is a line unless it is blank, and gives the number of the next
/// line with the core. An error: the run stops at it.
pub(crate) fn take_piece<R: Wait, D: Disk, K: Sink, C: Clock>(
    rt: &R,
    alloc: Global,
    running: Running<D, C>,
    line: u64,
    piece: RoundLine,
    sink: &mut K,
) -> Result<(Running<D, C>, u64), (Stop, D, C)>
    requires line { line < 2 ^ 63 }
    requires short { IsShort piece }
    requires below { AreBelow line (core_state running) }
    ensures prints { IfOk result (λ both. (bytes : List ℕ)
        → IsKept 262_144 piece bytes
        → PiecePrints (is_some (D.content running.side.log.disk))
        (C.may running.side.clock) (core_state running) line bytes (core_state both.0)
        both.1 (K.held sink.old) (K.held sink.new)
        (D.faults running.side.log.disk) (D.faults both.0.side.log.disk)
        (left_now running) (left_now both.0)) }
    ensures below { IfOk result (λ both. AreBelow both.1 (core_state both.0)) }
    ensures few { IfOk result (λ both. both.1 ≤ line + 1) }
    ensures along { IfOk result (λ both. GoesAlong D.content D.faults C.may running.side
        both.0.side) }
    ensures stops { IfErr result (λ halt. (bytes : List ℕ)
        → IsKept 262_144 piece bytes
        → PieceStops (is_some (D.content running.side.log.disk))
        (C.may running.side.clock) (core_state running) line bytes
        (λ s. Tells (D.content running.side.log.disk) → Leaves (D.images halt.1) s) halt.0
        (K.held sink.old) (K.held sink.new)
        (D.faults running.side.log.disk) (D.faults halt.1) (left_now running)) }
    ensures caused { IfErr result (λ halt. IsCaused halt.0
        (Rose (K.faults sink.old) (K.faults sink.new))
        (Rose (D.faults running.side.log.disk) (D.faults halt.1))) }
    ensures kept { IfErr result (λ halt. Tells (D.content running.side.log.disk)
        → KeepsAs (Err halt.0) (HasBatches (D.content halt.1) (D.images halt.1)
        (batches running.side.history)) (λ _. ⊥)) }
    ensures disk { IfErr result (λ halt. D.faults running.side.log.disk ≤ D.faults halt.1) }
    ensures later { K.faults sink.old ≤ K.faults sink.new }
{
    if piece.is_blank() {
        return Ok((running, line));
    }
    match take_line(rt, alloc, running, line, piece, sink) {
        Ok(next) => Ok((next, line + 1)),
        Err(halt) => Err(halt),
    }
}
