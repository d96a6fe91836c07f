//! A line is answered over a core that is open.
ghost use Rattle.std.specs.Prelude.{◌≡◌, ◌≤◌, ◌<◌, ◌+◌, ◌^◌, ℕ, List, IfOk, IfErr};
ghost use Rattle.std.specs.Prelude.{OnErr, MatchResult, true, false};
ghost use Rattle.std.specs.Option.{is_some};
ghost use Rattle.gd_runs.specs.Core as core;
ghost use Rattle.gd_sessions.specs.PassedOn.{one_member, Tells};
ghost use Rattle.gd_events.specs.Events.{event_view};
ghost use Rattle.gd_input.specs.Line.{IsKept, IsShort};
ghost use Rattle.gd_replay_laws.specs.Steps.{Takes};
ghost use Rattle.gd_replay_laws.specs.Runs.{LineOver, IsBounded, AreBelow};
ghost use Rattle.gd_runs.specs.Pace.{DueOf};
ghost use Rattle.gd_replay_laws.specs.Faults.{IsCounted};
ghost use Rattle.gd_replay_laws.specs.Paced.{Paces, LinePaces};
ghost use Rattle.gd_sessions.specs.Running.{core_state, left_now, Answers, GoesBy};
ghost use Rattle.gd_replay.specs.Stops.{StandsBefore, GoesAlong, IsLost};

use crate::lines::{refuse, refuse_long};
use gd_base::memory::Memory;
use gd_base::steps::Steps;
use gd_disk::disk::Disk;
use gd_events::event::{Event, event_from};
use gd_input::line::RoundLine;
use gd_journal::fault::JournalFault;
use gd_outside::clock::Clock;
use gd_reply::reply::Reply;
use gd_sessions::running::Running;
use std::alloc::Global;
use std::sync::Wait;

/// The event that steps are counted for.
struct Carried;

/// Whether an event opens the store again.
fn opens_again(event: &Event) -> bool
    ensures again { result ≡ true → event_view event.now ≡ core.reopen }
    ensures goes_by { result ≡ false → GoesBy (event_view event.now) }
{
    matches!(event, Event::Reopen)
}

/// Carries out an event, and counts its steps from nothing. Only the reply to one that opens the
/// store again may be wanting for want of memory; what is left then stands for the state before it
/// too. An error: the store was closed for it, and not opened again.
fn carry<R: Wait, D: Disk, C: Clock>(
    rt: &R,
    alloc: Global,
    running: Running<D, C>,
    line: u64,
    bytes: u64,
    event: Event,
) -> Result<(Running<D, C>, Result<Reply, Memory>), (JournalFault, D, C)>
    requires line { line < 2 ^ 63 }
    requires bytes { bytes ≤ 262_144 }
    requires bounded { IsBounded (event_view event) }
    requires below { AreBelow line (core_state running) }
    ensures takes { IfOk result (λ both.
        Answers (λ reply. Takes (is_some (D.content running.side.log.disk)) one_member
        (C.may running.side.clock) (core_state running) line bytes (event_view event) reply
        (core_state both.0)
        × IsCounted line reply (D.faults running.side.log.disk) (D.faults both.0.side.log.disk)
        × ((d : DueOf) → Paces one_member d (core_state running) line (event_view event) reply
        (core_state both.0) (left_now running) (left_now both.0)))
        both.1) }
    ensures unmade { IfOk result (λ both. Tells (D.content running.side.log.disk)
        → OnErr both.1 (StandsBefore (core_state running) (core_state both.0))) }
    ensures below { IfOk result (λ both. AreBelow (line + 1) (core_state both.0)) }
    ensures along { IfOk result (λ both. GoesAlong D.content D.faults C.may running.side
        both.0.side) }
    ensures lost { IfErr result (λ lost. IsLost D.content D.images D.faults running.side.log.disk
        (core_state running) lost.0 lost.1) }
{
    if opens_again(&event) {
        return running.reopen(rt, alloc, line);
    }
    let mut running = running;
    let mut steps: Steps<Carried> = Steps::new();
    let reply = running.step(rt, alloc, line, bytes, event, &mut steps);
    Ok((running, Ok(reply)))
}

/// Answers a line that is not blank.
pub(crate) fn answer<R: Wait, D: Disk, C: Clock>(
    rt: &R,
    alloc: Global,
    running: Running<D, C>,
    line: u64,
    text: RoundLine,
) -> Result<(Running<D, C>, Result<Reply, Memory>), (JournalFault, D, C)>
    requires line { line < 2 ^ 63 }
    requires short { IsShort text }
    requires below { AreBelow line (core_state running) }
    ensures answers { IfOk result (λ both. (piece : List ℕ)
        → IsKept 262_144 text piece
        → Answers (λ reply. LineOver (is_some (D.content running.side.log.disk)) one_member
        (C.may running.side.clock) (core_state running) line piece reply (core_state both.0)
        × IsCounted line reply (D.faults running.side.log.disk) (D.faults both.0.side.log.disk)
        × ((d : DueOf) → LinePaces one_member d (core_state running) line piece reply
        (core_state both.0) (left_now running) (left_now both.0)))
        both.1) }
    ensures unmade { IfOk result (λ both. Tells (D.content running.side.log.disk)
        → OnErr both.1 (StandsBefore (core_state running) (core_state both.0))) }
    ensures below { IfOk result (λ both. AreBelow (line + 1) (core_state both.0)) }
    ensures along { IfOk result (λ both. GoesAlong D.content D.faults C.may running.side
        both.0.side) }
    ensures lost { IfErr result (λ lost. IsLost D.content D.images D.faults running.side.log.disk
        (core_state running) lost.0 lost.1) }
{
    match text {
        RoundLine::Bytes(bytes) => match event_from(alloc, &bytes) {
            Ok(event) => carry(rt, alloc, running, line, bytes.len() as u64, event),
            Err(fault) => {
                let reply = refuse(alloc, line, fault);
                Ok((running, Ok(reply)))
            }
        },
        RoundLine::TooLong => {
            let reply = refuse_long(alloc, line);
            Ok((running, Ok(reply)))
        }
    }
}
