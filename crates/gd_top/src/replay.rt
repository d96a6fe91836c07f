//! The verb `replay`: a run of events over the store of a disk.
ghost use Rattle.std.specs.Prelude.{◌≡◌, ◌^◌, true};
ghost use Rattle.std.specs.Io.KnownBytes.{IsAtEnd};
ghost use Rattle.std.specs.Option.{is_some};
ghost use Rattle.gd_base.specs.Counts.{Rose, RoseBy};
ghost use Rattle.gd_input.specs.Taken.{TakesAtLeast};
ghost use Rattle.gd_words.specs.Verbs.{replays};
ghost use Rattle.gd_threads.specs.PassedOn.{Tells};
ghost use Rattle.gd_replay.specs.Stops.{Leaves};
ghost use Rattle.gd_top.specs.Ends.{IsIdle, Causes, may_tell};
ghost use Rattle.gd_top.specs.Held.{Loads, MayMean, DoesMean};
ghost use Rattle.gd_top.specs.Kept.{Keeps, StaysTold};
ghost use Rattle.gd_top.specs.Replays.{PrintsEvents};
ghost use Rattle.gd_top.specs.Stops.{status_of_events};

use crate::status::Status;
use gd_disk::disk::Disk;
use gd_outside::clock::Clock;
use gd_outside::sink::Sink;
use gd_outside::source::Source;
use gd_replay::replay::replay as run_events;
use gd_replay::stop::Stop;
use std::alloc::Global;
use std::sync::Wait;

/// The status of a run of events that ended so.
fn status_of(end: Result<(), Stop>) -> Status
    ensures { result ≡ status_of_events end }
{
    match end {
        Ok(()) => Status::Done,
        Err(Stop::ReadFault) => Status::ReadFault,
        Err(Stop::SinkFault) => Status::SinkFault,
        Err(Stop::Memory) => Status::Memory,
        Err(Stop::TooMuch) => Status::TooMuch,
        Err(Stop::Unopened(fault)) => Status::of_store(fault),
        Err(Stop::Lost(fault)) => Status::of_store(fault),
    }
}

/// Replays the whole input over the store that a disk holds. The disk is handed back, however it
/// ends.
pub(crate) fn replay_over<R: Wait, D: Disk, S: Source, K: Sink, C: Clock + Drop>(
    rt: &R,
    alloc: Global,
    disk: D,
    source: &mut S,
    sink: &mut K,
    clock: C,
) -> (Status, D)
    ensures prints { PrintsEvents result.0 (is_some (D.content disk))
        (C.may clock) (Loads (D.content disk))
        (λ s. Tells (D.content disk) → Leaves (D.images result.1) s)
        (RoseBy (D.faults disk) (D.faults result.1))
        (IsIdle source.old source.new sink.old sink.new
        × StaysTold (D.content disk) (D.content result.1) (D.images disk) (D.images result.1))
        (S.left source.old) (K.held sink.old) (K.held sink.new) }
    ensures at_end { result.0 ≡ Status.Done → IsAtEnd (S.left source.new) }
    ensures sent { result.0 ≡ Status.Done → K.sent sink.new ≡ true }
    ensures causes { Causes result.0 (Rose (S.faults source.old) (S.faults source.new))
        (Rose (K.faults sink.old) (K.faults sink.new)) (Rose (D.faults disk) (D.faults result.1))
        (TakesAtLeast (2 ^ 40) (S.left source.old) (S.left source.new) (S.given source.old)
        (S.given source.new)) (MayMean (D.content disk)) (DoesMean (D.content disk)) }
    ensures tells { may_tell replays result.0 ≡ true }
    ensures kept { Keeps (D.content disk) (D.content result.1) (D.images disk) (D.images result.1) }
{
    let (end, disk, _clock) = run_events(rt, alloc, disk, source, sink, clock);
    (status_of(end), disk)
}
