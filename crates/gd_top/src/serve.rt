//! The verb `serve`: lines are answered, round by round, over the store of a disk.
ghost use Rattle.std.specs.Prelude.{◌≡◌, ◌≤◌, ◌<◌, ◌^◌, ◌⊎◌, ◌∷◌, ◌++◌, [], ℕ, Option, length, true};
ghost use Rattle.std.specs.Prelude.{option_map, IfSome};
ghost use Rattle.std.specs.Option.{is_some};
ghost use Rattle.std.specs.Io.KnownBytes.{Appends, IsAtEnd};
ghost use Rattle.gd_base.specs.Counts.{Rose, RoseBy};
ghost use Rattle.gd_input.specs.Taken.{TakesAtLeast};
ghost use Rattle.gd_outside.specs.Gains.{GainsFront};
ghost use Rattle.gd_threads.specs.PassedOn.{first_kept};
ghost use Rattle.gd_threads.specs.Served.{state_at};
ghost use Rattle.gd_words.specs.Verbs.{serves};
ghost use Rattle.gd_top.specs.Ends.{IsIdle, Causes, SendsRounds, may_tell};
ghost use Rattle.gd_top.specs.Held.{Loads, Leaves, MayMean, DoesMean};
ghost use Rattle.gd_top.specs.Kept.{Keeps, StaysTold};
ghost use Rattle.gd_top.specs.Opened.{HoldsAs, IsAtStart};
ghost use Rattle.gd_top.specs.Counted.{PrintsServed, line_of};

use crate::pace::Pace;
use crate::printing::print_counts;
use crate::rounds::serve_rounds;
use crate::status::Status;
use gd_disk::disk::Disk;
use gd_outside::clock::Clock;
use gd_outside::gate::Gate;
use gd_outside::sink::Sink;
use gd_outside::source::Source;
use gd_threads::Keeping;
use gd_threads::rounds::Rounds;
use std::alloc::Global;
use std::sync::Wait;
use std::thread::Threads;

/// Prints the line of the counts of what sessions keep, and says how that ended.
fn print_kept<K: Sink>(keeping: &Keeping, sink: &mut K) -> Status
    ensures done { result ≡ Status.Done
        → Appends (K.held sink.old) (K.held sink.new) (line_of keeping.now ++ 10 ∷ []) }
    ensures front { result ≡ Status.SinkFault
        → GainsFront (K.held sink.old) (K.held sink.new) (line_of keeping.now ++ 10 ∷ []) }
    ensures ends { (result ≡ Status.Done) ⊎ (result ≡ Status.SinkFault) }
    ensures sent { result ≡ Status.Done → K.sent sink.new ≡ true }
    ensures failed { result ≡ Status.SinkFault → Rose (K.faults sink.old) (K.faults sink.new) }
    ensures later { K.faults sink.old ≤ K.faults sink.new }
{
    match print_counts(sink, keeping.hits(), keeping.reads(), keeping.refused()) {
        Ok(()) => Status::Done,
        Err(_failed) => Status::SinkFault,
    }
}

/// Prints the line of the counts, where sessions keep replies, and says how that ended.
fn finish<K: Sink>(keeping: &Keeping, sink: &mut K) -> Status
    requires sent { K.sent sink.old ≡ true }
    ensures off { keeping.now.caches ≡ [] → (result ≡ Status.Done) × (sink.new ≡ sink.old) }
    ensures done { length keeping.now.caches ≡ 64 → result ≡ Status.Done
        → Appends (K.held sink.old) (K.held sink.new) (line_of keeping.now ++ 10 ∷ []) }
    ensures front { result ≡ Status.SinkFault
        → GainsFront (K.held sink.old) (K.held sink.new) (line_of keeping.now ++ 10 ∷ []) }
    ensures ends { (result ≡ Status.Done) ⊎ (result ≡ Status.SinkFault) }
    ensures sent { result ≡ Status.Done → K.sent sink.new ≡ true }
    ensures failed { result ≡ Status.SinkFault → Rose (K.faults sink.old) (K.faults sink.new) }
    ensures later { K.faults sink.old ≤ K.faults sink.new }
{
    if keeping.is_on() {
        return print_kept(keeping, sink);
    }
    Status::Done
}

/// Serves the whole input, and says how that ended. Where sessions keep replies, the line of the
/// counts is printed behind those to the lines.
fn serve_all<
    R: Threads + Wait + Sync,
    D: Disk + Send,
    S: Source,
    K: Sink,
    C: Clock + Send,
    G: Gate,
>(
    rt: &R,
    alloc: Global,
    gate: &G,
    rounds: &mut Rounds<D, C>,
    source: &mut S,
    sink: &mut K,
) -> Status
    requires { IsAtStart rounds.old }
    ensures prints { (cache : Option ℕ) → IfSome cache (λ n. 0 < n)
        → rounds.old.keeping ≡ first_kept cache
        → PrintsServed cache result (C.may rounds.old.side.clock)
        (λ loaded. loaded ≡ rounds.old.side.history.loaded)
        (HoldsAs (C.may rounds.old.side.clock) (state_at rounds.new.side))
        (RoseBy (D.faults rounds.old.side.log.disk) (D.faults rounds.new.side.log.disk)) ⊥
        (S.left source.old) (S.left source.new) (K.held sink.old) (K.held sink.new) }
    ensures at_end { result ≡ Status.Done → IsAtEnd (S.left source.new) }
    ensures sent { result ≡ Status.Done → K.sent sink.new ≡ true }
    ensures rounds_sent { SendsRounds result K.sent sink.old sink.new }
    ensures causes { Causes result (Rose (S.faults source.old) (S.faults source.new))
        (Rose (K.faults sink.old) (K.faults sink.new)) ⊥
        (TakesAtLeast (2 ^ 40) (S.left source.old) (S.left source.new) (S.given source.old)
        (S.given source.new)) (λ _. ⊥) (λ _. ⊥) }
    ensures tells { may_tell serves result ≡ true }
    ensures loaded { rounds.new.side.history.loaded ≡ rounds.old.side.history.loaded }
    ensures told { is_some (D.content rounds.new.side.log.disk)
        ≡ is_some (D.content rounds.old.side.log.disk) }
    ensures later { D.faults rounds.old.side.log.disk ≤ D.faults rounds.new.side.log.disk }
{
    match serve_rounds(rt, alloc, gate, rounds, source, sink) {
        Ok(()) => finish(rounds.keeping(), sink),
        Err(stop) => Status::of_stop(stop),
    }
}

/// Opens the store that a disk holds, before the first line is read, and serves the whole input
/// over it at a pace. The disk is handed back, however it ends.
pub(crate) fn serve_over<
    R: Threads + Wait + Sync,
    D: Disk + Send,
    S: Source,
    K: Sink,
    C: Clock + Send + Drop,
    G: Gate,
>(
    rt: &R,
    alloc: Global,
    disk: D,
    pace: Pace,
    source: &mut S,
    sink: &mut K,
    clock: C,
    gate: &G,
) -> (Status, D)
    ensures prints { PrintsServed (option_map (λ n. n.value) pace.cache) result.0 (C.may clock)
        (Loads (D.content disk))
        (Leaves (C.may clock) (D.content disk) (D.images result.1))
        (RoseBy (D.faults disk) (D.faults result.1))
        (IsIdle source.old source.new sink.old sink.new
        × StaysTold (D.content disk) (D.content result.1) (D.images disk) (D.images result.1))
        (S.left source.old) (S.left source.new) (K.held sink.old) (K.held sink.new) }
    ensures at_end { result.0 ≡ Status.Done → IsAtEnd (S.left source.new) }
    ensures sent { result.0 ≡ Status.Done → K.sent sink.new ≡ true }
    ensures rounds_sent { SendsRounds result.0 K.sent sink.old sink.new }
    ensures causes { Causes result.0 (Rose (S.faults source.old) (S.faults source.new))
        (Rose (K.faults sink.old) (K.faults sink.new)) (Rose (D.faults disk) (D.faults result.1))
        (TakesAtLeast (2 ^ 40) (S.left source.old) (S.left source.new) (S.given source.old)
        (S.given source.new)) (MayMean (D.content disk)) (DoesMean (D.content disk)) }
    ensures tells { may_tell serves result.0 ≡ true }
    ensures kept { Keeps (D.content disk) (D.content result.1) (D.images disk) (D.images result.1) }
{
    match Rounds::start(
        rt,
        alloc,
        disk,
        clock,
        pace.budget,
        pace.workers,
        pace.cache,
    ) {
        Ok(mut rounds) => {
            let status = serve_all(rt, alloc, gate, &mut rounds, source, sink);
            let (disk, _clock) = rounds.close(rt);
            (status, disk)
        }
        Err((fault, disk, _clock)) => (Status::of_store(fault), disk),
    }
}
