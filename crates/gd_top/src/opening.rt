//! The frame of every verb: the store that a command names is opened, the verb runs over its disk,
//! and the disk is put back.
ghost use Rattle.std.specs.Prelude.{◌≡◌, ◌≢◌, ◌^◌, ℕ, List, true, false, [], None, Some};
ghost use Rattle.std.specs.Io.KnownBytes.{IsAtEnd};
ghost use Rattle.gd_base.specs.Counts.{Rose, RoseBy};
ghost use Rattle.gd_bytes.specs.Disk.{HoldsSame};
ghost use Rattle.gd_input.specs.Taken.{TakesAtLeast};
ghost use Rattle.gd_words.specs.Verbs.{serves, caches, verb_in, file_of, reads_input};
ghost use Rattle.gd_words.specs.Verbs.{prints_output};
ghost use Rattle.gd_top.specs.Ends.{IsIdle, Causes, SendsRounds, RisesAt, may_tell};
ghost use Rattle.gd_top.specs.Held.{MayMean, MayMeanAt, DoesMean, told_at};
ghost use Rattle.gd_top.specs.Kept.{Keeps, StaysAt, StaysTold};
ghost use Rattle.gd_top.specs.Verbs.{PrintsOver, PrintsAt};

use crate::dump::dump_over;
use crate::follow::follow_over;
use crate::generate::generate_over;
use crate::pace::Pace;
use crate::replay::replay_over;
use crate::restore::restore_over;
use crate::serve::serve_over;
use crate::status::Status;
use crate::templates::templates_over;
use gd_base::text::Text;
use gd_disk::disk::Disk;
use gd_disk::shelf::Shelf;
use gd_disk::steady_disk::SteadyDisk;
use gd_outside::clock::Clock;
use gd_outside::gate::Gate;
use gd_outside::sink::Sink;
use gd_outside::source::Source;
use gd_words::verbs::Command;
use std::alloc::Global;
use std::sync::Wait;
use std::thread::Threads;

/// Runs the verb of a command over the store that a disk holds. The disk is handed back, however it
/// ends.
fn run_over<
    R: Threads + Wait + Sync,
    D: Disk + Send,
    S: Source,
    K: Sink,
    C: Clock + Send + Drop,
    G: Gate,
>(
    rt: &R,
    alloc: Global,
    command: &Command,
    disk: D,
    source: &mut S,
    sink: &mut K,
    clock: C,
    gate: &G,
) -> (Status, D)
    ensures prints { PrintsOver (verb_in command.now) result.0 (C.may clock)
        (D.content disk) (D.images result.1) (RoseBy (D.faults disk) (D.faults result.1))
        (IsIdle source.old source.new sink.old sink.new
        × StaysTold (D.content disk) (D.content result.1) (D.images disk) (D.images result.1))
        (S.left source.old) (S.left source.new) (K.held sink.old) (K.held sink.new) }
    ensures at_end { reads_input (verb_in command.now) ≡ true → result.0 ≡ Status.Done
        → IsAtEnd (S.left source.new) }
    ensures no_input { reads_input (verb_in command.now) ≡ false → source.new ≡ source.old }
    ensures sent { prints_output (verb_in command.now) ≡ true → result.0 ≡ Status.Done
        → K.sent sink.new ≡ true }
    ensures no_output { prints_output (verb_in command.now) ≡ false → sink.new ≡ sink.old }
    ensures rounds_sent { verb_in command.now ≡ serves
        → SendsRounds result.0 K.sent sink.old sink.new }
    ensures cached_sent { (n : ℕ) → verb_in command.now ≡ caches n
        → SendsRounds result.0 K.sent sink.old sink.new }
    ensures causes { Causes result.0 (Rose (S.faults source.old) (S.faults source.new))
        (Rose (K.faults sink.old) (K.faults sink.new))
        (Rose (D.faults disk) (D.faults result.1))
        (TakesAtLeast (2 ^ 40) (S.left source.old) (S.left source.new) (S.given source.old)
        (S.given source.new))
        (MayMean (D.content disk)) (DoesMean (D.content disk)) }
    ensures tells { may_tell (verb_in command.now) result.0 ≡ true }
    ensures kept { Keeps (D.content disk) (D.content result.1)
        (D.images disk) (D.images result.1) }
{
    match command {
        Command::Serve(settings) => {
            let pace = Pace::new(settings.workers, settings.budget, settings.cache);
            serve_over(rt, alloc, disk, pace, source, sink, clock, gate)
        }
        Command::Replay(_) => replay_over(rt, alloc, disk, source, sink, clock),
        Command::Dump(dump) => dump_over(alloc, disk, dump.from, sink),
        Command::Restore(_) => restore_over(alloc, disk, source),
        Command::Follow(_) => follow_over(alloc, disk, source, sink),
        Command::Templates(_) => templates_over(alloc, disk, source, sink),
        Command::Generate(generate) => generate_over(rt, alloc, disk, generate, sink, clock, gate),
    }
}

/// Runs the verb of a command over the store that a path of a shelf holds. The device is put back,
/// however it ends.
fn run_in_file<
    R: Threads + Wait + Sync,
    S: Source,
    K: Sink,
    F: Shelf,
    C: Clock + Send + Drop,
    G: Gate,
>(
    rt: &R,
    alloc: Global,
    command: &Command,
    path: &Text,
    source: &mut S,
    sink: &mut K,
    shelf: &mut F,
    clock: C,
    gate: &G,
) -> Status
    requires { (other : List ℕ) → F.is_out shelf.old other ≡ false }
    ensures back { (other : List ℕ) → F.is_out shelf.new other ≡ false }
    ensures prints { PrintsAt (verb_in command.now) result (C.may clock)
        (F.content shelf.old) (F.images shelf.new) (Some path.now)
        (RoseBy (F.faults shelf.old) (F.faults shelf.new))
        (IsIdle source.old source.new sink.old sink.new
        × StaysAt (F.content shelf.old) (F.content shelf.new) (F.images shelf.old)
        (F.images shelf.new) (Some path.now))
        (S.left source.old) (S.left source.new) (K.held sink.old) (K.held sink.new) }
    ensures at_end { reads_input (verb_in command.now) ≡ true → result ≡ Status.Done
        → IsAtEnd (S.left source.new) }
    ensures no_input { reads_input (verb_in command.now) ≡ false → source.new ≡ source.old }
    ensures sent { prints_output (verb_in command.now) ≡ true → result ≡ Status.Done
        → K.sent sink.new ≡ true }
    ensures no_output { prints_output (verb_in command.now) ≡ false → sink.new ≡ sink.old }
    ensures rounds_sent { verb_in command.now ≡ serves
        → SendsRounds result K.sent sink.old sink.new }
    ensures cached_sent { (n : ℕ) → verb_in command.now ≡ caches n
        → SendsRounds result K.sent sink.old sink.new }
    ensures causes { Causes result (Rose (S.faults source.old) (S.faults source.new))
        (Rose (K.faults sink.old) (K.faults sink.new))
        (Rose (F.faults shelf.old) (F.faults shelf.new))
        (TakesAtLeast (2 ^ 40) (S.left source.old) (S.left source.new) (S.given source.old)
        (S.given source.new))
        (MayMean (F.content shelf.old path.now)) (DoesMean (F.content shelf.old path.now)) }
    ensures tells { may_tell (verb_in command.now) result ≡ true }
    ensures kept { Keeps (F.content shelf.old path.now) (F.content shelf.new path.now)
        (F.images shelf.old path.now) (F.images shelf.new path.now) }
    ensures others { (other : List ℕ) → other ≢ path.now
        → HoldsSame (F.content shelf.old other) (F.content shelf.new other)
        (F.images shelf.old other) (F.images shelf.new other) }
{
    match shelf.open_at(path) {
        Ok(device) => {
            let (status, device) = run_over(rt, alloc, command, device, source, sink, clock, gate);
            shelf.put_back(path, device);
            status
        }
        Err(fault) => Status::of_shelf(fault),
    }
}

/// Runs the verb of a command over an empty store that is kept in memory alone, whatever a shelf
/// may hold.
fn run_in_memory<R: Threads + Wait + Sync, S: Source, K: Sink, C: Clock + Send + Drop, G: Gate>(
    rt: &R,
    alloc: Global,
    command: &Command,
    source: &mut S,
    sink: &mut K,
    clock: C,
    gate: &G,
) -> Status
    ensures prints { PrintsOver (verb_in command.now) result (C.may clock)
        (Some []) (λ _. ⊥) (RoseBy 0 0)
        (IsIdle source.old source.new sink.old sink.new)
        (S.left source.old) (S.left source.new) (K.held sink.old) (K.held sink.new) }
    ensures at_end { reads_input (verb_in command.now) ≡ true → result ≡ Status.Done
        → IsAtEnd (S.left source.new) }
    ensures no_input { reads_input (verb_in command.now) ≡ false → source.new ≡ source.old }
    ensures sent { prints_output (verb_in command.now) ≡ true → result ≡ Status.Done
        → K.sent sink.new ≡ true }
    ensures no_output { prints_output (verb_in command.now) ≡ false → sink.new ≡ sink.old }
    ensures rounds_sent { verb_in command.now ≡ serves
        → SendsRounds result K.sent sink.old sink.new }
    ensures cached_sent { (n : ℕ) → verb_in command.now ≡ caches n
        → SendsRounds result K.sent sink.old sink.new }
    ensures causes { Causes result (Rose (S.faults source.old) (S.faults source.new))
        (Rose (K.faults sink.old) (K.faults sink.new)) ⊥
        (TakesAtLeast (2 ^ 40) (S.left source.old) (S.left source.new) (S.given source.old)
        (S.given source.new)) (λ _. ⊥) (λ _. ⊥) }
    ensures tells { may_tell (verb_in command.now) result ≡ true }
{
    match SteadyDisk::new(alloc) {
        Ok(disk) => {
            let (status, _disk) = run_over(rt, alloc, command, disk, source, sink, clock, gate);
            status
        }
        Err(_refused) => Status::Memory,
    }
}

/// Runs the verb of a command over the store of the file that it names, or, where it names none,
/// over an empty one in memory. The device of the file is put back, however it ends.
pub fn run<R: Threads + Wait + Sync, S: Source, K: Sink, F: Shelf, C: Clock + Send + Drop, G: Gate>(
    rt: &R,
    alloc: Global,
    command: &Command,
    source: &mut S,
    sink: &mut K,
    shelf: &mut F,
    clock: C,
    gate: &G,
) -> Status
    requires { (path : List ℕ) → F.is_out shelf.old path ≡ false }
    ensures back { (path : List ℕ) → F.is_out shelf.new path ≡ false }

    // What the verb prints, as its clause of the top call has it.
    ensures prints { PrintsAt (verb_in command.now) result (C.may clock)
        (F.content shelf.old) (F.images shelf.new) (file_of command.now)
        (RisesAt (file_of command.now) (F.faults shelf.old) (F.faults shelf.new))
        (IsIdle source.old source.new sink.old sink.new
        × StaysAt (F.content shelf.old) (F.content shelf.new) (F.images shelf.old)
        (F.images shelf.new) (file_of command.now))
        (S.left source.old) (S.left source.new) (K.held sink.old) (K.held sink.new) }
    ensures at_end { reads_input (verb_in command.now) ≡ true → result ≡ Status.Done
        → IsAtEnd (S.left source.new) }
    ensures no_input { reads_input (verb_in command.now) ≡ false → source.new ≡ source.old }
    ensures sent { prints_output (verb_in command.now) ≡ true → result ≡ Status.Done
        → K.sent sink.new ≡ true }
    ensures no_output { prints_output (verb_in command.now) ≡ false → sink.new ≡ sink.old }
    ensures rounds_sent { verb_in command.now ≡ serves
        → SendsRounds result K.sent sink.old sink.new }
    ensures cached_sent { (n : ℕ) → verb_in command.now ≡ caches n
        → SendsRounds result K.sent sink.old sink.new }

    // Each status has its cause, and what is said of the file is so.
    ensures causes { Causes result (Rose (S.faults source.old) (S.faults source.new))
        (Rose (K.faults sink.old) (K.faults sink.new))
        (Rose (F.faults shelf.old) (F.faults shelf.new))
        (TakesAtLeast (2 ^ 40) (S.left source.old) (S.left source.new) (S.given source.old)
        (S.given source.new))
        (MayMeanAt (F.content shelf.old) (file_of command.now))
        (DoesMean (told_at (F.content shelf.old) (file_of command.now))) }
    ensures disk_steady { file_of command.now ≡ None → result ≢ Status.DiskFault }
    ensures tells { may_tell (verb_in command.now) result ≡ true }

    // The file keeps what it stood for, and the shelf every other path.
    ensures kept { (path : List ℕ) → file_of command.now ≡ Some path
        → Keeps (F.content shelf.old path) (F.content shelf.new path)
        (F.images shelf.old path) (F.images shelf.new path) }
    ensures others { (other : List ℕ) → file_of command.now ≢ Some other
        → HoldsSame (F.content shelf.old other) (F.content shelf.new other)
        (F.images shelf.old other) (F.images shelf.new other) }
{
    match command.file() {
        Some(path) => { run_in_file(rt, alloc, command, path, source, sink, shelf, clock, gate) }
        None => run_in_memory(rt, alloc, command, source, sink, clock, gate),
    }
}
