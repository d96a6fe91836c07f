//! The verb `gen`: generated requests are served over the store of a disk, and the one line to
//! which the replies come is printed.
ghost use Rattle.std.specs.Prelude.{◌≡◌, ◌∷◌, ◌++◌, [], true, IfOk, OnOk, OnErr};
ghost use Rattle.std.specs.Io.KnownBytes.{Appends};
ghost use Rattle.gd_base.specs.Counts.{Rose, RoseBy};
ghost use Rattle.gd_outside.specs.Gains.{GainsFront};
ghost use Rattle.gd_gen.specs.Lines.{lines_of as generated};
ghost use Rattle.gd_gen.specs.Summary.{summary_of as sum_of};
ghost use Rattle.gd_words.specs.Verbs.{generates};
ghost use Rattle.gd_top.specs.Ends.{IsIdle, Causes, may_tell};
ghost use Rattle.gd_top.specs.Generates.{AnswersGenerated, PrintsSummary};
ghost use Rattle.gd_top.specs.Held.{Loads, Leaves, MayMean, DoesMean};
ghost use Rattle.gd_top.specs.Kept.{Keeps, StaysTold};
ghost use Rattle.gd_top.specs.Serves.{PrintsLines};
ghost use Rattle.gd_top.specs.Summed.{SumsOutput};

use crate::pace::Pace;
use crate::serve::serve_over;
use crate::status::Status;
use gd_base::memory::Memory;
use gd_disk::disk::Disk;
use gd_gen::lines::lines_of;
use gd_gen::summary::summary_of;
use gd_outside::Failed;
use gd_outside::clock::Clock;
use gd_outside::gate::Gate;
use gd_outside::memory::{MemorySink, MemorySource};
use gd_outside::printing::write_line;
use gd_outside::sink::Sink;
use gd_outside::source::Source;
use gd_words::reader::{BUDGET, WORKERS};
use gd_words::verbs::Generate;
use std::alloc::Global;
use std::sync::Wait;
use std::thread::Threads;

/// A source of the lines that a command generates, and an empty sink for the replies.
fn requests(alloc: Global, generate: &Generate) -> Result<(MemorySource, MemorySink), Memory>
    ensures lines { IfOk result (λ ends. ends.0.bytes
        ≡ generated generate.now.number generate.now.count) }
    ensures empty { IfOk result (λ ends. ends.1.bytes ≡ []) }
{
    let lines = lines_of(alloc, generate.number, generate.count.nodes())?;
    let source = MemorySource::new(alloc, &lines, &[])?;
    let output = MemorySink::new(alloc, &[])?;
    Ok((source, output))
}

/// Serves a whole input over the store that a disk holds, as `serve` does where its words name no
/// workers, no budget and no cache. The disk is handed back, however it ends.
fn serve_plainly<
    R: Threads + Wait + Sync,
    D: Disk + Send,
    S: Source,
    K: Sink,
    C: Clock + Send + Drop,
    G: Gate,
>(rt: &R, alloc: Global, disk: D, source: &mut S, sink: &mut K, clock: C, gate: &G) -> (Status, D)
    ensures prints { PrintsLines result.0 (C.may clock) (Loads (D.content disk))
        (Leaves (C.may clock) (D.content disk) (D.images result.1))
        (RoseBy (D.faults disk) (D.faults result.1))
        (IsIdle source.old source.new sink.old sink.new
        × StaysTold (D.content disk) (D.content result.1) (D.images disk) (D.images result.1))
        (S.left source.old) (S.left source.new) (K.held sink.old) (K.held sink.new) }
    ensures kept { Keeps (D.content disk) (D.content result.1) (D.images disk) (D.images result.1) }
{
    let pace = Pace::new(WORKERS, BUDGET, None);
    serve_over(rt, alloc, disk, pace, source, sink, clock, gate)
}

/// Serves the lines that a command generates over the store that a disk holds, as `serve` does where
/// its words name no workers and no budget, and gives what that printed. The disk is handed back,
/// however it ends. `Memory`: an allocation was refused, or the store was not opened.
fn outputs_over<R: Threads + Wait + Sync, D: Disk + Send, C: Clock + Send + Drop, G: Gate>(
    rt: &R,
    alloc: Global,
    disk: D,
    generate: &Generate,
    clock: C,
    gate: &G,
) -> (Result<MemorySink, Memory>, D)
    ensures output { IfOk result.0 (λ output. AnswersGenerated (C.may clock)
        (Loads (D.content disk)) (RoseBy (D.faults disk) (D.faults result.1))
        generate.now.number generate.now.count output.bytes) }
    ensures kept { Keeps (D.content disk) (D.content result.1) (D.images disk) (D.images result.1) }
{
    match requests(alloc, generate) {
        Ok((mut source, mut output)) => {
            let (status, disk) = serve_plainly(
                rt,
                alloc,
                disk,
                &mut source,
                &mut output,
                clock,
                gate,
            );
            match status {
                Status::Done => (Ok(output), disk),
                _ => (Err(Memory), disk),
            }
        }
        Err(refused) => (Err(refused), disk),
    }
}

/// Prints a line and its newline, and sends them on. `Failed`: a front of them is printed.
fn print_line<K: Sink>(sink: &mut K, line: &[u8]) -> Result<(), Failed>
    ensures all { OnOk result (Appends (K.held sink.old) (K.held sink.new) (line.now ++ 10 ∷ [])) }
    ensures front { OnErr result
        (GainsFront (K.held sink.old) (K.held sink.new) (line.now ++ 10 ∷ [])) }
    ensures sent { OnOk result (K.sent sink.new ≡ true) }
    ensures failed { OnErr result (Rose (K.faults sink.old) (K.faults sink.new)) }
{
    write_line(sink, line)?;
    sink.flush()?;
    Ok(())
}

/// Prints the line to which an output comes, and sends it on. `SinkFault`: a front of it is
/// printed. `Memory`: nothing is, since a line of the output is not ok, or an allocation was
/// refused.
fn print_summary<K: Sink>(alloc: Global, output: &[u8], sink: &mut K) -> Status
    ensures sums { SumsOutput result (sum_of output.now) (sink.new ≡ sink.old) (K.held sink.old)
        (K.held sink.new) }
    ensures sent { result ≡ Status.Done → K.sent sink.new ≡ true }
    ensures failed { result ≡ Status.SinkFault → Rose (K.faults sink.old) (K.faults sink.new) }
{
    match summary_of(alloc, output) {
        Ok(Some(line)) => match print_line(sink, &line) {
            Ok(()) => Status::Done,
            Err(_failed) => Status::SinkFault,
        },
        Ok(None) => Status::Memory,
        Err(_refused) => Status::Memory,
    }
}

/// Serves the lines that a command generates over the store that a disk holds, and prints the one
/// line to which the replies come. The disk is handed back, however it ends.
pub(crate) fn generate_over<
    R: Threads + Wait + Sync,
    D: Disk + Send,
    K: Sink,
    C: Clock + Send + Drop,
    G: Gate,
>(
    rt: &R,
    alloc: Global,
    disk: D,
    generate: &Generate,
    sink: &mut K,
    clock: C,
    gate: &G,
) -> (Status, D)
    ensures prints { PrintsSummary result.0 (C.may clock) (Loads (D.content disk))
        (RoseBy (D.faults disk) (D.faults result.1)) ⊥ generate.now.number generate.now.count
        (K.held sink.old) (K.held sink.new) }
    ensures sent { result.0 ≡ Status.Done → K.sent sink.new ≡ true }
    ensures causes { Causes result.0 ⊥ (Rose (K.faults sink.old) (K.faults sink.new)) ⊥ ⊥
        (MayMean (D.content disk)) (DoesMean (D.content disk)) }
    ensures tells { may_tell (generates generate.now.number generate.now.count)
        result.0 ≡ true }
    ensures kept { Keeps (D.content disk) (D.content result.1) (D.images disk) (D.images result.1) }
{
    let (served, disk) = outputs_over(rt, alloc, disk, generate, clock, gate);
    match served {
        Ok(output) => (print_summary(alloc, output.bytes(), sink), disk),
        Err(_refused) => (Status::Memory, disk),
    }
}
