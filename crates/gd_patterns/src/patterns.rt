//! The verb `templates`, over a disk.
ghost use Rattle.std.specs.Prelude.{◌≡◌, ◌≢◌, ◌≤◌, ◌^◌, true, OnOk, IfSome, List};
ghost use Rattle.std.specs.Io.KnownBytes.{IsAtEnd};
ghost use Rattle.std.specs.Option.{ForSome, is_some};
ghost use Rattle.gd_base.specs.Counts.{Rose};
ghost use Rattle.gd_bytes.specs.Disk.{LeavesOnly, IsUntouched};
ghost use Rattle.gd_bytes.specs.File.{meaning};
ghost use Rattle.gd_prim.specs.declared.Batch.{Batch};
ghost use Rattle.gd_input.specs.Taken.{TakesAtLeast};
ghost use Rattle.gd_journal.specs.declared.fault.JournalFault.TheVariants as journal;
ghost use Rattle.gd_log.specs.Opening.{IsKept, MeansOneOf, Refuses};
ghost use Rattle.gd_patterns.specs.Patterns.{Loads, AnsweredAll, AnsweredTaken, AnsweredFront};
ghost use Rattle.gd_patterns.specs.Stops.{EndsAs, EndsBy, IfBetween, IfOpened, IfUnopened};

use crate::newest::Newest;
use crate::stop::{PatternStop, ended};
use gd_answering::answering::answer_all;
use gd_disk::disk::Disk;
use gd_log::opening::open_log;
use gd_outside::sink::Sink;
use gd_outside::source::Source;
use gd_store::store::Store;
use std::alloc::Global;

/// Answers the lines of the input over a store that was just opened.
fn answer_opened<S: Source, K: Sink>(
    alloc: Global,
    store: Store,
    source: &mut S,
    sink: &mut K,
) -> Result<(), PatternStop>
    ensures ends { EndsAs result
        (IfSome (S.left source.old) (AnsweredAll (λ loaded. loaded ≡ store) (K.held sink.old)
        (K.held sink.new)))
        (IfSome (S.left source.old) (AnsweredTaken (λ loaded. loaded ≡ store) (K.held sink.old)
        (K.held sink.new)))
        (IfSome (S.left source.old) (AnsweredFront (λ loaded. loaded ≡ store) (K.held sink.old)
        (K.held sink.new)))
        ⊥ }
    ensures at_end { OnOk result (IsAtEnd (S.left source.new)) }
    ensures sent { IfBetween result (K.sent sink.new ≡ true) }
    ensures caused { EndsBy result (Rose (S.faults source.old) (S.faults source.new))
        (Rose (K.faults sink.old) (K.faults sink.new)) ⊥
        (TakesAtLeast (2 ^ 40) (S.left source.old) (S.left source.new) (S.given source.old)
        (S.given source.new)) }
{
    let mut newest = Newest::new(store);
    let end = answer_all(alloc, &mut newest, source, sink);
    ended(end)
}

/// Answers templates over the store that a disk holds: opens it, reads the lines of the input to
/// its end, and prints one line for each that is not blank, what its template is answered at the
/// newest state (`gd_tplang::answer_line`), or `! memory` where no memory was found for that. All
/// is sent on behind each. The disk comes back, however it ends, and nothing is written to it but
/// what opening cuts and completes.
///
/// `Unopened`: the store was not opened, for the fault that `open_log` tells; nothing was read then,
/// and nothing printed. `Stopped`: the input or the output stopped, as `answer_all` says.
pub fn answer_templates<D: Disk, S: Source, K: Sink>(
    alloc: Global,
    disk: D,
    source: &mut S,
    sink: &mut K,
) -> (Result<(), PatternStop>, D)
    // What is printed is the answer to each line of the input, over batches for which a file that
    // is told stands: to all of them, or where no further line was read to those before, or where
    // the sink failed a front of that. Where the store was not opened nothing is read or printed.
    ensures ends { EndsAs result.0
        (IfSome (S.left source.old) (AnsweredAll (Loads (D.content disk)) (K.held sink.old)
        (K.held sink.new)))
        (IfSome (S.left source.old) (AnsweredTaken (Loads (D.content disk)) (K.held sink.old)
        (K.held sink.new)))
        (IfSome (S.left source.old) (AnsweredFront (Loads (D.content disk)) (K.held sink.old)
        (K.held sink.new)))
        ((source.new ≡ source.old) × (sink.new ≡ sink.old)) }
    ensures at_end { OnOk result.0 (IsAtEnd (S.left source.new)) }

    // Unless the sink failed, all that was printed is sent on.
    ensures sent { IfBetween result.0 (K.sent sink.new ≡ true) }

    // Each stop has its cause.
    ensures caused { EndsBy result.0 (Rose (S.faults source.old) (S.faults source.new))
        (Rose (K.faults sink.old) (K.faults sink.new))
        (Rose (D.faults disk) (D.faults result.1))
        (TakesAtLeast (2 ^ 40) (S.left source.old) (S.left source.new) (S.given source.old)
        (S.given source.new)) }
    ensures refused { IfUnopened result.0 (λ fault.
        ForSome (D.content disk) (λ file. Refuses fault (meaning file))) }

    // Whatever the source tells, where the store was opened a file that is told stands for some
    // batches.
    ensures opened { IfOpened result.0 ((loaded : List Batch) × Loads (D.content disk) loaded) }
    ensures disk { D.faults disk ≤ D.faults result.1 }

    // Of a file that is told is kept what it stood for: a read and a stop give the same bytes, or
    // what stands for the same batches; and so does a stop at every moment.
    ensures kept { ForSome (D.content disk) (λ file.
        IsKept D.content D.moment D.images D.images_since file disk result.1) }
    ensures moments { ForSome (D.content disk) (λ file.
        LeavesOnly D.moment D.images D.images_since disk result.1 (MeansOneOf (D.images disk))) }
    ensures told { is_some (D.content result.1) ≡ is_some (D.content disk) }
    ensures untouched { IfUnopened result.0 (λ fault. fault ≢ journal.DiskFault
        → IsUntouched D.content D.moment D.images D.images_since disk result.1) }
{
    match open_log(alloc, disk) {
        Ok((log, store)) => {
            let end = answer_opened(alloc, store, source, sink);
            (end, log.into_disk())
        }
        Err((fault, disk)) => (Err(PatternStop::Unopened(fault)), disk),
    }
}
