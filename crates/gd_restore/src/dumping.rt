//! The store of a disk is dumped.
ghost use Rattle.std.specs.Prelude.{◌≡◌, ◌≤◌, OnOk, true};
ghost use Rattle.std.specs.Option.{ForSome, is_some};
ghost use Rattle.gd_base.specs.Counts.{Rose};
ghost use Rattle.gd_bytes.specs.File.{meaning};
ghost use Rattle.gd_dump.specs.Sent.{AreEarly};
ghost use Rattle.gd_log.specs.Opening.{IsKept, Refuses};
ghost use Rattle.gd_restore.specs.Dumps.{Loads, DumpsAs, DumpsBy, IfNotOpened, IsSentOn};

use crate::stop::DumpStop;
use gd_disk::disk::Disk;
use gd_dump::write_dump;
use gd_log::opening::open_log;
use gd_outside::Failed;
use gd_outside::sink::Sink;
use gd_store::store::Store;
use std::alloc::Global;

/// How a dump ended that was sent on, or was not.
fn sent_on(sent: Result<(), Failed>) -> Result<(), DumpStop>
    ensures { IsSentOn sent result }
{
    match sent {
        Ok(()) => Ok(()),
        Err(_) => Err(DumpStop::SinkFault),
    }
}

/// Prints the dump of a store from a number on, and sends it on.
fn print_dump<K: Sink>(
    alloc: Global,
    store: &Store,
    from: u32,
    sink: &mut K,
) -> Result<(), DumpStop>
    requires { AreEarly store.now }
    ensures prints { DumpsAs result (λ loaded. loaded ≡ store.now) from (K.held sink.old)
        (K.held sink.new) (sink.new ≡ sink.old) }
    ensures opened { IfNotOpened result (λ _. ⊥) }
    ensures sent { OnOk result (K.sent sink.new ≡ true) }
    ensures caused { DumpsBy result (Rose (K.faults sink.old) (K.faults sink.new)) ⊥ }
    ensures later { K.faults sink.old ≤ K.faults sink.new }
{
    match write_dump(alloc, store, from, sink) {
        Ok(()) => {
            let sent = sink.flush();
            sent_on(sent)
        }
        Err(fault) => Err(DumpStop::of_dump(fault)),
    }
}

/// Dumps the store that a disk holds: opens it, prints its batches from a number on as a text, and
/// flushes the sink once, at the end. The disk comes back, however it ends.
///
/// `DumpFrom`: the store has fewer batches than `from`; nothing was printed. `SinkFault`,
/// `Memory`: a front of the dump was printed. `Unopened`: the store was not opened, for want of
/// memory too; nothing was printed.
pub fn dump<D: Disk, K: Sink>(
    alloc: Global,
    disk: D,
    from: u32,
    sink: &mut K,
) -> (Result<(), DumpStop>, D)
    // What is printed is the dump of a list for which the file stands, where it is told, or a front
    // of it; and that all was printed is sent on.
    ensures prints { DumpsAs result.0 (Loads (D.content disk)) from (K.held sink.old)
        (K.held sink.new) (sink.new ≡ sink.old) }
    ensures sent { OnOk result.0 (K.sent sink.new ≡ true) }

    // Each fault has its cause.
    ensures caused { DumpsBy result.0 (Rose (K.faults sink.old) (K.faults sink.new))
        (Rose (D.faults disk) (D.faults result.1)) }
    ensures later { K.faults sink.old ≤ K.faults sink.new }
    ensures disk { D.faults disk ≤ D.faults result.1 }

    // Opening keeps the file: a read and a stop give the same bytes, or what stands for the same
    // batches. What is said of a file that was not opened is so.
    ensures kept { ForSome (D.content disk)
        (λ file. IsKept D.content D.moment D.images D.images_since file disk result.1) }
    ensures refused { ForSome (D.content disk)
        (λ file. IfNotOpened result.0 (λ fault. Refuses fault (meaning file))) }
    ensures told { is_some (D.content result.1) ≡ is_some (D.content disk) }
{
    match open_log(alloc, disk) {
        Ok((log, store)) => {
            let end = print_dump(alloc, &store, from, sink);
            drop(store);
            (end, log.into_disk())
        }
        Err((fault, disk)) => (Err(DumpStop::Unopened(fault)), disk),
    }
}
