//! The verb `dump`: the batches of the store of a disk are written as a text.
ghost use Rattle.std.specs.Prelude.{◌≡◌, true};
ghost use Rattle.gd_base.specs.Counts.{Rose};
ghost use Rattle.gd_words.specs.Verbs.{dumps};
ghost use Rattle.gd_top.specs.Dumps.{PrintsDump};
ghost use Rattle.gd_top.specs.Ends.{Causes, may_tell};
ghost use Rattle.gd_top.specs.Held.{Loads, MayMean, DoesMean};
ghost use Rattle.gd_top.specs.Kept.{Keeps, StaysTold};
ghost use Rattle.gd_top.specs.Stops.{status_of_dump};

use crate::status::Status;
use gd_disk::disk::Disk;
use gd_outside::sink::Sink;
use gd_restore::dumping::dump;
use gd_restore::stop::DumpStop;
use std::alloc::Global;

/// The status of a dump that ended so.
fn status_of(end: Result<(), DumpStop>) -> Status
    ensures { result ≡ status_of_dump end }
{
    match end {
        Ok(()) => Status::Done,
        Err(DumpStop::SinkFault) => Status::SinkFault,
        Err(DumpStop::Memory) => Status::Memory,
        Err(DumpStop::DumpFrom { asked, have }) => Status::DumpFrom { asked, have },
        Err(DumpStop::Unopened(fault)) => Status::of_store(fault),
    }
}

/// Writes the batches of the store that a disk holds, from a number on. The disk is handed back,
/// however it ends.
pub(crate) fn dump_over<D: Disk, K: Sink>(
    alloc: Global,
    disk: D,
    from: u32,
    sink: &mut K,
) -> (Status, D)
    ensures prints { PrintsDump result.0 (Loads (D.content disk)) ((sink.new ≡ sink.old)
        × StaysTold (D.content disk) (D.content result.1) (D.images disk) (D.images result.1))
        from (K.held sink.old) (K.held sink.new) }
    ensures sent { result.0 ≡ Status.Done → K.sent sink.new ≡ true }
    ensures causes { Causes result.0 ⊥ (Rose (K.faults sink.old) (K.faults sink.new))
        (Rose (D.faults disk) (D.faults result.1)) ⊥ (MayMean (D.content disk))
        (DoesMean (D.content disk)) }
    ensures tells { may_tell (dumps from) result.0 ≡ true }
    ensures kept { Keeps (D.content disk) (D.content result.1) (D.images disk) (D.images result.1) }
{
    let (end, disk) = dump(alloc, disk, from, sink);
    (status_of(end), disk)
}
