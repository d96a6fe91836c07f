//! The verb `restore`: a text of batches is read, and they are stored in the store of a disk.
ghost use Rattle.std.specs.Prelude.{◌≡◌, ◌^◌, true};
ghost use Rattle.std.specs.Io.KnownBytes.{IsAtEnd};
ghost use Rattle.gd_base.specs.Counts.{Rose};
ghost use Rattle.gd_input.specs.Taken.{TakesAtLeast};
ghost use Rattle.gd_words.specs.Verbs.{restores};
ghost use Rattle.gd_top.specs.Ends.{Causes, may_tell};
ghost use Rattle.gd_top.specs.Held.{Loads, MayMean, DoesMean};
ghost use Rattle.gd_top.specs.Kept.{Keeps, StaysTold};
ghost use Rattle.gd_top.specs.Restores.{LeavesBatches, RestoresText};
ghost use Rattle.gd_top.specs.Stops.{status_of_restore};

use crate::status::Status;
use gd_disk::disk::Disk;
use gd_outside::source::Source;
use gd_restore::restoring::restore;
use gd_restore::stop::RestoreStop;
use std::alloc::Global;

/// The status of a run that restored a text and ended so.
fn status_of(end: Result<(), RestoreStop>) -> Status
    ensures { result ≡ status_of_restore end }
{
    match end {
        Ok(()) => Status::Done,
        Err(RestoreStop::ReadFault) => Status::ReadFault,
        Err(RestoreStop::TooMuch) => Status::TooMuch,
        Err(RestoreStop::Memory) => Status::Memory,
        Err(RestoreStop::DiskFault) => Status::DiskFault,
        Err(RestoreStop::BadDump { offset }) => Status::BadDump { offset },
        Err(RestoreStop::DumpFrom { asked, have }) => Status::DumpFrom { asked, have },
        Err(RestoreStop::Unfit { batch }) => Status::Unfit { batch },
        Err(RestoreStop::Unopened(fault)) => Status::of_store(fault),
    }
}

/// Reads the whole input as a text of batches, and stores these behind those of the store that a
/// disk holds. The disk is handed back, however it ends.
pub(crate) fn restore_over<D: Disk, S: Source>(
    alloc: Global,
    disk: D,
    source: &mut S,
) -> (Status, D)
    ensures comes { RestoresText result.0 (Loads (D.content disk))
        (LeavesBatches (D.content disk) (D.images result.1)) ((source.new ≡ source.old)
        × StaysTold (D.content disk) (D.content result.1) (D.images disk) (D.images result.1))
        (S.left source.old) }
    ensures at_end { result.0 ≡ Status.Done → IsAtEnd (S.left source.new) }
    ensures causes { Causes result.0 (Rose (S.faults source.old) (S.faults source.new)) ⊥
        (Rose (D.faults disk) (D.faults result.1))
        (TakesAtLeast (2 ^ 40) (S.left source.old) (S.left source.new) (S.given source.old)
        (S.given source.new)) (MayMean (D.content disk)) (DoesMean (D.content disk)) }
    ensures tells { may_tell restores result.0 ≡ true }
    ensures kept { Keeps (D.content disk) (D.content result.1) (D.images disk) (D.images result.1) }
{
    let (end, disk) = restore(alloc, disk, source);
    (status_of(end), disk)
}
