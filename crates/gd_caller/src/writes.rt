//! The writes that are left to the caller.
ghost use Rattle.std.specs.Prelude.{◌≡◌, ◌≤◌, ◌<◌, ◌^◌, ◌∷◌, [], map};
ghost use Rattle.std.specs.List.{AllByRecursion};
ghost use Rattle.std.specs.Option.{is_some};
ghost use Rattle.gd_runs.specs.Side.{IsLeft, IsFresh};
ghost use Rattle.gd_core_laws.specs.Bounds.{kept_of};
ghost use Rattle.gd_round_lines.specs.Works.{write_of, MayBeWritten};
ghost use Rattle.gd_caller.specs.Writes.{WritesLeft};
ghost use Rattle.gd_caller.specs.Served.{LeftAreFresh};

use gd_disk::disk::Disk;
use gd_outside::clock::Clock;
use gd_round_lines::work::WriteLine;
use gd_writer::side::WriteSide;
use std::sync::Wait;

/// Whether something is kept of a line.
fn is_kept<D: Disk, C: Clock>(side: &WriteSide<D, C>, line: u64) -> bool
    ensures { result ≡ is_some (kept_of side.now.outcomes line) }
{
    side.outcome(line).is_some()
}

/// Carries a write line out, if nothing is kept of it.
fn write_one<D: Disk, C: Clock, R: Wait>(rt: &R, side: &mut WriteSide<D, C>, write: &WriteLine)
    requires may { MayBeWritten write.now }
    requires fresh { IsLeft side.old.outcomes write.now.line
        → IsFresh side.old.history side.old.doubt write.now.line }
    ensures { WritesLeft D.content D.moment D.images D.images_since D.faults C.may side.old side.new
        (write_of write.now ∷ []) }
{
    // A side says here what it keeps.
    let _stored = side.stored();
    if is_kept(side, write.line) {
        return;
    }

    // Where there is no memory for what it comes to, nothing was done, and nothing is kept.
    let _written = side.write(rt, write.line, &write.request, write.bytes);
}

/// Carries out, in their order, the write lines of which nothing is kept. One for which there is no
/// memory is passed over.
pub fn write_left<D: Disk, C: Clock, R: Wait>(
    rt: &R,
    side: &mut WriteSide<D, C>,
    writes: &[WriteLine],
)
    requires may { AllByRecursion MayBeWritten writes.now }
    requires fresh { LeftAreFresh (map write_of writes.now) side.old.history side.old.doubt
        side.old.outcomes }
    ensures { WritesLeft D.content D.moment D.images D.images_since D.faults C.may side.old side.new
        (map write_of writes.now) }
{
    // A side says here what it keeps.
    let _stored = side.stored();
    for write in writes {
        write_one(rt, side, write);
    }
}
