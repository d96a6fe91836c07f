//! A round whose writes were carried out, and whose workers answered some of its reads.
ghost use Rattle.std.specs.Prelude.{◌≡◌, ◌<◌, ◌+◌, ◌^◌, [], length, map};
ghost use Rattle.std.specs.List.{AllByRecursion};
ghost use Rattle.gd_runs.specs.Legal.{batches};
ghost use Rattle.gd_reply.specs.Replies.{reply_text};
ghost use Rattle.gd_round_lines.specs.Works.{AreWithin};
ghost use Rattle.gd_round_lines.specs.Worked.{AreWorked};
ghost use Rattle.gd_lookup.specs.Keeping.{AllRight};
ghost use Rattle.gd_caller.specs.Counts.{CountsReads};
ghost use Rattle.gd_caller.specs.Joined.{IsOfWrites, AnswersJoined};

use crate::numbers::Standing;
use crate::reads::answer_reads;
use crate::told::tell_all;
use gd_base::steps::Steps;
use gd_disk::disk::Disk;
use gd_lookup::keeping::Keeping;
use gd_outside::clock::Clock;
use gd_reply::reply::Reply;
use gd_round_lines::work::Works;
use gd_round_lines::worked::Worked;
use gd_writer::side::WriteSide;
use std::alloc::Global;

/// Tells what was kept of the writes of a round, the first of whose lines is line `first`, and
/// answers its reads: each by what a worker kept of it at its place, if that fits, and else over
/// the working store at the greatest number that fits it, in slices of a budget of steps. No read
/// is answered by a worker below `begun`, how much was shown when the round began. Where there is
/// no memory for a reply, the line has the one that says so. Nothing is kept of a write from then
/// on. Where sessions keep replies, the caller looks a read up before it reads the store, and each
/// answer is counted, in the order of the lines.
pub fn answer_joined<D: Disk, C: Clock, L>(
    alloc: Global,
    side: &mut WriteSide<D, C>,
    first: u64,
    begun: u32,
    works: Works,
    worked: Vec<Option<Worked>>,
    budget: u64,
    keeping: &mut Keeping,
    steps: &mut Steps<L>,
) -> Vec<Reply>
    requires within { AreWithin first (first + length works.numbers.items) works }
    requires outcomes { AllByRecursion (IsOfWrites works.writes.items) side.old.outcomes }
    requires worked { AreWorked first works.reads.items (batches side.old.history)
        (length side.old.shown) worked.items }
    requires lines { first + length works.numbers.items < 2 ^ 63 }
    requires budget { 0 < budget }

    // What sessions keep is right over all that is shown, and stays so.
    requires kept { AllRight side.old.shown keeping.old.caches }
    ensures kept { AllRight side.old.shown keeping.new.caches }
    ensures side { side.new ≡ record side.old { outcomes = [] } }
    ensures answers { AnswersJoined first begun works side.old (map reply_text result.items) }
    ensures counted { CountsReads first (map reply_text works.replies.items)
        (map reply_text result.items) keeping.old works.reads.items keeping.new }
{
    // A side says here what it keeps.
    let _stored = side.stored();
    let Works {
        reads,
        writes,
        mut numbers,
        mut replies,
        ..
    } = works;
    let outcomes = side.take_outcomes(alloc);
    tell_all(first, outcomes, &mut numbers, &mut replies);
    let standing = Standing {
        store: side.store(),
        shown: side.shown(),
        first,
        writes: writes.as_slice(),
        numbers: numbers.as_slice(),
    };
    answer_reads(
        alloc,
        &standing,
        begun,
        reads,
        worked,
        budget,
        keeping,
        &mut replies,
        steps,
    );
    replies
}
