//! The reads of a round.
ghost use Rattle.std.specs.Prelude.{◌≡◌, ◌⊎◌, ◌≤◌, ◌<◌, ◌+◌, ◌-◌, ◌^◌, ℕ, List, Some, None, length};
ghost use Rattle.std.specs.Prelude.{map, take, slice_get, slice_set, IfOk, IfSome};
ghost use Rattle.std.specs.List.{AllByRecursion};
ghost use Rattle.gd_prim.specs.declared.Batch.{Batch};
ghost use Rattle.gd_core_laws.specs.Writes.{RisesBy};
ghost use Rattle.gd_runs.specs.Request.{reply_of};
ghost use Rattle.gd_runs.specs.Side.{Told};
ghost use Rattle.gd_mql.specs.Requests.{read_set_view};
ghost use Rattle.gd_reply.specs.Replies.{reply_text};
ghost use Rattle.gd_lookup.specs.Keeping.{AllRight};
ghost use Rattle.gd_caller.specs.Told.{AreNumbers};
ghost use Rattle.gd_caller.specs.Counts.{CountsPut, CountsReads};
ghost use Rattle.gd_round_lines.specs.Works.{IsWriteWithin, IsReadWithin, IsKeyed, AreApart};
ghost use Rattle.gd_round_lines.specs.Worked.{AreWorked};
ghost use Rattle.gd_caller.specs.Joined.{IsOfWrites, AnswersReads};
ghost use Rattle.gd_caller.specs.Reads.{FitsRead, IsReplyTo, AnswersOne};

use crate::numbers::Standing;
use gd_base::memory::Memory;
use gd_base::steps::Steps;
use gd_lookup::keeping::Keeping;
use gd_read_at::whole::reply_at;
use gd_reply::reply::Reply;
use gd_round_lines::work::ReadLine;
use gd_round_lines::worked::Worked;
use std::alloc::Global;

/// How many sessions there are.
const SESSIONS: usize = 64;

/// Has a reply in place of another.
pub(crate) fn put(replies: &mut Vec<Reply>, at: usize, reply: Reply)
    requires { at < length replies.old.items }
    ensures { replies.new.items ≡ slice_set replies.old.items at reply }
{
    replies[at] = reply;
}

/// Takes what is kept of a place, if something is.
fn take_kept(worked: &mut Vec<Option<Worked>>, place: usize) -> Option<Worked>
    ensures taken { IfSome result (λ w. slice_get worked.old.items place ≡ Some (Some w)) }
    ensures left { worked.new.items ≡ slice_set worked.old.items place None }
{
    match worked.get_mut(place) {
        Some(kept) => kept.take(),
        None => None,
    }
}

/// What a worker kept of a read, if its number fits the read, and is not below the floor of its
/// session.
fn fitting(
    standing: &Standing<'_>,
    read: &ReadLine,
    floor: u32,
    worked: Option<Worked>,
) -> Option<Worked>
    requires writes { AllByRecursion
        (IsWriteWithin standing.now.first (standing.now.first + length standing.now.numbers.now))
        standing.now.writes.now }
    requires shown { IfSome worked (λ w. w.at ≤ standing.now.shown) }
    ensures same { IfSome result (λ w. worked ≡ Some w) }
    ensures fits { (outs : List Told) → AreNumbers standing.now.first outs standing.now.numbers.now
        → IfSome result (λ w. FitsRead standing.now.shown standing.now.writes.now outs read.now
        floor w) }
{
    match worked {
        Some(worked) if floor <= worked.at && standing.fits(read, worked.at) => Some(worked),
        _ => None,
    }
}

/// The reply line to a read at a number that is shown: what its session keeps of it, or else what
/// the store says. `Memory`: an allocation was refused.
fn line_at<L>(
    alloc: Global,
    standing: &Standing<'_>,
    keeping: &Keeping,
    read: &ReadLine,
    at: u32,
    budget: u64,
    steps: &mut Steps<L>,
) -> Result<Vec<u8>, Memory>
    requires there { at ≤ standing.now.shown }
    requires shown { standing.now.shown ≤ length standing.now.store.now }
    requires line { read.now.line < 2 ^ 63 }
    requires budget { 0 < budget }
    requires keyed { IsKeyed read.now }
    requires kept { AllRight (take standing.now.shown standing.now.store.now) keeping.now.caches }
    ensures { IfOk result (λ bytes. bytes.items ≡ reply_of standing.now.store.now at read.now.line
        (read_set_view read.now.request)) }
{
    let found = keeping.find(alloc, read.session, &read.key, at, read.line, &read.request)?;
    if let Some(bytes) = found {
        return Ok(bytes);
    }
    let request = read.request.copy()?;
    reply_at(alloc, standing.store, at, read.line, request, budget, steps)
}

/// Has the reply to a read in the place of its line, and counts it for its session.
fn settle(
    alloc: Global,
    first: u64,
    read: ReadLine,
    reply: Vec<u8>,
    keeping: &mut Keeping,
    replies: &mut Vec<Reply>,
)
    requires read { IsReadWithin first (first + length replies.old.items) read }
    requires lines { first + length replies.old.items < 2 ^ 63 }
    ensures replies { map reply_text replies.new.items ≡ slice_set (map reply_text replies.old.items)
        (read.line - first) reply.items }
    ensures counted { CountsPut first read (map reply_text replies.old.items)
        (map reply_text replies.new.items) keeping.old keeping.new }
    ensures right { (batches : List Batch) (at : ℕ) → at ≤ length batches → at < 2 ^ 32
        → reply.items ≡ reply_of batches at read.line (read_set_view read.request)
        → AllRight batches keeping.old.caches → AllRight batches keeping.new.caches }
    ensures count { length replies.new.items ≡ length replies.old.items }
{
    let ReadLine {
        line,
        session,
        key,
        ..
    } = read;
    keeping.count(alloc, session, key, line, reply.as_slice());
    put(replies, (line - first) as usize, Reply::Line(reply));
}

/// Answers a read at a number. Where there is no memory for that, its reply stays.
fn answer_at<L>(
    alloc: Global,
    standing: &Standing<'_>,
    read: ReadLine,
    at: u32,
    budget: u64,
    keeping: &mut Keeping,
    replies: &mut Vec<Reply>,
    steps: &mut Steps<L>,
)
    requires there { at ≤ standing.now.shown }
    requires shown { standing.now.shown ≤ length standing.now.store.now }
    requires read { IsReadWithin standing.now.first (standing.now.first + length replies.old.items)
        read }
    requires lines { standing.now.first + length replies.old.items < 2 ^ 63 }
    requires budget { 0 < budget }
    requires kept { AllRight (take standing.now.shown standing.now.store.now) keeping.old.caches }
    ensures replies { (map reply_text replies.new.items ≡ map reply_text replies.old.items)
        ⊎ (map reply_text replies.new.items ≡ slice_set (map reply_text replies.old.items)
        (read.line - standing.now.first)
        (reply_of standing.now.store.now at read.line (read_set_view read.request))) }
    ensures counted { CountsPut standing.now.first read (map reply_text replies.old.items)
        (map reply_text replies.new.items) keeping.old keeping.new }
    ensures kept { AllRight (take standing.now.shown standing.now.store.now) keeping.new.caches }
    ensures count { length replies.new.items ≡ length replies.old.items }
{
    match line_at(alloc, standing, keeping, &read, at, budget, steps) {
        Ok(bytes) => settle(alloc, standing.first, read, bytes, keeping, replies),
        Err(_) => (),
    }
}

/// Has what a worker kept of a read, at a number that is shown, in the place of its line, and counts
/// it for its session. From then on the floor of the session is that number.
fn settle_worked(
    alloc: Global,
    standing: &Standing<'_>,
    read: ReadLine,
    at: u32,
    reply: Vec<u8>,
    floors: &mut [u32],
    keeping: &mut Keeping,
    replies: &mut Vec<Reply>,
)
    requires there { at ≤ standing.now.shown }
    requires shown { standing.now.shown ≤ length standing.now.store.now }
    requires answers { reply.items ≡ reply_of (take standing.now.shown standing.now.store.now) at
        read.line (read_set_view read.request) }
    requires read { IsReadWithin standing.now.first (standing.now.first + length replies.old.items)
        read }
    requires floors { length floors.old ≡ 64 }
    requires lines { standing.now.first + length replies.old.items < 2 ^ 63 }
    requires kept { AllRight (take standing.now.shown standing.now.store.now) keeping.old.caches }
    ensures floors { floors.new ≡ slice_set floors.old read.session at }
    ensures many { length floors.new ≡ 64 }
    ensures replies { map reply_text replies.new.items ≡ slice_set (map reply_text replies.old.items)
        (read.line - standing.now.first) reply.items }
    ensures counted { CountsPut standing.now.first read (map reply_text replies.old.items)
        (map reply_text replies.new.items) keeping.old keeping.new }
    ensures kept { AllRight (take standing.now.shown standing.now.store.now) keeping.new.caches }
    ensures count { length replies.new.items ≡ length replies.old.items }
{
    floors[read.session as usize] = at;
    settle(alloc, standing.first, read, reply, keeping, replies);
}

/// Answers a read by what a worker kept of it, if that fits, and else at the greatest number that
/// fits it. From then on the floor of its session is not below that number. The answer is counted
/// for its session, if replies are kept.
fn answer_read<L>(
    alloc: Global,
    standing: &Standing<'_>,
    read: ReadLine,
    worked: Option<Worked>,
    floors: &mut [u32],
    budget: u64,
    keeping: &mut Keeping,
    replies: &mut Vec<Reply>,
    steps: &mut Steps<L>,
)
    requires shown { standing.now.shown ≤ length standing.now.store.now }
    requires writes { AllByRecursion
        (IsWriteWithin standing.now.first (standing.now.first + length standing.now.numbers.now))
        standing.now.writes.now }
    requires read { IsReadWithin standing.now.first (standing.now.first + length replies.old.items)
        read }
    requires worked { IfSome worked (IsReplyTo standing.now.store.now standing.now.shown read) }
    requires floors { length floors.old ≡ 64 }
    requires lines { standing.now.first + length replies.old.items < 2 ^ 63 }
    requires budget { 0 < budget }
    requires kept { AllRight (take standing.now.shown standing.now.store.now) keeping.old.caches }
    ensures answers { (outs : List Told)
        → AreNumbers standing.now.first outs standing.now.numbers.now
        → AnswersOne standing.now.first standing.now.store.now standing.now.shown
        standing.now.writes.now outs read worked floors.old floors.new
        (map reply_text replies.old.items) (map reply_text replies.new.items) }
    ensures counted { CountsPut standing.now.first read (map reply_text replies.old.items)
        (map reply_text replies.new.items) keeping.old keeping.new }
    ensures kept { AllRight (take standing.now.shown standing.now.store.now) keeping.new.caches }
    ensures floors { length floors.new ≡ 64 }
    ensures count { length replies.new.items ≡ length replies.old.items }
{
    let session = read.session as usize;
    let floor = floors[session];
    match fitting(standing, &read, floor, worked) {
        Some(kept) => settle_worked(
            alloc, standing, read, kept.at, kept.reply, floors, keeping, replies,
        ),
        None => {
            let at = standing.least_later(&read);
            floors[session] = floor.max(at);
            answer_at(alloc, standing, read, at, budget, keeping, replies, steps);
        }
    }
}

/// Answers reads in the order of their lines, each by what a worker kept of it, if that fits, and
/// else at the greatest number that fits it. Where there is no memory for one, its reply stays. No
/// number is below `begun`, how much was shown when the round began. Each answer is counted for its
/// session, if replies are kept.
pub(crate) fn answer_reads<L>(
    alloc: Global,
    standing: &Standing<'_>,
    begun: u32,
    mut reads: Vec<ReadLine>,
    mut worked: Vec<Option<Worked>>,
    budget: u64,
    keeping: &mut Keeping,
    replies: &mut Vec<Reply>,
    steps: &mut Steps<L>,
)
    requires shown { standing.now.shown ≤ length standing.now.store.now }
    requires writes { AllByRecursion
        (IsWriteWithin standing.now.first (standing.now.first + length standing.now.numbers.now))
        standing.now.writes.now }
    requires reads { AllByRecursion (IsReadWithin standing.now.first
        (standing.now.first + length replies.old.items)) reads.items }
    requires rise { RisesBy (λ r. r.line) reads.items }
    requires apart { AreApart reads.items standing.now.writes.now }
    requires worked { AreWorked standing.now.first reads.items standing.now.store.now
        standing.now.shown worked.items }
    requires lines { standing.now.first + length replies.old.items < 2 ^ 63 }
    requires budget { 0 < budget }
    requires kept { AllRight (take standing.now.shown standing.now.store.now) keeping.old.caches }
    ensures answers { (outs : List Told)
        → AreNumbers standing.now.first outs standing.now.numbers.now
        → AllByRecursion (IsOfWrites standing.now.writes.now) outs
        → AnswersReads standing.now.first begun reads.items standing.now.writes.now
        standing.now.store.now standing.now.shown outs
        (map reply_text replies.old.items) (map reply_text replies.new.items) }
    ensures counted { CountsReads standing.now.first (map reply_text replies.old.items)
        (map reply_text replies.new.items) keeping.old reads.items keeping.new }
    ensures kept { AllRight (take standing.now.shown standing.now.store.now) keeping.new.caches }
{
    let mut floors = [begun; SESSIONS];
    reads.reverse();
    while let Some(read) = reads.pop() {
        let place = (read.line - standing.first) as usize;
        let kept = take_kept(&mut worked, place);
        answer_read(
            alloc,
            standing,
            read,
            kept,
            &mut floors,
            budget,
            keeping,
            replies,
            steps,
        );
    }
}
