//! The jobs of a session.
ghost use Rattle.std.specs.Prelude.{◌≡◌, ◌<◌, ◌==◌, ◌∷◌, [], length, map, filter, option_map, option_copied, IfOk, OnOk};
ghost use Rattle.std.specs.List.{AllByRecursion};
ghost use Rattle.gd_round_lines.specs.Works.{MayBeWritten};
ghost use Rattle.gd_crew.specs.Seated.{job_view, look_view};
ghost use Rattle.gd_crew.specs.Jobs.{job_of_read, job_of_write, look_of, Adds, AreJobsOf, AreNumbered};
ghost use Rattle.gd_crew.specs.Jobs.{MayBeRead};

use crate::job::{Job, LookUp, Work};
use gd_base::memory::Memory;
use gd_cache::cache::ReplyCache;
use gd_cache::key::ReplyText;
use gd_round_lines::work::{ReadLine, Works, WriteLine};
use std::alloc::Global;

/// Where the reply to a read line may be kept: in the cache of its session, if that has one, and if
/// the line has its text.
fn look_up<'a>(cache: Option<&'a ReplyCache>, key: &'a Option<ReplyText>) -> Option<LookUp<'a>>
    ensures { option_map look_view result ≡ look_of (option_copied cache.entry) key.now }
{
    let cache = cache?;
    match key {
        Some(text) => Some(LookUp { cache, text }),
        None => None,
    }
}

/// The job of a read line. Its length is told nobody.
fn read_job<'a>(cache: Option<&'a ReplyCache>, read: &'a ReadLine) -> Job<'a>
    ensures { job_view result ≡ job_of_read (option_copied cache.entry) read.now }
{
    Job {
        line: read.line,
        bytes: 0,
        work: Work::Read {
            sid: read.session,
            request: &read.request,
            look: look_up(cache, &read.key),
        },
    }
}

/// The job of a write line.
fn write_job(write: &WriteLine) -> Job<'_>
    ensures { job_view result ≡ job_of_write write.now }
{
    Job {
        line: write.line,
        bytes: write.bytes,
        work: Work::Write {
            sid: write.session,
            request: &write.request,
        },
    }
}

/// Appends the job of the read line at a place, if it is of the session.
fn push_read<'a>(
    jobs: &mut Vec<Job<'a>>,
    sid: u32,
    cache: Option<&'a ReplyCache>,
    reads: &'a [ReadLine],
    place: usize,
) -> Result<(), Memory>
    requires place { place < length reads.now }
    requires reads { AllByRecursion MayBeRead reads.now }
    ensures { OnOk result (Adds (option_copied cache.entry) reads.now [] (map job_view jobs.old.items)
        (map job_view jobs.new.items)) }
{
    let read = &reads[place];
    if read.session == sid {
        jobs.push(read_job(cache, read))?;
    }
    Ok(())
}

/// Appends the jobs of a session that are reads, from a place on and before a line, and says at
/// which place the first read stands that is not before that line.
fn push_reads<'a>(
    jobs: &mut Vec<Job<'a>>,
    sid: u32,
    cache: Option<&'a ReplyCache>,
    reads: &'a [ReadLine],
    from: usize,
    before: u64,
) -> Result<usize, Memory>
    requires reads { AllByRecursion MayBeRead reads.now }
    ensures { OnOk result (Adds (option_copied cache.entry) reads.now [] (map job_view jobs.old.items)
        (map job_view jobs.new.items)) }
{
    for place in from..reads.len() {
        if reads[place].line >= before {
            return Ok(place);
        }
        push_read(jobs, sid, cache, reads, place)?;
    }
    Ok(reads.len())
}

/// Appends the job of a write line, if it is of the session, behind those of the reads before it,
/// and says at which place the first read stands that is not passed yet.
fn push_write<'a>(
    jobs: &mut Vec<Job<'a>>,
    sid: u32,
    cache: Option<&'a ReplyCache>,
    reads: &'a [ReadLine],
    from: usize,
    write: &'a WriteLine,
) -> Result<usize, Memory>
    requires reads { AllByRecursion MayBeRead reads.now }
    requires write { MayBeWritten write.now }
    ensures { OnOk result (Adds (option_copied cache.entry) reads.now (filter (λ w. w.session == sid) (write.now ∷ []))
        (map job_view jobs.old.items) (map job_view jobs.new.items)) }
{
    if write.session != sid {
        return Ok(from);
    }
    let next = push_reads(jobs, sid, cache, reads, from, write.line)?;
    jobs.push(write_job(write))?;
    Ok(next)
}

/// The jobs of a session in a round: its reads and writes, in the order of their lines; the replies
/// to its reads are looked up in its cache, if it has one. `Memory`: an allocation was refused.
pub(crate) fn jobs_of<'a>(
    alloc: Global,
    works: &'a Works,
    sid: u32,
    cache: Option<&'a ReplyCache>,
) -> Result<Vec<Job<'a>>, Memory>
    requires numbered { AreNumbered works.now }
    ensures { IfOk result (λ jobs. AreJobsOf (option_copied cache.entry) works.now sid
        (map job_view jobs.items)) }
{
    let reads = works.reads.as_slice();
    let mut jobs = Vec::new(alloc);
    let mut next = 0;
    for write in works.writes.as_slice() {
        next = push_write(&mut jobs, sid, cache, reads, next, write)?;
    }
    push_reads(&mut jobs, sid, cache, reads, next, u64::MAX)?;
    Ok(jobs)
}
