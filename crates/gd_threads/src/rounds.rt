//! A run that is served round by round, on threads.
ghost use Rattle.std.specs.Prelude.{◌≡◌, ◌≤◌, ◌<◌, ◌+◌, ◌*◌, ◌^◌, ℕ, List, [], length, map, vec_len};
ghost use Rattle.std.specs.Prelude.{vec_capacity, option_map, IfOk, IfErr, MatchResult, true};
ghost use Rattle.std.specs.List.{All};
ghost use Rattle.std.specs.Option.{ForSome};
ghost use Rattle.gd_base.specs.Counts.{Rose};
ghost use Rattle.gd_bytes.specs.File.{meaning};
ghost use Rattle.gd_log.specs.Opening.{Refuses};
ghost use Rattle.gd_prim.specs.Builtin.{builtin};
ghost use Rattle.gd_prim.specs.WellFormed.{all_follow};
ghost use Rattle.logbook.specs.Pages.{Book};
ghost use Rattle.gd_prim.specs.declared.Batch.{Batch};
ghost use Rattle.gd_input.specs.Line.{IsShort};
ghost use Rattle.gd_input.specs.Rounds.{AreKept};
ghost use Rattle.gd_runs.specs.Explained.{Numbered};
ghost use Rattle.gd_shared.specs.Shared.{IsNewSeat};
ghost use Rattle.gd_crew.specs.PassedOn.{Opens, Tells, Begins, first_kept};
ghost use Rattle.gd_reply.specs.Replies.{reply_text};
ghost use Rattle.gd_round_lines.specs.Replies.{reply_texts, no_memory};
ghost use Rattle.gd_caller.specs.Served.{StandsForState};
ghost use Rattle.gd_round_lines.specs.Works.{texts_of, AreRead, AreWithin};
ghost use Rattle.gd_crew.specs.Ready.{IsIdle};
ghost use Rattle.gd_threads.specs.Served.{state_at};
ghost use Rattle.gd_threads.specs.Rounds.{AnswersRound};
ghost use Rattle.gd_threads.specs.Working.{KeepsNow};

use crate::working::{hire, run, show};
use gd_base::steps::Steps;
use gd_caller::joined::answer_joined;
use gd_crew::collect::collect;
use gd_crew::{Keeping, SEATS, Session, WriteSide};
use gd_disk::disk::Disk;
use gd_input::line::RoundLine;
use gd_journal::fault::JournalFault;
use gd_outside::clock::Clock;
use gd_outside::gate::Gate;
use gd_reply::reply::Reply;
use gd_round_lines::replies::Replies;
use gd_round_lines::work::{Works, read_lines};
use gd_shared::Seat;
use std::alloc::Global;
use std::marker::Model;
use std::num::{NonZeroU32, NonZeroU64};
use std::sync::Wait;
use std::thread::Threads;

/// The most steps that a slice of a read may take.
const MOST_STEPS: u64 = 1_000_000;

/// The fewest lines that are worth a third worker, and each further one.
const LEAST_LINES: usize = 16;

/// How many workers are worth hiring for so many lines of so many sessions: at most `most`, no more
/// than there are sessions, since each runs whole sessions, and of more than two each has
/// `LEAST_LINES` lines at least.
fn crew_size(most: NonZeroU32, lines: usize, sessions: u32) -> u32
    ensures some { 0 < result }
    ensures most { result ≤ most.value }
    ensures manned { 1 < result → result ≤ sessions }
    ensures worth { 2 < result → result * 16 ≤ lines }
{
    let worth = (lines / LEAST_LINES).max(2).min(most.get() as usize);
    (worth as u32).min(sessions.max(1))
}

/// A run that is served round by round, by so many workers: the write side, the seats from which
/// the workers read, the number of the next line, how many steps a slice of a read may take, and
/// what sessions keep of replies. It is ended by `close` alone. Contracts see the write side, the
/// number and what sessions keep.
///
/// Its type keeps that each entry, and a write in doubt, is of a line before the next one, that
/// nothing is kept of write lines, that no seat reads, and that what sessions keep is right.
pub struct Rounds<D: Disk, C: Clock> {
    side: WriteSide<D, C>,
    seats: Vec<Session>,
    lines: u64,
    budget: u64,
    workers: NonZeroU32,
    keeping: Keeping,
}

impl<D: Disk, C: Clock> Model for Rounds<D, C> {
    ghost use Rattle.std.specs.Coded.{codes};
    ghost use Rattle.gd_tree.specs.JsonCode.{json_code};
    ghost use Rattle.gd_crew.specs.PassedOn.{members_code};
    ghost use Rattle.gd_threads.specs.Served.{RoundsValue, IsBetween};

    ghost Value = { RoundsValue D C };

    ghost coded = { Prim.hlevel (codes, members_code, json_code, D.code, C.code) };

    ghost view = { λ r. record { side = r.side; lines = r.lines; keeping = r.keeping } };

    ghost invariant = { λ r. IsBetween r.side r.lines r.seats r.budget r.keeping };
}

/// The run that steps are counted for.
struct Run;

/// A session of each seat. None of them reads.
fn idle_sessions(mut seats: Vec<Seat>, mut sessions: Vec<Session>) -> Vec<Session>
    requires none { sessions.items ≡ [] }
    requires room { vec_len seats ≤ vec_capacity sessions }
    ensures idle { (table : Book) (shown : List Batch) → All (IsNewSeat table shown) seats.items
        → All (IsIdle table) result.items }
    ensures count { length result.items ≡ vec_len seats }
    ensures capacity { vec_capacity result ≡ vec_capacity sessions }
{
    while let Some(seat) = seats.pop() {
        sessions.push_reserved(Session::new(seat));
    }
    sessions
}

impl<D: Disk, C: Clock> Rounds<D, C> {
    /// Opens the store that a disk holds, before the first line is served: all is shown. So many
    /// workers are to run each round, and its reads go on in slices of a budget of steps, or of
    /// 1,000,000 where the budget is greater. Each session keeps so many replies, if a number is
    /// given. It waits for nobody, since there is no reader yet. An error hands the disk and the
    /// clock back; it is one of `open_log`: `NotStore`, `Damaged`, `DiskFault`, or `Memory`, also
    /// for the seats and for what sessions keep.
    pub fn start<R: Wait>(
        rt: &R,
        alloc: Global,
        disk: D,
        clock: C,
        budget: NonZeroU64,
        workers: NonZeroU32,
        cache: Option<NonZeroU32>,
    ) -> Result<Rounds<D, C>, (JournalFault, D, C)>
        ensures keeps { IfOk result (λ rounds. rounds.keeping ≡ first_kept (option_map (λ n. n.value) cache)) }
        ensures none { IfOk result (λ rounds. rounds.lines ≡ 0) }
        ensures begins { IfOk result (λ rounds. Begins (D.content disk) (C.may clock) C.may
            rounds.side) }
        ensures follow { IfOk result (λ rounds. all_follow builtin 0 rounds.side.history.loaded
            ≡ true) }
        ensures clock { IfErr result (λ refused. refused.2 ≡ clock) }
        ensures cause { IfErr result (λ refused. refused.0 ≡ JournalFault.DiskFault
            → Rose (D.faults disk) (D.faults refused.1)) }
        ensures refused { IfErr result (λ refused. ForSome (D.content disk)
            (λ file. Refuses refused.0 (meaning file))) }
        ensures disk { MatchResult result
            (λ rounds. Opens D.content D.moment D.images D.images_since D.faults disk
            rounds.side.log.disk)
            (λ refused. Opens D.content D.moment D.images D.images_since D.faults disk refused.1) }
    {
        let sessions = match Vec::with_capacity(alloc, SEATS as usize) {
            Ok(sessions) => sessions,
            Err(_) => return Err((JournalFault::Memory, disk, clock)),
        };
        let keeping = match Keeping::of(alloc, cache) {
            Ok(keeping) => keeping,
            Err(_) => return Err((JournalFault::Memory, disk, clock)),
        };
        match WriteSide::start(rt, alloc, disk, clock) {
            Ok((side, seats)) => {
                // It is said here that the history is legal.
                let _stored = side.stored();
                Ok(Rounds {
                    side,
                    seats: idle_sessions(seats, sessions),
                    lines: 0,
                    budget: budget.get().min(MOST_STEPS),
                    workers,
                    keeping,
                })
            }
            Err(refused) => Err(refused),
        }
    }

    /// Goes on behind so many lines, which are not looked at for want of memory: the replies to
    /// them.
    fn pass_over(&mut self, count: usize) -> Replies
        requires { self.old.lines + count < 2 ^ 63 }
        ensures replies { reply_texts result ≡ no_memory self.old.lines count }
        ensures lines { self.new ≡ record {
          side = self.old.side;
          lines = self.old.lines + count;
          keeping = self.old.keeping;
        } }
        ensures keeps { KeepsNow D.content D.moment D.images D.images_since C.may self.old.side }
    {
        // A side says here what it keeps.
        let _stored = self.side.stored();
        let first = self.lines;
        self.lines += count as u64;
        Replies::NoMemory {
            first,
            end: self.lines,
        }
    }

    /// What sessions keep of the replies to their reads.
    pub fn keeping(&self) -> &Keeping
        ensures { result.now ≡ self.now.keeping }
    {
        &self.keeping
    }

    /// Ends the run, and gives the disk and the clock back. It waits for readers.
    pub fn close<R: Wait>(self, rt: &R) -> (D, C)
        ensures parts { result ≡ (self.side.log.disk, self.side.clock) }

        // All that a stop leaves of a disk that tells its content is the history, with all or none
        // of the write in doubt.
        ensures holds { Tells (D.content result.0) → (file : List ℕ) → D.images result.0 file
            → StandsForState (state_at self.side) file }
    {
        // A side says here what it keeps.
        let _stored = self.side.stored();
        let Rounds {
            side,
            seats: _,
            lines: _,
            budget: _,
            workers: _,
            keeping: _,
        } = self;
        side.close(rt)
    }
}

impl<D: Disk + Send, C: Clock + Send> Rounds<D, C> {
    /// Answers the lines of a round, and gives their replies. First all that is stored is shown, if
    /// there is memory for that. Then the workers run the lines, as many as are worth hiring, one of
    /// them here and each other one on a thread of its own where one can be made, with the writes of
    /// each session in the order of its lines; what they leave is done here. A read is answered at a number that fits what its session was told before.
    /// Where there is no room for the lines, none of them is looked at, and each has the reply that
    /// says that there was no memory. It waits for the workers, which pass the gate, and for
    /// readers.
    pub fn answer_round<R: Threads + Wait + Sync, G: Gate>(
        &mut self,
        rt: &R,
        alloc: Global,
        gate: &G,
        lines: &[RoundLine],
    ) -> Replies
        requires lines { self.old.lines + length lines.now < 2 ^ 63 }
        requires short { All IsShort lines.now }
        ensures { AnswersRound D.content D.moment D.images D.images_since D.faults C.may lines.now
            self.old self.new (reply_texts result) }
    {
        match read_lines(
            rt,
            alloc,
            self.workers,
            self.lines,
            lines,
            self.keeping.is_on(),
        ) {
            Ok(works) => Replies::Made(self.answer_works(rt, alloc, gate, lines, works)),
            Err(_) => self.pass_over(lines.len()),
        }
    }

    /// Answers the lines of a round that were read.
    fn answer_works<R: Threads + Wait + Sync, G: Gate>(
        &mut self,
        rt: &R,
        alloc: Global,
        gate: &G,
        lines: &[RoundLine],
        works: Works,
    ) -> Vec<Reply>
        requires lines { self.old.lines + length lines.now < 2 ^ 63 }
        requires short { All IsShort lines.now }
        requires read { (given : List Numbered) → AreKept lines.now (texts_of given)
            → AreRead self.old.lines given works }
        requires within { AreWithin self.old.lines (self.old.lines + length lines.now) works }
        ensures { AnswersRound D.content D.moment D.images D.images_since D.faults C.may lines.now
            self.old self.new (map reply_text result.items) }
    {
        // A side says here what it keeps.
        let _stored = self.side.stored();
        let begun = show(rt, &mut self.side);
        let hired = hire(
            alloc,
            crew_size(self.workers, lines.len(), works.session_count()),
            self.budget,
            &self.side,
            &works,
            self.keeping.caches(),
            &mut self.seats,
        );
        let workers = run(
            rt,
            alloc,
            gate,
            &mut self.side,
            self.lines,
            lines,
            &works,
            hired,
        );
        // A side says here what it keeps.
        let _kept = self.side.stored();
        let worked = collect(
            alloc,
            &self.side,
            self.lines,
            &works,
            workers,
            &mut self.seats,
        );
        let mut steps: Steps<Run> = Steps::new();
        let replies = answer_joined(
            alloc,
            &mut self.side,
            self.lines,
            begun,
            works,
            worked,
            self.budget,
            &mut self.keeping,
            &mut steps,
        );
        self.lines += lines.len() as u64;
        replies
    }
}
