//! A session with its jobs in a round.
ghost use Rattle.std.specs.Prelude.{◌≡◌, ◌≢◌, ◌<◌, ◌≤◌, ◌+◌, ◌^◌, ◌++◌, ◌∷◌, [], length, map, None};
ghost use Rattle.std.specs.Prelude.{Some, IfOk, IfErr, false, slice_get, vec_capacity};
ghost use Rattle.gd_mql.specs.Requests.{read_set_view, write_view};
ghost use Rattle.gd_crew.specs.Round.{begun};
ghost use Rattle.gd_crew.specs.Runs.{RunsPart, IsOver, Share};
ghost use Rattle.gd_crew.specs.Seated.{share_of, IsNew, TakesRead, TakesWritten};

use crate::job::{Job, ReadReply, Stop, StopCause, Work};
use crate::reading::{ReadTurn, read_turn};
use crate::writers::{Round, Writers};
use crate::writing::write_turn;
use gd_base::memory::Memory;
use gd_base::steps::Steps;
use gd_disk::disk::Disk;
use gd_outside::clock::Clock;
use gd_outside::gate::Gate;
use gd_seats::session::Session;
use std::alloc::Global;
use std::sync::Wait;

/// A session with its jobs in a round, the replies that are kept of its read lines, and where it
/// stopped. Contracts see it by `share_of`.
#[derive(Drop)]
pub struct Seated<'a> {
    pub sid: u32,
    pub session: Session,
    pub jobs: Vec<Job<'a>>,
    pub replies: Vec<ReadReply>,
    pub stop: Option<Stop>,
    // How many jobs are done, the last write line of these, and the snapshot of the reading that
    // the session holds.
    done: usize,
    before: Option<u64>,
    at: Option<u32>,
}

impl<'a> Seated<'a> {
    /// A session with its jobs, and with room for a reply of each. Nothing is done yet. `Memory`:
    /// there is no such room, and the session comes back.
    pub fn new(
        alloc: Global,
        sid: u32,
        session: Session,
        jobs: Vec<Job<'a>>,
    ) -> Result<Seated<'a>, (Memory, Session)>
        ensures new { IfOk result (λ seated. IsNew sid session jobs.entry.items (share_of seated)) }
        ensures err { IfErr result (λ refused. refused.1 ≡ session) }
    {
        match Vec::with_capacity(alloc, jobs.len()) {
            Ok(replies) => Ok(Seated {
                sid,
                session,
                jobs,
                replies,
                stop: None,
                done: 0,
                before: None,
                at: None,
            }),
            Err(_) => Err((Memory, session)),
        }
    }

    /// Takes in what a turn at a read line came to.
    fn take_read<G: Gate>(&mut self, gate: &G, number: u32, line: u64, turn: ReadTurn)
        requires room { length self.old.replies.items < vec_capacity self.old.replies }
        requires few { self.old.done < 2 ^ 63 }
        ensures { TakesRead self.old line turn self.new }
    {
        match turn {
            ReadTurn::Going { at } => self.at = Some(at),
            ReadTurn::Answered { at, reply } => {
                if let Some(bytes) = &reply {
                    gate.answered(number, line, bytes.as_slice());
                }
                self.replies.push_reserved(ReadReply { line, at, reply });
                self.at = None;
                self.done += 1;
            }
            ReadTurn::Shut => {
                self.stop = Some(Stop {
                    line,
                    cause: StopCause::Shut,
                });
            }
        }
    }

    /// Takes in what a turn at a write line came to.
    fn take_written(&mut self, line: u64, written: Result<(), Memory>)
        requires few { self.old.done < 2 ^ 63 }
        ensures { TakesWritten self.old line written self.new }
    {
        match written {
            Ok(()) => {
                self.before = Some(line);
                self.done += 1;
            }
            Err(_) => {
                self.stop = Some(Stop {
                    line,
                    cause: StopCause::Memory,
                });
            }
        }
    }

    /// One slice or one write of the job that is next.
    fn take_turn<L: Round, D: Disk, C: Clock, G: Gate, R: Wait>(
        &mut self,
        rt: &R,
        alloc: Global,
        number: u32,
        budget: u64,
        writers: &Writers<L, D, C>,
        gate: &G,
        steps: &mut Steps<L>,
    )
        requires budget { (0 < budget) × (budget ≤ 1_000_000) }
        requires more { self.old.done < length self.old.jobs.items }
        requires goes { self.old.stop ≡ None }
        requires part { (v : Share) × RunsPart (begun L.named) L.named.table v (share_of self.old) }
        ensures runs { (v : Share) → RunsPart (begun L.named) L.named.table v (share_of self.old)
            → RunsPart (begun L.named) L.named.table v (share_of self.new) }
    {
        let job = &self.jobs[self.done];
        let line = job.line;
        match job.work {
            Work::Read {
                sid: _,
                request,
                look,
            } => {
                let turn = read_turn(
                    &mut self.session,
                    alloc,
                    gate,
                    number,
                    self.at,
                    budget,
                    line,
                    request,
                    look,
                    steps,
                );
                self.take_read(gate, number, line, turn);
            }
            Work::Write { sid: _, request } => {
                gate.pass(number, line);
                let written = write_turn(
                    &mut self.session,
                    rt,
                    writers,
                    line,
                    self.before,
                    request,
                    job.bytes,
                );
                self.take_written(line, written);
            }
        }
    }

    /// One slice or one write of the job that is next. False where none is left, or the session has
    /// stopped.
    pub(crate) fn turn<L: Round, D: Disk, C: Clock, G: Gate, R: Wait>(
        &mut self,
        rt: &R,
        alloc: Global,
        number: u32,
        budget: u64,
        writers: &Writers<L, D, C>,
        gate: &G,
        steps: &mut Steps<L>,
    ) -> bool
        requires budget { (0 < budget) × (budget ≤ 1_000_000) }
        requires part { (v : Share) × RunsPart (begun L.named) L.named.table v (share_of self.old) }
        ensures runs { (v : Share) → RunsPart (begun L.named) L.named.table v (share_of self.old)
            → RunsPart (begun L.named) L.named.table v (share_of self.new) }
        ensures over { result ≡ false → IsOver (share_of self.new) }
    {
        if self.stop.is_some() {
            return false;
        }
        if self.done >= self.jobs.len() {
            return false;
        }
        self.take_turn(rt, alloc, number, budget, writers, gate, steps);
        true
    }
}
