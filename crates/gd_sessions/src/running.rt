//! A core that is open: its write side, and its sessions.
ghost use Rattle.std.specs.Prelude.{◌≡◌, ◌<◌, ◌≤◌, ◌+◌, ◌^◌, ◌⊎◌, ℕ, Bool, List, length, map, None};
ghost use Rattle.std.specs.Prelude.{IfOk, IfErr, OnErr, MatchResult, [], true, codes};
ghost use Rattle.std.specs.List.{AllByRecursion};
ghost use Rattle.std.specs.Option.{ForSome, is_some};
ghost use Rattle.gd_base.specs.Counts.{Rose};
ghost use Rattle.gd_bytes.specs.File.{meaning};
ghost use Rattle.gd_log.specs.Opening.{Refuses};
ghost use Rattle.gd_runs.specs.Legal.{batches};
ghost use Rattle.gd_events.specs.Events.{event_view};
ghost use Rattle.gd_runs.specs.Core as core;
ghost use Rattle.gd_runs.specs.Core.{BeginStep, SliceStep, LearnStep, ThawStep, WriteStep, entered};
ghost use Rattle.gd_runs.specs.Side.{IsFresh};
ghost use Rattle.gd_mql.specs.Requests.{read_set_view, write_view};
ghost use Rattle.gd_reply.specs.Replies.{reply_text};
ghost use Rattle.gd_writer.specs.Parts.{Tells};
ghost use Rattle.gd_writer.specs.Side.{KeepsAll, GoesOn, Begins};
ghost use Rattle.gd_writer.specs.Opened.{Opens};
ghost use Rattle.gd_sessions.specs.Opened.{IsNew};
ghost use Rattle.gd_held.specs.PassedOn.{one_member};
ghost use Rattle.gd_replay_laws.specs.Steps.{Takes, ReopenOver};
ghost use Rattle.gd_replay_laws.specs.Faults.{IsCounted};
ghost use Rattle.gd_replay_laws.specs.Paced.{AreWithin};
ghost use Rattle.gd_sessions.specs.Held.{session_view, sessions_of};
ghost use Rattle.gd_sessions.specs.Running.{core_state, StandsForState, Answers, MayTake, GoesBy};
ghost use Rattle.gd_sessions.specs.Running.{IsSliced, SlicesBy, left_now, KeepsPace};

use crate::held::Held;
use crate::lines::said;
use crate::writing;
use gd_base::memory::Memory;
use gd_base::steps::Steps;
use gd_disk::disk::Disk;
use gd_events::event::Event;
use gd_journal::fault::JournalFault;
use gd_mql::request::{ReadSet, WriteRequest};
use gd_outside::clock::Clock;
use gd_reply::reply::Reply;
use gd_writer::side::WriteSide;
use std::alloc::Global;
use std::marker::Model;
use std::sync::Wait;

/// How many sessions there are, counted from 0.
const SESSIONS: u32 = 64;

/// A core that is open, on one thread: what is stored, how much of it is shown, the write in doubt,
/// and what each session has seen and reads. It is ended by `close` alone. Contracts see its write
/// side and its sessions, and by `core_state` the state of the core that it is in.
pub struct Running<D: Disk, C: Clock> {
    side: WriteSide<D, C>,
    held: Vec<Held>,
}

impl<D: Disk, C: Clock> Model for Running<D, C> {
    ghost use Rattle.std.specs.Coded.{codes};
    ghost use Rattle.gd_tree.specs.JsonCode.{json_code};
    ghost use Rattle.gd_writer.specs.ChangeCode.{members_code};
    ghost use Rattle.gd_sessions.specs.contracts.held.Held as held_row;
    ghost use Rattle.gd_sessions.specs.Running.{RunningValue, IsRunning};

    ghost Value = { RunningValue D C };

    ghost coded = { Prim.hlevel (
      codes,
      members_code,
      json_code,
      held_row.the_row.coded,
      D.code,
      C.code,
    ) };

    ghost view = { λ r. record { side = r.side; held = r.held.items } };

    ghost invariant = { λ r. IsRunning r.side r.held.items };
}

/// How many requests are shown, of those that are stored.
fn shown_of<D: Disk, C: Clock>(side: &WriteSide<D, C>) -> u32
    ensures count { result ≡ length side.now.shown }
    ensures within { length side.now.shown ≤ length (batches side.now.history) }
    ensures keeps { KeepsAll D.content D.images C.may side.now }
{
    // A side says here what it keeps.
    let _stored = side.stored();
    side.shown()
}

/// As many sessions as there are, which have seen nothing, and hold nothing.
fn new_sessions(alloc: Global) -> Result<Vec<Held>, Memory>
    ensures many { IfOk result (λ held. length held.items ≡ 64) }
    ensures new { IfOk result (λ held. AllByRecursion IsNew held.items) }
{
    let mut held = Vec::with_capacity(alloc, SESSIONS as usize)?;
    for _session in 0..SESSIONS {
        held.push(Held::new())?;
    }
    Ok(held)
}

/// The reply where the store was opened again, with so many requests.
fn reopened(alloc: Global, requests: u32, line: u64) -> Result<Reply, Memory>
    ensures { IfOk result (λ reply. reply_text reply ≡ core.said requests line (codes "reopened")) }
{
    Ok(Reply::Line(said(alloc, requests, line, "reopened")?))
}

impl<D: Disk, C: Clock> Running<D, C> {
    /// Opens the store that a disk holds: all is shown, and nobody holds or has seen anything. It
    /// waits for nobody, since there is no reader yet. An error hands the disk and the clock back;
    /// it is one of `open_log`: `NotStore`, `Damaged`, `DiskFault`, or `Memory`, also for the
    /// sessions.
    pub fn start<R: Wait>(
        rt: &R,
        alloc: Global,
        disk: D,
        clock: C,
    ) -> Result<Running<D, C>, (JournalFault, D, C)>
        ensures opened { IfOk result (λ running. core_state running
            ≡ core.opened running.side.history.loaded) }
        ensures left { IfOk result (λ running. AreWithin (left_now running) (λ i. 0)) }
        ensures begins { IfOk result (λ running. Begins (D.content disk) (C.may clock) C.may
            running.side) }
        ensures clock { IfErr result (λ refused. refused.2 ≡ clock) }
        ensures cause { IfErr result (λ refused. refused.0 ≡ JournalFault.DiskFault
            → Rose (D.faults disk) (D.faults refused.1)) }
        ensures refused { IfErr result (λ refused. ForSome (D.content disk)
            (λ file. Refuses refused.0 (meaning file))) }
        ensures disk { MatchResult result
            (λ running. Opens D.content D.moment D.images D.images_since D.faults disk
            running.side.log.disk)
            (λ refused. Opens D.content D.moment D.images D.images_since D.faults disk refused.1) }
    {
        match new_sessions(alloc) {
            Ok(held) => Running::open(rt, alloc, held, disk, clock),
            Err(_) => Err((JournalFault::Memory, disk, clock)),
        }
    }

    /// Opens the store that a disk holds, with these sessions.
    fn open<R: Wait>(
        rt: &R,
        alloc: Global,
        held: Vec<Held>,
        disk: D,
        clock: C,
    ) -> Result<Running<D, C>, (JournalFault, D, C)>
        requires many { length held.items ≡ 64 }
        requires new { AllByRecursion IsNew held.items }
        ensures opened { IfOk result (λ running. core_state running
            ≡ core.opened running.side.history.loaded) }
        ensures left { IfOk result (λ running. AreWithin (left_now running) (λ i. 0)) }
        ensures begins { IfOk result (λ running. Begins (D.content disk) (C.may clock) C.may
            running.side) }
        ensures held { IfOk result (λ running. running.held ≡ held.items) }
        ensures clock { IfErr result (λ refused. refused.2 ≡ clock) }
        ensures cause { IfErr result (λ refused. refused.0 ≡ JournalFault.DiskFault
            → Rose (D.faults disk) (D.faults refused.1)) }
        ensures refused { IfErr result (λ refused. ForSome (D.content disk)
            (λ file. Refuses refused.0 (meaning file))) }
        ensures disk { MatchResult result
            (λ running. Opens D.content D.moment D.images D.images_since D.faults disk
            running.side.log.disk)
            (λ refused. Opens D.content D.moment D.images D.images_since D.faults disk refused.1) }
    {
        match WriteSide::start(rt, alloc, disk, clock) {
            Ok((side, _seats)) => Ok(Running { side, held }),
            Err(refused) => Err(refused),
        }
    }

    /// Closes the store and opens it again, and tells how many requests it has: all is shown, and
    /// nobody holds or has seen anything. Closing waits for readers. Where there is no memory for
    /// new sessions nothing is done, and the reply says so. The reply may be `Memory`: there was
    /// none for it, and it is due. An error is one of `start`; the core is gone then, and the disk
    /// and the clock come back.
    pub fn reopen<R: Wait>(
        self,
        rt: &R,
        alloc: Global,
        line: u64,
    ) -> Result<(Running<D, C>, Result<Reply, Memory>), (JournalFault, D, C)>
        requires { line < 2 ^ 63 }
        ensures takes { IfOk result (λ both. (may : ℕ → Bool) (bytes : ℕ)
            → Answers (λ reply. Takes (is_some (D.content self.side.log.disk)) one_member may
            (core_state self) line bytes core.reopen reply (core_state both.0)) both.1) }
        ensures clock { IfOk result (λ both. C.may both.0.side.clock ≡ C.may self.side.clock) }

        // Its state is that of a store that was just opened, or nothing was done.
        ensures anew { IfOk result (λ both.
            (core_state both.0 ≡ core.opened both.0.side.history.loaded)
            ⊎ (core_state both.0 ≡ core_state self)) }
        ensures left { IfOk result (λ both. AreWithin (left_now both.0) (left_now self)) }
        ensures cause { IfErr result (λ refused. refused.0 ≡ JournalFault.DiskFault
            → Rose (D.faults self.side.log.disk) (D.faults refused.1)) }
        ensures refused { IfErr result (λ refused. ForSome (D.content self.side.log.disk)
            (λ file. Refuses refused.0 (meaning file))) }
        ensures holds { IfErr result (λ refused. Tells (D.content self.side.log.disk)
            → (file : List ℕ) → D.images refused.1 file → StandsForState (core_state self) file) }
        ensures disk { MatchResult result
            (λ both. Opens D.content D.moment D.images D.images_since D.faults self.side.log.disk
            both.0.side.log.disk)
            (λ refused. Opens D.content D.moment D.images D.images_since D.faults self.side.log.disk
            refused.1) }
    {
        match new_sessions(alloc) {
            Ok(held) => self.open_again(rt, alloc, line, held),
            Err(_) => Ok((self, Ok(Reply::no_memory(line)))),
        }
    }

    /// Closes the store and opens it again with these sessions.
    fn open_again<R: Wait>(
        self,
        rt: &R,
        alloc: Global,
        line: u64,
        held: Vec<Held>,
    ) -> Result<(Running<D, C>, Result<Reply, Memory>), (JournalFault, D, C)>
        requires line { line < 2 ^ 63 }
        requires many { length held.items ≡ 64 }
        requires new { AllByRecursion IsNew held.items }
        ensures step { IfOk result (λ both. Answers
            (λ reply. ReopenOver (is_some (D.content self.side.log.disk)) (core_state self) line
            reply (core_state both.0)) both.1) }
        ensures clock { IfOk result (λ both. C.may both.0.side.clock ≡ C.may self.side.clock) }
        ensures anew { IfOk result (λ both. core_state both.0
            ≡ core.opened both.0.side.history.loaded) }
        ensures left { IfOk result (λ both. AreWithin (left_now both.0) (left_now self)) }
        ensures cause { IfErr result (λ refused. refused.0 ≡ JournalFault.DiskFault
            → Rose (D.faults self.side.log.disk) (D.faults refused.1)) }
        ensures refused { IfErr result (λ refused. ForSome (D.content self.side.log.disk)
            (λ file. Refuses refused.0 (meaning file))) }
        ensures holds { IfErr result (λ refused. Tells (D.content self.side.log.disk)
            → (file : List ℕ) → D.images refused.1 file → StandsForState (core_state self) file) }
        ensures disk { MatchResult result
            (λ both. Opens D.content D.moment D.images D.images_since D.faults self.side.log.disk
            both.0.side.log.disk)
            (λ refused. Opens D.content D.moment D.images D.images_since D.faults self.side.log.disk
            refused.1) }
    {
        // It is said here what the write side keeps.
        let _shown = self.shown();
        let Running { side, held: _old } = self;
        let (disk, clock) = side.close(rt);
        match Running::open(rt, alloc, held, disk, clock) {
            Ok(running) => {
                let reply = reopened(alloc, running.side.stored(), line);
                Ok((running, reply))
            }
            Err(refused) => Err(refused),
        }
    }

    /// How many requests are shown. It is said here what the write side keeps.
    fn shown(&self) -> u32
        ensures count { result ≡ length self.now.side.shown }
        ensures keeps { KeepsAll D.content D.images C.may self.now.side }
    {
        shown_of(&self.side)
    }

    /// A session begins a read, and drops the reading that it held. `Memory`: there was none, and
    /// nothing has changed.
    fn try_begin<L>(
        &mut self,
        alloc: Global,
        line: u64,
        sid: u32,
        request: ReadSet,
        steps: &mut Steps<L>,
    ) -> Result<Vec<u8>, Memory>
        requires line { line < 2 ^ 63 }
        requires sid { sid < SESSIONS }
        ensures step { IfOk result (λ reply. BeginStep (core_state self.old) line sid
            (read_set_view request) reply.items (core_state self.new)) }
        ensures err { OnErr result (core_state self.new ≡ core_state self.old) }
        ensures side { self.new.side ≡ self.old.side }
        ensures paced { IfOk result (λ reply. KeepsPace line
            (core.begin sid (read_set_view request)) reply.items self.old self.new) }
        ensures left { OnErr result (AreWithin (left_now self.new) (left_now self.old)) }
        ensures later { steps.old ≤ steps.new }
    {
        let shown = shown_of(&self.side);
        let held = &mut self.held[sid as usize];
        held.begin(alloc, self.side.store(), shown, line, request, steps)
    }

    /// A session goes on with its reading for a budget of steps. `Memory`: there was none, and
    /// nothing has changed but that the reading may be gone.
    fn try_slice<L>(
        &mut self,
        alloc: Global,
        line: u64,
        sid: u32,
        budget: u64,
        steps: &mut Steps<L>,
    ) -> Result<Vec<u8>, Memory>
        requires line { line < 2 ^ 63 }
        requires sid { sid < SESSIONS }
        requires budget { 0 < budget }
        requires few { budget ≤ 1_000_000 }
        ensures step { IfOk result (λ reply. SliceStep one_member (core_state self.old) line sid
            reply.items (core_state self.new)) }
        ensures err { OnErr result ((core_state self.new ≡ core_state self.old)
            ⊎ (core_state self.new ≡ entered (core_state self.old) sid None)) }
        ensures side { self.new.side ≡ self.old.side }
        ensures paced { IfOk result (λ reply. steps.old ≡ 0
            → KeepsPace line (core.slice sid budget) reply.items self.old self.new) }
        ensures left { AreWithin (left_now self.new) (left_now self.old) }
        ensures sliced { IsSliced sid budget self.old self.new steps.old steps.new }
        ensures later { steps.old ≤ steps.new }
    {
        let shown = shown_of(&self.side);
        let held = &mut self.held[sid as usize];
        held.slice(alloc, self.side.store(), shown, line, budget, steps)
    }

    /// A session learns of a dateline. `Memory`: there was none, and nothing has changed.
    fn try_learn(
        &mut self,
        alloc: Global,
        line: u64,
        sid: u32,
        dateline: u32,
    ) -> Result<Vec<u8>, Memory>
        requires line { line < 2 ^ 63 }
        requires sid { sid < SESSIONS }
        ensures step { IfOk result (λ reply. LearnStep (core_state self.old) line sid dateline
            reply.items (core_state self.new)) }
        ensures err { OnErr result (core_state self.new ≡ core_state self.old) }
        ensures side { self.new.side ≡ self.old.side }
        ensures left { AreWithin (left_now self.new) (left_now self.old) }
    {
        let shown = shown_of(&self.side);
        let held = &mut self.held[sid as usize];
        held.learn(alloc, shown, line, dateline)
    }

    /// A session takes up a reading again from a text. `Memory`: there was none, and nothing has
    /// changed.
    fn try_thaw<L>(
        &mut self,
        alloc: Global,
        line: u64,
        sid: u32,
        request: ReadSet,
        text: &[u8],
        steps: &mut Steps<L>,
    ) -> Result<Vec<u8>, Memory>
        requires line { line < 2 ^ 63 }
        requires sid { sid < SESSIONS }
        ensures step { IfOk result (λ reply. ThawStep one_member (core_state self.old) line sid
            (read_set_view request) text.now reply.items (core_state self.new)) }
        ensures err { OnErr result (core_state self.new ≡ core_state self.old) }
        ensures side { self.new.side ≡ self.old.side }
        ensures left { AreWithin (left_now self.new) (left_now self.old) }
        ensures later { steps.old ≤ steps.new }
    {
        let shown = shown_of(&self.side);
        let held = &mut self.held[sid as usize];
        held.thaw(alloc, self.side.store(), shown, line, request, text, steps)
    }

    /// A session writes; `bytes` is the length of the line. Publishing waits for readers.
    fn write<R: Wait>(
        &mut self,
        rt: &R,
        alloc: Global,
        line: u64,
        bytes: u64,
        sid: u32,
        request: &WriteRequest,
    ) -> Reply
        requires line { line < 2 ^ 63 }
        requires bytes { bytes ≤ 262_144 }
        requires sid { sid < SESSIONS }
        requires fresh { IsFresh self.old.side.history self.old.side.doubt line }
        ensures step { WriteStep (C.may self.old.side.clock) (core_state self.old) line bytes sid
            (write_view request.now) (reply_text result) (core_state self.new) }
        ensures counted { IsCounted line (reply_text result) (D.faults self.old.side.log.disk)
            (D.faults self.new.side.log.disk) }
        ensures left { AreWithin (left_now self.new) (left_now self.old) }
        ensures goes { GoesOn D.content D.moment D.images D.images_since D.faults C.may
            self.old.side self.new.side }
    {
        // It is said here that what is shown is a front of what is stored.
        let _shown = shown_of(&self.side);
        let held = &mut self.held[sid as usize];
        writing::write(rt, alloc, &mut self.side, held, line, bytes, request)
    }

    /// A session begins a read, and drops the reading that it held.
    fn begin<L>(
        &mut self,
        alloc: Global,
        line: u64,
        sid: u32,
        request: ReadSet,
        steps: &mut Steps<L>,
    ) -> Reply
        requires line { line < 2 ^ 63 }
        requires sid { sid < SESSIONS }
        ensures takes { (told : Bool) (may : ℕ → Bool) (bytes : ℕ)
            → Takes told one_member may (core_state self.old) line bytes
            (core.begin sid (read_set_view request)) (reply_text result) (core_state self.new) }
        ensures side { self.new.side ≡ self.old.side }
        ensures paced { KeepsPace line (core.begin sid (read_set_view request))
            (reply_text result) self.old self.new }
        ensures later { steps.old ≤ steps.new }
    {
        let reply = self.try_begin(alloc, line, sid, request, steps);
        Reply::made(line, reply)
    }

    /// A session goes on with its reading for a budget of steps.
    fn slice<L>(
        &mut self,
        alloc: Global,
        line: u64,
        sid: u32,
        budget: u64,
        steps: &mut Steps<L>,
    ) -> Reply
        requires line { line < 2 ^ 63 }
        requires sid { sid < SESSIONS }
        requires budget { 0 < budget }
        requires few { budget ≤ 1_000_000 }
        ensures takes { (told : Bool) (may : ℕ → Bool) (bytes : ℕ)
            → Takes told one_member may (core_state self.old) line bytes (core.slice sid budget)
            (reply_text result) (core_state self.new) }
        ensures side { self.new.side ≡ self.old.side }
        ensures paced { steps.old ≡ 0 → KeepsPace line (core.slice sid budget)
            (reply_text result) self.old self.new }
        ensures sliced { IsSliced sid budget self.old self.new steps.old steps.new }
        ensures later { steps.old ≤ steps.new }
    {
        let reply = self.try_slice(alloc, line, sid, budget, steps);
        Reply::made(line, reply)
    }

    /// A session learns of a dateline.
    fn learn(&mut self, alloc: Global, line: u64, sid: u32, dateline: u32) -> Reply
        requires line { line < 2 ^ 63 }
        requires sid { sid < SESSIONS }
        ensures takes { (told : Bool) (may : ℕ → Bool) (bytes : ℕ)
            → Takes told one_member may (core_state self.old) line bytes (core.learn sid dateline)
            (reply_text result) (core_state self.new) }
        ensures side { self.new.side ≡ self.old.side }
        ensures left { AreWithin (left_now self.new) (left_now self.old) }
    {
        let reply = self.try_learn(alloc, line, sid, dateline);
        Reply::made(line, reply)
    }

    /// A session is told a text of its reading, which stays as it is.
    fn freeze(&self, alloc: Global, line: u64, sid: u32) -> Reply
        requires line { line < 2 ^ 63 }
        requires sid { sid < SESSIONS }
        ensures { (told : Bool) (may : ℕ → Bool) (bytes : ℕ)
            → Takes told one_member may (core_state self.now) line bytes (core.freeze sid)
            (reply_text result) (core_state self.now) }
    {
        // It is said here that what is shown is a front of what is stored.
        let _shown = shown_of(&self.side);
        let reply = self.held[sid as usize].freeze(alloc, self.side.store(), line);
        Reply::made(line, reply)
    }

    /// A session takes up a reading again from a text.
    fn thaw<L>(
        &mut self,
        alloc: Global,
        line: u64,
        sid: u32,
        request: ReadSet,
        text: &[u8],
        steps: &mut Steps<L>,
    ) -> Reply
        requires line { line < 2 ^ 63 }
        requires sid { sid < SESSIONS }
        ensures takes { (told : Bool) (may : ℕ → Bool) (bytes : ℕ)
            → Takes told one_member may (core_state self.old) line bytes
            (core.thaw sid (read_set_view request) text.now) (reply_text result)
            (core_state self.new) }
        ensures side { self.new.side ≡ self.old.side }
        ensures left { AreWithin (left_now self.new) (left_now self.old) }
        ensures later { steps.old ≤ steps.new }
    {
        let reply = self.try_thaw(alloc, line, sid, request, text, steps);
        Reply::made(line, reply)
    }

    /// Carries an event out and gives its reply; `line` and `bytes` are the number and the length
    /// of its line. Opening the store again is no matter of this call. A write waits for readers as
    /// it is published.
    pub fn step<R: Wait, L>(
        &mut self,
        rt: &R,
        alloc: Global,
        line: u64,
        bytes: u64,
        event: Event,
        steps: &mut Steps<L>,
    ) -> Reply
        requires line { line < 2 ^ 63 }
        requires bytes { bytes ≤ 262_144 }
        requires may { MayTake self.old.side.history self.old.side.doubt line (event_view event) }
        requires goes_by { GoesBy (event_view event) }

        // The reply and the new state are what the event comes to, and the reply tells a failure of
        // the disk only where the disk's count rose.
        ensures takes { (told : Bool)
            → Takes told one_member (C.may self.old.side.clock) (core_state self.old) line bytes
            (event_view event) (reply_text result) (core_state self.new) }
        ensures counted { IsCounted line (reply_text result) (D.faults self.old.side.log.disk)
            (D.faults self.new.side.log.disk) }

        // What the disk holds stays what the core has; a stop leaves what it had before or has
        // after.
        ensures goes { GoesOn D.content D.moment D.images D.images_since D.faults C.may
            self.old.side self.new.side }

        // A slice leaves a reading only where its budget was reached, and what is left of a reading
        // that began falls by its steps.
        ensures sliced { SlicesBy (event_view event) self.old self.new steps.old steps.new }

        // Where its steps are counted from 0, the event keeps the pace: a reading that begins has
        // no more left than its first number, a slice of it that is unfinished takes its budget off,
        // and of each other reading no more is left than before. Of one that was thawed nothing is
        // counted.
        ensures paced { steps.old ≡ 0
            → KeepsPace line (event_view event) (reply_text result) self.old self.new }
        ensures later { steps.old ≤ steps.new }
    {
        // It is said here what the write side keeps.
        let _shown = self.shown();
        match event {
            Event::Begin { sid, request } => self.begin(alloc, line, sid, request, steps),
            Event::Slice { sid, budget } => self.slice(alloc, line, sid, budget, steps),
            Event::Write { sid, request } => self.write(rt, alloc, line, bytes, sid, &request),
            Event::Learn { sid, dateline } => self.learn(alloc, line, sid, dateline),
            Event::Freeze { sid } => self.freeze(alloc, line, sid),
            Event::Thaw { sid, request, text } => {
                let text = text.as_str().as_bytes();
                self.thaw(alloc, line, sid, request, text, steps)
            }
            Event::Reopen => unreachable!(),
        }
    }

    /// Ends the core, and gives the disk and the clock back. It waits for readers.
    pub fn close<R: Wait>(self, rt: &R) -> (D, C)
        ensures parts { result ≡ (self.side.log.disk, self.side.clock) }

        // All that a stop leaves of a disk that tells its content is the history, with all or none
        // of the write in doubt.
        ensures holds { Tells (D.content result.0) → (file : List ℕ) → D.images result.0 file
            → StandsForState (core_state self) file }
    {
        // It is said here what the write side keeps.
        let _shown = self.shown();
        let Running { side, held: _ } = self;
        side.close(rt)
    }
}
