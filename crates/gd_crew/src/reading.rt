//! A turn of a session at a read line.
ghost use Rattle.std.specs.Prelude.{◌≡◌, ◌≢◌, ◌<◌, ◌≤◌, ◌+◌, ◌^◌, None, Some, IfOk, is_some};
ghost use Rattle.gd_mql.specs.Requests.{read_set_view};
ghost use Rattle.gd_seats.specs.Session.{SessionValue, reads, seen_of};
ghost use Rattle.gd_seats.specs.Calls.{HasLooked};
ghost use Rattle.gd_crew.specs.Reading.{BeginTurn, SliceTurn, TurnsRead, LooksFor, LooksFrom};

use crate::job::LookUp;
use gd_base::memory::Memory;
use gd_base::steps::Steps;
use gd_lookup::found::found_at;
use gd_mql::request::ReadSet;
use gd_outside::gate::Gate;
use gd_seats::Progress;
use gd_seats::fault::SessionFault;
use gd_seats::session::{Looked, Session};
use std::alloc::Global;

/// What a turn at a read line comes to.
#[derive(Drop)]
pub(crate) enum ReadTurn {
    /// The session holds the reading, which began at this snapshot.
    Going { at: u32 },
    /// The reply line with its snapshot, or want of memory.
    Answered { at: u32, reply: Option<Vec<u8>> },
    /// The seat was turned away.
    Shut,
}

/// The same read again.
fn again(request: &ReadSet) -> Result<ReadSet, Memory>
    ensures { IfOk result (λ copied. read_set_view copied ≡ read_set_view request.now) }
{
    request.copy()
}

/// Begins the read of a line.
fn begin_read<L>(
    session: &mut Session,
    alloc: Global,
    line: u64,
    request: &ReadSet,
    steps: &mut Steps<L>,
) -> ReadTurn
    requires line { line < 2 ^ 63 }
    requires none { reads session.old ≡ None }
    ensures { BeginTurn session.old line (read_set_view request.now) result session.new }
{
    let Ok(request) = again(request) else {
        return ReadTurn::Answered { at: 0, reply: None };
    };
    match session.begin(alloc, request, steps) {
        Ok(_) => ReadTurn::Going { at: session.seen() },
        Err(SessionFault::Read(fault)) => {
            let at = session.seen();
            let reply = fault.line(alloc, at, line).ok();
            ReadTurn::Answered { at, reply }
        }
        Err(SessionFault::Shut) => ReadTurn::Shut,
    }
}

/// Begins the read of a line for which the session has looked, over so many requests.
fn begin_at<L>(
    session: &mut Session,
    alloc: Global,
    line: u64,
    request: &ReadSet,
    at: u32,
    steps: &mut Steps<L>,
) -> ReadTurn
    requires line { line < 2 ^ 63 }
    requires none { reads session.old ≡ None }
    requires seen { at ≤ seen_of session.old.seat }
    ensures { (before : SessionValue) → LooksFrom before session.old at
        → BeginTurn before line (read_set_view request.now) result session.new }
{
    let Ok(request) = again(request) else {
        return ReadTurn::Answered { at: 0, reply: None };
    };
    match session.begin_at(alloc, request, at, steps) {
        Ok(_) => ReadTurn::Going { at },
        Err(SessionFault::Read(fault)) => {
            let reply = fault.line(alloc, at, line).ok();
            ReadTurn::Answered { at, reply }
        }
        Err(SessionFault::Shut) => ReadTurn::Shut,
    }
}

/// Replies to the read of a line for which the session has looked by what is kept, or else begins
/// it there.
fn reply_or_begin<L>(
    session: &mut Session,
    alloc: Global,
    line: u64,
    request: &ReadSet,
    look: LookUp<'_>,
    looked: Looked,
    steps: &mut Steps<L>,
) -> ReadTurn
    requires line { line < 2 ^ 63 }
    requires looked { HasLooked session.old (read_set_view request.now) looked }
    requires none { reads session.old ≡ None }
    requires right { LooksFor session.old.seat.entered (read_set_view request.now) (Some look) }
    ensures { (before : SessionValue) → LooksFrom before session.old looked.snapshot
        → BeginTurn before line (read_set_view request.now) result session.new }
{
    let at = looked.snapshot;
    match found_at(alloc, look.cache, look.text, looked.dateline, line) {
        Ok(Some(bytes)) => ReadTurn::Answered {
            at,
            reply: Some(bytes),
        },
        Ok(None) => begin_at(session, alloc, line, request, at, steps),
        Err(_) => ReadTurn::Answered { at, reply: None },
    }
}

/// Looks the reply to the read of a line up, and begins it where none is kept. Its cursor is looked
/// at first, and its query not before it begins.
fn look_read<L>(
    session: &mut Session,
    alloc: Global,
    line: u64,
    request: &ReadSet,
    look: LookUp<'_>,
    steps: &mut Steps<L>,
) -> ReadTurn
    requires line { line < 2 ^ 63 }
    requires none { reads session.old ≡ None }
    requires right { LooksFor session.old.seat.told (read_set_view request.now) (Some look) }
    ensures { BeginTurn session.old line (read_set_view request.now) result session.new }
{
    match session.look(request) {
        Ok(looked) => reply_or_begin(session, alloc, line, request, look, looked, steps),
        Err(SessionFault::Read(fault)) => {
            let at = session.seen();
            let reply = fault.line(alloc, at, line).ok();
            ReadTurn::Answered { at, reply }
        }
        Err(SessionFault::Shut) => ReadTurn::Shut,
    }
}

/// Begins the read of a line, where its reply is not kept.
fn first_turn<L>(
    session: &mut Session,
    alloc: Global,
    line: u64,
    request: &ReadSet,
    look: Option<LookUp<'_>>,
    steps: &mut Steps<L>,
) -> ReadTurn
    requires line { line < 2 ^ 63 }
    requires none { reads session.old ≡ None }
    requires right { LooksFor session.old.seat.told (read_set_view request.now) look }
    ensures { BeginTurn session.old line (read_set_view request.now) result session.new }
{
    match look {
        Some(look) => look_read(session, alloc, line, request, look, steps),
        None => begin_read(session, alloc, line, request, steps),
    }
}

/// Goes on with the reading that is held, which began at this snapshot, for a budget of steps.
fn slice_read<L>(
    session: &mut Session,
    alloc: Global,
    at: u32,
    budget: u64,
    line: u64,
    steps: &mut Steps<L>,
) -> ReadTurn
    requires line { line < 2 ^ 63 }
    requires budget { (0 < budget) × (budget ≤ 1_000_000) }
    requires held { reads session.old ≢ None }
    ensures { SliceTurn session.old at line result session.new }
{
    match session.slice(alloc, budget, line, steps) {
        Ok(Progress::Unfinished) => ReadTurn::Going { at },
        Ok(Progress::Reply(bytes)) => ReadTurn::Answered {
            at,
            reply: Some(bytes),
        },
        Err(SessionFault::Read(_)) => ReadTurn::Answered { at, reply: None },
        Err(SessionFault::Shut) => ReadTurn::Shut,
    }
}

/// One turn at a read line: it begins where no reading is held, unless its reply is kept, and else
/// goes on with the one that began at a snapshot.
pub(crate) fn read_turn<G: Gate, L>(
    session: &mut Session,
    alloc: Global,
    gate: &G,
    number: u32,
    at: Option<u32>,
    budget: u64,
    line: u64,
    request: &ReadSet,
    look: Option<LookUp<'_>>,
    steps: &mut Steps<L>,
) -> ReadTurn
    requires line { line < 2 ^ 63 }
    requires budget { (0 < budget) × (budget ≤ 1_000_000) }
    requires right { LooksFor session.old.seat.told (read_set_view request.now) look }
    requires held { is_some at ≡ is_some (reads session.old) }
    ensures { TurnsRead session.old at line (read_set_view request.now) result session.new }
{
    match at {
        Some(at) => slice_read(session, alloc, at, budget, line, steps),
        None => {
            gate.pass(number, line);
            first_turn(session, alloc, line, request, look, steps)
        }
    }
}
