//! What a write comes to over the store as it is, before anything is stored.
ghost use Rattle.std.specs.Prelude.{◌≡◌, ◌≢◌, ◌≤◌, ◌<◌, ◌+◌, ◌∷◌, ◌^◌, [], Ok, Err, IfOk, IfErr};
ghost use Rattle.std.specs.Prelude.{OnErr, length};
ghost use Rattle.gd_tree.specs.Json.{compact};
ghost use Rattle.gd_json.specs.View.{view};
ghost use Rattle.gd_log.specs.Stored.{MayAppend};
ghost use Rattle.gd_runs.specs.Request.{exec_after};
ghost use Rattle.gd_runs.specs.Explained.{MayBe};
ghost use Rattle.gd_runs.specs.Legal.{batches, history_bytes, exec_line};
ghost use Rattle.gd_mql.specs.Requests.{write_view};
ghost use Rattle.gd_change.specs.Fault.{GivesChange, IsSmall, fault_of};
ghost use Rattle.gd_writer.specs.Judged.{IsJudged};

use crate::entry::Entry;
use crate::ledger::Ledger;
use crate::made::Made;
use crate::refused::refused_line;
use gd_base::memory::Memory;
use gd_change::fault::ChangeFault;
use gd_change::write::evaluate;
use gd_disk::disk::Disk;
use gd_json::value::Json;
use gd_mql::request::WriteRequest;
use gd_outside::clock::Clock;
use gd_prim::{Batch, What};
use gd_reply::lines::ok_line;
use std::alloc::Global;
use std::snapshot::Snapshot;

/// The last moment, in milliseconds since 1970-01-01 in UTC: the end of the year 9999.
const LAST_MOMENT: u64 = 253_402_300_799_999;

/// How many bytes the stored lines and their results may have.
const HISTORY_LIMIT: u64 = 134_217_728;

/// How many bytes a result may have.
const RESULT_LIMIT: u64 = 1 << 40;

/// A write line: its number, its request, and how many bytes it has.
#[derive(Clone, Copy)]
pub(crate) struct Asked<'a> {
    pub(crate) line: u64,
    pub(crate) request: &'a WriteRequest,
    pub(crate) bytes: u64,
}

/// A write that may be stored next, its result, and the reply line that says that it is stored.
#[derive(Drop)]
pub(crate) struct Next {
    pub(crate) made: Made,
    pub(crate) answer: Snapshot<Json>,
    pub(crate) reply: Vec<u8>,
}

/// What a write comes to over the store as it is: it is refused, with the reply line that says why,
/// or it may be stored.
#[derive(Drop)]
pub(crate) enum Verdict {
    Refused {
        fault: Snapshot<ChangeFault>,
        reply: Vec<u8>,
    },
    Storable(Next),
}

/// The moment that a clock gives, cut off at the last one.
pub(crate) fn moment<C: Clock>(clock: &mut C) -> u64
    ensures given { MayBe (C.may clock.old) result }
    ensures bound { result ≤ LAST_MOMENT }
    ensures same { C.may clock.new ≡ C.may clock.old }
{
    clock.now_ms().min(LAST_MOMENT)
}

/// How many bytes a line and its result have. `Memory`: the result has more than 2^40 bytes.
fn bytes_with(line: u64, outcome: usize) -> Result<u64, Memory>
    requires { line ≤ 262_144 }
    ensures sum { IfOk result (λ kept. kept ≡ line + outcome) }
    ensures bound { IfOk result (λ kept. kept < 2 ^ 62) }
    ensures long { OnErr result (RESULT_LIMIT < outcome) }
{
    if outcome as u64 > RESULT_LIMIT {
        return Err(Memory);
    }
    Ok(line + outcome as u64)
}

/// The bytes that the history of a ledger has with so many more.
fn count_with<D: Disk>(ledger: &Ledger<D>, kept: u64) -> u64
    requires { kept < 2 ^ 62 }
    ensures count { result ≡ history_bytes ledger.now.history + kept }
    ensures small { result < 2 ^ 63 }
{
    ledger.kept() + kept
}

/// What a write does after the batches of a ledger, at a moment.
fn made<D: Disk>(
    alloc: Global,
    ledger: &Ledger<D>,
    request: &WriteRequest,
    moment: u64,
) -> Result<(Batch, Json), ChangeFault>
    requires { moment ≤ LAST_MOMENT }
    ensures exec { GivesChange (exec_after (batches ledger.now.history) (write_view request.now)
        moment) result }
    ensures small { IfErr result (IsSmall) }
    ensures may { IfOk result (λ done. MayAppend (batches ledger.now.history) (done.0 ∷ [])) }
{
    evaluate(alloc, ledger.store(), request, moment)
}

/// What a write line comes to that is refused.
fn refused<D: Disk>(
    alloc: Global,
    ledger: &Ledger<D>,
    asked: Asked<'_>,
    moment: u64,
    fault: ChangeFault,
) -> Result<Verdict, Memory>
    requires line { asked.line < 2 ^ 63 }
    requires small { IsSmall fault }
    requires memory { fault ≢ ChangeFault.Memory }
    requires does { exec_line ledger.now.history (write_view asked.request.now) moment asked.bytes
        ≡ Err (fault_of fault) }
    ensures { IfOk result (IsJudged ledger.now.history asked.entry.line asked.entry.bytes
        (write_view asked.entry.request.now) moment) }
{
    let why = Snapshot::of(&fault);
    let reply = refused_line(alloc, ledger.requests(), asked.line, fault)?;
    Ok(Verdict::Refused { fault: why, reply })
}

/// What a write line comes to at a moment, over the batches of a ledger.
pub(crate) fn judge<D: Disk>(
    alloc: Global,
    ledger: &Ledger<D>,
    asked: Asked<'_>,
    moment: u64,
) -> Result<Verdict, Memory>
    requires moment { moment ≤ LAST_MOMENT }
    requires bytes { asked.bytes ≤ 262_144 }
    requires line { asked.line < 2 ^ 63 }
    ensures { IfOk result (IsJudged ledger.now.history asked.entry.line asked.entry.bytes
        (write_view asked.entry.request.now) moment) }
{
    match made(alloc, ledger, asked.request, moment) {
        Ok((batch, answer)) => judge_done(alloc, ledger, asked, moment, batch, answer),
        Err(ChangeFault::Memory) => Err(Memory),
        Err(fault) => refused(alloc, ledger, asked, moment, fault),
    }
}

/// What a write comes to whose batch and result these are: it may be stored, or the history would
/// grow too long.
fn judge_done<D: Disk>(
    alloc: Global,
    ledger: &Ledger<D>,
    asked: Asked<'_>,
    moment: u64,
    batch: Batch,
    answer: Json,
) -> Result<Verdict, Memory>
    requires bytes { asked.bytes ≤ 262_144 }
    requires line { asked.line < 2 ^ 63 }
    requires may { MayAppend (batches ledger.now.history) (batch ∷ []) }
    requires does { exec_after (batches ledger.now.history) (write_view asked.request.now) moment
        ≡ Ok (batch, view answer) }
    ensures { IfOk result (IsJudged ledger.now.history asked.entry.line asked.entry.bytes
        (write_view asked.entry.request.now) moment) }
{
    let reply = ok_line(alloc, ledger.requests() + 1, asked.line, &answer)?;
    let kept = bytes_with(asked.bytes, reply.outcome)?;
    let count = count_with(ledger, kept);
    if count > HISTORY_LIMIT {
        let fault = ChangeFault::Full {
            what: What::History,
            count,
        };
        return refused(alloc, ledger, asked, moment, fault);
    }
    let request = Snapshot::of(asked.request);
    let stored = Snapshot::of(&answer);
    let told = Snapshot::of(&answer);
    let entry = Entry {
        line: asked.line,
        bytes: asked.bytes,
        request,
        moment,
        answer: stored,
    };
    Ok(Verdict::Storable(Next {
        made: Made { entry, batch, kept },
        answer: told,
        reply: reply.bytes,
    }))
}
