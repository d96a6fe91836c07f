//! A read whose slices follow one another without a break.
ghost use Rattle.std.specs.Prelude.{◌≡◌, ◌≤◌, ◌<◌, ◌^◌, length, IfOk, IfSome, IsNone};
ghost use Rattle.gd_runs.specs.Core as core;
ghost use Rattle.gd_runs.specs.Request.{reply_of};
ghost use Rattle.gd_mql.specs.Requests.{read_set_view};
ghost use Rattle.gd_read.specs.Reading.{reading_view, IsGoing};
ghost use Rattle.gd_read.specs.Left.{reading_left};

use gd_base::memory::Memory;
use gd_base::steps::Steps;
use gd_mql::request::ReadSet;
use gd_read::reading::{Progress, Reading};
use gd_store::store::Store;
use gd_store::view::View;
use std::alloc::Global;

/// One slice of a reading: its reply line, or none where it goes on, with less left of it. Its
/// steps are counted from nothing, so that the count does not stand at its end.
fn slice_of<L>(
    alloc: Global,
    view: &View<'_>,
    reading: &mut Reading,
    budget: u64,
    line: u64,
) -> Result<Option<Vec<u8>>, Memory>
    requires budget { 0 < budget }
    requires line { line < 2 ^ 63 }
    requires going { IsGoing view.now reading.old }
    ensures reply { IfOk result (λ reply. IfSome reply
        (λ bytes. bytes.items ≡ core.owed_line view.now line (reading_view reading.old))) }
    ensures same { reading_view reading.new ≡ reading_view reading.old }
    ensures still { IfOk result (λ reply. IsNone reply → IsGoing view.now reading.new) }
    ensures less { IfOk result (λ reply. IsNone reply → reading_left (2 ^ 32) view.now reading.new
        < reading_left (2 ^ 32) view.now reading.old) }
{
    let mut taken: Steps<L> = Steps::new();
    match reading.slice(alloc, view, budget, line, &mut taken)? {
        Progress::Reply(bytes) => Ok(Some(bytes)),
        Progress::Unfinished => Ok(None),
    }
}

/// The reply line of a reading, whose slices have this budget. `Memory`: an allocation was refused.
fn line_of<L>(
    alloc: Global,
    view: &View<'_>,
    reading: &mut Reading,
    budget: u64,
    line: u64,
) -> Result<Vec<u8>, Memory>
    requires budget { 0 < budget }
    requires line { line < 2 ^ 63 }
    requires going { IsGoing view.now reading.old }
    ensures { IfOk result (λ bytes. bytes.items ≡ core.owed_line view.now line
        (reading_view reading.old)) }
{
    loop {
        if let Some(bytes) = slice_of::<L>(alloc, view, reading, budget, line)? {
            return Ok(bytes);
        }
    }
}

/// The reply line to a read of a store at a number of its requests, in slices of a budget of steps:
/// the page that it asks for, at the dateline of its cursor or at that number, or the first
/// refusal. `Memory` may come in place of any line.
pub fn reply_at<L>(
    alloc: Global,
    store: &Store,
    at: u32,
    line: u64,
    request: ReadSet,
    budget: u64,
    steps: &mut Steps<L>,
) -> Result<Vec<u8>, Memory>
    requires there { at ≤ length store.now }
    requires budget { 0 < budget }
    requires line { line < 2 ^ 63 }
    ensures { IfOk result (λ bytes. bytes.items ≡ reply_of store.now at line (read_set_view request)) }
{
    let view = store.view(at);
    match Reading::begin(alloc, &view, request, steps) {
        Ok(mut reading) => {
            let below = view.earlier(reading.dateline());
            let bytes = line_of::<L>(alloc, &below, &mut reading, budget, line);
            drop(reading);
            bytes
        }
        Err(fault) => fault.line(alloc, at, line),
    }
}
