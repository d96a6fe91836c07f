//! From the bytes of a line to the request that they spell.
ghost use Rattle.std.specs.Prelude.{◌≡◌, ◌≢◌, ◌≤◌, length, Some, Err};
ghost use Rattle.gd_tree.specs.Bounds.{json_depth};
ghost use Rattle.gd_runs.specs.Request.{line_of};
ghost use Rattle.gd_runs.specs.Input.{line_from, as_line};
ghost use Rattle.gd_json.specs.View.{view};
ghost use Rattle.gd_mql.specs.Envelopes.{read_request_of, write_request_of};
ghost use Rattle.gd_mql.specs.Envelopes.{read_line_of, write_line_of};
ghost use Rattle.gd_mql.specs.Line.{line_session};
ghost use Rattle.gd_mql.specs.Requests.{read_set_view, write_view, GivesAsked, GivesLine};

use crate::envelope::{read_of, write_of};
use crate::object::take;
use crate::request::{Line, ReadSet, WriteRequest};
use crate::session::session;
use gd_fault::fault::LineFault;
use gd_json::from::{JsonFault, json_from};
use gd_json::value::Json;
use std::alloc::Global;

/// The greatest number of bytes of a line.
pub const LINE_LIMIT: usize = 262_144;

/// The read that an envelope spells: an object of `query` and, where a page with a cursor is asked
/// for, of `cursor`; or an object of `queries` alone, a list of 1 to 16 such objects, none of which
/// names the page after a cursor. `BadQuery`: it has not this form, or a query has a fault of form;
/// the first fault in the order of the walk is told, and the number of its query begins its path
/// where there are several. `Memory`: an allocation was refused.
pub fn read_request(alloc: Global, envelope: Json) -> Result<ReadSet, LineFault>
    requires { json_depth (view envelope) ≤ 15 }
    ensures { GivesAsked read_set_view (read_request_of (view envelope)) result }
{
    Ok(read_of(alloc, envelope)?)
}

/// The write that an envelope spells: an object of `query` or of `queries`, a list of 1 to 16
/// clauses, and, where all that is made has a scope, of `scope`, the text of an id. `BadQuery`: it
/// has not this form, or a clause has a fault of form; the first fault in the order of the walk is
/// told, and the number of its clause begins its path where there are several. `Memory`: an
/// allocation was refused.
pub fn write_request(alloc: Global, envelope: Json) -> Result<WriteRequest, LineFault>
    requires { json_depth (view envelope) ≤ 15 }
    ensures { GivesAsked write_view (write_request_of (view envelope)) result }
{
    Ok(write_of(alloc, envelope)?)
}

/// The read of a session, or its first fault of form.
fn read_from(alloc: Global, sid: u32, envelope: Json) -> Result<Line, LineFault>
    requires { json_depth (view envelope) ≤ 15 }
    ensures { GivesLine (read_line_of sid (view envelope)) result }
{
    let request = read_request(alloc, envelope)?;
    Ok(Line::Read { sid, request })
}

/// The write of a session, or its first fault of form.
fn write_from(alloc: Global, sid: u32, envelope: Json) -> Result<Line, LineFault>
    requires { json_depth (view envelope) ≤ 15 }
    ensures { GivesLine (write_line_of sid (view envelope)) result }
{
    let request = write_request(alloc, envelope)?;
    Ok(Line::Write { sid, request })
}

/// The request of a line of a session, or its first fault of form.
fn line_of(alloc: Global, sid: u32, line: Json) -> Result<Line, LineFault>
    requires session { line_session (view line) ≡ Some sid }
    requires shallow { json_depth (view line) ≤ 16 }
    ensures { GivesLine (as_line (line_of (view line))) result }
{
    if line.member("read").is_some() {
        match take(line, "read") {
            Some(envelope) => read_from(alloc, sid, envelope),
            None => unreachable!(),
        }
    } else {
        match take(line, "write") {
            Some(envelope) => write_from(alloc, sid, envelope),
            None => unreachable!(),
        }
    }
}

/// The line that the bytes spell. They are at most `LINE_LIMIT` bytes, without the newline that
/// ended them. First comes `Json`: the bytes are no JSON of this profile; then `BadLine`: the value
/// is no object of just `sid`, a number from 0 to 63, and of one of `read` and `write`; then
/// `BadQuery` with the first code of form, in the order of the walk: a clause itself, then its
/// members in byte order of their names. `Memory`: an allocation was refused.
pub fn line_from(alloc: Global, bytes: &[u8]) -> Result<Line, LineFault>
    requires { length bytes.now ≤ LINE_LIMIT }
    ensures asked { GivesLine (line_from bytes.now) result }
    ensures memory { result ≢ Err (LineFault.Json JsonFault.Memory) }
{
    let line = json_from(alloc, bytes)?;
    match session(&line) {
        Some(sid) => line_of(alloc, sid, line),
        None => Err(LineFault::BadLine),
    }
}
