//! A line that a node takes: what its bytes ask.
ghost use Rattle.std.specs.Prelude.{◌≢◌, ◌≤◌, length, Err, Some, IfOk};
ghost use Rattle.gd_tree.specs.Bounds.{json_depth};
ghost use Rattle.gd_grammar.specs.Chain.{map_err};
ghost use Rattle.gd_json.specs.View.{view};
ghost use Rattle.gd_runs.specs.Input.{no_line};
ghost use Rattle.gd_following.specs.Lines.{follow_of, follow_from, ask_line, give_line};
ghost use Rattle.gd_following.specs.Lines.{read_line};
ghost use Rattle.gd_following.specs.Parts as parts;
ghost use Rattle.gd_following.specs.Read.{GivesFollow, IsBounded};

use crate::parts::{asked, given, reader, sole};
use gd_fault::fault::LineFault;
use gd_json::from::{JsonFault, json_from};
use gd_json::value::Json;
use gd_mql::line::read_request;
use gd_mql::object::take;
use gd_mql::request::ReadSet;
use std::alloc::Global;

/// The greatest number of bytes of a line.
pub const LINE_LIMIT: usize = 1_048_576;

/// What one line asks of a node. The number of a batch is one of 32 bits, a session one from 0 to
/// 63.
#[derive(Drop)]
pub enum FollowLine {
    /// It asks for at most `most` batches, 1 to 256, from a number on.
    Ask { from: u32, most: u32 },
    /// It gives the bytes of a group, of the batches from a number on.
    Give { from: u32, group: Vec<u8> },
    /// It is the read of a session.
    Read { sid: u32, request: ReadSet },
}

/// The read of a session that an envelope spells.
fn read_from(alloc: Global, sid: u32, envelope: Json) -> Result<FollowLine, LineFault>
    requires { json_depth (view envelope) ≤ 15 }
    ensures asked { GivesFollow (map_err no_line (read_line sid (view envelope))) result }
    ensures bounded { IfOk result IsBounded }
{
    let request = read_request(alloc, envelope)?;
    Ok(FollowLine::Read { sid, request })
}

/// The line that asks so.
fn ask_from(value: &Json) -> Result<FollowLine, LineFault>
    ensures asked { GivesFollow (map_err no_line (ask_line (parts.asked (view value.now)))) result }
    ensures bounded { IfOk result IsBounded }
{
    match asked(value) {
        Some((from, most)) => Ok(FollowLine::Ask { from, most }),
        None => Err(LineFault::BadLine),
    }
}

/// The line that gives this group.
fn give_from(alloc: Global, value: &Json) -> Result<FollowLine, LineFault>
    ensures asked { GivesFollow (map_err no_line (give_line (parts.given (view value.now))))
        result }
    ensures bounded { IfOk result IsBounded }
{
    match given(alloc, value)? {
        Some((from, group)) => Ok(FollowLine::Give { from, group }),
        None => Err(LineFault::BadLine),
    }
}

/// The line that a value spells.
fn line_of(alloc: Global, line: Json) -> Result<FollowLine, LineFault>
    requires { json_depth (view line) ≤ 16 }
    ensures asked { GivesFollow (map_err no_line (follow_of (view line))) result }
    ensures bounded { IfOk result IsBounded }
{
    if let Some(value) = sole(&line, "ask") {
        return ask_from(value);
    }
    if let Some(value) = sole(&line, "give") {
        return give_from(alloc, value);
    }
    match reader(&line) {
        Some(sid) => match take(line, "read") {
            Some(envelope) => read_from(alloc, sid, envelope),
            None => Err(LineFault::BadLine),
        },
        None => Err(LineFault::BadLine),
    }
}

/// The line that the bytes spell. They are at most `LINE_LIMIT` bytes, without the newline that
/// ended them. First comes `Json`: the bytes are no JSON of this profile; then `BadLine`: the value
/// is none of the three lines, or its group is no text of two hexadecimal digits in lower case for
/// each byte; then, of a read, `BadQuery` with the first code of form, in the order of the walk.
/// `Memory`: an allocation was refused.
pub fn follow_line(alloc: Global, bytes: &[u8]) -> Result<FollowLine, LineFault>
    requires { length bytes.now ≤ LINE_LIMIT }
    ensures asked { GivesFollow (follow_from bytes.now) result }
    ensures bounded { IfOk result IsBounded }
    ensures memory { result ≢ Err (LineFault.Json JsonFault.Memory) }
{
    let line = json_from(alloc, bytes)?;
    line_of(alloc, line)
}
