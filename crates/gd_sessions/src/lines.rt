//! Reply lines of the core's own.
ghost use Rattle.std.specs.Prelude.{◌≡◌, ◌<◌, ◌^◌, [], IfOk, codes};
ghost use Rattle.std.specs.Str.{IsUtf8};
ghost use Rattle.gd_tree.specs.Json as tree;
ghost use Rattle.gd_json.specs.View.{view};
ghost use Rattle.gd_defs.specs.Lines as printed;
ghost use Rattle.gd_defs.specs.Reply as reply;
ghost use Rattle.gd_runs.specs.Core as core;

use gd_base::memory::Memory;
use gd_json::text::json_text;
use gd_json::value::Json;
use gd_reply::lines::{ok_line, within_reply};
use gd_reply::members::{object, push_count, push_member, push_text};
use std::alloc::Global;

/// The reply line of a refusal that names no dateline, and tells its error alone.
fn plain_line(alloc: Global, line: u64, error: &str) -> Result<Vec<u8>, Memory>
    requires { line < 2 ^ 63 }
    ensures { IfOk result (λ bytes. bytes.items
        ≡ printed.err_line_plain line (printed.refusal error.now [])) }
{
    let mut members = Vec::new(alloc);
    push_text(alloc, &mut members, "code", "/api/status/error")?;
    push_text(alloc, &mut members, "error", error)?;
    push_member(alloc, &mut members, "info", object(Vec::new(alloc)))?;
    push_count(alloc, &mut members, "line", line)?;
    json_text(alloc, &object(members))
}

/// The reply line where no reading is held.
pub(crate) fn no_reading_line(alloc: Global, line: u64) -> Result<Vec<u8>, Memory>
    requires { line < 2 ^ 63 }
    ensures { IfOk result (λ bytes. bytes.items ≡ core.no_reading_line line) }
{
    plain_line(alloc, line, "NoReading")
}

/// The reply line where several queries are to be frozen or thawed.
pub(crate) fn many_queries_line(alloc: Global, line: u64) -> Result<Vec<u8>, Memory>
    requires { line < 2 ^ 63 }
    ensures { IfOk result (λ bytes. bytes.items ≡ core.many_queries_line line) }
{
    plain_line(alloc, line, "ManyQueries")
}

/// The result that tells the text of a frozen reading.
fn frozen_json(alloc: Global, text: &[u8]) -> Result<Json, Memory>
    requires { IsUtf8 text.now }
    ensures { IfOk result (λ told. view told ≡ tree.object (tree.member (codes "frozen")
        (tree.text text.now) tree.no_members)) }
{
    let Ok(text) = std::str::from_utf8(text) else {
        unreachable!()
    };
    let mut members = Vec::new(alloc);
    push_text(alloc, &mut members, "frozen", text)?;
    Ok(object(members))
}

/// The reply line with the text of a reading that is frozen, or the refusal of one that is too
/// long.
pub(crate) fn frozen_line(
    alloc: Global,
    dateline: u32,
    line: u64,
    text: &[u8],
) -> Result<Vec<u8>, Memory>
    requires line { line < 2 ^ 63 }
    requires utf8 { IsUtf8 text.now }
    ensures { IfOk result (λ bytes. bytes.items ≡ reply.within_reply dateline line
        (printed.ok_line dateline line (tree.object (tree.member (codes "frozen")
        (tree.text text.now) tree.no_members)))) }
{
    let told = frozen_json(alloc, text)?;
    let made = ok_line(alloc, dateline, line, &told)?;
    within_reply(alloc, dateline, line, made.bytes)
}

/// The reply line with one word as its result.
pub(crate) fn said(alloc: Global, dateline: u32, line: u64, word: &str) -> Result<Vec<u8>, Memory>
    ensures { IfOk result (λ bytes. bytes.items ≡ core.said dateline line word.now) }
{
    let word = Json::text(alloc, word)?;
    let made = ok_line(alloc, dateline, line, &word)?;
    Ok(made.bytes)
}
