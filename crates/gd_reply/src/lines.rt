//! Reply lines: one line of JSON, whose newline is not part of it.
ghost use Rattle.std.specs.Prelude.{◌≡◌, ◌<◌, ◌^◌, ◌∷◌, ◌++◌, [], IfOk, OnOk, codes, decimal};
ghost use Rattle.std.specs.Prelude.{length, map};
ghost use Rattle.gd_tree.specs.Json as tree;
ghost use Rattle.gd_json.specs.View.{view, member_view, members_view};
ghost use Rattle.gd_defs.specs.Lines as printed;
ghost use Rattle.gd_defs.specs.Reply as reply;
ghost use Rattle.gd_reply.specs.Refusals.{refusal_of, CountsFit};
ghost use Rattle.gd_reply.specs.Replies.{cursor_front_of, ok_front_of};

use crate::members::{Members, object, push_count, push_member, push_text};
use crate::refusal::{Refusal, error_name, info};
use gd_base::memory::Memory;
use gd_json::text::{json_text, with_json};
use gd_json::value::Json;
use itoa::Buffer;
use std::alloc::Global;

/// The greatest number of bytes of a reply line.
const REPLY_LIMIT: usize = 1_048_576;

/// Room for a short reply line.
const SHORT_REPLY: usize = 256;

/// The printed text of an object of these members.
fn object_line(alloc: Global, members: Members) -> Result<Vec<u8>, Memory>
    ensures { IfOk result (λ bytes. bytes.items
        ≡ tree.compact (tree.object (members_view members.items))) }
{
    json_text(alloc, &object(members))
}

/// The members with which a line of this code and dateline begins.
fn begun(alloc: Global, code: &str, dateline: u32) -> Result<Members, Memory>
    ensures { IfOk result (λ members. map member_view members.items
        ≡ (codes "code", tree.text code.now) ∷ (codes "dateline", printed.count_json dateline)
        ∷ []) }
{
    let mut members = Vec::new(alloc);
    push_text(alloc, &mut members, "code", code)?;
    push_count(alloc, &mut members, "dateline", u64::from(dateline))?;
    Ok(members)
}

/// The reply line of an answer, and how many of its bytes are the result's.
#[derive(Drop)]
pub struct OkLine {
    pub bytes: Vec<u8>,
    pub outcome: usize,
}

/// Appends a text and, behind it, a number in decimal digits.
fn push_number(bytes: &mut Vec<u8>, front: &str, n: u64) -> Result<(), Memory>
    ensures { OnOk result (bytes.new.items ≡ bytes.old.items ++ front.now ++ decimal n) }
{
    bytes.extend_from_slice(front.as_bytes())?;
    bytes.extend_from_slice(Buffer::new().format(n).as_bytes())?;
    Ok(())
}

/// Appends the dateline and the number of a line, and what stands between them and the result.
fn push_numbers(bytes: &mut Vec<u8>, front: &str, dateline: u32, line: u64) -> Result<(), Memory>
    ensures { OnOk result (bytes.new.items ≡ bytes.old.items ++ front.now ++ decimal dateline
        ++ codes ",\"line\":" ++ decimal line ++ codes ",\"result\":") }
{
    push_number(bytes, front, u64::from(dateline))?;
    push_number(bytes, ",\"line\":", line)?;
    bytes.extend_from_slice(b",\"result\":")?;
    Ok(())
}

/// What stands before the result in the reply line of an answer, with room for so many bytes more.
pub(crate) fn ok_front(
    alloc: Global,
    dateline: u32,
    line: u64,
    room: usize,
) -> Result<Vec<u8>, Memory>
    ensures { IfOk result (λ bytes. bytes.items ≡ ok_front_of dateline line) }
{
    let mut bytes = Vec::with_capacity(alloc, room.saturating_add(SHORT_REPLY))?;
    push_numbers(
        &mut bytes,
        "{\"code\":\"/api/status/ok\",\"dateline\":",
        dateline,
        line,
    )?;
    Ok(bytes)
}

/// What stands before the result in the reply line of an answer with a cursor: the text of it, or
/// none where nothing follows. It has room for so many bytes more.
pub(crate) fn cursor_front(
    alloc: Global,
    dateline: u32,
    line: u64,
    cursor: &Json,
    room: usize,
) -> Result<Vec<u8>, Memory>
    ensures { IfOk result (λ bytes. bytes.items
        ≡ cursor_front_of dateline line (view cursor.now)) }
{
    let mut bytes = Vec::with_capacity(alloc, room.saturating_add(SHORT_REPLY))?;
    bytes.extend_from_slice(b"{\"code\":\"/api/status/ok\",\"cursor\":")?;
    let mut bytes = with_json(bytes, cursor)?;
    push_numbers(&mut bytes, ",\"dateline\":", dateline, line)?;
    Ok(bytes)
}

/// The reply line of an answer: its dateline, the number of its line and the result.
pub fn ok_line(alloc: Global, dateline: u32, line: u64, outcome: &Json) -> Result<OkLine, Memory>
    ensures line { IfOk result (λ made. made.bytes.items ≡ printed.ok_line dateline line
        (view outcome.now)) }
    ensures outcome { IfOk result (λ made. made.outcome
        ≡ length (tree.compact (view outcome.now))) }
{
    let front = ok_front(alloc, dateline, line, 0)?;
    let before = front.len();
    let mut bytes = with_json(front, outcome)?;
    let outcome = bytes.len() - before;
    bytes.push(b'}')?;
    Ok(OkLine { bytes, outcome })
}

/// Appends what each refusal tells: its name, its information and the number of its line.
fn push_refusal(
    alloc: Global,
    members: &mut Members,
    line: u64,
    refusal: &Refusal,
) -> Result<(), Memory>
    requires line { line < 2 ^ 63 }
    requires counts { CountsFit refusal.now }
    ensures { OnOk result (map member_view members.new.items ≡ map member_view members.old.items
        ++ (codes "error", tree.text (refusal_of refusal.now).error)
        ∷ (codes "info", tree.object (refusal_of refusal.now).info)
        ∷ (codes "line", printed.count_json line) ∷ []) }
{
    push_text(alloc, members, "error", error_name(refusal))?;
    push_member(alloc, members, "info", info(alloc, refusal)?)?;
    push_count(alloc, members, "line", line)?;
    Ok(())
}

/// The reply line of a refusal at a dateline.
pub fn err_line(
    alloc: Global,
    dateline: u32,
    line: u64,
    refusal: &Refusal,
) -> Result<Vec<u8>, Memory>
    requires line { line < 2 ^ 63 }
    requires counts { CountsFit refusal.now }
    ensures { IfOk result (λ bytes. bytes.items
        ≡ printed.err_line dateline line (refusal_of refusal.now)) }
{
    let mut members = begun(alloc, "/api/status/error", dateline)?;
    push_refusal(alloc, &mut members, line, refusal)?;
    object_line(alloc, members)
}

/// The reply line of a refusal that names no dateline.
pub fn err_line_plain(alloc: Global, line: u64, refusal: &Refusal) -> Result<Vec<u8>, Memory>
    requires line { line < 2 ^ 63 }
    requires counts { CountsFit refusal.now }
    ensures { IfOk result (λ bytes. bytes.items
        ≡ printed.err_line_plain line (refusal_of refusal.now)) }
{
    let mut members = Vec::new(alloc);
    push_text(alloc, &mut members, "code", "/api/status/error")?;
    push_refusal(alloc, &mut members, line, refusal)?;
    object_line(alloc, members)
}

/// A reply line of at most 1,048,576 bytes as it is; in place of a longer one the refusal
/// `ReplyTooLarge`, which tells how many bytes it has.
pub fn within_reply(
    alloc: Global,
    dateline: u32,
    line: u64,
    bytes: Vec<u8>,
) -> Result<Vec<u8>, Memory>
    requires { line < 2 ^ 63 }
    ensures { IfOk result (λ given. given.items ≡ reply.within_reply dateline line bytes.items) }
{
    if bytes.len() <= REPLY_LIMIT {
        return Ok(bytes);
    }
    let bytes = bytes.len() as u64;
    err_line(alloc, dateline, line, &Refusal::ReplyTooLarge { bytes })
}
