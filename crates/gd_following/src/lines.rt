//! Reply lines of a node.
ghost use Rattle.std.specs.Prelude.{◌≡◌, ◌≢◌, ◌<◌, ◌^◌, IfOk, IsErr};
ghost use Rattle.gd_json.specs.View.{view};
ghost use Rattle.gd_defs.specs.Lines.{ok_line as ok_line_of};
ghost use Rattle.gd_codec.specs.Writable.{MayWrite};
ghost use Rattle.gd_mql.specs.Line.{fault_view};
ghost use Rattle.gd_runs.specs.Input.{input_fault_line, line_too_long};
ghost use Rattle.gd_following.specs.Replies.{word_line, part_json};

use crate::hexadecimal::spelled;
use gd_base::memory::Memory;
use gd_codec::{Group, encode_group};
use gd_fault::fault::LineFault;
use gd_json::value::Json;
use gd_reply::lines::{err_line_plain, ok_line};
use gd_reply::members::{object, push_count, push_member};
use gd_reply::refusal::Refusal;
use std::alloc::Global;

/// The reply line of a word, at a dateline.
pub(crate) fn word_line(
    alloc: Global,
    dateline: u32,
    line: u64,
    word: &str,
) -> Result<Vec<u8>, Memory>
    ensures { IfOk result (λ bytes. bytes.items ≡ word_line dateline line word.now) }
{
    Ok(ok_line(alloc, dateline, line, &Json::text(alloc, word)?)?.bytes)
}

/// The result of an ask: from which number on, and the group in hexadecimal digits.
fn part_json(alloc: Global, from: u32, group: &Group) -> Result<Json, Memory>
    requires { MayWrite group.now }
    ensures { IfOk result (λ json. view json ≡ part_json from group.now) }
{
    let bytes = encode_group(alloc, group.batches())?;
    let text = spelled(alloc, &bytes)?;
    let mut members = Vec::new(alloc);
    push_count(alloc, &mut members, "from", u64::from(from))?;
    push_member(alloc, &mut members, "group", Json::Text(text))?;
    Ok(object(members))
}

/// The reply line of a group, from a number on, at a dateline.
pub(crate) fn part_line(
    alloc: Global,
    dateline: u32,
    line: u64,
    from: u32,
    group: &Group,
) -> Result<Vec<u8>, Memory>
    requires { MayWrite group.now }
    ensures { IfOk result (λ bytes. bytes.items
        ≡ ok_line_of dateline line (part_json from group.now)) }
{
    Ok(ok_line(alloc, dateline, line, &part_json(alloc, from, group)?)?.bytes)
}

/// The reply line to a line that has too many bytes.
pub(crate) fn long_line(alloc: Global, line: u64) -> Result<Vec<u8>, Memory>
    requires { line < 2 ^ 63 }
    ensures { IfOk result (λ reply. reply.items ≡ input_fault_line line line_too_long) }
{
    err_line_plain(alloc, line, &Refusal::LineTooLong)
}

/// The reply line to a line that is refused by its form.
pub(crate) fn fault_line(alloc: Global, line: u64, fault: LineFault) -> Result<Vec<u8>, Memory>
    requires { line < 2 ^ 63 }
    ensures refusal { fault ≢ LineFault.Memory
        → IfOk result (λ reply. reply.items ≡ input_fault_line line (fault_view fault)) }
    ensures memory { fault ≡ LineFault.Memory → IsErr result }
{
    match fault {
        LineFault::Json(fault) => err_line_plain(alloc, line, &Refusal::Json(fault)),
        LineFault::BadLine => err_line_plain(alloc, line, &Refusal::BadLine),
        LineFault::BadQuery { code, path } => {
            err_line_plain(alloc, line, &Refusal::BadQuery { code, path })
        }
        LineFault::Memory => Err(Memory),
    }
}
