//! Reply lines to lines that are no event.
ghost use Rattle.std.specs.Prelude.{◌≡◌, ◌≢◌, ◌<◌, ◌^◌, IfOk, IsErr};
ghost use Rattle.gd_mql.specs.Line.{fault_view};
ghost use Rattle.gd_runs.specs.Input.{input_fault_line, line_too_long};
ghost use Rattle.gd_reply.specs.Replies.{reply_text};
ghost use Rattle.gd_replay.specs.Lines.{TellsTooLong, TellsFault};

use gd_base::memory::Memory;
use gd_fault::fault::LineFault;
use gd_reply::lines::err_line_plain;
use gd_reply::refusal::Refusal;
use gd_reply::reply::Reply;
use std::alloc::Global;

/// The reply line to a line that has too many bytes.
fn long_line(alloc: Global, line: u64) -> Result<Vec<u8>, Memory>
    requires { line < 2 ^ 63 }
    ensures { IfOk result (λ reply. reply.items ≡ input_fault_line line line_too_long) }
{
    err_line_plain(alloc, line, &Refusal::LineTooLong)
}

/// The reply line to a line that is refused by its form.
fn fault_line(alloc: Global, line: u64, fault: LineFault) -> Result<Vec<u8>, Memory>
    requires { line < 2 ^ 63 }
    ensures refusal { fault ≢ LineFault.Memory
        → IfOk result (λ reply. reply.items ≡ input_fault_line line (fault_view fault)) }
    ensures memory { fault ≡ LineFault.Memory → IsErr result }
{
    match fault {
        LineFault::Json(fault) => err_line_plain(alloc, line, &Refusal::Json(fault)),
        LineFault::BadLine => err_line_plain(alloc, line, &Refusal::BadLine),
        LineFault::BadQuery { code, path } => {
            err_line_plain(alloc, line, &Refusal::BadQuery { code, path })
        }
        LineFault::Memory => Err(Memory),
    }
}

/// Refuses a line that has too many bytes, or tells that there was no memory for that.
pub(crate) fn refuse_long(alloc: Global, line: u64) -> Reply
    requires { line < 2 ^ 63 }
    ensures { TellsTooLong line (reply_text result) }
{
    Reply::made(line, long_line(alloc, line))
}

/// Refuses a line that is no event, or tells that there was no memory for that.
pub(crate) fn refuse(alloc: Global, line: u64, fault: LineFault) -> Reply
    requires { line < 2 ^ 63 }
    ensures { TellsFault line fault (reply_text result) }
{
    Reply::made(line, fault_line(alloc, line, fault))
}
