//! The reply to a read, where it is kept.
ghost use Rattle.std.specs.Prelude.{◌≡◌, ◌≢◌, IfOk, IfSome, option_map};
ghost use Rattle.gd_mql.specs.Requests.{read_set_view};
ghost use Rattle.gd_cache.specs.Asked.{dateline_at};
ghost use Rattle.gd_lookup.specs.Found.{within_reply, found_line, found_reply};
ghost use Rattle.gd_lookup.specs.Found.{IsReplyAt, IsReplyFor};

use gd_base::memory::Memory;
use gd_cache::cache::ReplyCache;
use gd_cache::key::{ReplyKey, ReplyText};
use gd_cache::line::kept_line;
use gd_mql::request::ReadSet;
use gd_read::dateline::dateline_asked;
use gd_read::fault::ReadFault;
use std::alloc::Global;

/// The greatest number of bytes of a reply line.
const MAX_REPLY: usize = 1_048_576;

/// The line, if it is no longer than a reply may be.
fn short(line: Vec<u8>) -> Option<Vec<u8>>
    ensures { option_map (λ bytes. bytes.items) result ≡ within_reply line.items }
{
    if line.len() <= MAX_REPLY {
        return Some(line);
    }
    None
}

/// The reply line, at the number of a line, of what a cache keeps under a text and a dateline. None
/// where it keeps nothing there, or where the line would be longer than a reply may be: the number
/// of a line may have more digits than that for which it was kept. `Memory`: an allocation was
/// refused. Nothing changes.
pub fn found_at(
    alloc: Global,
    cache: &ReplyCache,
    text: &ReplyText,
    dateline: u32,
    line: u64,
) -> Result<Option<Vec<u8>>, Memory>
    ensures found { IfOk result (λ found. option_map (λ bytes. bytes.items) found
        ≡ found_line cache.now text.now dateline line) }

    // It is the reply to whatever read has this text, wherever it has this dateline, over all
    // batches over which what is kept is right.
    ensures right { IfOk result (λ found. IfSome found (λ bytes. IsReplyAt cache.now text.now
        dateline line bytes.items)) }
{
    let key = ReplyKey {
        text: text.copy()?,
        dateline,
    };
    match cache.peek(&key)? {
        Some(kept) => Ok(short(kept_line(alloc, dateline, line, &kept)?)),
        None => Ok(None),
    }
}

/// Nothing. `Memory`: the read is not refused, an allocation is.
fn refused(fault: &ReadFault) -> Result<(), Memory>
    ensures { IfOk result (λ _. fault.now ≢ ReadFault.Memory) }
{
    match fault {
        ReadFault::BadCursor { .. } => Ok(()),
        ReadFault::CursorAhead { .. } => Ok(()),
        ReadFault::BadQuery { .. } => Ok(()),
        ReadFault::NoSuchId { .. } => Ok(()),
        ReadFault::NoSuchProperty { .. } => Ok(()),
        ReadFault::Memory => Err(Memory),
    }
}

/// The dateline of a read over so many batches, none where it is refused for its cursor. `Memory`:
/// an allocation was refused.
fn dateline_of(at: u32, request: &ReadSet) -> Result<Option<u32>, Memory>
    ensures { IfOk result (λ dateline. dateline ≡ dateline_at at (read_set_view request.now)) }
{
    match dateline_asked(at, request) {
        Ok(dateline) => Ok(Some(dateline)),
        Err(fault) => {
            refused(&fault)?;
            Ok(None)
        }
    }
}

/// The reply line to a read over so many batches, where a cache keeps it under the text of the
/// read. None where it does not, and where the read is refused for its cursor. `Memory`: an
/// allocation was refused. Nothing changes.
pub fn found_for(
    alloc: Global,
    cache: &ReplyCache,
    text: &ReplyText,
    at: u32,
    line: u64,
    request: &ReadSet,
) -> Result<Option<Vec<u8>>, Memory>
    ensures found { IfOk result (λ found. option_map (λ bytes. bytes.items) found
        ≡ found_reply cache.now text.now (dateline_at at (read_set_view request.now)) line) }

    // It is the reply to the read, over all batches over which what is kept is right.
    ensures right { IfOk result (λ found. IfSome found (λ bytes. IsReplyFor cache.now text.now
        (read_set_view request.now) at line bytes.items)) }
{
    match dateline_of(at, request)? {
        Some(dateline) => found_at(alloc, cache, text, dateline, line),
        None => Ok(None),
    }
}
