//! Asks, and their reply lines.
ghost use Rattle.std.specs.Prelude.{◌≡◌, ◌≤◌, ◌<◌, ◌^◌, IfOk};
ghost use Rattle.gd_defs.specs.Lines.{err_line, cursor_ahead};
ghost use Rattle.gd_following.specs.Replies.{AskReply};

use crate::lines::{part_line, word_line};
use crate::refusal::{Refusal, refusal_line};
use gd_base::memory::Memory;
use gd_disk::disk::Disk;
use gd_follow::{AskFault, Asked, Node};
use gd_reply::lines::err_line;
use gd_reply::refusal::Refusal as Common;
use std::alloc::Global;

/// The reply line to an ask from a number that is above that of the batches, at that dateline.
fn ahead_line(alloc: Global, have: u32, line: u64, asked: u32) -> Result<Vec<u8>, Memory>
    requires { line < 2 ^ 63 }
    ensures { IfOk result (λ bytes. bytes.items ≡ err_line have line (cursor_ahead asked have)) }
{
    err_line(alloc, have, line, &Common::CursorAhead { asked, have })
}

/// The reply line to an ask for at most so many batches, 1 to 256, from a number on. `Memory`: an
/// allocation was refused.
pub(crate) fn ask_reply<D: Disk>(
    alloc: Global,
    node: &Node<D>,
    line: u64,
    from: u32,
    most: u32,
) -> Result<Vec<u8>, Memory>
    requires line { line < 2 ^ 63 }
    requires some { 1 ≤ most }
    requires few { most ≤ 256 }
    ensures { IfOk result (λ bytes. AskReply node.now.list line from most bytes.items) }
{
    let entries = node.store().requests();
    match node.ask(from, most) {
        Ok(Asked::Part(group)) => part_line(alloc, entries, line, from, &group),
        Ok(Asked::Nothing) => word_line(alloc, entries, line, "nothing"),
        Err(AskFault::CursorAhead { asked, .. }) => ahead_line(alloc, entries, line, asked),
        Err(AskFault::BatchTooLarge { bytes, entry }) => {
            refusal_line(
                alloc,
                entries,
                line,
                Refusal::BatchTooLarge { bytes, entry },
            )
        }
        Err(AskFault::Memory) => Err(Memory),
    }
}
