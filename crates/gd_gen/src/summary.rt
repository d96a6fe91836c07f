//! What the replies to generated lines come to.
ghost use Rattle.std.specs.Prelude.{◌≡◌, ◌<◌, ◌≤◌, ◌^◌, length, take, drop, map, option_map};
ghost use Rattle.std.specs.Prelude.{IfOk, IfSome, OnOk};
ghost use Rattle.gd_json.specs.View.{view, member_view};
ghost use Rattle.gd_gen.specs.Replies as replies;
ghost use Rattle.gd_gen.specs.Summary as summary;

use crate::replies::{Lines, is_ok_line, result_of};
use gd_base::memory::Memory;
use gd_json::text::json_text;
use gd_json::value::Json;
use gd_reply::members::{Members, list, object, push_count, push_member};
use std::alloc::Global;

/// How many lines at the end of an output reply to reads.
const READS: usize = 20;

/// How many of them reply to the first reads, and how many to the second.
const HALF: usize = 10;

/// How many lines an output has, where each of them tells success.
fn count_ok(alloc: Global, output: &[u8]) -> Result<Option<usize>, Memory>
    ensures count { IfOk result (λ count. count
        ≡ summary.ok_count (replies.reply_lines output.now)) }
    ensures fits { IfOk result (λ count. IfSome count (λ n. n ≤ 2 ^ 63)) }
{
    let mut lines = Lines::new(output);
    let mut count = 0;
    while let Some(line) = lines.next() {
        if !is_ok_line(alloc, line)? {
            return Ok(None);
        }
        count += 1;
    }
    Ok(Some(count))
}

/// The results that the next lines tell, so many of them.
fn results(alloc: Global, lines: &mut Lines<'_>, count: usize) -> Result<Vec<Json>, Memory>
    ensures found { IfOk result (λ found. map view found.items
        ≡ map replies.result_of (take count lines.old)) }
    ensures later { OnOk result (lines.new ≡ drop count lines.old) }
{
    let mut found = Vec::new(alloc);
    for _place in 0..count {
        let Some(line) = lines.next() else {
            return Ok(found);
        };
        found.push(result_of(alloc, line)?)?;
    }
    Ok(found)
}

/// The members of the summary: the results of the first reads, the number of writes and the results
/// of the second reads.
fn summary_members(
    alloc: Global,
    counts: Vec<Json>,
    entries: usize,
    linked: Vec<Json>,
) -> Result<Members, Memory>
    requires { entries < 2 ^ 63 }
    ensures { IfOk result (λ members. map member_view members.items
        ≡ summary.summary_members (map view counts.items) entries (map view linked.items)) }
{
    let mut members = Vec::new(alloc);
    push_member(alloc, &mut members, "counts", list(counts))?;
    push_count(alloc, &mut members, "entries", entries as u64)?;
    push_member(alloc, &mut members, "linked", list(linked))?;
    Ok(members)
}

/// The line of these results and this number of writes.
#[tactic(auto, unfolding(crate::specs::Summary::summary))]
fn summary_line(
    alloc: Global,
    counts: Vec<Json>,
    entries: usize,
    linked: Vec<Json>,
) -> Result<Vec<u8>, Memory>
    requires { entries < 2 ^ 63 }
    ensures { IfOk result (λ line. line.items
        ≡ summary.summary (map view counts.items) entries (map view linked.items)) }
{
    let members = summary_members(alloc, counts, entries, linked)?;
    let line = json_text(alloc, &object(members))?;
    Ok(line)
}

/// The summary of an output that has so many lines, of which the last 20 reply to reads.
fn summary_of_lines(alloc: Global, output: &[u8], count: usize) -> Result<Vec<u8>, Memory>
    requires lines { count ≡ length (replies.reply_lines output.now) }
    requires enough { 20 ≤ count }
    requires fits { count ≤ 2 ^ 63 }
    ensures { IfOk result (λ line. line.items
        ≡ summary.summary_of_lines (replies.reply_lines output.now)) }
{
    let entries = count - READS;
    let mut lines = Lines::new(output);
    lines.skip(entries);
    let counts = results(alloc, &mut lines, HALF)?;
    let linked = results(alloc, &mut lines, HALF)?;
    let line = summary_line(alloc, counts, entries, linked)?;
    Ok(line)
}

/// The line that tells what an output comes to, without a newline: the results of its first ten
/// reads, the number of its writes and the results of its last ten reads, as
/// `{"counts":[..],"entries":N,"linked":[..]}`. Nothing where a line of the output does not tell
/// success, or where it has fewer than 20 lines. `Memory`: an allocation was refused.
pub fn summary_of(alloc: Global, output: &[u8]) -> Result<Option<Vec<u8>>, Memory>
    ensures { IfOk result (λ found. option_map (λ line. line.items) found
        ≡ summary.summary_of output.now) }
{
    let Some(count) = count_ok(alloc, output)? else {
        return Ok(None);
    };
    if count < READS {
        return Ok(None);
    }
    let line = summary_of_lines(alloc, output, count)?;
    Ok(Some(line))
}
