//! The parts of a line that a node takes.
ghost use Rattle.std.specs.Prelude.{◌≡◌, ◌≤◌, IfOk, IfSome, option_map, codes};
ghost use Rattle.gd_tree.specs.Look.{get};
ghost use Rattle.gd_json.specs.View.{view, members_view};
ghost use Rattle.gd_runs.specs.Replay.{number_between};
ghost use Rattle.gd_following.specs.Parts as parts;

use crate::hexadecimal::bytes_spelled;
use gd_base::memory::Memory;
use gd_json::value::{Json, JsonText};
use gd_mql::object::{is_made_of_one, is_made_of_two, member};
use gd_mql::session::session_number;
use std::alloc::Global;

/// The greatest number of a batch that a line names.
const NUMBER_LIMIT: u64 = 4_294_967_295;

/// How many batches are asked for at most.
const MOST_LIMIT: u64 = 256;

/// The value of the one member of an object, where it has this name.
#[tactic(auto, unfolding(crate::specs::Parts::sole))]
pub(crate) fn sole<'a>(line: &'a Json, name: &str) -> Option<&'a Json>
    ensures { option_map (λ part. view part.now) result ≡ parts.sole name.now (view line.now) }
{
    let members = line.as_object()?;
    if is_made_of_one(members, name) {
        member(members, name)
    } else {
        None
    }
}

/// The number that the member of this name has, where it is one from `low` to `high`.
fn number_of(members: &[(JsonText, Json)], name: &str, low: u64, high: u64) -> Option<u64>
    ensures number { result ≡ number_between low high (get name.now (members_view members.now)) }
    ensures bounds { IfSome result (λ n. (low ≤ n) × (n ≤ high)) }
{
    let number = u64::try_from(member(members, name)?.as_int()?).ok()?;
    if low <= number && number <= high {
        Some(number)
    } else {
        None
    }
}

/// The number of a batch that the member `from` has.
fn from_of(members: &[(JsonText, Json)]) -> Option<u32>
    ensures { result ≡ number_between 0 4_294_967_295
        (get (codes "from") (members_view members.now)) }
{
    Some(number_of(members, "from", 0, NUMBER_LIMIT)? as u32)
}

/// How many batches the member `most` asks for.
fn most_of(members: &[(JsonText, Json)]) -> Option<u32>
    ensures number { result ≡ number_between 1 256 (get (codes "most") (members_view members.now)) }
    ensures bounds { IfSome result (λ most. (1 ≤ most) × (most ≤ 256)) }
{
    Some(number_of(members, "most", 1, MOST_LIMIT)? as u32)
}

/// From which number on is asked, and for how many batches at most: 1 to 256.
#[tactic(auto, unfolding(crate::specs::Parts::asked))]
pub(crate) fn asked(value: &Json) -> Option<(u32, u32)>
    ensures asked { result ≡ parts.asked (view value.now) }
    ensures bounds { IfSome result (λ ask. (1 ≤ ask.1) × (ask.1 ≤ 256)) }
{
    let members = value.as_object()?;
    if !is_made_of_two(members, "from", "most") {
        return None;
    }
    let from = from_of(members)?;
    let most = most_of(members)?;
    Some((from, most))
}

/// From which number on a group is given, and the text of its bytes.
#[tactic(auto, unfolding(crate::specs::Parts::given_text))]
fn given_text(value: &Json) -> Option<(u32, &JsonText)>
    ensures { option_map (λ given. (given.0, given.1.now)) result
        ≡ parts.given_text (view value.now) }
{
    let members = value.as_object()?;
    if !is_made_of_two(members, "from", "group") {
        return None;
    }
    let from = from_of(members)?;
    let text = member(members, "group")?.as_text()?;
    Some((from, text))
}

/// From which number on a group is given, and its bytes; none where the value gives no group.
/// `Memory`: an allocation was refused.
pub(crate) fn given(alloc: Global, value: &Json) -> Result<Option<(u32, Vec<u8>)>, Memory>
    ensures { IfOk result (λ given. option_map (λ g. (g.0, g.1.items)) given
        ≡ parts.given (view value.now)) }
{
    match given_text(value) {
        Some((from, text)) => match bytes_spelled(alloc, text.as_str().as_bytes())? {
            Some(bytes) => Ok(Some((from, bytes))),
            None => Ok(None),
        },
        None => Ok(None),
    }
}

/// The session of a line that is made of a session and a read.
#[tactic(auto, unfolding(crate::specs::Parts::reader))]
pub(crate) fn reader(line: &Json) -> Option<u32>
    ensures { result ≡ parts.reader (view line.now) }
{
    let members = line.as_object()?;
    if is_made_of_two(members, "read", "sid") {
        session_number(member(members, "sid")?)
    } else {
        None
    }
}
