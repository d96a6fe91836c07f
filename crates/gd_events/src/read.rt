//! The event that the name and the value of a line's one member spell.
ghost use Rattle.std.specs.Prelude.{◌≡◌, ◌≤◌, ◌∷◌, [], false, IfSome, bytes_eq, option_and_then};
ghost use Rattle.std.specs.Prelude.{option_map, codes, Some, List, ℕ};
ghost use Rattle.gd_tree.specs.Bounds.{json_depth};
ghost use Rattle.gd_tree.specs.Json as tree;
ghost use Rattle.gd_tree.specs.Look.{get, only, member_of, text_of};
ghost use Rattle.gd_json.specs.View.{view, member_view, members_view};
ghost use Rattle.gd_runs.specs.Request.{session_of};
ghost use Rattle.gd_runs.specs.Replay.{number_between};
ghost use Rattle.gd_events.specs.Events.{event_view, GivesEvent};
ghost use Rattle.gd_events.specs.Parts.{sole_of, event_in, sid_in, or_no_line, begun_of};
ghost use Rattle.gd_events.specs.Parts.{written_of, thawed_of};

use crate::event::Event;
use gd_fault::fault::LineFault;
use gd_json::value::{Json, JsonText};
use gd_mql::line::{read_request, write_request};
use gd_mql::object::{member, only_of, take};
use gd_mql::session::session_number;
use std::alloc::Global;

/// The greatest budget of a slice.
const BUDGET_LIMIT: u64 = 1_000_000;

/// The greatest dateline.
const DATELINE_LIMIT: u64 = 4_294_967_295;

/// The one member of an object that has one.
pub(crate) fn sole_member(line: Json) -> Option<(JsonText, Json)>
    ensures { option_map member_view result ≡ sole_of (view line) }
{
    match line {
        Json::Object(members) => sole(members),
        _ => None,
    }
}

fn sole(mut members: Vec<(JsonText, Json)>) -> Option<(JsonText, Json)>
    ensures { option_map member_view result ≡ sole_of (tree.object (members_view members.items)) }
{
    let last = members.pop()?;
    if members.as_slice().is_empty() {
        Some(last)
    } else {
        None
    }
}

/// The session that the member `sid` names.
fn sid_among(members: &[(JsonText, Json)]) -> Option<u32>
    ensures { result ≡ session_of (get (codes "sid") (members_view members.now)) }
{
    session_number(member(members, "sid")?)
}

/// The session of an event, whose value has no members but of these names.
fn sid_of(value: &Json, a: &str, b: &str, c: &str) -> Option<u32>
    ensures { result ≡ sid_in (a.now ∷ b.now ∷ c.now ∷ c.now ∷ []) (view value.now) }
{
    let members = value.as_object()?;
    if only_of(members, a, b, c, c) {
        sid_among(members)
    } else {
        None
    }
}

/// The number that the member of this name has, where it is one from `low` to `high`.
fn number_of(value: &Json, name: &str, low: u64, high: u64) -> Option<u64>
    ensures number { result ≡ number_between low high (member_of name.now (view value.now)) }
    ensures bound { IfSome result (λ n. n ≤ high) }
{
    let number = u64::try_from(value.member(name)?.as_int()?).ok()?;
    if low <= number && number <= high {
        Some(number)
    } else {
        None
    }
}

fn slice(value: &Json) -> Option<Event>
    ensures { or_no_line (option_map event_view result) ≡ event_in (codes "slice")
        (view value.now) }
{
    let sid = sid_of(value, "budget", "sid", "sid")?;
    let budget = number_of(value, "budget", 1, BUDGET_LIMIT)?;
    Some(Event::Slice { sid, budget })
}

fn learn(value: &Json) -> Option<Event>
    ensures { or_no_line (option_map event_view result) ≡ event_in (codes "learn")
        (view value.now) }
{
    let sid = sid_of(value, "dateline", "sid", "sid")?;
    let dateline = number_of(value, "dateline", 0, DATELINE_LIMIT)?;
    Some(Event::Learn {
        sid,
        dateline: dateline as u32,
    })
}

fn freeze(value: &Json) -> Option<Event>
    ensures { or_no_line (option_map event_view result) ≡ event_in (codes "freeze")
        (view value.now) }
{
    let sid = sid_of(value, "sid", "sid", "sid")?;
    Some(Event::Freeze { sid })
}

/// Whether there are no members.
fn is_bare(members: &[(JsonText, Json)]) -> bool
    ensures { result ≡ only [] (members_view members.now) }
{
    members.is_empty()
}

fn reopen(value: &Json) -> Option<Event>
    ensures { or_no_line (option_map event_view result) ≡ event_in (codes "reopen")
        (view value.now) }
{
    if is_bare(value.as_object()?) {
        Some(Event::Reopen)
    } else {
        None
    }
}

/// The event of this name, where it has no request.
fn plain_event(name: &str, value: &Json) -> Option<Event>
    requires begin { bytes_eq name.now (codes "begin") ≡ false }
    requires write { bytes_eq name.now (codes "write") ≡ false }
    requires thaw { bytes_eq name.now (codes "thaw") ≡ false }
    ensures { or_no_line (option_map event_view result) ≡ event_in name.now (view value.now) }
{
    if name == "slice" {
        return slice(value);
    }
    if name == "learn" {
        return learn(value);
    }
    if name == "freeze" {
        return freeze(value);
    }
    if name == "reopen" {
        return reopen(value);
    }
    None
}

/// The event by which a session begins the read that an envelope spells.
fn begun(alloc: Global, sid: u32, envelope: Json) -> Result<Event, LineFault>
    requires { json_depth (view envelope) ≤ 15 }
    ensures { GivesEvent (begun_of sid (view envelope)) result }
{
    let request = read_request(alloc, envelope)?;
    Ok(Event::Begin { sid, request })
}

/// The event by which a session writes what an envelope spells.
fn written(alloc: Global, sid: u32, envelope: Json) -> Result<Event, LineFault>
    requires { json_depth (view envelope) ≤ 15 }
    ensures { GivesEvent (written_of sid (view envelope)) result }
{
    let request = write_request(alloc, envelope)?;
    Ok(Event::Write { sid, request })
}

/// The event by which a session goes on from a text with the read that an envelope spells.
fn thawed(alloc: Global, sid: u32, text: JsonText, envelope: Json) -> Result<Event, LineFault>
    requires { json_depth (view envelope) ≤ 15 }
    ensures { GivesEvent (thawed_of sid text (view envelope)) result }
{
    let request = read_request(alloc, envelope)?;
    Ok(Event::Thaw { sid, request, text })
}

fn begin(alloc: Global, value: Json) -> Result<Event, LineFault>
    requires { json_depth (view value) ≤ 16 }
    ensures { GivesEvent (event_in (codes "begin") (view value)) result }
{
    match sid_of(&value, "read", "sid", "sid") {
        Some(sid) => match take(value, "read") {
            Some(envelope) => begun(alloc, sid, envelope),
            None => Err(LineFault::BadLine),
        },
        None => Err(LineFault::BadLine),
    }
}

fn write(alloc: Global, value: Json) -> Result<Event, LineFault>
    requires { json_depth (view value) ≤ 16 }
    ensures { GivesEvent (event_in (codes "write") (view value)) result }
{
    match sid_of(&value, "sid", "write", "write") {
        Some(sid) => match take(value, "write") {
            Some(envelope) => written(alloc, sid, envelope),
            None => Err(LineFault::BadLine),
        },
        None => Err(LineFault::BadLine),
    }
}

/// The text that the member `text` has.
fn text_in(value: &Json) -> Option<&JsonText>
    ensures { option_map (λ text. text.now) result ≡ option_and_then text_of
        (member_of (codes "text") (view value.now)) }
{
    value.member("text")?.as_text()
}

fn thaw(alloc: Global, value: Json) -> Result<Event, LineFault>
    requires { json_depth (view value) ≤ 16 }
    ensures { GivesEvent (event_in (codes "thaw") (view value)) result }
{
    match sid_of(&value, "read", "sid", "text") {
        Some(sid) => thaw_by(alloc, sid, value),
        None => Err(LineFault::BadLine),
    }
}

fn thaw_by(alloc: Global, sid: u32, value: Json) -> Result<Event, LineFault>
    requires shallow { json_depth (view value) ≤ 16 }
    requires sid { Some sid ≡ sid_in (codes "read" ∷ codes "sid" ∷ codes "text" ∷ codes "text" ∷ [])
        (view value) }
    ensures { GivesEvent (event_in (codes "thaw") (view value)) result }
{
    match text_in(&value) {
        Some(text) => thaw_from(alloc, sid, text.copy()?, value),
        None => Err(LineFault::BadLine),
    }
}

fn thaw_from(alloc: Global, sid: u32, text: JsonText, value: Json) -> Result<Event, LineFault>
    requires shallow { json_depth (view value) ≤ 16 }
    requires sid { Some sid ≡ sid_in (codes "read" ∷ codes "sid" ∷ codes "text" ∷ codes "text" ∷ [])
        (view value) }
    requires text { Some text ≡ option_and_then text_of (member_of (codes "text") (view value)) }
    ensures { GivesEvent (event_in (codes "thaw") (view value)) result }
{
    match take(value, "read") {
        Some(envelope) => thawed(alloc, sid, text, envelope),
        None => Err(LineFault::BadLine),
    }
}

/// The event of this name and value.
pub(crate) fn event_named(alloc: Global, name: &str, value: Json) -> Result<Event, LineFault>
    requires { json_depth (view value) ≤ 16 }
    ensures { GivesEvent (event_in name.now (view value)) result }
{
    if name == "begin" {
        return begin(alloc, value);
    }
    if name == "write" {
        return write(alloc, value);
    }
    if name == "thaw" {
        return thaw(alloc, value);
    }
    match plain_event(name, &value) {
        Some(event) => Ok(event),
        None => Err(LineFault::BadLine),
    }
}
