//! An event of a run: what one line asks of the core.
ghost use Rattle.std.specs.Prelude.{◌≡◌, ◌≢◌, ◌≤◌, length, Err};
ghost use Rattle.gd_runs.specs.Replay.{event_from};
ghost use Rattle.gd_events.specs.Events.{GivesEvent};

use crate::read::{event_named, sole_member};
use gd_fault::fault::LineFault;
use gd_json::from::{JsonFault, json_from};
use gd_json::value::JsonText;
use gd_mql::line::LINE_LIMIT;
use gd_mql::request::{ReadSet, WriteRequest};
use std::alloc::Global;

/// What one line asks of the core. A session is a number from 0 to 63.
#[derive(Drop)]
pub enum Event {
    /// The session begins a read, and drops the reading that it held.
    Begin {
        sid: u32,
        request: ReadSet,
    },
    /// The session goes on with its reading for a budget of steps, from 1 to 1,000,000.
    Slice {
        sid: u32,
        budget: u64,
    },
    /// The session writes.
    Write {
        sid: u32,
        request: WriteRequest,
    },
    /// The session learns of a dateline.
    Learn {
        sid: u32,
        dateline: u32,
    },
    /// The session asks for the text of its reading.
    Freeze {
        sid: u32,
    },
    /// The session begins a read from the text of a reading.
    Thaw {
        sid: u32,
        request: ReadSet,
        text: JsonText,
    },
    /// The store is closed and opened again.
    Reopen,
}

/// The event that the bytes of a line spell: an object of one member, named as the event, whose
/// value is an object of just the members of that event. They are at most `LINE_LIMIT` bytes,
/// without the newline that ended them. First comes `Json`: the bytes are no JSON of this profile;
/// then `BadLine`: the value is no event; then `BadQuery`: the request of a begin, a write or a
/// thaw has a fault of form, and the first in the order of the walk is told. `Memory`: an
/// allocation was refused.
pub fn event_from(alloc: Global, bytes: &[u8]) -> Result<Event, LineFault>
    requires { length bytes.now ≤ LINE_LIMIT }
    ensures asked { GivesEvent (event_from bytes.now) result }
    ensures memory { result ≢ Err (LineFault.Json JsonFault.Memory) }
{
    let line = json_from(alloc, bytes)?;
    match sole_member(line) {
        Some((name, value)) => event_named(alloc, name.as_str(), value),
        None => Err(LineFault::BadLine),
    }
}
