//! The session of a line.
ghost use Rattle.std.specs.Prelude.{◌≡◌, Some};
ghost use Rattle.gd_json.specs.View.{view};
ghost use Rattle.gd_runs.specs.Request.{session_of};
ghost use Rattle.gd_mql.specs.Line.{line_session};

use crate::object::has_only;
use gd_json::value::Json;

/// The number of sessions, which are counted from 0.
pub const SESSIONS: u32 = 64;

/// The number of a session, from 0 to 63.
pub fn session_number(value: &Json) -> Option<u32>
    ensures { result ≡ session_of (Some (view value.now)) }
{
    let number = u32::try_from(value.as_int()?).ok()?;
    if number < SESSIONS {
        Some(number)
    } else {
        None
    }
}

/// The session, where the value is an object of just `sid`, a number from 0 to 63, and of one of
/// `read` and `write`.
pub(crate) fn session(line: &Json) -> Option<u32>
    ensures { result ≡ line_session (view line.now) }
{
    if !has_only(line, "read", "sid") && !has_only(line, "sid", "write") {
        return None;
    }
    if line.member("read").is_some() == line.member("write").is_some() {
        return None;
    }
    session_number(line.member("sid")?)
}
