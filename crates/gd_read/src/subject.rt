//! What a reading reads.
ghost use Rattle.std.specs.Prelude.{◌≡◌};
ghost use Rattle.gd_runs.specs.Request.{asks_page};
ghost use Rattle.gd_mql.specs.Requests.{cursor_view};

use gd_frozen::cursor::Cursor;
use gd_mql::request::{CursorAsk, ReadRequest};

/// What a reading reads: its request, at a dateline, from behind the row of a cursor if there is
/// one.
#[derive(Drop)]
pub(crate) struct Subject {
    pub(crate) request: ReadRequest,
    pub(crate) dateline: u32,
    pub(crate) after: Option<Cursor>,
}

impl Subject {
    /// Whether the reply tells a cursor.
    pub(crate) fn with_cursor(&self) -> bool
        ensures { result ≡ asks_page (cursor_view self.now.request.cursor) }
    {
        match &self.request.cursor {
            CursorAsk::Absent => false,
            CursorAsk::First | CursorAsk::After(_) => true,
        }
    }
}
