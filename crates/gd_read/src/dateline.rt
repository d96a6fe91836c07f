//! The dateline that a read asks for.
ghost use Rattle.std.specs.Prelude.{◌≤◌, IfOk, IfErr};
ghost use Rattle.gd_mql.specs.Requests.{cursor_view, read_set_view};
ghost use Rattle.gd_read.specs.Begun.{HasOffset, page_dateline, read_dateline, Begins};

use crate::fault::ReadFault;
use crate::query::{cursor_asked, dateline_behind};
use gd_mql::request::{CursorAsk, ReadSet};

/// The dateline of a page, where the latest one is this.
fn page_asked(latest: u32, ask: &CursorAsk) -> Result<u32, ReadFault>
    ensures given { Begins latest (λ n. n) (page_dateline latest (cursor_view ask.now)) result }
    ensures below { IfOk result (λ n. n ≤ latest) }
    ensures offset { IfErr result (λ fault. HasOffset fault) }
{
    match cursor_asked(latest, ask) {
        Ok(after) => Ok(dateline_behind(latest, &after)),
        Err(fault) => Err(fault),
    }
}

/// The dateline at which a read begins, where the latest one is this: that of its cursor, if it
/// asks for the page behind one, and else the latest. Nothing else of the read is looked at.
/// `BadCursor`, `CursorAhead`: the refusals of the cursor, as `Reading::begin` gives them.
/// `Memory`: an allocation was refused.
pub fn dateline_asked(latest: u32, request: &ReadSet) -> Result<u32, ReadFault>
    ensures given { Begins latest (λ n. n) (read_dateline latest (read_set_view request.now))
        result }
    ensures below { IfOk result (λ n. n ≤ latest) }
    ensures offset { IfErr result (λ fault. HasOffset fault) }
{
    match request {
        ReadSet::One(request) => page_asked(latest, &request.cursor),
        ReadSet::Several(_) => Ok(latest),
    }
}
