//! Why a reading does not begin.
ghost use Rattle.std.specs.Prelude.{◌≡◌, ◌≢◌, ◌<◌, ◌^◌, Err, IfOk, IfSome};
ghost use Rattle.gd_tree.specs.Json.{compact};
ghost use Rattle.gd_defs.specs.Lines.{err_line as err_line_of};
ghost use Rattle.gd_defs.specs.Reply.{answer_item};
ghost use Rattle.gd_reply.specs.Refusals.{refusal_of, CountsFit};
ghost use Rattle.gd_read.specs.Begun.{fault_at, HasOffset};

use gd_base::memory::Memory;
use gd_compile::fault::Unknown;
use gd_fault::fault::{Code, Path};
use gd_json::value::JsonText;
use gd_reply::answer::Answer;
use gd_reply::lines::err_line;
use gd_reply::refusal::Refusal;
use std::alloc::Global;
use thiserror::Error;

/// Why a reading does not begin. A query has no meaning at a dateline: that of the cursor, or the
/// latest one.
#[derive(Debug, Drop, Error)]
pub enum ReadFault {
    /// The text of the cursor is none, and so many of its bytes begin one.
    #[error("no cursor: {offset} bytes begin one")]
    BadCursor {
        offset: u64,
    },
    /// The dateline of the cursor is above the one that there is.
    #[error("the cursor is of dateline {asked}, and there is {have}")]
    CursorAhead {
        asked: u32,
        have: u32,
    },
    /// What stands at the end of this path does not go with what its words stand for.
    #[error("the query is refused at {path:?}: {code}")]
    BadQuery {
        dateline: u32,
        code: Code,
        path: Path,
    },
    /// No object has this id.
    #[error("no object has the id {:?}", .path.as_str())]
    NoSuchId {
        dateline: u32,
        path: JsonText,
    },
    /// No property is meant by the word of the name at the end of this path.
    #[error("no property is meant at {path:?}")]
    NoSuchProperty {
        dateline: u32,
        path: Path,
    },
    /// An allocation was refused.
    #[error("out of memory")]
    Memory,
}

impl From<Memory> for ReadFault {
    ghost use Rattle.gd_read.specs.declared.fault.ReadFault.TheVariants.{Memory as no_memory};

    ghost from_gives = { λ _ fault. fault ≡ no_memory };

    fn from(_refused: Memory) -> ReadFault {
        ReadFault::Memory
    }
}

impl ReadFault {
    /// The refusal with its dateline, where the store was looked at with this latest one. None: an
    /// allocation was refused.
    fn refusal(self, latest: u32) -> Option<(u32, Refusal)>
        requires offset { HasOffset self }
        ensures dateline { IfSome result (λ told. told.0 ≡ (fault_at latest self).0) }
        ensures refusal { IfSome result (λ told. refusal_of told.1 ≡ (fault_at latest self).1) }
        ensures fits { IfSome result (λ told. CountsFit told.1) }
        ensures memory { IfSome result (λ _. self ≢ ReadFault.Memory) }
    {
        match self {
            ReadFault::BadCursor { offset } => Some((latest, Refusal::BadCursor { offset })),
            ReadFault::CursorAhead { asked, have } => {
                Some((latest, Refusal::CursorAhead { asked, have }))
            }
            ReadFault::BadQuery {
                dateline,
                code,
                path,
            } => Some((dateline, Refusal::BadQuery { code, path })),
            ReadFault::NoSuchId { dateline, path } => Some((dateline, Refusal::NoSuchId { path })),
            ReadFault::NoSuchProperty { dateline, path } => {
                Some((dateline, Refusal::NoSuchProperty { path }))
            }
            ReadFault::Memory => None,
        }
    }

    /// The reply line of the refusal, where the store was looked at with this latest dateline.
    /// `Memory`: an allocation was refused, now or when the reading was to begin.
    pub fn line(self, alloc: Global, latest: u32, line: u64) -> Result<Vec<u8>, Memory>
        requires line { line < 2 ^ 63 }
        requires offset { HasOffset self }
        ensures refused { IfOk result (λ bytes. bytes.items ≡ err_line_of (fault_at latest self).0
            line (fault_at latest self).1) }
        ensures memory { IfOk result (λ _. self ≢ ReadFault.Memory) }
    {
        match self.refusal(latest) {
            Some((dateline, refusal)) => err_line(alloc, dateline, line, &refusal),
            None => Err(Memory),
        }
    }

    /// The refusal as it stands among other answers at this dateline. `Memory`: as for `line`.
    pub(crate) fn text(self, alloc: Global, dateline: u32) -> Result<Vec<u8>, Memory>
        requires offset { HasOffset self }
        ensures refused { IfOk result (λ text. text.items
            ≡ compact (answer_item (Err (fault_at dateline self).1))) }
        ensures memory { IfOk result (λ _. self ≢ ReadFault.Memory) }
    {
        match self.refusal(dateline) {
            Some((_dateline, refusal)) => Answer::Refused(refusal).text(alloc),
            None => Err(Memory),
        }
    }
}
