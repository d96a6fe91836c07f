//! Why a frozen text is not thawed.
ghost use Rattle.std.specs.Prelude.{◌≡◌, ◌≢◌, ◌<◌, ◌^◌, IfOk};
ghost use Rattle.gd_defs.specs.Lines.{err_line as err_line_of};
ghost use Rattle.gd_held.specs.Fault.{fault_at, HasOffset};

use crate::lines::bad_frozen_line;
use gd_base::memory::Memory;
use gd_fault::fault::{Code, Path};
use gd_json::value::JsonText;
use gd_read::fault::ReadFault;
use std::alloc::Global;
use thiserror::Error;

/// Why a frozen text is not thawed as a reading of a query.
#[derive(Debug, Drop, Error)]
pub enum ThawFault {
    /// The bytes are the text of no frozen reading, and so many of them begin one; or they are the
    /// text of one that does not fit the query at its dateline, and so many bytes long.
    #[error("no frozen reading: {offset} bytes begin one")]
    BadFrozen {
        offset: u64,
    },
    /// The dateline of the text is above the one that there is.
    #[error("the frozen reading is of dateline {asked}, and there is {have}")]
    CursorAhead {
        asked: u32,
        have: u32,
    },
    /// At the dateline of the text what stands at the end of this path does not go with what its
    /// words stand for.
    #[error("the query is refused at {path:?}: {code}")]
    BadQuery {
        dateline: u32,
        code: Code,
        path: Path,
    },
    /// At the dateline of the text no object has this id.
    #[error("no object has the id {:?}", .path.as_str())]
    NoSuchId {
        dateline: u32,
        path: JsonText,
    },
    /// At the dateline of the text no property is meant by the word of the name at the end of this
    /// path.
    #[error("no property is meant at {path:?}")]
    NoSuchProperty {
        dateline: u32,
        path: Path,
    },
    /// An allocation was refused.
    #[error("out of memory")]
    Memory,
}

impl From<Memory> for ThawFault {
    ghost use Rattle.gd_held.specs.declared.fault.ThawFault.TheVariants.{Memory as no_memory};

    ghost from_gives = { λ _ fault. fault ≡ no_memory };

    fn from(_refused: Memory) -> ThawFault {
        ThawFault::Memory
    }
}

impl ThawFault {
    /// The reply line of the refusal, where the store was looked at with this latest dateline.
    /// `Memory`: an allocation was refused, now or when the text was to be thawed.
    pub fn line(self, alloc: Global, latest: u32, line: u64) -> Result<Vec<u8>, Memory>
        requires line { line < 2 ^ 63 }
        requires offset { HasOffset self }
        ensures refused { IfOk result (λ bytes. bytes.items ≡ err_line_of (fault_at latest self).0
            line (fault_at latest self).1) }
        ensures memory { IfOk result (λ _. self ≢ ThawFault.Memory) }
    {
        let fault = match self {
            ThawFault::BadFrozen { offset } => {
                return bad_frozen_line(alloc, latest, line, offset);
            }
            ThawFault::CursorAhead { asked, have } => ReadFault::CursorAhead { asked, have },
            ThawFault::BadQuery {
                dateline,
                code,
                path,
            } => ReadFault::BadQuery {
                dateline,
                code,
                path,
            },
            ThawFault::NoSuchId { dateline, path } => ReadFault::NoSuchId { dateline, path },
            ThawFault::NoSuchProperty { dateline, path } => {
                ReadFault::NoSuchProperty { dateline, path }
            }
            ThawFault::Memory => ReadFault::Memory,
        };
        fault.line(alloc, latest, line)
    }
}
