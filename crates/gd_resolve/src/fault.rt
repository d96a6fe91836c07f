//! Why an id or a word stands for nothing.
ghost use Rattle.std.specs.Prelude.{◌≡◌};

use gd_base::memory::Memory;
use gd_fault::fault::Path;
use gd_json::value::JsonText;
use thiserror::Error;

/// Why an id or a word stands for nothing.
#[derive(Debug, PartialEq, Eq, Drop, Error)]
pub enum ResolveFault {
    /// No object has this id.
    #[error("no object has the id {:?}", .path.as_str())]
    NoSuchId { path: JsonText },
    /// No property is meant by the word at this place of the query.
    #[error("no property is meant by the word at {path:?}")]
    NoSuchProperty { path: Path },
    /// An allocation was refused.
    #[error("out of memory")]
    Memory,
}

impl From<Memory> for ResolveFault {
    ghost use Rattle.gd_resolve.specs.declared.fault.ResolveFault.TheVariants.{Memory as no_memory};

    ghost from_gives = { λ _ fault. fault ≡ no_memory };

    fn from(_refused: Memory) -> ResolveFault {
        ResolveFault::Memory
    }
}
