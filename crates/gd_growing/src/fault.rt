//! Why a link is refused.
ghost use Rattle.std.specs.Prelude.{◌≡◌};

use gd_base::id::Id;
use gd_base::memory::Memory;
use gd_base::text::Text;
use thiserror::Error;

/// Why a link is refused. Contracts see it at a path as the fault of the definitions, `fault_at`;
/// the path is the caller's to tell.
#[derive(Debug, PartialEq, Eq, Drop, Error)]
pub enum LinkFault {
    /// Of a unique property another answer is there, or more than one.
    #[error("the property has another answer already")]
    NotUnique,
    /// The key leads to another object.
    #[error("the key leads to the object at place {}", .holder.place())]
    KeyTaken { key: Text, holder: Id },
    /// The link that is to give way has a successor already.
    #[error("the link has the successor at place {}", .successor.place())]
    StaleVersion { previous: Id, successor: Id },
    /// The property is not unique, or the target is a key: no such link is updated.
    #[error("a link of this kind is not updated")]
    BadConnect,
    /// What is to give way is no link of the object and the property.
    #[error("the link that is to give way is none of the property")]
    BadPrevious,
    /// An allocation was refused.
    #[error("out of memory")]
    Memory,
}

impl From<Memory> for LinkFault {
    ghost use Rattle.gd_growing.specs.declared.fault.LinkFault.TheVariants.{Memory as no_memory};

    ghost from_gives = { λ _ fault. fault ≡ no_memory };

    fn from(_refused: Memory) -> LinkFault {
        LinkFault::Memory
    }
}
