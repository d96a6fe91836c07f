//! What a node answers.
use gd_base::memory::Memory;
use gd_codec::Group;
use thiserror::Error;

/// What an ask is answered.
#[derive(Drop)]
pub enum Asked {
    /// The longest run of batches from the number on whose group is not too large.
    Part(Group),
    /// The node has no batch of this number yet.
    Nothing,
}

/// Why an ask is refused.
#[derive(Clone, Copy, Debug, PartialEq, Eq, Error)]
pub enum AskFault {
    /// The number is above that of the node's batches.
    #[error("batches from {asked} were asked for, and there are {have}")]
    CursorAhead { asked: u32, have: u32 },
    /// The group of this batch alone has too many bytes.
    #[error("the batch {entry} has {bytes} bytes as a group")]
    BatchTooLarge { bytes: u64, entry: u32 },
    /// An allocation was refused.
    #[error("out of memory")]
    Memory,
}

/// What a group comes to that is not refused.
#[derive(Clone, Copy, Debug, PartialEq, Eq)]
pub enum Given {
    /// The batches that the node did not have were appended.
    Taken,
    /// The node has all of its batches.
    Known,
    /// It begins behind the node's batches.
    Gap,
}

/// Why a group is refused.
#[derive(Clone, Copy, Debug, PartialEq, Eq, Error)]
pub enum GiveFault {
    /// The disk failed while an earlier doubt was ended: nothing of the group was stored.
    #[error("the disk failed, and nothing was stored")]
    DiskNo,
    /// The batch of this number is another than the node's.
    #[error("the batch {at} is another one")]
    Fork { at: u32 },
    /// The batch of this number may not follow those before it.
    #[error("the batch {entry} does not fit")]
    Unfit { entry: u32 },
    /// The disk failed while the group was appended: it is in doubt.
    #[error("the disk failed, and the group may be stored")]
    DiskMaybe,
    /// An allocation was refused: nothing of the group was stored.
    #[error("out of memory")]
    Memory,
}

impl From<Memory> for AskFault {
    ghost use Rattle.std.specs.Prelude.{◌≡◌};
    ghost use Rattle.gd_follow.specs.declared.answer.AskFault.TheVariants.{Memory as no_memory};

    ghost from_gives = { λ _ fault. fault ≡ no_memory };

    fn from(_refused: Memory) -> AskFault {
        AskFault::Memory
    }
}

impl From<Memory> for GiveFault {
    ghost use Rattle.std.specs.Prelude.{◌≡◌};
    ghost use Rattle.gd_follow.specs.declared.answer.GiveFault.TheVariants.{Memory as no_memory};

    ghost from_gives = { λ _ fault. fault ≡ no_memory };

    fn from(_refused: Memory) -> GiveFault {
        GiveFault::Memory
    }
}
