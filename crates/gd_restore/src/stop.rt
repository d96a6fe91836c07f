//! Why a run stops that dumps or restores.
ghost use Rattle.std.specs.Prelude.{◌≡◌};
ghost use Rattle.gd_restore.specs.Stops.{stop_of_dump, stop_of_input, stop_of_append};
ghost use Rattle.gd_restore.specs.declared.stop.RestoreStop.TheVariants as restore;

use gd_base::memory::Memory;
use gd_dump::DumpFault;
use gd_input::fault::InputFault;
use gd_journal::fault::JournalFault;
use std::alloc::AllocFailed;
use thiserror::Error;

/// Why a store was not dumped.
#[derive(Clone, Copy, Debug, PartialEq, Eq, Error)]
pub enum DumpStop {
    /// The sink failed.
    #[error("the output failed")]
    SinkFault,
    /// An allocation was refused, and a front of the dump was printed.
    #[error("out of memory")]
    Memory,
    /// The store has fewer batches than the number from which it was to be dumped.
    #[error("the dump is to start at {asked}, and the store has {have} batches")]
    DumpFrom { asked: u32, have: u32 },
    /// The store was not opened, and nothing was printed.
    #[error("not opened: {0}")]
    Unopened(JournalFault),
}

/// Why a text was not restored to the store.
#[derive(Clone, Copy, Debug, PartialEq, Eq, Error)]
pub enum RestoreStop {
    /// The source failed.
    #[error("the input failed")]
    ReadFault,
    /// 2^40 bytes of the input were taken, and it had not ended.
    #[error("too much input")]
    TooMuch,
    /// An allocation was refused, or there is no room on the disk.
    #[error("out of memory")]
    Memory,
    /// The disk failed while a group was appended, which may be there or not.
    #[error("the disk failed")]
    DiskFault,
    /// The text is no dump, and the longest front of it that begins some dump has `offset` bytes.
    #[error("the text is no dump at byte {offset}")]
    BadDump { offset: u64 },
    /// The text begins at another number than the store has batches.
    #[error("the dump starts at {asked}, and the store has {have} batches")]
    DumpFrom { asked: u32, have: u32 },
    /// This batch, by its number in the store, may not follow those before it.
    #[error("batch {batch} does not fit")]
    Unfit { batch: u32 },
    /// The store was not opened, and nothing was read.
    #[error("not opened: {0}")]
    Unopened(JournalFault),
}

impl DumpStop {
    /// What a fault of writing a dump stops a run by.
    pub fn of_dump(fault: DumpFault) -> DumpStop
        ensures { result ≡ stop_of_dump fault }
    {
        match fault {
            DumpFault::DumpFrom { asked, have } => DumpStop::DumpFrom { asked, have },
            DumpFault::SinkFault => DumpStop::SinkFault,
            DumpFault::Memory => DumpStop::Memory,
        }
    }
}

impl From<Memory> for RestoreStop {
    ghost from_gives = { λ _ stop. stop ≡ restore.Memory };

    fn from(_refused: Memory) -> RestoreStop {
        RestoreStop::Memory
    }
}

impl<T: Drop> From<AllocFailed<T>> for RestoreStop {
    ghost from_gives = { λ _ stop. stop ≡ restore.Memory };

    fn from(_refused: AllocFailed<T>) -> RestoreStop {
        RestoreStop::Memory
    }
}

impl RestoreStop {
    /// What a fault of the input stops a run by.
    pub fn of_input(fault: InputFault) -> RestoreStop
        ensures { result ≡ stop_of_input fault }
    {
        match fault {
            InputFault::Failed => RestoreStop::ReadFault,
            InputFault::TooMuch => RestoreStop::TooMuch,
            InputFault::Memory => RestoreStop::Memory,
        }
    }

    /// What a fault of an append stops a run by.
    pub fn of_append(fault: JournalFault) -> RestoreStop
        ensures { result ≡ stop_of_append fault }
    {
        match fault {
            JournalFault::DiskFault => RestoreStop::DiskFault,
            _ => RestoreStop::Memory,
        }
    }
}
