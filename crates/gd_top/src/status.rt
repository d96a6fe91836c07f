//! How a run ends.
ghost use Rattle.std.specs.Prelude.{◌≡◌};
ghost use Rattle.gd_top.specs.Stops.{status_of, status_of_answers, status_of_shelf};
ghost use Rattle.gd_top.specs.Stops.{status_of_store};

use crate::stop::Stop;
use gd_answering::stop::Stop as AnswerStop;
use gd_disk::shelf::ShelfFault;
use gd_journal::fault::JournalFault;
use std::fmt;

/// How a run ended.
#[derive(Clone, Copy, Debug, PartialEq, Eq)]
pub enum Status {
    /// The input was read to its end, and every line was answered.
    Done,
    /// The words are not in the grammar. Nothing was read or printed.
    Usage,
    /// The source failed. The lines of all whole rounds that were read before that were answered,
    /// and no other.
    ReadFault,
    /// The sink failed. What was printed is a front of what was due.
    SinkFault,
    /// The disk failed while the store was opened. Nothing was read or printed.
    DiskFault,
    /// The file is no store. Nothing was read or printed.
    NotStore,
    /// The first damaged record of the file has its gate at this offset. Nothing was read or
    /// printed.
    Damaged { offset: u64 },
    /// There was no memory to open the store or to read a round. What was printed is a front of
    /// what was due.
    Memory,
    /// 2^40 bytes of input were taken. The lines of all whole rounds in them were answered, and no
    /// other.
    TooMuch,
    /// The text is no dump: so many of its bytes, and no more, begin one. The batches of the whole
    /// groups before that were stored.
    BadDump { offset: u64 },
    /// A dump was asked for from a batch that the store, which has fewer, does not have; or the
    /// text is one from another batch than the next one of the store. Nothing was stored.
    DumpFrom { asked: u32, have: u32 },
    /// A batch of the text, so many behind the first of the store, may not stand there. The batches
    /// of the whole groups before it were stored.
    Unfit { batch: u32 },
}

impl Status {
    /// The status of a run that stopped before the end of its input.
    pub fn of_stop(stop: Stop) -> Status
        ensures { result ≡ status_of stop }
    {
        match stop {
            Stop::ReadFault => Status::ReadFault,
            Stop::SinkFault => Status::SinkFault,
            Stop::Memory => Status::Memory,
            Stop::TooMuch => Status::TooMuch,
        }
    }

    /// The status of a run that stopped while it answered lines.
    pub fn of_answers(stop: AnswerStop) -> Status
        ensures { result ≡ status_of_answers stop }
    {
        match stop {
            AnswerStop::ReadFault => Status::ReadFault,
            AnswerStop::SinkFault => Status::SinkFault,
            AnswerStop::Memory => Status::Memory,
            AnswerStop::TooMuch => Status::TooMuch,
        }
    }

    /// The status of a run whose file was not opened.
    pub fn of_shelf(fault: ShelfFault) -> Status
        ensures { result ≡ status_of_shelf fault }
    {
        match fault {
            ShelfFault::Failed => Status::DiskFault,
            ShelfFault::Memory => Status::Memory,
        }
    }

    /// The status of a run whose file was opened and gave no store.
    pub fn of_store(fault: JournalFault) -> Status
        ensures { result ≡ status_of_store fault }
    {
        match fault {
            JournalFault::DiskFault => Status::DiskFault,
            JournalFault::NotStore => Status::NotStore,
            JournalFault::Damaged { offset } => Status::Damaged { offset },
            JournalFault::Memory => Status::Memory,
        }
    }

    /// The exit status of the program.
    pub fn code(self) -> u8 {
        match self {
            Status::Done => 0,
            Status::Usage => 2,
            Status::ReadFault => 3,
            Status::SinkFault => 4,
            Status::DiskFault => 5,
            Status::NotStore => 6,
            Status::Damaged { offset: _ } => 7,
            Status::Memory => 8,
            Status::TooMuch => 10,
            Status::BadDump { offset: _ } => 11,
            Status::DumpFrom { asked: _, have: _ } => 12,
            Status::Unfit { batch: _ } => 13,
        }
    }

    /// What the program says of it; numbers stand behind or within some of these.
    fn text(self) -> &'static str {
        match self {
            Status::Done => "done",
            Status::Usage => "usage: graphd VERB [--NAME VALUE]",
            Status::ReadFault => "input failed",
            Status::SinkFault => "output failed",
            Status::DiskFault => "disk failed",
            Status::NotStore => "not a store",
            Status::Damaged { offset: _ } => "damaged",
            Status::Memory => "out of memory",
            Status::TooMuch => "too much input",
            Status::BadDump { offset: _ } => "bad dump",
            Status::DumpFrom { asked: _, have: _ } => "dump starts elsewhere",
            Status::Unfit { batch: _ } => "a batch does not fit",
        }
    }
}

/// What the program says of it, without its name.
impl fmt::Display for Status {
    fn fmt<W: fmt::Write>(&self, f: &mut fmt::Formatter<W>) -> fmt::Result {
        match self {
            Status::Damaged { offset } => write!(f, "damaged at {offset}"),
            Status::BadDump { offset } => write!(f, "bad dump at {offset}"),
            Status::DumpFrom { asked, have } => {
                write!(f, "dump starts at {asked}, store has {have}")
            }
            Status::Unfit { batch } => write!(f, "batch {batch} does not fit"),
            other => f.write_str(other.text()),
        }
    }
}
