//! Replies as they are handed to the printer.
ghost use Rattle.std.specs.Prelude.{◌≡◌, ◌++◌, codes, decimal, ℕ};
ghost use Rattle.gd_reply.specs.Replies.{failure_line, reply_text, made_text};
ghost use Rattle.gd_runs.specs.Explained.{memory_line};

use gd_base::memory::Memory;

/// What failed at a line, where the reply says no more of it.
#[derive(Clone, Copy)]
pub enum Failure {
    /// No memory was found for the line or its reply.
    NoMemory,
    /// The disk failed at a write, which may be stored.
    MaybeStored,
    /// The disk failed before a write, which was not tried.
    NotStored,
}

/// The reply to a line, whose newline is not part of it. Contracts see its bytes, `reply_text`.
#[derive(Drop)]
pub enum Reply {
    /// A line that was made.
    Line(Vec<u8>),
    /// The line that tells a failure. It is printed piece by piece, so no memory is needed for it.
    Failed { failure: Failure, line: u64 },
    /// The line that tells that a write is this entry, and is not shown yet. It too is printed
    /// piece by piece.
    Late { line: u64, entry: u32 },
}

impl Failure {
    /// What stands before the number of the line where this failure is told; behind the number
    /// stands `}`.
    pub fn front(self) -> &'static str
        ensures { (line : ℕ) → result.now ++ decimal line ++ codes "}" ≡ failure_line self line }
    {
        match self {
            Failure::NoMemory => {
                "{\"code\":\"/api/status/error\",\"error\":\"Memory\",\"info\":{},\"line\":"
            }
            Failure::MaybeStored => {
                "{\"code\":\"/api/status/error\",\"error\":\"DiskFault\",\"info\":{\"stored\":\"maybe\"},\"line\":"
            }
            Failure::NotStored => {
                "{\"code\":\"/api/status/error\",\"error\":\"DiskFault\",\"info\":{\"stored\":\"no\"},\"line\":"
            }
        }
    }
}

impl Reply {
    /// The reply that says that there was no memory for a line or its reply.
    pub fn no_memory(line: u64) -> Reply
        ensures { reply_text result ≡ memory_line line }
    {
        Reply::Failed {
            failure: Failure::NoMemory,
            line,
        }
    }

    /// A line that was made as the reply to a line, or that there was no memory for it.
    pub fn made(line: u64, made: Result<Vec<u8>, Memory>) -> Reply
        ensures { reply_text result ≡ made_text line made }
    {
        match made {
            Ok(bytes) => Reply::Line(bytes),
            Err(_) => Reply::no_memory(line),
        }
    }
}
