//! What is kept of write lines.
use gd_change::fault::ChangeFault;
use gd_json::value::Json;
use std::snapshot::Snapshot;

/// What a write line came to. Contracts see it as the definitions have it, `kept_view`.
#[derive(Drop)]
pub enum Outcome {
    /// It is this entry, which is shown: its result, which clauses alone read, and the reply line that
    /// says so.
    Stored {
        entry: u32,
        answer: Snapshot<Json>,
        reply: Vec<u8>,
    },
    /// It is this entry, which is not shown yet.
    Late {
        entry: u32,
    },
    /// It was refused over so many requests: why, which clauses alone read, and the reply line that
    /// says so.
    Refused {
        fault: Snapshot<ChangeFault>,
        at: u32,
        reply: Vec<u8>,
    },
    /// The disk failed when it was appended over so many requests: it is in doubt.
    Doubt {
        at: u32,
    },
    /// The disk failed while an earlier doubt was to be ended: it was not tried.
    Unsettled,
    /// No memory was found for it, or its result has more than 2^40 bytes: nothing was stored.
    Memory,
}

/// A write line, by its number, with what it came to.
#[derive(Drop)]
pub struct WriteOf {
    pub line: u64,
    pub outcome: Outcome,
}
