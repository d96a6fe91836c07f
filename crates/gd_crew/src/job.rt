//! What a worker has to do, and what it did.
use gd_cache::cache::ReplyCache;
use gd_cache::key::ReplyText;
use gd_mql::request::{ReadSet, WriteRequest};

/// Where the reply to a read may be kept: the cache of its session, in which nothing changes while
/// the workers run, and the text of what it asks.
#[derive(Clone, Copy)]
pub struct LookUp<'a> {
    pub cache: &'a ReplyCache,
    pub text: &'a ReplyText,
}

/// What a job asks: a read or a write of a session, whose request stays with the caller. The reply
/// to a read is looked up first, where it may be kept.
#[derive(Clone, Copy)]
pub enum Work<'a> {
    Read {
        sid: u32,
        request: &'a ReadSet,
        look: Option<LookUp<'a>>,
    },
    Write {
        sid: u32,
        request: &'a WriteRequest,
    },
}

/// A read or a write line of a round, with its length.
#[derive(Clone, Copy)]
pub struct Job<'a> {
    pub line: u64,
    pub bytes: u64,
    pub work: Work<'a>,
}

/// The reply line that is kept of a read line, with its snapshot: the number of requests over which
/// it is. None stands for want of memory, and says nothing of the snapshot.
#[derive(Drop)]
pub struct ReadReply {
    pub line: u64,
    pub at: u32,
    pub reply: Option<Vec<u8>>,
}

/// Why a session stopped.
#[derive(Clone, Copy, Debug, PartialEq, Eq)]
pub enum StopCause {
    /// The seat of the session was turned away, at a read line.
    Shut,
    /// There was no memory to keep the outcome of a write line.
    Memory,
}

/// Where a session stopped: the first of its lines that is left to the caller.
#[derive(Clone, Copy, Debug, PartialEq, Eq)]
pub struct Stop {
    pub line: u64,
    pub cause: StopCause,
}
