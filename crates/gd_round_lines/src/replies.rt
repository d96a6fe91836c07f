//! The replies to the lines of a round.
use gd_reply::reply::Reply;

/// The replies to the lines of a round, in their order: those that were made, or, where there was
/// no room for them, the reply that says so to each line from `first` up to `end`, which takes
/// none.
#[derive(Drop)]
pub enum Replies {
    Made(Vec<Reply>),
    NoMemory { first: u64, end: u64 },
}
