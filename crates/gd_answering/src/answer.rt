//! What a line is answered.

use gd_reply::reply::Failure;

/// The reply to a line, whose newline is not part of it. Contracts see its bytes, `answer_text`.
#[derive(Drop)]
pub enum Answer {
    /// A line that was made.
    Made(Vec<u8>),
    /// A line that the program has, so that no memory is needed for it.
    Fixed(&'static str),
    /// The line that tells a failure at the line of this number. It is printed piece by piece, so
    /// no memory is needed for it.
    Failed { failure: Failure, line: u64 },
}
