//! What workers kept of read lines.

/// What a worker kept of a read line: the number of requests over which it was answered, and the
/// reply line.
#[derive(Drop)]
pub struct Worked {
    pub at: u32,
    pub reply: Vec<u8>,
}
