//! Where workers may be held.

/// Two places at which the workers of a round may be held, so that a run can be made to take one of
/// its orders. The workers share it. A call may take as long as it likes, and tells the worker
/// nothing.
pub trait Gate: Sync {
    /// A worker is about to start a line. It goes on when the call returns.
    fn pass(&self, worker: u32, line: u64);

    /// A worker has the reply line of a read.
    fn answered(&self, worker: u32, line: u64, reply: &[u8]);
}

/// A gate that holds nobody.
#[derive(Clone, Copy, Debug, PartialEq, Eq)]
pub struct OpenGate;

impl Gate for OpenGate {
    fn pass(&self, _worker: u32, _line: u64) {}

    fn answered(&self, _worker: u32, _line: u64, _reply: &[u8]) {}
}
