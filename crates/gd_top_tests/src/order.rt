//! A gate that makes the workers of a round take an order.
use gd_outside::gate::Gate;
use std::hint;
use std::sync::atomic::{AtomicU64, Ordering};

/// How many turns a line is held at most.
const MOST_TURNS: u64 = 100_000_000;

/// The length of a reply, and a sum over its bytes, by which the replies of a test differ.
fn marks(reply: &[u8]) -> (u64, u64) {
    let mut sum = 0_u64;
    for byte in reply {
        sum = sum.wrapping_mul(31).wrapping_add(u64::from(*byte));
    }
    (reply.len() as u64, sum)
}

/// What is kept of the reply to a line: the length, which is 0 until it was answered, and the sum.
#[derive(Drop)]
struct Kept {
    length: AtomicU64,
    sum: AtomicU64,
}

impl Kept {
    /// Nothing yet.
    fn new() -> Kept {
        Kept {
            length: AtomicU64::new(0),
            sum: AtomicU64::new(0),
        }
    }

    /// Takes a reply.
    fn keep(&self, reply: &[u8]) {
        let (length, sum) = marks(reply);
        self.sum.store(sum, Ordering::SeqCst);
        self.length.store(length, Ordering::SeqCst);
    }

    /// Whether there is a reply.
    fn is_answered(&self) -> bool {
        self.length.load(Ordering::SeqCst) != 0
    }

    /// Whether there is a reply, and it is this one.
    fn is(&self, reply: &[u8]) -> bool {
        let length = self.length.load(Ordering::SeqCst);
        let sum = self.sum.load(Ordering::SeqCst);
        length != 0 && (length, sum) == marks(reply)
    }
}

/// Holds a line until another one was answered, and keeps what workers answer to the lines 0 to 2.
#[derive(Drop)]
pub(crate) struct Order {
    held: u64,
    until: u64,
    misses: AtomicU64,
    kept: [Kept; 3],
}

impl Order {
    /// Holds the line `held` until the line `until` was answered, for so many turns at most.
    pub(crate) fn new(held: u64, until: u64) -> Order {
        Order {
            held,
            until,
            misses: AtomicU64::new(0),
            kept: [Kept::new(), Kept::new(), Kept::new()],
        }
    }

    /// Whether a line was answered.
    fn is_answered(&self, line: u64) -> bool {
        match self.kept.get(line as usize) {
            Some(kept) => kept.is_answered(),
            None => false,
        }
    }

    /// Waits for the line `until`. False where it was not answered in all those turns.
    fn waits(&self) -> bool {
        for _ in 0..MOST_TURNS {
            if self.is_answered(self.until) {
                return true;
            }
            hint::spin_loop();
        }
        false
    }

    /// Whether no line was held in vain.
    pub(crate) fn is_met(&self) -> bool {
        self.misses.load(Ordering::SeqCst) == 0
    }

    /// To how many lines workers answered what an output has for them.
    pub(crate) fn answers(&self, output: &str) -> usize {
        let lines = output.split('\n').zip(&self.kept);
        lines
            .filter(|(line, kept)| kept.is(line.as_bytes()))
            .count()
    }
}

impl Gate for Order {
    fn pass(&self, _worker: u32, line: u64) {
        if line == self.held && !self.waits() {
            self.misses.fetch_add(1, Ordering::SeqCst);
        }
    }

    fn answered(&self, _worker: u32, line: u64, reply: &[u8]) {
        if let Some(kept) = self.kept.get(line as usize) {
            kept.keep(reply);
        }
    }
}
