//! A buffer between a source and its lines.
ghost use Rattle.std.specs.Prelude.{◌≡◌, ◌≢◌, ◌<◌, ◌≤◌, ◌+◌, ◌^◌, ℕ, [], drop, length, IfOk, OnErr};
ghost use Rattle.std.specs.Prelude.{true, false};
ghost use Rattle.std.specs.Io.KnownBytes.{prepend_known, Keeps, IsAtEnd};
ghost use Rattle.gd_base.specs.Counts.{Rose};

use crate::fault::InputFault;
use gd_outside::source::Source;
use std::alloc::Global;
use std::marker::Model;

/// How many bytes are read at a time.
const BUFFER: usize = 4096;

/// How many bytes of input are taken at most.
const INPUT_LIMIT: u64 = 1 << 40;

/// Reads the rounds of a source, of which it holds one buffer of bytes at a time. Contracts see the
/// bytes that it holds, and how many bytes of the input stood before them. It reads one source for
/// all its life.
#[derive(Drop)]
pub struct Reader {
    alloc: Global,
    buffer: [u8; BUFFER],
    start: usize,
    end: usize,
    consumed: u64,
}

impl Model for Reader {
    ghost use Rattle.std.specs.Prelude.{slice_range};
    ghost use Rattle.gd_input.specs.Held.{Held, IsWithin};

    ghost Value = { Held };

    ghost view = { λ r. record { bytes = slice_range r.buffer r.start r.end; consumed = r.consumed } };

    ghost invariant = { λ r. IsWithin r.start r.end r.consumed };
}

impl Reader {
    ghost use Rattle.gd_input.specs.Held.{IsBounded, CountsOn};

    /// A reader that has read nothing yet.
    pub fn new(alloc: Global) -> Reader
        ensures { result ≡ record { bytes = []; consumed = 0 } }
    {
        Reader {
            alloc,
            buffer: [0; BUFFER],
            start: 0,
            end: 0,
            consumed: 0,
        }
    }

    /// The allocator that lines are read with.
    pub fn allocator(&self) -> Global
        ensures bounded { IsBounded self.now }
    {
        self.alloc
    }

    /// The bytes that are held.
    pub fn bytes(&self) -> &[u8]
        ensures bytes { result.now ≡ self.now.bytes }
        ensures bounded { IsBounded self.now }
    {
        &self.buffer[self.start..self.end]
    }

    /// Lets go of so many bytes.
    pub fn consume(&mut self, count: usize)
        requires { count ≤ length self.old.bytes }
        ensures { self.new ≡ record {
          bytes = drop count self.old.bytes;
          consumed = self.old.consumed + count;
        } }
    {
        self.start += count;
        self.consumed += count as u64;
    }

    /// Reads the next bytes where none are held, and says whether some are now: else the input has
    /// ended. `Failed`: the source did, and its count rose. `TooMuch`: 2^40 bytes of the input were
    /// taken, and more was asked for. At both none are held.
    pub fn fill<S: Source>(&mut self, source: &mut S) -> Result<bool, InputFault>
        ensures kept { Keeps (prepend_known self.old.bytes (S.left source.old))
            (prepend_known self.new.bytes (S.left source.new)) }
        ensures same { self.new.consumed ≡ self.old.consumed }
        ensures counted { CountsOn self.old (S.given source.old) self.new (S.given source.new) }
        ensures some { IfOk result (λ some. some ≡ true → self.new.bytes ≢ []) }
        ensures at_end { IfOk result (λ some. some ≡ false → (self.new.bytes ≡ [])
            × IsAtEnd (S.left source.new)) }
        ensures none { OnErr result (self.new.bytes ≡ []) }
        ensures failed { result ≡ Err InputFault.Failed
            → Rose (S.faults source.old) (S.faults source.new) }
        ensures too_much { result ≡ Err InputFault.TooMuch → 2 ^ 40 ≤ self.new.consumed }
        ensures later { S.faults source.old ≤ S.faults source.new }
        ensures bounded { IsBounded self.new }
    {
        if self.start < self.end {
            return Ok(true);
        }
        if self.consumed >= INPUT_LIMIT {
            return Err(InputFault::TooMuch);
        }
        let count = source.read(&mut self.buffer)?;
        self.start = 0;
        self.end = count;
        Ok(count > 0)
    }
}
