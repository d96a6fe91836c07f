//! The numbers that fit a read.
ghost use Rattle.std.specs.Prelude.{◌≡◌, ◌≤◌, ◌<◌, ◌+◌, List, length, map, IsTrue};
ghost use Rattle.std.specs.List.{AllByRecursion};
ghost use Rattle.gd_runs.specs.Side.{Told};
ghost use Rattle.gd_core_laws.specs.Bounds as bounds;
ghost use Rattle.gd_core_laws.specs.Bounds.{kept_of};
ghost use Rattle.gd_caller.specs.Told.{AreNumbers, IsNumber};
ghost use Rattle.gd_round_lines.specs.Works.{write_of, IsWriteWithin};
ghost use Rattle.gd_caller.specs.Fits.{FollowsWrite, FollowsWrites};

use gd_round_lines::work::{LineNumber, ReadLine, WriteLine};
use gd_store::store::Store;

/// What stands when the reads of a round are answered: the working store, how much of it is shown,
/// and the write lines of the round with the numbers of each line, the first of them line `first`.
#[derive(Clone, Copy)]
pub struct Standing<'a> {
    pub store: &'a Store,
    pub shown: u32,
    pub first: u64,
    pub writes: &'a [WriteLine],
    pub numbers: &'a [LineNumber],
}

impl<'a> Standing<'a> {
    /// What a line came to, by numbers.
    fn number(&self, line: u64) -> LineNumber
        requires low { self.now.first ≤ line }
        requires high { line < self.now.first + length self.now.numbers.now }
        ensures { (outs : List Told) → AreNumbers self.now.first outs self.now.numbers.now
            → IsNumber (kept_of outs line) result }
    {
        self.numbers[(line - self.first) as usize]
    }

    /// The number of a write line, where it is one of the read's session behind it that has a
    /// number, and else what is shown.
    fn later_number(&self, read: &ReadLine, write: &WriteLine) -> u32
        requires within { IsWriteWithin self.now.first
            (self.now.first + length self.now.numbers.now) write.now }
        ensures { (outs : List Told) → AreNumbers self.now.first outs self.now.numbers.now
            → result ≡ bounds.later_number outs read.now.line read.now.session self.now.shown
            (write_of write.now) }
    {
        if read.line < write.line && write.session == read.session {
            return self.number(write.line).number.unwrap_or(self.shown);
        }
        self.shown
    }

    /// The greatest number at which a read may be answered: the least of what is shown and of the
    /// numbers of the write lines of its session behind it.
    pub fn least_later(&self, read: &ReadLine) -> u32
        requires within { AllByRecursion
            (IsWriteWithin self.now.first (self.now.first + length self.now.numbers.now))
            self.now.writes.now }
        ensures least { (outs : List Told) → AreNumbers self.now.first outs self.now.numbers.now
            → result ≡ bounds.least_later (map write_of self.now.writes.now) outs read.now.line
            read.now.session self.now.shown }
        ensures shown { result ≤ self.now.shown }
    {
        let mut least = self.shown;
        for write in self.writes {
            least = least.min(self.later_number(read, write));
        }
        least
    }

    /// Whether a number has all that a write line told a read: it is greater than its entry, where
    /// it is one of the read's session before it that was stored and is shown.
    fn follows(&self, read: &ReadLine, write: &WriteLine, at: u32) -> bool
        requires within { IsWriteWithin self.now.first
            (self.now.first + length self.now.numbers.now) write.now }
        ensures { (outs : List Told) → AreNumbers self.now.first outs self.now.numbers.now
            → IsTrue result → FollowsWrite outs read.now at write.now }
    {
        if read.line <= write.line || write.session != read.session {
            return true;
        }
        match self.number(write.line).entry {
            Some(entry) => entry < at,
            None => true,
        }
    }

    /// Whether a number fits a read: it has all that the write lines of its session before it told,
    /// and is not above the number of any behind it.
    pub fn fits(&self, read: &ReadLine, at: u32) -> bool
        requires within { AllByRecursion
            (IsWriteWithin self.now.first (self.now.first + length self.now.numbers.now))
            self.now.writes.now }
        requires shown { at ≤ self.now.shown }
        ensures later { (outs : List Told) → AreNumbers self.now.first outs self.now.numbers.now
            → IsTrue result → at ≤ bounds.least_later (map write_of self.now.writes.now) outs
            read.now.line read.now.session self.now.shown }
        ensures follows { (outs : List Told) → AreNumbers self.now.first outs self.now.numbers.now
            → IsTrue result → FollowsWrites outs read.now at self.now.writes.now }
    {
        for write in self.writes {
            if self.later_number(read, write) < at || !self.follows(read, write, at) {
                return false;
            }
        }
        true
    }
}
