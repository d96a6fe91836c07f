//! One file.
ghost use Rattle.std.specs.Prelude.{◌≡◌, ◌+◌, ◌≤◌, List, ℕ, Option, Some, length, take, IfOk, OnOk};
ghost use Rattle.std.specs.Option.{ForSome};
ghost use Rattle.gd_base.specs.Counts.{HasCause};
ghost use Rattle.gd_bytes.specs.Disk.{part, Written, Shortened, Torn, Cut, Tells, Follows, Only};
ghost use Rattle.gd_bytes.specs.Disk.{Stays, Elapses};

use crate::Failed;
use gd_base::memory::Memory;

/// One file. Until a sync a stop may leave any bytes where something was written and past the old
/// end, and some length between the old and the new one. After a sync that succeeded it leaves what
/// a read gives.
///
/// Only `reserve` takes memory: `write_at`, `cut` and `sync` use up room that it made.
pub trait Disk {
    /// The bytes of the file, where the disk tells them.
    ghost content: { Self → Option (List ℕ) };

    /// What a stop now may leave.
    ghost images: { Self → List ℕ → Type 0 };

    /// A clock, which does not go back.
    ghost moment: { Self → ℕ };

    /// What a stop at some moment from that one on might have left, during a call or between two.
    ghost images_since: { Self → ℕ → List ℕ → Type 0 };

    /// For how many further writes, cuts and syncs there is room.
    ghost calls_left: { Self → ℕ };

    /// For how many further bytes of writes there is room.
    ghost bytes_left: { Self → ℕ };

    /// How often a call failed.
    ghost faults: { Self → ℕ };

    /// Reads the bytes from the offset `at` on, as many as the buffer takes or up to the end of the
    /// file, and says how many. `Failed`: the disk failed, and the buffer may hold anything.
    fn read_at(&mut self, at: u64, buf: &mut [u8]) -> Result<usize, Failed>
        ensures count { IfOk result (λ n. n ≤ length buf.old) }
        ensures bytes { IfOk result (λ n. ForSome (content self.old) (λ file.
            take n buf.new ≡ part at (length buf.old) file)) }
        ensures stays { Stays (content self.old) (content self.new) (images self.old)
            (images self.new) }
        ensures time { Elapses (moment self.old) (moment self.new)
            (images_since self.old) (images_since self.new) (images self.new) }
        ensures calls { calls_left self.old ≤ calls_left self.new }
        ensures room { bytes_left self.old ≤ bytes_left self.new }
        ensures cause { HasCause (faults self.old) (faults self.new) result };

    /// How many bytes the file has. `Failed`: the disk failed.
    fn len(&mut self) -> Result<u64, Failed>
        ensures value { IfOk result (λ n. ForSome (content self.old) (λ file. n ≡ length file)) }
        ensures stays { Stays (content self.old) (content self.new) (images self.old)
            (images self.new) }
        ensures time { Elapses (moment self.old) (moment self.new)
            (images_since self.old) (images_since self.new) (images self.new) }
        ensures calls { calls_left self.old ≤ calls_left self.new }
        ensures room { bytes_left self.old ≤ bytes_left self.new }
        ensures cause { HasCause (faults self.old) (faults self.new) result };

    /// Writes bytes over what stands from the offset `at` on, and past the end. `Failed`: the disk
    /// failed, and may have written all, a part or nothing.
    fn write_at(&mut self, at: u64, bytes: &[u8]) -> Result<(), Failed>
        requires within { ForSome (content self.old) (λ file. at ≤ length file) }
        requires calls { 1 ≤ calls_left self.old }
        requires room { length bytes.now ≤ bytes_left self.old }
        ensures content { OnOk result (Tells (Written at bytes.now) (content self.old)
            (content self.new)) }
        ensures told { Tells (Torn at (length bytes.now)) (content self.old) (content self.new) }
        ensures images { Follows (Torn at (length bytes.now)) (images self.old) (images self.new) }
        ensures time { Elapses (moment self.old) (moment self.new)
            (images_since self.old) (images_since self.new) (images self.new) }
        ensures calls { calls_left self.old ≤ calls_left self.new + 1 }
        ensures room { bytes_left self.old ≤ bytes_left self.new + length bytes.now }
        ensures cause { HasCause (faults self.old) (faults self.new) result };

    /// Keeps the first `len` bytes alone. `Failed`: the disk failed, and may have cut all, a part
    /// or nothing.
    fn cut(&mut self, len: u64) -> Result<(), Failed>
        requires within { ForSome (content self.old) (λ file. len ≤ length file) }
        requires calls { 1 ≤ calls_left self.old }
        ensures content { OnOk result (Tells (Shortened len) (content self.old)
            (content self.new)) }
        ensures told { Tells (Cut len) (content self.old) (content self.new) }
        ensures images { Follows (Cut len) (images self.old) (images self.new) }
        ensures time { Elapses (moment self.old) (moment self.new)
            (images_since self.old) (images_since self.new) (images self.new) }
        ensures calls { calls_left self.old ≤ calls_left self.new + 1 }
        ensures room { bytes_left self.old ≤ bytes_left self.new }
        ensures cause { HasCause (faults self.old) (faults self.new) result };

    /// Makes what a read gives the only thing that a stop leaves. `Failed`: the disk failed, and
    /// what was written is no more certain than before.
    fn sync(&mut self) -> Result<(), Failed>
        requires { 1 ≤ calls_left self.old }
        ensures durable { OnOk result (ForSome (content self.new)
            (λ file. Only file (images self.new))) }
        ensures stays { Stays (content self.old) (content self.new) (images self.old)
            (images self.new) }
        ensures time { Elapses (moment self.old) (moment self.new)
            (images_since self.old) (images_since self.new) (images self.new) }
        ensures calls { calls_left self.old ≤ calls_left self.new + 1 }
        ensures room { bytes_left self.old ≤ bytes_left self.new }
        ensures cause { HasCause (faults self.old) (faults self.new) result };

    /// Makes room for so many further calls of `write_at`, `cut` and `sync`, which write so many
    /// bytes in all. `Memory`: there is no room for them.
    fn reserve(&mut self, calls: u32, bytes: u64) -> Result<(), Memory>
        ensures made { OnOk result ((calls ≤ calls_left self.new) × (bytes ≤ bytes_left self.new)) }
        ensures stays { Stays (content self.old) (content self.new) (images self.old)
            (images self.new) }
        ensures time { Elapses (moment self.old) (moment self.new)
            (images_since self.old) (images_since self.new) (images self.new) }
        ensures calls { calls_left self.old ≤ calls_left self.new }
        ensures room { bytes_left self.old ≤ bytes_left self.new }
        ensures faults { faults self.new ≡ faults self.old };

    /// A file as it reads is what a stop may leave.
    ghost reads_one: { (disk : Self) (file : List ℕ) → content disk ≡ Some file
        → images disk file };

    /// This moment is one of those since an earlier one.
    ghost counts_now: { (disk : Self) (t : ℕ) (c : List ℕ) → t ≤ moment disk → images disk c
        → images_since disk t c };

    /// Since this moment there is no other.
    ghost only_now: { (disk : Self) (c : List ℕ) → images_since disk (moment disk) c
        → images disk c };
}
