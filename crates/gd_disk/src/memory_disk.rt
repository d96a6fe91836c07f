//! A file in memory, whose failures are chosen.
ghost use Rattle.std.specs.Prelude.{◌≡◌, ◌+◌, ◌-◌, ◌^◌, ◌<◌, ◌≤◌, ◌↔◌, ◌∷◌, ◌++◌, [], List, ℕ, min};
ghost use Rattle.std.specs.Prelude.{length, take, Some, Contains, vec_len, vec_capacity, is_ok};
ghost use Rattle.std.specs.Prelude.{if◌then◌else◌, IsErr, OnOk, IfOk, OnErr};
ghost use Rattle.std.specs.Option.{ForSome};
ghost use Rattle.gd_base.specs.Counts.{HasCause};
ghost use Rattle.gd_bytes.specs.Disk.{part, written, Written, Shortened, Torn, Cut, Tells, Follows};
ghost use Rattle.gd_bytes.specs.Disk.{Only, Stays, Elapses};
ghost use Rattle.gd_disk.specs.Recorded.{wrote, cut_to, synced, held, content_of, images_of};
ghost use Rattle.gd_disk.specs.Recorded.{images_since_of, IsNumbered};
ghost use Rattle.gd_disk.specs.Images.{image_of};
ghost use Rattle.gd_disk.specs.declared.memory_disk.Fill.TheVariants as which;
ghost use Rattle.gd_disk.specs.Laws.{reads_one_law, counts_now_law, only_now_law};

use crate::Failed;
use crate::disk::Disk;
use crate::failing::Failing;
use crate::kept_file::KeptFile;
use gd_base::memory::Memory;
use std::alloc::Global;
use std::marker::Model;

/// Which image of a file: as a read gives it, without what was written since the last sync, or with
/// each byte that was written since then set to 1 or to 2.
#[derive(Clone, Copy)]
pub enum Fill {
    Kept,
    Dropped,
    Ones,
    Twos,
}

/// A file in memory. It can tell its writes, cuts and syncs, so that contracts can say what a stop
/// may leave, and counts its calls from 0, `reserve` aside: those whose numbers it was given fail.
#[derive(Drop)]
pub struct MemoryDisk {
    file: KeptFile,
    failing: Failing,
    number: u64,
    faults: u64,
}

impl Model for MemoryDisk {
    ghost use Rattle.gd_disk.specs.Recorded.{Recorded};

    ghost Value = { Recorded };

    ghost view = { λ d. record {
      first = d.file.first;
      made = d.file.made;
      failing = d.failing;
      calls = d.number;
      faults = d.faults;
      calls_left = d.file.calls_left;
      bytes_left = d.file.bytes_left;
    } };
}

impl MemoryDisk {
    /// A file with this content, which a stop leaves. The calls with the numbers in `failing` fail.
    pub fn new(alloc: Global, content: &[u8], failing: &[u64]) -> Result<MemoryDisk, Memory>
        ensures content { IfOk result (λ disk. disk.first ≡ content.now) }
        ensures made { IfOk result (λ disk. disk.made ≡ []) }
        ensures failing { IfOk result (λ disk. disk.failing ≡ failing.now) }
        ensures calls { IfOk result (λ disk. disk.calls ≡ 0) }
        ensures faults { IfOk result (λ disk. disk.faults ≡ 0) }
    {
        Ok(MemoryDisk {
            file: KeptFile::new(alloc, content)?,
            failing: Failing::these(alloc, failing)?,
            number: 0,
            faults: 0,
        })
    }

    /// A file with this content, which a stop leaves. The first `after` calls work, and each later
    /// one fails.
    pub fn stopping(alloc: Global, content: &[u8], after: u64) -> Result<MemoryDisk, Memory>
        ensures content { IfOk result (λ disk. disk.first ≡ content.now) }
        ensures made { IfOk result (λ disk. disk.made ≡ []) }
        ensures failing { IfOk result (λ disk. (n : ℕ) → n < 2 ^ 64
            → (Contains disk.failing n ↔ after ≤ n)) }
        ensures calls { IfOk result (λ disk. disk.calls ≡ 0) }
        ensures faults { IfOk result (λ disk. disk.faults ≡ 0) }
    {
        Ok(MemoryDisk {
            file: KeptFile::new(alloc, content)?,
            failing: Failing::from_on(alloc, after),
            number: 0,
            faults: 0,
        })
    }

    /// One of the images that a stop now may leave. `Memory`: there is no room for it.
    pub fn image(&self, alloc: Global, fill: Fill) -> Result<Vec<u8>, Memory>
        ensures value { IfOk result (λ bytes. bytes.items
            ≡ image_of fill self.now.first self.now.made) }
        ensures left { IfOk result (λ bytes. images_of self.now bytes.items) }
        ensures kept { fill ≡ which.Kept
            → IfOk result (λ bytes. content_of self.now ≡ Some bytes.items) }
    {
        match fill {
            Fill::Kept => Ok(self.bytes().to_vec(alloc)?),
            Fill::Dropped => self.file.dropped(alloc),
            Fill::Ones => self.file.filled(alloc, 1),
            Fill::Twos => self.file.filled(alloc, 2),
        }
    }

    /// How many calls failed.
    pub fn faults(&self) -> u64
        ensures { result ≡ self.now.faults }
    {
        self.faults
    }

    /// The same file, whose failures are counted anew.
    pub(crate) fn with_no_faults(self) -> MemoryDisk
        ensures { result ≡ record self { faults = 0 } }
    {
        MemoryDisk { faults: 0, ..self }
    }

    /// The file as a read gives it.
    pub fn bytes(&self) -> &[u8]
        ensures { result.now ≡ held self.now.first self.now.made }
    {
        self.file.bytes()
    }
}

/// Counts a call, and fails where its number is one of those that are to fail.
pub(crate) fn meet(failing: &Failing, number: &mut u64, faults: &mut u64) -> Result<(), Failed>
    ensures number { number.new ≡ min (number.old + 1) (2 ^ 64 - 1) }
    ensures fails { IsErr result ↔ Contains failing.now number.old }
    ensures faults { faults.new ≡ (if is_ok result then faults.old else min (faults.old + 1)
        (2 ^ 64 - 1)) }
    ensures cause { HasCause faults.old faults.new result }
{
    let fails = failing.has(*number);
    *number = number.saturating_add(1);
    if fails {
        *faults = faults.saturating_add(1);
        return Err(Failed);
    }
    Ok(())
}

impl Disk for MemoryDisk {
    ghost content = { content_of };

    ghost images = { images_of };

    ghost moment = { λ d. length d.made };

    ghost images_since = { images_since_of };

    ghost calls_left = { λ d. d.calls_left };

    ghost bytes_left = { λ d. d.bytes_left };

    ghost faults = { λ d. d.faults };

    ghost reads_one = { λ d file is. reads_one_law d.first d.made file is };

    ghost counts_now = { λ d t c le now. counts_now_law d.first d.made t c le now };

    ghost only_now = { λ d c since. only_now_law d.first d.made c since };

    fn read_at(&mut self, at: u64, buf: &mut [u8]) -> Result<usize, Failed>
        ensures count { IfOk result (λ n. n ≤ length buf.old) }
        ensures bytes { IfOk result (λ n. ForSome (content_of self.old) (λ file.
            take n buf.new ≡ part at (length buf.old) file)) }
        ensures stays { Stays (content_of self.old) (content_of self.new)
            (images_of self.old) (images_of self.new) }
        ensures time { Elapses (length self.old.made) (length self.new.made)
            (images_since_of self.old)
            (images_since_of self.new) (images_of self.new) }
        ensures calls { self.old.calls_left ≤ self.new.calls_left }
        ensures room { self.old.bytes_left ≤ self.new.bytes_left }
        ensures cause { HasCause self.old.faults self.new.faults result }
        ensures numbered { IsNumbered self.old self.new result }
        ensures made { self.new.made ≡ self.old.made }
    {
        meet(&self.failing, &mut self.number, &mut self.faults)?;
        let file = self.file.bytes();
        let at = (at as usize).min(file.len());
        let count = buf.len().min(file.len() - at);
        buf[..count].copy_from_slice(&file[at..at + count]);
        Ok(count)
    }

    fn len(&mut self) -> Result<u64, Failed>
        ensures value { IfOk result (λ n. ForSome (content_of self.old) (λ file. n ≡ length file)) }
        ensures stays { Stays (content_of self.old) (content_of self.new)
            (images_of self.old) (images_of self.new) }
        ensures time { Elapses (length self.old.made) (length self.new.made)
            (images_since_of self.old)
            (images_since_of self.new) (images_of self.new) }
        ensures calls { self.old.calls_left ≤ self.new.calls_left }
        ensures room { self.old.bytes_left ≤ self.new.bytes_left }
        ensures cause { HasCause self.old.faults self.new.faults result }
        ensures numbered { IsNumbered self.old self.new result }
        ensures made { self.new.made ≡ self.old.made }
    {
        meet(&self.failing, &mut self.number, &mut self.faults)?;
        Ok(self.file.bytes().len() as u64)
    }

    fn write_at(&mut self, at: u64, bytes: &[u8]) -> Result<(), Failed>
        requires within { ForSome (content_of self.old) (λ file. at ≤ length file) }
        requires calls { 1 ≤ self.old.calls_left }
        requires room { length bytes.now ≤ self.old.bytes_left }
        ensures content { OnOk result (Tells (Written at bytes.now) (content_of self.old)
            (content_of self.new)) }
        ensures told { Tells (Torn at (length bytes.now)) (content_of self.old)
            (content_of self.new) }
        ensures images { Follows (Torn at (length bytes.now)) (images_of self.old)
            (images_of self.new) }
        ensures time { Elapses (length self.old.made) (length self.new.made)
            (images_since_of self.old)
            (images_since_of self.new) (images_of self.new) }
        ensures calls { self.old.calls_left ≤ self.new.calls_left + 1 }
        ensures room { self.old.bytes_left ≤ self.new.bytes_left + length bytes.now }
        ensures cause { HasCause self.old.faults self.new.faults result }
        ensures numbered { IsNumbered self.old self.new result }
        ensures made { OnOk result (self.new.made ≡ wrote at bytes.now ∷ self.old.made) }
    {
        let at = at as usize;
        meet(&self.failing, &mut self.number, &mut self.faults)?;
        self.file.write(at, bytes);
        Ok(())
    }

    fn cut(&mut self, len: u64) -> Result<(), Failed>
        requires within { ForSome (content_of self.old) (λ file. len ≤ length file) }
        requires calls { 1 ≤ self.old.calls_left }
        ensures content { OnOk result (Tells (Shortened len) (content_of self.old)
            (content_of self.new)) }
        ensures told { Tells (Cut len) (content_of self.old)
            (content_of self.new) }
        ensures images { Follows (Cut len) (images_of self.old) (images_of self.new) }
        ensures time { Elapses (length self.old.made) (length self.new.made)
            (images_since_of self.old)
            (images_since_of self.new) (images_of self.new) }
        ensures calls { self.old.calls_left ≤ self.new.calls_left + 1 }
        ensures room { self.old.bytes_left ≤ self.new.bytes_left }
        ensures cause { HasCause self.old.faults self.new.faults result }
        ensures numbered { IsNumbered self.old self.new result }
        ensures made { OnOk result (self.new.made ≡ cut_to len ∷ self.old.made) }
    {
        meet(&self.failing, &mut self.number, &mut self.faults)?;
        self.file.cut(len as usize);
        Ok(())
    }

    fn sync(&mut self) -> Result<(), Failed>
        requires { 1 ≤ self.old.calls_left }
        ensures durable { OnOk result (ForSome (content_of self.new)
            (λ file. Only file (images_of self.new))) }
        ensures stays { Stays (content_of self.old) (content_of self.new)
            (images_of self.old) (images_of self.new) }
        ensures time { Elapses (length self.old.made) (length self.new.made)
            (images_since_of self.old)
            (images_since_of self.new) (images_of self.new) }
        ensures calls { self.old.calls_left ≤ self.new.calls_left + 1 }
        ensures room { self.old.bytes_left ≤ self.new.bytes_left }
        ensures cause { HasCause self.old.faults self.new.faults result }
        ensures numbered { IsNumbered self.old self.new result }
        ensures made { OnOk result (self.new.made ≡ synced ∷ self.old.made) }
    {
        meet(&self.failing, &mut self.number, &mut self.faults)?;
        self.file.sync();
        Ok(())
    }

    fn reserve(&mut self, calls: u32, bytes: u64) -> Result<(), Memory>
        ensures made { OnOk result ((calls ≤ self.new.calls_left) × (bytes ≤ self.new.bytes_left)) }
        ensures stays { Stays (content_of self.old) (content_of self.new)
            (images_of self.old) (images_of self.new) }
        ensures time { Elapses (length self.old.made) (length self.new.made)
            (images_since_of self.old)
            (images_since_of self.new) (images_of self.new) }
        ensures calls { self.old.calls_left ≤ self.new.calls_left }
        ensures room { self.old.bytes_left ≤ self.new.bytes_left }
        ensures faults { self.new.faults ≡ self.old.faults }
        ensures same { (self.new.first ≡ self.old.first) × (self.new.made ≡ self.old.made)
            × (self.new.failing ≡ self.old.failing) × (self.new.calls ≡ self.old.calls) }
    {
        self.file.reserve(calls, bytes)?;
        Ok(())
    }
}
