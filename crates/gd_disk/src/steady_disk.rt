//! A file in memory that never fails.
ghost use Rattle.std.specs.Prelude.{◌≡◌, [], Some, IfOk, length};
ghost use Rattle.gd_disk.specs.Recorded.{content_of, images_of, images_since_of};
ghost use Rattle.gd_disk.specs.Laws.{reads_one_law, counts_now_law, only_now_law};

use crate::Failed;
use crate::disk::Disk;
use crate::memory_disk::MemoryDisk;
use gd_base::memory::Memory;
use std::alloc::Global;
use std::marker::Model;

/// A file in memory, none of whose calls fails.
#[derive(Drop)]
pub struct SteadyDisk {
    disk: MemoryDisk,
}

impl Model for SteadyDisk {
    ghost use Rattle.std.specs.Prelude.{◌≡◌, []};
    ghost use Rattle.gd_disk.specs.Recorded.{Recorded};

    ghost Value = { Recorded };

    ghost view = { λ d. d.disk };

    ghost invariant = { λ d. d.disk.failing ≡ [] };
}

impl SteadyDisk {
    /// An empty file.
    pub fn new(alloc: Global) -> Result<SteadyDisk, Memory>
        ensures { IfOk result (λ disk. content_of disk ≡ Some []) }
    {
        Ok(SteadyDisk {
            disk: MemoryDisk::new(alloc, &[], &[])?,
        })
    }
}

impl Disk for SteadyDisk {
    ghost content = { content_of };

    ghost images = { images_of };

    ghost moment = { λ d. length d.made };

    ghost images_since = { images_since_of };

    ghost calls_left = { λ d. d.calls_left };

    ghost bytes_left = { λ d. d.bytes_left };

    ghost faults = { λ _. 0 };

    ghost reads_one = { λ d file is. reads_one_law d.first d.made file is };

    ghost counts_now = { λ d t c le now. counts_now_law d.first d.made t c le now };

    ghost only_now = { λ d c since. only_now_law d.first d.made c since };

    fn read_at(&mut self, at: u64, buf: &mut [u8]) -> Result<usize, Failed> {
        self.disk.read_at(at, buf)
    }

    fn len(&mut self) -> Result<u64, Failed> {
        self.disk.len()
    }

    fn write_at(&mut self, at: u64, bytes: &[u8]) -> Result<(), Failed> {
        self.disk.write_at(at, bytes)
    }

    fn cut(&mut self, len: u64) -> Result<(), Failed> {
        self.disk.cut(len)
    }

    fn sync(&mut self) -> Result<(), Failed> {
        self.disk.sync()
    }

    fn reserve(&mut self, calls: u32, bytes: u64) -> Result<(), Memory> {
        self.disk.reserve(calls, bytes)
    }
}
