//! A real file.
ghost use Rattle.std.specs.Prelude.{◌≡◌, ◌≤◌, ◌^◌, ℕ, List, None, length, IfOk};
ghost use Rattle.gd_base.specs.Counts.{HasCause};

use crate::Failed;
use crate::disk::Disk;
use gd_base::memory::Memory;
use std::fs::{File, OpenOptions, TryLockError};
use std::io;
use std::marker::Model;
use std::os::unix::fs::FileExt;
use std::path::Path;
use std::rt::Files;

/// A file of the operating system, which nobody else may write. Contracts see it as its count of
/// faults: no clause says what a real file holds, and its room does not end.
#[derive(Drop)]
pub struct FileDisk {
    file: File,
    folder: File,
    // the folder is synced
    named: bool,
    // between these offsets something was written since the last sync that succeeded
    from: u64,
    to: u64,
    // a sync failed since then
    failed: bool,
    faults: u64,
}

impl Model for FileDisk {
    ghost use Rattle.std.specs.Prelude.{ℕ};

    ghost Value = { ℕ };

    ghost view = { λ d. d.faults };
}

impl FileDisk {
    /// Opens the file, makes it where there is none, and takes the system's exclusive lock of it,
    /// without waiting: the lock is held as long as the disk is there. An error is that of the
    /// system, or `WouldBlock` where the file is open and locked elsewhere; then it is left as it
    /// is.
    pub fn open<R: Files<File = File>>(files: &R, path: &str) -> io::Result<FileDisk>
        ensures { IfOk result (λ disk. disk ≡ 0) }
    {
        let folder = File::open(files, folder_of(path))?;
        let file = OpenOptions::new()
            .read(true)
            .write(true)
            .create(true)
            .open(files, path)?;
        lock(&file)?;
        Ok(FileDisk {
            file,
            folder,
            named: false,
            from: u64::MAX,
            to: 0,
            failed: false,
            faults: 0,
        })
    }

    /// How many calls failed.
    pub fn faults(&self) -> u64
        ensures { result ≡ self.now }
    {
        self.faults
    }

    /// Syncs the content and the length, and the first time the folder, which has the file's name.
    /// Where a sync failed, the system may take for written what was not: so that is written again
    /// first.
    fn settle(&mut self) -> io::Result<()>
        ensures { self.new ≡ self.old }
    {
        if self.failed {
            write_again(&self.file, self.from, self.to)?;
        }
        self.failed = true;
        self.file.sync_data()?;
        if !self.named {
            self.folder.sync_all()?;
        }
        self.named = true;
        self.failed = false;
        self.from = u64::MAX;
        self.to = 0;
        Ok(())
    }
}

/// Takes the lock of the file, unless it is taken.
fn lock(file: &File) -> io::Result<()> {
    match file.try_lock() {
        Ok(()) => Ok(()),
        Err(TryLockError::Error(fault)) => Err(fault),
        Err(TryLockError::WouldBlock) => Err(io::ErrorKind::WouldBlock.into()),
    }
}

/// The path of the folder that the file is in.
fn folder_of(path: &str) -> &str {
    match Path::new(path).parent() {
        Some(folder) if !folder.as_str().is_empty() => folder.as_str(),
        _ => ".",
    }
}

/// Reads up to the end of the file or of the buffer.
fn read_full(file: &File, at: u64, buf: &mut [u8]) -> io::Result<usize>
    ensures { IfOk result (λ n. n ≤ length buf.old) }
{
    let mut done: usize = 0;
    for _ in 0..u64::MAX {
        if done >= buf.len() {
            return Ok(done);
        }
        match file.read_at(&mut buf[done..], at.wrapping_add(done as u64)) {
            Ok(0) => return Ok(done),
            Ok(count) => done += count,
            Err(fault) if fault.kind() == io::ErrorKind::Interrupted => {}
            Err(fault) => return Err(fault),
        }
    }
    Err(io::ErrorKind::Other.into())
}

/// Writes bytes of the file over themselves.
pub fn write_again(file: &File, from: u64, to: u64) -> io::Result<()> {
    let mut buf = [0; 4096];
    let mut at = from;
    while at < to {
        let most = (to - at).min(4096) as usize;
        let count = read_full(file, at, &mut buf[..most])?;
        if count == 0 {
            break;
        }
        file.write_all_at(&buf[..count], at)?;
        at += count as u64;
    }
    Ok(())
}

/// Counts a call that failed.
fn counted<T: Drop>(outcome: io::Result<T>, faults: &mut u64) -> Result<T, Failed>
    ensures { HasCause faults.old faults.new result }
{
    match outcome {
        Ok(value) => Ok(value),
        Err(_) => {
            *faults = faults.saturating_add(1);
            Err(Failed)
        }
    }
}

impl Disk for FileDisk {
    ghost content = { λ _. None };

    // It may leave anything.
    ghost images = { λ _ _. Unit {0} };

    ghost moment = { λ _. 0 };

    ghost images_since = { λ _ _ _. Unit {0} };

    ghost calls_left = { λ _. 2 ^ 32 };

    ghost bytes_left = { λ _. 2 ^ 64 };

    ghost faults = { λ d. d };

    ghost reads_one = { λ _ _ _. tt };

    ghost counts_now = { λ _ _ _ _ _. tt };

    ghost only_now = { λ _ _ _. tt };

    fn read_at(&mut self, at: u64, buf: &mut [u8]) -> Result<usize, Failed> {
        match read_full(&self.file, at, buf) {
            Ok(count) => Ok(count),
            Err(_) => {
                self.faults = self.faults.saturating_add(1);
                Err(Failed)
            }
        }
    }

    fn len(&mut self) -> Result<u64, Failed> {
        let metadata = counted(self.file.metadata(), &mut self.faults)?;
        Ok(metadata.len())
    }

    fn write_at(&mut self, at: u64, bytes: &[u8]) -> Result<(), Failed> {
        self.from = self.from.min(at);
        self.to = self.to.max(at.saturating_add(bytes.len() as u64));
        counted(self.file.write_all_at(bytes, at), &mut self.faults)
    }

    fn cut(&mut self, len: u64) -> Result<(), Failed> {
        counted(self.file.set_len(len), &mut self.faults)
    }

    fn sync(&mut self) -> Result<(), Failed> {
        let outcome = self.settle();
        counted(outcome, &mut self.faults)
    }

    fn reserve(&mut self, _calls: u32, _bytes: u64) -> Result<(), Memory> {
        Ok(())
    }
}
