//! The files of the operating system as a shelf.
ghost use Rattle.std.specs.Prelude.{◌≡◌, ◌<◌, [], ◌∷◌, ◌++◌, None, filter, not, bytes_eq, vec_len};
ghost use Rattle.std.specs.Prelude.{vec_capacity};
ghost use Rattle.gd_disk.specs.FileShelf.{is_among};

use crate::file_disk::FileDisk;
use crate::shelf::{Shelf, ShelfFault};
use gd_base::text::Text;
use std::alloc::Global;
use std::fs::File;
use std::marker::Model;
use std::rt::Files;

/// The files of the operating system, of which contracts see no content: only which paths are out,
/// and the count of faults.
#[derive(Drop)]
pub struct FileShelf<R> {
    files: R,
    out: Vec<Text>,
    faults: u64,
}

impl<R> Model for FileShelf<R> {
    ghost use Rattle.gd_disk.specs.FileShelf.{Opened};

    ghost Value = { Opened };

    ghost view = { λ s. record { out = s.out.items; faults = s.faults } };
}

impl<R: Files<File = File>> FileShelf<R> {
    /// The files that `files` opens. A file is locked while it is out, and one that another program
    /// has locked is not opened: the answer is `Failed`.
    pub fn new(alloc: Global, files: R) -> FileShelf<R>
        ensures out { result.out ≡ [] }
        ensures faults { result.faults ≡ 0 }
    {
        FileShelf {
            files,
            out: Vec::new(alloc),
            faults: 0,
        }
    }
}

/// Adds a name, for which there is room.
fn remember(names: &mut Vec<Text>, name: Text)
    requires { vec_len names.old < vec_capacity names.old }
    ensures { names.new.items ≡ names.old.items ++ name ∷ [] }
{
    names.push(name).unwrap();
}

/// Takes a name out.
fn forget(names: &mut Vec<Text>, path: &Text)
    ensures { names.new.items ≡ filter (λ name. not (bytes_eq name path.now)) names.old.items }
{
    names.retain(|name| name != path);
}

impl<R: Files<File = File>> Shelf for FileShelf<R> {
    type Device = FileDisk;

    ghost content = { λ _ _. None };

    // It may leave anything.
    ghost images = { λ _ _ _. Unit {0} };

    ghost is_out = { λ s. is_among s.out };

    ghost faults = { λ s. s.faults };

    ghost reads_one = { λ _ _ _ _. tt };

    fn open_at(&mut self, path: &Text) -> Result<FileDisk, ShelfFault> {
        self.out.reserve(1)?;
        let name = path.copy()?;
        match FileDisk::open(&self.files, path.as_str()) {
            Ok(disk) => {
                remember(&mut self.out, name);
                Ok(disk)
            }
            Err(_) => {
                self.faults = self.faults.saturating_add(1);
                Err(ShelfFault::Failed)
            }
        }
    }

    fn put_back(&mut self, path: &Text, device: FileDisk) {
        self.faults = self.faults.saturating_add(device.faults());
        forget(&mut self.out, path);
    }
}
