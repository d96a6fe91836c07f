//! Real files.
use gd_base::text::Text;
use gd_disk::Failed;
use gd_disk::disk::Disk;
use gd_disk::file_disk::{FileDisk, write_again};
use gd_disk::file_shelf::FileShelf;
use gd_disk::shelf::{Shelf, ShelfFault};
use std::alloc::Global;
use std::fs::OpenOptions;
use std::{fs, io};

const FOLDER: &str = "gd_disk_tests_file";

const PATH: &str = "gd_disk_tests_file/file";

/// What the file holds in the end.
const WANTED: &[u8] = b"abXY\0\xff";

/// Whether the folder is made anew.
fn begins(files: &HostRuntime) -> bool {
    let _ = fs::remove_dir_all(files, FOLDER);
    fs::create_dir(files, FOLDER).is_ok()
}

/// Whether the file has these bytes.
fn holds_wanted(files: &HostRuntime) -> bool {
    match fs::read(files, PATH) {
        Ok(found) => found.as_slice() == WANTED,
        Err(_) => false,
    }
}

/// Opens the file.
fn opened(alloc: Global, files: &HostRuntime) -> Result<FileDisk, ShelfFault> {
    let path = Text::of(alloc, PATH)?;
    let mut shelf = FileShelf::new(alloc, files);
    shelf.open_at(&path)
}

/// Writes, syncs, writes over what is there, cuts and writes behind that.
fn write_some(disk: &mut FileDisk) -> Result<(), Failed> {
    disk.write_at(0, b"abcdef")?;
    disk.sync()?;
    disk.write_at(2, b"XYZ")?;
    disk.cut(4)?;
    disk.write_at(4, b"\0\xff")?;
    disk.sync()
}

/// Whether bytes are written, without a failure.
fn writes(alloc: Global, files: &HostRuntime) -> bool {
    match opened(alloc, files) {
        Ok(mut disk) => write_some(&mut disk).is_ok(),
        Err(_) => false,
    }
}

/// Whether the file is not opened a second time while it is open.
fn is_locked(alloc: Global, files: &HostRuntime) -> bool {
    match opened(alloc, files) {
        Ok(_first) => opened(alloc, files).is_err(),
        Err(_) => false,
    }
}

/// Whether the last three bytes are read, and no more.
fn reads_the_end(disk: &mut FileDisk) -> bool {
    let mut buf = [7; 5];
    match disk.read_at(3, &mut buf) {
        Ok(count) => count == 3 && buf == *b"Y\0\xff\x07\x07",
        Err(_) => false,
    }
}

/// Whether they are read of the file as it is opened again.
fn reads(alloc: Global, files: &HostRuntime) -> bool {
    match opened(alloc, files) {
        Ok(mut disk) => reads_the_end(&mut disk),
        Err(_) => false,
    }
}

/// Writes the bytes from the second on over themselves.
fn again(files: &HostRuntime) -> io::Result<()> {
    let file = OpenOptions::new().read(true).write(true).open(files, PATH)?;
    write_again(&file, 1, 9)
}

/// Whether the folder can be removed, and the file is opened no more.
fn fails_without_a_folder(alloc: Global, files: &HostRuntime) -> bool {
    if fs::remove_dir_all(files, FOLDER).is_err() {
        return false;
    }
    match opened(alloc, files) {
        Ok(_) => false,
        Err(fault) => fault == ShelfFault::Failed,
    }
}

#[test]
fn a_file_holds_what_is_written(rt: HostRuntime) {
    let done = begins(&rt)
        && writes(rt.alloc(), &rt)
        && holds_wanted(&rt)
        && is_locked(rt.alloc(), &rt)
        && reads(rt.alloc(), &rt)
        && again(&rt).is_ok()
        && holds_wanted(&rt)
        && fails_without_a_folder(rt.alloc(), &rt);
    assert!(rt; done);
}
