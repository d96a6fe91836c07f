//! A journal over a disk in memory.
ghost use Rattle.std.specs.Prelude.{◌≡◌, None, IfOk};

use gd_disk::memory_disk::MemoryDisk;
use gd_journal::fault::JournalFault;
use gd_journal::journal::Journal;
use gd_journal::opening::open_journal;
use gd_journal::payloads::{Payload, Payloads};
use gd_journal::version::MARK;
use std::alloc::Global;

/// A store of the payloads `ab` and `c`, of version 2.
const TWO: &[u8] = b"GRAPHD2\n\x01\0\0\0\x02ab\x01\0\0\0\x01c\0";

/// The same of version 1.
const OLD: &[u8] = b"GRAPHD1\n\x01\0\0\0\x02ab\x01\0\0\0\x01c\0";

/// Opens a file in memory.
fn opened(alloc: Global, file: &[u8]) -> Result<Journal<MemoryDisk>, JournalFault>
    ensures no_doubt { IfOk result (λ journal. journal.doubt ≡ None) }
{
    let disk = MemoryDisk::new(alloc, file, &[])?;
    match open_journal(alloc, disk) {
        Ok(journal) => Ok(journal),
        Err((fault, _)) => Err(fault),
    }
}

/// Reads a file of two payloads.
fn payloads(alloc: Global, file: &[u8]) -> Result<Payloads, JournalFault> {
    let mut journal = opened(alloc, file)?;
    journal.read_all(alloc)
}

/// Whether these are the payloads of the file.
fn are_two(list: &[Payload]) -> bool {
    match list {
        [first, second] => {
            first.offset == 8
                && first.bytes.as_slice() == b"ab".as_slice()
                && second.offset == 15
                && second.bytes.as_slice() == b"c".as_slice()
        }
        _ => false,
    }
}

/// Whether both are read.
fn reads_two(alloc: Global) -> bool {
    match payloads(alloc, TWO) {
        Ok(found) => are_two(found.list.as_slice()),
        Err(_) => false,
    }
}

/// Whether the third payload is the mark, behind the two of the file.
fn is_third_the_mark(list: &[Payload]) -> bool {
    match list {
        [_, _, third] => third.offset == 21 && third.bytes.as_slice() == MARK.as_slice(),
        _ => false,
    }
}

/// Whether a file of version 1 has the mark once it is opened.
fn marks_an_old_file(alloc: Global) -> bool {
    match payloads(alloc, OLD) {
        Ok(found) => is_third_the_mark(found.list.as_slice()),
        Err(_) => false,
    }
}

/// Whether an opened file is of this version.
fn has_version(alloc: Global, file: &[u8], version: u8) -> bool {
    match opened(alloc, file) {
        Ok(journal) => journal.version() == version,
        Err(_) => false,
    }
}

#[test]
fn payloads_are_read(rt: HostRuntime) {
    assert!(rt; reads_two(rt.alloc()));
}

#[test]
fn old_file_is_marked(rt: HostRuntime) {
    assert!(rt; marks_an_old_file(rt.alloc()));
}

#[test]
fn old_version_is_told(rt: HostRuntime) {
    assert!(rt; has_version(rt.alloc(), OLD, 1));
}

#[test]
fn new_version_is_told(rt: HostRuntime) {
    assert!(rt; has_version(rt.alloc(), b"", 2));
}
