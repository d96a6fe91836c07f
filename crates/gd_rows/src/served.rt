//! The run of a case.
ghost use Rattle.std.specs.Prelude.{◌≡◌, List, ℕ, false, IfOk};
ghost use Rattle.gd_disk.specs.Shelved.{slot_at, is_out_in};

use crate::case::{Case, Setting};
use crate::streams::{Giving, Taking};
use crate::trouble::Trouble;
use gd_base::text::Text;
use gd_disk::memory_disk::MemoryDisk;
use gd_disk::memory_shelf::MemoryShelf;
use gd_disk::shelf::{Shelf, ShelfFault};
use gd_outside::clock::FixedClock;
use gd_outside::gate::OpenGate;
use gd_top::program::graphd;
use gd_top::status::Status;
use std::alloc::Global;
use std::sync::Wait;
use std::thread::Threads;

/// How often source, sink and shelf failed.
#[derive(Clone, Copy)]
pub(crate) struct Faults {
    pub(crate) source: u64,
    pub(crate) sink: u64,
    pub(crate) shelf: u64,
}

/// What a run came to.
#[derive(Drop)]
pub(crate) struct Served {
    pub(crate) status: Status,
    pub(crate) faults: Faults,
    pub(crate) output: Vec<u8>,
    pub(crate) disk: MemoryDisk,
}

/// What a run is lent.
#[derive(Drop)]
pub(crate) struct Lent {
    pub(crate) source: Giving,
    pub(crate) sink: Taking,
    pub(crate) disk: MemoryDisk,
}

impl Lent {
    /// What a case says, and a disk with this file.
    pub(crate) fn over(alloc: Global, case: &Case, file: &[u8]) -> Result<Lent, Trouble> {
        let failing = &case.setting.failing;
        Ok(Lent {
            source: Giving::new(alloc, case, &failing.source)?,
            sink: Taking::new(alloc, &case.setting, &failing.sink)?,
            disk: MemoryDisk::new(alloc, file, &failing.disk)?,
        })
    }
}

impl From<ShelfFault> for Trouble {
    fn from(_fault: ShelfFault) -> Trouble {
        Trouble::Memory
    }
}

/// The path of the file that the shelf holds.
const PATH: &str = "a/store";

/// A shelf with a disk.
fn shelf_of(
    alloc: Global,
    path: &Text,
    disk: MemoryDisk,
    setting: &Setting,
) -> Result<MemoryShelf, Trouble>
    ensures { IfOk result (λ shelf. (path : List ℕ) → is_out_in (slot_at shelf.slots path)
        ≡ false) }
{
    Ok(MemoryShelf::new(alloc, path, disk, &setting.failing.shelf)?)
}

/// The disk at a path.
fn disk_at(shelf: &mut MemoryShelf, path: &Text) -> Result<MemoryDisk, Trouble>
    requires { (path : List ℕ) → is_out_in (slot_at shelf.old.slots path) ≡ false }
{
    Ok(shelf.open_at(path)?)
}

/// Runs a case with what it is lent.
pub(crate) fn serve<R: Threads + Wait + Sync>(
    rt: &R,
    alloc: Global,
    case: &Case,
    lent: Lent,
) -> Result<Served, Trouble> {
    let setting = &case.setting;
    let Lent {
        mut source,
        mut sink,
        disk,
    } = lent;
    let path = Text::of(alloc, PATH)?;
    let mut shelf = shelf_of(alloc, &path, disk, setting)?;
    let status = graphd(
        rt,
        alloc,
        &setting.words,
        &mut source,
        &mut sink,
        &mut shelf,
        FixedClock::new(setting.clock),
        &OpenGate,
    );
    let faults = Faults {
        source: source.faults(),
        sink: sink.faults(),
        shelf: shelf.faults(),
    };
    let disk = disk_at(&mut shelf, &path)?;
    Ok(Served {
        status,
        faults,
        output: sink.into_bytes(alloc)?,
        disk,
    })
}
