//! Reading the payloads of a file.
ghost use Rattle.std.specs.Prelude.{◌≡◌, ◌+◌, ◌<◌, ◌≤◌, List, ℕ, Option, Some, None, length};
ghost use Rattle.std.specs.Prelude.{IsSome, OnErr, IfOk, IfErr};
ghost use Rattle.std.specs.Option.{ForSome};
ghost use Rattle.gd_bytes.specs.Disk.{IsUntouched};
ghost use Rattle.gd_bytes.specs.File.{version_of};
ghost use Rattle.gd_journal.specs.Causes.{HasReason};
ghost use Rattle.gd_journal.specs.Found.{found_in};
ghost use Rattle.gd_journal.specs.Meaning.{held_by};
ghost use Rattle.gd_journal.specs.Reading.{ComesNext, Moves, IsReady};

use crate::fault::JournalFault;
use crate::head::{HEAD, Head, head_at};
use crate::opening::UNFINISHED;
use crate::payloads::{Payload, PayloadList, Payloads};
use crate::window::{Window, read_part};
use gd_disk::disk::Disk;
use std::alloc::Global;

/// What stands at a gate: no record, one that is damaged, whose offset is told, or a payload.
#[derive(Drop)]
pub(crate) enum Next {
    End,
    Torn(u64),
    Record(Payload),
}

/// How far the records of a file are read: the offset of the next gate, and the block that was read
/// last.
#[derive(Drop)]
pub(crate) struct Records {
    at: u64,
    window: Window,
}

impl Records {
    /// None is read yet, of a file of so many bytes. It takes no memory.
    pub(crate) fn none(alloc: Global, len: u64) -> Records
        ensures at { result.at ≡ 8 }
        ensures ready { (content : Option (List ℕ)) → ForSome content (λ file. len ≡ length file)
            → IsReady content len result.at result.window }
    {
        Records {
            at: 8,
            window: Window::none(alloc, len),
        }
    }

    /// Reads what stands at the next gate of a file of more than 9 bytes, and goes on behind it,
    /// where it is a payload.
    pub(crate) fn next<D: Disk>(
        &mut self,
        alloc: Global,
        disk: &mut D,
    ) -> Result<Next, JournalFault>
        requires long { 9 < self.old.window.len }
        requires ready { IsReady
            (D.content disk.old) self.old.window.len self.old.at self.old.window }
        ensures ready { IsReady
            (D.content disk.new) self.old.window.len self.new.at self.new.window }
        ensures left { OnErr result (self.new.at ≡ self.old.at) }
        ensures moves { IfOk result (λ next. Moves self.old.at self.new.at next) }
        ensures comes { IfOk result (λ next. ForSome (D.content disk.old) (λ file.
            ComesNext self.old.at self.new.at file next)) }
        ensures untouched { IsUntouched D.content D.moment D.images D.images_since disk.old
            disk.new }
        ensures later { D.faults disk.old ≤ D.faults disk.new }
        ensures cause { IfErr result (HasReason (D.faults disk.old) (D.faults disk.new)) }
    {
        let at = self.at;
        match head_at(alloc, disk, &mut self.window, at)? {
            Head::End => Ok(Next::End),
            Head::Torn => Ok(Next::Torn(at)),
            Head::Record(size) => {
                let bytes = read_part(alloc, disk, &mut self.window, at + HEAD, size)?;
                self.at = at + (u64::from(size) + HEAD);
                Ok(Next::Record(Payload { offset: at, bytes }))
            }
        }
    }
}

/// Reads the payloads of a file of so many bytes, which has a header, up to the gate that ends its
/// records.
fn read_records<D: Disk>(alloc: Global, disk: &mut D, len: u64) -> Result<Payloads, JournalFault>
    requires long { 9 < len }
    requires len { ForSome (D.content disk.old) (λ file. len ≡ length file) }
    requires header { ForSome (D.content disk.old) (λ file. IsSome (version_of file)) }
    ensures found { IfOk result (λ found. ForSome (D.content disk.old) (λ file.
        held_by file ≡ Some (found_in found))) }
    ensures untouched { IsUntouched D.content D.moment D.images D.images_since disk.old disk.new }
    ensures later { D.faults disk.old ≤ D.faults disk.new }
    ensures cause { IfErr result (HasReason (D.faults disk.old) (D.faults disk.new)) }
{
    let mut list = Vec::new(alloc);
    let mut records = Records::none(alloc, len);
    loop {
        match records.next(alloc, disk)? {
            Next::End => return Ok(found(list, None)),
            Next::Torn(offset) => return Ok(found(list, Some(offset))),
            Next::Record(payload) => list.push(payload)?,
        }
    }
}

/// What was found.
fn found(list: Vec<Payload>, damaged: Option<u64>) -> Payloads
    ensures list { result.list ≡ list.items }
    ensures damaged { result.damaged ≡ damaged }
{
    Payloads {
        list: PayloadList::from(list),
        damaged,
    }
}

/// Reads the payloads of a file, which is an unfinished creation or has a header.
pub(crate) fn read_payloads<D: Disk>(alloc: Global, disk: &mut D) -> Result<Payloads, JournalFault>
    requires { ForSome (D.content disk.old) (λ file. 9 < length file → IsSome (version_of file)) }
    ensures found { IfOk result (λ found. ForSome (D.content disk.old) (λ file.
        held_by file ≡ Some (found_in found))) }
    ensures untouched { IsUntouched D.content D.moment D.images D.images_since disk.old disk.new }
    ensures later { D.faults disk.old ≤ D.faults disk.new }
    ensures cause { IfErr result (HasReason (D.faults disk.old) (D.faults disk.new)) }
{
    let len = disk.len()?;
    if len <= UNFINISHED {
        return Ok(found(Vec::new(alloc), None));
    }
    let found = read_records(alloc, disk, len)?;
    Ok(found)
}
