//! A file in memory that can tell all its calls.
ghost use Rattle.std.specs.Prelude.{◌≡◌, ◌+◌, ◌-◌, ◌*◌, ◌<◌, ◌≤◌, ◌∷◌, ◌++◌, [], length, vec_len};
ghost use Rattle.std.specs.Prelude.{vec_capacity, IfOk, OnOk};
ghost use Rattle.gd_bytes.specs.Disk.{written};
ghost use Rattle.gd_disk.specs.Recorded.{wrote, cut_to, synced, held, left};
ghost use Rattle.gd_disk.specs.Calls.{numbers_of, IsWrite};
ghost use Rattle.gd_disk.specs.Images.{dropped, filled};

use crate::undoing::{Undoing, copied, redo};
use gd_base::memory::Memory;
use std::alloc::Global;
use std::marker::Model;

/// What a call was: a write behind all bytes that are kept, within the file, or past its end; a
/// cut, or a sync.
#[derive(Clone, Copy)]
#[repr(u8)]
pub(crate) enum Call {
    Append,
    Within,
    Past,
    Cut,
    Sync,
}

const _: () = prove!(std::mem::size_of::<Call>() == 1);

/// A file in memory with all its writes, cuts and syncs. It keeps each byte once: the file as it
/// is, and of each call what it replaced, so that the calls follow backwards. Contracts see the
/// first content and the calls.
#[derive(Drop)]
pub(crate) struct KeptFile {
    // the file, and behind its end what cuts left there
    bytes: Vec<u8>,
    stop: usize,
    // what writes replaced
    replaced: Vec<u8>,
    // what else undoes the calls: up to three numbers for each
    numbers: Vec<u64>,
    calls: Vec<Call>,
}

impl Model for KeptFile {
    ghost use Rattle.std.specs.Prelude.{◌≡◌, ◌-◌, ◌/◌, ◌≤◌, length, take, min, reverse, vec_len};
    ghost use Rattle.std.specs.Prelude.{vec_capacity};
    ghost use Rattle.gd_disk.specs.Recorded.{Told, held};
    ghost use Rattle.gd_disk.specs.Calls.{kept, made_of, first_of};
    ghost use Rattle.gd_disk.specs.Images.{WasHeld};

    ghost Value = { Told };

    ghost view = { λ f. record {
      first = first_of (kept f.bytes.items f.stop f.replaced.items f.numbers.items)
          (reverse f.calls.items);
      made = made_of (kept f.bytes.items f.stop f.replaced.items f.numbers.items)
          (reverse f.calls.items);
      calls_left = min (vec_capacity f.calls - vec_len f.calls)
          ((vec_capacity f.numbers - vec_len f.numbers) / 3);
      bytes_left = min (vec_capacity f.replaced - vec_len f.replaced)
          (vec_capacity f.bytes - vec_len f.bytes);
    } };

    ghost invariant = { λ f. (f.stop ≤ length f.bytes.items)
        × (take f.stop f.bytes.items ≡ held
        (first_of (kept f.bytes.items f.stop f.replaced.items f.numbers.items)
        (reverse f.calls.items))
        (made_of (kept f.bytes.items f.stop f.replaced.items f.numbers.items)
        (reverse f.calls.items)))
        × WasHeld (kept f.bytes.items f.stop f.replaced.items f.numbers.items)
        (reverse f.calls.items) };
}

impl KeptFile {
    /// A file with this content, before any call.
    pub(crate) fn new(alloc: Global, content: &[u8]) -> Result<KeptFile, Memory>
        ensures first { IfOk result (λ file. file.first ≡ content.now) }
        ensures made { IfOk result (λ file. file.made ≡ []) }
    {
        Ok(KeptFile {
            bytes: content.to_vec(alloc)?,
            stop: content.len(),
            replaced: Vec::new(alloc),
            numbers: Vec::new(alloc),
            calls: Vec::new(alloc),
        })
    }

    /// The file as it is.
    pub(crate) fn bytes(&self) -> &[u8]
        ensures { result.now ≡ held self.now.first self.now.made }
    {
        &self.bytes[..self.stop]
    }

    /// The content at the last sync.
    pub(crate) fn dropped(&self, alloc: Global) -> Result<Vec<u8>, Memory>
        ensures value { IfOk result (λ bytes. bytes.items ≡ dropped self.now.first self.now.made) }
        ensures left { IfOk result (λ bytes. left self.now.first self.now.made bytes.items) }
    {
        let mut file = Undoing::new(alloc, &self.bytes, self.stop, &self.replaced, &self.numbers)?;
        file.undo_unsynced(copied(alloc, &self.calls)?)?;
        Ok(file.into_bytes())
    }

    /// The file as it is, but each byte that was written since the last sync is `byte`.
    pub(crate) fn filled(&self, alloc: Global, byte: u8) -> Result<Vec<u8>, Memory>
        ensures value { IfOk result (λ bytes. bytes.items
            ≡ filled byte self.now.first self.now.made) }
        ensures left { IfOk result (λ bytes. left self.now.first self.now.made bytes.items) }
    {
        let mut file = Undoing::new(alloc, &self.bytes, self.stop, &self.replaced, &self.numbers)?;
        let steps = file.undo_unsynced(copied(alloc, &self.calls)?)?;
        let bytes = redo(alloc, file.into_bytes(), steps, byte)?;
        Ok(bytes)
    }

    /// Writes over what stands from an offset on, and past the end.
    pub(crate) fn write(&mut self, at: usize, bytes: &[u8])
        requires within { at ≤ length (held self.old.first self.old.made) }
        requires calls { 1 ≤ self.old.calls_left }
        requires room { length bytes.now ≤ self.old.bytes_left }
        ensures first { self.new.first ≡ self.old.first }
        ensures made { self.new.made ≡ wrote at bytes.now ∷ self.old.made }
        ensures calls { self.old.calls_left ≤ self.new.calls_left + 1 }
        ensures room { self.old.bytes_left ≤ self.new.bytes_left + length bytes.now }
    {
        let over = bytes.len().min(self.bytes.len() - at);
        let call = write_call(at, bytes.len(), self.stop, self.bytes.len());
        note(&mut self.calls, call);
        keep_numbers(&mut self.numbers, call, at, over, self.stop);
        keep(&mut self.replaced, &self.bytes[at..at + over]);
        let end = overwrite(&mut self.bytes, at, bytes);
        self.stop = self.stop.max(end);
    }

    /// Keeps the first `len` bytes alone.
    pub(crate) fn cut(&mut self, len: usize)
        requires within { len ≤ length (held self.old.first self.old.made) }
        requires calls { 1 ≤ self.old.calls_left }
        ensures first { self.new.first ≡ self.old.first }
        ensures made { self.new.made ≡ cut_to len ∷ self.old.made }
        ensures calls { self.old.calls_left ≤ self.new.calls_left + 1 }
        ensures room { self.old.bytes_left ≤ self.new.bytes_left }
    {
        note(&mut self.calls, Call::Cut);
        keep_numbers(&mut self.numbers, Call::Cut, 0, 0, self.stop);
        self.stop = len;
    }

    /// Notes that what was written is stable.
    pub(crate) fn sync(&mut self)
        requires { 1 ≤ self.old.calls_left }
        ensures first { self.new.first ≡ self.old.first }
        ensures made { self.new.made ≡ synced ∷ self.old.made }
        ensures calls { self.old.calls_left ≤ self.new.calls_left + 1 }
        ensures room { self.old.bytes_left ≤ self.new.bytes_left }
    {
        note(&mut self.calls, Call::Sync);
    }

    /// Makes room for so many further calls, which write so many bytes in all.
    pub(crate) fn reserve(&mut self, calls: u32, bytes: u64) -> Result<(), Memory>
        ensures made { OnOk result ((calls ≤ self.new.calls_left) × (bytes ≤ self.new.bytes_left)) }
        ensures same { (self.new.first ≡ self.old.first) × (self.new.made ≡ self.old.made) }
        ensures calls { self.old.calls_left ≤ self.new.calls_left }
        ensures room { self.old.bytes_left ≤ self.new.bytes_left }
    {
        self.calls.reserve(calls as usize)?;
        self.numbers.reserve(3 * calls as usize)?;
        self.replaced.reserve(bytes as usize)?;
        self.bytes.reserve(bytes as usize)?;
        Ok(())
    }
}

/// Which write it is, of so many bytes at an offset of a file that ends at `stop`, where so many
/// bytes are kept.
fn write_call(at: usize, len: usize, stop: usize, all: usize) -> Call
    requires { at ≤ stop }
    ensures { IsWrite result at len stop all }
{
    if at >= all {
        return Call::Append;
    }
    if len <= stop - at {
        return Call::Within;
    }
    Call::Past
}

/// Adds a call, for which there is room.
fn note(calls: &mut Vec<Call>, call: Call)
    requires { vec_len calls.old < vec_capacity calls.old }
    ensures items { calls.new.items ≡ calls.old.items ++ call ∷ [] }
    ensures len { vec_len calls.new ≡ vec_len calls.old + 1 }
    ensures capacity { vec_capacity calls.old ≤ vec_capacity calls.new }
{
    calls.push(call).unwrap();
}

/// Adds the numbers of a call, for which there is room.
fn keep_numbers(numbers: &mut Vec<u64>, call: Call, at: usize, over: usize, stop: usize)
    requires { vec_len numbers.old + 3 ≤ vec_capacity numbers.old }
    ensures items { numbers.new.items ≡ numbers.old.items ++ numbers_of call at over stop }
    ensures len { vec_len numbers.new ≤ vec_len numbers.old + 3 }
    ensures capacity { vec_capacity numbers.old ≤ vec_capacity numbers.new }
{
    let (at, over, stop) = (at as u64, over as u64, stop as u64);
    match call {
        Call::Append => numbers.extend_from_slice(&[at]).unwrap(),
        Call::Within => numbers.extend_from_slice(&[at, over]).unwrap(),
        Call::Past => numbers.extend_from_slice(&[at, over, stop]).unwrap(),
        Call::Cut => numbers.extend_from_slice(&[stop]).unwrap(),
        Call::Sync => {}
    }
}

/// Adds bytes, for which there is room.
fn keep(kept: &mut Vec<u8>, bytes: &[u8])
    requires { vec_len kept.old + length bytes.now ≤ vec_capacity kept.old }
    ensures items { kept.new.items ≡ kept.old.items ++ bytes.now }
    ensures len { vec_len kept.new ≡ vec_len kept.old + length bytes.now }
    ensures capacity { vec_capacity kept.old ≤ vec_capacity kept.new }
{
    kept.extend_from_slice(bytes).unwrap();
}

/// Writes over what is there and past the end, for which there is room, and says where the write
/// ends.
fn overwrite(file: &mut Vec<u8>, at: usize, bytes: &[u8]) -> usize
    requires within { at ≤ vec_len file.old }
    requires room { vec_len file.old + length bytes.now ≤ vec_capacity file.old }
    ensures items { file.new.items ≡ written at bytes.now file.old.items }
    ensures len { vec_len file.new ≤ vec_len file.old + length bytes.now }
    ensures capacity { vec_capacity file.old ≤ vec_capacity file.new }
    ensures end { result ≡ at + length bytes.now }
{
    let over = bytes.len().min(file.len() - at);
    file[at..at + over].copy_from_slice(&bytes[..over]);
    file.extend_from_slice(&bytes[over..]).unwrap();
    at + bytes.len()
}
