//! A file in memory as it was before its last calls, and these calls done again.
ghost use Rattle.std.specs.Prelude.{◌≡◌, ◌+◌, ◌-◌, ◌++◌, ℕ, List, length, take, drop, reverse};
ghost use Rattle.std.specs.Prelude.{slice_index, IfOk, OnOk};
ghost use Rattle.gd_disk.specs.Calls.{newest, undone, restored};
ghost use Rattle.gd_disk.specs.Images.{after_step, after_steps, after_made, dropped_of, filled_of};
ghost use Rattle.gd_disk.specs.Images.{WentBack};
ghost use Rattle.gd_disk.specs.declared.kept_file.Call.TheVariants as which;

use crate::kept_file::Call;
use gd_base::memory::Memory;
use std::alloc::Global;
use std::marker::Model;

/// What a call changed: so many bytes from an offset on were written, or the file was cut.
#[derive(Clone, Copy)]
pub(crate) enum Step {
    Wrote(usize, usize),
    Cut(usize),
}

/// A file, and what undoes its calls. Contracts see what is kept of them.
#[derive(Drop)]
pub(crate) struct Undoing {
    bytes: Vec<u8>,
    stop: usize,
    replaced: Vec<u8>,
    numbers: Vec<u64>,
    alloc: Global,
}

impl Model for Undoing {
    ghost use Rattle.gd_disk.specs.Calls.{Kept, kept};

    ghost Value = { Kept };

    ghost view = { λ u. kept u.bytes.items u.stop u.replaced.items u.numbers.items };
}

impl Undoing {
    /// The file as it is after all its calls.
    pub(crate) fn new(
        alloc: Global,
        bytes: &[u8],
        stop: usize,
        replaced: &[u8],
        numbers: &[u64],
    ) -> Result<Undoing, Memory>
        ensures { IfOk result (λ file. file ≡ record {
          bytes = bytes.now;
          stop = stop;
          replaced = replaced.now;
          numbers = reverse numbers.now;
        }) }
    {
        Ok(Undoing {
            bytes: bytes.to_vec(alloc)?,
            stop,
            replaced: replaced.to_vec(alloc)?,
            numbers: numbers.to_vec(alloc)?,
            alloc,
        })
    }

    /// The file as it was, up to its end.
    pub(crate) fn into_bytes(self) -> Vec<u8>
        ensures { result.items ≡ take self.stop self.bytes }
    {
        let mut bytes = self.bytes;
        bytes.truncate(self.stop);
        bytes
    }

    /// Puts the newest bytes that were replaced, so many, in place of those from one offset to
    /// another.
    fn give_back(&mut self, at: usize, over: usize, behind: usize) -> Result<(), Memory>
        ensures { OnOk result (self.new ≡ record self.old {
          bytes = restored self.old at over behind;
          replaced = take (length self.old.replaced - over) self.old.replaced;
        }) }
    {
        let from = self.replaced.len().saturating_sub(over);
        self.bytes = spliced(self.alloc, &self.bytes, at, &self.replaced[from..], behind)?;
        self.replaced.truncate(from);
        Ok(())
    }

    /// Takes a write back that stands behind all that was kept.
    fn undo_append(&mut self) -> Step
        ensures now { self.new ≡ undone which.Append self.old }
        ensures step { (x : ℕ) (file : List ℕ) → after_step x result file
            ≡ after_made x (newest which.Append self.old) file }
    {
        let at = last_number(&mut self.numbers);
        let len = self.bytes.len().saturating_sub(at);
        self.bytes.truncate(at);
        self.stop = at;
        Step::Wrote(at, len)
    }

    /// Takes a write within the file back.
    fn undo_within(&mut self) -> Result<Step, Memory>
        ensures now { OnOk result (self.new ≡ undone which.Within self.old) }
        ensures step { IfOk result (λ step. (x : ℕ) (file : List ℕ) → after_step x step file
            ≡ after_made x (newest which.Within self.old) file) }
    {
        let over = last_number(&mut self.numbers);
        let at = last_number(&mut self.numbers);
        let len = over.min(self.bytes.len().saturating_sub(at));
        self.give_back(at, over, at.saturating_add(over))?;
        Ok(Step::Wrote(at, len))
    }

    /// Takes a write past the end of the file back.
    fn undo_past(&mut self) -> Result<Step, Memory>
        ensures now { OnOk result (self.new ≡ undone which.Past self.old) }
        ensures step { IfOk result (λ step. (x : ℕ) (file : List ℕ) → after_step x step file
            ≡ after_made x (newest which.Past self.old) file) }
    {
        let before = last_number(&mut self.numbers);
        let over = last_number(&mut self.numbers);
        let at = last_number(&mut self.numbers);
        let len = self.stop.min(self.bytes.len()).saturating_sub(at);
        self.give_back(at, over, self.stop)?;
        self.stop = before;
        Ok(Step::Wrote(at, len))
    }

    /// Takes a cut back.
    fn undo_cut(&mut self) -> Step
        ensures now { self.new ≡ undone which.Cut self.old }
        ensures step { (x : ℕ) (file : List ℕ) → after_step x result file
            ≡ after_made x (newest which.Cut self.old) file }
    {
        let len = self.stop;
        self.stop = last_number(&mut self.numbers);
        Step::Cut(len)
    }

    /// Takes the newest call back, which was this one, and says what it changed; none for a sync.
    fn undo(&mut self, call: Call) -> Result<Option<Step>, Memory>
        ensures { IfOk result (λ step. WentBack step call self.old self.new) }
    {
        match call {
            Call::Append => Ok(Some(self.undo_append())),
            Call::Within => Ok(Some(self.undo_within()?)),
            Call::Past => Ok(Some(self.undo_past()?)),
            Call::Cut => Ok(Some(self.undo_cut())),
            Call::Sync => Ok(None),
        }
    }

    /// Takes back what was done since the last of these calls that is a sync. What that changed,
    /// the newest first.
    pub(crate) fn undo_unsynced(&mut self, mut calls: Vec<Call>) -> Result<Vec<Step>, Memory>
        ensures dropped { OnOk result (dropped_of self.old (reverse calls.items)
            ≡ take self.new.stop self.new.bytes) }
        ensures filled { IfOk result (λ steps. (x : ℕ) → filled_of x self.old (reverse calls.items)
            ≡ after_steps x steps.items (take self.new.stop self.new.bytes)) }
    {
        let mut steps = Vec::new(self.alloc);
        while let Some(call) = calls.pop() {
            match self.undo(call)? {
                Some(step) => steps.push(step)?,
                None => return Ok(steps),
            }
        }
        Ok(steps)
    }
}

/// Takes the last number off: 0 where there is none.
fn last_number(numbers: &mut Vec<u64>) -> usize
    ensures value { result ≡ slice_index (reverse numbers.old.items) 0 }
    ensures rest { reverse numbers.new.items ≡ drop 1 (reverse numbers.old.items) }
{
    match numbers.pop() {
        Some(number) => number as usize,
        None => 0,
    }
}

/// Bytes with others in place of those from one offset to another.
fn spliced(
    alloc: Global,
    bytes: &[u8],
    at: usize,
    others: &[u8],
    behind: usize,
) -> Result<Vec<u8>, Memory>
    ensures { IfOk result (λ all. all.items
        ≡ take at bytes.now ++ (others.now ++ drop behind bytes.now)) }
{
    let mut all = Vec::new(alloc);
    all.extend_from_slice(&bytes[..at.min(bytes.len())])?;
    all.extend_from_slice(others)?;
    all.extend_from_slice(&bytes[behind.min(bytes.len())..])?;
    Ok(all)
}

/// A file after a step, where each byte that it wrote is `byte`.
fn redone(alloc: Global, mut file: Vec<u8>, step: Step, byte: u8) -> Result<Vec<u8>, Memory>
    ensures { IfOk result (λ now. now.items ≡ after_step byte step file.items) }
{
    match step {
        Step::Wrote(at, len) => {
            let fill = vec![in alloc; byte; len]?;
            spliced(alloc, &file, at, &fill, at.saturating_add(len))
        }
        Step::Cut(len) => {
            file.truncate(len);
            Ok(file)
        }
    }
}

/// A file after these steps, the last of them first, where each byte that they wrote is `byte`.
pub(crate) fn redo(
    alloc: Global,
    mut file: Vec<u8>,
    mut steps: Vec<Step>,
    byte: u8,
) -> Result<Vec<u8>, Memory>
    ensures { IfOk result (λ now. now.items ≡ after_steps byte steps.items file.items) }
{
    while let Some(step) = steps.pop() {
        file = redone(alloc, file, step, byte)?;
    }
    Ok(file)
}

/// These calls.
pub(crate) fn copied(alloc: Global, calls: &[Call]) -> Result<Vec<Call>, Memory>
    ensures { IfOk result (λ copy. copy.items ≡ calls.now) }
{
    let mut copy = Vec::new(alloc);
    copy.extend_from_slice(calls)?;
    Ok(copy)
}
