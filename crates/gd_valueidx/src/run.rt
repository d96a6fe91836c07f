//! Some numbers of an order that stand side by side.
ghost use Rattle.std.specs.Prelude.{◌≡◌, ◌↔◌, ◌<◌, ◌≤◌, [], ◌∷◌, take, drop, length, slice_index};
ghost use Rattle.std.specs.Prelude.{IsTrue, IfOk, OnOk, OnErr};
ghost use Rattle.std.specs.List.{insert, remove};

use gd_base::memory::Memory;
use std::alloc::Global;
use std::marker::Model;

/// The greatest number of numbers of a run.
pub(crate) const RUN_LIMIT: usize = 512;

/// From one to `RUN_LIMIT` numbers. Contracts see the list.
#[derive(Drop)]
pub(crate) struct Run {
    numbers: Vec<u32>,
}

impl Model for Run {
    ghost use Rattle.std.specs.Prelude.{ℕ, List, ◌<◌, ◌≤◌, length};

    ghost Value = { List ℕ };

    ghost view = { λ run. run.numbers.items };

    ghost invariant = { λ run. (0 < length run.numbers.items) × (length run.numbers.items ≤ 512) };
}

impl Run {
    /// A run of this one number.
    pub(crate) fn of(alloc: Global, number: u32) -> Result<Run, Memory>
        ensures { IfOk result (λ run. run ≡ number ∷ []) }
    {
        let mut numbers = Vec::new(alloc);
        numbers.push(number)?;
        Ok(Run { numbers })
    }

    /// The same numbers again.
    pub(crate) fn copy(&self, alloc: Global) -> Result<Run, Memory>
        ensures { IfOk result (λ copy. copy ≡ self.now) }
    {
        Ok(Run {
            numbers: self.numbers.to_vec(alloc)?,
        })
    }

    /// The numbers.
    pub(crate) fn as_slice(&self) -> &[u32]
        ensures numbers { result.now ≡ self.now }
        ensures some { 0 < length self.now }
        ensures few { length self.now ≤ 512 }
    {
        self.numbers.as_slice()
    }

    /// The first number.
    pub(crate) fn first(&self) -> u32
        ensures { result ≡ slice_index self.now 0 }
    {
        self.numbers[0]
    }

    /// How many numbers there are.
    pub(crate) fn len(&self) -> usize
        ensures len { result ≡ length self.now }
        ensures some { 0 < result }
        ensures few { result ≤ 512 }
    {
        self.numbers.len()
    }

    /// Puts a number at a place, or for want of memory leaves all as it was.
    pub(crate) fn insert(&mut self, index: usize, number: u32) -> Result<(), Memory>
        requires there { index ≤ length self.old }
        requires room { length self.old < 512 }
        ensures ok { OnOk result (self.new ≡ insert self.old index number) }
        ensures err { OnErr result (self.new ≡ self.old) }
    {
        self.numbers.insert(index, number)?;
        Ok(())
    }

    /// Keeps the numbers before a place, and gives the others, or for want of memory leaves all as
    /// it was. What was kept takes no more room than it needs.
    pub(crate) fn split(&mut self, at: usize) -> Result<Run, Memory>
        requires some { 0 < at }
        requires rest { at < length self.old }
        ensures kept { OnOk result (self.new ≡ take at self.old) }
        ensures rest { IfOk result (λ run. run ≡ drop at self.old) }
        ensures err { OnErr result (self.new ≡ self.old) }
    {
        let numbers = self.numbers.split_off(at)?;
        self.numbers.shrink_to_fit();
        Ok(Run { numbers })
    }

    /// Takes the number at a place away, which is not the only one.
    pub(crate) fn remove(&mut self, index: usize)
        requires there { index < length self.old }
        requires others { 1 < length self.old }
        ensures { self.new ≡ remove self.old index }
    {
        let _number = self.numbers.remove(index);
    }
}
