//! A count of work.
ghost use Rattle.std.specs.Prelude.{◌≡◌, ◌≤◌, ◌+◌, ◌-◌, ◌^◌, min};

use std::marker::{Model, PhantomData};

/// How many primitives, entries and slots were looked at, in one run that `L` stands for. The count
/// stays at `u64::MAX`.
#[derive(Drop)]
pub struct Steps<L> {
    taken: u64,
    of: PhantomData<L>,
}

impl<L> Model for Steps<L> {
    ghost use Rattle.std.specs.Prelude.{ℕ};

    ghost Value = { ℕ };

    ghost view = { λ steps. steps.taken };
}

impl<L> Steps<L> {
    /// No step was taken yet.
    pub fn new() -> Steps<L>
        ensures { result ≡ 0 }
    {
        Steps {
            taken: 0,
            of: PhantomData,
        }
    }

    /// One step more.
    pub fn tick(&mut self)
        ensures count { self.new ≡ min (self.old + 1) (2 ^ 64 - 1) }
        ensures later { self.old ≤ self.new }
    {
        self.taken = self.taken.saturating_add(1);
    }

    /// The steps that were taken, or `u64::MAX` where there were more.
    pub fn taken(&self) -> u64
        ensures { result ≡ self.now }
    {
        self.taken
    }
}
