//! Which calls of a disk or a shelf in memory fail.
ghost use Rattle.std.specs.Prelude.{◌≡◌, ◌^◌, ◌<◌, ◌≤◌, ◌↔◌, ℕ, Contains, IfOk};
ghost use Rattle.std.specs.Bool.{Decides};
ghost use Rattle.gd_disk.specs.Recorded.{from_on};

use gd_base::memory::Memory;
use std::alloc::Global;
use std::marker::Model;

/// The numbers of the calls that fail: some, or all from one on. Contracts see their list.
#[derive(Drop)]
pub(crate) struct Failing {
    numbers: Vec<u64>,
    stop: Option<u64>,
}

impl Model for Failing {
    ghost use Rattle.std.specs.Prelude.{◌++◌, ℕ, List};
    ghost use Rattle.gd_disk.specs.Recorded.{from_on};

    ghost Value = { List ℕ };

    ghost view = { λ f. from_on f.stop ++ f.numbers.items };
}

impl Failing {
    /// These.
    pub(crate) fn these(alloc: Global, numbers: &[u64]) -> Result<Failing, Memory>
        ensures { IfOk result (λ failing. failing ≡ numbers.now) }
    {
        Ok(Failing {
            numbers: numbers.to_vec(alloc)?,
            stop: None,
        })
    }

    /// All from this number on.
    pub(crate) fn from_on(alloc: Global, after: u64) -> Failing
        ensures { (n : ℕ) → n < 2 ^ 64 → (Contains result n ↔ after ≤ n) }
    {
        Failing {
            numbers: Vec::new(alloc),
            stop: Some(after),
        }
    }

    /// Whether the call with this number fails.
    pub(crate) fn has(&self, number: u64) -> bool
        ensures { Decides result (Contains self.now number) }
    {
        is_from_on(self.stop, number) || is_among(&self.numbers, number)
    }
}

/// Whether a number is one of those from one on, if there is such a one.
fn is_from_on(stop: Option<u64>, number: u64) -> bool
    ensures { Decides result (Contains (from_on stop) number) }
{
    match stop {
        Some(after) => after <= number,
        None => false,
    }
}

/// Whether a number is one of these.
fn is_among(numbers: &[u64], number: u64) -> bool
    ensures { Decides result (Contains numbers.now number) }
{
    numbers.contains(&number)
}
