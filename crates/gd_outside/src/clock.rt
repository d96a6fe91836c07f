//! Where moments come from.
ghost use Rattle.std.specs.Prelude.{◌≡◌, ◌==◌, ◌+◌, ◌-◌, ◌/◌, ◌^◌, ℕ, Bool, true, IsTrue, min};
ghost use Rattle.std.specs.Duration.{as_nanos};

use std::marker::Model;
use std::time::Duration;

/// A clock, by a test that says which numbers it may give. No call changes the test.
pub trait Clock {
    ghost may: { Self → ℕ → Bool };

    /// The moment now, in milliseconds since 1970-01-01 in UTC. It cannot fail. Whoever asks uses a
    /// number above 253,402,300,799,999, the last millisecond of the year 9999, as that number.
    fn now_ms(&mut self) -> u64
        ensures given { IsTrue (may self.old result) }
        ensures same { may self.new ≡ may self.old };
}

/// A clock that stands still. Contracts see it as the one number that it may give.
#[derive(Clone, Copy, Debug, PartialEq, Eq)]
pub struct FixedClock {
    ms: u64,
}

impl Model for FixedClock {
    ghost use Rattle.std.specs.Prelude.{ℕ};

    ghost Value = { ℕ };

    ghost view = { λ clock. clock.ms };

    ghost inverse = { λ ms. record { ms = ms } };
}

impl FixedClock {
    /// A clock that always gives `ms`, in milliseconds since 1970-01-01 in UTC.
    pub fn new(ms: u64) -> FixedClock
        ensures { result ≡ ms }
    {
        FixedClock { ms }
    }
}

impl Clock for FixedClock {
    ghost may = { λ clock n. n == clock };

    fn now_ms(&mut self) -> u64 {
        self.ms
    }
}

/// The clock of the system, by a handle `R` that reads it. It may give any number, and gives 0
/// where the system gives no time.
#[derive(Drop)]
pub struct StdClock<R> {
    handle: R,
}

impl<R> StdClock<R> {
    /// The clock that this handle reads.
    pub fn new(handle: R) -> StdClock<R>
        ensures { result.handle ≡ handle }
    {
        StdClock { handle }
    }
}

/// The whole milliseconds of a duration, or the greatest number where there are more.
fn whole_ms(time: Duration) -> u64
    ensures { result ≡ min (as_nanos time / 1_000_000) (2 ^ 64 - 1) }
{
    u64::try_from(time.as_millis()).unwrap_or(u64::MAX)
}

impl<R: std::time::Clock> Clock for StdClock<R> {
    ghost may = { λ _ _. true };

    fn now_ms(&mut self) -> u64 {
        match self.handle.since_1970() {
            Ok(time) => whole_ms(time),
            Err(_) => 0,
        }
    }
}
