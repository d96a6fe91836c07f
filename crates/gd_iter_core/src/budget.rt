//! Budgets of steps.
ghost use Rattle.std.specs.Prelude.{◌≡◌, ◌+◌, ◌<◌, ◌≤◌, ◌↔◌, IsTrue};

use gd_base::steps::Steps;

/// How many steps a call may take, and what the count was when it began. It is spent once the count
/// has risen by so many.
#[derive(Clone, Copy, Debug)]
pub struct Budget {
    pub before: u64,
    pub size: u64,
}

impl Budget {
    /// A budget that begins now.
    pub fn new<L>(size: u64, steps: &Steps<L>) -> Budget
        ensures before { result.before ≡ steps.now }
        ensures size { result.size ≡ size }
    {
        Budget {
            before: steps.taken(),
            size,
        }
    }

    /// Whether it is spent.
    pub fn is_spent<L>(self, steps: &Steps<L>) -> bool
        requires { self.before ≤ steps.now }
        ensures { IsTrue result ↔ (self.before + self.size ≤ steps.now) }
    {
        steps.taken() - self.before >= self.size
    }

    /// What is left of it.
    pub fn left<L>(self, steps: &Steps<L>) -> u64
        requires begun { self.before ≤ steps.now }
        requires some { steps.now < self.before + self.size }
        ensures { steps.now + result ≡ self.before + self.size }
    {
        self.size - (steps.taken() - self.before)
    }
}
