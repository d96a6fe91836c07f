//! The members of a union, each with the place that it gave.
ghost use Rattle.std.specs.Prelude.{◌≡◌, ◌+◌, ◌-◌, ◌*◌, ◌^◌, ◌<◌, ◌≤◌, ℕ, length, map, sum_by, min};
ghost use Rattle.std.specs.Prelude.{true, IfSome};
ghost use Rattle.std.specs.Bool.{OnTrue, OnFalse};
ghost use Rattle.std.specs.List.{list_all};
ghost use Rattle.gd_iter_core.specs.Owed.{ids_from, CheckReaches};
ghost use Rattle.gd_or.specs.Or.{part, is_known, head_from, lesser, least, joined, AnyGives};
ghost use Rattle.gd_or.specs.declared.branch.Head.TheVariants.{At};

use gd_base::id::Id;
use gd_base::steps::Steps;
use gd_iter_core::budget::Budget;
use gd_iter_core::iter::{Iter, Simple};
use gd_iter_core::turn::{Checked, FrozenIter, Turn};

/// What is known of a member.
#[derive(Clone, Copy)]
pub(crate) enum Head {
    Unknown,
    /// The place that it gave, and that the union has not given yet.
    At(Id),
    /// It owes nothing more.
    Ended,
}

/// A member of a union.
#[derive(Drop)]
pub(crate) struct Branch<I> {
    pub(crate) iter: I,
    pub(crate) head: Head,
    ghost low: { (id : ℕ) → head ≡ At id → id < 2 ^ 32 - 1 },
}

impl<I> Branch<I> {
    /// A member of which nothing is known.
    pub(crate) fn new(iter: I) -> Branch<I>
        ensures iter { result.iter ≡ iter }
        ensures head { result.head ≡ Head.Unknown }
    {
        Branch {
            iter,
            head: Head::Unknown,
        }
    }

    /// Whether the head says what comes first from a place on.
    fn is_known(&self, place: Id) -> bool
        ensures { result ≡ is_known place self.now.head }
    {
        match self.head {
            Head::Unknown => false,
            Head::At(id) => place <= id,
            Head::Ended => true,
        }
    }

    /// The place that the head says, from a place on.
    fn head_from(&self, place: Id) -> Option<Id>
        ensures head { result ≡ head_from place self.now.head }
        ensures low { IfSome result (λ id. id < 2 ^ 32 - 1) }
    {
        match self.head {
            Head::Unknown | Head::Ended => None,
            Head::At(id) => {
                if place <= id {
                    return Some(id);
                }
                None
            }
        }
    }

    /// Has the iterator give its first place from one on, where that is not known. False: the
    /// budget was spent first.
    fn settle<W, L>(&mut self, world: &W, place: Id, budget: Budget, steps: &mut Steps<L>) -> bool
    where
        I: Simple<W>,
        requires begun { budget.before ≤ steps.old }
        requires soon { steps.old ≤ budget.before + budget.size + 24 }
        ensures owed { part place (I.owed self.new.iter world.now) self.new.head
            ≡ part place (I.owed self.old.iter world.now) self.old.head }
        ensures walk { I.walk self.new.iter ≡ I.walk self.old.iter }
        ensures known { OnTrue result (is_known place self.new.head ≡ true) }
        ensures reached { OnFalse result (budget.before + budget.size ≤ steps.new) }
        ensures work { steps.new ≤ budget.before + budget.size + 24 }
        ensures later { steps.old ≤ steps.new }
    {
        if self.is_known(place) {
            return true;
        }
        if budget.is_spent(steps) {
            return false;
        }
        match self.iter.find(world, place, budget.left(steps), steps) {
            Turn::Found(id) => {
                self.head = Head::At(id);
                true
            }
            Turn::Done => {
                self.head = Head::Ended;
                true
            }
            Turn::Unfinished => {
                self.head = Head::Unknown;
                false
            }
        }
    }

    /// Takes a position.
    fn restart<W, L>(&mut self, world: &W, at: Id, steps: &mut Steps<L>)
    where
        I: Simple<W>,
        requires { at < 2 ^ 32 - 1 }
        ensures owed { I.owed self.new.iter world.now
            ≡ ids_from at ((I.walk self.old.iter).set world.now) }
        ensures head { self.new.head ≡ Head.Unknown }
        ensures walk { I.walk self.new.iter ≡ I.walk self.old.iter }
        ensures work { steps.new ≤ steps.old + 24 }
        ensures later { steps.old ≤ steps.new }
    {
        let start = FrozenIter {
            place: at,
            accepted: None,
        };
        let _taken = self.iter.thaw(world, start, steps);
        self.head = Head::Unknown;
    }
}

/// Has each member give its first place from one on, where that is not known. False: the budget was
/// spent first.
pub(crate) fn settle_all<W, I: Simple<W>, L>(
    branches: &mut [Branch<I>],
    world: &W,
    place: Id,
    budget: Budget,
    steps: &mut Steps<L>,
) -> bool
    requires begun { budget.before ≤ steps.old }
    requires soon { steps.old ≤ budget.before + budget.size + 24 }
    ensures owed { map (λ b. part place (I.owed b.iter world.now) b.head) branches.new
        ≡ map (λ b. part place (I.owed b.iter world.now) b.head) branches.old }
    ensures walk { map (λ b. I.walk b.iter) branches.new ≡ map (λ b. I.walk b.iter) branches.old }
    ensures known { OnTrue result (list_all (λ b. is_known place b.head) branches.new ≡ true) }
    ensures reached { OnFalse result (budget.before + budget.size ≤ steps.new) }
    ensures work { steps.new ≤ budget.before + budget.size + 24 }
    ensures later { steps.old ≤ steps.new }
{
    for k in 0..branches.len() {
        if !branches[k].settle(world, place, budget, steps) {
            return false;
        }
    }
    true
}

/// The lesser of two, where they are there.
fn lesser(a: Option<Id>, b: Option<Id>) -> Option<Id>
    ensures lesser { result ≡ lesser a b }
    ensures low { IfSome a (λ a. a < 2 ^ 32 - 1) → IfSome b (λ b. b < 2 ^ 32 - 1)
        → IfSome result (λ c. c < 2 ^ 32 - 1) }
{
    match (a, b) {
        (None, b) => b,
        (Some(a), None) => Some(a),
        (Some(a), Some(b)) => Some(Id(a.place().min(b.place()))),
    }
}

/// The least of the heads from a place on.
pub(crate) fn least<I>(branches: &[Branch<I>], place: Id) -> Option<Id>
    ensures least { result ≡ least place (map (λ b. b.head) branches.now) }
    ensures low { IfSome result (λ id. id < 2 ^ 32 - 1) }
{
    let mut best: Option<Id> = None;
    for branch in branches {
        best = lesser(best, branch.head_from(place));
    }
    best
}

/// Asks the members for a place, in their order.
pub(crate) fn ask_any<W, I: Simple<W>, L>(
    branches: &[Branch<I>],
    world: &W,
    id: Id,
    budget: Budget,
    steps: &mut Steps<L>,
) -> Checked
    requires begun { budget.before ≤ steps.old }
    requires soon { steps.old ≤ budget.before + budget.size + 24 }
    ensures gives { AnyGives (map (λ b. (I.walk b.iter).set world.now) branches.now) id result }
    ensures reached { CheckReaches budget.before budget.size result steps.new }
    ensures work { steps.new ≤ budget.before + budget.size + 24 }
    ensures few { steps.new ≤ steps.old + 24 * length branches.now }
    ensures later { steps.old ≤ steps.new }
{
    for branch in branches {
        if budget.is_spent(steps) {
            return Checked::Unfinished;
        }
        if branch.iter.has(world, id, steps) {
            return Checked::Yes;
        }
    }
    Checked::No
}

/// Has each member take a position.
pub(crate) fn restart_all<W, I: Simple<W>, L>(
    branches: &mut [Branch<I>],
    world: &W,
    at: Id,
    steps: &mut Steps<L>,
)
    requires { at < 2 ^ 32 - 1 }
    ensures owed { map (λ b. part at (I.owed b.iter world.now) b.head) branches.new
        ≡ map (λ b. ids_from at ((I.walk b.iter).set world.now)) branches.old }
    ensures walk { map (λ b. I.walk b.iter) branches.new ≡ map (λ b. I.walk b.iter) branches.old }
    ensures work { steps.new ≤ steps.old + 24 * length branches.old }
    ensures later { steps.old ≤ steps.new }
{
    for k in 0..branches.len() {
        branches[k].restart(world, at, steps);
    }
}

/// The sum of the bounds, or the greatest number.
pub(crate) fn total_size<W, I: Simple<W>>(branches: &[Branch<I>], world: &W) -> u32
    ensures size { result ≡ min (sum_by (λ b. (I.walk b.iter).bound world.now) branches.now)
        (2 ^ 32 - 1) }
    ensures bound { min (length (joined (map (λ b. (I.walk b.iter).set world.now) branches.now)))
        (2 ^ 32 - 1) ≤ result }
{
    let mut total: u32 = 0;
    for branch in branches {
        total = total.saturating_add(branch.iter.size(world));
    }
    total
}
