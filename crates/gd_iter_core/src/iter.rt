//! The calls that all iterators have.
ghost use Rattle.std.specs.Prelude.{◌≡◌, ◌+◌, ◌-◌, ◌*◌, ◌^◌, ◌<◌, ◌≤◌, List, ℕ, MatchBool, length};
ghost use Rattle.std.specs.Prelude.{min, true};
ghost use Rattle.std.specs.Bool.{OnTrue};
ghost use Rattle.gd_iter_core.specs.Owed.{Walk, RisesFrom, NextGives, FindGives, CheckGives, IsLow};
ghost use Rattle.gd_iter_core.specs.Owed.{Reaches, CheckReaches, is_position, has_id, owed_at};
ghost use Rattle.gd_iter_core.specs.Owed.{IsAt};
ghost use Rattle.gd_iter_core.specs.declared.turn.FrozenIter.{FrozenIter};

use crate::turn::{Checked, FrozenIter, Turn};
use gd_base::id::Id;
use gd_base::steps::Steps;

/// An iterator over a rising set of places in a world, as a store at a dateline. It gives each
/// member once, in rising order. A call with a budget of steps may stop once it has taken them, at
/// most 24 more, and the next call goes on from there. No call takes memory.
///
/// Contracts see what it walks, what it owes and its position. The first two depend on the iterator
/// and on what contracts see of the world, and on nothing else.
pub trait Iter<W> {
    /// What it walks. No call changes that.
    ghost walk: { Self → Walk W };

    /// The members that it has not given yet, in a world.
    ghost owed: { Self → W → List ℕ };

    /// Its position.
    ghost position: { Self → FrozenIter };

    /// Gives the next member.
    fn next<L>(&mut self, world: &W, budget: u64, steps: &mut Steps<L>) -> Turn
        requires { 0 < budget }
        ensures gives { NextGives (owed self.old world.now) result (owed self.new world.now) }
        ensures low { IsLow result }
        ensures same { walk self.new ≡ walk self.old }
        ensures at { IsAt (walk self.old) world.now (position self.old) (owed self.old world.now)
            → IsAt (walk self.new) world.now (position self.new) (owed self.new world.now) }
        ensures reached { Reaches steps.old budget result steps.new }
        ensures work { steps.new ≤ steps.old + budget + 24 }
        ensures later { steps.old ≤ steps.new };

    /// Gives the next member that is at least `from`. Members below it are no longer owed.
    fn find<L>(&mut self, world: &W, from: Id, budget: u64, steps: &mut Steps<L>) -> Turn
        requires { 0 < budget }
        ensures gives { FindGives from (owed self.old world.now) result (owed self.new world.now) }
        ensures low { IsLow result }
        ensures same { walk self.new ≡ walk self.old }
        ensures at { IsAt (walk self.old) world.now (position self.old) (owed self.old world.now)
            → IsAt (walk self.new) world.now (position self.new) (owed self.new world.now) }
        ensures reached { Reaches steps.old budget result steps.new }
        ensures work { steps.new ≤ steps.old + budget + 24 }
        ensures later { steps.old ≤ steps.new };

    /// Whether the place is a member. It changes nothing that is owed. With a budget of more than
    /// 24 steps for each leaf it knows; with a smaller one the same question may stay unfinished
    /// however often it is asked.
    fn check<L>(&mut self, world: &W, id: Id, budget: u64, steps: &mut Steps<L>) -> Checked
        requires { 0 < budget }
        ensures gives { CheckGives ((walk self.old).set world.now) id result }
        ensures owed { owed self.new world.now ≡ owed self.old world.now }
        ensures same { walk self.new ≡ walk self.old }
        ensures at { position self.new ≡ position self.old }
        ensures reached { CheckReaches steps.old budget result steps.new }
        ensures work { steps.new ≤ steps.old + budget + 24 }
        ensures few { steps.new ≤ steps.old + 24 * (walk self.old).leaves }
        ensures later { steps.old ≤ steps.new };

    /// A bound on the number of members, where it is no greater than any `u32`. It is the same in
    /// each later world.
    fn size(&self, world: &W) -> u32
        ensures size { result ≡ (walk self.now).bound world.now }
        ensures bound { min (length ((walk self.now).set world.now)) (2 ^ 32 - 1) ≤ result };

    /// The position.
    fn freeze(&self) -> FrozenIter
        ensures { result ≡ position self.now };

    /// Takes a position. False, and nothing changes, exactly where it says that a number of members
    /// accept the place and there are not more members than that.
    fn thaw<L>(&mut self, world: &W, at: FrozenIter, steps: &mut Steps<L>) -> bool
        requires { at.place < 2 ^ 32 - 1 }
        ensures fits { result ≡ is_position (walk self.old).members at }
        ensures taken { MatchBool result (position self.new ≡ at) (self.new ≡ self.old) }
        ensures owed { OnTrue result (owed self.new world.now ≡ owed_at (walk self.old) world.now
            at) }
        ensures same { walk self.new ≡ walk self.old }
        ensures work { steps.new ≤ steps.old + 24 * (walk self.old).leaves }
        ensures later { steps.old ≤ steps.new };

    /// The set is rising.
    ghost set_rises: { (it : Self) (world : W) → RisesFrom 0 ((walk it).set world) };

    /// What is owed is rising.
    ghost owed_rises: { (it : Self) (world : W) → RisesFrom 0 (owed it world) };

    /// A number of members that accept its place is below the number of members.
    ghost fits: { (it : Self) → is_position (walk it).members (position it) ≡ true };
}

/// An iterator that is made of no others, and says at once whether a place is a member. Only such
/// ones are members of others, so each question that an iterator asks is answered, however small
/// the budget is.
pub trait Simple<W>: Iter<W> {
    /// Whether the place is a member.
    fn has<L>(&self, world: &W, id: Id, steps: &mut Steps<L>) -> bool
        ensures has { result ≡ has_id ((Self.walk self.now).set world.now) id }
        ensures work { steps.new ≤ steps.old + 24 }
        ensures later { steps.old ≤ steps.new };

    /// It is a leaf.
    ghost one_leaf: { (it : Self) → (Self.walk it).leaves ≡ 1 };
}

/// In worlds that contracts see alike, as views of a store and of a later one at the same dateline,
/// an iterator walks and owes the same.
pub fn owes_alike<W, I: Iter<W>>(iter: &I, world: &W, later: &W)
    requires { later.now ≡ world.now }
    ensures set { (I.walk iter.now).set later.now ≡ (I.walk iter.now).set world.now }
    ensures bound { (I.walk iter.now).bound later.now ≡ (I.walk iter.now).bound world.now }
    ensures owed { I.owed iter.now later.now ≡ I.owed iter.now world.now }
{}
