//! The row of an object, whose sort keys are looked for one after another.
ghost use Rattle.std.specs.Prelude.{◌≡◌, ◌+◌, ◌<◌, ◌≤◌, [], None, length, IfOk, IfSome, OnOk, true, false};
ghost use Rattle.gd_base.specs.Counts.{Rose};
ghost use Rattle.gd_prim.specs.History.{prims_of};
ghost use Rattle.gd_defs.specs.Rows as defs;
ghost use Rattle.gd_plan.specs.Seen.{sort_key_view};
ghost use Rattle.gd_thawed.specs.Keying.{HasKeys, HasLookedFor};

use crate::answers::first_answer;
use crate::keys::key_at;
use gd_base::id::Id;
use gd_base::memory::Memory;
use gd_base::steps::Steps;
use gd_iter_core::budget::Budget;
use gd_plan::asked::{Asked, SortKey};
use gd_store::view::View;
use gd_window::keys::{Key, Keys4};
use gd_window::row::Row;
use std::alloc::Global;

/// An object whose sort keys are looked for: those that were found, and how many links at the end
/// of the next one's property were looked at, which are none of its answers.
#[derive(Drop)]
pub(crate) struct Keying {
    pub(crate) object: Id,
    pub(crate) keys: Vec<Key>,
    pub(crate) next: usize,
}

/// The place of a sort key of an object, if it has one. None: the budget was spent before that was
/// known. At most 29 steps more than the budget.
fn place_of<L>(
    view: &View<'_>,
    key: &SortKey,
    object: Id,
    next: &mut usize,
    budget: u64,
    steps: &mut Steps<L>,
) -> Option<Option<Id>>
    requires looked { HasLookedFor (prims_of view.now) key.now object next.old }
    ensures place { IfSome result (λ o. o
        ≡ defs.key_place (prims_of view.now) object (sort_key_view key.now)) }
    ensures looked { result ≡ None
        → HasLookedFor (prims_of view.now) key.now object next.new }
    ensures work { steps.new ≤ steps.old + budget + 29 }
    ensures later { steps.old ≤ steps.new }
    ensures counted { Rose steps.old steps.new }
{
    match key {
        SortKey::Guid { .. } | SortKey::Timestamp { .. } => {
            steps.tick();
            Some(Some(object))
        }
        SortKey::Value { property, .. } => {
            first_answer(view, property, object, next, budget, steps)
        }
    }
}

impl Keying {
    /// None of an object's keys was found.
    pub(crate) fn begin(alloc: Global, object: Id) -> Keying
        ensures object { result.object ≡ object }
        ensures first { result.next ≡ 0 }
        ensures none { result.keys.items ≡ [] }
    {
        Keying {
            object,
            keys: Vec::new(alloc),
            next: 0,
        }
    }

    /// Whether all keys were found.
    pub(crate) fn is_known(&self, asked: &Asked) -> bool
        ensures known { result ≡ true → length asked.now.sort.items ≤ length self.now.keys.items }
        ensures unknown { result ≡ false → length self.now.keys.items
            < length asked.now.sort.items }
    {
        self.keys.len() >= asked.sort.len()
    }

    /// Looks on for the next key. At most 29 steps more than the budget.
    pub(crate) fn look_on<L>(
        &mut self,
        view: &View<'_>,
        asked: &Asked,
        budget: u64,
        steps: &mut Steps<L>,
    ) -> Result<(), Memory>
        requires has { HasKeys (prims_of view.now) asked.now.sort.items self.old }
        requires some { length self.old.keys.items < length asked.now.sort.items }
        ensures has { OnOk result (HasKeys (prims_of view.now) asked.now.sort.items self.new) }
        ensures object { self.new.object ≡ self.old.object }
        ensures counted { Rose steps.old steps.new }
        ensures work { steps.new ≤ steps.old + budget + 29 }
        ensures later { steps.old ≤ steps.new }
    {
        let key = &asked.sort[self.keys.len()];
        match place_of(view, key, self.object, &mut self.next, budget, steps) {
            Some(place) => {
                self.keys.push(key_at(view.primitives(), key, place)?)?;
                self.next = 0;
                Ok(())
            }
            None => Ok(()),
        }
    }

    /// Looks for the keys that are left, until all are known or the budget is spent; whether all
    /// are. At most 29 steps more than the budget.
    pub(crate) fn look_all<L>(
        &mut self,
        view: &View<'_>,
        asked: &Asked,
        budget: u64,
        steps: &mut Steps<L>,
    ) -> Result<bool, Memory>
        requires has { HasKeys (prims_of view.now) asked.now.sort.items self.old }
        ensures has { IfOk result (λ known. HasKeys (prims_of view.now) asked.now.sort.items
            self.new) }
        ensures known { IfOk result (λ known. known ≡ true
            → length asked.now.sort.items ≤ length self.new.keys.items) }
        ensures object { self.new.object ≡ self.old.object }
        ensures work { steps.new ≤ steps.old + budget + 29 }
        ensures later { steps.old ≤ steps.new }
    {
        let whole = Budget::new(budget, steps);
        for _key in 0..asked.sort.len() {
            if self.is_known(asked) {
                return Ok(true);
            }
            if whole.is_spent(steps) {
                return Ok(false);
            }
            let left = whole.left(steps);
            self.look_on(view, asked, left, steps)?;
        }
        Ok(self.is_known(asked))
    }

    /// The row, once all keys are known.
    pub(crate) fn row(self) -> Row
        requires few { length self.keys.items ≤ 4 }
        ensures { result ≡ record { keys = self.keys.items; id = self.object } }
    {
        Row {
            keys: Keys4::from_vec(self.keys),
            id: self.object,
        }
    }
}
