//! Leaves.
ghost use Rattle.std.specs.Prelude.{◌≡◌, ◌+◌, ◌-◌, ◌^◌, ◌<◌, ◌≤◌, length, true, false, max, IfSome};
ghost use Rattle.std.specs.Prelude.{IfOk, refl, List, ℕ, ◌&&◌, nat_lt};
ghost use Rattle.gd_prim.specs.declared.Batch.{Batch};
ghost use Rattle.gd_prim.specs.End.{places_with};
ghost use Rattle.gd_prim.specs.History.{prims_of};
ghost use Rattle.gd_postings.specs.Postings.{first_from};
ghost use Rattle.gd_store.specs.Valued.{places_of_number};
ghost use Rattle.gd_iter_core.specs.Owed.{ids_from, has_id, NextGives, IsLow, Reaches, IsAt};
ghost use Rattle.gd_iter_core.specs.Positions.{Moves, at_place};
ghost use Rattle.gd_store.specs.Lefts.{LeftsRise};
ghost use Rattle.gd_leaf.specs.Known.{IsKnown};
ghost use Rattle.gd_leaf.specs.Leaf.{all_places, leaf_set, leaf_walk};
ghost use Rattle.gd_leaf.specs.Rising.{leaf_rises, leaf_owed_rises};

use crate::kind::{Kind, first_of_all};
use crate::listed::Listed;
use gd_base::id::Id;
use gd_base::memory::Memory;
use gd_base::steps::Steps;
use gd_iter_core::iter::{Iter, Simple};
use gd_iter_core::turn::{Checked, FrozenIter, Turn};
use gd_prim::End;
use gd_store::view::View;
use std::alloc::Global;

/// The places below a view's end that are of some kind, in rising order. It owes those from its
/// place on. Where the next one stands in the store's list is kept as `at`, which only spares
/// searching.
#[derive(Drop)]
pub struct Leaf {
    kind: Kind,
    place: Id,
    at: u32,
}

impl Leaf {
    /// All places. At first all of them are owed.
    pub fn all() -> Leaf
        ensures set { (batches : List Batch) → (⟦<Leaf as Iter<View<'static>>>⟧.walk result).set
            batches ≡ all_places batches }
        ensures owed { (batches : List Batch) → ⟦<Leaf as Iter<View<'static>>>⟧.owed result batches
            ≡ all_places batches }
    {
        Leaf {
            kind: Kind::All,
            place: Id(0),
            at: 0,
        }
    }

    /// The places whose primitives have a node at an end. At first all of them are owed.
    pub fn linkage(end: End, node: Id) -> Leaf
        ensures set { (batches : List Batch) → (⟦<Leaf as Iter<View<'static>>>⟧.walk result).set
            batches ≡ places_with end node (prims_of batches) }
        ensures owed { (batches : List Batch) → ⟦<Leaf as Iter<View<'static>>>⟧.owed result batches
            ≡ places_with end node (prims_of batches) }
    {
        Leaf {
            kind: Kind::Linkage(end, node),
            place: Id(0),
            at: 0,
        }
    }

    /// The places whose primitives have the value with a number: none where the number was not
    /// given. At first all of them are owed.
    pub fn value(number: u32) -> Leaf
        ensures set { (batches : List Batch) → (⟦<Leaf as Iter<View<'static>>>⟧.walk result).set
            batches ≡ places_of_number number (prims_of batches) }
        ensures owed { (batches : List Batch) → ⟦<Leaf as Iter<View<'static>>>⟧.owed result batches
            ≡ places_of_number number (prims_of batches) }
    {
        Leaf {
            kind: Kind::Value(number),
            place: Id(0),
            at: 0,
        }
    }

    /// The places of a list, in any order, that are below the view's end. At first all of them are
    /// owed. `Memory`: there is no room for them.
    pub fn fixed(alloc: Global, ids: &[Id]) -> Result<Leaf, Memory>
        ensures members { IfOk result (λ leaf. (batches : List Batch) → length (prims_of batches)
            ≤ 2_097_151 → (id : ℕ)
            → has_id ((⟦<Leaf as Iter<View<'static>>>⟧.walk leaf).set batches) id
            ≡ (has_id ids.now id && nat_lt id (length (prims_of batches)))) }
        ensures owed { IfOk result (λ leaf. (batches : List Batch)
            → ⟦<Leaf as Iter<View<'static>>>⟧.owed leaf batches
            ≡ (⟦<Leaf as Iter<View<'static>>>⟧.walk leaf).set batches) }
    {
        let list = Listed::new(alloc, ids)?;
        Ok(Leaf {
            kind: Kind::Fixed(list),
            place: Id(0),
            at: 0,
        })
    }

    /// The same leaf from a place on: of its set it owes the places that are not below that one,
    /// whatever it owed before. It takes no steps.
    pub fn from(self, place: Id) -> Leaf
        ensures walk { ⟦<Leaf as Iter<View<'static>>>⟧.walk result
            ≡ ⟦<Leaf as Iter<View<'static>>>⟧.walk self }
        ensures owed { (batches : List Batch) → ⟦<Leaf as Iter<View<'static>>>⟧.owed result batches
            ≡ ids_from place ((⟦<Leaf as Iter<View<'static>>>⟧.walk self).set batches) }
    {
        let mut leaf = self;
        leaf.place = place;
        leaf
    }

    /// Whether it is known that the left ends of the primitives at its places rise, as it may be of
    /// those that name a node or have a value. False says nothing. It takes no steps.
    pub fn lefts_rise(&self, view: &View<'_>) -> bool
        ensures { result ≡ true
            → LeftsRise (prims_of view.now) (leaf_set self.now.kind view.now) }
    {
        match &self.kind {
            Kind::Linkage(end, node) => view.lefts_rise(*end, *node),
            Kind::Value(number) => view.value_lefts_rise(*number),
            Kind::All | Kind::Fixed(_) => false,
        }
    }

    /// The end and the node where it walks all places whose primitives have that node at that end.
    /// It takes no steps.
    pub fn names(&self) -> Option<(End, Id)>
        ensures { IfSome result (λ n. (batches : List Batch) → leaf_set self.now.kind batches
            ≡ places_with n.0 n.1 (prims_of batches)) }
    {
        match &self.kind {
            Kind::Linkage(end, node) => Some((*end, *node)),
            Kind::All | Kind::Value(_) | Kind::Fixed(_) => None,
        }
    }

    /// The first member that is `from` or greater, looked for at a place of the store's list first.
    fn first<L>(&self, view: &View<'_>, from: Id, at: &mut u32, steps: &mut Steps<L>) -> Option<Id>
        ensures first { result ≡ first_from from (leaf_set self.now.kind view.now) }
        ensures below { IfSome result (λ id. id < length (prims_of view.now)) }
        ensures work { steps.new ≤ steps.old + 24 }
        ensures later { steps.old ≤ steps.new }
    {
        match &self.kind {
            Kind::All => first_of_all(view, from, steps),
            Kind::Linkage(end, node) => view.first_link(*end, *node, from, at, steps),
            Kind::Value(number) => view.first_of_value(*number, from, at, steps),
            Kind::Fixed(list) => list.first(view, from, steps),
        }
    }

    /// Gives the next member that is owed.
    fn go_on<L>(&mut self, view: &View<'_>, steps: &mut Steps<L>) -> Turn
        ensures gives { NextGives (ids_from self.old.place (leaf_set self.old.kind view.now)) result
            (ids_from self.new.place (leaf_set self.new.kind view.now)) }
        ensures kind { self.new.kind ≡ self.old.kind }
        ensures low { IsLow result }
        ensures known { (before budget now : ℕ) → Reaches before budget result now }
        ensures settled { IsKnown result }
        ensures work { steps.new ≤ steps.old + 24 }
        ensures later { steps.old ≤ steps.new }
    {
        let end = view.end();
        let mut at = self.at;
        let first = self.first(view, self.place, &mut at, steps);
        self.at = at;
        match first {
            Some(id) => {
                prove!(id < end);
                self.place = Id(id.place() + 1);
                Turn::Found(id)
            }
            None => Turn::Done,
        }
    }

    /// Whether a place is a member.
    fn is_member<L>(&self, view: &View<'_>, id: Id, steps: &mut Steps<L>) -> bool
        ensures has { result ≡ has_id (leaf_set self.now.kind view.now) id }
        ensures work { steps.new ≤ steps.old + 24 }
        ensures later { steps.old ≤ steps.new }
    {
        let mut at = self.at;
        match self.first(view, id, &mut at, steps) {
            Some(found) => found == id,
            None => false,
        }
    }

    /// Gives up the places below one.
    fn skip(&mut self, from: Id)
        ensures place { self.new.place ≡ max self.old.place from }
        ensures kind { self.new.kind ≡ self.old.kind }
    {
        if self.place < from {
            self.place = from;
        }
    }
}

impl<'a> Iter<View<'a>> for Leaf {
    ghost walk = { λ it. leaf_walk it.kind };

    ghost owed = { λ it batches. ids_from it.place (leaf_set it.kind batches) };

    ghost position = { λ it. at_place it.place };

    /// Gives the next member. It always knows, in at most 22 steps.
    fn next<L>(&mut self, world: &View<'a>, budget: u64, steps: &mut Steps<L>) -> Turn
        ensures gives { NextGives (ids_from self.old.place (leaf_set self.old.kind world.now))
            result (ids_from self.new.place (leaf_set self.new.kind world.now)) }
        ensures known { IsKnown result }
        ensures low { IsLow result }
        ensures same { leaf_walk self.new.kind ≡ leaf_walk self.old.kind }
        ensures at { IsAt (leaf_walk self.old.kind) world.now (at_place self.old.place)
            (ids_from self.old.place (leaf_set self.old.kind world.now))
            → IsAt (leaf_walk self.new.kind) world.now (at_place self.new.place)
            (ids_from self.new.place (leaf_set self.new.kind world.now)) }
        ensures reached { Reaches steps.old budget result steps.new }
        ensures few { steps.new ≤ steps.old + 24 }
        ensures work { steps.new ≤ steps.old + budget + 24 }
        ensures later { steps.old ≤ steps.new }
    {
        self.go_on(world, steps)
    }

    fn find<L>(&mut self, world: &View<'a>, from: Id, budget: u64, steps: &mut Steps<L>) -> Turn {
        self.skip(from);
        self.go_on(world, steps)
    }

    fn check<L>(&mut self, world: &View<'a>, id: Id, budget: u64, steps: &mut Steps<L>) -> Checked {
        if self.is_member(world, id, steps) {
            Checked::Yes
        } else {
            Checked::No
        }
    }

    fn size(&self, world: &View<'a>) -> u32 {
        match &self.kind {
            Kind::All => world.end().place(),
            Kind::Linkage(_, _) => world.end().place(),
            Kind::Value(_) => world.end().place(),
            Kind::Fixed(list) => list.ids.len(),
        }
    }

    fn freeze(&self) -> FrozenIter
        ensures { result ≡ at_place self.now.place }
    {
        FrozenIter {
            place: self.place,
            accepted: None,
        }
    }

    fn thaw<L>(&mut self, world: &View<'a>, at: FrozenIter, steps: &mut Steps<L>) -> bool {
        match at.accepted {
            Some(_) => return false,
            None => {}
        }
        self.place = at.place;
        true
    }

    ghost set_rises = { λ it batches. leaf_rises it.kind batches };

    ghost owed_rises = { λ it batches. leaf_owed_rises it.kind batches it.place };

    ghost fits = { λ it. refl };
}

impl<'a> Simple<View<'a>> for Leaf {
    fn has<L>(&self, world: &View<'a>, id: Id, steps: &mut Steps<L>) -> bool {
        self.is_member(world, id, steps)
    }

    ghost one_leaf = { λ it. refl };
}
