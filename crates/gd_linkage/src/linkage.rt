//! Which places name a node, by the end at which they name it.
ghost use Rattle.std.specs.Prelude.{◌≡◌, ℕ, ◌+◌, ◌-◌, ◌<◌, ◌≤◌, ◌^◌, [], Some, length, min};
ghost use Rattle.std.specs.Prelude.{slice_get, OnOk, IfOk};
ghost use Rattle.gd_prim.specs.End.{end_of};
ghost use Rattle.gd_prim.specs.declared.End as prims;
ghost use Rattle.gd_postings.specs.Postings.{ids_below};
ghost use Rattle.gd_lists.specs.Lists.{id_list};
ghost use Rattle.gd_lists.specs.Entries.{is_of, with_entry, without_entry, spare_less};
ghost use Rattle.gd_linkage.specs.Linkage.{list_of, HasRoom, HasNoLess, SamePlaces, IsBehind};
ghost use Rattle.gd_linkage.specs.Linkage.{HasEntries};

use crate::counted::CountedLists;
use gd_base::id::Id;
use gd_base::memory::Memory;
use gd_base::steps::Steps;
use gd_postings::postings::Postings;
use gd_prim::{End, Primitive};
use std::alloc::Global;
use std::marker::Model;

/// The places of primitives by the nodes that they name: for each end a rising list for each node.
/// Contracts see the lists through `list_of`. A list that was never made is as an empty one.
#[derive(Drop)]
pub struct Linkage {
    left: CountedLists,
    right: CountedLists,
    typ: CountedLists,
    scope: CountedLists,
    empty: Postings,
}

impl Model for Linkage {
    ghost use Rattle.std.specs.Prelude.{◌≡◌, []};
    ghost use Rattle.gd_linkage.specs.Linkage.{LinkageValue};

    ghost Value = { LinkageValue };

    ghost view = { λ linkage. record {
      left = linkage.left;
      right = linkage.right;
      typ = linkage.typ;
      scope = linkage.scope;
    } };

    ghost invariant = { λ linkage. linkage.empty.ids ≡ [] };
}

impl Linkage {
    /// All lists are empty. It takes no memory.
    pub fn new(alloc: Global) -> Linkage
        ensures { (end : prims.End) (node : ℕ) → (list_of end node result).ids ≡ [] }
    {
        Linkage {
            left: CountedLists::new(alloc),
            right: CountedLists::new(alloc),
            typ: CountedLists::new(alloc),
            scope: CountedLists::new(alloc),
            empty: Postings::new(alloc),
        }
    }

    /// The same places again. No node is looked up.
    pub fn copy(&self) -> Result<Linkage, Memory>
        ensures { IfOk result (λ copy. copy ≡ self.now) }
    {
        Ok(Linkage {
            left: self.left.copy()?,
            right: self.right.copy()?,
            typ: self.typ.copy()?,
            scope: self.scope.copy()?,
            empty: self.empty.copy()?,
        })
    }

    /// The lists of an end.
    fn lists(&self, end: End) -> &CountedLists
        ensures { (node : ℕ) → id_list result.now node ≡ list_of end node self.now }
    {
        match end {
            End::Left => &self.left,
            End::Right => &self.right,
            End::Typ => &self.typ,
            End::Scope => &self.scope,
        }
    }

    /// The places that name this node at this end, in rising order.
    pub fn list(&self, end: End, node: Id) -> &Postings
        ensures { result.now.ids ≡ (list_of end node self.now).ids }
    {
        match self.lists(end).list(node) {
            Some(list) => list,
            None => &self.empty,
        }
    }

    /// A number that no list of this end is longer than. It does not fall where places are taken
    /// away.
    pub fn most(&self, end: End) -> u32
        ensures { (node : ℕ) → length (list_of end node self.now).ids ≤ result }
    {
        self.lists(end).most()
    }

    /// Makes room for a place more in the list of each node that the primitive names. It lowers the
    /// room of no list. `Memory` leaves the places of every list as they were.
    pub fn reserve(&mut self, prim: &Primitive) -> Result<(), Memory>
        ensures room { OnOk result (HasRoom prim.now self.new) }
        ensures kept { HasNoLess self.old self.new }
        ensures same { SamePlaces self.old self.new }
    {
        self.left.make_room(prim.left)?;
        self.right.make_room(prim.right)?;
        self.typ.make_room(prim.typ)?;
        self.scope.make_room(prim.scope)?;
        Ok(())
    }

    /// Enters the place of a primitive at the end of the list of each node that it names, where
    /// room was made. Every other list stays. It takes no memory.
    pub fn add(&mut self, prim: &Primitive, id: Id)
        requires room { HasRoom prim.now self.old }
        requires small { id < 2_097_151 }
        requires above { IsBehind prim.now id self.old }
        ensures ids { (end : prims.End) (node : ℕ) → (list_of end node self.new).ids
            ≡ with_entry (is_of (end_of end prim.now) node) id (list_of end node self.old).ids }
        ensures spare { (end : prims.End) (node : ℕ) → (list_of end node self.new).spare
            ≡ spare_less (is_of (end_of end prim.now) node) (list_of end node self.old).spare }
    {
        self.left.enter(prim.left, id);
        self.right.enter(prim.right, id);
        self.typ.enter(prim.typ, id);
        self.scope.enter(prim.scope, id);
    }

    /// Takes the last place of the list of each node that the primitive names away again. Every
    /// other list stays. It takes no memory.
    pub fn retract(&mut self, prim: &Primitive)
        requires { HasEntries prim.now self.old }
        ensures { (end : prims.End) (node : ℕ) → (list_of end node self.new).ids
            ≡ without_entry (is_of (end_of end prim.now) node) (list_of end node self.old).ids }
    {
        self.left.take_back(prim.left);
        self.right.take_back(prim.right);
        self.typ.take_back(prim.typ);
        self.scope.take_back(prim.scope);
    }

    /// How many places below `below` name this node at this end, in at most 22 steps.
    pub fn list_len<L>(&self, end: End, node: Id, below: Id, steps: &mut Steps<L>) -> u32
        ensures len { result ≡ length (ids_below below (list_of end node self.now).ids) }
        ensures work { steps.new ≤ steps.old + 22 }
        ensures later { steps.old ≤ steps.new }
    {
        self.list(end, node).len_below(below, steps)
    }

    /// The k-th place, from 0 in rising order, that names this node at this end, in one step.
    pub fn list_at<L>(&self, end: End, node: Id, k: u32, steps: &mut Steps<L>) -> Id
        requires { k < length (list_of end node self.now).ids }
        ensures place { slice_get (list_of end node self.now).ids k ≡ Some result }
        ensures work { steps.new ≡ min (steps.old + 1) (2 ^ 64 - 1) }
        ensures later { steps.old ≤ steps.new }
    {
        self.list(end, node).at(k, steps)
    }
}
