//! Posting lists.
ghost use Rattle.std.specs.Prelude.{◌≡◌, ◌+◌, ◌-◌, ◌^◌, ◌<◌, ◌≤◌, ◌↔◌, [], ◌∷◌, ◌++◌, Some, length};
ghost use Rattle.std.specs.Prelude.{slice_get, min, OnOk, OnErr, IfOk, IfSome, IfNone, IsTrue};
ghost use Rattle.std.specs.List.{Contains};
ghost use Rattle.gd_base.specs.Counts.{Rose};
ghost use Rattle.gd_postings.specs.Postings.{Places, IsRising, IsAbove, ids_below, IsSplit};
ghost use Rattle.gd_postings.specs.Postings as rising;

use crate::ids::Ids;
use gd_base::id::Id;
use gd_base::memory::Memory;
use gd_base::steps::Steps;
use std::alloc::Global;
use std::marker::Model;
use std::mem::size_of;

/// A posting list: identities, each greater than the one before, at most 2,097,151 of them. It
/// takes 16 bytes, and where it has more than three identities an allocation. Contracts see the
/// list, and `spare`, the number of identities that may be pushed without memory.
#[derive(Debug, Drop)]
pub struct Postings {
    ids: Ids,
    alloc: Global,
}

const _: () = prove!(size_of::<Postings>() == 16);

impl Model for Postings {
    ghost use Rattle.std.specs.Prelude.{◌≤◌, length};
    ghost use Rattle.gd_postings.specs.Ids.{ids_of, room_of};
    ghost use Rattle.gd_postings.specs.Postings.{Places, IsRising};

    ghost Value = { Places };

    ghost view = { λ postings. record { ids = ids_of postings.ids; spare = room_of postings.ids } };

    ghost invariant = { λ postings. (length (ids_of postings.ids) ≤ 2_097_151)
        × IsRising (ids_of postings.ids) };
}

impl Postings {
    /// No identities. It takes no memory.
    pub fn new(alloc: Global) -> Postings
        ensures { result.ids ≡ [] }
    {
        Postings {
            ids: Ids::Empty,
            alloc,
        }
    }

    /// The same identities again, and room for as many more. It takes memory only where there are
    /// more than three.
    pub fn copy(&self) -> Result<Postings, Memory>
        ensures { IfOk result (λ copy. copy ≡ self.now) }
    {
        Ok(Postings {
            ids: self.ids.copy(self.alloc)?,
            alloc: self.alloc,
        })
    }

    /// Makes room for one identity more. It never lowers `spare`. `Memory` leaves all as it was,
    /// and comes only where there was no room.
    pub fn make_room(&mut self) -> Result<(), Memory>
        ensures ids { self.new.ids ≡ self.old.ids }
        ensures ok { OnOk result (0 < self.new.spare) }
        ensures kept { self.old.spare ≤ self.new.spare }
        ensures err { OnErr result (self.new ≡ self.old) }
        ensures short { OnErr result (self.old.spare ≡ 0) }
    {
        self.ids.make_room(self.alloc)
    }

    /// Adds an identity at the end, where there is room. It takes no memory.
    pub fn push(&mut self, id: Id)
        requires room { 0 < self.old.spare }
        requires small { id < 2_097_151 }
        requires above { IsAbove self.old.ids id }
        ensures ids { self.new.ids ≡ self.old.ids ++ id ∷ [] }
        ensures spare { self.new.spare + 1 ≡ self.old.spare }
    {
        self.ids.push(id);
    }

    /// Takes the last identity away, and gives it. Its place is reserved again. None exactly where
    /// the list is empty, and then all stays.
    pub fn pop_last(&mut self) -> Option<Id>
        ensures some { IfSome result (λ id. (self.old.ids ≡ self.new.ids ++ id ∷ [])
            × (self.new.spare ≡ self.old.spare + 1)) }
        ensures none { IfNone result ((self.old.ids ≡ []) × (self.new ≡ self.old)) }
    {
        self.ids.pop()
    }

    /// The identities.
    fn as_slice(&self) -> &[Id]
        ensures ids { result.now ≡ self.now.ids }
        ensures few { length result.now ≤ 2_097_151 }
        ensures rising { IsRising result.now }
    {
        self.ids.as_slice()
    }

    /// How many identities there are. The list is rising, and has at most 2,097,151.
    pub fn len(&self) -> u32
        ensures len { result ≡ length self.now.ids }
        ensures few { length self.now.ids ≤ 2_097_151 }
        ensures rising { IsRising self.now.ids }
    {
        self.as_slice().len() as u32
    }

    /// The identity at place `k` of the list, counted from 0, in one step.
    pub fn at<L>(&self, k: u32, steps: &mut Steps<L>) -> Id
        requires there { k < length self.now.ids }
        ensures id { slice_get self.now.ids k ≡ Some result }
        ensures work { steps.new ≡ min (steps.old + 1) (2 ^ 64 - 1) }
        ensures later { steps.old ≤ steps.new }
    {
        steps.tick();
        self.as_slice()[k as usize]
    }

    /// The identities that are less than `end`, in rising order. They are found in at most 22
    /// steps, and at least one where the list is not empty.
    #[tactic(auto, using(crate::proofs::Split::are_below))]
    pub fn below<L>(&self, end: Id, steps: &mut Steps<L>) -> &[Id]
        ensures ids { result.now ≡ ids_below end self.now.ids }
        ensures work { steps.new ≤ steps.old + 22 }
        ensures later { steps.old ≤ steps.new }
        ensures counted { 0 < length self.now.ids → Rose steps.old steps.new }
    {
        let ids = self.as_slice();
        let place = cut(ids, end, steps);
        &ids[..place]
    }

    /// How many identities are less than `end`, in at most 22 steps, and at least one where the
    /// list is not empty.
    pub fn len_below<L>(&self, end: Id, steps: &mut Steps<L>) -> u32
        ensures len { result ≡ length (ids_below end self.now.ids) }
        ensures work { steps.new ≤ steps.old + 22 }
        ensures later { steps.old ≤ steps.new }
        ensures counted { 0 < length self.now.ids → Rose steps.old steps.new }
    {
        cut(self.as_slice(), end, steps) as u32
    }

    /// The least identity that is `id` or greater, in at most 22 steps, and at least one where the
    /// list is not empty. None exactly where there is none.
    #[tactic(auto, using(crate::proofs::Split::finds, crate::proofs::Split::finds_none))]
    pub fn first_from<L>(&self, id: Id, steps: &mut Steps<L>) -> Option<Id>
        ensures first { result ≡ rising.first_from id self.now.ids }
        ensures work { steps.new ≤ steps.old + 22 }
        ensures later { steps.old ≤ steps.new }
        ensures counted { 0 < length self.now.ids → Rose steps.old steps.new }
    {
        let ids = self.as_slice();
        let place = search(ids, id, steps);
        if place == ids.len() {
            return None;
        }
        steps.tick();
        Some(ids[place])
    }

    /// The same, where the place `at` of the list may be the answer's: it is looked at first, and the
    /// one before it. Then it takes three steps, and else at most 24. Afterwards `at` is the place
    /// behind the identity that is given; no clause says so, since no answer rests on it.
    #[tactic(auto, using(crate::proofs::Split::finds, crate::proofs::Split::finds_none))]
    pub fn next_from<L>(&self, id: Id, at: &mut u32, steps: &mut Steps<L>) -> Option<Id>
        ensures first { result ≡ rising.first_from id self.now.ids }
        ensures work { steps.new ≤ steps.old + 24 }
        ensures later { steps.old ≤ steps.new }
        ensures counted { 0 < length self.now.ids → Rose steps.old steps.new }
    {
        let ids = self.as_slice();
        let place = near(ids, id, *at as usize, steps);
        if place == ids.len() {
            return None;
        }
        steps.tick();
        *at = place as u32 + 1;
        Some(ids[place])
    }

    /// Whether the identity is in the list, in at most 22 steps, and at least one where the list is
    /// not empty.
    pub fn has<L>(&self, id: Id, steps: &mut Steps<L>) -> bool
        ensures has { IsTrue result ↔ Contains self.now.ids id }
        ensures work { steps.new ≤ steps.old + 22 }
        ensures later { steps.old ≤ steps.new }
        ensures counted { 0 < length self.now.ids → Rose steps.old steps.new }
    {
        let ids = self.as_slice();
        let place = search(ids, id, steps);
        if place == ids.len() {
            return false;
        }
        steps.tick();
        ids[place] == id
    }
}

/// The places of a list that are still in question: from `low` up to `high`.
#[derive(Clone, Copy)]
struct Part {
    low: usize,
    high: usize,
}

/// The half of the part that is still in question once its middle was looked at.
fn halve(ids: &[Id], end: Id, part: Part) -> Part
    requires few { length ids.now ≤ 2_097_151 }
    requires rising { IsRising ids.now }
    requires split { IsSplit ids.now end part.low part.high }
    requires some { part.low < part.high }
    ensures split { IsSplit ids.now end result.low result.high }
    ensures half { (result.high - result.low) + (result.high - result.low) ≤ part.high - part.low }
{
    let middle = part.low + (part.high - part.low) / 2;
    if ids[middle].place() < end.place() {
        Part {
            low: middle + 1,
            high: part.high,
        }
    } else {
        Part {
            low: part.low,
            high: middle,
        }
    }
}

/// The place before which each identity of a rising list is less than `end`, and from which none
/// is.
fn search<L>(ids: &[Id], end: Id, steps: &mut Steps<L>) -> usize
    requires few { length ids.now ≤ 2_097_151 }
    requires rising { IsRising ids.now }
    ensures split { IsSplit ids.now end result result }
    ensures work { steps.new ≤ steps.old + 21 }
    ensures later { steps.old ≤ steps.new }
    ensures counted { 0 < length ids.now → Rose steps.old steps.new }
{
    let mut part = Part {
        low: 0,
        high: ids.len(),
    };
    for _round in 0..21u32 {
        if part.low == part.high {
            return part.low;
        }
        steps.tick();
        part = halve(ids, end, part);
    }
    part.low
}

/// Whether a rising list has identities, and all of them are less than `end`.
#[tactic(auto, using(crate::proofs::Split::all_before))]
fn lies_below(ids: &[Id], end: Id) -> bool
    requires rising { IsRising ids.now }
    ensures all { IsTrue result → IsSplit ids.now end (length ids.now) (length ids.now) }
{
    let count = ids.len();
    if count == 0 {
        return false;
    }
    ids[count - 1].place() < end.place()
}

/// The same place as `search` gives. Where all identities are less than `end`, as where the end is
/// that of the list of all primitives, it is found in one step.
fn cut<L>(ids: &[Id], end: Id, steps: &mut Steps<L>) -> usize
    requires few { length ids.now ≤ 2_097_151 }
    requires rising { IsRising ids.now }
    ensures split { IsSplit ids.now end result result }
    ensures work { steps.new ≤ steps.old + 21 }
    ensures later { steps.old ≤ steps.new }
    ensures counted { 0 < length ids.now → Rose steps.old steps.new }
{
    if lies_below(ids, end) {
        steps.tick();
        return ids.len();
    }
    search(ids, end, steps)
}

/// Whether a rising list is split at a place: the identity there is none that is less than `end`,
/// and the one before it is.
#[tactic(auto, using(crate::proofs::Split::split_here))]
fn splits_at<L>(ids: &[Id], end: Id, at: usize, steps: &mut Steps<L>) -> bool
    requires rising { IsRising ids.now }
    ensures split { IsTrue result → IsSplit ids.now end at at }
    ensures work { steps.new ≤ steps.old + 2 }
    ensures later { steps.old ≤ steps.new }
    ensures counted { Rose steps.old steps.new }
{
    steps.tick();
    if at >= ids.len() || ids[at].place() < end.place() {
        return false;
    }
    steps.tick();
    at == 0 || ids[at - 1].place() < end.place()
}

/// The same place as `search` gives, which is tried first at a place that may be the one.
fn near<L>(ids: &[Id], end: Id, at: usize, steps: &mut Steps<L>) -> usize
    requires few { length ids.now ≤ 2_097_151 }
    requires rising { IsRising ids.now }
    ensures split { IsSplit ids.now end result result }
    ensures work { steps.new ≤ steps.old + 23 }
    ensures later { steps.old ≤ steps.new }
    ensures counted { Rose steps.old steps.new }
{
    if splits_at(ids, end, at, steps) {
        return at;
    }
    search(ids, end, steps)
}
