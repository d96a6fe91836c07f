//! The primitives below a dateline, and those that a write has made so far.
ghost use Rattle.std.specs.Prelude.{◌≡◌, ◌+◌, ◌≤◌, ◌<◌, [], ◌∷◌, ◌++◌, length, drop, option_map};
ghost use Rattle.std.specs.Prelude.{slice_get, OnOk, OnErr};
ghost use Rattle.gd_prim.specs.History.{prims_of};
ghost use Rattle.gd_prim.specs.Live as live;
ghost use Rattle.gd_growing.specs.State.{so_far};

use crate::made::first_previous;
use gd_base::id::Id;
use gd_base::memory::Memory;
use gd_base::steps::Steps;
use gd_prim::Primitive;
use gd_store::view::View;
use std::alloc::Global;
use std::marker::Model;

/// The primitives below the dateline of a view, and behind them those that a write has made so far.
/// Contracts see the batches below the dateline and the list of what was made, and `so_far` is the
/// whole list. It has at most 4,294,967,295 primitives.
#[derive(Drop)]
pub struct Growing<'a> {
    below: View<'a>,
    /// The place behind those below the dateline.
    first: u32,
    made: Vec<Primitive>,
}

impl<'a> Model for Growing<'a> {
    ghost use Rattle.gd_prim.specs.History.{prims_of};
    ghost use Rattle.gd_growing.specs.State.{State, HasPlaces};

    ghost Value = { State };

    ghost view = { λ g. record { batches = g.below; made = g.made.items } };

    ghost invariant = { λ g. HasPlaces (prims_of g.below) g.first g.made.items };
}

/// Whether places are left behind one for so many primitives. `Memory`: there would be more than
/// 4,294,967,295 primitives, and it comes there alone.
fn has_places(end: Id, more: usize) -> Result<(), Memory>
    ensures room { OnOk result (end + more ≤ 4_294_967_295) }
    ensures limit { OnErr result (4_294_967_295 < end + more) }
{
    if more > (u32::MAX - end.place()) as usize {
        return Err(Memory);
    }
    Ok(())
}

impl<'a> Growing<'a> {
    /// The primitives below the view's dateline, before anything is made.
    pub fn new(alloc: Global, below: View<'a>) -> Growing<'a>
        ensures { result ≡ record { batches = below.entry; made = [] } }
    {
        Growing {
            first: below.end().place(),
            made: Vec::new(alloc),
            below,
        }
    }

    /// Puts a primitive behind the others, or leaves all as it was. `Memory`: an allocation was
    /// refused, or there are 4,294,967,295 primitives, which leaves no place for one more.
    pub fn push(&mut self, prim: Primitive) -> Result<(), Memory>
        ensures ok { OnOk result (so_far self.new ≡ so_far self.old ++ prim ∷ []) }
        ensures below { self.new.batches ≡ self.old.batches }
        ensures err { OnErr result (self.new ≡ self.old) }
    {
        has_places(self.end(), 1)?;
        self.made.push(prim)?;
        Ok(())
    }

    /// Moves these primitives behind the others, or leaves all as it was. `Memory`: an allocation
    /// was refused, or there would be more than 4,294,967,295 primitives.
    pub fn append(&mut self, more: Vec<Primitive>) -> Result<(), Memory>
        ensures ok { OnOk result (so_far self.new ≡ so_far self.old ++ more.items) }
        ensures below { self.new.batches ≡ self.old.batches }
        ensures err { OnErr result (self.new ≡ self.old) }
    {
        has_places(self.end(), more.len())?;
        let mut more = more;
        self.made.append(&mut more)?;
        Ok(())
    }

    /// The place behind all primitives.
    pub fn end(&self) -> Id
        ensures { result ≡ length (so_far self.now) }
    {
        Id(self.first_made() + self.made.len() as u32)
    }

    /// The place of the first primitive that is made: that behind those below the dateline.
    pub fn first_made(&self) -> u32
        ensures first { result ≡ length (prims_of self.now.batches) }
        ensures room { result + length self.now.made ≤ 4_294_967_295 }
    {
        self.first
    }

    /// The view of what lies below the dateline.
    pub(crate) fn below(&self) -> &View<'a>
        ensures { result.now ≡ self.now.batches }
    {
        &self.below
    }

    /// The primitives that the write has made, in order.
    pub fn made(&self) -> &[Primitive]
        ensures { result.now ≡ self.now.made }
    {
        self.made.as_slice()
    }

    /// The same as a vector of its own: what stands behind the primitives below the dateline.
    #[tactic(auto, using(crate::proofs::Behind::rest_behind))]
    pub fn into_made(self) -> Vec<Primitive>
        ensures made { result.items ≡ self.entry.made }
        ensures behind { result.items ≡ drop (length (prims_of self.entry.batches))
            (so_far self.entry) }
    {
        self.made
    }

    /// The primitive at a place, if there is one.
    pub fn primitive(&self, place: Id) -> Option<&Primitive>
        ensures { option_map (λ prim. prim.now) result ≡ slice_get (so_far self.now) place }
    {
        let first = self.first_made();
        if place.place() < first {
            let mut steps: Steps<()> = Steps::new();
            Some(self.below.primitive(place, &mut steps))
        } else {
            self.made.get((place.place() - first) as usize)
        }
    }

    /// The primitive that has this place as `previous`, if there is one.
    #[tactic(auto, using(crate::proofs::Behind::successor_behind))]
    pub fn successor(&self, place: Id) -> Option<Id>
        ensures { result ≡ live.successor (so_far self.now) place }
    {
        let mut steps: Steps<()> = Steps::new();
        match self.below().successor(place, &mut steps) {
            Some(next) => Some(next),
            None => first_previous(self.made(), self.first_made(), place),
        }
    }

    /// Whether no primitive has the place as `previous`.
    #[tactic(auto, using(crate::proofs::Behind::none_succeeds))]
    fn is_current(&self, place: Id) -> bool
        ensures { result ≡ live.is_current (so_far self.now) place }
    {
        self.successor(place).is_none()
    }

    /// Whether the primitive at a place is marked live and none has it as `previous`. A place at
    /// which none stands is not live.
    pub fn is_live(&self, place: Id) -> bool
        ensures { result ≡ live.is_live (so_far self.now) place }
    {
        match self.primitive(place) {
            Some(prim) => prim.live && self.is_current(place),
            None => false,
        }
    }

    /// Whether an object stands at a place: a live primitive without `typ`.
    pub fn is_object(&self, place: Id) -> bool
        ensures { result ≡ live.is_object (so_far self.now) place }
    {
        match self.primitive(place) {
            Some(prim) => prim.live && prim.typ.is_none() && self.is_current(place),
            None => false,
        }
    }
}
