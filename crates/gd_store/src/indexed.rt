//! A list of primitives with its indexes.
ghost use Rattle.std.specs.Prelude.{◌≡◌, ℕ, ◌+◌, ◌-◌, ◌^◌, ◌<◌, ◌≤◌, [], ◌++◌, None, Some, true};
ghost use Rattle.std.specs.Prelude.{false, length, take, slice_get, min, nat_le, IsTrue, IfOk};
ghost use Rattle.std.specs.Prelude.{OnOk, OnErr, IfSome};
ghost use Rattle.std.specs.List.{last_or, list_any};
ghost use Rattle.gd_base.specs.Counts.{Rose};
ghost use Rattle.gd_prim.specs.End.{places_with};
ghost use Rattle.gd_prim.specs.Live as graph;
ghost use Rattle.gd_postings.specs.Postings.{ids_below, first_from};
ghost use Rattle.gd_store.specs.Indexed.{may_enter};
ghost use Rattle.gd_store.specs.Keys.{is_key_link, is_key_of};
ghost use Rattle.gd_store.specs.Lefts.{LeftsRise};
ghost use Rattle.gd_store.specs.Short.{is_short, are_short};
ghost use Rattle.gd_store.specs.Valued.{AreValues, number_in, places_of_number};

use crate::indexes::Indexes;
use gd_base::datum::Datum;
use gd_base::id::Id;
use gd_base::memory::Memory;
use gd_base::steps::Steps;
use gd_base::text::{TEXT_LIMIT, Text};
use gd_prim::well_formed::Prior;
use gd_prim::{End, Primitive, Prims};
use gd_valueidx::values::Values;
use std::alloc::Global;
use std::marker::Model;

/// Primitives in order, and indexes of them. Contracts see the list of the primitives. The previous
/// one of each is current among those before it.
#[derive(Drop)]
pub(crate) struct IndexedPrims {
    prims: Prims,
    indexes: Indexes,
}

impl Model for IndexedPrims {
    ghost use Rattle.std.specs.Prelude.{List};
    ghost use Rattle.gd_prim.specs.declared.Primitive.{Primitive};
    ghost use Rattle.gd_store.specs.Indexed.{IsIndexed};

    ghost Value = { List Primitive };

    ghost view = { λ indexed. indexed.prims };

    ghost invariant = { λ indexed. IsIndexed indexed.indexes indexed.prims };
}

/// Whether a text is as short as each that is stored.
fn fits_text(text: &str) -> bool
    ensures same { result ≡ nat_le (length text.now) 4_096 }
    ensures short { result ≡ true → length text.now ≤ 4_096 }
{
    text.len() <= TEXT_LIMIT
}

/// Sees that a value that is a text is short, as each text is.
fn see_short(value: &Datum)
    ensures { IsTrue (is_short value.now) }
{
    if let Datum::Text(text) = value {
        let _bytes = text.as_bytes();
    }
}

/// Sees the same of each of these primitives: contracts see a text as a list, of which they don't
/// know how long it is.
#[tactic(auto, using(crate::proofs::Short::short_left))]
fn see_all_short(prims: &[Primitive])
    ensures { IsTrue (are_short prims.now) }
{
    for prim in prims {
        see_short(&prim.value);
    }
}

impl IndexedPrims {
    /// The list of these primitives.
    pub(crate) fn new(alloc: Global, prims: Prims) -> Result<IndexedPrims, Memory>
        requires few { length prims ≤ 2_097_151 }
        requires entered { IsTrue (may_enter [] prims) }
        ensures { IfOk result (λ made. made ≡ prims) }
    {
        see_all_short(prims.as_slice());
        let mut indexes = Indexes::new(alloc);
        indexes.enter_all(prims.as_slice(), 0)?;
        Ok(IndexedPrims { prims, indexes })
    }

    pub(crate) fn as_slice(&self) -> &[Primitive]
        ensures { result.now ≡ self.now }
    {
        self.prims.as_slice()
    }

    pub(crate) fn len(&self) -> usize
        ensures { result ≡ length self.now }
    {
        self.prims.len()
    }

    /// Moves these primitives to the end, or for want of memory leaves the list as it was.
    pub(crate) fn append(&mut self, more: Prims) -> Result<(), Memory>
        requires few { length self.old + length more ≤ 2_097_151 }
        requires entered { IsTrue (may_enter self.old more) }
        ensures ok { OnOk result (self.new ≡ self.old ++ more) }
        ensures err { OnErr result (self.new ≡ self.old) }
    {
        let texts = more.as_slice();
        see_all_short(texts);
        let start = self.prims.len();
        self.prims.append(more)?;
        if let Err(fault) = self.indexes.enter_all(self.prims.as_slice(), start) {
            self.prims.truncate(start);
            return Err(fault);
        }
        Ok(())
    }

    /// Keeps the first `len` primitives. It takes no memory.
    pub(crate) fn truncate(&mut self, len: usize)
        requires { len ≤ length self.old }
        ensures { self.new ≡ take len self.old }
    {
        let end = self.prims.len();
        self.indexes.take_out_all(self.prims.as_slice(), len, end);
        self.prims.truncate(len);
    }

    /// The same primitives again, with their indexes as they stand.
    pub(crate) fn copy(&self, alloc: Global) -> Result<IndexedPrims, Memory>
        ensures { IfOk result (λ made. made ≡ self.now) }
    {
        Ok(IndexedPrims {
            prims: self.prims.copy()?,
            indexes: self.indexes.copy(alloc)?,
        })
    }

    /// The primitive below `end` that has this place as `previous`, if there is one.
    pub(crate) fn successor<L>(&self, id: Id, end: u32, steps: &mut Steps<L>) -> Option<Id>
        ensures successor { result ≡ graph.successor (take end self.now) id }
        ensures work { steps.new ≤ steps.old + 1 }
        ensures later { steps.old ≤ steps.new }
        ensures counted { Rose steps.old steps.new }
    {
        self.indexes.successor(id, Id(end), steps)
    }

    /// Whether some primitive below `end` has this place as `previous`.
    fn has_successor<L>(&self, id: Id, end: u32, steps: &mut Steps<L>) -> bool
        ensures found { result ≡ graph.has_successor (take end self.now) id }
        ensures work { steps.new ≤ steps.old + 1 }
        ensures later { steps.old ≤ steps.new }
    {
        self.successor(id, end, steps).is_some()
    }

    /// The first `end` primitives.
    fn below(&self, end: u32) -> &[Primitive]
        requires { end ≤ length self.now }
        ensures { result.now ≡ take end self.now }
    {
        &self.as_slice()[..end as usize]
    }

    /// Whether the primitive at a place below `end` is marked live and none below `end` has it as
    /// `previous`. A place from `end` on is not live.
    pub(crate) fn is_live<L>(&self, id: Id, end: u32, steps: &mut Steps<L>) -> bool
        requires { end ≤ length self.now }
        ensures live { result ≡ graph.is_live (take end self.now) id }
        ensures work { steps.new ≤ steps.old + 2 }
        ensures later { steps.old ≤ steps.new }
        ensures counted { Rose steps.old steps.new }
    {
        steps.tick();
        match self.below(end).get(id.place() as usize) {
            Some(prim) => prim.live && !self.has_successor(id, end, steps),
            None => false,
        }
    }

    /// The last place below `end` whose primitive is a link of this key into this namespace, if
    /// there is one.
    pub(crate) fn last_key_link<L>(
        &self,
        namespace: Id,
        key: &Text,
        end: u32,
        steps: &mut Steps<L>,
    ) -> Option<Id>
        ensures last { result ≡ last_or None
            (graph.places_where (is_key_link namespace key.now) (take end self.now)) }
        ensures work { steps.new ≤ steps.old + 24 }
        ensures later { steps.old ≤ steps.new }
        ensures counted { Rose steps.old steps.new }
    {
        steps.tick();
        self.indexes.last_key_link(namespace, key, Id(end), steps)
    }

    /// The k-th place below `end`, from 0 in rising order, whose primitive is a key link of this
    /// object, if there is one.
    pub(crate) fn key_of<L>(&self, object: Id, k: u32, end: u32, steps: &mut Steps<L>) -> Option<Id>
        ensures place { result ≡ slice_get
            (graph.places_where (is_key_of object) (take end self.now)) k }
        ensures work { steps.new ≤ steps.old + 2 }
        ensures later { steps.old ≤ steps.new }
        ensures counted { Rose steps.old steps.new }
    {
        steps.tick();
        self.indexes.key_of(object, k, Id(end), steps)
    }

    /// How many primitives below `below` have this node at the end.
    pub(crate) fn link_count<L>(&self, end: End, node: Id, below: u32, steps: &mut Steps<L>) -> u32
        ensures count { result ≡ length (places_with end node (take below self.now)) }
        ensures work { steps.new ≤ steps.old + 22 }
        ensures later { steps.old ≤ steps.new }
        ensures counted { Rose steps.old steps.new }
    {
        self.indexes.link_count(end, node, Id(below), steps)
    }

    /// A number such that no node is at this end of more primitives.
    pub(crate) fn most(&self, end: End) -> u32
        ensures { (node : ℕ) → length (places_with end node self.now) ≤ result }
    {
        self.indexes.most(end)
    }

    /// Whether it is known that the left ends of the primitives with this node at the end rise, below
    /// each place. False says nothing.
    pub(crate) fn lefts_rise(&self, end: End, node: Id) -> bool
        ensures { result ≡ true → (n : ℕ)
            → LeftsRise (take n self.now) (places_with end node (take n self.now)) }
    {
        self.indexes.lefts_rise(end, node)
    }

    /// Whether it is known that the left ends of the primitives that have the value with this number
    /// rise, below each place. False says nothing.
    pub(crate) fn value_lefts_rise(&self, number: u32) -> bool
        ensures { result ≡ true → (n : ℕ)
            → LeftsRise (take n self.now) (places_of_number number (take n self.now)) }
    {
        self.indexes.value_lefts_rise(number)
    }

    /// The places below `below` whose primitive has this node at the end, in rising order.
    pub(crate) fn links<L>(&self, end: End, node: Id, below: u32, steps: &mut Steps<L>) -> &[Id]
        ensures places { result.now ≡ places_with end node (take below self.now) }
        ensures work { steps.new ≤ steps.old + 22 }
        ensures later { steps.old ≤ steps.new }
        ensures counted { Rose steps.old steps.new }
    {
        self.indexes.links(end, node, Id(below), steps)
    }

    /// How many of these places are below `from`.
    pub(crate) fn links_before<L>(
        &self,
        end: End,
        node: Id,
        from: Id,
        below: u32,
        steps: &mut Steps<L>,
    ) -> u32
        ensures count { result ≡ length (ids_below from
            (places_with end node (take below self.now))) }
        ensures work { steps.new ≤ steps.old + 22 }
        ensures later { steps.old ≤ steps.new }
        ensures counted { Rose steps.old steps.new }
    {
        self.indexes.links_before(end, node, from, Id(below), steps)
    }

    /// The first of these places that is `from` or greater, if there is one.
    pub(crate) fn first_link<L>(
        &self,
        end: End,
        node: Id,
        from: Id,
        below: u32,
        at: &mut u32,
        steps: &mut Steps<L>,
    ) -> Option<Id>
        ensures first { result ≡ first_from from (places_with end node (take below self.now)) }
        ensures below { IfSome result (λ place. place < below) }
        ensures work { steps.new ≤ steps.old + 24 }
        ensures later { steps.old ≤ steps.new }
        ensures counted { Rose steps.old steps.new }
    {
        self.indexes
            .first_link(end, node, from, Id(below), at, steps)
    }

    /// The k-th place, from 0 in rising order, whose primitive has this node at the end.
    pub(crate) fn link_at<L>(&self, end: End, node: Id, k: u32, steps: &mut Steps<L>) -> Id
        requires { k < length (places_with end node self.now) }
        ensures place { slice_get (places_with end node self.now) k ≡ Some result }
        ensures work { steps.new ≡ min (steps.old + 1) (2 ^ 64 - 1) }
        ensures later { steps.old ≤ steps.new }
    {
        self.indexes.link_at(end, node, k, steps)
    }

    /// Whether a primitive may have this text as its value. False: none has it, since no text is so
    /// long.
    pub(crate) fn may_have_text(&self, text: &str) -> bool
        ensures none { result ≡ false → list_any (λ p. graph.is_text text.now p.value) self.now
            ≡ false }
        ensures short { result ≡ true → length text.now ≤ 4_096 }
    {
        let _list = &self.prims;
        fits_text(text)
    }

    /// The values of the primitives by number, and the places of each.
    pub(crate) fn values(&self) -> &Values
        ensures { AreValues result.now self.now }
    {
        self.indexes.values()
    }

    /// The number of a value among those of the primitives below `end`, if it is one.
    pub(crate) fn number_of<L>(
        &self,
        value: &Datum,
        end: u32,
        steps: &mut Steps<L>,
    ) -> Option<usize>
        ensures number { result ≡ number_in value.now (take end self.now) }
        ensures work { steps.new ≤ steps.old + 2 }
        ensures later { steps.old ≤ steps.new }
        ensures counted { Rose steps.old steps.new }
    {
        steps.tick();
        self.indexes.number_of(value, Id(end), steps)
    }

    /// How many primitives below `end` have the value with a number.
    pub(crate) fn value_count<L>(&self, number: u32, end: u32, steps: &mut Steps<L>) -> u32
        ensures count { result ≡ length (places_of_number number (take end self.now)) }
        ensures work { steps.new ≤ steps.old + 22 }
        ensures later { steps.old ≤ steps.new }
        ensures counted { Rose steps.old steps.new }
    {
        self.indexes.value_count(number, Id(end), steps)
    }

    /// The places below `end` whose primitive has the value with a number, in rising order.
    pub(crate) fn value_places<L>(&self, number: u32, end: u32, steps: &mut Steps<L>) -> &[Id]
        ensures places { result.now ≡ places_of_number number (take end self.now) }
        ensures work { steps.new ≤ steps.old + 22 }
        ensures later { steps.old ≤ steps.new }
        ensures counted { Rose steps.old steps.new }
    {
        self.indexes.value_places(number, Id(end), steps)
    }

    /// How many of these places are below `from`.
    pub(crate) fn values_before<L>(
        &self,
        number: u32,
        from: Id,
        end: u32,
        steps: &mut Steps<L>,
    ) -> u32
        ensures count { result ≡ length (ids_below from
            (places_of_number number (take end self.now))) }
        ensures work { steps.new ≤ steps.old + 22 }
        ensures later { steps.old ≤ steps.new }
        ensures counted { Rose steps.old steps.new }
    {
        self.indexes.values_before(number, from, Id(end), steps)
    }

    /// The first of these places that is `from` or greater, if there is one.
    pub(crate) fn first_of_value<L>(
        &self,
        number: u32,
        from: Id,
        end: u32,
        at: &mut u32,
        steps: &mut Steps<L>,
    ) -> Option<Id>
        ensures first { result ≡ first_from from (places_of_number number (take end self.now)) }
        ensures below { IfSome result (λ place. place < end) }
        ensures work { steps.new ≤ steps.old + 24 }
        ensures later { steps.old ≤ steps.new }
        ensures counted { Rose steps.old steps.new }
    {
        self.indexes
            .first_of_value(number, from, Id(end), at, steps)
    }

    /// The k-th place, from 0 in rising order, whose primitive has the value with a number.
    pub(crate) fn value_place<L>(&self, number: u32, k: u32, steps: &mut Steps<L>) -> Id
        requires { k < length (places_of_number number self.now) }
        ensures place { slice_get (places_of_number number self.now) k ≡ Some result }
        ensures work { steps.new ≡ min (steps.old + 1) (2 ^ 64 - 1) }
        ensures later { steps.old ≤ steps.new }
    {
        self.indexes.value_place(number, k, steps)
    }
}

/// What succeeds a place is looked up.
impl Prior for IndexedPrims {
    ghost prims = { λ list. list };

    fn count(&self) -> usize {
        self.len()
    }

    fn is_succeeded(&self, place: Id) -> bool {
        self.indexes.is_succeeded(place)
    }
}
