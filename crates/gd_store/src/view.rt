//! Views of a store.
ghost use Rattle.std.specs.Prelude.{◌≡◌, ℕ, ◌+◌, ◌-◌, ◌^◌, ◌<◌, ◌≤◌, None, Some, true, false};
ghost use Rattle.std.specs.Prelude.{length, take, slice_get, min, IfSome, IsTrue};
ghost use Rattle.std.specs.List.{last_or, list_any};
ghost use Rattle.gd_base.specs.Counts.{Rose};
ghost use Rattle.gd_prim.specs.End.{places_with};
ghost use Rattle.gd_prim.specs.History.{prims_of, is_history, AreHeld, AreTimed};
ghost use Rattle.gd_prim.specs.Live as graph;
ghost use Rattle.gd_prim.specs.WellFormed.{may_hold};
ghost use Rattle.gd_postings.specs.Postings.{ids_below, first_from};
ghost use Rattle.gd_store.specs.Keys.{is_key_link, is_key_of};
ghost use Rattle.gd_store.specs.Lefts.{LeftsRise};
ghost use Rattle.gd_store.specs.Valued.{number_in, places_of_number};

use crate::store::Store;
use gd_base::datum::Datum;
use gd_base::id::Id;
use gd_base::steps::Steps;
use gd_base::text::Text;
use gd_prim::{End, Primitive};
use std::marker::Model;

/// A store as it was at a dateline, which is a number of whole requests. Contracts see a view as
/// the list of the batches of these, so its primitives are the built-in ones and theirs.
#[derive(Drop)]
pub struct View<'a> {
    store: &'a Store,
    dateline: u32,
}

impl<'a> Model for View<'a> {
    ghost use Rattle.std.specs.Prelude.{List, take};
    ghost use Rattle.gd_prim.specs.declared.Batch.{Batch};
    ghost use Rattle.gd_store.specs.Viewed.{IsViewed};

    ghost Value = { List Batch };

    ghost view = { λ v. take v.dateline v.store.now };

    ghost invariant = { λ v. IsViewed v.dateline v.store.now };
}

impl<'a> View<'a> {
    /// The store as it was at this dateline.
    pub(crate) fn new(store: &'a Store, dateline: u32) -> View<'a>
        requires there { dateline ≤ length store.now }
        requires history { IsTrue (is_history store.now) }
        ensures { result ≡ take dateline store.now }
    {
        View { store, dateline }
    }

    /// How many requests lie below the view.
    pub fn dateline(&self) -> u32
        ensures dateline { result ≡ length self.now }
        ensures few { result ≤ 4_194_303 }

        // Each batch may follow those before it, within the limits.
        ensures history { IsTrue (is_history self.now) }
    {
        self.dateline
    }

    /// The store as it was at an earlier dateline, or at this one.
    pub fn earlier(&self, dateline: u32) -> View<'a>
        requires { dateline ≤ length self.now }
        ensures { result ≡ take dateline self.now }
    {
        View {
            store: self.store,
            dateline,
        }
    }

    /// The primitives below the dateline, of which there are some. It takes no memory.
    pub fn primitives(&self) -> &'a [Primitive]
        ensures prims { result.now ≡ prims_of self.now }
        ensures few { length result.now ≤ 2_097_151 }
        ensures some { 0 < length result.now }

        // Each may hold its value, and is of a moment of a clock.
        ensures held { AreHeld result.now }
        ensures timed { AreTimed result.now }
    {
        let store = self.store;
        store.below(self.dateline)
    }

    /// The first place above the dateline.
    pub fn end(&self) -> Id
        ensures end { result ≡ length (prims_of self.now) }
        ensures few { result ≤ 2_097_151 }

        // Each primitive below it may hold its value, and is of a moment of a clock.
        ensures held { AreHeld (prims_of self.now) }
        ensures timed { AreTimed (prims_of self.now) }
    {
        Id(self.primitives().len() as u32)
    }

    /// The primitive at a place. It takes no memory.
    pub fn primitive<L>(&self, id: Id, steps: &mut Steps<L>) -> &'a Primitive
        requires { id < length (prims_of self.now) }
        ensures primitive { slice_get (prims_of self.now) id ≡ Some result.now }
        ensures held { IsTrue (may_hold result.now.value) }
        ensures timed { result.now.moment ≤ 253_402_300_799_999 }
        ensures work { steps.new ≤ steps.old + 1 }
        ensures later { steps.old ≤ steps.new }
        ensures counted { steps.new ≡ min (steps.old + 1) (2 ^ 64 - 1) }
    {
        steps.tick();
        &self.primitives()[id.place() as usize]
    }

    /// Whether the primitive at a place is marked live and no primitive below the dateline has it
    /// as `previous`. A place above the dateline is not live. It takes no memory.
    pub fn is_live<L>(&self, id: Id, steps: &mut Steps<L>) -> bool
        ensures live { result ≡ graph.is_live (prims_of self.now) id }
        ensures work { steps.new ≤ steps.old + 2 }
        ensures later { steps.old ≤ steps.new }
        ensures counted { Rose steps.old steps.new }
    {
        let store = self.store;
        store.is_live(self.dateline, id, steps)
    }

    /// The primitive below the dateline that has this place as `previous`, if there is one. It
    /// takes no memory.
    pub fn successor<L>(&self, id: Id, steps: &mut Steps<L>) -> Option<Id>
        ensures successor { result ≡ graph.successor (prims_of self.now) id }
        ensures below { IfSome result (λ next. next < length (prims_of self.now)) }
        ensures work { steps.new ≤ steps.old + 1 }
        ensures later { steps.old ≤ steps.new }
        ensures counted { Rose steps.old steps.new }
    {
        let store = self.store;
        store.successor(self.dateline, id, steps)
    }

    /// The last place below the dateline whose primitive is a link of this key into this namespace,
    /// if there is one. The link may be dead: whether it is live is the caller's to ask. It takes
    /// no memory.
    pub fn by_key<L>(&self, namespace: Id, key: &Text, steps: &mut Steps<L>) -> Option<Id>
        ensures last { result ≡ last_or None
            (graph.places_where (is_key_link namespace key.now) (prims_of self.now)) }
        ensures below { IfSome result (λ link. link < length (prims_of self.now)) }
        ensures work { steps.new ≤ steps.old + 24 }
        ensures later { steps.old ≤ steps.new }
        ensures counted { Rose steps.old steps.new }
    {
        let store = self.store;
        store.last_key_link(self.dateline, namespace, key, steps)
    }

    /// The k-th place below the dateline, from 0 in rising order, whose primitive is a key link of
    /// this object, if there is one. The link may be dead. It takes no memory.
    pub fn key_at<L>(&self, object: Id, k: u32, steps: &mut Steps<L>) -> Option<Id>
        ensures place { result ≡ slice_get
            (graph.places_where (is_key_of object) (prims_of self.now)) k }
        ensures below { IfSome result (λ link. link < length (prims_of self.now)) }
        ensures work { steps.new ≤ steps.old + 3 }
        ensures later { steps.old ≤ steps.new }
        ensures counted { Rose steps.old steps.new }
    {
        let store = self.store;
        store.key_of(self.dateline, object, k, steps)
    }

    /// How many primitives have this node at the end. It takes no memory.
    pub fn list_len<L>(&self, end: End, node: Id, steps: &mut Steps<L>) -> u32
        ensures len { result ≡ length (places_with end node (prims_of self.now)) }
        ensures few { steps.new ≤ steps.old + 22 }
        ensures work { steps.new ≤ steps.old + length (prims_of self.now) }
        ensures later { steps.old ≤ steps.new }
        ensures counted { Rose steps.old steps.new }
    {
        let store = self.store;
        store.link_count(self.dateline, end, node, steps)
    }

    /// The k-th place, from 0 in rising order, whose primitive has this node at the end. It takes
    /// no memory.
    pub fn list_at<L>(&self, end: End, node: Id, k: u32, steps: &mut Steps<L>) -> Id
        requires { k < length (places_with end node (prims_of self.now)) }
        ensures place { slice_get (places_with end node (prims_of self.now)) k ≡ Some result }
        ensures below { result < length (prims_of self.now) }
        ensures one { steps.new ≡ min (steps.old + 1) (2 ^ 64 - 1) }
        ensures work { steps.new ≤ steps.old + length (prims_of self.now) }
        ensures later { steps.old ≤ steps.new }
        ensures counted { Rose steps.old steps.new }
    {
        let store = self.store;
        store.link_at(self.dateline, end, node, k, steps)
    }

    /// The places whose primitive has this node at the end, in rising order. They are found in at
    /// most 22 steps, and to go over them takes none. It takes no memory.
    pub fn links<L>(&self, end: End, node: Id, steps: &mut Steps<L>) -> &'a [Id]
        ensures places { result.now ≡ places_with end node (prims_of self.now) }
        ensures below { (k place : ℕ) → slice_get result.now k ≡ Some place
            → place < length (prims_of self.now) }
        ensures work { steps.new ≤ steps.old + 22 }
        ensures later { steps.old ≤ steps.new }
        ensures counted { Rose steps.old steps.new }
    {
        let store = self.store;
        store.links(self.dateline, end, node, steps)
    }

    /// A number such that no node is at this end of more primitives: those that came after the view
    /// are counted too, so two views of equal batches may give different numbers. It takes no steps
    /// and no memory.
    pub fn most(&self, end: End) -> u32
        ensures { (node : ℕ) → length (places_with end node (prims_of self.now)) ≤ result }
    {
        let store = self.store;
        store.most(end)
    }

    /// Whether it is known that the left ends of the primitives with this node at the end rise, as
    /// they do where links are written for one object after the other. False says nothing: those
    /// that came after the view are seen too, and those that were taken away again. It takes no
    /// steps and no memory.
    pub fn lefts_rise(&self, end: End, node: Id) -> bool
        ensures { result ≡ true
            → LeftsRise (prims_of self.now) (places_with end node (prims_of self.now)) }
    {
        let store = self.store;
        store.lefts_rise(end, node)
    }

    /// Whether it is known that the left ends of the primitives that have the value with this number
    /// rise. False says nothing, as above. It takes no steps and no memory.
    pub fn value_lefts_rise(&self, number: u32) -> bool
        ensures { result ≡ true
            → LeftsRise (prims_of self.now) (places_of_number number (prims_of self.now)) }
    {
        let store = self.store;
        store.value_lefts_rise(number)
    }

    /// How many of the places whose primitive has this node at the end are less than `from`: so
    /// this is the index among them of the first that is `from` or greater. It takes no memory.
    pub fn list_from<L>(&self, end: End, node: Id, from: Id, steps: &mut Steps<L>) -> u32
        ensures index { result ≡ length (ids_below from
            (places_with end node (prims_of self.now))) }
        ensures work { steps.new ≤ steps.old + 22 }
        ensures later { steps.old ≤ steps.new }
        ensures counted { Rose steps.old steps.new }
    {
        let store = self.store;
        store.links_before(self.dateline, end, node, from, steps)
    }

    /// The first place that is `from` or greater whose primitive has this node at the end, if there
    /// is one. Who asks for one after another keeps `at`, 0 at first, by which the next one is found
    /// in a few steps; it says nothing. It takes no memory.
    pub fn first_link<L>(
        &self,
        end: End,
        node: Id,
        from: Id,
        at: &mut u32,
        steps: &mut Steps<L>,
    ) -> Option<Id>
        ensures first { result ≡ first_from from (places_with end node (prims_of self.now)) }
        ensures below { IfSome result (λ place. place < length (prims_of self.now)) }
        ensures work { steps.new ≤ steps.old + 24 }
        ensures later { steps.old ≤ steps.new }
        ensures counted { Rose steps.old steps.new }
    {
        let store = self.store;
        store.first_link(self.dateline, end, node, from, at, steps)
    }

    /// Whether a primitive below the dateline may have this text as its value. False: none has it,
    /// since no text is so long. It takes no steps and no memory.
    pub fn may_have_text(&self, text: &str) -> bool
        ensures none { result ≡ false → list_any (λ p. graph.is_text text.now p.value)
            (prims_of self.now) ≡ false }
        ensures short { result ≡ true → length text.now ≤ 4_096 }
    {
        let store = self.store;
        store.may_have_text(text)
    }

    /// The number of a value that a primitive below the dateline has: values are numbered from 0 in
    /// the order in which they first come. None where no primitive has it. It takes no memory.
    pub fn number_of<L>(&self, value: &Datum, steps: &mut Steps<L>) -> Option<u32>
        ensures number { result ≡ number_in value.now (prims_of self.now) }
        ensures work { steps.new ≤ steps.old + 2 }
        ensures later { steps.old ≤ steps.new }
        ensures counted { Rose steps.old steps.new }
    {
        let store = self.store;
        store.number_of(self.dateline, value, steps)
    }

    /// How many primitives below the dateline have the value with this number: none where the
    /// number was not given. It takes no memory.
    pub fn value_len<L>(&self, number: u32, steps: &mut Steps<L>) -> u32
        ensures len { result ≡ length (places_of_number number (prims_of self.now)) }
        ensures work { steps.new ≤ steps.old + 22 }
        ensures later { steps.old ≤ steps.new }
        ensures counted { Rose steps.old steps.new }
    {
        let store = self.store;
        store.value_count(self.dateline, number, steps)
    }

    /// The k-th place, from 0 in rising order, whose primitive has the value with this number. It
    /// takes no memory.
    pub fn value_entry<L>(&self, number: u32, k: u32, steps: &mut Steps<L>) -> Id
        requires { k < length (places_of_number number (prims_of self.now)) }
        ensures place { slice_get (places_of_number number (prims_of self.now)) k ≡ Some result }
        ensures below { result < length (prims_of self.now) }
        ensures work { steps.new ≡ min (steps.old + 1) (2 ^ 64 - 1) }
        ensures later { steps.old ≤ steps.new }
    {
        let store = self.store;
        store.value_place(self.dateline, number, k, steps)
    }

    /// The places whose primitive has the value with this number, in rising order: none where the
    /// number was not given. They are found in at most 22 steps, and to go over them takes none. It
    /// takes no memory.
    pub fn value_places<L>(&self, number: u32, steps: &mut Steps<L>) -> &'a [Id]
        ensures places { result.now ≡ places_of_number number (prims_of self.now) }
        ensures below { (k place : ℕ) → slice_get result.now k ≡ Some place
            → place < length (prims_of self.now) }
        ensures work { steps.new ≤ steps.old + 22 }
        ensures later { steps.old ≤ steps.new }
        ensures counted { Rose steps.old steps.new }
    {
        let store = self.store;
        store.value_places(self.dateline, number, steps)
    }

    /// How many of the places whose primitive has the value with this number are less than `from`:
    /// so this is the index among them of the first that is `from` or greater. It takes no memory.
    pub fn value_from<L>(&self, number: u32, from: Id, steps: &mut Steps<L>) -> u32
        ensures index { result ≡ length (ids_below from
            (places_of_number number (prims_of self.now))) }
        ensures work { steps.new ≤ steps.old + 22 }
        ensures later { steps.old ≤ steps.new }
        ensures counted { Rose steps.old steps.new }
    {
        let store = self.store;
        store.values_before(self.dateline, number, from, steps)
    }

    /// The first place that is `from` or greater whose primitive has the value with this number, if
    /// there is one, with `at` as for `first_link`. It takes no memory.
    pub fn first_of_value<L>(
        &self,
        number: u32,
        from: Id,
        at: &mut u32,
        steps: &mut Steps<L>,
    ) -> Option<Id>
        ensures first { result ≡ first_from from (places_of_number number (prims_of self.now)) }
        ensures below { IfSome result (λ place. place < length (prims_of self.now)) }
        ensures work { steps.new ≤ steps.old + 24 }
        ensures later { steps.old ≤ steps.new }
        ensures counted { Rose steps.old steps.new }
    {
        let store = self.store;
        store.first_of_value(self.dateline, number, from, at, steps)
    }
}
