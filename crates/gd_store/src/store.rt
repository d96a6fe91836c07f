//! The store.
ghost use Rattle.std.specs.Prelude.{◌≡◌, ℕ, ◌^◌, ◌+◌, ◌-◌, ◌<◌, ◌≤◌, [], ◌∷◌, ◌++◌, None, Some};
ghost use Rattle.std.specs.Prelude.{true, false, length, take, drop, slice_get, min, option_map};
ghost use Rattle.std.specs.Prelude.{sum_by, nat_lt, if◌then◌else◌, Ok, Err, IsTrue, IfOk, IfErr};
ghost use Rattle.std.specs.Prelude.{OnOk, OnErr, MatchResult, IfSome};
ghost use Rattle.std.specs.List.{last_or, list_any};
ghost use Rattle.gd_base.specs.Counts.{Rose};
ghost use Rattle.gd_prim.specs.End.{places_with};
ghost use Rattle.gd_prim.specs.History.{prims_of, prims_at, is_history, AreHeld, AreTimed};
ghost use Rattle.gd_prim.specs.Live as graph;
ghost use Rattle.gd_prim.specs.WellFormed.{bad_place};
ghost use Rattle.gd_prim.specs.Limits.{limits, first_full, text_bytes};
ghost use Rattle.gd_postings.specs.Postings.{ids_below, first_from};
ghost use Rattle.gd_store.specs.Indexed.{may_enter};
ghost use Rattle.gd_store.specs.Keys.{is_key_link, is_key_of};
ghost use Rattle.gd_store.specs.Lefts.{LeftsRise};
ghost use Rattle.gd_store.specs.Stored as stored;
ghost use Rattle.gd_store.specs.Valued.{AreValues, number_in, places_of_number};

use crate::indexed::IndexedPrims;
use crate::view::View;
use gd_base::datum::Datum;
use gd_base::id::Id;
use gd_base::memory::Memory;
use gd_base::steps::Steps;
use gd_base::text::Text;
use gd_prim::builtin::builtin;
use gd_prim::limits::{MAX_BATCH, MAX_PRIMS, MAX_REQUESTS, MAX_TEXT, batch_text_bytes};
use gd_prim::well_formed::{BadBatch, is_well_formed_behind};
use gd_prim::{Batch, End, Primitive, Prims, What};
use gd_valueidx::values::Values;
use std::alloc::Global;
use std::marker::Model;
use thiserror::Error;

/// How many primitives are built in.
const BUILTIN_END: u32 = 70;

/// A limit that a batch would pass, and the number that would be reached.
#[derive(Clone, Copy, Debug, PartialEq, Eq, Error)]
#[error("the limit of {what:?} does not allow {count}")]
pub struct Full {
    pub what: What,
    pub count: u64,
}

/// The first place behind a request's primitives, and its moment.
#[derive(Clone, Copy)]
pub(crate) struct Request {
    end: u32,
    moment: u64,
}

/// The built-in primitives and those of each request, in one list. Contracts see a store as the
/// list of its batches.
#[derive(Drop)]
pub struct Store {
    prims: IndexedPrims,
    requests: Vec<Request>,
    text: u64,
}

impl Model for Store {
    ghost use Rattle.std.specs.Prelude.{List};
    ghost use Rattle.gd_prim.specs.declared.Batch.{Batch};
    ghost use Rattle.gd_store.specs.Stored.{batches, IsStored};

    ghost Value = { List Batch };

    ghost view = { λ s. batches s.prims s.requests.items };

    ghost invariant = { λ s. IsStored s.prims s.requests.items s.text };
}

/// Refuses a count above its limit.
fn within(what: What, count: u64, limit: u64) -> Result<(), Full>
    ensures { result ≡ (if nat_lt limit count then Err (record { what = what; count = count })
        else Ok tt) }
{
    if count > limit {
        return Err(Full { what, count });
    }
    Ok(())
}

/// Whether a batch passes no limit behind these primitives, with so many bytes of texts, and so
/// many requests.
fn fits_behind(
    prims: &[Primitive],
    text: u64,
    requests: u32,
    batch: &[Primitive],
) -> Result<(), Full>
    requires prims { length prims.now ≤ 2_097_151 }
    requires text { text ≡ sum_by text_bytes prims.now }
    requires little { text ≤ 134_217_728 }
    requires requests { requests ≤ 4_194_303 }
    ensures full { MatchResult result (λ _. first_full (limits prims.now requests batch.now) ≡ None)
        (λ full. first_full (limits prims.now requests batch.now) ≡ Some (full.what, full.count)) }
    ensures small { IfErr result (λ full. full.count < 2 ^ 63) }
{
    within(What::Batch, batch.len() as u64, MAX_BATCH as u64)?;
    let count = prims.len() + batch.len();
    within(What::Primitives, count as u64, MAX_PRIMS as u64)?;
    within(What::Text, text + batch_text_bytes(batch), MAX_TEXT)?;
    within(What::Requests, u64::from(requests) + 1, MAX_REQUESTS as u64)?;
    Ok(())
}

/// Where the first `n` requests end.
fn end_after(requests: &[Request], n: usize) -> usize
    requires { n ≤ length requests.now }
    ensures { result ≡ stored.end_after 70 requests.now n }
{
    if n == 0 {
        BUILTIN_END as usize
    } else {
        requests[n - 1].end as usize
    }
}

/// The primitives from a place on.
fn from_place(prims: &[Primitive], place: usize) -> &[Primitive]
    requires { place ≤ length prims.now }
    ensures { result.now ≡ drop place prims.now }
{
    &prims[place..]
}

/// Puts a request and its primitives at the ends, or for want of memory leaves both lists as they
/// were.
fn append(
    prims: &mut IndexedPrims,
    requests: &mut Vec<Request>,
    more: Prims,
    request: Request,
) -> Result<(), Memory>
    requires few { length prims.old + length more ≤ 2_097_151 }
    requires entered { IsTrue (may_enter prims.old more) }
    ensures prims { MatchResult result (λ _. prims.new ≡ prims.old ++ more)
        (λ _. prims.new ≡ prims.old) }
    ensures requests { MatchResult result
        (λ _. requests.new.items ≡ requests.old.items ++ request ∷ [])
        (λ _. requests.new.items ≡ requests.old.items) }
{
    requests.push(request)?;
    if let Err(fault) = prims.append(more) {
        let _request = requests.pop();
        return Err(fault);
    }
    Ok(())
}

impl Store {
    /// The store of the built-in primitives, without a request.
    pub fn new(alloc: Global) -> Result<Store, Memory>
        ensures { IfOk result (λ store. store ≡ []) }
    {
        let prims = Prims::from(builtin(alloc)?);
        let text = batch_text_bytes(prims.as_slice());
        Ok(Store {
            prims: IndexedPrims::new(alloc, prims)?,
            requests: Vec::new(alloc),
            text,
        })
    }

    /// How many requests were stored.
    #[tactic(auto, using(crate::proofs::Stored::count_of_batches, crate::proofs::Stored::history_of_batches))]
    pub fn requests(&self) -> u32
        ensures count { result ≡ length self.now }
        ensures few { result ≤ 4_194_303 }

        // Each batch may follow those before it, within the limits.
        ensures history { IsTrue (is_history self.now) }
    {
        self.requests.len() as u32
    }

    /// All primitives: the built-in ones and then those of each request.
    #[tactic(auto, using(crate::proofs::Stored::all_of_batches, crate::proofs::Stored::history_of_batches))]
    pub fn primitives(&self) -> &[Primitive]
        ensures all { result.now ≡ prims_of self.now }
        ensures few { length result.now ≤ 2_097_151 }

        // Each batch may follow those before it, within the limits.
        ensures history { IsTrue (is_history self.now) }

        // Each primitive may hold its value, and is of a moment of a clock.
        ensures held { AreHeld (prims_of self.now) }
        ensures timed { AreTimed (prims_of self.now) }
    {
        self.prims.as_slice()
    }

    /// The values of all primitives by number, and the places of each.
    #[tactic(auto, using(crate::proofs::Stored::all_of_batches))]
    pub fn values(&self) -> &Values
        ensures { AreValues result.now (prims_of self.now) }
    {
        self.prims.values()
    }

    /// How many bytes all values and names have that are texts.
    #[tactic(auto, using(crate::proofs::Stored::all_of_batches))]
    fn text(&self) -> u64
        ensures bytes { result ≡ sum_by text_bytes (prims_of self.now) }
        ensures few { result ≤ 134_217_728 }
    {
        self.text
    }

    /// Whether the batch may follow what is stored, as `is_well_formed` says of the list of all
    /// primitives. What succeeds a place is looked up, not searched for. It takes no memory.
    pub fn check(&self, batch: &Batch) -> Result<(), BadBatch>
        ensures { MatchResult result (λ _. bad_place (prims_of self.now) batch.now ≡ None)
            (λ bad. bad_place (prims_of self.now) batch.now ≡ Some bad.place) }
    {
        is_well_formed_behind(&self.prims, batch)
    }

    /// Whether no limit is passed with the batch. `Full`: one is, with the number that would be
    /// reached. The limits are tested in the order primitives of the batch, all primitives, bytes
    /// of texts, requests. It takes no memory.
    pub fn fits(&self, batch: &Batch) -> Result<(), Full>
        ensures full { MatchResult result
            (λ _. first_full (limits (prims_of self.now) (length self.now) batch.now.prims) ≡ None)
            (λ full. first_full (limits (prims_of self.now) (length self.now) batch.now.prims)
            ≡ Some (full.what, full.count)) }
        ensures small { IfErr result (λ full. full.count < 2 ^ 63) }
    {
        fits_behind(
            self.primitives(),
            self.text(),
            self.requests(),
            batch.prims.as_slice(),
        )
    }

    /// Stores the batch as one request more, or for want of memory leaves all as it was. `check`
    /// and `fits` accept it.
    pub fn absorb(&mut self, batch: &Batch) -> Result<(), Memory>
        requires well_formed { bad_place (prims_of self.old) batch.now ≡ None }
        requires fits { first_full (limits (prims_of self.old) (length self.old) batch.now.prims)
            ≡ None }
        ensures ok { OnOk result (self.new ≡ self.old ++ batch.now ∷ []) }
        ensures err { OnErr result (self.new ≡ self.old) }
    {
        let more = batch.prims.copy()?;
        let bytes = batch_text_bytes(more.as_slice());
        let request = Request {
            end: (self.prims.len() + more.len()) as u32,
            moment: batch.moment,
        };
        append(&mut self.prims, &mut self.requests, more, request)?;
        self.text += bytes;
        Ok(())
    }

    /// Takes the last request away again. It takes no memory.
    pub fn retract_last(&mut self)
        requires { 0 < length self.old }
        ensures { self.new ≡ take (length self.old - 1) self.old }
    {
        let kept = self.requests.len() - 1;
        let end = end_after(self.requests.as_slice(), kept);
        self.text -= batch_text_bytes(from_place(self.prims.as_slice(), end));
        self.prims.truncate(end);
        self.requests.truncate(kept);
    }

    /// A store of the same batches.
    pub fn copy(&self) -> Result<Store, Memory>
        ensures { IfOk result (λ store. store ≡ self.now) }
    {
        let alloc = *self.requests.allocator();
        Ok(Store {
            prims: self.prims.copy(alloc)?,
            requests: self.requests.to_vec(alloc)?,
            text: self.text,
        })
    }

    /// The n-th request, counted from 0.
    fn request(&self, n: u32) -> Request
        requires { n < length self.now }
        ensures end { result.end ≡ length (prims_at self.now (n + 1)) }
        ensures moment { option_map (λ batch. batch.moment) (slice_get self.now n)
            ≡ Some result.moment }
    {
        self.requests[n as usize]
    }

    /// The first place behind the primitives of the n-th request, counted from 0. It takes no
    /// memory.
    pub fn request_end(&self, n: u32) -> Id
        requires { n < length self.now }
        ensures { result ≡ length (prims_at self.now (n + 1)) }
    {
        Id(self.request(n).end)
    }

    /// The moment of the n-th request, counted from 0, in milliseconds since 1970-01-01 in UTC. It
    /// takes no memory.
    pub fn request_moment(&self, n: u32) -> u64
        requires { n < length self.now }
        ensures { option_map (λ batch. batch.moment) (slice_get self.now n) ≡ Some result }
    {
        self.request(n).moment
    }

    /// The first place above a dateline.
    fn end(&self, dateline: u32) -> u32
        requires { dateline ≤ length self.now }
        ensures { result ≡ length (prims_at self.now dateline) }
    {
        if dateline == 0 {
            BUILTIN_END
        } else {
            self.request(dateline - 1).end
        }
    }

    /// The primitives below a dateline: the built-in ones and those of the first `dateline`
    /// requests.
    #[tactic(auto, using(crate::proofs::History::front_of_all))]
    pub fn below(&self, dateline: u32) -> &[Primitive]
        requires { dateline ≤ length self.now }
        ensures below { result.now ≡ prims_at self.now dateline }
        ensures few { length result.now ≤ 2_097_151 }

        // They are a front of all primitives.
        ensures front { take (length (prims_at self.now dateline)) (prims_of self.now)
            ≡ prims_at self.now dateline }
    {
        &self.primitives()[..self.end(dateline) as usize]
    }

    /// Whether the primitive at a place below a dateline is marked live and none below it has it as
    /// `previous`.
    #[tactic(auto, using(crate::proofs::Stored::all_of_batches, crate::proofs::History::front_of_all, crate::proofs::History::front_le_all))]
    pub(crate) fn is_live<L>(&self, dateline: u32, id: Id, steps: &mut Steps<L>) -> bool
        requires { dateline ≤ length self.now }
        ensures live { result ≡ graph.is_live (prims_at self.now dateline) id }
        ensures work { steps.new ≤ steps.old + 2 }
        ensures later { steps.old ≤ steps.new }
        ensures counted { Rose steps.old steps.new }
    {
        self.prims.is_live(id, self.end(dateline), steps)
    }

    /// The primitive below a dateline that has this place as `previous`.
    pub(crate) fn successor<L>(&self, dateline: u32, id: Id, steps: &mut Steps<L>) -> Option<Id>
        requires { dateline ≤ length self.now }
        ensures successor { result ≡ graph.successor (prims_at self.now dateline) id }
        ensures work { steps.new ≤ steps.old + 1 }
        ensures later { steps.old ≤ steps.new }
        ensures counted { Rose steps.old steps.new }
    {
        self.prims.successor(id, self.end(dateline), steps)
    }

    /// The last place below a dateline whose primitive is a link of this key into this namespace.
    pub(crate) fn last_key_link<L>(
        &self,
        dateline: u32,
        namespace: Id,
        key: &Text,
        steps: &mut Steps<L>,
    ) -> Option<Id>
        requires { dateline ≤ length self.now }
        ensures last { result ≡ last_or None
            (graph.places_where (is_key_link namespace key.now) (prims_at self.now dateline)) }
        ensures work { steps.new ≤ steps.old + 24 }
        ensures later { steps.old ≤ steps.new }
        ensures counted { Rose steps.old steps.new }
    {
        self.prims
            .last_key_link(namespace, key, self.end(dateline), steps)
    }

    /// The k-th place below a dateline, from 0, whose primitive is a key link of this object.
    pub(crate) fn key_of<L>(
        &self,
        dateline: u32,
        object: Id,
        k: u32,
        steps: &mut Steps<L>,
    ) -> Option<Id>
        requires { dateline ≤ length self.now }
        ensures place { result ≡ slice_get
            (graph.places_where (is_key_of object) (prims_at self.now dateline)) k }
        ensures work { steps.new ≤ steps.old + 2 }
        ensures later { steps.old ≤ steps.new }
        ensures counted { Rose steps.old steps.new }
    {
        self.prims.key_of(object, k, self.end(dateline), steps)
    }

    /// How many primitives below a dateline have this node at the end.
    pub(crate) fn link_count<L>(
        &self,
        dateline: u32,
        end: End,
        node: Id,
        steps: &mut Steps<L>,
    ) -> u32
        requires { dateline ≤ length self.now }
        ensures count { result ≡ length (places_with end node (prims_at self.now dateline)) }
        ensures work { steps.new ≤ steps.old + 22 }
        ensures later { steps.old ≤ steps.new }
        ensures counted { Rose steps.old steps.new }
    {
        self.prims.link_count(end, node, self.end(dateline), steps)
    }

    /// A number such that no node is at this end of more primitives.
    pub(crate) fn most(&self, end: End) -> u32
        ensures { (node : ℕ) → length (places_with end node (prims_of self.now)) ≤ result }
    {
        self.prims.most(end)
    }

    /// Whether it is known that the left ends of the primitives with this node at the end rise, below
    /// each place. False says nothing.
    pub(crate) fn lefts_rise(&self, end: End, node: Id) -> bool
        ensures { result ≡ true → (n : ℕ) → LeftsRise (take n (prims_of self.now))
            (places_with end node (take n (prims_of self.now))) }
    {
        self.prims.lefts_rise(end, node)
    }

    /// Whether it is known that the left ends of the primitives that have the value with this number
    /// rise, below each place. False says nothing.
    pub(crate) fn value_lefts_rise(&self, number: u32) -> bool
        ensures { result ≡ true → (n : ℕ) → LeftsRise (take n (prims_of self.now))
            (places_of_number number (take n (prims_of self.now))) }
    {
        self.prims.value_lefts_rise(number)
    }

    /// Whether a primitive may have this text as its value. False: none has it, since no text is so
    /// long.
    pub(crate) fn may_have_text(&self, text: &str) -> bool
        ensures none { result ≡ false → list_any (λ p. graph.is_text text.now p.value)
            (prims_of self.now) ≡ false }
        ensures short { result ≡ true → length text.now ≤ 4_096 }
    {
        self.prims.may_have_text(text)
    }

    /// The places below a dateline whose primitive has this node at the end, in rising order.
    pub(crate) fn links<L>(&self, dateline: u32, end: End, node: Id, steps: &mut Steps<L>) -> &[Id]
        requires { dateline ≤ length self.now }
        ensures places { result.now ≡ places_with end node (prims_at self.now dateline) }
        ensures work { steps.new ≤ steps.old + 22 }
        ensures later { steps.old ≤ steps.new }
        ensures counted { Rose steps.old steps.new }
    {
        self.prims.links(end, node, self.end(dateline), steps)
    }

    /// How many of these places are below `from`.
    pub(crate) fn links_before<L>(
        &self,
        dateline: u32,
        end: End,
        node: Id,
        from: Id,
        steps: &mut Steps<L>,
    ) -> u32
        requires { dateline ≤ length self.now }
        ensures count { result ≡ length (ids_below from
            (places_with end node (prims_at self.now dateline))) }
        ensures work { steps.new ≤ steps.old + 22 }
        ensures later { steps.old ≤ steps.new }
        ensures counted { Rose steps.old steps.new }
    {
        self.prims
            .links_before(end, node, from, self.end(dateline), steps)
    }

    /// The first of these places that is `from` or greater, if there is one.
    pub(crate) fn first_link<L>(
        &self,
        dateline: u32,
        end: End,
        node: Id,
        from: Id,
        at: &mut u32,
        steps: &mut Steps<L>,
    ) -> Option<Id>
        requires { dateline ≤ length self.now }
        ensures first { result ≡ first_from from
            (places_with end node (prims_at self.now dateline)) }
        ensures below { IfSome result (λ place. place < length (prims_at self.now dateline)) }
        ensures work { steps.new ≤ steps.old + 24 }
        ensures later { steps.old ≤ steps.new }
        ensures counted { Rose steps.old steps.new }
    {
        self.prims
            .first_link(end, node, from, self.end(dateline), at, steps)
    }

    /// The k-th place below a dateline, from 0 in rising order, whose primitive has this node at
    /// the end.
    pub(crate) fn link_at<L>(
        &self,
        dateline: u32,
        end: End,
        node: Id,
        k: u32,
        steps: &mut Steps<L>,
    ) -> Id
        requires there { dateline ≤ length self.now }
        requires within { k < length (places_with end node (prims_at self.now dateline)) }
        ensures place { slice_get (places_with end node (prims_at self.now dateline)) k
            ≡ Some result }
        ensures work { steps.new ≡ min (steps.old + 1) (2 ^ 64 - 1) }
        ensures later { steps.old ≤ steps.new }
    {
        self.prims.link_at(end, node, k, steps)
    }

    /// The number of a value among those of the primitives below a dateline.
    pub(crate) fn number_of<L>(
        &self,
        dateline: u32,
        value: &Datum,
        steps: &mut Steps<L>,
    ) -> Option<u32>
        requires { dateline ≤ length self.now }
        ensures number { result ≡ number_in value.now (prims_at self.now dateline) }
        ensures work { steps.new ≤ steps.old + 2 }
        ensures later { steps.old ≤ steps.new }
        ensures counted { Rose steps.old steps.new }
    {
        match self.prims.number_of(value, self.end(dateline), steps) {
            Some(number) => Some(number as u32),
            None => None,
        }
    }

    /// How many primitives below a dateline have the value with a number.
    pub(crate) fn value_count<L>(&self, dateline: u32, number: u32, steps: &mut Steps<L>) -> u32
        requires { dateline ≤ length self.now }
        ensures count { result ≡ length (places_of_number number (prims_at self.now dateline)) }
        ensures work { steps.new ≤ steps.old + 22 }
        ensures later { steps.old ≤ steps.new }
        ensures counted { Rose steps.old steps.new }
    {
        self.prims.value_count(number, self.end(dateline), steps)
    }

    /// The places below a dateline whose primitive has the value with a number, in rising order.
    pub(crate) fn value_places<L>(&self, dateline: u32, number: u32, steps: &mut Steps<L>) -> &[Id]
        requires { dateline ≤ length self.now }
        ensures places { result.now ≡ places_of_number number (prims_at self.now dateline) }
        ensures work { steps.new ≤ steps.old + 22 }
        ensures later { steps.old ≤ steps.new }
        ensures counted { Rose steps.old steps.new }
    {
        self.prims.value_places(number, self.end(dateline), steps)
    }

    /// How many of these places are below `from`.
    pub(crate) fn values_before<L>(
        &self,
        dateline: u32,
        number: u32,
        from: Id,
        steps: &mut Steps<L>,
    ) -> u32
        requires { dateline ≤ length self.now }
        ensures count { result ≡ length (ids_below from
            (places_of_number number (prims_at self.now dateline))) }
        ensures work { steps.new ≤ steps.old + 22 }
        ensures later { steps.old ≤ steps.new }
        ensures counted { Rose steps.old steps.new }
    {
        self.prims
            .values_before(number, from, self.end(dateline), steps)
    }

    /// The first of these places that is `from` or greater, if there is one.
    pub(crate) fn first_of_value<L>(
        &self,
        dateline: u32,
        number: u32,
        from: Id,
        at: &mut u32,
        steps: &mut Steps<L>,
    ) -> Option<Id>
        requires { dateline ≤ length self.now }
        ensures first { result ≡ first_from from
            (places_of_number number (prims_at self.now dateline)) }
        ensures below { IfSome result (λ place. place < length (prims_at self.now dateline)) }
        ensures work { steps.new ≤ steps.old + 24 }
        ensures later { steps.old ≤ steps.new }
        ensures counted { Rose steps.old steps.new }
    {
        self.prims
            .first_of_value(number, from, self.end(dateline), at, steps)
    }

    /// The k-th place below a dateline, from 0 in rising order, whose primitive has the value with
    /// a number.
    pub(crate) fn value_place<L>(
        &self,
        dateline: u32,
        number: u32,
        k: u32,
        steps: &mut Steps<L>,
    ) -> Id
        requires there { dateline ≤ length self.now }
        requires within { k < length (places_of_number number (prims_at self.now dateline)) }
        ensures place { slice_get (places_of_number number (prims_at self.now dateline)) k
            ≡ Some result }
        ensures work { steps.new ≡ min (steps.old + 1) (2 ^ 64 - 1) }
        ensures later { steps.old ≤ steps.new }
    {
        self.prims.value_place(number, k, steps)
    }

    /// The store as it was at a dateline, which is a number of whole requests.
    pub fn view(&self, dateline: u32) -> View<'_>
        requires { dateline ≤ length self.now }
        ensures { result ≡ take dateline self.now }
    {
        prove!(dateline <= self.requests());
        View::new(self, dateline)
    }
}
