//! Indexes of a list of primitives: which one succeeds which, where the key links are, which places
//! name a node, and which have a value.
ghost use Rattle.std.specs.Prelude.{◌≡◌, ℕ, ◌+◌, ◌-◌, ◌^◌, ◌<◌, ◌≤◌, [], None, Some, length, take, List};
ghost use Rattle.std.specs.Prelude.{slice_get, min, position, is_some, true, if◌then◌else◌, IsTrue, OnOk};
ghost use Rattle.std.specs.Prelude.{OnErr, IfSome, IfOk};
ghost use Rattle.std.specs.List.{last_or};
ghost use Rattle.std.specs.Option.{option_copied};
ghost use Rattle.gd_base.specs.Counts.{Rose};
ghost use Rattle.gd_prim.specs.declared.Primitive.{Primitive};
ghost use Rattle.gd_prim.specs.End.{places_with};
ghost use Rattle.gd_prim.specs.Live as graph;
ghost use Rattle.gd_postings.specs.Postings.{ids_below, first_from};
ghost use Rattle.gd_versions.specs.Versions.{successor_of};
ghost use Rattle.gd_keys.specs.Keys.{key_list, object_list};
ghost use Rattle.gd_linkage.specs.Linkage.{list_of};
ghost use Rattle.gd_store.specs.Indexed.{AreSuccessors, AreKeys, AreLinks, AreIndexes, may_enter};
ghost use Rattle.gd_store.specs.Indexed.{below_end};
ghost use Rattle.gd_base.specs.Order.{datum_eq};
ghost use Rattle.gd_valueidx.specs.Values.{value_list, values_in, number_list};
ghost use Rattle.gd_store.specs.Lefts.{AreLefts, LeftsRise};
ghost use Rattle.gd_store.specs.Valued.{places_of_number, AreValues};

use crate::below::{at_below, count_below, count_front, first_front, front, last_below};
use crate::lefts::Lefts;
use gd_base::datum::Datum;
use gd_base::id::Id;
use gd_base::memory::Memory;
use gd_base::steps::Steps;
use gd_base::text::Text;
use gd_keys::keys::Keys;
use gd_linkage::linkage::Linkage;
use gd_prim::live::refers;
use gd_prim::{End, Primitive};
use gd_valueidx::values::Values;
use gd_versions::versions::Versions;
use std::alloc::Global;

/// The property of key links.
const KEY: Id = Id(15);

/// Which primitive of a list succeeds which, the places of its key links, the places by nodes and by
/// values, and how far the left ends of links come.
#[derive(Drop)]
pub(crate) struct Indexes {
    versions: Versions,
    keys: Keys,
    linkage: Linkage,
    values: Values,
    lefts: Lefts,
}

/// The text that the value is.
fn text_of(value: &Datum) -> Option<&Text>
    ensures { option_copied result ≡ graph.text_of value.now }
{
    match value {
        Datum::Text(text) => Some(text),
        _ => None,
    }
}

/// Enters the primitive at a place, if it is a key link, or for want of memory leaves each list as
/// it was.
fn enter_key(keys: &mut Keys, prims: &[Primitive], place: usize) -> Result<(), Memory>
    requires there { place < length prims.now }
    requires few { length prims.now ≤ 2_097_151 }
    requires before { AreKeys keys.old (take place prims.now) }
    ensures ok { OnOk result (AreKeys keys.new (take (place + 1) prims.now)) }
    ensures err { OnErr result (AreKeys keys.new (take place prims.now)) }
{
    let prim = &prims[place];
    if refers(prim.typ, KEY) {
        keys.add(
            prim.right,
            text_of(&prim.value),
            prim.left,
            Id(place as u32),
        )?;
    }
    Ok(())
}

/// Takes the primitive at a place away again, if it is a key link. It is the last that was entered.
fn take_out_key(keys: &mut Keys, prims: &[Primitive], place: usize)
    requires there { place < length prims.now }
    requires before { AreKeys keys.old (take (place + 1) prims.now) }
    ensures { AreKeys keys.new (take place prims.now) }
{
    let prim = &prims[place];
    if refers(prim.typ, KEY) {
        keys.retract(prim.right, text_of(&prim.value), prim.left);
    }
}

/// Enters the primitive at a place in the list of each node that it names, or for want of memory
/// leaves each list as it was.
fn enter_links(linkage: &mut Linkage, prims: &[Primitive], place: usize) -> Result<(), Memory>
    requires there { place < length prims.now }
    requires few { length prims.now ≤ 2_097_151 }
    requires before { AreLinks linkage.old (take place prims.now) }
    ensures ok { OnOk result (AreLinks linkage.new (take (place + 1) prims.now)) }
    ensures err { OnErr result (AreLinks linkage.new (take place prims.now)) }
{
    let prim = &prims[place];
    linkage.reserve(prim)?;
    linkage.add(prim, Id(place as u32));
    Ok(())
}

/// Takes the primitive at a place away again from the list of each node that it names. It is the
/// last that was entered.
fn take_out_links(linkage: &mut Linkage, prims: &[Primitive], place: usize)
    requires there { place < length prims.now }
    requires before { AreLinks linkage.old (take (place + 1) prims.now) }
    ensures { AreLinks linkage.new (take place prims.now) }
{
    linkage.retract(&prims[place]);
}

/// Enters the primitive at a place in the lists of key links and of nodes, or for want of memory
/// leaves each list as it was.
fn enter_lists(
    keys: &mut Keys,
    linkage: &mut Linkage,
    prims: &[Primitive],
    place: usize,
) -> Result<(), Memory>
    requires there { place < length prims.now }
    requires few { length prims.now ≤ 2_097_151 }
    requires before_keys { AreKeys keys.old (take place prims.now) }
    requires before_links { AreLinks linkage.old (take place prims.now) }
    ensures ok_keys { OnOk result (AreKeys keys.new (take (place + 1) prims.now)) }
    ensures ok_links { OnOk result (AreLinks linkage.new (take (place + 1) prims.now)) }
    ensures err_keys { OnErr result (AreKeys keys.new (take place prims.now)) }
    ensures err_links { OnErr result (AreLinks linkage.new (take place prims.now)) }
{
    enter_key(keys, prims, place)?;
    if let Err(fault) = enter_links(linkage, prims, place) {
        take_out_key(keys, prims, place);
        return Err(fault);
    }
    Ok(())
}

/// Enters the primitive at a place in the list of its value, or for want of memory leaves each list
/// as it was.
fn enter_value(values: &mut Values, prims: &[Primitive], place: usize) -> Result<(), Memory>
    requires there { place < length prims.now }
    requires few { length prims.now ≤ 2_097_151 }
    requires before { AreValues values.old (take place prims.now) }
    ensures ok { OnOk result (AreValues values.new (take (place + 1) prims.now)) }
    ensures err { OnErr result (AreValues values.new (take place prims.now)) }
{
    let prim = &prims[place];
    values.add(&prim.value, Id(place as u32))?;
    Ok(())
}

/// Takes the primitive at a place away again from the list of its value. It is the last that was
/// entered.
fn take_out_value(values: &mut Values, prims: &[Primitive], place: usize)
    requires there { place < length prims.now }
    requires before { AreValues values.old (take (place + 1) prims.now) }
    ensures { AreValues values.new (take place prims.now) }
{
    let prim = &prims[place];
    values.retract(&prim.value);
}

/// Enters the primitive at a place in the list of its value, and sees its left end, or for want of
/// memory leaves each list as it was.
fn enter_valued(
    values: &mut Values,
    lefts: &mut Lefts,
    prims: &[Primitive],
    place: usize,
) -> Result<(), Memory>
    requires there { place < length prims.now }
    requires few { length prims.now ≤ 2_097_151 }
    requires before_values { AreValues values.old (take place prims.now) }
    requires before_lefts { AreLefts lefts.old (take place prims.now) }
    ensures ok_values { OnOk result (AreValues values.new (take (place + 1) prims.now)) }
    ensures ok_lefts { OnOk result (AreLefts lefts.new (take (place + 1) prims.now)) }
    ensures err_values { OnErr result (AreValues values.new (take place prims.now)) }
    ensures kept_lefts { AreLefts lefts.new (take place prims.now) }
{
    enter_value(values, prims, place)?;
    if let Err(fault) = lefts.enter(values, prims, place) {
        take_out_value(values, prims, place);
        return Err(fault);
    }
    Ok(())
}

/// Enters the primitive at a place in all lists, or for want of memory leaves each list as it was.
fn enter_all_lists(
    keys: &mut Keys,
    linkage: &mut Linkage,
    values: &mut Values,
    lefts: &mut Lefts,
    prims: &[Primitive],
    place: usize,
) -> Result<(), Memory>
    requires there { place < length prims.now }
    requires few { length prims.now ≤ 2_097_151 }
    requires before_keys { AreKeys keys.old (take place prims.now) }
    requires before_links { AreLinks linkage.old (take place prims.now) }
    requires before_values { AreValues values.old (take place prims.now) }
    requires before_lefts { AreLefts lefts.old (take place prims.now) }
    ensures ok_keys { OnOk result (AreKeys keys.new (take (place + 1) prims.now)) }
    ensures ok_links { OnOk result (AreLinks linkage.new (take (place + 1) prims.now)) }
    ensures ok_values { OnOk result (AreValues values.new (take (place + 1) prims.now)) }
    ensures ok_lefts { OnOk result (AreLefts lefts.new (take (place + 1) prims.now)) }
    ensures err_keys { OnErr result (AreKeys keys.new (take place prims.now)) }
    ensures err_links { OnErr result (AreLinks linkage.new (take place prims.now)) }
    ensures err_values { OnErr result (AreValues values.new (take place prims.now)) }
    ensures err_lefts { OnErr result (AreLefts lefts.new (take place prims.now)) }
{
    enter_valued(values, lefts, prims, place)?;
    if let Err(fault) = enter_lists(keys, linkage, prims, place) {
        take_out_value(values, prims, place);
        return Err(fault);
    }
    Ok(())
}

/// Enters the primitive at a place as the successor of its previous one, or for want of memory
/// leaves each place's successor as it was.
fn enter_version(versions: &mut Versions, prims: &[Primitive], place: usize) -> Result<(), Memory>
    requires there { place < length prims.now }
    requires few { length prims.now ≤ 2_097_151 }
    requires entered { IsTrue (may_enter [] prims.now) }
    requires before { AreSuccessors versions.old (take place prims.now) }
    ensures ok { OnOk result (AreSuccessors versions.new (take (place + 1) prims.now)) }
    ensures err { OnErr result (AreSuccessors versions.new (take place prims.now)) }
{
    let prim = &prims[place];
    if let Some(previous) = prim.previous {
        versions.reserve(previous.place() + 1)?;
        versions.add(previous, Id(place as u32));
    }
    Ok(())
}

/// Takes the primitive at a place away again as a successor.
fn take_out_version(versions: &mut Versions, prims: &[Primitive], place: usize)
    requires there { place < length prims.now }
    requires entered { IsTrue (may_enter [] prims.now) }
    requires before { AreSuccessors versions.old (take (place + 1) prims.now) }
    ensures { AreSuccessors versions.new (take place prims.now) }
{
    let prim = &prims[place];
    if let Some(previous) = prim.previous {
        versions.retract(previous);
    }
}

impl Indexes {
    /// The indexes of no primitives. It takes no memory.
    pub(crate) fn new(alloc: Global) -> Indexes
        ensures { AreIndexes result [] }
    {
        Indexes {
            versions: Versions::new(alloc),
            keys: Keys::new(alloc),
            linkage: Linkage::new(alloc),
            values: Values::new(alloc),
            lefts: Lefts::new(alloc),
        }
    }

    /// The same indexes again, as they stand: nothing is entered anew.
    pub(crate) fn copy(&self, alloc: Global) -> Result<Indexes, Memory>
        ensures { IfOk result (λ copy. copy ≡ self.now) }
    {
        Ok(Indexes {
            versions: self.versions.copy(alloc)?,
            keys: self.keys.copy()?,
            linkage: self.linkage.copy()?,
            values: self.values.copy()?,
            lefts: self.lefts.copy(alloc)?,
        })
    }

    /// The values by number.
    pub(crate) fn values(&self) -> &Values
        ensures { result.now ≡ self.now.values }
    {
        &self.values
    }

    /// Enters the primitive at a place behind all those before it, or for want of memory leaves the
    /// indexes those of the ones before it.
    fn enter(&mut self, prims: &[Primitive], place: usize) -> Result<(), Memory>
        requires there { place < length prims.now }
        requires few { length prims.now ≤ 2_097_151 }
        requires entered { IsTrue (may_enter [] prims.now) }
        requires before { AreIndexes self.old (take place prims.now) }
        ensures ok { OnOk result (AreIndexes self.new (take (place + 1) prims.now)) }
        ensures err { OnErr result (AreIndexes self.new (take place prims.now)) }
    {
        enter_version(&mut self.versions, prims, place)?;
        if let Err(fault) = enter_all_lists(
            &mut self.keys,
            &mut self.linkage,
            &mut self.values,
            &mut self.lefts,
            prims,
            place,
        ) {
            take_out_version(&mut self.versions, prims, place);
            return Err(fault);
        }
        Ok(())
    }

    /// Takes the primitive at a place, which is the last that was entered, away again. It takes no
    /// memory.
    fn take_out(&mut self, prims: &[Primitive], place: usize)
        requires there { place < length prims.now }
        requires entered { IsTrue (may_enter [] prims.now) }
        requires before { AreIndexes self.old (take (place + 1) prims.now) }
        ensures { AreIndexes self.new (take place prims.now) }
    {
        take_out_value(&mut self.values, prims, place);
        take_out_links(&mut self.linkage, prims, place);
        take_out_key(&mut self.keys, prims, place);
        take_out_version(&mut self.versions, prims, place);
    }

    /// Takes the primitives between two places away again, which are the last that were entered. It
    /// takes no memory.
    pub(crate) fn take_out_all(&mut self, prims: &[Primitive], start: usize, end: usize)
        requires order { start ≤ end }
        requires there { end ≤ length prims.now }
        requires entered { IsTrue (may_enter [] prims.now) }
        requires before { AreIndexes self.old (take end prims.now) }
        ensures { AreIndexes self.new (take start prims.now) }
    {
        for place in (start..end).rev() {
            self.take_out(prims, place);
        }
    }

    /// Enters the primitives from a place on, or for want of memory leaves the indexes those of the
    /// ones before it.
    pub(crate) fn enter_all(&mut self, prims: &[Primitive], start: usize) -> Result<(), Memory>
        requires start { start ≤ length prims.now }
        requires few { length prims.now ≤ 2_097_151 }
        requires entered { IsTrue (may_enter [] prims.now) }
        requires before { AreIndexes self.old (take start prims.now) }
        ensures ok { OnOk result (AreIndexes self.new prims.now) }
        ensures err { OnErr result (AreIndexes self.new (take start prims.now)) }
    {
        for place in start..prims.len() {
            if let Err(fault) = self.enter(prims, place) {
                self.take_out_all(prims, start, place);
                return Err(fault);
            }
        }
        Ok(())
    }

    /// The last place below `end` that has a link of this key into this namespace, if there is one.
    pub(crate) fn last_key_link<L>(
        &self,
        namespace: Id,
        key: &Text,
        end: Id,
        steps: &mut Steps<L>,
    ) -> Option<Id>
        ensures last { result ≡ last_or None
            (ids_below end (key_list self.now.keys namespace key.now).ids) }
        ensures work { steps.new ≤ steps.old + 23 }
        ensures later { steps.old ≤ steps.new }
    {
        last_below(self.keys.by_key(namespace, key), end, steps)
    }

    /// The k-th place below `end`, from 0, that has a key link of this object, if there is one.
    pub(crate) fn key_of<L>(&self, object: Id, k: u32, end: Id, steps: &mut Steps<L>) -> Option<Id>
        ensures place { result ≡ slice_get (ids_below end (object_list self.now.keys object).ids)
            k }
        ensures work { steps.new ≤ steps.old + 1 }
        ensures later { steps.old ≤ steps.new }
    {
        at_below(self.keys.by_object(object), k, end, steps)
    }

    /// How many places below `below` name this node at this end.
    pub(crate) fn link_count<L>(&self, end: End, node: Id, below: Id, steps: &mut Steps<L>) -> u32
        ensures count { result ≡ length (ids_below below (list_of end node self.now.linkage).ids) }
        ensures work { steps.new ≤ steps.old + 22 }
        ensures later { steps.old ≤ steps.new }
        ensures counted { Rose steps.old steps.new }
    {
        count_below(self.linkage.list(end, node), below, steps)
    }

    /// A number such that no node is named at this end by more places.
    pub(crate) fn most(&self, end: End) -> u32
        ensures { (node : ℕ) → length (list_of end node self.now.linkage).ids ≤ result }
    {
        self.linkage.most(end)
    }

    /// Whether it is known that the left ends of the primitives with this node at the end rise. False
    /// says nothing.
    pub(crate) fn lefts_rise(&self, end: End, node: Id) -> bool
        ensures { result ≡ true → (prims : List Primitive) → AreLefts self.now.lefts prims
            → LeftsRise prims (places_with end node prims) }
    {
        self.lefts.rise_at(end, node)
    }

    /// Whether it is known that the left ends of the primitives that have the value with this number
    /// rise. False says nothing.
    pub(crate) fn value_lefts_rise(&self, number: u32) -> bool
        ensures { result ≡ true → (prims : List Primitive) → AreLefts self.now.lefts prims
            → LeftsRise prims (places_of_number number prims) }
    {
        self.lefts.rise_of(number)
    }

    /// The places below `below` that name this node at this end.
    pub(crate) fn links<L>(&self, end: End, node: Id, below: Id, steps: &mut Steps<L>) -> &[Id]
        ensures places { result.now ≡ ids_below below (list_of end node self.now.linkage).ids }
        ensures work { steps.new ≤ steps.old + 22 }
        ensures later { steps.old ≤ steps.new }
        ensures counted { Rose steps.old steps.new }
    {
        front(self.linkage.list(end, node), below, steps)
    }

    /// How many of the places below `below` that name this node at this end are below `from`.
    pub(crate) fn links_before<L>(
        &self,
        end: End,
        node: Id,
        from: Id,
        below: Id,
        steps: &mut Steps<L>,
    ) -> u32
        ensures count { result ≡ length (ids_below from
            (ids_below below (list_of end node self.now.linkage).ids)) }
        ensures work { steps.new ≤ steps.old + 22 }
        ensures later { steps.old ≤ steps.new }
        ensures counted { Rose steps.old steps.new }
    {
        count_front(self.linkage.list(end, node), from, below, steps)
    }

    /// The first of the places below `below` that name this node at this end that is `from` or
    /// greater, if there is one.
    pub(crate) fn first_link<L>(
        &self,
        end: End,
        node: Id,
        from: Id,
        below: Id,
        at: &mut u32,
        steps: &mut Steps<L>,
    ) -> Option<Id>
        ensures first { result ≡ first_from from
            (ids_below below (list_of end node self.now.linkage).ids) }
        ensures below { IfSome result (λ place. place < below) }
        ensures work { steps.new ≤ steps.old + 24 }
        ensures later { steps.old ≤ steps.new }
        ensures counted { Rose steps.old steps.new }
    {
        first_front(self.linkage.list(end, node), from, below, at, steps)
    }

    /// The k-th place, from 0, that names this node at this end.
    pub(crate) fn link_at<L>(&self, end: End, node: Id, k: u32, steps: &mut Steps<L>) -> Id
        requires { k < length (list_of end node self.now.linkage).ids }
        ensures place { slice_get (list_of end node self.now.linkage).ids k ≡ Some result }
        ensures work { steps.new ≡ min (steps.old + 1) (2 ^ 64 - 1) }
        ensures later { steps.old ≤ steps.new }
    {
        self.linkage.list_at(end, node, k, steps)
    }

    /// The number of a value that has a place below `end`.
    pub(crate) fn number_of<L>(&self, value: &Datum, end: Id, steps: &mut Steps<L>) -> Option<usize>
        ensures number { result ≡ (if is_some
            (slice_get (ids_below end (value_list value.now self.now.values).ids) 0) then position
            (datum_eq value.now) (values_in self.now.values) else None) }
        ensures work { steps.new ≤ steps.old + 1 }
        ensures later { steps.old ≤ steps.new }
    {
        match at_below(self.values.list(value), 0, end, steps) {
            Some(_) => self.values.number_of(value),
            None => None,
        }
    }

    /// How many places below `end` have the value with a number.
    pub(crate) fn value_count<L>(&self, number: u32, end: Id, steps: &mut Steps<L>) -> u32
        ensures count { result ≡ length (ids_below end (number_list number self.now.values).ids) }
        ensures work { steps.new ≤ steps.old + 22 }
        ensures later { steps.old ≤ steps.new }
        ensures counted { Rose steps.old steps.new }
    {
        count_below(self.values.list_at(number as usize), end, steps)
    }

    /// The places below `end` that have the value with a number.
    pub(crate) fn value_places<L>(&self, number: u32, end: Id, steps: &mut Steps<L>) -> &[Id]
        ensures places { result.now ≡ ids_below end (number_list number self.now.values).ids }
        ensures work { steps.new ≤ steps.old + 22 }
        ensures later { steps.old ≤ steps.new }
        ensures counted { Rose steps.old steps.new }
    {
        front(self.values.list_at(number as usize), end, steps)
    }

    /// How many of the places below `end` that have the value with a number are below `from`.
    pub(crate) fn values_before<L>(
        &self,
        number: u32,
        from: Id,
        end: Id,
        steps: &mut Steps<L>,
    ) -> u32
        ensures count { result ≡ length (ids_below from
            (ids_below end (number_list number self.now.values).ids)) }
        ensures work { steps.new ≤ steps.old + 22 }
        ensures later { steps.old ≤ steps.new }
        ensures counted { Rose steps.old steps.new }
    {
        count_front(self.values.list_at(number as usize), from, end, steps)
    }

    /// The first of the places below `end` that have the value with this number that is `from` or
    /// greater, if there is one.
    pub(crate) fn first_of_value<L>(
        &self,
        number: u32,
        from: Id,
        end: Id,
        at: &mut u32,
        steps: &mut Steps<L>,
    ) -> Option<Id>
        ensures first { result ≡ first_from from
            (ids_below end (number_list number self.now.values).ids) }
        ensures below { IfSome result (λ place. place < end) }
        ensures work { steps.new ≤ steps.old + 24 }
        ensures later { steps.old ≤ steps.new }
        ensures counted { Rose steps.old steps.new }
    {
        first_front(self.values.list_at(number as usize), from, end, at, steps)
    }

    /// The k-th place, from 0, that has the value with a number.
    pub(crate) fn value_place<L>(&self, number: u32, k: u32, steps: &mut Steps<L>) -> Id
        requires { k < length (number_list number self.now.values).ids }
        ensures place { slice_get (number_list number self.now.values).ids k ≡ Some result }
        ensures work { steps.new ≡ min (steps.old + 1) (2 ^ 64 - 1) }
        ensures later { steps.old ≤ steps.new }
    {
        self.values.list_at(number as usize).at(k, steps)
    }

    /// The successor of a place, if it is below `end`.
    pub(crate) fn successor<L>(&self, id: Id, end: Id, steps: &mut Steps<L>) -> Option<Id>
        ensures successor { result ≡ below_end end (successor_of self.now.versions id) }
        ensures work { steps.new ≤ steps.old + 1 }
        ensures later { steps.old ≤ steps.new }
        ensures counted { Rose steps.old steps.new }
    {
        match self.versions.successor(id, steps) {
            Some(next) if next < end => Some(next),
            _ => None,
        }
    }

    /// Whether some primitive of the list has this place as `previous`.
    pub(crate) fn is_succeeded(&self, id: Id) -> bool
        ensures { result ≡ is_some (successor_of self.now.versions id) }
    {
        let mut steps: Steps<()> = Steps::new();
        self.versions.successor(id, &mut steps).is_some()
    }
}
