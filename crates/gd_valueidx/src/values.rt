//! Values by number, and the places of each.
ghost use Rattle.std.specs.Prelude.{◌≡◌, ℕ, ◌+◌, ◌-◌, ◌<◌, ◌≤◌, ◌==◌, [], Some, None, length};
ghost use Rattle.std.specs.Prelude.{slice_get, position, true, nat_lt, if◌then◌else◌, IfOk, OnOk};
ghost use Rattle.std.specs.Prelude.{OnErr};
ghost use Rattle.std.specs.Option.{option_copied};
ghost use Rattle.gd_base.specs.declared.datum.Datum as base;
ghost use Rattle.gd_base.specs.Counts.{Rose};
ghost use Rattle.gd_base.specs.Order.{datum_eq};
ghost use Rattle.gd_postings.specs.Postings.{IsAbove};
ghost use Rattle.gd_lists.specs.Entries.{with_entry, without_entry};
ghost use Rattle.gd_valueidx.specs.Ranked.{numbers_between};
ghost use Rattle.gd_valueidx.specs.Values.{value_list, values_in, number_list, with_value};
ghost use Rattle.gd_valueidx.specs.Values.{without_value};

use crate::between::between;
use crate::numbering::{give_number, take_number};
use crate::numbers::Numbers;
use crate::order::Order;
use gd_base::datum::Datum;
use gd_base::id::Id;
use gd_base::memory::Memory;
use gd_base::steps::Steps;
use gd_postings::postings::Postings;
use indexmap::IndexMap;
use std::alloc::Global;
use std::marker::Model;

/// Values in the order of their first entry, which is that of their numbers from 0, each with the
/// rising list of its places. Contracts see the entries. A value that was never entered has an
/// empty list. Beside them stand their numbers in the order of the values, by which the values
/// between two are found.
#[derive(Drop)]
pub struct Values {
    lists: IndexMap<Datum, Postings>,
    order: Order,
    empty: Postings,
    alloc: Global,
}

impl Model for Values {
    ghost use Rattle.std.specs.Prelude.{◌≡◌, List, []};
    ghost use Rattle.std.specs.Map.{keys_of};
    ghost use Rattle.gd_base.specs.declared.datum.Datum.{Datum};
    ghost use Rattle.gd_postings.specs.Postings.{Places};
    ghost use Rattle.gd_valueidx.specs.Runs.{AreOrdered};

    ghost Value = { List (Datum × Places) };

    ghost view = { λ values. values.lists.entries };

    ghost invariant = { λ values. (values.empty.ids ≡ [])
        × AreOrdered values.order.runs.items (keys_of values.lists.entries) };
}

/// The same values with the same lists again, entered in their order. Each value is hashed once.
fn copies(
    alloc: Global,
    lists: &IndexMap<Datum, Postings>,
) -> Result<IndexMap<Datum, Postings>, Memory>
    ensures { IfOk result (λ made. made.entries ≡ lists.now.entries) }
{
    let mut made = IndexMap::with_capacity(alloc, lists.len())?;
    for (value, list) in lists.iter() {
        let key = value.copy()?;
        let same = list.copy()?;
        drop(made.insert(key, same)?);
    }
    Ok(made)
}

impl Values {
    /// No values. It takes no memory.
    pub fn new(alloc: Global) -> Values
        ensures { result ≡ [] }
    {
        Values {
            lists: IndexMap::new(alloc),
            order: Order::new(alloc),
            empty: Postings::new(alloc),
            alloc,
        }
    }

    /// The same values again, with the same numbers, places and order. None is compared.
    pub fn copy(&self) -> Result<Values, Memory>
        ensures { IfOk result (λ copy. copy ≡ self.now) }
    {
        Ok(Values {
            lists: copies(self.alloc, &self.lists)?,
            order: self.order.copy()?,
            empty: self.empty.copy()?,
            alloc: self.alloc,
        })
    }

    /// The list of a value.
    pub fn list(&self, value: &Datum) -> &Postings
        ensures { result.now.ids ≡ (value_list value.now self.now).ids }
    {
        match self.lists.get(value) {
            Some(list) => list,
            None => &self.empty,
        }
    }

    /// The number of a value, if it has one.
    pub fn number_of(&self, value: &Datum) -> Option<usize>
        ensures { result ≡ position (datum_eq value.now) (values_in self.now) }
    {
        self.lists.get_index_of(value)
    }

    /// The value with a number, if the number was given.
    pub fn value_at(&self, number: usize) -> Option<&Datum>
        ensures { option_copied result ≡ slice_get (values_in self.now) number }
    {
        match self.lists.get_index(number) {
            Some((value, _)) => Some(value),
            None => None,
        }
    }

    /// The list of the value with a number, which is empty where the number was not given.
    pub fn list_at(&self, number: usize) -> &Postings
        ensures { result.now.ids ≡ (number_list number self.now).ids }
    {
        match self.lists.get_index(number) {
            Some((_, list)) => list,
            None => &self.empty,
        }
    }

    /// Enters a place at the end of the list of a value, which gets the next number if it has none.
    /// Every other list stays. `Memory` leaves the values and the places of each as they were; it
    /// also comes where 4,294,967,295 values have a number.
    pub fn add(&mut self, value: &Datum, id: Id) -> Result<(), Memory>
        requires small { id < 2_097_151 }
        requires above { IsAbove (value_list value.now self.old).ids id }
        ensures lists { OnOk result ((v : base.Datum) → (value_list v self.new).ids
            ≡ with_entry (datum_eq value.now v) id (value_list v self.old).ids) }
        ensures values { OnOk result (values_in self.new
            ≡ with_value value.now (values_in self.old)) }
        ensures err_lists { OnErr result
            ((v : base.Datum) → (value_list v self.new).ids ≡ (value_list v self.old).ids) }
        ensures err_values { OnErr result (values_in self.new ≡ values_in self.old) }
    {
        match self.lists.get_mut(value) {
            Some(list) => {
                list.make_room()?;
                list.push(id);
                Ok(())
            }
            None => {
                let mut list = Postings::new(self.alloc);
                list.make_room()?;
                list.push(id);
                give_number(&mut self.lists, &mut self.order, value, list)
            }
        }
    }

    /// Takes the last place of the list of a value away again. A value whose only place it was has
    /// the greatest number, and loses it. Every other list stays. It takes no memory.
    pub fn retract(&mut self, value: &Datum)
        requires some { 0 < length (value_list value.now self.old).ids }
        requires last { length (value_list value.now self.old).ids ≡ 1
            → slice_get (values_in self.old) (length (values_in self.old) - 1) ≡ Some value.now }
        ensures lists { (v : base.Datum) → (value_list v self.new).ids
            ≡ without_entry (datum_eq value.now v) (value_list v self.old).ids }
        ensures values { values_in self.new
            ≡ without_value (length (value_list value.now self.old).ids == 1) (values_in self.old) }
    {
        if self.take_last(value) == 0 {
            self.drop_last(value);
        }
    }

    /// Takes the last place of the list of a value away, and says how many are left.
    fn take_last(&mut self, value: &Datum) -> u32
        requires { 0 < length (value_list value.now self.old).ids }
        ensures lists { (v : base.Datum) → (value_list v self.new).ids
            ≡ without_entry (datum_eq value.now v) (value_list v self.old).ids }
        ensures values { values_in self.new ≡ values_in self.old }
        ensures left { result ≡ length (value_list value.now self.new).ids }
    {
        match self.lists.get_mut(value) {
            Some(list) => {
                let _last = list.pop_last();
                list.len()
            }
            None => unreachable!(),
        }
    }

    /// Takes the last value away, whose list is empty.
    fn drop_last(&mut self, value: &Datum)
        requires last { slice_get (values_in self.old) (length (values_in self.old) - 1)
            ≡ Some value.now }
        requires empty { (value_list value.now self.old).ids ≡ [] }
        ensures lists { (v : base.Datum) → (value_list v self.new).ids
            ≡ (value_list v self.old).ids }
        ensures values { values_in self.new ≡ without_value true (values_in self.old) }
    {
        take_number(&mut self.lists, &mut self.order, value);
    }

    /// The numbers of the values that are not less than `lo` nor greater than `hi`, where these are
    /// given, in the order of the values, or None where there are more than `most`. To find the
    /// first counts as one step, and each number, and the end, as one.
    pub fn values_between<L>(
        &self,
        lo: Option<&Datum>,
        hi: Option<&Datum>,
        most: u32,
        steps: &mut Steps<L>,
    ) -> Result<Option<Numbers>, Memory>
        ensures numbers { IfOk result (λ found. found
            ≡ (if nat_lt most
            (length (numbers_between (option_copied lo.entry) (option_copied hi.entry)
            (values_in self.now))) then None
            else Some (numbers_between (option_copied lo.entry) (option_copied hi.entry)
            (values_in self.now)))) }
        ensures work { steps.new ≤ steps.old + most + 2 }
        ensures later { steps.old ≤ steps.new }
        ensures counted { Rose steps.old steps.new }
    {
        steps.tick();
        between(&self.order, &self.lists, lo, hi, most, self.alloc, steps)
    }
}
