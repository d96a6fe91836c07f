//! Numbers in the order of their values.
ghost use Rattle.std.specs.Prelude.{◌≡◌, ◌+◌, ◌-◌, ◌<◌, ◌≤◌, ℕ, suc, [], ◌∷◌, true, false, length};
ghost use Rattle.std.specs.Prelude.{take, drop, slice_get, slice_set, slice_index, slice_index_or};
ghost use Rattle.std.specs.Prelude.{IsTrue, IfOk, OnOk, OnErr, IfSome, IfNone, Some, None};
ghost use Rattle.std.specs.List.{insert, remove};
ghost use Rattle.std.specs.List.Sorted.{IsPartitionedBy, IsPartitionPoint};
ghost use Rattle.std.specs.Map.{keys_of};
ghost use Rattle.std.proofs.Props.{props};
ghost use Rattle.gd_valueidx.specs.Runs.{flat, rank, AreRuns, IsPlace, IsSplit, is_before, stands};

use crate::run::{RUN_LIMIT, Run};
use gd_base::datum::Datum;
use gd_base::memory::Memory;
use gd_postings::postings::Postings;
use indexmap::IndexMap;
use std::alloc::Global;
use std::cmp::Ordering;

/// Numbers in an order, in runs of bounded length, so that a number that is put between others
/// moves at most a run's.
#[derive(Drop)]
pub(crate) struct Order {
    runs: Vec<Run>,
    alloc: Global,
    ghost filled: { AreRuns runs.items } by { Prim.hlevel props },
}

/// A place between the numbers of an order: that before the number at an index of a run, or at the
/// run's end.
#[derive(Clone, Copy)]
pub(crate) struct Place {
    run: usize,
    index: usize,
}

/// Whether a value stands before another one, or is it where `with` is set.
fn is_before_value(key: &Datum, value: &Datum, with: bool) -> bool
    ensures { result ≡ is_before value.now with key.now }
{
    match key.order(value) {
        Ordering::Less => true,
        Ordering::Equal => with,
        Ordering::Greater => false,
    }
}

/// Whether the value with a number does.
pub(crate) fn stands_before(
    values: &IndexMap<Datum, Postings>,
    number: u32,
    value: &Datum,
    with: bool,
) -> bool
    ensures { result ≡ stands (keys_of values.now.entries) value.now with number }
{
    match values.get_index(number as usize) {
        Some((key, _)) => is_before_value(key, value, with),
        None => false,
    }
}

/// How many runs begin with a number whose value does.
fn runs_before(runs: &[Run], values: &IndexMap<Datum, Postings>, value: &Datum, with: bool) -> usize
    requires { IsPartitionedBy (λ run. stands (keys_of values.now.entries) value.now with
        (slice_index run 0)) runs.now }
    ensures bound { result ≤ length runs.now }
    ensures point { IsPartitionPoint
        (λ run. stands (keys_of values.now.entries) value.now with (slice_index run 0) ≡ true)
        (λ run. stands (keys_of values.now.entries) value.now with (slice_index run 0) ≡ false)
        runs.now result }
{
    runs.partition_point(
        |run: &Run| -> bool
            ensures { result ≡ stands (keys_of values.entry.now.entries) value.entry.now with
                (slice_index run.now 0) }
        { stands_before(values, run.first(), value, with) },
    )
}

/// How many of the numbers of a run have a value that does.
fn numbers_before(
    numbers: &[u32],
    values: &IndexMap<Datum, Postings>,
    value: &Datum,
    with: bool,
) -> usize
    requires { IsPartitionedBy (stands (keys_of values.now.entries) value.now with) numbers.now }
    ensures { IsSplit (stands (keys_of values.now.entries) value.now with) numbers.now result }
{
    numbers.partition_point(
        |number: &u32| -> bool
            ensures { result ≡ stands (keys_of values.entry.now.entries) value.entry.now with
                number.now }
        { stands_before(values, *number, value, with) },
    )
}

/// The same runs again.
fn copies(alloc: Global, runs: &[Run]) -> Result<Vec<Run>, Memory>
    ensures { IfOk result (λ made. made.items ≡ runs.now) }
{
    let mut made = Vec::with_capacity(alloc, runs.len())?;
    for run in runs {
        made.push(run.copy(alloc)?)?;
    }
    Ok(made)
}

impl Order {
    /// No numbers. It takes no memory.
    pub(crate) fn new(alloc: Global) -> Order
        ensures { flat result.runs.items ≡ [] }
    {
        Order {
            runs: Vec::new(alloc),
            alloc,
        }
    }

    /// The same numbers in the same runs again. No values are compared.
    pub(crate) fn copy(&self) -> Result<Order, Memory>
        ensures { IfOk result (λ copy. copy.runs.items ≡ self.now.runs.items) }
    {
        Ok(Order {
            runs: copies(self.alloc, self.runs.as_slice())?,
            alloc: self.alloc,
        })
    }

    /// The place before all numbers.
    pub(crate) fn start(&self) -> Place
        ensures rank { rank self.now.runs.items result.run result.index ≡ 0 }
        ensures place { IsPlace self.now.runs.items result.run result.index }
    {
        Place { run: 0, index: 0 }
    }

    /// The place behind the numbers whose values stand before a value, or are it where `with` is
    /// set. It is found by halving.
    pub(crate) fn place(
        &self,
        values: &IndexMap<Datum, Postings>,
        value: &Datum,
        with: bool,
    ) -> Place
        requires { IsPartitionedBy (stands (keys_of values.now.entries) value.now with)
            (flat self.now.runs.items) }
        ensures split { IsSplit (stands (keys_of values.now.entries) value.now with)
            (flat self.now.runs.items) (rank self.now.runs.items result.run result.index) }
        ensures place { IsPlace self.now.runs.items result.run result.index }
        ensures front { result.index ≡ 0 → rank self.now.runs.items result.run result.index ≡ 0 }
    {
        let count = runs_before(self.runs.as_slice(), values, value, with);
        if count == 0 {
            return Place { run: 0, index: 0 };
        }
        let run = count - 1;
        let index = numbers_before(self.runs[run].as_slice(), values, value, with);
        Place { run, index }
    }

    /// The first number of a run, if there is such a run, and the place behind it.
    fn first_of(&self, run: usize) -> Option<(u32, Place)>
        ensures number { IfSome result (λ next. slice_get (flat self.now.runs.items)
            (rank self.now.runs.items run 0) ≡ Some next.0) }
        ensures behind { IfSome result (λ next. rank self.now.runs.items next.1.run next.1.index
            ≡ rank self.now.runs.items run 0 + 1) }
        ensures place { IfSome result (λ next. IsPlace self.now.runs.items next.1.run
            next.1.index) }
        ensures none { IfNone result (length self.now.runs.items ≤ run) }
    {
        match self.runs.get(run) {
            Some(first) => Some((first.first(), Place { run, index: 1 })),
            None => None,
        }
    }

    /// The number at a place, and the place behind it. None exactly where no number stands behind
    /// the place.
    pub(crate) fn next(&self, place: Place) -> Option<(u32, Place)>
        requires { IsPlace self.now.runs.items place.run place.index }
        ensures number { IfSome result (λ next. slice_get (flat self.now.runs.items)
            (rank self.now.runs.items place.run place.index) ≡ Some next.0) }
        ensures behind { IfSome result (λ next. rank self.now.runs.items next.1.run next.1.index
            ≡ rank self.now.runs.items place.run place.index + 1) }
        ensures place { IfSome result (λ next. IsPlace self.now.runs.items next.1.run
            next.1.index) }
        ensures none { IfNone result (length (flat self.now.runs.items) ≤ rank self.now.runs.items
            place.run place.index) }
    {
        match self.runs.get(place.run) {
            Some(run) => match run.as_slice().get(place.index) {
                Some(number) => Some((
                    *number,
                    Place {
                        run: place.run,
                        index: place.index + 1,
                    },
                )),
                None => self.first_of(place.run + 1),
            },
            None => None,
        }
    }

    /// Whether a place is the end of all numbers, and the last run has no room, or there is none.
    fn wants_run(&self, place: Place) -> bool
        requires { IsPlace self.now.runs.items place.run place.index }
        ensures end { IsTrue result → rank self.now.runs.items place.run place.index
            ≡ length (flat self.now.runs.items) }
        ensures run { result ≡ false → place.run < length self.now.runs.items }
    {
        match self.runs.get(place.run) {
            Some(run) => place.run + 1 == self.runs.len()
                && place.index == run.len()
                && run.len() == RUN_LIMIT,
            None => true,
        }
    }

    /// Puts a number at the end, in a run of its own, or for want of memory leaves all as it was.
    fn push(&mut self, number: u32) -> Result<(), Memory>
        ensures ok { OnOk result (flat self.new.runs.items ≡ insert (flat self.old.runs.items)
            (length (flat self.old.runs.items)) number) }
        ensures err { OnErr result (self.new.runs.items ≡ self.old.runs.items) }
    {
        self.runs.push(Run::of(self.alloc, number)?)?;
        Ok(())
    }

    /// Makes two of a full run, or for want of memory leaves all as it was.
    fn split(&mut self, run: usize) -> Result<(), Memory>
        requires there { run < length self.old.runs.items }
        requires full { length (slice_index_or self.old.runs.items run []) ≡ 512 }
        ensures ok { OnOk result (self.new.runs.items
            ≡ insert (slice_set self.old.runs.items run
            (take 256 (slice_index_or self.old.runs.items run []))) (suc run)
            (drop 256 (slice_index_or self.old.runs.items run []))) }
        ensures err { OnErr result (self.new.runs.items ≡ self.old.runs.items) }
    {
        self.runs.reserve(1)?;
        let rest = self.runs[run].split(RUN_LIMIT / 2)?;
        match self.runs.insert(run + 1, rest) {
            Ok(()) => Ok(()),
            Err(_) => unreachable!(),
        }
    }

    /// Makes room in the run of a place, and says where the place is then, or for want of memory
    /// leaves all as it was.
    fn make_room(&mut self, place: Place) -> Result<Place, Memory>
        requires place { IsPlace self.old.runs.items place.run place.index }
        requires there { place.run < length self.old.runs.items }
        ensures same { flat self.new.runs.items ≡ flat self.old.runs.items }
        ensures rank { IfOk result (λ made. rank self.new.runs.items made.run made.index
            ≡ rank self.old.runs.items place.run place.index) }
        ensures there { IfOk result (λ made. made.run < length self.new.runs.items) }
        ensures place { IfOk result (λ made. made.index
            ≤ length (slice_index_or self.new.runs.items made.run [])) }
        ensures room { IfOk result (λ made. length (slice_index_or self.new.runs.items made.run [])
            < 512) }
    {
        if self.runs[place.run].len() < RUN_LIMIT {
            return Ok(place);
        }
        self.split(place.run)?;
        if place.index <= RUN_LIMIT / 2 {
            return Ok(place);
        }
        Ok(Place {
            run: place.run + 1,
            index: place.index - RUN_LIMIT / 2,
        })
    }

    /// Puts a number at a place in a run with room, or for want of memory leaves all as it was.
    fn put(&mut self, place: Place, number: u32) -> Result<(), Memory>
        requires there { place.run < length self.old.runs.items }
        requires place { place.index ≤ length (slice_index_or self.old.runs.items place.run []) }
        requires room { length (slice_index_or self.old.runs.items place.run []) < 512 }
        ensures ok { OnOk result (flat self.new.runs.items ≡ insert (flat self.old.runs.items)
            (rank self.old.runs.items place.run place.index) number) }
        ensures err { OnErr result (flat self.new.runs.items ≡ flat self.old.runs.items) }
    {
        self.runs[place.run].insert(place.index, number)
    }

    /// Puts a number at a place, or for want of memory leaves all numbers in their order. At most a
    /// run's numbers are moved.
    pub(crate) fn insert(&mut self, place: Place, number: u32) -> Result<(), Memory>
        requires { IsPlace self.old.runs.items place.run place.index }
        ensures ok { OnOk result (flat self.new.runs.items ≡ insert (flat self.old.runs.items)
            (rank self.old.runs.items place.run place.index) number) }
        ensures err { OnErr result (flat self.new.runs.items ≡ flat self.old.runs.items) }
    {
        if self.wants_run(place) {
            return self.push(number);
        }
        let made = self.make_room(place)?;
        self.put(made, number)
    }

    /// Takes the number before a place away, which is not at the beginning of a run. It takes no
    /// memory.
    pub(crate) fn remove_before(&mut self, place: Place)
        requires place { IsPlace self.old.runs.items place.run place.index }
        requires some { 0 < place.index }
        ensures { (j : ℕ) → rank self.old.runs.items place.run place.index ≡ suc j
            → flat self.new.runs.items ≡ remove (flat self.old.runs.items) j }
    {
        if self.runs[place.run].len() == 1 {
            let _run = self.runs.remove(place.run);
        } else {
            self.runs[place.run].remove(place.index - 1);
        }
    }
}
