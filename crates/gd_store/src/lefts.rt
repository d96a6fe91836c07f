//! How far the left ends of links come, by what the links name or say, as long as they rise.
ghost use Rattle.std.specs.Prelude.{◌≡◌, ℕ, ◌+◌, ◌^◌, ◌<◌, ◌≤◌, [], Some, true, length, take, List, OnOk};
ghost use Rattle.std.specs.Prelude.{OnErr, IfOk};
ghost use Rattle.std.specs.Option.{ForSome};
ghost use Rattle.gd_prim.specs.declared.Primitive.{Primitive};
ghost use Rattle.gd_prim.specs.End.{places_with};
ghost use Rattle.gd_lists.specs.Entries.{is_of};
ghost use Rattle.gd_store.specs.Lefts.{front_behind, front_of, front_with, no_front, AreLefts};
ghost use Rattle.gd_store.specs.Lefts.{LeftsRise};
ghost use Rattle.gd_store.specs.Valued.{places_of_number, AreValues};

use gd_base::id::Id;
use gd_base::memory::Memory;
use gd_prim::{End, Primitive};
use gd_valueidx::values::Values;
use std::alloc::Global;
use std::marker::Model;

/// The front where none is known.
const NO_FRONT: u32 = u32::MAX;

/// By number a front: a left end above which there is none, or `NO_FRONT`.
#[derive(Drop)]
pub(crate) struct Fronts {
    numbers: Vec<u32>,
}

impl Model for Fronts {
    ghost use Rattle.std.specs.Prelude.{List, ℕ};

    ghost Value = { List ℕ };

    ghost view = { λ fronts. fronts.numbers.items };
}

/// How far the left ends come, as long as they rise, of the primitives that have a node at their
/// right ends, a node as their type, and a value, by its number.
#[derive(Drop)]
pub(crate) struct Lefts {
    right: Fronts,
    typ: Fronts,
    value: Fronts,
}

/// The front behind one left end more.
fn behind(front: u32, left: Id) -> u32
    ensures { result ≡ front_behind front left }
{
    if front <= left.place() {
        left.place()
    } else {
        NO_FRONT
    }
}

/// Adds fronts behind which nothing was seen, until there are so many.
fn lengthen(numbers: &mut Vec<u32>, len: usize) -> Result<(), Memory>
    ensures there { OnOk result (len ≤ length numbers.new.items) }
    ensures same { (n : ℕ) → front_of numbers.new.items n ≡ front_of numbers.old.items n }
{
    for _number in numbers.len()..len {
        numbers.push(0)?;
    }
    Ok(())
}

impl Fronts {
    fn new(alloc: Global) -> Fronts
        ensures { result ≡ [] }
    {
        Fronts {
            numbers: Vec::new(alloc),
        }
    }

    /// The same fronts again.
    fn copy(&self, alloc: Global) -> Result<Fronts, Memory>
        ensures { IfOk result (λ copy. copy ≡ self.now) }
    {
        Ok(Fronts {
            numbers: self.numbers.to_vec(alloc)?,
        })
    }

    /// Whether the front with this number is known.
    fn has(&self, number: usize) -> bool
        ensures { result ≡ true → front_of self.now number < no_front }
    {
        match self.numbers.get(number) {
            Some(front) => *front < NO_FRONT,
            None => true,
        }
    }

    /// Sees a left end.
    fn see(&mut self, number: usize, left: Id) -> Result<(), Memory>
        requires { number < 2 ^ 32 }
        ensures ok { OnOk result ((n : ℕ) → front_of self.new n
            ≡ front_with (is_of (Some number) n) (Some left) (front_of self.old n)) }
        ensures err { OnErr result ((n : ℕ) → front_of self.new n ≡ front_of self.old n) }
    {
        lengthen(&mut self.numbers, number + 1)?;
        self.numbers[number] = behind(self.numbers[number], left);
        Ok(())
    }

    /// Sees a primitive of a number, if it is of one, with its left end, if it has one.
    fn enter(&mut self, number: Option<usize>, left: Option<Id>) -> Result<(), Memory>
        requires { ForSome number (λ n. n < 2 ^ 32) }
        ensures ok { OnOk result ((n : ℕ) → front_of self.new n
            ≡ front_with (is_of number n) left (front_of self.old n)) }
        ensures err { OnErr result ((n : ℕ) → front_of self.new n ≡ front_of self.old n) }
    {
        match (number, left) {
            (Some(number), Some(left)) => self.see(number, left),
            _ => Ok(()),
        }
    }
}

/// The number of a node is its place.
fn number_of(node: Option<Id>) -> Option<usize>
    ensures same { result ≡ node }
    ensures small { ForSome result (λ n. n < 2 ^ 32) }
{
    match node {
        Some(node) => Some(node.place() as usize),
        None => None,
    }
}

impl Lefts {
    /// Of no primitives. It takes no memory.
    pub(crate) fn new(alloc: Global) -> Lefts
        ensures { AreLefts result [] }
    {
        Lefts {
            right: Fronts::new(alloc),
            typ: Fronts::new(alloc),
            value: Fronts::new(alloc),
        }
    }

    /// The same fronts again.
    pub(crate) fn copy(&self, alloc: Global) -> Result<Lefts, Memory>
        ensures { IfOk result (λ copy. copy ≡ self.now) }
    {
        Ok(Lefts {
            right: self.right.copy(alloc)?,
            typ: self.typ.copy(alloc)?,
            value: self.value.copy(alloc)?,
        })
    }

    /// Sees the primitive at a place, the last of those of which these are the values. What is
    /// known of those before it stays true of these alone, also for want of memory.
    pub(crate) fn enter(
        &mut self,
        values: &Values,
        prims: &[Primitive],
        place: usize,
    ) -> Result<(), Memory>
        requires there { place < length prims.now }
        requires few { length prims.now ≤ 2_097_151 }
        requires values { AreValues values.now (take (place + 1) prims.now) }
        requires before { AreLefts self.old (take place prims.now) }
        ensures ok { OnOk result (AreLefts self.new (take (place + 1) prims.now)) }
        ensures kept { AreLefts self.new (take place prims.now) }
    {
        let prim = &prims[place];
        self.right.enter(number_of(prim.right), prim.left)?;
        self.typ.enter(number_of(prim.typ), prim.left)?;
        let number = values.number_of(&prim.value);
        self.value.enter(number, prim.left)?;
        Ok(())
    }

    /// Whether it is known that the left ends of the primitives with this node at the end rise. False
    /// says nothing.
    pub(crate) fn rise_at(&self, end: End, node: Id) -> bool
        ensures { result ≡ true → (prims : List Primitive) → AreLefts self.now prims
            → LeftsRise prims (places_with end node prims) }
    {
        match end {
            End::Right => self.right.has(node.place() as usize),
            End::Typ => self.typ.has(node.place() as usize),
            End::Left | End::Scope => false,
        }
    }

    /// Whether it is known that the left ends of the primitives that have the value with this number
    /// rise. False says nothing.
    pub(crate) fn rise_of(&self, number: u32) -> bool
        ensures { result ≡ true → (prims : List Primitive) → AreLefts self.now prims
            → LeftsRise prims (places_of_number number prims) }
    {
        self.value.has(number as usize)
    }
}
