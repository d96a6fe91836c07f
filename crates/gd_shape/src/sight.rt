//! What is at hand while a page is printed.
ghost use Rattle.std.specs.Prelude.{◌≡◌, ◌≤◌, [], ◌∷◌, IfErr, IfOk, IfSome, IsTrue, slice_get};
ghost use Rattle.std.specs.Option.{option_copied};
ghost use Rattle.gd_prim.specs.History.{prims_of};
ghost use Rattle.gd_prim.specs.WellFormed.{may_hold};
ghost use Rattle.gd_frozen.specs.Meaning.{walk_of};
ghost use Rattle.gd_shape.specs.Knowing.{IsKnownOf, TellsId};
ghost use Rattle.gd_shape.specs.Outcome.{Lacks, LacksOf};
ghost use Rattle.gd_shape.specs.declared.sight.Lack.TheVariants.{Memory as no_memory};

use crate::known::Known;
use gd_base::id::Id;
use gd_base::memory::Memory;
use gd_frozen::frozen::Walk;
use gd_prim::Primitive;
use gd_trees::View;
use std::alloc::{AllocError, AllocFailed};
use std::marker::Model;

/// Why something is not printed yet.
#[derive(Clone, Copy, Debug, PartialEq, Eq)]
pub enum Lack {
    /// The id of this object is not known.
    IdOf(Id),
    /// An allocation was refused.
    Memory,
}

impl From<Memory> for Lack {
    ghost from_gives = { λ _ lack. lack ≡ no_memory };

    fn from(_refused: Memory) -> Lack {
        Lack::Memory
    }
}

impl From<AllocError> for Lack {
    ghost from_gives = { λ _ lack. lack ≡ no_memory };

    fn from(_refused: AllocError) -> Lack {
        Lack::Memory
    }
}

impl<T: Drop> From<AllocFailed<T>> for Lack {
    ghost from_gives = { λ _ lack. lack ≡ no_memory };

    fn from(_refused: AllocFailed<T>) -> Lack {
        Lack::Memory
    }
}

/// A view, whose primitives are read as they stand. Contracts see its list.
#[derive(Drop)]
pub struct Sight<'a> {
    view: &'a View<'a>,
}

impl<'a> Model for Sight<'a> {
    ghost use Rattle.std.specs.Prelude.{List};
    ghost use Rattle.gd_prim.specs.History.{prims_of, AreHeld, AreTimed};
    ghost use Rattle.gd_prim.specs.declared.Primitive.{Primitive};

    ghost Value = { List Primitive };

    ghost view = { λ s. prims_of s.view.now };

    ghost invariant = { λ s. AreHeld (prims_of s.view.now) × AreTimed (prims_of s.view.now) };
}

impl<'a> Sight<'a> {
    /// What is seen at a view. It takes no memory.
    pub fn new(view: &'a View<'a>) -> Sight<'a>
        ensures { result ≡ prims_of view.now }
    {
        let _end = view.end();
        Sight { view }
    }

    /// The primitive at a place, if there is one. It takes no memory, and no step: the places of
    /// the trees were counted.
    pub(crate) fn prim(&self, place: Id) -> Option<&Primitive>
        ensures prim { option_copied result ≡ slice_get self.now place }
        ensures held { IfSome result (λ prim. IsTrue (may_hold prim.now.value)) }
        ensures timed { IfSome result (λ prim. prim.now.moment ≤ 253_402_300_799_999) }
    {
        self.view.primitives().get(place.place() as usize)
    }

    /// The walk that tells the id of an object, if it is among those that are known. It takes no memory.
    pub(crate) fn walk<'b>(&self, ids: &'b Known, object: Id) -> Result<&'b Walk, Lack>
        requires { IsKnownOf self.now ids.now }
        ensures tells { IfOk result (λ walk. TellsId self.now object (walk_of walk.now)) }
        ensures lacks { IfErr result (λ lack. Lacks ids.now lack) }
        ensures listed { IfErr result (λ lack. LacksOf
            (object ∷ []) lack) }
    {
        match ids.at(object) {
            Some(walk) => Ok(walk),
            None => Err(Lack::IdOf(object)),
        }
    }
}
