//! Ids that were found.
ghost use Rattle.std.specs.Prelude.{◌≡◌, ◌+◌, ◌≤◌, ℕ, IsNone, List, OnOk};
ghost use Rattle.std.specs.Option.{option_copied};
ghost use Rattle.gd_prim.specs.declared.Primitive.{Primitive};
ghost use Rattle.gd_frozen.specs.Meaning.{walk_of};
ghost use Rattle.gd_order_laws.specs.Window.{In};
ghost use Rattle.gd_shape.specs.Knowing.{known_at, unknown_of, IsKnownOf, TellsId};

use gd_base::id::Id;
use gd_base::memory::Memory;
use gd_frozen::frozen::Walk;
use std::alloc::Global;
use std::collections::BTreeMap;
use std::marker::Model;

/// What is known of objects: the walks that tell their ids. Contracts see the objects with these.
#[derive(Drop)]
pub struct Known {
    walks: BTreeMap<Id, Walk>,
}

impl Model for Known {
    ghost use Rattle.std.specs.Prelude.{ℕ, List};
    ghost use Rattle.gd_frozen.specs.declared.frozen.Walk as declared;

    ghost Value = { List (ℕ × declared.Walk) };

    ghost view = { λ known. known.walks.entries };
}

impl Known {
    /// Nothing is known. It takes no memory.
    pub fn new(alloc: Global) -> Known
        ensures { (prims : List Primitive) → IsKnownOf prims result }
    {
        Known {
            walks: BTreeMap::new(alloc),
        }
    }

    /// The walk that tells the id of an object, if it is known. It takes no memory.
    pub fn at(&self, object: Id) -> Option<&Walk>
        ensures { option_copied result ≡ known_at self.now object }
    {
        self.walks.get(&object)
    }

    /// Keeps the walk that tells the id of an object. `Memory`: what is known stays.
    pub fn learn(&mut self, object: Id, walk: Walk) -> Result<(), Memory>
        ensures known { (prims : List Primitive) → IsKnownOf prims self.old
            → TellsId prims object (walk_of walk) → IsKnownOf prims self.new }
        ensures due { OnOk result ((os : List ℕ) → In object os → IsNone (known_at self.old object)
            → unknown_of self.new os + 1 ≤ unknown_of self.old os) }
    {
        match self.walks.insert(object, walk) {
            Ok(_) => Ok(()),
            Err(_) => Err(Memory),
        }
    }
}
