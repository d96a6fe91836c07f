//! The primitives of one batch.
ghost use Rattle.std.specs.Prelude.{◌≡◌, ◌<◌, ◌≤◌, Some, length, slice_get, IsTrue};
ghost use Rattle.std.specs.List.{AllByRecursion};
ghost use Rattle.gd_prim.specs.declared.Batch.{Batch};
ghost use Rattle.gd_prim.specs.WellFormed.{may_hold};

use gd_prim::Primitive;
use gd_store::store::Store;

/// The primitives of the batch of this number, of which 0 is the first: at most 4,096, each of
/// which may hold its value. It takes no memory.
pub fn batch_prims(store: &Store, n: u32) -> &[Primitive]
    requires there { n < length store.now }
    requires small { n < 4_194_303 }
    ensures prims { (b : Batch) → slice_get store.now n ≡ Some b → result.now ≡ b.prims }
    ensures few { length result.now ≤ 4_096 }
    ensures held { AllByRecursion (λ p. IsTrue (may_hold p.value)) result.now }
{
    let prims = store.primitives();
    &prims[store.below(n).len()..store.below(n + 1).len()]
}
