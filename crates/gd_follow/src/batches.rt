//! The batches of a store, one by one.
ghost use Rattle.std.specs.Prelude.{◌≡◌, ◌<◌, ◌≤◌, Some, length, slice_get, IfOk};
ghost use Rattle.gd_prim.specs.declared.Batch.{Batch};

use gd_base::memory::Memory;
use gd_prim::{Batch, Primitive, Prims};
use gd_store::store::Store;
use std::alloc::Global;

/// The primitives of the n-th batch.
pub(crate) fn batch_prims(store: &Store, n: u32) -> &[Primitive]
    requires there { n < length store.now }
    requires small { n < 4_194_303 }
    ensures prims { (b : Batch) → slice_get store.now n ≡ Some b → result.now ≡ b.prims }
    ensures few { length result.now ≤ 4_096 }
{
    let prims = store.primitives();
    &prims[store.below(n).len()..store.below(n + 1).len()]
}

/// The same primitives again.
fn copies(alloc: Global, prims: &[Primitive]) -> Result<Prims, Memory>
    ensures { IfOk result (λ made. made ≡ prims.now) }
{
    let mut made = Vec::new(alloc);
    for prim in prims {
        made.push(prim.copy()?)?;
    }
    Ok(Prims::from(made))
}

/// The n-th batch.
pub(crate) fn batch_at(alloc: Global, store: &Store, n: u32) -> Result<Batch, Memory>
    requires there { n < length store.now }
    requires small { n < 4_194_303 }
    ensures { IfOk result (λ batch. slice_get store.now n ≡ Some batch) }
{
    Ok(Batch {
        moment: store.request_moment(n),
        prims: copies(alloc, batch_prims(store, n))?,
    })
}

/// The same batches again.
pub(crate) fn copies_of(alloc: Global, batches: &[Batch]) -> Result<Vec<Batch>, Memory>
    ensures { IfOk result (λ made. made.items ≡ batches.now) }
{
    let mut made = Vec::new(alloc);
    for batch in batches {
        made.push(batch.copy()?)?;
    }
    Ok(made)
}
