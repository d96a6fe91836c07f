//! Whether batches are the same.
ghost use Rattle.std.specs.Prelude.{◌≡◌, ◌↔◌, ◌<◌, ◌≤◌, Some, length, slice_get};
ghost use Rattle.std.specs.Prelude.{IsTrue, MatchOption};
ghost use Rattle.gd_prim.specs.declared.Batch.{Batch};
ghost use Rattle.gd_follow_laws.specs.Given.{Agrees, IsForkAt};

use crate::batches::batch_prims;
use gd_base::id::Id;
use gd_base::text::Text;
use gd_prim::{Batch, Primitive};
use gd_store::store::Store;

/// Whether two references are the same.
fn same_reference(a: Option<Id>, b: Option<Id>) -> bool
    ensures { IsTrue result ↔ (a ≡ b) }
{
    a == b
}

/// Whether two names are the same.
fn same_name(a: &Option<Text>, b: &Option<Text>) -> bool
    ensures { IsTrue result ↔ (a.now ≡ b.now) }
{
    match (a, b) {
        (Some(a), Some(b)) => a == b,
        (None, None) => true,
        _ => false,
    }
}

/// Whether two primitives have the same ends and scope.
fn same_ends(a: &Primitive, b: &Primitive) -> bool
    ensures { IsTrue result ↔ ((a.now.left ≡ b.now.left) × (a.now.right ≡ b.now.right)
        × (a.now.typ ≡ b.now.typ) × (a.now.scope ≡ b.now.scope)) }
{
    same_reference(a.left, b.left)
        && same_reference(a.right, b.right)
        && same_reference(a.typ, b.typ)
        && same_reference(a.scope, b.scope)
}

/// Whether two primitives are the same.
fn same_prim(a: &Primitive, b: &Primitive) -> bool
    ensures { IsTrue result ↔ (a.now ≡ b.now) }
{
    same_ends(a, b)
        && a.value.is(&b.value)
        && same_name(&a.name, &b.name)
        && same_reference(a.previous, b.previous)
        && same_reference(a.lang, b.lang)
        && a.live == b.live
        && a.moment == b.moment
}

/// Whether two lists of primitives are the same.
fn same_prims(a: &[Primitive], b: &[Primitive]) -> bool
    ensures { IsTrue result ↔ (a.now ≡ b.now) }
{
    if a.len() != b.len() {
        return false;
    }
    for (place, prim) in a.iter().enumerate() {
        if !same_prim(prim, &b[place]) {
            return false;
        }
    }
    true
}

/// Whether the n-th batch of the store is this one.
fn same_batch(store: &Store, n: u32, batch: &Batch) -> bool
    requires there { n < length store.now }
    requires small { n < 4_194_303 }
    ensures { (b : Batch) → slice_get store.now n ≡ Some b → IsTrue result ↔ (b ≡ batch.now) }
{
    store.request_moment(n) == batch.moment
        && same_prims(batch_prims(store, n), batch.prims.as_slice())
}

/// The first number from `from` on at which the store and the group hold different batches.
pub(crate) fn fork_at(store: &Store, from: u32, group: &[Batch]) -> Option<u32>
    requires { from ≤ length store.now }
    ensures { MatchOption result (Agrees store.now from group.now)
        (IsForkAt store.now from group.now) }
{
    let entries = store.requests();
    for (place, batch) in group.iter().enumerate() {
        if place >= (entries - from) as usize {
            return None;
        }
        let n = from + place as u32;
        if !same_batch(store, n, batch) {
            return Some(n);
        }
    }
    None
}
