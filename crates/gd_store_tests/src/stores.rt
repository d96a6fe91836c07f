//! Stores.
use gd_base::datum::Datum;
use gd_base::id::Id;
use gd_base::memory::Memory;
use gd_base::steps::Steps;
use gd_prim::well_formed::BadBatch;
use gd_prim::{Batch, Primitive, Prims, What};
use gd_store::store::{Full, Store};
use gd_valueidx::values::Values;
use std::alloc::Global;

/// The run that steps are counted for.
struct Run;

/// A batch of so many objects.
pub(crate) fn objects(alloc: Global, count: usize) -> Result<Batch, Memory> {
    let mut prims = Prims::new(alloc);
    for _ in 0..count {
        prims.push(Primitive::object(5))?;
    }
    Ok(Batch { moment: 5, prims })
}

/// A batch whose first primitive is its own left.
fn own_left(alloc: Global) -> Result<Batch, Memory> {
    let mut prims = Prims::new(alloc);
    prims.push(Primitive::link(Id(70), None, Id(13), Datum::Empty, 5))?;
    Ok(Batch { moment: 5, prims })
}

/// How many primitives a copy of the store has.
fn copied_len(store: &Store) -> usize {
    match store.copy() {
        Ok(copied) => {
            let len = copied.primitives().len();
            drop(copied);
            len
        }
        Err(_) => 0,
    }
}

/// How many primitives a copy of a fresh store has.
fn fresh_copied_len(alloc: Global) -> usize {
    match Store::new(alloc) {
        Ok(store) => {
            let len = copied_len(&store);
            drop(store);
            len
        }
        Err(_) => 0,
    }
}

/// What refuses the batch in a fresh store, of limits and of rules.
fn refused(alloc: Global, batch: &Batch) -> (Option<Full>, Option<BadBatch>) {
    match Store::new(alloc) {
        Ok(store) => {
            let faults = (store.fits(batch).err(), store.check(batch).err());
            drop(store);
            faults
        }
        Err(_) => (None, None),
    }
}

/// Whether the number of `true` alone is found from `false` up to it.
fn finds_true(values: &Values) -> bool {
    let mut steps: Steps<Run> = Steps::new();
    let low = Datum::Bool(false);
    let high = Datum::Bool(true);
    match values.values_between(Some(&low), Some(&high), 1, &mut steps) {
        Ok(Some(numbers)) => match values.number_of(&high) {
            Some(number) => numbers.len() == 1 && numbers.as_slice()[0] as usize == number,
            None => false,
        },
        _ => false,
    }
}

/// The same, of the built-in list.
fn finds_true_in_a_fresh_store(alloc: Global) -> bool {
    match Store::new(alloc) {
        Ok(store) => {
            let found = finds_true(store.values());
            drop(store);
            found
        }
        Err(_) => false,
    }
}

#[test]
fn values_between_found(rt: HostRuntime) {
    assert!(rt; finds_true_in_a_fresh_store(rt.alloc()));
}

#[test]
fn store_copied(rt: HostRuntime) {
    assert!(rt; fresh_copied_len(rt.alloc()) == 70);
}

#[test]
fn long_batch_refused(rt: HostRuntime) {
    let faults = match objects(rt.alloc(), 4_097) {
        Ok(batch) => refused(rt.alloc(), &batch),
        Err(_) => (None, None),
    };
    let full = Full {
        what: What::Batch,
        count: 4_097,
    };
    let bad = BadBatch { place: Id(4_166) };
    assert!(rt; faults == (Some(full), Some(bad)));
}

#[test]
fn own_place_refused(rt: HostRuntime) {
    let faults = match own_left(rt.alloc()) {
        Ok(batch) => refused(rt.alloc(), &batch),
        Err(_) => (None, None),
    };
    let bad = BadBatch { place: Id(70) };
    assert!(rt; faults == (None, Some(bad)));
}

#[test]
fn full_printed(rt: HostRuntime) {
    let full = Full {
        what: What::Batch,
        count: 4_097,
    };
    let well = match format!(in rt.alloc(); "{full}") {
        Ok(text) => text.as_str() == "the limit of Batch does not allow 4097",
        Err(_) => false,
    };
    assert!(rt; well);
}
