//! Published copies: seats are let in.
ghost use Rattle.std.specs.Prelude.{◌≡◌, []};

use crate::stores::objects;
use gd_base::memory::Memory;
use gd_prim::Batch;
use gd_shared::{Publisher, Seat, share};
use gd_store::store::Store;
use std::alloc::Global;
use std::sync::Wait;

/// How many requests the store has that is entered from a seat.
fn entered(seat: Option<Seat>) -> Option<u32> {
    match seat?.enter() {
        Ok(entered) => {
            let requests = entered.store().requests();
            let _seat = entered.leave();
            Some(requests)
        }
        Err(_) => None,
    }
}

/// Shows one batch more, if it may follow.
fn show<R: Wait>(rt: &R, publisher: &mut Publisher, batch: Batch)
    requires { publisher.old.pending ≡ [] }
{
    let store = publisher.store();
    if store.check(&batch).is_err() || store.fits(&batch).is_err() {
        return;
    }
    let _appended = publisher.append(batch).is_ok();
    let _shown = publisher.publish(rt).is_ok();
}

/// What is entered from two seats, from one before a batch is shown and from one behind that.
fn entries<R: Wait>(
    rt: &R,
    alloc: Global,
    first: Store,
    second: Store,
    batch: Batch,
) -> Result<[Option<u32>; 2], Memory>
    requires { first ≡ second }
{
    let (mut publisher, mut seats) = share(rt, alloc, first, second, 2)?;
    let before = entered(seats.pop());
    show(rt, &mut publisher, batch);
    let behind = entered(seats.pop());
    publisher.close(rt);
    Ok([before, behind])
}

/// The same, over two fresh stores.
fn fresh_entries<R: Wait>(rt: &R, alloc: Global) -> Result<[Option<u32>; 2], Memory> {
    let batch = objects(alloc, 1)?;
    let first = Store::new(alloc)?;
    match Store::new(alloc) {
        Ok(second) => entries(rt, alloc, first, second, batch),
        Err(refused) => {
            drop(first);
            Err(refused)
        }
    }
}

#[test]
fn seat_enters(rt: HostRuntime) {
    let well = match fresh_entries(&rt, rt.alloc()) {
        Ok(entered) => entered == [Some(0), Some(1)],
        Err(_) => false,
    };
    assert!(rt; well);
}
