//! Publishing two copies of a store.
ghost use Rattle.std.specs.Prelude.{◌≡◌, ◌<◌, [], None, IfOk, All, vec_len, drop};
ghost use Rattle.left_right.specs.Sides.{view as known};
ghost use Rattle.gd_shared.specs.History.{counter_of};
ghost use Rattle.gd_shared.specs.Shared.{IsNewSeat};

use crate::front::{Counter, Front, WholeStore};
use crate::published::{Published, TakesPublished};
use crate::publisher::{Copies, Publisher};
use crate::seat::Seat;
use gd_base::memory::Memory;
use gd_store::store::Store;
use left_right::writer::Writer;
use std::alloc::Global;
use std::sync::Wait;

/// A new history whose one group is the list of a store: the word that counts its groups, and the
/// front that is this list.
fn history_of(store: &Store) -> Result<(Counter, Front), Memory>
    ensures counter { IfOk result (λ both. both.0 ≡ counter_of both.1.history) }
    ensures list { IfOk result (λ both. both.1.list ≡ store.now) }
{
    let (counter, mut front) = Front::of_new_history();
    match front.extend::<Store, WholeStore>(&counter, store, store.requests()) {
        Ok(()) => Ok((counter, front)),
        Err(fault) => Err(fault),
    }
}

/// A table of two copies that stand for one list, with room for so many seats. The first one is
/// published, and no place knows a front of it.
fn table(
    alloc: Global,
    first: Store,
    second: Store,
    front: &Front,
    seats: u32,
) -> Result<Copies, Memory>
    requires alike { first ≡ second }
    requires some { 0 < seats }
    requires front { front.now.list ≡ first }
    ensures shown { IfOk result (λ copies. copies.desk.shown.value
        ≡ record { store = first; front = front.now }) }
    ensures none { IfOk result (λ copies. drop copies.behind copies.log.items ≡ []) }
    ensures knows { IfOk result (λ copies. known copies.desk.place ≡ None) }
{
    let first = Published {
        store: first,
        front: front.copy(),
    };
    let second = Published {
        store: second,
        front: front.copy(),
    };
    match Writer::new(alloc, first, second, seats as usize) {
        Ok(copies) => Ok(copies),
        Err(_) => Err(Memory),
    }
}

/// A publisher of two stores that stand for one list, with room for so many seats.
fn published<R: Wait>(
    rt: &R,
    alloc: Global,
    first: Store,
    second: Store,
    seats: u32,
) -> Result<Publisher, Memory>
    requires alike { first ≡ second }
    requires some { 0 < seats }
    ensures { IfOk result (λ publisher. (publisher.shown ≡ first) × (publisher.pending ≡ [])) }
{
    let total = first.requests();
    let (counter, front) = match history_of(&first) {
        Ok(both) => both,
        Err(fault) => {
            drop(first);
            drop(second);
            return Err(fault);
        }
    };
    let copies = table(alloc, first, second, &front, seats)?;
    let (copies, shown) = copies.publish_as::<TakesPublished, R>(rt);
    match shown {
        Ok(()) => Ok(Publisher::new(copies, counter, front, total)),
        Err(_) => {
            drop(copies.take(rt));
            Err(Memory)
        }
    }
}

/// So many new seats.
fn new_seats(alloc: Global, publisher: &mut Publisher, seats: u32) -> Result<Vec<Seat>, Memory>
    ensures stays { publisher.new ≡ publisher.old }
    ensures count { IfOk result (λ made. vec_len made ≡ seats) }
    ensures new { IfOk result (λ made. All (IsNewSeat publisher.old.history publisher.old.shown)
        made.items) }
{
    let mut made = Vec::new(alloc);
    for _ in 0..seats {
        made.push(publisher.seat()?)?;
    }
    Ok(made)
}

/// Publishes two stores that stand for one list, and makes so many seats, from which it is read.
/// `Memory`: an allocation was refused. It waits for nobody, since there is no reader yet.
pub fn share<R: Wait>(
    rt: &R,
    alloc: Global,
    first: Store,
    second: Store,
    seats: u32,
) -> Result<(Publisher, Vec<Seat>), Memory>
    requires alike { first ≡ second }
    requires some { 0 < seats }
    ensures publisher { IfOk result (λ both. (both.0.shown ≡ first) × (both.0.pending ≡ [])) }
    ensures seats { IfOk result (λ both. (vec_len both.1 ≡ seats)
        × All (IsNewSeat both.0.history first) both.1.items) }
{
    let mut publisher = published(rt, alloc, first, second, seats)?;
    match new_seats(alloc, &mut publisher, seats) {
        Ok(made) => Ok((publisher, made)),
        Err(fault) => {
            publisher.close(rt);
            Err(fault)
        }
    }
}
