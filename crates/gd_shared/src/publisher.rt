//! The publisher: what is pending, what is shown, and receipts of what was shown.
ghost use Rattle.std.specs.Prelude.{◌≡◌, ◌↔◌, ◌++◌, ◌∷◌, [], length, drop, Some, MatchResult};
ghost use Rattle.std.specs.Prelude.{IfOk, IsTrue};
ghost use Rattle.std.specs.Mem.{manually_drop_value};
ghost use Rattle.left_right.specs.Sides.{view as known};
ghost use Rattle.gd_shared.specs.Shared.{MayFollow};
ghost use Rattle.gd_shared.specs.Published.{IsPublisher, added};

use crate::front::{Counter, Front, Group};
use crate::published::{KnowsFronts, LearnsAll, Op, Published, TakesPublished, TellsAll};
use crate::seat::Seat;
use core::mem::replace_with;
use gd_base::memory::Memory;
use gd_prim::Batch;
use gd_store::store::Store;
use left_right::writer::Writer;
use logbook::Plain;
use std::marker::Model;
use std::mem::ManuallyDrop;
use std::sync::Wait;

pub(crate) type Copies = Writer<Published, Op, Option<Front>, KnowsFronts>;

/// The one writer of the published copies. It is ended by `close` alone. Contracts see the list
/// that is shown, the batches that are pending behind it, and the list of the history so far.
pub struct Publisher {
    // A lock round it does not know how the copies are dropped: `close` takes them out.
    copies: ManuallyDrop<Copies>,
    counter: Counter,
    // What is shown, and what of the pending batches an earlier publishing has put into the
    // history.
    front: Front,
    // How many batches are shown or pending.
    total: u32,
}

impl Model for Publisher {
    ghost use Rattle.std.specs.Prelude.{drop};
    ghost use Rattle.std.specs.Mem.{manually_drop_value};
    ghost use Rattle.left_right.specs.Sides.{view as known};
    ghost use Rattle.gd_shared.specs.Shared.{PublisherValue};
    ghost use Rattle.gd_shared.specs.Published.{IsPublisher, added};

    ghost Value = { PublisherValue };

    ghost view = { λ publisher. let copies = manually_drop_value publisher.copies in record {
      history = publisher.front.history;
      shown = copies.desk.shown.value.store;
      pending = added (drop copies.behind copies.log.items);
      recorded = publisher.front.list;
    } };

    ghost invariant = { λ publisher. let copies = manually_drop_value publisher.copies in
        IsPublisher copies.desk.shown.value (known copies.desk.place)
        (drop copies.behind copies.log.items) publisher.counter publisher.front publisher.total };
}

/// What a publishing puts into the history: what is pending and not in it yet.
struct Unrecorded;

impl Plain<Publisher, Group, u64> for Unrecorded {
    ghost use Rattle.std.specs.Prelude.{◌++◌, length, drop, None};

    ghost ask = { λ publisher. drop (length publisher.recorded)
        (publisher.shown ++ publisher.pending) };

    ghost state = { λ publisher. None };
}

/// A token that a list was published. Only `tell` makes one, and it is learnt once.
#[derive(Drop)]
pub struct Receipt {
    pub(crate) front: Front,
}

impl Model for Receipt {
    ghost use Rattle.gd_shared.specs.History.{FrontValue};

    ghost Value = { FrontValue };

    ghost view = { λ receipt. receipt.front };
}

impl Receipt {
    /// How many requests the list has.
    pub fn dateline(&self) -> u32
        ensures { result ≡ length self.now.list }
    {
        self.front.requests()
    }
}

/// Shows what is pending, whose list together with what was shown is this front.
fn turn<R: Wait>(mut copies: Copies, rt: &R, front: Front) -> (Copies, Result<(), Memory>)
    requires shown { copies.desk.shown.value.front.list ≡ copies.desk.shown.value.store }
    requires history { front.history ≡ copies.desk.shown.value.front.history }
    requires all { front.list ≡ copies.desk.shown.value.store ++ added
        (drop copies.behind copies.log.items) }
    ensures { let after = result.0 in MatchResult result.1
        (λ _. (after.desk.shown.value ≡ record { store = front.list; front = front })
        × (drop after.behind after.log.items ≡ []) × (known after.desk.place ≡ Some front))
        (λ _. (after.desk.shown.value ≡ copies.desk.shown.value)
        × (added (drop after.behind after.log.items) ≡ added (drop copies.behind copies.log.items))
        × (known after.desk.place ≡ known copies.desk.place)) }
{
    if copies.append(Op::Close(front)).is_err() {
        return (copies, Err(Memory));
    }
    let (copies, shown) = copies.publish_as::<TakesPublished, R>(rt);
    match shown {
        Ok(()) => (copies, Ok(())),
        Err(_) => (copies, Err(Memory)),
    }
}

/// The publisher with all that is pending shown, or with nothing changed but the history.
fn show<R: Wait>(publisher: Publisher, rt: &R) -> (Publisher, Result<(), Memory>)
    ensures history { result.0.history ≡ publisher.history }
    ensures shown { MatchResult result.1
        (λ _. (result.0.shown ≡ publisher.shown ++ publisher.pending) × (result.0.pending ≡ []))
        (λ _. (result.0.shown ≡ publisher.shown) × (result.0.pending ≡ publisher.pending)) }
{
    let mut front = publisher.front.copy();
    let more = publisher.total - front.requests();
    match front.extend::<Publisher, Unrecorded>(&publisher.counter, &publisher, more) {
        Ok(()) => {}
        Err(fault) => return (publisher, Err(fault)),
    }
    let Publisher {
        copies,
        counter,
        front: _,
        total,
    } = publisher;
    let copies = ManuallyDrop::into_inner(copies);
    let (copies, shown) = turn(copies, rt, front.copy());
    let copies = unsafe { ManuallyDrop::new_unchecked(copies) };
    let publisher = Publisher {
        copies,
        counter,
        front,
        total,
    };
    match shown {
        Ok(()) => (publisher, Ok(())),
        Err(fault) => (publisher, Err(fault)),
    }
}

impl Publisher {
    /// A publisher of these copies.
    pub(crate) fn new(copies: Copies, counter: Counter, front: Front, total: u32) -> Publisher
        requires { IsPublisher copies.desk.shown.value (known copies.desk.place)
            (drop copies.behind copies.log.items) counter front total }
        ensures { result ≡ record {
          history = front.history;
          shown = copies.desk.shown.value.store;
          pending = added (drop copies.behind copies.log.items);
          recorded = front.list;
        } }
    {
        let copies = unsafe { ManuallyDrop::new_unchecked(copies) };
        Publisher {
            copies,
            counter,
            front,
            total,
        }
    }

    /// Puts a batch behind those that are pending; it is not shown before the next publishing. Want
    /// of memory hands it back.
    pub fn append(&mut self, batch: Batch) -> Result<(), Batch>
        requires follows { MayFollow (self.old.shown ++ self.old.pending) batch }
        ensures pending { MatchResult result
            (λ _. self.new.pending ≡ self.old.pending ++ batch ∷ [])
            (λ back. (back ≡ batch) × (self.new.pending ≡ self.old.pending)) }
        ensures stays { self.new ≡ record self.old { pending = self.new.pending } }
    {
        match self.copies.append(Op::Add(batch)) {
            Ok(()) => {
                self.total += 1;
                Ok(())
            }
            Err(Op::Add(batch)) => Err(batch),
            Err(Op::Close(_)) => unreachable!(),
        }
    }

    /// Shows all that is pending at once, and says how many requests are shown then. It waits for
    /// readers. `Memory`: nothing more is shown, and all that was pending still is.
    pub fn publish<R: Wait>(&mut self, rt: &R) -> Result<u32, Memory>
        ensures history { self.new.history ≡ self.old.history }
        ensures shown { MatchResult result
            (λ requests. (self.new.shown ≡ self.old.shown ++ self.old.pending)
            × (self.new.pending ≡ []) × (requests ≡ length self.new.shown))
            (λ _. (self.new.shown ≡ self.old.shown) × (self.new.pending ≡ self.old.pending)) }
    {
        replace_with(self, rt, show::<R>)?;
        Ok(self.store().requests())
    }

    /// Whether nothing is pending, so that publishing would change nothing.
    pub fn is_shown(&self) -> bool
        ensures { IsTrue result ↔ (self.now.pending ≡ []) }
    {
        self.store().requests() == self.total
    }

    /// The store that is shown.
    pub fn store(&self) -> &Store
        ensures { result.now ≡ self.now.shown }
    {
        &self.copies.published().store
    }

    /// A receipt of what is shown.
    pub fn tell(&self) -> Receipt
        ensures { result ≡ record { history = self.now.history; list = self.now.shown } }
    {
        Receipt {
            front: self.copies.published().front.copy(),
        }
    }

    /// A new seat at the table, which has seen what is shown.
    pub(crate) fn seat(&mut self) -> Result<Seat, Memory>
        ensures stays { self.new ≡ self.old }
        ensures seat { IfOk result (λ seat. seat
            ≡ record {
              history = self.old.history;
              entered = self.old.shown;
              told = self.old.shown;
              turned_away = 0;
            }) }
    {
        let mut reader = self.copies.factory().reader()?;
        reader.learn::<LearnsAll>(self.copies.tell::<TellsAll>());
        Ok(Seat::new(reader, self.copies.published().front.copy()))
    }

    /// Ends the copies. It waits for readers.
    pub fn close<R: Wait>(self, rt: &R) {
        let Publisher {
            copies,
            counter: _,
            front: _,
            total: _,
        } = self;
        ManuallyDrop::into_inner(copies).take(rt);
    }
}
