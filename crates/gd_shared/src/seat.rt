//! Seats, from which readers enter what is published. No call waits or takes memory.
ghost use Rattle.std.specs.Prelude.{◌≡◌, ◌<◌, Some, length, max, MatchResult, MatchBool};
ghost use mathlib.Core.List.{IsPrefix};
ghost use Rattle.left_right.specs.Sides.{view as known};
ghost use Rattle.gd_shared.specs.Shared.{one_more, longer};

use crate::front::Front;
use crate::published::{KnowsFronts, Published, TakesPublished};
use crate::publisher::Receipt;
use gd_store::store::Store;
use left_right::reader::{Reader, Reading};
use std::marker::Model;

/// A place from which one reader at a time enters the published store. Contracts see the list that
/// it entered last, the list that it was told of, and how often it was turned away.
#[derive(Drop)]
pub struct Seat {
    reader: Reader<Published, Option<Front>, KnowsFronts>,
    entered: Front,
    told: Front,
    turned_away: u64,
}

impl Model for Seat {
    ghost use Rattle.left_right.specs.Sides.{view as known};
    ghost use Rattle.gd_shared.specs.Shared.{SeatValue};
    ghost use Rattle.gd_shared.specs.Published.{IsSeated};

    ghost Value = { SeatValue };

    ghost view = { λ seat. record {
      history = seat.entered.history;
      entered = seat.entered.list;
      told = seat.told.list;
      turned_away = seat.turned_away;
    } };

    ghost invariant = { λ seat. IsSeated (known seat.reader.place) seat.entered seat.told };
}

/// A seat whose reader is in: the store stays as it is until the reader leaves, which `leave` alone
/// does.
pub struct Entered {
    reading: Reading<Published, Option<Front>, KnowsFronts>,
    turned_away: u64,
}

impl Model for Entered {
    ghost use Rattle.std.specs.Prelude.{◌≡◌, Some};
    ghost use Rattle.left_right.specs.Sides.{view as known};
    ghost use Rattle.gd_shared.specs.Shared.{EnteredValue};

    ghost Value = { EnteredValue };

    ghost view = { λ entered. let copy = entered.reading.part.value
        in record {
          history = copy.front.history;
          list = copy.store;
          turned_away = entered.turned_away;
        } };

    ghost invariant = { λ entered. let copy = entered.reading.part.value
        in (copy.front.list ≡ copy.store) × (known entered.reading.place ≡ Some copy.front) };
}

impl Seat {
    /// A seat of a reader that knows this front.
    pub(crate) fn new(reader: Reader<Published, Option<Front>, KnowsFronts>, front: Front) -> Seat
        requires { known reader.place ≡ Some front }
        ensures { result ≡ record {
          history = front.history;
          entered = front.list;
          told = front.list;
          turned_away = 0;
        } }
    {
        Seat {
            reader,
            entered: front.copy(),
            told: front,
            turned_away: 0,
        }
    }

    /// The number of requests of the longest list that it entered or was told of.
    pub fn seen(&self) -> u32
        ensures { result ≡ max (length self.now.entered) (length self.now.told) }
    {
        self.entered.requests().max(self.told.requests())
    }

    /// How often an entry was refused.
    pub fn turned_away(&self) -> u64
        ensures { result ≡ self.now.turned_away }
    {
        self.turned_away
    }

    /// Enters the store that is published, which begins with all that the seat has seen. A refused
    /// entry gives the seat back as it was, and counts.
    pub fn enter(self) -> Result<Entered, Seat>
        ensures { MatchResult result
            (λ entered. (entered.history ≡ self.history) × (entered.turned_away ≡ self.turned_away)
            × IsPrefix self.entered entered.list × IsPrefix self.told entered.list)
            (λ seat. seat ≡ record self { turned_away = one_more self.turned_away }) }
    {
        let Seat {
            reader,
            entered,
            told,
            turned_away,
        } = self;
        let reader = match reader.enter_as::<TakesPublished>() {
            Ok(reading) => {
                if told.begins(&reading.get().front) {
                    return Ok(Entered {
                        reading,
                        turned_away,
                    });
                }
                reading.leave()
            }
            Err(reader) => reader,
        };
        Err(Seat {
            reader,
            entered,
            told,
            turned_away: turned_away.saturating_add(1),
        })
    }

    /// Learns that a list was published. The receipt is of the seat's table.
    pub fn learn(&mut self, receipt: Receipt)
        requires table { receipt.history ≡ self.old.history }
        ensures told { self.new ≡ record self.old { told = longer self.old.told receipt.list } }
        ensures begun { IsPrefix self.old.told self.new.told × IsPrefix receipt.list self.new.told }
    {
        let Receipt { front } = receipt;
        if self.told.begins(&front) {
            self.told = front;
        }
    }

    /// Whether the list of a receipt begins with all that the seat has seen. If not, it is shorter
    /// than that.
    pub fn has_only(&self, receipt: &Receipt) -> bool
        requires table { receipt.now.history ≡ self.now.history }
        ensures { MatchBool result (IsPrefix self.now.entered receipt.now.list
            × IsPrefix self.now.told receipt.now.list)
            (length receipt.now.list < max (length self.now.entered) (length self.now.told)) }
    {
        self.entered.begins(&receipt.front) && self.told.begins(&receipt.front)
    }
}

impl Entered {
    /// The store that was entered.
    pub fn store(&self) -> &Store
        ensures { result.now ≡ self.now.list }
    {
        &self.reading.get().store
    }

    /// Leaves the store. The seat has seen what was entered, which began with what it was told of.
    pub fn leave(self) -> Seat
        ensures { result ≡ record {
          history = self.history;
          entered = self.list;
          told = self.list;
          turned_away = self.turned_away;
        } }
    {
        let Entered {
            reading,
            turned_away,
        } = self;
        let front = reading.get().front.copy();
        let reader = reading.leave();
        Seat {
            reader,
            entered: front.copy(),
            told: front,
            turned_away,
        }
    }
}
