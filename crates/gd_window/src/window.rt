//! The first rows behind a row.
ghost use Rattle.std.specs.Prelude.{◌≡◌, ◌+◌, ◌≤◌, [], ◌∷◌, ◌++◌, List, true, length};
ghost use Rattle.std.specs.Prelude.{IfOk, OnOk, OnErr};
ghost use Rattle.gd_window.specs.declared.row.Row.{Row};
ghost use Rattle.gd_window.specs.Kept.{is_behind, HasSeen};

use crate::compare::row_order;
use crate::order::Order;
use crate::place::{place_of, put};
use crate::row::Row;
use gd_base::id::Id;
use gd_base::memory::Memory;
use std::alloc::Global;
use std::marker::Model;

/// How many rows a window has room for at first.
const FIRST_ROOM: u32 = 16;

/// The first rows behind a row, of those that were offered so far, and one more. Contracts see the
/// directions of the keys, the limit, the row behind which rows come, and the rows that are kept.
#[derive(Drop)]
pub struct Window {
    order: Order,
    limit: u32,
    after: Option<Row>,
    kept: Vec<Row>,
}

impl Model for Window {
    ghost use Rattle.std.specs.Prelude.{◌+◌, ◌≤◌, length};
    ghost use Rattle.gd_order_laws.specs.Up.{IsUp};
    ghost use Rattle.gd_window.specs.Rows.{row_cmp};
    ghost use Rattle.gd_window.specs.Kept.{Kept};

    ghost Value = { Kept };

    ghost view = { λ window. record {
      order = window.order;
      limit = window.limit;
      after = window.after;
      rows = window.kept.items;
    } };

    ghost invariant = { λ window. (length window.kept.items ≤ window.limit + 1)
        × IsUp (row_cmp window.order) window.kept.items };
}

/// Whether a row comes strictly behind another one, if there is one.
fn comes_behind(order: &Order, after: &Option<Row>, row: &Row) -> bool
    ensures { result ≡ is_behind order.now after.now row.now }
{
    match after {
        None => true,
        Some(after) => row_order(order, after, row).is_lt(),
    }
}

impl Window {
    /// A window that is to give at most `limit` rows in this order, those strictly behind `after`
    /// if there is such a row. No row was offered yet. It reserves room for few rows, however great
    /// the limit is.
    pub fn new(
        alloc: Global,
        order: Order,
        limit: u32,
        after: Option<Row>,
    ) -> Result<Window, Memory>
        ensures made { IfOk result (λ window. window
            ≡ record { order = order; limit = limit; after = after; rows = [] }) }
        ensures seen { IfOk result (λ window. HasSeen window []) }
    {
        let kept = Vec::with_capacity(alloc, limit.min(FIRST_ROOM) as usize)?;
        Ok(Window {
            order,
            limit,
            after,
            kept,
        })
    }

    /// Offers a row. Rows may be offered in any order; of rows that tie each counts, and the one
    /// that was offered first comes first. At most one row more than the limit is kept. `Memory`
    /// leaves the window as it was, so the row does not count as offered.
    pub fn offer(&mut self, row: Row) -> Result<(), Memory>
        ensures seen { OnOk result ((offered : List Row) → HasSeen self.old offered
            → HasSeen self.new (offered ++ row ∷ [])) }
        ensures stays { self.new ≡ record self.old { rows = self.new.rows } }
        ensures few { length self.new.rows ≤ self.old.limit + 1 }
        ensures same { OnErr result (self.new ≡ self.old) }
    {
        if !comes_behind(&self.order, &self.after, &row) {
            return Ok(());
        }
        let place = place_of(&self.order, self.kept.as_slice(), &row);
        put(&mut self.kept, self.limit as usize + 1, place, row)
    }

    /// How many rows it is to give at most.
    pub fn limit(&self) -> u32
        ensures { result ≡ self.now.limit }
    {
        self.limit
    }

    /// The rows that are kept, in their order: one more than the limit at most.
    pub fn rows(&self) -> &[Row]
        ensures rows { result.now ≡ self.now.rows }
        ensures few { length self.now.rows ≤ self.now.limit + 1 }
    {
        self.kept.as_slice()
    }

    /// Whether the row of this object need not be offered, since it would change nothing: no keys
    /// order the rows, as many are kept as may be, and the objects of all of these are less. The
    /// same is true of each greater object then. It takes no memory.
    pub fn is_past(&self, id: Id) -> bool
        ensures { result ≡ true → (row : Row) → id ≤ row.id → (offered : List Row)
            → HasSeen self.now offered → HasSeen self.now (offered ++ row ∷ []) }
    {
        if !self.order.as_slice().is_empty() {
            return false;
        }
        if self.kept.len() <= self.limit as usize {
            return false;
        }
        match self.kept.as_slice().last() {
            Some(last) => last.id.place() < id.place(),
            None => false,
        }
    }
}
