//! The published copies, with the batches that are stored and not shown yet.
ghost use Rattle.std.specs.Prelude.{◌≡◌, ◌≤◌, ◌<◌, ◌+◌, ◌-◌, ◌++◌, ◌∷◌, [], length, take, IsTrue};
ghost use Rattle.std.specs.Prelude.{OnOk, MatchResult};
ghost use Rattle.gd_prim.specs.History.{is_history};
ghost use Rattle.gd_writer.specs.Parts.{CopiesValue};

use crate::roomy::Roomy;
use gd_base::memory::Memory;
use gd_prim::Batch;
use gd_shared::{Publisher, Receipt};
use std::alloc::Global;
use std::marker::Model;
use std::sync::Wait;

/// A publisher, and the batches that it has not yet: what is shown, and all that is to be shown.
pub(crate) struct Copies {
    publisher: Publisher,
    waiting: Roomy<Batch>,
}

impl Model for Copies {
    ghost use Rattle.std.specs.Prelude.{◌++◌, IsTrue};
    ghost use Rattle.gd_prim.specs.History.{is_history};
    ghost use Rattle.gd_writer.specs.Parts.{CopiesValue};

    ghost Value = { CopiesValue };

    ghost view = { λ c. record {
      table = c.publisher.history;
      shown = c.publisher.shown;
      all = c.publisher.shown ++ c.publisher.pending ++ c.waiting.items;
      spare = c.waiting.spare;
    } };

    ghost invariant = { λ c. IsTrue (is_history
        (c.publisher.shown ++ c.publisher.pending ++ c.waiting.items)) };
}

/// Hands the first of the waiting batches to a publisher. `Memory`: an allocation was refused, and
/// nothing has changed.
fn hand_first(publisher: &mut Publisher, waiting: &mut Roomy<Batch>) -> Result<(), Memory>
    requires some { 0 < length waiting.old.items }
    requires history { IsTrue (is_history
        (publisher.old.shown ++ publisher.old.pending ++ waiting.old.items)) }
    ensures all { publisher.new.pending ++ waiting.new.items
        ≡ publisher.old.pending ++ waiting.old.items }
    ensures stays { publisher.new ≡ record publisher.old { pending = publisher.new.pending } }
    ensures less { OnOk result (length waiting.new.items + 1 ≡ length waiting.old.items) }
    ensures spare { waiting.old.spare ≤ waiting.new.spare }
{
    let batch = waiting.first().copy()?;
    if publisher.append(batch).is_err() {
        return Err(Memory);
    }
    let _handed = waiting.take_first();
    Ok(())
}

/// Hands all waiting batches to a publisher. `Memory`: an allocation was refused, and some wait on.
fn hand_on(publisher: &mut Publisher, waiting: &mut Roomy<Batch>) -> Result<(), Memory>
    requires history { IsTrue (is_history
        (publisher.old.shown ++ publisher.old.pending ++ waiting.old.items)) }
    ensures all { publisher.new.pending ++ waiting.new.items
        ≡ publisher.old.pending ++ waiting.old.items }
    ensures stays { publisher.new ≡ record publisher.old { pending = publisher.new.pending } }
    ensures none { OnOk result (waiting.new.items ≡ []) }
    ensures spare { waiting.old.spare ≤ waiting.new.spare }
{
    let count = waiting.as_slice().len();
    for _place in 0..count {
        hand_first(publisher, waiting)?;
    }
    Ok(())
}

impl Copies {
    /// The copies of a publisher with nothing pending.
    pub(crate) fn new(alloc: Global, publisher: Publisher) -> Copies
        requires { publisher.pending ≡ [] }
        ensures { result ≡ record {
          table = publisher.history;
          shown = publisher.shown;
          all = publisher.shown;
          spare = 0;
        } }
    {
        let _shown = publisher.store().requests();
        Copies {
            publisher,
            waiting: Roomy::new(alloc),
        }
    }

    /// Makes room for so many further batches.
    pub(crate) fn reserve(&mut self, more: usize) -> Result<(), Memory>
        ensures same { self.new ≡ record self.old { spare = self.new.spare } }
        ensures made { OnOk result (more ≤ self.new.spare) }
        ensures kept { self.old.spare ≤ self.new.spare }
    {
        self.waiting.reserve(more)
    }

    /// A batch more is to be shown.
    fn add(&mut self, batch: Batch)
        requires room { 1 ≤ self.old.spare }
        requires follows { IsTrue (is_history (self.old.all ++ batch ∷ [])) }
        ensures { self.new ≡ record self.old {
          all = self.old.all ++ batch ∷ [];
          spare = self.old.spare - 1;
        } }
    {
        self.waiting.push(batch);
    }

    /// Shows all that is to be shown. It waits for readers, if anything is. `Memory`: nothing more
    /// is shown.
    pub(crate) fn show<R: Wait>(&mut self, rt: &R) -> Result<(), Memory>
        ensures shown { MatchResult result (λ _. self.new.shown ≡ self.old.all)
            (λ _. self.new.shown ≡ self.old.shown) }
        ensures same { self.new ≡ record self.old {
          shown = self.new.shown;
          spare = self.new.spare;
        } }
        ensures spare { self.old.spare ≤ self.new.spare }
    {
        if self.waiting.is_empty() && self.publisher.is_shown() {
            return Ok(());
        }
        hand_on(&mut self.publisher, &mut self.waiting)?;
        self.publisher.publish(rt)?;
        Ok(())
    }

    /// Shows a batch more with all that is to be shown. It waits for readers. `Memory`: nothing
    /// more is shown, and the batch waits with the others.
    pub(crate) fn show_with<R: Wait>(&mut self, rt: &R, batch: Batch) -> Result<(), Memory>
        requires room { 1 ≤ self.old.spare }
        requires follows { IsTrue (is_history (self.old.all ++ batch ∷ [])) }
        ensures shown { MatchResult result (λ _. self.new.shown ≡ self.old.all ++ batch ∷ [])
            (λ _. self.new.shown ≡ self.old.shown) }
        ensures all { self.new.all ≡ self.old.all ++ batch ∷ [] }
        ensures table { self.new.table ≡ self.old.table }
        ensures spare { self.old.spare ≤ self.new.spare + 1 }
    {
        self.add(batch);
        self.show(rt)
    }

    /// A receipt of what is shown.
    pub(crate) fn tell(&self) -> Receipt
        ensures { result ≡ record { history = self.now.table; list = self.now.shown } }
    {
        self.publisher.tell()
    }

    /// How many requests are shown, which are the first ones of all.
    pub(crate) fn shown(&self) -> u32
        ensures count { result ≡ length self.now.shown }
        ensures front { self.now.shown ≡ take (length self.now.shown) self.now.all }
    {
        self.publisher.store().requests()
    }

    /// Ends the copies. It waits for readers.
    pub(crate) fn close<R: Wait>(self, rt: &R) {
        let Copies {
            publisher,
            waiting: _,
        } = self;
        publisher.close(rt);
    }
}
