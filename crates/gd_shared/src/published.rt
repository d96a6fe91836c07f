//! The copies that are published, and what each place at their table knows.
ghost use Rattle.std.specs.Prelude.{◌≡◌, ◌++◌, ◌∷◌, [], OnOk, OnErr};

use crate::front::Front;
use atomic_table::{Join, Split};
use crossbeam_utils::rule::{Outcome, Protocol};
use gd_prim::Batch;
use gd_store::store::Store;
use left_right::Absorb;
use std::alloc::AllocError;

/// A published copy: a store, and the front of the history that its list is.
#[derive(Drop)]
pub struct Published {
    pub store: Store,
    pub front: Front,
}

/// What a publishing does to a copy, step by step.
#[derive(Drop)]
pub enum Op {
    /// One batch more.
    Add(Batch),
    /// Behind all batches: the front that their list is.
    Close(Front),
}

/// Adds a batch to a copy. A batch that may not follow is refused; the publisher appends none, but
/// a copy cannot know that.
fn add(store: &mut Store, batch: &Batch) -> Result<(), AllocError>
    ensures ok { OnOk result (store.new ≡ store.old ++ batch.now ∷ []) }
    ensures err { OnErr result (store.new ≡ store.old) }
{
    if store.check(batch).is_err() || store.fits(batch).is_err() {
        return Err(AllocError);
    }
    store.absorb(batch).map_err(|_| AllocError)
}

impl Absorb<Op> for Published {
    ghost use Rattle.gd_shared.specs.Published.{applied};

    type State = Published;

    ghost state = { λ copy. copy };

    ghost applied = { applied };

    fn absorb_first(&mut self, operation: &Op, _other: &Published) -> Result<(), AllocError> {
        match operation {
            Op::Add(batch) => add(&mut self.store, batch),
            Op::Close(front) => {
                self.front = front.copy();
                Ok(())
            }
        }
    }
}

/// The table's rule: the published front is of the published store, and begins with all that any
/// place knows.
pub struct KnowsFronts;

impl Protocol<Published, Option<Front>> for KnowsFronts {
    ghost use Rattle.std.specs.Prelude.{None};
    ghost use Rattle.gd_shared.specs.Published.{IsTable};

    ghost holds = { IsTable };

    ghost first = { None };
}

/// Publishing and entering: the place then knows what is published.
pub struct TakesPublished;

impl Outcome<Published, Option<Front>> for TakesPublished {
    ghost use Rattle.gd_shared.specs.Published.{Takes};

    ghost then = { λ known before after knows. Takes known after knows };
}

/// The publisher tells what it knows, and still knows it.
pub struct TellsAll;

impl Split<Option<Front>> for TellsAll {
    ghost left = { λ known. known };

    ghost right = { λ known. known };
}

/// A new seat learns what it is told.
pub struct LearnsAll;

impl Join<Option<Front>> for LearnsAll {
    ghost use Rattle.std.specs.Prelude.{None};

    ghost both = { λ known told. told };

    ghost spent = { None };
}
