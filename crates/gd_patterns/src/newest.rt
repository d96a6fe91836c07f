//! The newest state of a store, at which templates are answered.
ghost use Rattle.std.specs.Prelude.{◌≡◌};
ghost use Rattle.gd_patterns.specs.Patterns.{AnswersNewest};

use gd_answering::answer::Answer;
use gd_answering::answers::Answers;
use gd_input::line::{LINE_LIMIT, RoundLine};
use gd_store::store::Store;
use gd_tplang::answer_line;
use std::alloc::Global;
use std::marker::Model;

/// A store at whose newest state templates are answered. Contracts see the list of its batches.
#[derive(Drop)]
pub(crate) struct Newest {
    store: Store,
}

impl Model for Newest {
    ghost use Rattle.std.specs.Prelude.{List};
    ghost use Rattle.gd_prim.specs.declared.Batch.{Batch};

    ghost Value = { List Batch };

    ghost view = { λ newest. newest.store };
}

impl Newest {
    /// The newest state of this store.
    pub(crate) fn new(store: Store) -> Newest
        ensures { result ≡ store }
    {
        Newest { store }
    }
}

impl Answers for Newest {
    ghost most = { 262_144 };

    ghost answers = { AnswersNewest };

    fn most() -> usize {
        LINE_LIMIT
    }

    fn answer(&mut self, alloc: Global, _line: u64, text: RoundLine) -> Answer {
        match text {
            RoundLine::Bytes(bytes) => match answer_line(alloc, &self.store, &bytes) {
                Ok(reply) => Answer::Made(reply),
                Err(_) => Answer::Fixed("! memory"),
            },
            RoundLine::TooLong => Answer::Fixed("! long"),
        }
    }
}
