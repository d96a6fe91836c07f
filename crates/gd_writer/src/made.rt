//! Writes that were made.
ghost use Rattle.std.specs.Prelude.{◌≡◌};
ghost use Rattle.gd_json.specs.View.{view};
ghost use Rattle.gd_runs.specs.Legal.{kept_bytes};

use crate::entry::Entry;
use gd_prim::Batch;

/// A write that may be stored, or is in doubt: the entry that it is then, its batch, and how many
/// bytes the entry keeps.
#[derive(Drop)]
pub(crate) struct Made {
    pub(crate) entry: Entry,
    pub(crate) batch: Batch,
    pub(crate) kept: u64,
    ghost counted: { kept ≡ kept_bytes entry.bytes (view entry.answer.value) },
}
