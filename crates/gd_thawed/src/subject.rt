//! What a reading reads.
use gd_frozen::frozen::RowAt;
use gd_plan::asked::Asked;
use std::snapshot::Snapshot;

/// What a reading reads: at a dateline, from behind a row if there is one. Whether its answer tells
/// a cursor. What is asked is what clauses alone read, and takes no memory.
#[derive(Drop)]
pub(crate) struct Subject {
    pub(crate) asked: Snapshot<Asked>,
    pub(crate) dateline: u32,
    pub(crate) with_cursor: bool,
    pub(crate) after: Option<RowAt>,
}
