//! What iterators answer, and their positions.
use gd_base::id::Id;

/// What a call of `next` or `find` gives.
#[derive(Clone, Copy, Debug, PartialEq, Eq)]
pub enum Turn {
    /// The next member.
    Found(Id),
    /// There is none.
    Done,
    /// The budget was spent before that was known.
    Unfinished,
}

/// What a call of `check` gives.
#[derive(Clone, Copy, Debug, PartialEq, Eq)]
pub enum Checked {
    Yes,
    No,
    /// The budget was spent before that was known.
    Unfinished,
}

/// The position of an iterator.
#[derive(Clone, Copy, Debug, PartialEq, Eq)]
pub struct FrozenIter {
    /// The least place that is not yet settled.
    pub place: Id,
    /// Where it is there, that place was produced, and the members before this number accept it.
    pub accepted: Option<u32>,
}
