//! Frozen readings.
use crate::cursor::Places;
use crate::tree::FrozenTrees;
use gd_base::id::Id;
use gd_iter_core::turn::FrozenIter;

/// A row: its object, and the places of its sort keys.
#[derive(Drop)]
pub struct RowAt {
    pub object: Id,
    pub keys: Places,
}

/// A place that is tried: the iterator over the answers of its current clause, and the lists of the
/// clauses up to that one, of which the last still grows.
#[derive(Drop)]
pub struct FrozenFrame {
    pub place: Id,
    pub iter: FrozenIter,
    pub lists: Vec<FrozenTrees>,
}

/// A scan: the iterator over the root set, the weight of the candidate so far, and the frames of
/// the places that are tried, one below the other.
#[derive(Drop)]
pub struct FrozenScan {
    pub iter: FrozenIter,
    pub weight: u32,
    pub frames: Vec<FrozenFrame>,
}

/// How a printed id was found: it is a guid, the id of the root, or spelt by key links from the
/// object up.
#[derive(Drop)]
pub enum Walk {
    Guid,
    Root,
    Links(Vec<Id>),
}

/// What a reading does.
#[derive(Drop)]
pub enum FrozenBody {
    /// Candidates are scanned.
    Scan(FrozenScan),
    /// The trees of the rows are built: the weights and the trees so far, and the scan of the rows.
    Build {
        weight: u32,
        trees: FrozenTrees,
        scan: FrozenScan,
    },
    /// The reply is printed: how many places were printed, the trees, and the walks so far.
    Print {
        printed: u32,
        trees: FrozenTrees,
        walks: Vec<Walk>,
    },
}

/// A frozen reading: its dateline, the row after which its page begins, the best rows so far, and
/// what it does.
#[derive(Drop)]
pub struct FrozenReading {
    pub dateline: u32,
    pub after: Option<RowAt>,
    pub rows: Vec<RowAt>,
    pub body: FrozenBody,
}
