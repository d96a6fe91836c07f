//! Rows.
use crate::keys::Keys4;
use gd_base::id::Id;

/// A row: the sort keys of an object with their places, and the object.
#[derive(Drop)]
pub struct Row {
    pub keys: Keys4,
    pub id: Id,
}
