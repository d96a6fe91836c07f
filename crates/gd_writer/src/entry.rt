//! Entries of a history.
use gd_json::value::Json;
use gd_mql::request::WriteRequest;
use std::snapshot::Snapshot;

/// A write that was stored: the number and the length of its line, its request, its moment in
/// milliseconds since 1970-01-01 in UTC, and its result. Its batch is in the store. Its request and its
/// result are what clauses alone read, and take no memory.
#[derive(Drop)]
pub struct Entry {
    pub line: u64,
    pub bytes: u64,
    pub request: Snapshot<WriteRequest>,
    pub moment: u64,
    pub answer: Snapshot<Json>,
}
