//! Definitions of what a store means: data, ids, queries, rows, replies, templates and writes. They
//! stand in `specs/`.
#![tactic(auto)]
