//! The batches of a store, one by one. The laws of the batches of a history, on which this rests,
//! stand in `proofs/`.
#![tactic(auto)]

pub mod prims;
