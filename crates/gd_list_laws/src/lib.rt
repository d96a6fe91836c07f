//! Laws over plain lists, of primitives, of batches and of any elements. They stand in `proofs/`.
#![tactic(auto)]
