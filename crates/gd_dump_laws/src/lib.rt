//! What the dump of a list of batches is, what dumping and restoring come to, and laws of dumps.
//! The definitions stand in `specs/`, the laws in `proofs/`.
#![tactic(auto)]
