//! What a node answers to a group that it is given, and laws of nodes that follow another. The
//! definitions stand in `specs/`, the laws in `proofs/`.
#![tactic(auto)]
