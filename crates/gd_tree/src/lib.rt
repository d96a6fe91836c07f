//! JSON as a plain tree, and its compact text. The definitions stand in `specs/`.
#![tactic(auto)]
