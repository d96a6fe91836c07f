//! What a write does.
#![tactic(auto)]

pub mod fault;
pub mod write;
