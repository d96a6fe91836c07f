//! Reads that are looked up in the replies that a session keeps.
#![tactic(auto)]

pub mod found;
pub mod keeping;
pub mod laws;
