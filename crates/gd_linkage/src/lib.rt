//! Which places name a node, by the end at which they name it.
#![tactic(auto)]

pub mod counted;
pub mod linkage;
