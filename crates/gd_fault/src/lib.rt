//! What is wrong with a request, and where, and the texts of ids.
#![tactic(auto)]

pub mod fault;
pub mod guid;
pub mod ids;
