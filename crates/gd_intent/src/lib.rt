//! Writes with their words looked up at the state before.
#![tactic(auto)]

pub mod facts;
pub mod intent;
pub mod resolve;
pub mod targets;
