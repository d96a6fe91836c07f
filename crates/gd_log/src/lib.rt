//! Durable batches: a file of groups of batches, each of them there in full or not at all, whenever
//! a stop comes.
#![tactic(auto)]

pub mod log;
pub mod opening;
mod replay;
pub mod stored;
