//! Payloads in a file, each of them there in full or not at all, whenever a stop comes.
#![tactic(auto)]

pub mod fault;
pub mod head;
pub mod journal;
pub mod opening;
pub mod payloads;
pub mod reading;
pub mod record;
pub mod version;
mod window;
