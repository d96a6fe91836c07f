//! The events of a run, read from its lines.
#![tactic(auto)]

pub mod event;
mod read;
