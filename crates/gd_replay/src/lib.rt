//! A run of events over the store of a disk, from the bytes read to the bytes written.
#![tactic(auto)]

mod answering;
mod lines;
pub mod replay;
mod running;
pub mod stop;
