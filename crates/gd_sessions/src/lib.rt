//! Sessions that read in slices and write, on one thread.
#![tactic(auto)]

mod held;
mod lines;
pub mod running;
mod writing;
