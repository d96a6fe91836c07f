//! Generated requests: the lines that a number and a count stand for, and the one line to which the
//! replies to them come.
#![tactic(auto)]

mod draws;
pub mod lines;
mod replies;
pub mod summary;
