//! Reply lines, and why a line is refused.
#![tactic(auto)]

pub mod answer;
pub mod lines;
pub mod members;
pub mod printing;
pub mod refusal;
pub mod reply;

pub use gd_fault::guid;
