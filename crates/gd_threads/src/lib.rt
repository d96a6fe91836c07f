//! The lines of an input, served round by round: workers on threads run the lines of a round, and
//! their caller what is left.
#![tactic(auto)]

pub use gd_crew::Keeping;

pub mod rounds;
mod working;
