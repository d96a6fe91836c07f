//! The lines and rounds of an input.
#![tactic(auto)]

pub mod fault;
pub mod line;
pub mod piece;
pub mod reader;
pub mod round;
