//! The words of the command line.
#![tactic(auto)]

mod grammar;
pub mod help;
mod number;
mod parsing;
pub mod reader;
pub mod verbs;
