//! The program as a function of its words, its input, its output, its files and its clock.
#![tactic(auto)]

mod dump;
mod follow;
mod generate;
pub mod opening;
pub mod pace;
pub mod printing;
pub mod program;
pub mod replay;
mod restore;
pub mod rounds;
pub mod serve;
pub mod status;
pub mod stop;
mod templates;
