//! Lines answered one after another.
#![tactic(auto)]

pub mod answer;
pub mod answering;
pub mod answers;
mod running;
mod sending;
pub mod stop;
