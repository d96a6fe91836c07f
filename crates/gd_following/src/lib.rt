//! The lines of a node that follows another: read, answered and printed.
#![tactic(auto)]

pub mod answering;
mod asking;
mod giving;
mod hexadecimal;
pub mod line;
mod lines;
mod made;
mod parts;
mod refusal;
pub mod run;
pub mod stop;
