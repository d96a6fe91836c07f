//! What the caller of a round does: it answers the lines of a round that nobody has answered yet.
#![tactic(auto)]

pub mod joined;
pub mod numbers;
pub mod reads;
mod told;
pub mod writes;
