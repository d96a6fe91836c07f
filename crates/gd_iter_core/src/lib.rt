//! Iterators over rising sets of places, which a budget of steps may stop and which go on later.
#![tactic(auto)]

pub mod budget;
pub mod iter;
pub mod turn;
