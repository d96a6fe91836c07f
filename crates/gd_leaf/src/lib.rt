//! Iterators over a view of a store: the leaves of which others are made.
#![tactic(auto)]

mod kind;
pub mod leaf;
mod listed;
