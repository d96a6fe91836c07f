//! What ids, objects and words stand for, over a view of a store.
#![tactic(auto)]

pub mod fault;
pub mod ids;
pub mod look;
pub mod property;
pub mod up;
pub mod words;
