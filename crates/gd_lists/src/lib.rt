//! Rising lists of identities under keys: under nodes, under texts, and under pairs of both.
#![tactic(auto)]

pub mod nodes;
pub mod pairs;
pub mod texts;
