//! The replies that a session keeps, the latest first.
#![tactic(auto)]

pub mod asked;
pub mod cache;
pub mod key;
pub mod laws;
pub mod line;
pub mod part;
