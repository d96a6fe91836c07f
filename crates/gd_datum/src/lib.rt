//! Data as texts and as JSON, and patterns of words.
#![tactic(auto)]

mod civil;
pub mod moment;
pub mod pattern;
pub mod value;
