//! JSON values without fractions, of bounded depth and width.
#![tactic(auto)]

pub mod copy;
pub mod from;
mod number;
pub mod text;
mod tree;
pub mod value;
