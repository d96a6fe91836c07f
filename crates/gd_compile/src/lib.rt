//! Queries with their words looked up: which property a name is, and which test an operand makes.
#![tactic(auto)]

pub use gd_plan::expects::{Expects, expects_of, has_lang, holds_values};
pub use gd_plan::{Property, is_of};

mod asking;
pub mod compile;
pub mod fault;
mod gathered;
pub mod operand;
mod own;
pub mod path;
pub mod sort;
pub mod test;
mod walk;
pub mod words;
