//! What a line of input asks.
#![tactic(auto)]

pub mod change;
mod change_form;
pub mod clause;
pub mod directive;
mod envelope;
mod form_fault;
pub mod line;
pub mod name;
pub mod number;
pub mod object;
mod operand;
pub mod query_form;
pub mod request;
pub mod session;
pub mod write_parts;

pub use gd_fault::{fault, ids};
