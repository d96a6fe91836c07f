//! The state of a write that is carried out.
#![tactic(auto)]

pub use gd_resolve::property::Property;

pub mod answers;
pub mod fault;
pub mod growing;
pub mod holders;
pub mod keys;
pub mod links;
mod made;
pub mod stamp;
pub mod target;
pub mod up;
