//! Reads over a store, in slices of a budget of steps.
#![tactic(auto)]

pub use gd_compile::compile::compile;
pub use gd_compile::fault::Unknown;

mod advance;
mod answers;
mod building;
mod cursors;
pub mod dateline;
pub mod fault;
mod first;
mod freezing;
mod gathering;
pub mod keys;
mod printing;
pub mod query;
pub mod reading;
mod rows;
pub mod session;
pub mod several;
mod stage;
mod subject;
mod trying;
mod visit;
mod visiting;
