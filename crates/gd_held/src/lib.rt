//! What a session holds of its reading: none, one that began, or one of one query that goes on from
//! a frozen text.
#![tactic(auto)]

pub use gd_read::reading::Progress;

pub mod fault;
pub mod held;
mod lines;
pub mod thawed;
