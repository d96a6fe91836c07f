//! Sessions that read in slices over seats of the published store.
#![tactic(auto)]

pub use gd_read::reading::Progress;

pub mod fault;
pub mod session;
