//! Posting lists.
#![tactic(auto)]

mod ids;
mod many;
pub mod postings;
