//! Which primitive succeeds which.
#![tactic(auto)]

mod slot;
pub mod versions;
