//! The places of key links, by namespace and key, and by object.
#![tactic(auto)]

pub mod keys;
