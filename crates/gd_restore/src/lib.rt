//! Dumps of the store of a disk, and texts that are restored to it.
#![tactic(auto)]

pub mod dumping;
pub mod gathering;
pub mod restoring;
pub mod stop;
