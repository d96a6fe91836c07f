//! Lines of templates, answered over the store of a disk.
#![tactic(auto)]

mod newest;
pub mod patterns;
pub mod stop;
