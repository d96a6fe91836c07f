//! Files as a store sees them: what a read gives, what a stop at any moment may leave, and where
//! files are kept.
#![tactic(auto)]

pub mod disk;
mod failing;
pub mod file_disk;
pub mod file_shelf;
mod kept_file;
pub mod memory_disk;
pub mod memory_shelf;
pub mod shelf;
pub mod steady_disk;
mod undoing;

/// The disk or the shelf failed.
#[derive(Clone, Copy, Debug, PartialEq, Eq)]
pub struct Failed;
