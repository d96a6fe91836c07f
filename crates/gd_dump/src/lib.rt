//! Dumps: the batches of a store as a text, and texts of batches, read piece by piece.
#![tactic(auto)]

pub mod dump;
mod hex;
mod line;
mod number;
mod primitive;
mod progress;
pub mod reader;
mod stop;
mod text;
mod value;
mod word;

pub use dump::write_dump;
pub use reader::{Batches, DumpReader};
pub use stop::{DumpFault, RestoreFault};
