//! A node that follows another: it answers asks by groups of its batches, and takes groups that it
//! is given.
#![tactic(auto)]

mod answer;
mod asking;
mod batches;
mod compare;
pub mod node;

pub use answer::{AskFault, Asked, GiveFault, Given};
pub use node::Node;
