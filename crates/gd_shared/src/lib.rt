//! Two published copies of a store: one writer publishes, and seats read what is published, without
//! a wait.
#![tactic(auto)]

mod front;
mod published;
mod publisher;
mod seat;
mod sharing;

pub use front::Front;
pub use publisher::{Publisher, Receipt};
pub use seat::{Entered, Seat};
pub use sharing::share;
