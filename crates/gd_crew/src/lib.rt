//! The crew of a round: workers with the seats and the jobs of its sessions, the lock of writes,
//! the run, and what is taken of them.
#![tactic(auto)]

pub use gd_lookup::keeping::Keeping;
pub use gd_seats::session::Session;
pub use gd_writer::side::{SEATS, WriteSide};

pub mod assign;
pub mod collect;
pub mod job;
mod jobs;
mod reading;
pub mod round;
pub mod seated;
mod seats;
pub mod worker;
pub mod writers;
mod writing;
