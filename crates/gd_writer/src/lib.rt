//! The write side: what stands behind the lock of writes.
#![tactic(auto)]

mod copies;
mod desk;
pub mod entry;
mod judge;
mod ledger;
mod made;
pub mod outcome;
mod refused;
mod roomy;
pub mod side;
mod telling;
