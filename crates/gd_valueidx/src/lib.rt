//! Values by number, and the places of each.
#![tactic(auto)]

mod between;
mod numbering;
pub mod numbers;
mod order;
mod run;
pub mod values;
