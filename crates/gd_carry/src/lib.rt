//! A write whose words are looked up, carried out.
#![tactic(auto)]

pub use gd_mql::request::WriteRequest;

mod carry;
pub mod exec;
pub mod fault;
mod fill;
mod lead;
mod owner;
mod print;
mod subject;
