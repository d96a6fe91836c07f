//! The first rows behind a row: what a page of a read keeps while rows are offered in any order.
#![tactic(auto)]

mod compare;
pub mod keys;
pub mod laws;
pub mod order;
mod place;
pub mod row;
pub mod window;
