//! The reading of one query that goes on from where a frozen text says, in slices of a budget of
//! steps.
#![tactic(auto)]

mod advance;
mod again;
mod answers;
mod building;
mod cursors;
mod first;
mod fitting;
mod freezing;
mod keying;
mod keys;
mod printing;
pub mod query;
mod rows;
mod scanning;
mod stage;
mod subject;
mod thawing;
