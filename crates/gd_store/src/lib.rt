//! The store: a list of primitives, as the requests wrote them, and views of what it was at a
//! dateline.
#![tactic(auto)]

mod below;
mod indexed;
mod indexes;
mod lefts;
pub mod store;
pub mod view;
