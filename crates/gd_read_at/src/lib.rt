//! A read that is answered at once, over a store at a number of its requests.
#![tactic(auto)]

pub mod whole;
