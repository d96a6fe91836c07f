//! Tests of the top call, where no clause and no case reaches: workers that are at work at once, a
//! real file, and printed statuses. No crate stands on this one.
#![tactic(auto)]

#[cfg(test)]
mod files;
#[cfg(test)]
mod order;
#[cfg(test)]
mod rounds;
#[cfg(test)]
mod run;
#[cfg(test)]
mod statuses;
