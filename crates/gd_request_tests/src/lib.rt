//! Tests of what reads and writes requests, where no clause and no case reaches: printed faults,
//! and calls that no program makes. No crate stands on this one, so that none is proved twice for
//! its tests.
#![tactic(auto)]

#[cfg(test)]
mod change;
#[cfg(test)]
mod mql;
#[cfg(test)]
mod pages;
#[cfg(test)]
mod reply;
#[cfg(test)]
mod resolve;
#[cfg(test)]
mod templates;
