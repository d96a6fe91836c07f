//! Tests of the disk's crates: real files, and what no case reaches.
#![tactic(auto)]

#[cfg(test)]
mod codec;
#[cfg(test)]
mod file;
#[cfg(test)]
mod journal;
