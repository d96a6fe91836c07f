//! Tests of what no clause says: that each call that may want memory succeeds where there is
//! plenty, and printed texts.
#![tactic(auto)]

#[cfg(test)]
mod base;
#[cfg(test)]
mod input;
#[cfg(test)]
mod iterators;
#[cfg(test)]
mod json_values;
#[cfg(test)]
mod outside;
#[cfg(test)]
mod prims;
#[cfg(test)]
mod shared;
#[cfg(test)]
mod stores;
#[cfg(test)]
mod words;
