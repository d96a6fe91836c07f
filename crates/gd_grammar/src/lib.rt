//! What it means that bytes spell, begin or miss a text of a grammar. The definitions stand in
//! `specs/`.
#![tactic(auto)]
