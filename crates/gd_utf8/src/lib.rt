//! UTF-8, byte by byte: which byte may come next in a text, what is due behind it, and the texts of
//! what was read so. The definitions stand in `specs/`, the laws in `proofs/`.
#![tactic(auto)]

pub mod due;
pub mod text;
