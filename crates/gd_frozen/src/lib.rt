//! Texts of cursors: one spelling for each, and exact offsets where bytes are none.
#![tactic(auto)]

pub mod cursor;
pub mod frozen;
mod halt;
mod number;
mod place;
mod read;
mod row;
mod scan;
mod stop;
mod thawing;
pub mod tree;
mod walk;
mod write;

pub use read::cursor_from;
pub use stop::FrozenFault;
pub use thawing::frozen_from;

mod writing;

pub use write::{cursor_text, mark_text};
pub use writing::frozen_text;
