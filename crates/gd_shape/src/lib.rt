//! From the trees of a page's rows to what the root prints.
#![tactic(auto)]

pub use gd_trees::answered::answered;
pub use gd_trees::grow::{Grown, grow_passing};
pub use gd_trees::judge::{Judged, judge};
pub use gd_trees::shallow::{is_light, is_never_heavy, is_shallow};
pub use gd_trees::tree::{Tree, Trees};
pub use gd_trees::weight::TOO_HEAVY;

mod answer;
mod cut;
mod datum;
mod gather;
mod guid;
pub mod ids;
pub mod keys;
pub mod known;
mod lists;
mod order;
pub mod page;
mod print;
mod ranked;
pub mod shape;
pub mod sight;
mod spelt;
pub mod told;
mod walks;
