//! What a query asks, once its words are looked up, and the template for which it stands.
#![tactic(auto)]

pub use gd_resolve::ids::named_object;
pub use gd_resolve::property::{Property, expected_type, is_language, is_of};
pub use gd_resolve::up::links_up;
pub use gd_resolve::words::{Named, named_property};
pub use gd_template::View;
pub use gd_template::template::Mode;

pub mod asked;
pub mod clause;
pub mod constraint;
pub mod expects;
pub mod fault;
pub mod plan;
pub mod spoken;
mod subject;
pub mod template;
pub mod test;
