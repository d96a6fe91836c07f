//! Groups of batches as bytes: one spelling for each group, and exact offsets where bytes are none.
#![tactic(auto)]

mod group;
mod length;
mod number;
mod primitive;
mod stop;
mod text;
mod value;
mod write;

pub use group::{Group, decode_group};
pub use length::primitives_length;
pub use stop::CodecFault;
pub use write::encode_group;
