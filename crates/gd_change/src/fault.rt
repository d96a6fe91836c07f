//! Why a write is refused.
pub use gd_carry::fault::ChangeFault;
