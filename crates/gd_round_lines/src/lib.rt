//! The lines of a round, once read: its reads and writes, the replies to its lines, and what
//! workers keep of reads.
#![tactic(auto)]

pub mod replies;
pub mod work;
pub mod worked;
