//! Messages on statistics of links, which monitors of links ask for.
#![tactic(auto)]

mod laws;
pub mod stats;

pub use laws::{entries_read_back, statistics_messages_read_back};
