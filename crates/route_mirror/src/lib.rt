//! A mirror of a peer's routing table: it follows the dumps and the notifications of a session, knows whether it is in
//! step with its peer, and answers which route an address takes.
#![tactic(auto)]

mod dump;
mod mirror;
mod reply;
mod request;
mod watch;

pub use mirror::Mirror;
pub use route_table::{Address, Answer, Network, Route};

#[cfg(test)]
mod tests;
