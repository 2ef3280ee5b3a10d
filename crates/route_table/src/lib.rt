//! Tables of a peer's routes: what a message changes, the routes of both families with the change of one, the networks
//! that are blocked, and the look-up of the route that answers for an address.
#![tactic(auto)]

mod blocked;
mod change;
mod family;
mod route_list;
mod routes;

pub use blocked::Blocked;
pub use change::{Hop, RouteChange, message_change};
pub use mirror_model::{Address, Answer, Network, Route};
pub use routes::Routes;

#[cfg(test)]
mod tests;
