//! A connection: a session over a link that gives and takes datagrams.
#![tactic(auto)]

mod connection;
mod framed;
mod handle;
mod link;
mod parts;
mod queues;
mod tally;
mod tape;
mod watch;

pub use connection::{Connection, Unsolicited};
pub use framed::{Dropped, FramedError, NetlinkFramed, Polled};
pub use handle::{ConnectionHandle, ReplyStream, from_socket_at, from_socket_with_codec};
pub use link::{Arrival, Link, Posted, Received, Sent};
pub use parts::{Reply, Waiting};
pub use tape::TapeLink;
pub use watch::Watch;
