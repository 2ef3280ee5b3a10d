//! What a session hands out.
use nl_core::{Items, NetlinkMessage};
use session_model::SocketAddr;

/// A message that a request awaited.
#[derive(Debug, PartialEq, Eq, Drop)]
pub struct Response<T, M> {
    /// Whether the number is awaited no longer.
    pub done: bool,
    pub message: NetlinkMessage<T>,
    /// What the request was tagged with.
    pub metadata: M,
    /// The count of messages taken in, this one with them.
    pub arrival: u64,
}

/// A message that nothing awaited.
#[derive(Debug, PartialEq, Eq, Drop)]
pub struct Incoming<T> {
    pub message: NetlinkMessage<T>,
    pub source: SocketAddr,
    /// The count of messages taken in, this one with them.
    pub arrival: u64,
}

/// Messages to be sent as one datagram.
#[derive(Debug, PartialEq, Eq, Drop)]
pub struct Outgoing<T> {
    pub messages: Items<NetlinkMessage<T>>,
    pub destination: SocketAddr,
}

/// What became of a message.
#[derive(Clone, Copy, Debug, PartialEq, Eq)]
pub struct Handled<M> {
    /// The count of messages taken in, this one with them.
    pub arrival: u64,
    pub to: Place<M>,
}

/// Where a message goes.
#[derive(Clone, Copy, Debug, PartialEq, Eq)]
pub enum Place<M> {
    /// To the request that awaits it.
    Reply { metadata: M, done: bool },
    /// To no request.
    Unsolicited,
}
