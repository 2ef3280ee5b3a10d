//! The records of a transcript.
use crate::address::SocketAddr;
use crate::network::{Address, Network};
use nl_core::{Items, Octets};

/// Which frames of a batch await a reply: by their flags, each, or none.
#[derive(Clone, Copy, Debug, PartialEq, Eq)]
pub enum Mark {
    ByFlags,
    Expected,
    NotExpected,
}

/// One frame of a batch, as written.
#[derive(Debug, PartialEq, Eq, Drop)]
pub struct BatchFrame {
    pub mark: Mark,
    pub bytes: Octets,
}

/// One line of a transcript: a datagram that came, an overrun of the link, its close, or one request of any number of
/// frames; a dump of the peer's routes that is asked; a network that is blocked, or blocked no longer, as the line spells
/// it; an address that is looked up.
#[derive(Debug, PartialEq, Eq, Drop)]
pub enum Record {
    Recv {
        source: SocketAddr,
        bytes: Octets,
    },
    Overrun,
    Close,
    Batch {
        to: SocketAddr,
        frames: Items<BatchFrame>,
    },
    Resync,
    Block(Network),
    Unblock(Network),
    Lookup(Address),
}
