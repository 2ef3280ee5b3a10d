//! The plain parts of a connection.
ghost use Rattle.std.specs.Prelude.{◌≡◌};
ghost use Rattle.proto_conn.specs.Conn.{is_overrun};

use nl_core::NetlinkMessage;
use stream_list::InStream;

/// A reply that was forwarded, of a stream.
#[derive(Debug, PartialEq, Eq, Drop)]
pub struct Reply<T> {
    /// The count of messages taken in up to this one.
    pub arrival: u64,
    pub stream: u64,
    pub message: NetlinkMessage<T>,
}

impl<T> InStream for Reply<T> {
    ghost stream = { λ r. r.stream };

    fn stream(&self) -> u64 {
        self.stream
    }
}

/// What waits in a connection to be handled.
#[derive(Clone, Copy, Debug, PartialEq, Eq)]
pub enum Waiting {
    Datagram,
    Overrun,
    /// The link closed, or failed.
    Closed,
    Nothing,
}

// Which control replies are handed on.
#[derive(Clone, Copy, Debug, PartialEq, Eq)]
pub struct Forward {
    pub noop: bool,
    pub done: bool,
    pub ack: bool,
}

// What was taken from the link and isn't handled. The bytes of a datagram stand in the reader; an
// empty datagram has none.
#[derive(Clone, Copy, Debug, PartialEq, Eq)]
pub enum Held {
    Nothing,
    Datagram,
    Overrun,
}

// Whether an overrun waits.
pub fn is_overrun(held: Held) -> bool
    ensures { result ≡ is_overrun held }
{
    match held {
        Held::Nothing => false,
        Held::Datagram => false,
        Held::Overrun => true,
    }
}
