//! The device that datagrams come from and go to.
ghost use Rattle.std.specs.Prelude.{◌≡◌, ◌≤◌, []};
ghost use Rattle.proto_conn.specs.Links.{DidReceive, DidSend, Meaning};

use bytes::BytesMut;
use nl_core::Octets;
use session_model::SocketAddr;

/// What waits at a link.
#[derive(Debug, PartialEq, Eq, Drop)]
pub enum Arrival {
    Datagram { source: SocketAddr, bytes: Octets },
    Overrun,
    Closed,
}

/// Bytes that left as one datagram.
#[derive(Debug, PartialEq, Eq, Drop)]
pub struct Posted {
    pub bytes: Octets,
    pub to: SocketAddr,
}

/// What a link answers to a read.
#[derive(Clone, Copy, Debug, PartialEq, Eq)]
pub enum Received {
    /// A datagram from this address; its bytes were put into the buffer.
    Datagram(SocketAddr),
    NotReady,
    /// Arrivals were lost.
    Overrun,
    Closed,
    Failed,
}

/// What a link answers to a write.
#[derive(Clone, Copy, Debug, PartialEq, Eq)]
pub enum Sent {
    /// So many of the bytes were taken.
    Sent(usize),
    NotReady,
    Failed,
    NoMemory,
}

/// A device that gives datagrams and takes them.
///
/// It stands for what waits and what was sent, each where the link says it; three counts that never
/// fall, of faults, of answers that it isn't ready, and of answers that it is closed; a bound on what
/// waits; and how far it can be relied on.
pub trait Link {
    /// What a link stands for.
    ghost meaning: { Self → Meaning };

    /// The next arrival. Only a datagram leaves bytes in the buffer, at most 65,536.
    fn recv(&mut self, into: &mut BytesMut) -> Received
        requires empty { into.old.items ≡ [] }
        requires room { 65536 ≤ into.old.spare }
        ensures { DidReceive (meaning self.old) result into.new.items (meaning self.new) };

    /// Sends bytes as one datagram.
    fn send(&mut self, bytes: &[u8], to: SocketAddr) -> Sent
        ensures { DidSend (meaning self.old) result bytes.now to (meaning self.new) };

    /// A bound on the datagrams and overruns before another answer.
    fn backlog(&self) -> u64
        ensures { result ≡ (meaning self.now).backlog };
}
