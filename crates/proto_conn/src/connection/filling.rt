//! One arrival by itself.
ghost use Rattle.std.specs.Prelude.{◌≡◌, IfErr, IfOk, OnErr};
ghost use Rattle.proto_conn.specs.Conn.{HasDatagram, is_datagram, one_datagram};
ghost use Rattle.proto_conn.specs.Polls.{Fills, Waits};

use super::Connection;
use crate::link::{Link, Received};
use crate::parts::{Held, Waiting, is_overrun};
use nl_core::{NetlinkDeserializable, NetlinkSerializable, NoMemory};
use proto_core::NetlinkMessageCodec;
use session_model::SocketAddr;

// Whether a datagram was taken and isn't handled.
fn is_datagram(held: Held) -> bool
    ensures { result ≡ is_datagram held }
{
    match held {
        Held::Nothing => false,
        Held::Datagram => true,
        Held::Overrun => false,
    }
}

impl<T: NetlinkSerializable, S, C> Connection<T, S, C> {
    /// The bytes of the datagram that waits, and where it came from.
    pub fn waiting_bytes(&self) -> (&[u8], SocketAddr)
        requires { HasDatagram self.now.waiting }
        ensures { self.now.waiting ≡ one_datagram result.0.now result.1 }
    {
        (self.framed.unread(), self.framed.source())
    }
}

impl<T: NetlinkSerializable + NetlinkDeserializable, S: Link, C: NetlinkMessageCodec> Connection<
    T,
    S,
    C,
> {
    /// What waits to be handled; where nothing does, one read of the link. Nothing is asked of a link that counts as
    /// closed.
    pub fn fill(&mut self) -> Result<Waiting, NoMemory>
        ensures ok { IfOk result (λ answer. Fills S.meaning self.old answer self.new) }
        ensures waits { IfOk result (λ answer. Waits answer self.new.waiting) }
        ensures err { OnErr result (self.new ≡ self.old) }
    {
        if is_overrun(self.held) {
            return Ok(Waiting::Overrun);
        }
        if is_datagram(self.held) {
            return Ok(Waiting::Datagram);
        }
        if self.framed.has_unread() {
            return Ok(Waiting::Datagram);
        }
        if self.closed {
            return Ok(Waiting::Nothing);
        }
        let answer = self.framed.receive()?;
        match answer {
            Received::Datagram(_source) => {
                self.held = Held::Datagram;
                Ok(Waiting::Datagram)
            }
            Received::Overrun => {
                self.held = Held::Overrun;
                Ok(Waiting::Overrun)
            }
            Received::NotReady => {
                self.held = Held::Nothing;
                Ok(Waiting::Nothing)
            }
            Received::Closed => {
                self.held = Held::Nothing;
                self.closed = true;
                Ok(Waiting::Closed)
            }
            Received::Failed => {
                self.held = Held::Nothing;
                self.closed = true;
                Ok(Waiting::Closed)
            }
        }
    }
}
