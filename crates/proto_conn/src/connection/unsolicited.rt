//! Messages that nothing awaited.
ghost use Rattle.std.specs.Prelude.{◌≡◌, [], ◌∷◌, IfNone, IfSome};
ghost use Rattle.proto_conn.specs.Streaming.{UnsolicitedAnswers, is_over};

use super::Connection;
use crate::framed::Polled;
use nl_core::NetlinkSerializable;
use proto_core::Incoming;

/// The messages that nothing awaited, of the connection that is handed in.
#[derive(Debug, PartialEq, Eq, Drop)]
pub struct Unsolicited;

impl<T: NetlinkSerializable, S, C> Connection<T, S, C> {
    // Whether no message comes any more that nothing awaited.
    fn is_over(&self) -> bool
        ensures { result ≡ is_over self.now }
    {
        self.protocol.incoming_len() == 0 && (self.closed || self.unsolicited_gone)
    }

    // The oldest of the list.
    fn pop_unsolicited(&mut self) -> Option<Incoming<T>>
        ensures none { IfNone result ((self.old.unsolicited ≡ []) × (self.new ≡ self.old)) }
        ensures some { IfSome result (λ r. self.old ≡ record self.new { unsolicited = r ∷ self.new.unsolicited }) }
    {
        self.unsolicited.pop_front()
    }
}

impl Unsolicited {
    /// The oldest message. Ended where none waits, neither here nor in the session, and the link or
    /// this side is closed.
    pub fn poll_next<T: NetlinkSerializable, S, C>(
        &mut self,
        connection: &mut Connection<T, S, C>,
    ) -> Polled<Incoming<T>>
        ensures { UnsolicitedAnswers connection.old result connection.new }
    {
        match connection.pop_unsolicited() {
            Some(incoming) => Polled::Ready(incoming),
            None => {
                if connection.is_over() {
                    return Polled::Ended;
                }
                Polled::NotYet
            }
        }
    }
}
