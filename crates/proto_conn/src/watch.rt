//! Who is shown each message that is read.
ghost use Rattle.std.specs.Prelude.{ℕ, Bool, is_ok};
ghost use Rattle.nl_core.specs.declared.message.NetlinkMessage.{NetlinkMessage as MessageAs};
ghost use Rattle.session_model.specs.declared.address.SocketAddr.{SocketAddr as AddressAs};
ghost use Rattle.proto_core.specs.declared.messages.Handled.{Handled as HandledAs};
ghost use Rattle.proto_conn.specs.Watches.{loses_nothing, overruns_nothing, sees_nothing};
ghost use Rattle.proto_conn.specs.declared.framed.Dropped.{Dropped as DroppedAs};

use crate::framed::Dropped;
use nl_core::{NetlinkMessage, NoMemory};
use proto_core::Handled;
use session_model::SocketAddr;

/// Who is shown each message, drop and overrun that a poll meets, once each, in order.
///
/// A watch has three rules, from what it stood for before a call and the call's arguments to what it stands for after.
pub trait Watch<T> {
    /// What a message makes of it, by whether it took the message.
    ghost sees: { Self → MessageAs T → AddressAs → HandledAs ℕ → Bool → Self → Type 0 };

    ghost loses: { Self → DroppedAs → AddressAs → Self → Type 0 };

    ghost overruns: { Self → Self → Type 0 };

    /// A message came, and this became of it.
    fn saw(
        &mut self,
        message: &NetlinkMessage<T>,
        source: SocketAddr,
        handled: &Handled<u64>,
    ) -> Result<(), NoMemory>
        ensures { sees self.old message.now source handled.now (is_ok result) self.new };

    /// A frame or a rest of a datagram was dropped.
    fn dropped(&mut self, what: &Dropped, source: SocketAddr)
        ensures { loses self.old what.now source self.new };

    /// The link overran; `saw` is called for its message next.
    fn overrun(&mut self)
        ensures { overruns self.old self.new };
}

/// Watches nothing.
impl<T> Watch<T> for () {
    ghost sees = { sees_nothing };

    ghost loses = { loses_nothing };

    ghost overruns = { overruns_nothing };

    fn saw(
        &mut self,
        _message: &NetlinkMessage<T>,
        _source: SocketAddr,
        _handled: &Handled<u64>,
    ) -> Result<(), NoMemory> {
        Ok(())
    }

    fn dropped(&mut self, _what: &Dropped, _source: SocketAddr) {}

    fn overrun(&mut self) {}
}
