//! A mirror as the watch of a connection.
ghost use Rattle.route_mirror.specs.Watching.{mirror_loses, mirror_overruns, mirror_sees};

use crate::mirror::Mirror;
use nl_core::{NetlinkMessage, NoMemory};
use proto_conn::{Dropped, Watch};
use proto_core::Handled;
use rt_dispatch::RouteNetlinkMessage;
use session_model::SocketAddr;

impl Watch<RouteNetlinkMessage> for Mirror {
    ghost sees = { mirror_sees };

    ghost loses = { mirror_loses };

    ghost overruns = { mirror_overruns };

    fn saw(
        &mut self,
        message: &NetlinkMessage<RouteNetlinkMessage>,
        source: SocketAddr,
        handled: &Handled<u64>,
    ) -> Result<(), NoMemory> {
        self.take_message(message, source, handled)
    }

    fn dropped(&mut self, what: &Dropped, source: SocketAddr) {
        match what {
            Dropped::Unreadable { message_type, .. } => self.unread(*message_type, source),
            Dropped::Rest { .. } => self.leftover(source),
        }
    }

    fn overrun(&mut self) {
        self.lost();
    }
}
