//! Who a runner's connection shows what it reads.
ghost use Rattle.mirror.specs.Observers.{observers_lose, observers_overrun, observers_see};

use crate::ledger::Ledger;
use crate::message::Message;
use nl_core::{NetlinkMessage, NoMemory};
use proto_conn::{Dropped, Watch};
use proto_core::Handled;
use route_mirror::Mirror;
use session_model::SocketAddr;

/// What a runner keeps of what its connection reads: the streams and the drops, and the mirror.
#[derive(Drop)]
pub struct Observers {
    pub ledger: Ledger,
    pub mirror: Mirror,
}

impl Watch<Message> for Observers {
    ghost sees = { observers_see };

    ghost loses = { observers_lose };

    ghost overruns = { observers_overrun };

    fn saw(
        &mut self,
        message: &NetlinkMessage<Message>,
        source: SocketAddr,
        handled: &Handled<u64>,
    ) -> Result<(), NoMemory> {
        self.mirror.saw(message, source, handled)?;
        self.ledger.saw(message, source, handled)
    }

    fn dropped(&mut self, what: &Dropped, source: SocketAddr) {
        self.mirror.dropped(what, source);
        self.ledger.dropped(what, source);
    }

    fn overrun(&mut self) {
        self.mirror.overrun();
    }
}
