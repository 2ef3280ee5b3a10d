//! A request that is sent in the call that takes it.
ghost use Rattle.std.specs.Prelude.{◌≡◌, ◌+◌, ◌<◌, ◌^◌, [], length, IfOk, OnErr, OnOk, true};
ghost use Rattle.std.specs.List.{list_all};
ghost use Rattle.nl_core.specs.Frames.{message_fits};
ghost use Rattle.proto_conn.specs.Fitting.{BatchesFit};
ghost use Rattle.proto_conn.specs.Sending.{Sends};
ghost use Rattle.proto_conn.specs.Submitting.{SendsFirst, Takes, is_behind, without_first};

use super::{FramedError, NetlinkFramed};
use crate::link::Link;
use crate::queues::want_of_memory;
use nl_core::{NetlinkSerializable, NoMemory};
use proto_core::{NetlinkMessageCodec, Protocol, Request};
use session_model::SocketAddr;

impl<T, S, C> NetlinkFramed<T, S, C> {
    // Nothing is to be sent, and what is sent next goes to this address.
    fn unload(&mut self, destination: SocketAddr)
        ensures { self.new ≡ record self.old { writer = []; destination = destination } }
    {
        self.writer.clear();
        self.destination = destination;
    }

    // Whether a batch is ahead of the next one: unsent, or in the session.
    fn is_behind(&self, protocol: &Protocol<T, u64>) -> bool
        ensures { result ≡ is_behind self.now.writer protocol.now.session.outgoing }
    {
        self.has_unsent() || protocol.outgoing_len() > 0
    }
}

impl<T: NetlinkSerializable + Drop, S: Link, C: NetlinkMessageCodec> NetlinkFramed<T, S, C> {
    // Sends the oldest batch of a session, and answers whether the link broke. Out of memory drops the
    // batch, and changes nothing else but the link, which was sent nothing.
    fn send_first(&mut self, protocol: &mut Protocol<T, u64>) -> Result<bool, NoMemory>
        requires written { self.old.writer ≡ [] }
        requires fit { BatchesFit T.text T.fitting protocol.old.session.outgoing }
        ensures ok { IfOk result (λ broke. SendsFirst S.meaning T.text self.old protocol.old.session broke
            self.new protocol.new.session) }
        ensures fit { OnOk result (BatchesFit T.text T.fitting protocol.new.session.outgoing) }
        ensures session { OnErr result (protocol.new.session ≡ without_first protocol.old.session) }
        ensures stays { OnErr result (self.new ≡ record self.old { link = self.new.link }) }
        ensures sends { OnErr result (Sends (S.meaning self.old.link) [] (S.meaning self.new.link)) }
    {
        let destination = self.destination;
        let Ok(()) = self.load(protocol) else {
            let _left = protocol.next_outgoing();
            return Err(NoMemory);
        };
        match self.poll_flush() {
            Ok(_) => Ok(false),
            Err(FramedError::NoMemory) => {
                self.unload(destination);
                Err(NoMemory)
            }
            Err(FramedError::LinkFailed) => Ok(true),
            Err(FramedError::Short { took: _, len: _ }) => Ok(true),
            Err(FramedError::Unfit) => unreachable!(),
        }
    }

    // Takes a request into a session, and sends it where no batch is ahead of it; answers whether the
    // link broke. Out of memory changes nothing but the link, which was sent nothing.
    pub fn submit(
        &mut self,
        protocol: &mut Protocol<T, u64>,
        request: Request<T, u64>,
    ) -> Result<bool, NoMemory>
        requires in_range { protocol.old.session.last + length request.messages < 2 ^ 32 }
        requires fit { list_all (message_fits T.text T.fitting) request.messages ≡ true }
        requires batches { BatchesFit T.text T.fitting protocol.old.session.outgoing }
        ensures batches { BatchesFit T.text T.fitting protocol.new.session.outgoing }
        ensures ok { IfOk result (λ broke. Takes S.meaning T.kind T.text self.old protocol.old.session request broke
            self.new protocol.new.session) }
        ensures session { OnErr result (protocol.new.session ≡ protocol.old.session) }
        ensures stays { OnErr result (self.new ≡ record self.old { link = self.new.link }) }
        ensures sends { OnErr result (Sends (S.meaning self.old.link) [] (S.meaning self.new.link)) }
    {
        let last = protocol.sequence_id();
        let pending = protocol.pending_len();
        let behind = self.is_behind(protocol);
        match protocol.request(request) {
            Ok(()) => {}
            Err((refusal, _request)) => return Err(want_of_memory(refusal)),
        }
        if behind {
            return Ok(false);
        }
        match self.send_first(protocol) {
            Ok(broke) => Ok(broke),
            Err(_) => {
                protocol.take_back(last, pending);
                Err(NoMemory)
            }
        }
    }
}
