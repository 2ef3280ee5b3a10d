//! A batch that is taken and sent in one call.
ghost use Rattle.std.specs.Prelude.{◌≡◌, ◌≢◌, ◌+◌, ◌<◌, ◌^◌, [], length, false, IfErr, IfOk, OnErr, OnOk, true};
ghost use Rattle.std.specs.List.{list_all};
ghost use Rattle.nl_core.specs.Frames.{message_fits};
ghost use Rattle.proto_core.specs.declared.error.NetlinkProtoError.TheVariants.{NoMemory as OutOfMemory};
ghost use Rattle.proto_conn.specs.Conn.{next_request, refuses, used};
ghost use Rattle.proto_conn.specs.Flushing.{SendsNext};
ghost use Rattle.proto_conn.specs.Handles.{messages_of};
ghost use Rattle.proto_conn.specs.Handling.{IsRefused};
ghost use Rattle.proto_conn.specs.Sending.{Sends};
ghost use Rattle.proto_conn.specs.Streaming.{stream_id};
ghost use Rattle.proto_conn.specs.Submitting.{Submits, is_behind, marked_request, submitted};

use super::Connection;
use crate::handle::{ReplyStream, split};
use crate::link::Link;
use nl_core::{Items, NetlinkMessage, NetlinkSerializable};
use proto_core::{
    ExpectResponse, NetlinkMessageCodec, NetlinkProtoError, ReplyExpectation, Request,
};
use session_model::SocketAddr;
use std::alloc::Global;

impl<T: NetlinkSerializable + Drop, S: Link, C: NetlinkMessageCodec> Connection<T, S, C> {
    // Takes messages as the request of the next stream, and sends them where no batch is ahead.
    fn take_batch(
        &mut self,
        messages: Items<NetlinkMessage<T>>,
        expect_response: ExpectResponse,
        destination: SocketAddr,
    ) -> Result<u64, NetlinkProtoError>
        requires { self.old.queue ≡ [] }
        ensures stream { IfOk result (λ stream. stream ≡ length self.old.given_up + 1) }
        ensures ok { OnOk result (Submits T.kind T.text S.meaning
            (next_request self.old messages expect_response destination) self.old self.new) }
        ensures open { OnOk result (refuses self.old ≡ false) }
        ensures in_range { OnOk result (used self.old + length messages < 2 ^ 32) }
        ensures fit { OnOk result (list_all (message_fits T.text T.fitting) messages ≡ true) }
        ensures err { OnErr result (self.new ≡ record self.old { link = self.new.link }) }
        ensures unsent { OnErr result (Sends (S.meaning self.old.link) [] (S.meaning self.new.link)) }
        ensures refused { IfErr result (λ e. e ≢ OutOfMemory → self.new ≡ self.old) }
        ensures cause { IfErr result (λ e. IsRefused T.text T.fitting self.old messages e) }
    {
        self.check_request(messages.as_slice())?;
        let metadata = self.given_up.len() as u64 + 1;
        self.replies.reserve_stream(metadata)?;
        self.given_up.reserve(1)?;
        self.tallies.add()?;
        let awaited = self.protocol.pending_len();
        let request = Request {
            metadata,
            messages,
            destination,
            expect_response,
        };
        let Ok(broke) = self.framed.submit(&mut self.protocol, request) else {
            self.tallies.drop_last();
            return Err(NetlinkProtoError::NoMemory);
        };
        let noted = self.protocol.pending_len() - awaited;
        self.given_up.push_reserved(false);
        self.tallies.note_request(metadata, noted);
        self.closed = broke;
        Ok(metadata)
    }

    /// Requests a batch with each message marked, and sends it in this call, where no earlier batch is still to be
    /// sent; else it waits behind that one. No request may wait for `poll_requests`. A link that isn't ready leaves the
    /// batch unsent; one that fails or takes a part counts as closed from then on. An empty batch sends nothing. A
    /// refusal changes nothing, but that a link where memory was wanting was asked to send.
    pub fn submit(
        &mut self,
        alloc: Global,
        messages: Vec<(NetlinkMessage<T>, ReplyExpectation)>,
        destination: SocketAddr,
    ) -> Result<ReplyStream, NetlinkProtoError>
        requires { self.old.queue ≡ [] }
        ensures stream { IfOk result (λ stream. stream_id stream ≡ length self.old.given_up + 1) }
        ensures ok { OnOk result (Submits T.kind T.text S.meaning
            (marked_request self.old messages.items destination) self.old self.new) }
        ensures as_poll { OnOk result (is_behind self.old.unsent self.old.session.outgoing ≡ false →
            SendsNext S.meaning T.text
            (submitted T.kind T.text (marked_request self.old messages.items destination) self.old) self.new) }
        ensures open { OnOk result (refuses self.old ≡ false) }
        ensures in_range { OnOk result (used self.old + length (messages_of messages.items) < 2 ^ 32) }
        ensures fit { OnOk result (list_all (message_fits T.text T.fitting) (messages_of messages.items) ≡ true) }
        ensures err { OnErr result (self.new ≡ record self.old { link = self.new.link }) }
        ensures unsent { OnErr result (Sends (S.meaning self.old.link) [] (S.meaning self.new.link)) }
        ensures refused { IfErr result (λ e. e ≢ OutOfMemory → self.new ≡ self.old) }
        ensures cause { IfErr result (λ e. IsRefused T.text T.fitting self.old (messages_of messages.items) e) }
    {
        let (messages, marks) = split(alloc, messages)?;
        let id = self.take_batch(messages, ExpectResponse::Explicit(marks), destination)?;
        Ok(ReplyStream::numbered(id))
    }
}
