//! The frames of a batch, as one datagram.
ghost use Rattle.std.specs.Prelude.{◌≡◌, ◌+◌, ◌≤◌, [], ◌++◌, length, IfNone, IfSome, OnErr, OnOk, ◌^◌, true};
ghost use Rattle.std.specs.List.{list_all};
ghost use Rattle.nl_core.specs.Frames.{message_fits, message_text};
ghost use Rattle.proto_conn.specs.Fitting.{AreSendable, BatchesFit};
ghost use Rattle.proto_conn.specs.Flushing.{Loads};
ghost use Rattle.proto_conn.specs.Sending.{texts};

use super::NetlinkFramed;
use bytes::BytesMut;
use nl_core::{NetlinkMessage, NetlinkSerializable, NoMemory};
use proto_core::{NetlinkMessageCodec, Outgoing, Protocol};
use std::collections::VecDeque;

// How many bytes the frames of messages have, unless they are more than memory can hold.
fn texts_len<T: NetlinkSerializable>(messages: &[NetlinkMessage<T>]) -> Option<usize>
    requires fit { list_all (message_fits T.text T.fitting) messages.now ≡ true }
    ensures len { IfSome result (λ n. n ≡ length (texts T.text messages.now)) }
    ensures more { IfNone result (2 ^ 64 ≤ length (texts T.text messages.now)) }
{
    let mut len: usize = 0;
    for message in messages {
        len = len.checked_add(message.buffer_len())?;
    }
    Some(len)
}

// Appends the frame of a message to a buffer that has room for it and for those of others.
fn append_one<T: NetlinkSerializable + Drop, C: NetlinkMessageCodec>(
    message: NetlinkMessage<T>,
    others: &VecDeque<NetlinkMessage<T>>,
    writer: &mut BytesMut,
)
    requires fits { message_fits T.text T.fitting message ≡ true }
    requires room { length (message_text T.text message) + length (texts T.text others.now.items) ≤ writer.old.spare }
    ensures written { writer.new.items ≡ writer.old.items ++ message_text T.text message }
    ensures room { length (texts T.text others.now.items) ≤ writer.new.spare }
{
    let _others = others;
    if C::encode(message, writer).is_err() {
        unreachable!();
    }
}

// Appends the frames of messages to a buffer that has room for them.
fn append_all<T: NetlinkSerializable + Drop, C: NetlinkMessageCodec>(
    messages: VecDeque<NetlinkMessage<T>>,
    writer: &mut BytesMut,
)
    requires fits { list_all (message_fits T.text T.fitting) messages.items ≡ true }
    requires room { length (texts T.text messages.items) ≤ writer.old.spare }
    ensures { writer.new.items ≡ writer.old.items ++ texts T.text messages.items }
{
    let mut messages = messages;
    'frames: while let Some(message) = messages.pop_front() {
        append_one::<T, C>(message, &messages, writer);
    }
}

impl<T: NetlinkSerializable + Drop, S, C: NetlinkMessageCodec> NetlinkFramed<T, S, C> {
    // Makes the oldest batch of a session what is to be sent, if there is one. Out of memory leaves it
    // where it is.
    pub fn load(&mut self, protocol: &mut Protocol<T, u64>) -> Result<(), NoMemory>
        requires written { self.old.writer ≡ [] }
        requires fit { BatchesFit T.text T.fitting protocol.old.session.outgoing }
        ensures ok { OnOk result (Loads T.text self.old protocol.old.session protocol.old.session.outgoing
            self.new protocol.new.session) }
        ensures err { OnErr result ((self.new ≡ self.old) × (protocol.new.session ≡ protocol.old.session)) }
        ensures memory { OnErr result (AreSendable T.text T.fitting protocol.old.session.outgoing) }
        ensures fit { BatchesFit T.text T.fitting protocol.new.session.outgoing }
        ensures numbers { protocol.new.session.last ≡ protocol.old.session.last }
        ensures lists { (protocol.new.session.responses ≡ protocol.old.session.responses)
            × (protocol.new.session.incoming ≡ protocol.old.session.incoming) }
        ensures awaited { (protocol.new.session.awaited ≡ protocol.old.session.awaited)
            × (protocol.new.session.arrived ≡ protocol.old.session.arrived) }
        ensures reader { self.new.reader ≡ self.old.reader }
        ensures spare { protocol.new.spare ≡ protocol.old.spare }
    {
        let Some(front) = protocol.front_outgoing() else {
            return Ok(());
        };
        let Some(len) = texts_len(front.messages.as_slice()) else {
            return Err(NoMemory);
        };
        self.writer.reserve(len)?;
        let Some(outgoing) = protocol.next_outgoing() else {
            return Ok(());
        };
        let Outgoing {
            messages,
            destination,
        } = outgoing;
        append_all::<T, C>(VecDeque::from_vec(messages.into_vec()), &mut self.writer);
        self.destination = destination;
        Ok(())
    }
}
