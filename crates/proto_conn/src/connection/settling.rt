//! What waits is handled by itself: all of it, or nothing.
ghost use Rattle.std.specs.Prelude.{◌≡◌, ℕ, ◌+◌, ◌*◌, ◌-◌, ◌^◌, ◌<◌, ◌≤◌, [], length, map, IfOk, OnErr};
ghost use Rattle.session_model.specs.declared.address.SocketAddr.{SocketAddr as AddressAs};
ghost use Rattle.session_model.specs.Events.{arrivals};
ghost use Rattle.proto_core.specs.Session.{arrival_of};
ghost use Rattle.proto_conn.specs.Reading.{takes};
ghost use Rattle.proto_conn.specs.Seen.{events_in};
ghost use Rattle.proto_conn.specs.Settling.{settled, settles, waiting_arrivals};
ghost use Rattle.proto_conn.specs.Tallies.{IsTallied};

use super::Connection;
use super::reading::{make_room, take_in};
use crate::framed::overrun_message;
use crate::parts::{Held, is_overrun};
use crate::tally::Tallies;
use bytes::BytesMut;
use nl_core::{NetlinkDeserializable, NetlinkMessage, NetlinkSerializable, NoMemory};
use proto_core::{Decoded, NetlinkMessageCodec, Protocol};
use session_model::SocketAddr;
use std::alloc::Global;
use std::collections::VecDeque;

// The messages of the bytes of a datagram that can be read.
fn decode_all<T: NetlinkDeserializable + Drop, C: NetlinkMessageCodec>(
    alloc: Global,
    bytes: &[u8],
) -> Result<Vec<NetlinkMessage<T>>, NoMemory>
    ensures messages { IfOk result (λ ms. (source : AddressAs) →
        arrivals (events_in T.reads source bytes.now) ≡ map (λ m. arrival_of m source) ms.items) }
    ensures few { IfOk result (λ ms. 16 * length ms.items ≤ length bytes.now) }
{
    let mut buffer = BytesMut::with_capacity(alloc, bytes.len())?;
    buffer.extend_from_slice(bytes)?;
    let mut messages = Vec::new(alloc);
    'frames: loop {
        match C::decode_next(alloc, &mut buffer)? {
            Decoded::Message(message) => messages.push(message)?,
            Decoded::Unreadable {
                message_type: _,
                sequence_number: _,
            } => {}
            Decoded::Rest { bytes: _ } => {}
            Decoded::Empty => return Ok(messages),
        }
    }
}

// Takes messages of one source into a session.
fn take_all<T: Drop>(
    protocol: &mut Protocol<T, u64>,
    tallies: &mut Tallies,
    messages: Vec<NetlinkMessage<T>>,
    source: SocketAddr,
)
    requires room { length messages.items ≤ protocol.old.spare }
    requires count { protocol.old.session.arrived + length messages.items < 2 ^ 64 }
    requires tallied { IsTallied protocol.old.session.awaited protocol.old.session.responses
        protocol.old.session.arrived tallies.old }
    ensures session { protocol.new.session ≡
        takes (map (λ m. arrival_of m source) messages.items) protocol.old.session }
    ensures responses { length protocol.new.session.responses
        ≤ length protocol.old.session.responses + length messages.items }
    ensures incoming { length protocol.new.session.incoming
        ≤ length protocol.old.session.incoming + length messages.items }
    ensures last { protocol.new.session.last ≡ protocol.old.session.last }
    ensures outgoing { protocol.new.session.outgoing ≡ protocol.old.session.outgoing }
    ensures given { length tallies.new.streams ≡ length tallies.old.streams }
    ensures tallied { IsTallied protocol.new.session.awaited protocol.new.session.responses
        protocol.new.session.arrived tallies.new }
{
    let mut messages = VecDeque::from_vec(messages);
    'messages: while let Some(message) = messages.pop_front() {
        let _seen = take_in(protocol, tallies, message, source, &mut ());
    }
}

impl<T: NetlinkSerializable + NetlinkDeserializable + Drop, S, C: NetlinkMessageCodec> Connection<
    T,
    S,
    C,
> {
    // The messages of what waits, and where they came from.
    fn waiting_messages(&self) -> Result<(Vec<NetlinkMessage<T>>, SocketAddr), NoMemory>
        ensures messages { IfOk result (λ p.
            waiting_arrivals T.reads self.now ≡ map (λ m. arrival_of m p.1) p.0.items) }
        ensures few { IfOk result (λ p. length p.0.items ≤ 4096) }
    {
        if is_overrun(self.held) {
            let mut messages = Vec::new(self.alloc);
            messages.push(overrun_message(self.alloc))?;
            return Ok((messages, SocketAddr { port: 0, groups: 0 }));
        }
        self.framed.hold_bound();
        let messages = decode_all::<T, C>(self.alloc, self.framed.unread())?;
        Ok((messages, self.framed.source()))
    }

    /// Handles all that waits and hands it on; answers how many messages were read. Out of memory leaves what waits
    /// whole, and everything else as it was.
    pub fn settle(&mut self) -> Result<u64, NoMemory>
        requires { self.old.session.arrived + 4096 ≤ 2 ^ 64 - 1 }
        ensures count { IfOk result (λ n. n ≡ settles T.reads self.old) }
        ensures ok { IfOk result (λ _. self.new ≡ settled T.reads self.old) }
        ensures err { OnErr result (self.new ≡ self.old) }
    {
        let (messages, source) = self.waiting_messages()?;
        let count = messages.len();
        make_room(
            &mut self.protocol,
            &mut self.replies,
            &mut self.unsolicited,
            count,
        )?;
        self.held = Held::Nothing;
        self.framed.drop_unread();
        take_all(&mut self.protocol, &mut self.tallies, messages, source);
        self.forward_unsolicited_messages();
        self.forward_responses();
        Ok(count as u64)
    }
}
