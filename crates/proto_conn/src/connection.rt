//! The connection: a session over a link, with its queue and its lists.
ghost use Rattle.std.specs.Prelude.{◌≡◌, ◌≢◌, ◌+◌, ◌*◌, ◌-◌, ◌^◌, ◌<◌, ◌≤◌, [], ◌∷◌, ◌++◌, false, length, IfErr, IfOk, OnErr, OnOk, true};
ghost use Rattle.std.specs.List.{list_all};
ghost use Rattle.nl_core.specs.Frames.{message_fits};
ghost use Rattle.proto_conn.specs.Conn.{AskedSome, asked, forwarded, fresh_conn, next_request, queued, refuses, shuts_down, used, with_replies, with_unsolicited};
ghost use Rattle.proto_conn.specs.Flushing.{Flushed, SendStopped, SendsNext, Unflushed, is_break, is_stuck, loaded};
ghost use Rattle.proto_conn.specs.Fitting.{AreSendable};
ghost use Rattle.proto_conn.specs.Handling.{IsRefused};
ghost use Rattle.proto_conn.specs.declared.framed.FramedError.TheVariants.{Unfit};

mod filling;
mod polling;
mod reading;
mod settling;
mod streams;
mod submitting;
mod unsolicited;

use crate::framed::{FramedError, NetlinkFramed};
use crate::link::Link;
use crate::parts::{Forward, Held, Reply};
use crate::queues::{forward_incoming, forward_responses, take_requests};
use crate::tally::Tallies;
use nl_core::{Items, NetlinkMessage, NetlinkSerializable, NoMemory};
use proto_core::{
    ExpectResponse, Incoming, NetlinkCodec, NetlinkMessageCodec, NetlinkProtoError, Protocol,
    Request, check_batch,
};
use session_model::SocketAddr;
use std::alloc::Global;
use std::collections::VecDeque;
use std::marker::Model;
use stream_list::StreamList;
pub use unsolicited::Unsolicited;

/// A session over a link, with the requests that wait for it and what it hands out.
#[derive(Drop)]
pub struct Connection<T: NetlinkSerializable, S, C = NetlinkCodec> {
    alloc: Global,
    framed: NetlinkFramed<T, S, C>,
    protocol: Protocol<T, u64>,
    queue: VecDeque<Request<T, u64>>,
    // How many messages are queued.
    count: u32,
    replies: StreamList<Reply<T>>,
    unsolicited: VecDeque<Incoming<T>>,
    given_up: Vec<bool>,
    tallies: Tallies,
    forward: Forward,
    held: Held,
    closed: bool,
    requests_closed: bool,
    requests_gone: bool,
    unsolicited_gone: bool,
}

impl<T: NetlinkSerializable, S, C> Model for Connection<T, S, C> {
    ghost use Rattle.std.specs.Prelude.{length};
    ghost use Rattle.std.specs.VecDeque.{deque_capacity, deque_len};
    ghost use Rattle.proto_conn.specs.Conn.{Conn, IsSound, waiting_in};
    ghost use Rattle.proto_conn.specs.Sending.{datagram_of};

    ghost Value = { Conn T S };

    ghost view = { λ c. record {
      link = c.framed.link;
      waiting = waiting_in c.held c.framed.source c.framed.reader;
      unsent = datagram_of c.framed.writer c.framed.destination;
      session = c.protocol.session;
      queue = c.queue.items;
      replies = c.replies.items;
      unsolicited = c.unsolicited.items;
      given_up = c.given_up.items;
      forward = c.forward;
      closed = c.closed;
      requests_closed = c.requests_closed;
      requests_gone = c.requests_gone;
      unsolicited_gone = c.unsolicited_gone;
    } };

    ghost invariant = { λ c. IsSound T.text T.fitting c.protocol.session c.queue.items c.count
        (length c.replies.items) c.replies.room (deque_len c.unsolicited) (deque_capacity c.unsolicited)
        c.held c.framed.reader (length c.given_up.items) c.tallies };
}

impl<T: NetlinkSerializable, S, C> Connection<T, S, C> {
    ghost use Rattle.std.specs.Borrow.{Lends, sem};
    ghost use Rattle.std.specs.Prelude.{◌||◌, ◌&&◌};
    ghost use Rattle.proto_conn.specs.contracts.connection.Connection.{the_row};

    /// A connection over a link. Its numbers follow `start`.
    pub fn over(alloc: Global, framed: NetlinkFramed<T, S, C>, start: u32) -> Self
        requires read { framed.reader ≡ [] }
        requires written { framed.writer ≡ [] }
        ensures { result ≡ fresh_conn framed.link start }
    {
        Connection {
            alloc,
            framed,
            protocol: Protocol::with_start(alloc, start),
            queue: VecDeque::new(alloc),
            count: 0,
            replies: StreamList::new(alloc),
            unsolicited: VecDeque::new(alloc),
            given_up: Vec::new(alloc),
            tallies: Tallies::new(alloc),
            forward: Forward {
                noop: false,
                done: false,
                ack: false,
            },
            held: Held::Nothing,
            closed: false,
            requests_closed: false,
            requests_gone: false,
            unsolicited_gone: false,
        }
    }

    /// Whether a no-op that ends a number is handed on.
    pub fn set_forward_noop(&mut self, value: bool)
        ensures { self.new ≡ record self.old { forward = record self.old.forward { noop = value } } }
    {
        self.forward.noop = value;
    }

    /// Whether the end of a dump is handed on.
    pub fn set_forward_done(&mut self, value: bool)
        ensures { self.new ≡ record self.old { forward = record self.old.forward { done = value } } }
    {
        self.forward.done = value;
    }

    /// Whether an acknowledgement is handed on.
    pub fn set_forward_ack(&mut self, value: bool)
        ensures { self.new ≡ record self.old { forward = record self.old.forward { ack = value } } }
    {
        self.forward.ack = value;
    }

    /// The link.
    pub fn socket_mut(&mut self) -> &mut S
        ensures* lends { sem 𝓛 (Lends (the_row T.row S.row C.row T.NetlinkSerializable) S.row self.entry result
            (λ link. record self.entry.now { link = link })) }
        ensures now { result.now ≡ self.old.link }
    {
        self.framed.get_mut()
    }

    /// The link, to be looked at.
    pub fn socket(&self) -> &S
        ensures { result.now ≡ self.now.link }
    {
        self.framed.get_ref()
    }

    /// How many messages were read so far.
    pub fn arrivals(&self) -> u64
        ensures { result ≡ self.now.session.arrived }
    {
        self.protocol.arrivals()
    }

    /// Whether there is no more to do: the link closed, or both sides are gone.
    pub fn should_shut_down(&self) -> bool
        ensures { result ≡ shuts_down self.now }
    {
        self.closed || (self.requests_gone && self.unsolicited_gone)
    }

    /// Requests are refused from now on; their side is gone once those that wait are taken.
    pub fn close_requests(&mut self)
        ensures { self.new ≡ record self.old { requests_closed = true } }
    {
        self.requests_closed = true;
    }
}

impl<T: NetlinkSerializable, S, C> Connection<T, S, C> {
    ghost use Rattle.std.specs.Prelude.{IfNone, IfSome};

    /// The oldest forwarded reply of any stream.
    pub fn next_reply(&mut self) -> Option<Reply<T>>
        ensures none { IfNone result ((self.old.replies ≡ []) × (self.new ≡ self.old)) }
        ensures some { IfSome result (λ r. self.old ≡ record self.new { replies = r ∷ self.new.replies }) }
    {
        self.replies.pop_front()
    }
}

impl<T: NetlinkSerializable + Drop, S, C> Connection<T, S, C> {
    /// The side of unsolicited messages is gone, with those that wait in its list.
    pub fn close_unsolicited(&mut self)
        ensures { self.new ≡ record self.old { unsolicited_gone = true; unsolicited = [] } }
    {
        self.unsolicited_gone = true;
        self.unsolicited.clear();
    }

    /// Hands on the messages that nothing awaited, or drops them where their side is gone.
    pub fn forward_unsolicited_messages(&mut self)
        ensures { self.new ≡ with_unsolicited self.old }
    {
        forward_incoming(
            &mut self.protocol,
            &mut self.unsolicited,
            self.unsolicited_gone,
        );
    }

    /// Hands on the replies, less those that are kept back and those of streams that were given up.
    pub fn forward_responses(&mut self)
        ensures { self.new ≡ with_replies self.old }
    {
        forward_responses(
            &mut self.protocol,
            &mut self.replies,
            self.given_up.as_slice(),
            self.forward,
        );
        self.tallies.note_forwarded(self.protocol.arrivals());
    }
}

impl<T: NetlinkSerializable, S, C> Connection<T, S, C> {
    /// Takes all requests that wait into the session.
    pub fn poll_requests(&mut self) -> Result<(), NoMemory>
        ensures ok { OnOk result (self.new ≡ asked T.kind T.text self.old) }
        ensures err { OnErr result (AskedSome T.kind T.text T.fitting self.old self.new) }
    {
        take_requests(
            &mut self.queue,
            &mut self.count,
            &mut self.protocol,
            &mut self.tallies,
        )?;
        self.requests_gone = self.requests_closed;
        Ok(())
    }

    // Whether messages may be requested.
    fn check_request(&self, messages: &[NetlinkMessage<T>]) -> Result<(), NetlinkProtoError>
        ensures open { OnOk result (refuses self.now ≡ false) }
        ensures in_range { OnOk result (used self.now + length messages.now < 2 ^ 32) }
        ensures fit { OnOk result (list_all (message_fits T.text T.fitting) messages.now ≡ true) }
        ensures cause { IfErr result (λ e. IsRefused T.text T.fitting self.now messages.now e) }
    {
        if self.closed || self.requests_closed {
            return Err(NetlinkProtoError::ConnectionClosed);
        }
        let used = self.protocol.sequence_id() + self.count;
        if let Err(refusal) = check_batch(messages, used) {
            return Err(refusal.into());
        }
        Ok(())
    }

    // Queues messages as a request of the next stream, or says why it isn't taken.
    pub fn enqueue(
        &mut self,
        messages: Items<NetlinkMessage<T>>,
        expect_response: ExpectResponse,
        destination: SocketAddr,
    ) -> Result<u64, NetlinkProtoError>
    where
        T: Drop,
        ensures stream { IfOk result (λ stream. stream ≡ length self.old.given_up + 1) }
        ensures ok { OnOk result (self.new ≡
            queued (next_request self.old messages expect_response destination) self.old) }
        ensures open { OnOk result (refuses self.old ≡ false) }
        ensures in_range { OnOk result (used self.old + length messages < 2 ^ 32) }
        ensures fit { OnOk result (list_all (message_fits T.text T.fitting) messages ≡ true) }
        ensures err { OnErr result (self.new ≡ self.old) }
        ensures cause { IfErr result (λ e. IsRefused T.text T.fitting self.old messages e) }
    {
        self.check_request(messages.as_slice())?;
        let metadata = self.given_up.len() as u64 + 1;
        self.replies.reserve_stream(metadata)?;
        self.queue.reserve(1)?;
        self.given_up.reserve(1)?;
        self.tallies.add()?;
        self.given_up.push_reserved(false);
        self.count += messages.len() as u32;
        self.queue.push_back_reserved(Request {
            metadata,
            messages,
            destination,
            expect_response,
        });
        Ok(metadata)
    }
}

// Whether a fault of a flush, which is never that a message doesn't fit, breaks the connection.
fn is_break(error: FramedError) -> bool
    requires { error ≢ Unfit }
    ensures { result ≡ is_break error }
{
    match error {
        FramedError::NoMemory => false,
        FramedError::LinkFailed => true,
        FramedError::Short { took: _, len: _ } => true,
        FramedError::Unfit => unreachable!(),
    }
}

impl<T: NetlinkSerializable, S: Link, C> Connection<T, S, C> {
    /// Sends what isn't sent yet. A link that fails or takes a part counts as closed from then on, and
    /// the rest is dropped. Out of memory where the link is; then nothing changes but the link.
    pub fn poll_flush(&mut self) -> Result<(), NoMemory>
        ensures ok { OnOk result (Flushed S.meaning self.old self.new) }
        ensures err { OnErr result (Unflushed S.meaning self.old self.new) }
    {
        if self.closed {
            return Ok(());
        }
        match self.framed.poll_flush() {
            Ok(_) => Ok(()),
            Err(error) => {
                if !is_break(error) {
                    return Err(NoMemory);
                }
                self.closed = true;
                Ok(())
            }
        }
    }
}

impl<T: NetlinkSerializable + Drop, S: Link, C: NetlinkMessageCodec> Connection<T, S, C> {
    // Whether nothing more can be sent for now.
    fn is_stuck(&self) -> bool
        ensures { result ≡ is_stuck self.now }
    {
        self.closed || self.framed.has_unsent()
    }

    // Makes the oldest batch the datagram that is to be sent.
    fn load(&mut self) -> Result<(), NoMemory>
        requires { self.old.unsent ≡ [] }
        ensures ok { OnOk result (self.new ≡ loaded T.text self.old) }
        ensures err { OnErr result (self.new ≡ self.old) }
        ensures memory { OnErr result (AreSendable T.text T.fitting self.old.session.outgoing) }
    {
        self.framed.load(&mut self.protocol)?;
        Ok(())
    }

    /// Sends what isn't sent yet, and then at most one batch that waits. An empty batch sends nothing.
    pub fn poll_send_messages(&mut self) -> Result<(), NoMemory>
        ensures ok { OnOk result (SendsNext S.meaning T.text self.old self.new) }
        ensures err { OnErr result (SendStopped S.meaning T.text T.fitting self.old self.new) }
    {
        self.poll_flush()?;
        if self.is_stuck() {
            return Ok(());
        }
        self.load()?;
        self.poll_flush()?;
        Ok(())
    }
}
