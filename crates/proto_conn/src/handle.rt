//! Handles on a connection, and the streams of their replies.
ghost use Rattle.std.specs.Prelude.{◌≡◌, ◌+◌, [], ◌∷◌, length, false, IfErr, IfNone, IfOk, IfSome, OnErr, OnOk};
ghost use Rattle.proto_conn.specs.Conn.{fresh_conn};
ghost use Rattle.proto_conn.specs.Handles.{IsQueued, marks_of, messages_of};
ghost use Rattle.proto_conn.specs.Handling.{IsRefused};
ghost use Rattle.proto_core.specs.declared.request.ExpectResponse.TheVariants.{Explicit, FromFlags};

use crate::connection::{Connection, Unsolicited};
use crate::framed::{NetlinkFramed, Polled};
use nl_core::{Items, NetlinkMessage, NetlinkSerializable, NoMemory};
use proto_core::{ExpectResponse, NetlinkProtoError, ReplyExpectation};
use session_model::SocketAddr;
use std::alloc::{AllocError, Global};
use std::marker::PhantomData;

/// What requests are made with. It holds nothing: a request goes to the connection that is handed in.
#[derive_where(Debug, PartialEq, Eq)]
pub struct ConnectionHandle<T> {
    message: PhantomData<T>,
}

impl<T> Clone for ConnectionHandle<T> {
    fn clone(&self) -> Result<Self, AllocError> {
        Ok(*self)
    }
}

impl<T> Copy for ConnectionHandle<T> {}

/// The replies of a request, by the number of its stream.
#[derive(Debug, PartialEq, Eq, Drop)]
pub struct ReplyStream {
    id: u64,
}

impl ReplyStream {
    ghost use Rattle.proto_conn.specs.Streaming.{StreamAnswers, stream_id, without_stream};

    // The stream with a number.
    pub(crate) fn numbered(id: u64) -> Self
        ensures { stream_id result ≡ id }
    {
        ReplyStream { id }
    }

    /// The number of the stream, from 1.
    pub fn id(&self) -> u64
        ensures { result ≡ stream_id self.now }
    {
        self.id
    }

    /// The oldest message of the stream's list. Ended where none waits there, no reply of it waits in the session, and
    /// none can come any more: its request has left the queue with no number awaited, or there is no more to do. A
    /// stream that the connection hasn't given counts as one whose request waits in the queue.
    pub fn poll_next<T: NetlinkSerializable, S, C>(
        &mut self,
        connection: &mut Connection<T, S, C>,
    ) -> Polled<NetlinkMessage<T>>
        ensures answers { StreamAnswers (stream_id self.old) connection.old result connection.new }
        ensures same { self.new ≡ self.old }
    {
        match connection.take_reply(self.id) {
            Some(reply) => Polled::Ready(reply.message),
            None => {
                if connection.is_ended(self.id) {
                    return Polled::Ended;
                }
                Polled::NotYet
            }
        }
    }

    /// Drops the replies of the stream, those that wait in the connection's list and those that are
    /// still to come. A stream that the connection hasn't given changes nothing.
    pub fn give_up<T: NetlinkSerializable + Drop, S, C>(self, connection: &mut Connection<T, S, C>)
        ensures { connection.new ≡ without_stream (stream_id self) connection.old }
    {
        connection.give_up(self.id);
    }
}

/// A connection over a link, whose first number is one more than `start`, a handle on it, and its unsolicited messages.
pub fn from_socket_at<T: NetlinkSerializable, S: Drop, C>(
    alloc: Global,
    socket: S,
    start: u32,
) -> Result<(Connection<T, S, C>, ConnectionHandle<T>, Unsolicited), NoMemory>
    ensures { IfOk result (λ p. p.0 ≡ fresh_conn socket start) }
{
    match NetlinkFramed::new(alloc, socket) {
        Ok(framed) => {
            let handle = ConnectionHandle {
                message: PhantomData,
            };
            Ok((Connection::over(alloc, framed, start), handle, Unsolicited))
        }
        Err((refusal, _socket)) => Err(refusal),
    }
}

/// A connection over a link whose first number is 1.
pub fn from_socket_with_codec<T: NetlinkSerializable, S: Drop, C>(
    alloc: Global,
    socket: S,
) -> Result<(Connection<T, S, C>, ConnectionHandle<T>, Unsolicited), NoMemory>
    ensures { IfOk result (λ p. p.0 ≡ fresh_conn socket 0) }
{
    from_socket_at(alloc, socket, 0)
}

// Whether each message awaits a reply, beside the messages.
pub fn split<T: Drop>(
    alloc: Global,
    pairs: Vec<(NetlinkMessage<T>, ReplyExpectation)>,
) -> Result<(Items<NetlinkMessage<T>>, Items<bool>), NoMemory>
    ensures messages { IfOk result (λ p. p.0 ≡ messages_of pairs.items) }
    ensures marks { IfOk result (λ p. p.1 ≡ marks_of pairs.items) }
{
    let mut messages = Items::new(alloc);
    let mut marks = Items::new(alloc);
    let mut pairs = std::collections::VecDeque::from_vec(pairs);
    'pairs: while let Some((message, expectation)) = pairs.pop_front() {
        messages.push(message)?;
        marks.push(expectation == ReplyExpectation::Expected)?;
    }
    Ok((messages, marks))
}

impl<T: NetlinkSerializable + Drop> ConnectionHandle<T> {
    ghost use Rattle.proto_conn.specs.Streaming.{stream_id};

    /// Requests a batch whose flags say which messages await a reply.
    pub fn request_batch<S, C>(
        &self,
        connection: &mut Connection<T, S, C>,
        messages: Vec<NetlinkMessage<T>>,
        destination: SocketAddr,
    ) -> Result<ReplyStream, NetlinkProtoError>
        ensures stream { IfOk result (λ stream. stream_id stream ≡ length connection.old.given_up + 1) }
        ensures ok { OnOk result (IsQueued T.text T.fitting connection.old messages.items
            FromFlags destination connection.new) }
        ensures err { OnErr result (connection.new ≡ connection.old) }
        ensures cause { IfErr result (λ e. IsRefused T.text T.fitting connection.old messages.items e) }
    {
        let id = connection.enqueue(
            Items::from_vec(messages),
            ExpectResponse::FromFlags,
            destination,
        )?;
        Ok(ReplyStream { id })
    }

    /// Requests one message, whose flags say whether it awaits a reply.
    pub fn request<S, C>(
        &self,
        alloc: Global,
        connection: &mut Connection<T, S, C>,
        message: NetlinkMessage<T>,
        destination: SocketAddr,
    ) -> Result<ReplyStream, NetlinkProtoError>
        ensures stream { IfOk result (λ stream. stream_id stream ≡ length connection.old.given_up + 1) }
        ensures ok { OnOk result (IsQueued T.text T.fitting connection.old (message ∷ [])
            FromFlags destination connection.new) }
        ensures err { OnErr result (connection.new ≡ connection.old) }
        ensures cause { IfErr result (λ e. IsRefused T.text T.fitting connection.old (message ∷ []) e) }
    {
        let mut messages = Items::new(alloc);
        messages.push(message)?;
        let id = connection.enqueue(messages, ExpectResponse::FromFlags, destination)?;
        Ok(ReplyStream { id })
    }

    /// Requests a batch with each message marked.
    pub fn request_batch_with_expectation<S, C>(
        &self,
        alloc: Global,
        connection: &mut Connection<T, S, C>,
        messages: Vec<(NetlinkMessage<T>, ReplyExpectation)>,
        destination: SocketAddr,
    ) -> Result<ReplyStream, NetlinkProtoError>
        ensures stream { IfOk result (λ stream. stream_id stream ≡ length connection.old.given_up + 1) }
        ensures ok { OnOk result (IsQueued T.text T.fitting connection.old (messages_of messages.items)
            (Explicit (marks_of messages.items)) destination connection.new) }
        ensures err { OnErr result (connection.new ≡ connection.old) }
        ensures cause { IfErr result (λ e. IsRefused T.text T.fitting connection.old (messages_of messages.items) e) }
    {
        let (messages, marks) = split(alloc, messages)?;
        let id = connection.enqueue(messages, ExpectResponse::Explicit(marks), destination)?;
        Ok(ReplyStream { id })
    }

    /// Sends one message that awaits nothing.
    pub fn notify<S, C>(
        &self,
        alloc: Global,
        connection: &mut Connection<T, S, C>,
        message: NetlinkMessage<T>,
        destination: SocketAddr,
    ) -> Result<(), NetlinkProtoError>
        ensures ok { OnOk result (IsQueued T.text T.fitting connection.old (message ∷ [])
            (Explicit []) destination connection.new) }
        ensures err { OnErr result (connection.new ≡ connection.old) }
        ensures cause { IfErr result (λ e. IsRefused T.text T.fitting connection.old (message ∷ []) e) }
    {
        let mut messages = Items::new(alloc);
        messages.push(message)?;
        let marks = ExpectResponse::Explicit(Items::new(alloc));
        connection.enqueue(messages, marks, destination)?;
        Ok(())
    }
}
