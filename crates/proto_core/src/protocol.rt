//! The session: numbers, awaited replies and three queues.
ghost use Rattle.std.specs.Prelude.{◌≡◌, ◌+◌, ◌<◌, ◌≤◌, ◌^◌, [], ◌++◌, IfErr, IfNone, IfSome, OnErr, OnOk, is_some, length, take, true};
ghost use Rattle.std.specs.List.{list_all};
ghost use Rattle.std.specs.VecDeque.{deque_len, deque_capacity};
ghost use Rattle.nl_core.specs.Frames.{message_fits};
ghost use Rattle.session_model.specs.Awaited.{first_awaiting, is_last, numbered};
ghost use Rattle.proto_core.specs.Noted.{noted_of};
ghost use Rattle.proto_core.specs.Refused.{IsCause};
ghost use Rattle.proto_core.specs.Numbers.{AreBelow, IsAscending, numbers_after, numbers_of};

use crate::messages::{Handled, Incoming, Outgoing, Place, Response};
use crate::pending::PendingTable;
use crate::request::{Request, RequestRefusal, check_batch, note_all, under_numbers};
use nl_core::{NLM_F_MULTIPART, NetlinkMessage, NetlinkPayload, NetlinkSerializable, NoMemory};
use session_model::SocketAddr;
use std::alloc::Global;
use std::collections::VecDeque;
use std::marker::Model;

/// A session over netlink: it numbers what is sent, and finds for what arrives the request that
/// awaits it.
///
/// Contracts see a `Session`, and `spare`: how many messages `handle_message` can take in before
/// `reserve` must make room again. It counts the room of the queue that has less.
#[derive(Drop)]
pub struct Protocol<T, M> {
    last: u32,
    awaited: PendingTable<M>,
    arrived: u64,
    responses: VecDeque<Response<T, M>>,
    incoming: VecDeque<Incoming<T>>,
    outgoing: VecDeque<Outgoing<T>>,
}

impl<T, M> Model for Protocol<T, M> {
    ghost use Rattle.std.specs.Prelude.{◌+◌, ◌-◌, min};
    ghost use Rattle.std.specs.VecDeque.{deque_len, deque_capacity};
    ghost use Rattle.proto_core.specs.Numbers.{AreBelow};
    ghost use Rattle.proto_core.specs.Session.{Roomy};

    ghost Value = { Roomy T M };

    ghost view = { λ p. record {
      session = record {
        last = p.last;
        awaited = p.awaited;
        arrived = p.arrived;
        responses = p.responses.items;
        incoming = p.incoming.items;
        outgoing = p.outgoing.items;
      };
      spare = min (deque_capacity p.responses - deque_len p.responses)
          (deque_capacity p.incoming - deque_len p.incoming);
    } };

    ghost invariant = { λ p. AreBelow (p.last + 1) p.awaited };
}

// Whether a message is the last under its number.
fn is_last_of<T>(message: &NetlinkMessage<T>, acks: bool) -> bool
    ensures { result ≡ is_last message.now acks }
{
    match &message.payload {
        NetlinkPayload::InnerMessage(_) => message.header.flags & NLM_F_MULTIPART == 0 && !acks,
        _ => true,
    }
}

impl<T, M: Copy> Protocol<T, M> {
    ghost use Rattle.proto_core.specs.Session.{BeginsWith, Continues, EndsNumber, arrival_of, arrived_at, fresh, handled};
    ghost use Rattle.proto_core.specs.Session.{taken_back, with_incoming, with_outgoing, with_response};

    /// A session whose first number is 1.
    pub fn new(alloc: Global) -> Self
        ensures { result.session ≡ fresh 0 }
    {
        Self::with_start(alloc, 0)
    }

    /// A session whose first number is one more than `start`.
    pub fn with_start(alloc: Global, start: u32) -> Self
        ensures { result.session ≡ fresh start }
    {
        Protocol {
            last: start,
            awaited: PendingTable::new(alloc),
            arrived: 0,
            responses: VecDeque::new(alloc),
            incoming: VecDeque::new(alloc),
            outgoing: VecDeque::new(alloc),
        }
    }

    /// Makes room for `n` messages.
    pub fn reserve(&mut self, n: usize) -> Result<(), NoMemory>
        ensures room { OnOk result (n ≤ self.new.spare) }
        ensures same { self.new.session ≡ self.old.session }
        ensures kept { self.old.spare ≤ self.new.spare }
    {
        self.responses.reserve(n)?;
        self.incoming.reserve(n)?;
        Ok(())
    }

    /// What `handle_message` would answer for a message from an address.
    pub fn would_handle(&self, message: &NetlinkMessage<T>, source: SocketAddr) -> Handled<M>
        requires count { self.now.session.arrived + 1 < 2 ^ 64 }
        ensures handled { result ≡ handled (arrival_of message.now source) self.now.session }
        ensures ascending { IsAscending self.now.session.awaited }
    {
        let number = message.header.sequence_number;
        let to = match self.awaited.find(number, source.port) {
            Some(entry) => Place::Reply {
                metadata: entry.stream,
                done: is_last_of(message, entry.acks),
            },
            None => Place::Unsolicited,
        };
        Handled {
            arrival: self.arrived + 1,
            to,
        }
    }

    /// Takes in a message: a reply where its number is awaited from the port that it came from, else
    /// unsolicited. Takes no memory, and one of the places that `reserve` made.
    pub fn handle_message(&mut self, message: NetlinkMessage<T>, source: SocketAddr) -> Handled<M>
        requires room { 1 ≤ self.old.spare }
        requires count { self.old.session.arrived + 1 < 2 ^ 64 }
        ensures handled { result ≡ handled (arrival_of message source) self.old.session }
        ensures after { self.new.session ≡ arrived_at (arrival_of message source) self.old.session }
        ensures counted { self.new.session.arrived ≡ self.old.session.arrived + 1 }
        ensures continues { Continues self.old.session self.new.session }
        ensures ended { EndsNumber result.to message.header.sequence_number self.new.session }
        ensures room_left { self.old.spare ≤ self.new.spare + 1 }
    {
        let handled = self.would_handle(&message, source);
        let arrival = handled.arrival;
        self.arrived = arrival;
        match handled.to {
            Place::Reply { metadata, done } => {
                self.awaited.settle(message.header.sequence_number, done);
                self.responses.push_back_reserved(Response {
                    done,
                    message,
                    metadata,
                    arrival,
                });
            }
            Place::Unsolicited => {
                self.incoming.push_back_reserved(Incoming {
                    message,
                    source,
                    arrival,
                });
            }
        }
        handled
    }

    /// The last number given.
    pub fn sequence_id(&self) -> u32
        ensures last { result ≡ self.now.session.last }
        ensures greatest { AreBelow (result + 1) self.now.session.awaited }
    {
        self.last
    }

    /// Whether a number is awaited from a port.
    pub fn is_pending(&self, number: u32, port: u32) -> bool
        ensures pending { result ≡ is_some (first_awaiting number port self.now.session.awaited) }
        ensures ascending { IsAscending self.now.session.awaited }
    {
        self.awaited.find(number, port).is_some()
    }

    /// How many messages were taken in, replies and others.
    pub fn arrivals(&self) -> u64
        ensures { result ≡ self.now.session.arrived }
    {
        self.arrived
    }

    /// How many numbers are awaited.
    pub fn pending_len(&self) -> usize
        ensures len { result ≡ length self.now.session.awaited }
        ensures ascending { IsAscending self.now.session.awaited }
    {
        self.awaited.len()
    }

    /// Takes out the oldest reply.
    pub fn next_response(&mut self) -> Option<Response<T, M>>
        ensures none { IfNone result ((self.old.session.responses ≡ []) × (self.new.session ≡ self.old.session)) }
        ensures some { IfSome result (λ r. self.old.session ≡ with_response r self.new.session) }
        ensures spare { self.old.spare ≤ self.new.spare }
    {
        self.responses.pop_front()
    }

    /// Takes out the oldest message that nothing awaited.
    pub fn next_incoming(&mut self) -> Option<Incoming<T>>
        ensures none { IfNone result ((self.old.session.incoming ≡ []) × (self.new.session ≡ self.old.session)) }
        ensures some { IfSome result (λ r. self.old.session ≡ with_incoming r self.new.session) }
        ensures spare { self.old.spare ≤ self.new.spare }
    {
        self.incoming.pop_front()
    }

    /// Takes out the oldest datagram to be sent.
    pub fn next_outgoing(&mut self) -> Option<Outgoing<T>>
        ensures none { IfNone result ((self.old.session.outgoing ≡ []) × (self.new.session ≡ self.old.session)) }
        ensures some { IfSome result (λ r. self.old.session ≡ with_outgoing r self.new.session) }
        ensures spare { self.new.spare ≡ self.old.spare }
    {
        self.outgoing.pop_front()
    }

    /// The datagram that `next_outgoing` takes out next.
    pub fn front_outgoing(&self) -> Option<&Outgoing<T>>
        ensures none { IfNone result (self.now.session.outgoing ≡ []) }
        ensures some { IfSome result (λ o. BeginsWith o.now self.now.session.outgoing) }
    {
        self.outgoing.front()
    }

    /// Takes back the numbers that follow `last`, under which nothing was sent: of what is awaited
    /// the first `pending` stay.
    pub fn take_back(&mut self, last: u32, pending: usize)
        requires { AreBelow (last + 1) (take pending self.old.session.awaited) }
        ensures session { self.new.session ≡ taken_back last pending self.old.session }
        ensures spare { self.new.spare ≡ self.old.spare }
    {
        self.awaited.truncate(pending);
        self.last = last;
    }

    /// How many replies wait to be taken out.
    pub fn responses_len(&self) -> usize
        ensures { result ≡ length self.now.session.responses }
    {
        self.responses.len()
    }

    /// How many messages that nothing awaited wait to be taken out.
    pub fn incoming_len(&self) -> usize
        ensures { result ≡ length self.now.session.incoming }
    {
        self.incoming.len()
    }

    /// How many datagrams wait to be sent.
    pub fn outgoing_len(&self) -> usize
        ensures { result ≡ length self.now.session.outgoing }
    {
        self.outgoing.len()
    }
}

// Makes room for a request's datagram and notes what it awaits, or refuses it.
fn prepare<T: NetlinkSerializable, M: Copy>(
    awaited: &mut PendingTable<M>,
    outgoing: &mut VecDeque<Outgoing<T>>,
    request: &Request<T, M>,
    last: u32,
) -> Result<(), RequestRefusal>
    requires { AreBelow (last + 1) awaited.old }
    ensures in_range { OnOk result (last + length request.now.messages < 2 ^ 32) }
    ensures fit { OnOk result (list_all (message_fits T.text T.fitting) request.now.messages ≡ true) }
    ensures noted { OnOk result (awaited.new ≡ awaited.old ++ noted_of request.now last) }
    ensures below { OnOk result (AreBelow (last + length request.now.messages + 1) awaited.new) }
    ensures room { OnOk result (deque_len outgoing.new < deque_capacity outgoing.new) }
    ensures queue { outgoing.new.items ≡ outgoing.old.items }
    ensures refused { IfErr result (IsCause T.text T.fitting last request.now.messages) }
    ensures same { OnErr result (awaited.new ≡ awaited.old) }
{
    check_batch(request.messages.as_slice(), last)?;
    outgoing.reserve(1)?;
    note_all(awaited, request, last)?;
    Ok(())
}

impl<T: NetlinkSerializable, M: Copy> Protocol<T, M> {
    ghost use Rattle.proto_core.specs.Session.{Continues, requested};

    /// Gives the messages the next numbers and the headers of their payloads, notes which await a
    /// reply, and queues them as one datagram. A refusal hands the request back.
    pub fn request(&mut self, request: Request<T, M>) -> Result<(), (RequestRefusal, Request<T, M>)>
        ensures ok { OnOk result (self.new.session ≡ requested T.kind T.text self.old.session request) }
        ensures in_range { OnOk result (self.old.session.last + length request.messages < 2 ^ 32) }
        ensures fit { OnOk result (list_all (message_fits T.text T.fitting) request.messages ≡ true) }

        // Each number is one more than the one before it.
        ensures numbers { numbers_of (numbered T.kind T.text self.old.session.last request.messages)
            ≡ numbers_after self.old.session.last (length request.messages) }
        ensures continues { Continues self.old.session self.new.session }

        ensures refused { IfErr result (λ e. IsCause T.text T.fitting self.old.session.last request.messages e.0) }
        ensures returned { IfErr result (λ e. e.1 ≡ request) }
        ensures same { OnErr result (self.new.session ≡ self.old.session) }
        ensures spare { self.new.spare ≡ self.old.spare }
    {
        let last = self.last;
        if let Err(refusal) = prepare(&mut self.awaited, &mut self.outgoing, &request, last) {
            return Err((refusal, request));
        }
        let Request {
            messages,
            destination,
            ..
        } = request;
        let asked = messages.len() as u32;
        let messages = under_numbers(messages, last);
        self.last = last + asked;
        self.outgoing.push_back_reserved(Outgoing {
            messages,
            destination,
        });
        Ok(())
    }
}
