//! What moves between a connection's queue, its session and its lists.
ghost use Rattle.std.specs.Prelude.{◌≡◌, ◌==◌, ◌+◌, ◌≤◌, ◌<◌, ◌^◌, [], ◌∷◌, ◌++◌, length, if◌then◌else◌, OnErr, OnOk, true};
ghost use Rattle.std.specs.VecDeque.{deque_capacity, deque_len};
ghost use Rattle.proto_conn.specs.Conn.{TookSome, gave_up, handed_on, is_kept_back, messages_in, taken_in};
ghost use Rattle.proto_conn.specs.Fitting.{BatchesFit, IsTakable, RequestsFit};
ghost use Rattle.proto_conn.specs.Tallies.{AreBelow, AreNewest, IsTallied};
ghost use Rattle.proto_core.specs.declared.request.RequestRefusal.TheVariants.{NoMemory as OutOfMemory};

use crate::parts::{Forward, Reply};
use crate::tally::Tallies;
use nl_core::{NetlinkPayload, NetlinkSerializable, NoMemory};
use proto_core::{Incoming, Protocol, Request, RequestRefusal, Response};
use std::collections::VecDeque;
use stream_list::StreamList;

// Whether a reply is kept back by its payload.
fn is_kept_back<T>(forward: Forward, payload: &NetlinkPayload<T>) -> bool
    ensures { result ≡ is_kept_back forward payload.now }
{
    match payload {
        NetlinkPayload::Noop => !forward.noop,
        NetlinkPayload::Done(_) => !forward.done,
        NetlinkPayload::Error(error) => error.code.is_none() && !forward.ack,
        NetlinkPayload::Overrun(_) => false,
        NetlinkPayload::InnerMessage(_) => false,
    }
}

// Whether a stream was given up.
fn is_given_up(given_up: &[bool], stream: u64) -> bool
    ensures { result ≡ gave_up given_up.now stream }
{
    let at = stream.saturating_sub(1) as usize;
    at < given_up.len() && given_up[at]
}

// Hands one reply on, unless it is kept back or its stream was given up.
fn hand_on<T: Drop>(
    replies: &mut StreamList<Reply<T>>,
    given_up: &[bool],
    forward: Forward,
    response: Response<T, u64>,
)
    requires room { length replies.old.items < replies.old.room.items }
    requires stream { response.metadata < replies.old.room.streams }
    ensures replies { replies.new.items ≡ replies.old.items ++ handed_on forward given_up.now (response ∷ []) }
    ensures len { length replies.new.items ≤ length replies.old.items + 1 }
    ensures room { replies.new.room ≡ replies.old.room }
{
    if is_kept_back(forward, &response.message.payload) {
        return;
    }
    if is_given_up(given_up, response.metadata) {
        return;
    }
    replies.push_back_reserved(Reply {
        arrival: response.arrival,
        stream: response.metadata,
        message: response.message,
    });
}

/// Hands the replies of a session on.
pub fn forward_responses<T: Drop>(
    protocol: &mut Protocol<T, u64>,
    replies: &mut StreamList<Reply<T>>,
    given_up: &[bool],
    forward: Forward,
)
    requires room { length protocol.old.session.responses + length replies.old.items ≤ replies.old.room.items }
    requires streams { AreBelow replies.old.room.streams protocol.old.session.responses }
    ensures session { protocol.new.session ≡ record protocol.old.session { responses = [] } }
    ensures replies { replies.new.items ≡
        replies.old.items ++ handed_on forward given_up.now protocol.old.session.responses }
    ensures room { replies.new.room ≡ replies.old.room }
    ensures fits { length replies.new.items ≤ replies.new.room.items }
{
    'replies: while let Some(response) = protocol.next_response() {
        hand_on(replies, given_up, forward, response);
    }
}

/// Hands the messages on that nothing awaited, or drops them.
pub fn forward_incoming<T: Drop>(
    protocol: &mut Protocol<T, u64>,
    unsolicited: &mut VecDeque<Incoming<T>>,
    gone: bool,
)
    requires { length protocol.old.session.incoming + deque_len unsolicited.old ≤ deque_capacity unsolicited.old }
    ensures session { protocol.new.session ≡ record protocol.old.session { incoming = [] } }
    ensures unsolicited { unsolicited.new.items ≡
        unsolicited.old.items ++ (if gone then [] else protocol.old.session.incoming) }
    ensures room { deque_len unsolicited.new ≤ deque_capacity unsolicited.new }
{
    if gone {
        'drops: while let Some(_incoming) = protocol.next_incoming() {}
        return;
    }
    'moves: while let Some(incoming) = protocol.next_incoming() {
        unsolicited.push_back_reserved(incoming);
    }
}

// What a refusal is where there are numbers left and each message fits.
pub fn want_of_memory(refusal: RequestRefusal) -> NoMemory
    requires { refusal ≡ OutOfMemory }
{
    match refusal {
        RequestRefusal::SequenceExhausted { used: _, asked: _ } => unreachable!(),
        RequestRefusal::Unfit { index: _ } => unreachable!(),
        RequestRefusal::NoMemory => NoMemory,
    }
}

/// Takes requests into a session, all of them or until memory runs out.
pub fn take_requests<T: NetlinkSerializable>(
    queue: &mut VecDeque<Request<T, u64>>,
    count: &mut u32,
    protocol: &mut Protocol<T, u64>,
    tallies: &mut Tallies,
) -> Result<(), NoMemory>
    requires counted { count.old ≡ messages_in queue.old.items }
    requires numbers { protocol.old.session.last + count.old < 2 ^ 32 }
    requires fit { RequestsFit T.text T.fitting queue.old.items }
    requires batches { BatchesFit T.text T.fitting protocol.old.session.outgoing }
    requires newest { AreNewest (length tallies.old.streams) queue.old.items }
    requires tallied { IsTallied protocol.old.session.awaited protocol.old.session.responses
        protocol.old.session.arrived tallies.old }
    ensures ok { OnOk result (protocol.new.session ≡ taken_in T.kind T.text queue.old.items protocol.old.session) }
    ensures empty { OnOk result (queue.new.items ≡ []) }
    ensures err { OnErr result (TookSome T.kind T.text
        queue.old.items protocol.old.session queue.new.items protocol.new.session) }
    ensures memory { OnErr result (IsTakable T.text T.fitting queue.new.items protocol.new.session.last) }
    ensures fit { RequestsFit T.text T.fitting queue.new.items }
    ensures batches { BatchesFit T.text T.fitting protocol.new.session.outgoing }
    ensures counted { count.new ≡ messages_in queue.new.items }
    ensures numbers { protocol.new.session.last + count.new ≡ protocol.old.session.last + count.old }
    ensures lists { (protocol.new.session.responses ≡ protocol.old.session.responses)
        × (protocol.new.session.incoming ≡ protocol.old.session.incoming) }
    ensures given { length tallies.new.streams ≡ length tallies.old.streams }
    ensures newest { AreNewest (length tallies.new.streams) queue.new.items }
    ensures tallied { IsTallied protocol.new.session.awaited protocol.new.session.responses
        protocol.new.session.arrived tallies.new }
{
    'requests: while let Some(request) = queue.pop_front() {
        let len = request.messages.len() as u32;
        let stream = request.metadata;
        let awaited = protocol.pending_len();
        match protocol.request(request) {
            Ok(()) => {
                *count -= len;
                let noted = protocol.pending_len() - awaited;
                tallies.note_request(stream, noted);
            }
            Err((refusal, request)) => {
                queue.push_front_reserved(request);
                return Err(want_of_memory(refusal));
            }
        }
    }
    Ok(())
}
