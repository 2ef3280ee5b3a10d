//! Connections over a tape, with raw messages of type 1000 and a peer at port 7: each public call once.

mod faults;
mod streams;

use nl_core::{
    NLM_F_REQUEST, NetlinkHeader, NetlinkMessage, NetlinkPayload, NoMemory, Octets, RawMessage,
};
use proto_conn::*;
use proto_core::{NetlinkCodec, NetlinkProtoError, ReplyExpectation};
use session_model::SocketAddr;
use std::alloc::Global;
use std::test::Fail;

type Tape = Connection<RawMessage, TapeLink, NetlinkCodec>;

const PEER: SocketAddr = SocketAddr { port: 7, groups: 0 };

fn message(alloc: Global, number: u32) -> NetlinkMessage<RawMessage> {
    let header = NetlinkHeader {
        length: 16,
        message_type: 1000,
        flags: NLM_F_REQUEST,
        sequence_number: number,
        port_number: 0,
    };
    let payload = NetlinkPayload::InnerMessage(RawMessage {
        message_type: 1000,
        bytes: Octets::new(alloc),
    });
    NetlinkMessage { header, payload }
}

// The frame of a message with a number.
fn frame(number: u8) -> [u8; 16] {
    [16, 0, 0, 0, 232, 3, 1, 0, number, 0, 0, 0, 0, 0, 0, 0]
}

// A datagram from the peer waits.
fn push(alloc: Global, link: &mut TapeLink, bytes: &[u8]) -> Result<(), NoMemory> {
    let bytes = Octets::from_vec(Vec::from_slice(alloc, bytes)?);
    if bytes.len() > 65_536 {
        return Ok(());
    }
    link.push(Arrival::Datagram {
        source: PEER,
        bytes,
    })
}

// One poll, of a connection that has read little and has little to read.
fn poll(connection: &mut Tape) -> Result<Polled<()>, Fail> {
    if connection.arrivals() > 1000 || connection.socket().backlog() > 1000 {
        return Err("too much to read".into());
    }
    Ok(connection.poll()?)
}

// A connection over an empty tape.
fn opened(
    alloc: Global,
    start: u32,
) -> Result<(Tape, ConnectionHandle<RawMessage>, Unsolicited), NoMemory> {
    from_socket_at(alloc, TapeLink::new(alloc), start)
}

// Two requests of one message each, by the numbers of their streams.
fn ask_twice(
    alloc: Global,
    connection: &mut Tape,
    handle: ConnectionHandle<RawMessage>,
) -> Result<(u64, u64), Fail> {
    let first = handle.request(alloc, connection, message(alloc, 99), PEER)?;
    let marked = vec![in alloc; (message(alloc, 99), ReplyExpectation::Expected)]?;
    let second = handle.request_batch_with_expectation(alloc, connection, marked, PEER)?;
    Ok((first.id(), second.id()))
}

// The number of the one message that was sent to the peer, if one was.
fn sent(connection: &mut Tape) -> Option<u8> {
    let (bytes, to) = connection.socket_mut().take_sent()?;
    if bytes.len() != 16 || to != PEER {
        return None;
    }
    Some(bytes.as_slice()[8])
}

fn sent_by_poll(connection: &mut Tape) -> Result<Option<u8>, Fail> {
    poll(connection)?;
    Ok(sent(connection))
}

// What two polls send.
fn sent_by_two(connection: &mut Tape) -> Result<[Option<u8>; 2], Fail> {
    let first = sent_by_poll(connection)?;
    let second = sent_by_poll(connection)?;
    Ok([first, second])
}

// The peer sends messages with these numbers, and the connection reads them.
fn receive_both(alloc: Global, connection: &mut Tape, first: u8, second: u8) -> Result<(), Fail> {
    push(alloc, connection.socket_mut(), &frame(first))?;
    push(alloc, connection.socket_mut(), &frame(second))?;
    poll(connection)?;
    Ok(())
}

// The stream of the oldest reply.
fn next_stream(connection: &mut Tape) -> Option<u64> {
    Some(connection.next_reply()?.stream)
}

#[test]
fn a_poll_sends_one_batch(rt: HostRuntime) -> Result<(), Fail> {
    let alloc = rt.alloc();
    let (mut connection, handle, _unsolicited) = opened(alloc, 0)?;
    assert_eq!(rt; ask_twice(alloc, &mut connection, handle)?, (1, 2));
    assert_eq!(rt; sent_by_two(&mut connection)?, [Some(1), Some(2)]);
    receive_both(alloc, &mut connection, 2, 1)?;
    assert_eq!(rt; next_stream(&mut connection), Some(2));
    assert_eq!(rt; next_stream(&mut connection), Some(1));
    assert_eq!(rt; next_stream(&mut connection), None);
    Ok(())
}

// How many messages were taken in up to the oldest unsolicited one.
fn next_unsolicited(connection: &mut Tape, unsolicited: &mut Unsolicited) -> Polled<u64> {
    match unsolicited.poll_next(connection) {
        Polled::Ready(incoming) => Polled::Ready(incoming.arrival),
        Polled::Ended => Polled::Ended,
        Polled::NotYet => Polled::NotYet,
    }
}

// Whether a request is refused since the connection takes none.
fn is_refused(alloc: Global, connection: &mut Tape, handle: ConnectionHandle<RawMessage>) -> bool {
    match handle.request(alloc, connection, message(alloc, 99), PEER) {
        Err(NetlinkProtoError::ConnectionClosed) => true,
        Err(_) | Ok(_) => false,
    }
}

// Whether a request is refused before the side of requests is closed, and after.
fn close_requests(
    alloc: Global,
    connection: &mut Tape,
    handle: ConnectionHandle<RawMessage>,
) -> [bool; 2] {
    let before = is_refused(alloc, connection, handle);
    connection.close_requests();
    [before, is_refused(alloc, connection, handle)]
}

// The answer of the side of unsolicited messages once it is closed, and that of a poll.
fn close_unsolicited(
    connection: &mut Tape,
    unsolicited: &mut Unsolicited,
) -> Result<(Polled<u64>, Polled<()>), Fail> {
    connection.close_unsolicited();
    let next = next_unsolicited(connection, unsolicited);
    Ok((next, poll(connection)?))
}

#[test]
fn both_sides_close(rt: HostRuntime) -> Result<(), Fail> {
    let alloc = rt.alloc();
    let (mut connection, handle, mut unsolicited) = opened(alloc, 0)?;
    assert_eq!(rt;
        close_requests(alloc, &mut connection, handle),
        [false, true]
    );
    assert_eq!(rt; poll(&mut connection)?, Polled::NotYet);
    let closed = close_unsolicited(&mut connection, &mut unsolicited)?;
    assert_eq!(rt; closed, (Polled::Ended, Polled::Ready(())));
    Ok(())
}

// What waits is handled, of a connection that has read little.
fn settle(connection: &mut Tape) -> Result<u64, Fail> {
    if connection.arrivals() > 1000 {
        return Err("too much was read".into());
    }
    Ok(connection.settle()?)
}

// Whether the frame of a number waits, as it came from the peer.
fn waits(connection: &mut Tape, number: u8) -> Result<bool, Fail> {
    match connection.fill()? {
        Waiting::Datagram => {
            let (bytes, source) = connection.waiting_bytes();
            Ok(bytes == frame(number).as_slice() && source == PEER)
        }
        Waiting::Overrun | Waiting::Closed | Waiting::Nothing => Ok(false),
    }
}

#[test]
fn a_datagram_is_taken_by_itself(rt: HostRuntime) -> Result<(), Fail> {
    let alloc = rt.alloc();
    let (mut connection, _handle, mut unsolicited) = opened(alloc, 0)?;
    assert_eq!(rt; connection.fill()?, Waiting::Nothing);
    push(alloc, connection.socket_mut(), &frame(1))?;
    assert!(rt; waits(&mut connection, 1)?);
    assert!(rt; waits(&mut connection, 1)?);
    assert_eq!(rt; settle(&mut connection)?, 1);
    let next = next_unsolicited(&mut connection, &mut unsolicited);
    assert_eq!(rt; next, Polled::Ready(1));
    Ok(())
}

// What two fills of a connection over a link that closes tell.
fn fill_closed(connection: &mut Tape) -> Result<[Waiting; 2], Fail> {
    connection.socket_mut().push(Arrival::Closed)?;
    let first = connection.fill()?;
    Ok([first, connection.fill()?])
}

#[test]
fn a_closed_link_is_not_asked(rt: HostRuntime) -> Result<(), Fail> {
    let alloc = rt.alloc();
    let (mut connection, handle, _unsolicited) = opened(alloc, 0)?;
    let filled = fill_closed(&mut connection)?;
    assert_eq!(rt; filled, [Waiting::Closed, Waiting::Nothing]);
    assert_eq!(rt; poll(&mut connection)?, Polled::Ready(()));
    assert!(rt; is_refused(alloc, &mut connection, handle));
    Ok(())
}
