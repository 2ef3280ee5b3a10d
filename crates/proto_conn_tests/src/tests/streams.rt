//! Streams of replies: their order, what is given up, and what their flags hand on.
use super::*;

// The number of the oldest message of a stream.
fn next_number(connection: &mut Tape, stream: &mut ReplyStream) -> Polled<u32> {
    match stream.poll_next(connection) {
        Polled::Ready(message) => Polled::Ready(message.header.sequence_number),
        Polled::Ended => Polled::Ended,
        Polled::NotYet => Polled::NotYet,
    }
}

// A connection with two requests of one message each, and their streams.
fn asked_by_two(alloc: Global) -> Result<(Tape, ReplyStream, ReplyStream), Fail> {
    let (mut connection, handle, _unsolicited) = opened(alloc, 0)?;
    let other = handle.clone()?;
    let first = handle.request(alloc, &mut connection, message(alloc, 99), PEER)?;
    let second = other.request(alloc, &mut connection, message(alloc, 99), PEER)?;
    Ok((connection, first, second))
}

// Two answers of a stream, and whether more of it may be read.
fn answers(connection: &mut Tape, stream: &mut ReplyStream) -> ([Polled<u32>; 2], bool) {
    let first = next_number(connection, stream);
    let second = next_number(connection, stream);
    ([first, second], connection.awaits(stream.id()))
}

#[test]
fn streams_give_their_own_replies(rt: HostRuntime) -> Result<(), Fail> {
    let alloc = rt.alloc();
    let (mut connection, mut first, mut second) = asked_by_two(alloc)?;
    let nothing = ([Polled::NotYet, Polled::NotYet], true);
    assert_eq!(rt; answers(&mut connection, &mut first), nothing);
    sent_by_two(&mut connection)?;
    receive_both(alloc, &mut connection, 2, 1)?;
    let one = ([Polled::Ready(1), Polled::Ended], false);
    assert_eq!(rt; answers(&mut connection, &mut first), one);
    let two = ([Polled::Ready(2), Polled::Ended], false);
    assert_eq!(rt; answers(&mut connection, &mut second), two);
    Ok(())
}

// The frame of one of several replies, which has its place among them as its port.
fn part(number: u8, place: u8) -> [u8; 16] {
    [16, 0, 0, 0, 232, 3, 2, 0, number, 0, 0, 0, place, 0, 0, 0]
}

// Two requests, and four replies to the first and the second in turn.
fn answered_in_turn(alloc: Global) -> Result<(Tape, ReplyStream, ReplyStream), Fail> {
    let (mut connection, first, second) = asked_by_two(alloc)?;
    sent_by_two(&mut connection)?;
    for (number, place) in [(1, 1), (2, 2), (1, 3), (2, 4)] {
        push(alloc, connection.socket_mut(), &part(number, place))?;
    }
    poll(&mut connection)?;
    Ok((connection, first, second))
}

// The place of the oldest reply of a stream.
fn next_part(connection: &mut Tape, stream: &mut ReplyStream) -> Polled<u32> {
    match stream.poll_next(connection) {
        Polled::Ready(message) => Polled::Ready(message.header.port_number),
        Polled::Ended => Polled::Ended,
        Polled::NotYet => Polled::NotYet,
    }
}

// Those of its next three.
fn parts(connection: &mut Tape, stream: &mut ReplyStream) -> [Polled<u32>; 3] {
    let first = next_part(connection, stream);
    let second = next_part(connection, stream);
    [first, second, next_part(connection, stream)]
}

#[test]
fn streams_are_read_in_another_order(rt: HostRuntime) -> Result<(), Fail> {
    let (mut connection, mut first, mut second) = answered_in_turn(rt.alloc())?;
    let two = parts(&mut connection, &mut second);
    assert_eq!(rt; two, [Polled::Ready(2), Polled::Ready(4), Polled::NotYet]);
    let one = parts(&mut connection, &mut first);
    assert_eq!(rt; one, [Polled::Ready(1), Polled::Ready(3), Polled::NotYet]);
    Ok(())
}

// The streams of the three oldest replies.
fn next_streams(connection: &mut Tape) -> [Option<u64>; 3] {
    let first = next_stream(connection);
    let second = next_stream(connection);
    [first, second, next_stream(connection)]
}

#[test]
fn a_stream_is_given_up_between_others(rt: HostRuntime) -> Result<(), Fail> {
    let (mut connection, first, mut second) = answered_in_turn(rt.alloc())?;
    assert_eq!(rt; next_part(&mut connection, &mut second), Polled::Ready(2));
    second.give_up(&mut connection);
    assert_eq!(rt; next_streams(&mut connection), [Some(1), Some(1), None]);
    assert!(rt; connection.awaits(first.id()));
    Ok(())
}

// A stream whose batch is sent is given up, and a message that awaits nothing is queued after it.
fn give_up(
    alloc: Global,
    connection: &mut Tape,
    handle: ConnectionHandle<RawMessage>,
) -> Result<(), Fail> {
    let batch = vec![in alloc; message(alloc, 99)]?;
    let stream = handle.request_batch(connection, batch, PEER)?;
    handle.notify(alloc, connection, message(alloc, 99), PEER)?;
    poll(connection)?;
    stream.give_up(connection);
    Ok(())
}

// The stream of a batch of one message that is sent in the call that takes it.
fn submit(alloc: Global, connection: &mut Tape) -> Result<ReplyStream, Fail> {
    connection.poll_requests()?;
    let marked = vec![in alloc; (message(alloc, 99), ReplyExpectation::Expected)]?;
    Ok(connection.submit(alloc, marked, PEER)?)
}

// Whether the frame of a number was sent to the peer.
fn was_sent(connection: &mut Tape, number: u8) -> bool {
    match connection.socket_mut().take_sent() {
        Some((bytes, to)) => bytes.as_slice() == frame(number).as_slice() && to == PEER,
        None => false,
    }
}

#[test]
fn a_batch_is_sent_at_once(rt: HostRuntime) -> Result<(), Fail> {
    let alloc = rt.alloc();
    let (mut connection, _handle, _unsolicited) = opened(alloc, 0)?;
    let mut stream = submit(alloc, &mut connection)?;
    assert!(rt; was_sent(&mut connection, 1));
    receive_both(alloc, &mut connection, 1, 2)?;
    let one = ([Polled::Ready(1), Polled::Ended], false);
    assert_eq!(rt; answers(&mut connection, &mut stream), one);
    Ok(())
}

#[test]
fn a_stream_is_given_up(rt: HostRuntime) -> Result<(), Fail> {
    let alloc = rt.alloc();
    let (mut connection, handle, mut unsolicited) = opened(alloc, 9)?;
    give_up(alloc, &mut connection, handle)?;
    receive_both(alloc, &mut connection, 10, 10)?;
    assert_eq!(rt; next_stream(&mut connection), None);
    assert_eq!(rt;
        next_unsolicited(&mut connection, &mut unsolicited),
        Polled::Ready(2)
    );
    assert_eq!(rt;
        next_unsolicited(&mut connection, &mut unsolicited),
        Polled::NotYet
    );
    Ok(())
}

// A no-op, an acknowledgement or the end of a dump under number 1, by its type.
fn control(message_type: u8) -> [u8; 36] {
    let mut bytes = [0; 36];
    bytes[0] = 36;
    bytes[4] = message_type;
    bytes[8] = 1;
    bytes
}

// A connection with one request, which is sent.
fn asked_once(alloc: Global) -> Result<Tape, Fail> {
    let (mut connection, handle, _unsolicited) = opened(alloc, 0)?;
    handle.request(alloc, &mut connection, message(alloc, 99), PEER)?;
    poll(&mut connection)?;
    Ok(connection)
}

// The stream of the message that comes and is handed on, if it is.
fn handed_on(alloc: Global, connection: &mut Tape, message_type: u8) -> Result<Option<u64>, Fail> {
    push(alloc, connection.socket_mut(), &control(message_type))?;
    poll(connection)?;
    Ok(next_stream(connection))
}

// The same under these flags: for no-ops, for acknowledgements and for the end of a dump.
fn handed_on_by(
    alloc: Global,
    message_type: u8,
    [noop, ack, done]: [bool; 3],
) -> Result<Option<u64>, Fail> {
    let mut connection = asked_once(alloc)?;
    connection.set_forward_noop(noop);
    connection.set_forward_ack(ack);
    connection.set_forward_done(done);
    handed_on(alloc, &mut connection, message_type)
}

#[test]
fn control_replies_are_handed_on_by_their_flags(rt: HostRuntime) -> Result<(), Fail> {
    let alloc = rt.alloc();
    // The types of a no-op, an acknowledgement and the end of a dump.
    let rows = [
        (1, [true, false, false], Some(1)),
        (1, [false, true, true], None),
        (2, [false, true, false], Some(1)),
        (2, [true, false, true], None),
        (3, [false, false, true], Some(1)),
        (3, [true, true, false], None),
    ];
    for (message_type, flags, stream) in rows {
        let handed = handed_on_by(alloc, message_type, flags)?;
        assert_eq!(rt; handed, stream, "of {message_type}");
    }
    Ok(())
}
