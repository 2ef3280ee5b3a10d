//! Each call of a tape failing and stalling in turn.
use super::*;

// A tape on which one call fails and another isn't ready.
fn planned(alloc: Global, fail: u64, stall: u64) -> Result<TapeLink, Fail> {
    Ok(TapeLink::with_plan(alloc, vec![in alloc; fail]?, vec![in alloc; stall]?))
}

// A connection with one request, to which one datagram comes, over a tape with a plan.
fn asked_over(
    alloc: Global,
    fail: u64,
    stall: u64,
) -> Result<(Tape, ConnectionHandle<RawMessage>), Fail> {
    let (mut connection, handle, _unsolicited): (Tape, ConnectionHandle<RawMessage>, _) =
        from_socket_with_codec(alloc, planned(alloc, fail, stall)?)?;
    handle.request(alloc, &mut connection, message(alloc, 99), PEER)?;
    push(alloc, connection.socket_mut(), &frame(5))?;
    Ok((connection, handle))
}

// One poll: how many messages were read so far, whether a request is refused then, and what was sent.
fn poll_once(
    alloc: Global,
    connection: &mut Tape,
    handle: ConnectionHandle<RawMessage>,
) -> Result<(u64, bool, Option<u8>), Fail> {
    let sent = sent_by_poll(connection)?;
    let refused = is_refused(alloc, connection, handle);
    Ok((connection.arrivals(), refused, sent))
}

// Two polls.
fn polled_twice(
    alloc: Global,
    fail: u64,
    stall: u64,
) -> Result<[(u64, bool, Option<u8>); 2], Fail> {
    let (mut connection, handle) = asked_over(alloc, fail, stall)?;
    let first = poll_once(alloc, &mut connection, handle)?;
    let second = poll_once(alloc, &mut connection, handle)?;
    Ok([first, second])
}

#[test]
fn calls_of_a_tape_fail_and_stall(rt: HostRuntime) -> Result<(), Fail> {
    let alloc = rt.alloc();
    // The first poll reads twice and sends, and the second reads and sends. Which call fails, which
    // isn't ready, and what becomes of the connection.
    let rows = [
        (0, 0, [(1, false, Some(1)), (1, false, Some(2))]),
        (1, 0, [(0, true, None), (0, true, None)]),
        (2, 0, [(1, true, None), (1, true, None)]),
        (3, 0, [(1, true, None), (1, true, None)]),
        (4, 0, [(1, false, Some(1)), (1, true, None)]),
        (0, 1, [(0, false, Some(1)), (1, false, Some(2))]),
        (0, 2, [(1, false, Some(1)), (1, false, Some(2))]),
        (0, 3, [(1, false, None), (1, false, Some(1))]),
        (3, 3, [(1, true, None), (1, true, None)]),
    ];
    for (fail, stall, becomes) in rows {
        assert_eq!(rt;
            polled_twice(alloc, fail, stall)?,
            becomes,
            "at {fail} {stall}"
        );
    }
    Ok(())
}

// What waits, and how many messages it has once it is handled.
fn fill_once(connection: &mut Tape) -> Result<(Waiting, u64), Fail> {
    let waiting = connection.fill()?;
    Ok((waiting, settle(connection)?))
}

// Two of them.
fn filled_twice(alloc: Global, fail: u64, stall: u64) -> Result<[(Waiting, u64); 2], Fail> {
    let (mut connection, _handle) = asked_over(alloc, fail, stall)?;
    let first = fill_once(&mut connection)?;
    let second = fill_once(&mut connection)?;
    Ok([first, second])
}

#[test]
fn reads_of_a_tape_fail_and_stall(rt: HostRuntime) -> Result<(), Fail> {
    let alloc = rt.alloc();
    let rows = [
        (0, 0, [(Waiting::Datagram, 1), (Waiting::Nothing, 0)]),
        (1, 0, [(Waiting::Closed, 0), (Waiting::Nothing, 0)]),
        (2, 0, [(Waiting::Datagram, 1), (Waiting::Closed, 0)]),
        (0, 1, [(Waiting::Nothing, 0), (Waiting::Datagram, 1)]),
        (0, 2, [(Waiting::Datagram, 1), (Waiting::Nothing, 0)]),
    ];
    for (fail, stall, becomes) in rows {
        assert_eq!(rt;
            filled_twice(alloc, fail, stall)?,
            becomes,
            "at {fail} {stall}"
        );
    }
    Ok(())
}

// Whether a framed link reads the message of number 5, or why it reads none.
fn next_read(
    alloc: Global,
    framed: &mut NetlinkFramed<RawMessage, TapeLink, NetlinkCodec>,
) -> Result<Polled<bool>, NoMemory> {
    match framed.poll_next()? {
        Polled::Ready((read, source)) => Ok(Polled::Ready(
            read == message(alloc, 5) && source == PEER,
        )),
        Polled::Ended => Ok(Polled::Ended),
        Polled::NotYet => Ok(Polled::NotYet),
    }
}

// Sends three messages, the last two as one datagram.
fn send_three(
    alloc: Global,
    framed: &mut NetlinkFramed<RawMessage, TapeLink, NetlinkCodec>,
) -> Result<(), FramedError> {
    framed.start_send((message(alloc, 5), PEER))?;
    framed.poll_ready()?;
    framed.start_send((message(alloc, 6), PEER))?;
    framed.start_send((message(alloc, 7), PEER))?;
    framed.poll_flush()?;
    framed.poll_close()?;
    Ok(())
}

#[test]
fn messages_over_a_tape(rt: HostRuntime) -> Result<(), Fail> {
    let alloc = rt.alloc();
    let Ok(mut framed) = NetlinkFramed::new(alloc, planned(alloc, 2, 1)?) else {
        return Err("no memory".into());
    };
    push(alloc, framed.get_mut(), &frame(5))?;
    assert_eq!(rt; next_read(alloc, &mut framed)?, Polled::NotYet);
    assert_eq!(rt; next_read(alloc, &mut framed)?, Polled::Ended);
    assert_eq!(rt; next_read(alloc, &mut framed)?, Polled::Ready(true));
    send_three(alloc, &mut framed)?;
    assert_eq!(rt; framed.get_ref().backlog(), 0);
    let mut link = framed.into_inner();
    assert_eq!(rt; link.take_sent().ok_or("nothing is sent")?.0.len(), 16);
    assert_eq!(rt; link.take_sent().ok_or("nothing is sent")?.0.len(), 32);
    Ok(())
}
