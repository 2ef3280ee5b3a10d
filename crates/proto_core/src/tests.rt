//! Each public call of a session once, over raw messages of type 1000 with a peer at port 7.
ghost use Rattle.std.specs.Prelude.{◌≡◌, ◌∷◌, [], IfOk, length};

use crate::*;
use nl_core::{
    Items, NLM_F_ACK, NLM_F_REQUEST, NetlinkHeader, NetlinkMessage, NetlinkPayload, NoMemory,
    Octets, RawMessage,
};
use std::alloc::Global;
use std::test::Fail;

const PEER: SocketAddr = SocketAddr { port: 7, groups: 0 };

fn message(alloc: Global, flags: u16, number: u32) -> NetlinkMessage<RawMessage> {
    let header = NetlinkHeader {
        length: 16,
        message_type: 1000,
        flags,
        sequence_number: number,
        port_number: 0,
    };
    let payload = NetlinkPayload::InnerMessage(RawMessage {
        message_type: 1000,
        bytes: Octets::new(alloc),
    });
    NetlinkMessage { header, payload }
}

// A request tagged 5 of one message whose header has number 99.
fn request(
    alloc: Global,
    flags: u16,
    expect_response: ExpectResponse,
) -> Result<Request<RawMessage, u8>, NoMemory> {
    let mut messages = Items::new(alloc);
    messages.push(message(alloc, flags, 99))?;
    Ok(Request {
        metadata: 5,
        messages,
        destination: PEER,
        expect_response,
    })
}

fn send(
    session: &mut Protocol<RawMessage, u8>,
    request: Request<RawMessage, u8>,
) -> Result<(), RequestRefusal>
    ensures { session.new.session.arrived ≡ session.old.session.arrived }
{
    session
        .request(request)
        .map_err(|(refusal, _request)| refusal)
}

#[test]
fn a_request_is_sent_and_its_reply_is_found(rt: HostRuntime) -> Result<(), Fail> {
    let alloc = rt.alloc();
    let mut session = Protocol::new(alloc);
    send(
        &mut session,
        request(alloc, NLM_F_REQUEST, ExpectResponse::FromFlags)?,
    )?;
    assert_eq!(rt; (session.sequence_id(), session.pending_len()), (1, 1));
    assert!(rt; session.is_pending(1, 7));
    assert_eq!(rt; session.outgoing_len(), 1);
    assert!(rt; session.front_outgoing().is_some());
    let sent = session.next_outgoing().ok_or("nothing is sent")?;
    assert_eq!(rt; sent.destination, PEER);
    assert!(rt; sent.messages.as_slice() == [message(alloc, NLM_F_REQUEST, 1)].as_slice());

    session.reserve(2)?;
    let expected = session.would_handle(&message(alloc, 0, 1), PEER);
    assert_eq!(rt;
        session.handle_message(message(alloc, 0, 1), PEER),
        expected
    );
    assert_eq!(rt; (session.arrivals(), session.responses_len()), (1, 1));
    let response = session.next_response().ok_or("no reply")?;
    assert_eq!(rt; (response.metadata, response.done), (5, true));
    let again = session.handle_message(message(alloc, 0, 1), PEER);
    assert_eq!(rt; again.to, Place::Unsolicited);
    assert_eq!(rt; session.incoming_len(), 1);
    assert_eq!(rt; session.next_incoming().ok_or("nothing came")?.source, PEER);
    Ok(())
}

#[test]
fn marks_count_and_numbers_end(rt: HostRuntime) -> Result<(), Fail> {
    let alloc = rt.alloc();
    let mut session = Protocol::with_start(alloc, 4_294_967_294);
    let mut marks = Items::new(alloc);
    marks.push(false)?;
    send(
        &mut session,
        request(alloc, NLM_F_ACK, ExpectResponse::Explicit(marks))?,
    )?;
    assert_eq!(rt;
        (session.sequence_id(), session.pending_len()),
        (4_294_967_295, 0)
    );
    let one = request(alloc, NLM_F_ACK, ExpectResponse::FromFlags)?;
    let used_up = RequestRefusal::SequenceExhausted {
        used: 4_294_967_295,
        asked: 1,
    };
    assert_eq!(rt;
        check_batch(one.messages.as_slice(), session.sequence_id()),
        Err(used_up)
    );
    assert_eq!(rt; send(&mut session, one), Err(used_up));
    let text = format!(in alloc; "{used_up}")?;
    assert_eq!(rt;
        text.as_str(),
        "sequence numbers are used up: 4294967295 used, 1 asked"
    );
    let unfit = format!(in alloc; "{}", RequestRefusal::Unfit { index: 2 })?;
    assert_eq!(rt; unfit.as_str(), "message 2 does not fit");
    Ok(())
}
