//! Messages of the routing family through a whole session: links (types 16 to 19), addresses (20 to 22), routes (24 to 26), rules,
//! traffic control and its actions, by the layouts of include/uapi/linux/rtnetlink.h.
use super::sessions::Row;
use bytes::BytesMut;
use mirror::SocketAddr;
use nl_core::{DefaultNla, Items, NetlinkMessage, NoMemory, Octets};
use proto_core::{
    CodecError, ExpectResponse, NetlinkCodec, NetlinkMessageCodec, Protocol, Request,
    RequestRefusal,
};
use rt_dispatch::RouteNetlinkMessage;
use rt_other::LinkMessage;
use std::alloc::Global;
use std::test::Fail;

pub const MESSAGES: [Row; 6] = [
    // Short requests on links, addresses and routes are written whole.
    (
        &["run"],
        "recv 0 0 14000000120000000000000000000000070000001400000016000000000000000000000002000000110000001a000000000000000000000002\n",
        0,
        "unsol 1 0 0 18 0 0 0 07000000000000000000000000000000\nunsol 2 0 0 22 0 0 0 0200000000000000\nunsol 3 0 0 26 0 0 0 020000000000000000000000\nok 1 3 0 0 no\n",
    ),
    // Default headers.
    (
        &["run"],
        "recv 0 0 20000000100000000000000000000000000000000000000000000000000000001c0000002000000000000000000000000000000000000000000000002400000024000000000000000000000000000000000000000000000000000000000000001400000030000000000000000000000000000000\n",
        0,
        "unsol 1 0 0 16 0 0 0 00000000000000000000000000000000\nunsol 2 0 0 32 0 0 0 000000000000000000000000\nunsol 3 0 0 36 0 0 0 0000000000000000000000000000000000000000\nunsol 4 0 0 48 0 0 0 00000000\nok 1 4 0 0 no\n",
    ),
    // Link properties, a destination of three bytes, an attribute of length 3, and a cut header.
    (
        &["run"],
        "recv 0 0 200000006c00000000000000000000000000000000000000000000000000000024000000180000000000000000000000020000000000000000000000070001000a0000002400000010000000000000000000000000000000000000000000000000000000030001001400000010000000000000000000000000000000\n",
        0,
        "ok 1 0 4 0 no\n",
    ),
    // Padding that is missing is written, and a known kind has no flag bits.
    (
        &["run"],
        "recv 0 0 250000001000000000000000000000000000000000000000000000000000000005000700ab2c00000018000000000000000000000002080000fe030001000000000800048002000000080001000a000000\n",
        0,
        "unsol 1 0 0 16 0 0 0 0000000000000000000000000000000005000700ab000000\nunsol 2 0 0 24 0 0 0 02080000fe030001000000000800040002000000080001000a000000\nok 1 2 0 0 no\n",
    ),
    // A request leaves as its whole message, and one that can't be read is no record.
    (
        &["run"],
        "batch 0 0 n:1400000012000000000000000000000007000000\nbatch 0 0 n:200000006c000000000000000000000000000000000000000000000000000000\n",
        2,
        "sent 0 0 2000000012000000010000000000000007000000000000000000000000000000\nclosed 1\n",
    ),
    // A reply that can't be read stays awaited until the close.
    (
        &["run"],
        "batch 0 0 f:1c0000001a0001030000000000000000000000000000000000000000\nrecv 0 0 1400000018000200010000000000000000000000\nclose\n",
        0,
        "sent 0 0 1c0000001a0001030100000000000000000000000000000000000000\nclosed 1\nok 3 0 1 0 no\n",
    ),
];

// A link with one attribute of so many bytes, in a frame.
fn link_with(alloc: Global, count: usize) -> Result<NetlinkMessage<RouteNetlinkMessage>, NoMemory> {
    let value = Octets::from_vec(vec![in alloc; 0u8; count]?);
    let mut link = LinkMessage::empty(alloc);
    link.attributes.push(DefaultNla::new(7, value))?;
    Ok(NetlinkMessage::from(RouteNetlinkMessage::NewLink(link)))
}

// An attribute has at most 65,535 bytes, its header of 4 among them.
#[test]
fn an_attribute_too_long_is_not_encoded(rt: HostRuntime) -> Result<(), Fail> {
    let alloc = rt.alloc();
    for (count, result, len) in [
        (65_531, Ok(()), 3 + 16 + 16 + 65_536),
        (65_532, Err(CodecError::Unfit), 3),
    ] {
        let mut buffer = BytesMut::new(alloc);
        buffer.extend_from_slice(b"abc")?;
        let message = link_with(alloc, count)?;
        assert_eq!(rt; NetlinkCodec::encode(message, &mut buffer), result);
        assert_eq!(rt; buffer.len(), len);
        assert!(rt; buffer.as_slice().starts_with(b"abc"));
    }
    Ok(())
}

#[test]
fn a_request_is_refused_at_its_first_unfit_message(rt: HostRuntime) -> Result<(), Fail> {
    let alloc = rt.alloc();
    let mut session: Protocol<RouteNetlinkMessage, u64> = Protocol::new(alloc);
    let mut messages = Items::new(alloc);
    messages.push(link_with(alloc, 65_531)?)?;
    messages.push(link_with(alloc, 65_532)?)?;
    let refused = session.request(Request {
        metadata: 1,
        messages,
        destination: SocketAddr::new(0, 0),
        expect_response: ExpectResponse::FromFlags,
    });
    assert!(rt; matches!(&refused, Err((RequestRefusal::Unfit { index: 1 }, _))));
    assert_eq!(rt; session.sequence_id(), 0);
    Ok(())
}
