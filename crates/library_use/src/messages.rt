//! The messages of a datagram.

use bytes::BytesMut;
use nl_core::NetlinkPayload;
use proto_core::{Decoded, NetlinkCodec, NetlinkMessageCodec};
use rt_dispatch::RouteNetlinkMessage;
use std::test::Fail;

// A route to 10.1.0.0/16, and the end of a dump (NLMSG_DONE).
const DATAGRAM: [u8; 56] = [
    36, 0, 0, 0, 24, 0, 2, 0, 1, 0, 0, 0, 0, 0, 0, 0, 2, 16, 0, 0, 254, 3, 0, 1, 0, 0, 0, 0, 8, 0,
    1, 0, 10, 1, 0, 0, 20, 0, 0, 0, 3, 0, 2, 0, 1, 0, 0, 0, 0, 0, 0, 0, 0, 0, 0, 0,
];

#[test]
fn routes_of_a_datagram(rt: HostRuntime) -> Result<(), Fail> {
    let alloc = rt.alloc();
    let mut datagram = BytesMut::from(DATAGRAM.to_vec(alloc)?);
    let mut messages = Vec::new(alloc);
    'frames: loop {
        match NetlinkCodec::decode_next::<RouteNetlinkMessage>(alloc, &mut datagram)? {
            Decoded::Message(message) => messages.push(message)?,
            // A frame of an unknown type, or one whose payload can't be read.
            Decoded::Unreadable { .. } => {}
            // The bytes after the last frame, or none.
            Decoded::Rest { .. } | Decoded::Empty => break,
        }
    }

    let routes = messages.iter().filter(|message| {
        matches!(
            message.payload,
            NetlinkPayload::InnerMessage(RouteNetlinkMessage::NewRoute(_))
        )
    });
    assert_eq!(rt; routes.count(), 1);
    assert_eq!(rt; messages.len(), 2);
    Ok(())
}
