//! A datagram of raw messages: an empty frame of type 24, a done message without its code, the first
//! frame again, and three bytes.
use crate::*;
use bytes::BytesMut;
use nl_core::{NetlinkHeader, NetlinkMessage, NetlinkPayload, Octets, RawMessage};
use std::alloc::{AllocError, Global};
use std::test::Fail;

const GOOD: [u8; 16] = [16, 0, 0, 0, 24, 0, 2, 0, 9, 0, 0, 0, 0, 0, 0, 0];

const UNREADABLE: [u8; 18] = [18, 0, 0, 0, 3, 0, 2, 0, 1, 0, 0, 0, 0, 0, 0, 0, 0, 0];

fn good(alloc: Global) -> NetlinkMessage<RawMessage> {
    let header = NetlinkHeader {
        length: 16,
        message_type: 24,
        flags: 2,
        sequence_number: 9,
        port_number: 0,
    };
    let payload = NetlinkPayload::InnerMessage(RawMessage {
        message_type: 24,
        bytes: Octets::new(alloc),
    });
    NetlinkMessage { header, payload }
}

fn datagram(alloc: Global) -> Result<BytesMut, AllocError> {
    let mut src = BytesMut::new(alloc);
    src.extend_from_slice(&GOOD)?;
    src.extend_from_slice(&UNREADABLE)?;
    src.extend_from_slice(&GOOD)?;
    src.extend_from_slice(&[1, 2, 3])?;
    Ok(src)
}

#[test]
fn datagrams_are_read_and_written(rt: HostRuntime) -> Result<(), Fail> {
    let alloc = rt.alloc();
    let mut src = datagram(alloc)?;
    let unreadable = Decoded::Unreadable {
        message_type: 3,
        sequence_number: 1,
    };
    let rows = [
        Decoded::Message(good(alloc)),
        unreadable,
        Decoded::Message(good(alloc)),
        Decoded::Rest { bytes: 3 },
        Decoded::Empty,
    ];
    for decoded in rows {
        assert!(rt; NetlinkCodec::decode_next(alloc, &mut src)? == decoded);
    }
    let mut src = datagram(alloc)?;
    NetlinkCodec::decode::<RawMessage>(alloc, &mut src)?;
    assert!(rt; NetlinkCodec::decode(alloc, &mut src)? == Some(good(alloc)));
    assert!(rt; NetlinkCodec::decode::<RawMessage>(alloc, &mut src)?.is_none());
    NetlinkCodec::encode(good(alloc), &mut src)?;
    assert_eq!(rt; src.as_slice(), GOOD.as_slice());
    let text = format!(in alloc; "{}, {}", CodecError::Unfit, CodecError::NoMemory)?;
    assert_eq!(rt; text.as_str(), "message does not fit, out of memory");
    Ok(())
}
