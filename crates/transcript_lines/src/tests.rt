//! Lines with the records that they spell, lines that spell none, and lines that are written.
ghost use Rattle.std.specs.Prelude.{◌<◌};

use super::line::spelled_record;
use super::{
    BytesReader, Line, LineDecoder, NumberReader, Word, every_input_has_an_outcome, one_record,
    pieces_agree, put_closed, put_incoming, put_line, put_outgoing, put_reply, read_record,
};
use nl_core::{Items, NetlinkHeader, NetlinkMessage, NetlinkPayload, NoMemory, Octets, RawMessage};
use proto_core::{Incoming, Outgoing, Response};
use session_model::{Address, BatchFrame, Mark, Network, Record, Settings, SocketAddr};
use std::alloc::Global;
use std::test::Fail;

#[derive(Clone, Copy)]
enum Expected {
    Nothing,
    Recv(u32, u32, &'static [u8]),
    Overrun,
    Close,
    Batch(u32, u32, &'static [(Mark, &'static [u8])]),
    Resync,
    Block(Network),
    Unblock(Network),
    Lookup(Address),
}

use Expected::{Batch, Block, Close, Lookup, Nothing, Overrun, Recv, Resync, Unblock};

fn octets(alloc: Global, bytes: &[u8]) -> Result<Octets, NoMemory> {
    Ok(Octets::from_vec(bytes.to_vec(alloc)?))
}

fn batch(
    alloc: Global,
    to: SocketAddr,
    words: &[(Mark, &'static [u8])],
) -> Result<Record, NoMemory> {
    let mut frames = Items::new(alloc);
    for (mark, bytes) in words {
        let bytes = octets(alloc, bytes)?;
        frames.push(BatchFrame { mark: *mark, bytes })?;
    }
    Ok(Record::Batch { to, frames })
}

fn record(alloc: Global, expected: Expected) -> Result<Option<Record>, NoMemory> {
    match expected {
        Nothing => Ok(None),
        Recv(port, groups, bytes) => Ok(Some(Record::Recv {
            source: SocketAddr { port, groups },
            bytes: octets(alloc, bytes)?,
        })),
        Overrun => Ok(Some(Record::Overrun)),
        Close => Ok(Some(Record::Close)),
        Batch(port, groups, words) => Ok(Some(batch(alloc, SocketAddr { port, groups }, words)?)),
        Resync => Ok(Some(Record::Resync)),
        Block(network) => Ok(Some(Record::Block(network))),
        Unblock(network) => Ok(Some(Record::Unblock(network))),
        Lookup(address) => Ok(Some(Record::Lookup(address))),
    }
}

static LINES: [(&[u8], Expected); 66] = [
    (b"overrun", Overrun),
    (b"close", Close),
    (b"recv 0 0 -", Recv(0, 0, b"")),
    (b"recv 7 1 00", Recv(7, 1, b"\x00")),
    (b"recv 10 20 0a1bff99", Recv(10, 20, b"\x0a\x1b\xff\x99")),
    (
        b"recv 4294967295 4294967295 7f",
        Recv(4_294_967_295, 4_294_967_295, b"\x7f"),
    ),
    (b"batch 0 0", Batch(0, 0, &[])),
    (
        b"batch 3 4 f:c0de",
        Batch(3, 4, &[(Mark::ByFlags, b"\xc0\xde")]),
    ),
    (b"batch 0 0 n:-", Batch(0, 0, &[(Mark::NotExpected, b"")])),
    (
        b"batch 1 0 e:01 n:02 f:0304",
        Batch(
            1,
            0,
            &[
                (Mark::Expected, b"\x01"),
                (Mark::NotExpected, b"\x02"),
                (Mark::ByFlags, b"\x03\x04"),
            ],
        ),
    ),
    (b"resync", Resync),
    (
        b"block 4 0a010000/16",
        Block(Network::V4((0x0a01_0000, 16))),
    ),
    (
        b"block 4 0a01ffff/16",
        Block(Network::V4((0x0a01_ffff, 16))),
    ),
    (
        b"block 6 20010db8000000000000000000000000/32",
        Block(Network::V6((0x2001_0db8_0000_0000_0000_0000_0000_0000, 32))),
    ),
    (b"unblock 4 00000000/0", Unblock(Network::V4((0, 0)))),
    (
        b"unblock 6 ffffffffffffffffffffffffffffffff/128",
        Unblock(Network::V6((u128::MAX, 128))),
    ),
    (b"lookup 4 0a000001", Lookup(Address::V4(0x0a00_0001))),
    (
        b"lookup 6 20010db8000000000000000000000001",
        Lookup(Address::V6(0x2001_0db8_0000_0000_0000_0000_0000_0001)),
    ),
    (b"", Nothing),
    (b" ", Nothing),
    (b"overrun ", Nothing),
    (b" overrun", Nothing),
    (b"close x", Nothing),
    (b"close\n", Nothing),
    (b"clos", Nothing),
    (b"Recv 0 0 -", Nothing),
    (b"recv", Nothing),
    (b"recv 0", Nothing),
    (b"recv 0 0", Nothing),
    (b"recv 0 0 ", Nothing),
    (b"recv 0 0 - ", Nothing),
    (b"recv 0 0 - -", Nothing),
    (b"recv  0 0 -", Nothing),
    (b"recv 0 0 0A", Nothing),
    (b"recv 0 0 0", Nothing),
    (b"recv 0 0 000", Nothing),
    (b"recv 0 0 0g", Nothing),
    (b"recv 0 0 --", Nothing),
    (b"recv 0 0 00-", Nothing),
    (b"recv 01 0 -", Nothing),
    (b"recv 0 00 -", Nothing),
    (b"recv +1 0 -", Nothing),
    (b"recv -1 0 -", Nothing),
    (b"recv 4294967296 0 -", Nothing),
    (b"recv 0 18446744073709551616 -", Nothing),
    (b"recv 0 0 00\n", Nothing),
    (b"recv\xc3\xa9 0 0 -", Nothing),
    (b"recv 0 0 \xff\xfe", Nothing),
    (b"batch 0 0 ", Nothing),
    (b"batch 0 0 f:00  f:00", Nothing),
    (b"batch 0 0 f00", Nothing),
    (b"batch 0 0 a:00", Nothing),
    (b"resync ", Nothing),
    (b"resync 0", Nothing),
    (b"block 4 0a010000/33", Nothing),
    (b"block 6 20010db8000000000000000000000000/129", Nothing),
    (b"block 4 0a010000/016", Nothing),
    (b"block 4 0a0100/16", Nothing),
    (b"block 5 0a010000/16", Nothing),
    (b"block 4 0A010000/16", Nothing),
    (b"block 4 0a010000", Nothing),
    (b"block 4 0a010000/16 ", Nothing),
    (b"lookup 4 0a00000", Nothing),
    (b"lookup 4 0a0000010", Nothing),
    (b"lookup 6 0a000001", Nothing),
    (b"lookup 4 -", Nothing),
];

#[test]
fn reads_lines(rt: HostRuntime) -> Result<(), Fail> {
    for (line, expected) in &LINES {
        let read = spelled_record(rt.alloc(), line)?;
        let expected = record(rt.alloc(), *expected)?;
        assert!(rt; read == expected, "at {line:?}");
    }
    Ok(())
}

// A datagram of 65,536 bytes is the longest, and a frame may be longer.
#[test]
fn bounds_datagrams(rt: HostRuntime) -> Result<(), Fail> {
    let datagram = b"recv 0 0 ".as_slice();
    let frame = b"batch 0 0 f:".as_slice();
    for (head, count, is_read) in [
        (datagram, 65_536u32, true),
        (datagram, 65_537, false),
        (frame, 65_537, true),
    ] {
        let mut line = head.to_vec(rt.alloc())?;
        for _ in 0..count {
            line.extend_from_slice(b"a5")?;
        }
        assert_eq!(rt;
            spelled_record(rt.alloc(), &line)?.is_some(),
            is_read,
            "at {count}"
        );
        let is_told = decoded(rt.alloc(), &line, 4096)? != Some(Line::Bad);
        assert_eq!(rt;
            is_told,
            is_read && head.len() == datagram.len(),
            "at {count}"
        );
    }
    Ok(())
}

// Pieces end inside a byte's digits, and one has the end of a line and the beginning of the next.
#[test]
fn keeps_decoded_bytes(rt: HostRuntime) -> Result<(), Fail> {
    pieces_agree::<RawMessage>();
    let mut decoder = LineDecoder::<RawMessage>::new(rt.alloc());
    assert!(rt; !decoder.begun());
    assert_eq!(rt; decoder.feed(b"recv 0 0 0a1b2")?.took, 14);
    assert!(rt; decoder.begun());
    assert_eq!(rt; decoder.held(), 2);
    let fed = decoder.feed(b"c\nclose")?;
    assert_eq!(rt; fed.took, 2);
    let datagram = record(rt.alloc(), Recv(0, 0, b"\x0a\x1b\x2c"))?;
    assert!(rt; fed.line == datagram.map(Line::Record));
    assert!(rt; !decoder.begun());
    assert_eq!(rt; decoder.held(), 0);
    drop(decoder);
    Ok(())
}

#[test]
fn reads_pieces(rt: HostRuntime) -> Result<(), Fail> {
    one_record();
    every_input_has_an_outcome::<RawMessage>();
    assert_eq!(rt;
        NumberReader::new().feed(b"12").feed(b"").feed(b"30").end(),
        Some(1230)
    );
    let reader = BytesReader::new(rt.alloc()).feed(b"c")?.feed(b"0d")?;
    assert_eq!(rt; reader.held(), 1);
    let read = BytesReader::new(rt.alloc()).feed(b"c")?.feed(b"0de")?.end();
    assert!(rt; read == Some(octets(rt.alloc(), b"\xc0\xde")?));
    drop(reader);
    Ok(())
}

// What a decoder tells of a line that comes in pieces of so many bytes.
fn decoded(alloc: Global, line: &[u8], size: usize) -> Result<Option<Line>, NoMemory>
    requires { 0 < size }
{
    let mut decoder = LineDecoder::<RawMessage>::new(alloc);
    for piece in line.chunks(size) {
        let fed = decoder.feed(piece)?;
        if fed.line.is_some() {
            return Ok(None);
        }
    }
    Ok(decoder.feed(b"\n")?.line)
}

// A line is told as it is read, in pieces of each size: one ends inside each word.
#[test]
fn decodes_pieces(rt: HostRuntime) -> Result<(), Fail> {
    for (line, _) in LINES.iter() {
        for size in 1..70usize {
            let told = decoded(rt.alloc(), line, size)?;
            let expected = match read_record::<RawMessage>(rt.alloc(), line)? {
                Some(entry) => Line::Record(entry),
                None => Line::Bad,
            };
            let is_cut = line.contains(&b'\n');
            assert!(rt; is_cut || told == Some(expected), "at {line:?}");
        }
    }
    Ok(())
}

static FRAMES: [(&[u8], bool); 6] = [
    (b"batch 0 0 f:10000000180001000000000000000000", true),
    (b"batch 0 0 f:11000000180001000000000000000000", false),
    (b"batch 0 0 f:0f000000180001000000000000000000", false),
    (b"batch 0 0 e:1000000018000100000000000000000000", false),
    (b"batch 0 0 n:-", false),
    (b"recv 0 0 00", true),
];

// The length field of a frame is its count of bytes. What a datagram holds isn't looked at.
#[test]
fn reads_whole_frames(rt: HostRuntime) -> Result<(), Fail> {
    for (line, is_read) in &FRAMES {
        let read = read_record::<RawMessage>(rt.alloc(), line)?;
        assert_eq!(rt; read.is_some(), *is_read, "at {line:?}");
    }
    Ok(())
}

fn message(payload: NetlinkPayload<RawMessage>) -> NetlinkMessage<RawMessage> {
    NetlinkMessage {
        header: NetlinkHeader {
            length: 18,
            message_type: 24,
            flags: 2,
            sequence_number: 9,
            port_number: 5,
        },
        payload,
    }
}

fn inner(alloc: Global) -> Result<NetlinkMessage<RawMessage>, NoMemory> {
    let bytes = octets(alloc, b"\xc0\xde")?;
    Ok(message(NetlinkPayload::InnerMessage(RawMessage {
        message_type: 24,
        bytes,
    })))
}

const WRITTEN: &[u8] = b"unsol 3 0 64 24 2 9 5 c0de
reply 4 2 24 2 9 5 c0de
sent 1 0 12000000180002000900000005000000c0de
closed 7
ok yes 10 ff00 - 0a010000/16
";

// One line of each kind. A reply that is kept back and a datagram of no messages have none.
#[test]
fn writes_lines(rt: HostRuntime) -> Result<(), Fail> {
    let mut text = Vec::new(rt.alloc());
    let incoming = Incoming {
        message: inner(rt.alloc())?,
        source: SocketAddr {
            port: 0,
            groups: 64,
        },
        arrival: 3,
    };
    put_incoming(&mut text, &incoming)?;
    for (arrival, message) in [
        (4u64, inner(rt.alloc())?),
        (5, message(NetlinkPayload::Noop)),
    ] {
        let response = Response {
            done: true,
            message,
            metadata: 2u64,
            arrival,
        };
        put_reply(&Settings::usual(), &mut text, &response)?;
    }
    let mut outgoing = Outgoing {
        messages: Items::new(rt.alloc()),
        destination: SocketAddr { port: 1, groups: 0 },
    };
    put_outgoing(&mut text, &outgoing)?;
    outgoing.messages.push(inner(rt.alloc())?)?;
    put_outgoing(&mut text, &outgoing)?;
    put_closed(&mut text, 7)?;
    let words = [
        Word::Plain(b"yes"),
        Word::Number(10),
        Word::Hex(b"\xff\x00"),
        Word::Hex(b""),
        Word::Prefix {
            octets: b"\x0a\x01\x00\x00",
            length: 16,
        },
    ];
    put_line(&mut text, b"ok", &words)?;
    assert_eq!(rt; text.as_slice(), WRITTEN);
    Ok(())
}
