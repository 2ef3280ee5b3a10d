//! Each public call once, and whole dumps, by frames as they stand in datagrams.

use crate::{Address, Answer, Mirror, Network};
use nl_core::NoMemory;
use proto_core::{Handled, Place, read_frame};
use session_model::SocketAddr;
use std::alloc::Global;
use std::process::Abort;
use std::test::Fail;
use trie_map::Steps;

// 10.0.0.0/8 by link 2.
const WIDE_ROUTE: [u8; 44] = [
    44, 0, 0, 0, 24, 0, 2, 0, 1, 0, 0, 0, 0, 0, 0, 0, 2, 8, 0, 0, 254, 3, 0, 1, 0, 0, 0, 0, 8, 0,
    1, 0, 10, 0, 0, 0, 8, 0, 4, 0, 2, 0, 0, 0,
];

// 10.1.0.0/16 by link 3 and a gateway, of priority 100.
const COSTLY_ROUTE: [u8; 60] = [
    60, 0, 0, 0, 24, 0, 2, 0, 1, 0, 0, 0, 0, 0, 0, 0, 2, 16, 0, 0, 254, 3, 0, 1, 0, 0, 0, 0, 8, 0,
    1, 0, 10, 1, 0, 0, 8, 0, 4, 0, 3, 0, 0, 0, 8, 0, 5, 0, 10, 0, 0, 1, 8, 0, 6, 0, 100, 0, 0, 0,
];

// 10.1.0.0/16 by link 4, of priority 50.
const CHEAP_ROUTE: [u8; 52] = [
    52, 0, 0, 0, 24, 0, 2, 0, 1, 0, 0, 0, 0, 0, 0, 0, 2, 16, 0, 0, 254, 3, 0, 1, 0, 0, 0, 0, 8, 0,
    1, 0, 10, 1, 0, 0, 8, 0, 4, 0, 4, 0, 0, 0, 8, 0, 6, 0, 50, 0, 0, 0,
];

// 10.9.0.0/16 by link 2.
const GONE_ROUTE: [u8; 44] = [
    44, 0, 0, 0, 24, 0, 2, 0, 1, 0, 0, 0, 0, 0, 0, 0, 2, 16, 0, 0, 254, 3, 0, 1, 0, 0, 0, 0, 8, 0,
    1, 0, 10, 9, 0, 0, 8, 0, 4, 0, 2, 0, 0, 0,
];

// 10.9.0.0/16 is deleted.
const DELETION: [u8; 36] = [
    36, 0, 0, 0, 25, 0, 0, 0, 0, 0, 0, 0, 0, 0, 0, 0, 2, 16, 0, 0, 254, 3, 0, 1, 0, 0, 0, 0, 8, 0,
    1, 0, 10, 9, 0, 0,
];

// 2001:db8::/32 by link 2.
const V6_ROUTE: [u8; 56] = [
    56, 0, 0, 0, 24, 0, 2, 0, 1, 0, 0, 0, 0, 0, 0, 0, 10, 32, 0, 0, 254, 3, 0, 1, 0, 0, 0, 0, 20,
    0, 1, 0, 32, 1, 13, 184, 0, 0, 0, 0, 0, 0, 0, 0, 0, 0, 0, 0, 8, 0, 4, 0, 2, 0, 0, 0,
];

// The end of a dump.
const DONE: [u8; 20] = [20, 0, 0, 0, 3, 0, 2, 0, 1, 0, 0, 0, 0, 0, 0, 0, 0, 0, 0, 0];

// The end of a dump that was interrupted.
const INTERRUPTED_DONE: [u8; 20] = [20, 0, 0, 0, 3, 0, 18, 0, 1, 0, 0, 0, 0, 0, 0, 0, 0, 0, 0, 0];

// The end of a dump that failed.
const FAILED_DONE: [u8; 20] = [
    20, 0, 0, 0, 3, 0, 2, 0, 1, 0, 0, 0, 0, 0, 0, 0, 252, 255, 255, 255,
];

// 11.0.0.0/8 of another routing table.
const OTHER_TABLE: [u8; 44] = [
    44, 0, 0, 0, 24, 0, 0, 0, 0, 0, 0, 0, 0, 0, 0, 0, 2, 8, 0, 0, 253, 3, 0, 1, 0, 0, 0, 0, 8, 0,
    1, 0, 11, 0, 0, 0, 8, 0, 4, 0, 2, 0, 0, 0,
];

// Messages were lost.
const OVERRUN: [u8; 16] = [16, 0, 0, 0, 4, 0, 0, 0, 0, 0, 0, 0, 0, 0, 0, 0];

// Takes in a frame that came from a port.
fn take(
    alloc: Global,
    mirror: &mut Mirror,
    frame: &[u8],
    port: u32,
    to: Place<u64>,
) -> Result<(), NoMemory> {
    match read_frame(alloc, frame)? {
        Some(message) => {
            let handled = Handled { arrival: 1, to };
            mirror.take_message(&message, SocketAddr::new(port, 0), &handled)
        }
        None => Ok(()),
    }
}

// A reply of a stream.
fn reply(stream: u64, done: bool) -> Place<u64> {
    Place::Reply {
        metadata: stream,
        done,
    }
}

// The network, the priority and the link of the answer for an address.
fn route_to(mirror: &Mirror, address: Address) -> Option<(Network, u32, Option<u32>)> {
    match mirror.lookup(address, &mut Steps::start()) {
        Answer::Found(route) => Some((route.network, route.priority, route.oif)),
        _ => None,
    }
}

const WIDE: Network = Network::V4((0x0A00_0000, 8));

const NARROW: Network = Network::V4((0x0A01_0000, 16));

// A dump of five routes, one of which is deleted before its end.
fn dump(alloc: Global, mirror: &mut Mirror) -> Result<(), NoMemory> {
    mirror.asked(1)?;
    let replies: [&[u8]; 4] = [&WIDE_ROUTE, &COSTLY_ROUTE, &CHEAP_ROUTE, &GONE_ROUTE];
    for frame in replies {
        take(alloc, mirror, frame, 0, reply(1, false))?;
    }
    take(alloc, mirror, &DELETION, 0, Place::Unsolicited)?;
    take(alloc, mirror, &V6_ROUTE, 0, reply(1, false))?;
    take(alloc, mirror, &DONE, 0, reply(1, true))
}

fn answers(mirror: &Mirror, rt: &impl Abort) {
    let v6 = 0x2001_0DB8 << 96;
    let rows = [
        (Address::V4(0x0A01_0203), Some((NARROW, 50, Some(4)))),
        (Address::V4(0x0A09_0001), Some((WIDE, 0, Some(2)))),
        (
            Address::V6(v6 + 1),
            Some((Network::V6((v6, 32)), 0, Some(2))),
        ),
        (Address::V4(0x0B00_0000), None),
    ];
    for (address, expected) in rows {
        assert_eq!(rt; route_to(mirror, address), expected);
    }
}

fn blocks(mirror: &mut Mirror, rt: &impl Abort) -> Result<(), NoMemory> {
    let inside = Address::V4(0x0A01_0203);
    assert!(rt; mirror.block(Network::V4((0x0A01_FFFF, 16)))?);
    assert_eq!(rt; route_to(mirror, inside), Some((WIDE, 0, Some(2))));
    assert!(rt; mirror.block(Network::V4((0, 0)))?);
    assert_eq!(rt; route_to(mirror, inside), None);
    assert!(rt; mirror.unblock(Network::V4((0, 0))));
    assert!(rt; mirror.unblock(NARROW));
    assert_eq!(rt; route_to(mirror, inside), Some((NARROW, 50, Some(4))));
    Ok(())
}

#[test]
fn realistic_dump(rt: HostRuntime) -> Result<(), Fail> {
    let mut mirror = Mirror::new(rt.alloc(), 0, 254)?;
    assert!(rt; !mirror.in_step());
    dump(rt.alloc(), &mut mirror)?;
    assert!(rt; mirror.in_step());
    answers(&mirror, &rt);
    blocks(&mut mirror, &rt)?;
    Ok(())
}

// Two dumps with a loss between them, the second of which ends by this frame.
fn two_dumps(alloc: Global, mirror: &mut Mirror, last: &[u8]) -> Result<(), NoMemory> {
    mirror.asked(1)?;
    mirror.lost();
    mirror.asked(2)?;
    take(alloc, mirror, &DONE, 0, reply(1, true))?;
    take(alloc, mirror, last, 0, reply(2, true))
}

// The answer after them.
fn answer_after(alloc: Global, last: &[u8]) -> Result<Answer, NoMemory> {
    let mut mirror = Mirror::new(alloc, 0, 254)?;
    two_dumps(alloc, &mut mirror, last)?;
    Ok(mirror.lookup(Address::V4(0x0A00_0001), &mut Steps::start()))
}

#[test]
fn dumps_that_overlap_or_fail(rt: HostRuntime) -> Result<(), Fail> {
    let rows: [(&[u8], Answer); 3] = [
        (&DONE, Answer::Absent),
        (&INTERRUPTED_DONE, Answer::Stale),
        (&FAILED_DONE, Answer::Stale),
    ];
    for (last, expected) in rows {
        assert_eq!(rt; answer_after(rt.alloc(), last)?, expected);
    }
    Ok(())
}

// What comes from another port, or is of another table, changes nothing.
fn others(alloc: Global, mirror: &mut Mirror) -> Result<(), NoMemory> {
    let foreign = SocketAddr::new(9, 0);
    take(alloc, mirror, &WIDE_ROUTE, 9, Place::Unsolicited)?;
    take(alloc, mirror, &OTHER_TABLE, 0, Place::Unsolicited)?;
    take(alloc, mirror, &OVERRUN, 9, Place::Unsolicited)?;
    mirror.unread(16, SocketAddr::new(0, 0));
    mirror.unread(24, foreign);
    mirror.leftover(foreign);
    Ok(())
}

// A notification, and then a loss.
fn notified(alloc: Global, mirror: &mut Mirror, rt: &impl Abort) -> Result<(), NoMemory> {
    let inside = Address::V4(0x0A00_0001);
    assert_eq!(rt; route_to(mirror, inside), None);
    take(alloc, mirror, &WIDE_ROUTE, 0, Place::Unsolicited)?;
    assert_eq!(rt; route_to(mirror, inside), Some((WIDE, 0, Some(2))));
    take(alloc, mirror, &OVERRUN, 0, Place::Unsolicited)?;
    assert!(rt; !mirror.in_step());
    mirror.closed();
    Ok(())
}

#[test]
fn notifications_and_losses(rt: HostRuntime) -> Result<(), Fail> {
    let mut mirror = Mirror::new(rt.alloc(), 0, 254)?;
    two_dumps(rt.alloc(), &mut mirror, &DONE)?;
    others(rt.alloc(), &mut mirror)?;
    assert!(rt; mirror.in_step());
    notified(rt.alloc(), &mut mirror, &rt)?;
    assert!(rt; !mirror.in_step());
    Ok(())
}
