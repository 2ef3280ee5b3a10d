//! Priorities of one prefix in every order, the ends of both widths, and what messages change.

ghost use Rattle.std.specs.Prelude.{◌≡◌};

use crate::{Address, Answer, Blocked, Hop, Network, RouteChange, Routes, message_change};
use nl_core::{Items, NoMemory};
use rt_dispatch::RouteNetlinkMessage;
use rt_other::{
    AddressFamily, Ipv4Addr, RouteAddress, RouteAttribute, RouteHeader, RouteMessage,
    RouteProtocol, RouteType,
};
use std::alloc::Global;
use std::process::Abort;
use std::test::Fail;
use trie_map::Steps;

// What a route by a link does.
fn by(link: u32) -> Hop {
    Hop {
        kind: 1,
        oif: Some(link),
        gateway: None,
    }
}

// The link that the answer for an address leaves by.
fn link_to(routes: &Routes, blocked: &Blocked, address: Address) -> Option<u32> {
    match routes.lookup(address, blocked, &mut Steps::start()) {
        Answer::Found(route) => route.oif,
        _ => None,
    }
}

const NARROW: Network = Network::V4((0x0A01_0000, 16));

// Puts the route of a priority, by a link of the same number, or deletes it.
fn set(routes: &mut Routes, priority: u32, there: bool) -> Result<(), NoMemory> {
    routes.change(&RouteChange {
        network: NARROW,
        priority,
        hop: if there { Some(by(priority)) } else { None },
    })
}

// The least of three priorities that is there.
fn least(there: &[bool; 3]) -> Option<u32> {
    there.iter().position(|t| *t).map(|at| at as u32)
}

// Puts three priorities in an order, and deletes them in it, beside a plain list.
fn in_order(alloc: Global, order: &[u32; 3], rt: &impl Abort) -> Result<(), NoMemory> {
    let mut routes = Routes::new(alloc);
    let blocked = Blocked::new(alloc);
    let mut there = [false; 3];
    for put in [true, false] {
        for priority in order {
            set(&mut routes, *priority, put)?;
            if *priority < 3 {
                there[*priority as usize] = put;
            }
            let link = link_to(&routes, &blocked, Address::V4(0x0A01_0203));
            assert_eq!(rt; link, least(&there));
        }
    }
    Ok(())
}

#[test]
fn priorities_in_every_order(rt: HostRuntime) -> Result<(), Fail> {
    let orders = [
        [0u32, 1, 2],
        [0, 2, 1],
        [1, 0, 2],
        [1, 2, 0],
        [2, 0, 1],
        [2, 1, 0],
    ];
    for order in &orders {
        in_order(rt.alloc(), order, &rt)?;
    }
    Ok(())
}

// The change that puts a route by a link.
fn change(network: Network, link: u32) -> RouteChange
    ensures { result.network ≡ network }
{
    RouteChange {
        network,
        priority: 0,
        hop: Some(by(link)),
    }
}

#[test]
fn ends_of_both_widths(rt: HostRuntime) -> Result<(), Fail> {
    let mut routes = Routes::new(rt.alloc());
    let mut blocked = Blocked::new(rt.alloc());
    routes.change(&change(Network::V4((0, 0)), 1))?;
    routes.change(&change(Network::V4((0xFFFF_FFFF, 32)), 2))?;
    routes.change(&change(Network::V6((0, 0)), 3))?;
    routes.change(&change(Network::V6((u128::MAX, 128)), 4))?;
    let last = Address::V4(0xFFFF_FFFF);
    assert_eq!(rt; link_to(&routes, &blocked, last), Some(2));
    assert_eq!(rt;
        link_to(&routes, &blocked, Address::V4(0xFFFF_FFFE)),
        Some(1)
    );
    assert_eq!(rt; link_to(&routes, &blocked, Address::V6(u128::MAX)), Some(4));
    assert_eq!(rt; link_to(&routes, &blocked, Address::V6(0)), Some(3));
    assert!(rt; blocked.block(Network::V4((0xFFFF_FFFF, 32)))?);
    assert_eq!(rt; link_to(&routes, &blocked, last), Some(1));
    assert!(rt; blocked.unblock(Network::V4((0xFFFF_FFFF, 32))));
    assert_eq!(rt; link_to(&routes, &blocked, last), Some(2));
    Ok(())
}

// A message on a default route of IPv4 by link 4, which may have a destination.
fn default_route(alloc: Global, with_destination: bool) -> Result<RouteNetlinkMessage, NoMemory> {
    let mut attributes = Items::new(alloc);
    if with_destination {
        let any = RouteAddress::Inet(Ipv4Addr([0; 4]));
        attributes.push(RouteAttribute::Destination(any))?;
    }
    attributes.push(RouteAttribute::Oif(4))?;
    let header = RouteHeader {
        address_family: AddressFamily::Inet,
        destination_prefix_length: 0,
        source_prefix_length: 0,
        tos: 0,
        table: 254,
        protocol: RouteProtocol(3),
        scope: 0,
        kind: RouteType(1),
        flags: 0,
    };
    Ok(RouteNetlinkMessage::NewRoute(RouteMessage { header, attributes }))
}

#[test]
fn default_routes(rt: HostRuntime) -> Result<(), Fail> {
    let expected = Some(change(Network::V4((0, 0)), 4));
    for with_destination in [false, true] {
        let message = default_route(rt.alloc(), with_destination)?;
        assert_eq!(rt; message_change(&message, 254), expected);
        assert_eq!(rt; message_change(&message, 100), None);
    }
    Ok(())
}
