//! Tests of messages on neighbours.
use super::{is_text, written};
use bitflags::Flags;
use nl_core::{DecodeError, Emitable, Items, Octets, Parseable, TryClone};
use rt_neighbour::*;
use rt_other::{AddressFamily, IpAddr, Ipv4Addr, Ipv6Addr, RouteProtocol, RouteType};
use std::alloc::Global;
use std::str::FromStr;
use std::test::Fail;

#[test]
fn multicast_entry(rt: HostRuntime) -> Result<(), Fail> {
    let alloc = rt.alloc();
    let bytes = b"\x07\0\0\0\x03\0\0\0\x80\0\x02\0\x0a\0\x02\0\x01\0\x5e\0\0\x01\0\0";
    let header = NeighbourHeader {
        family: AddressFamily::Other(7),
        ifindex: 3,
        state: NeighbourState::Permanent,
        flags: NeighbourFlags::Own,
        kind: RouteType(0),
    };
    let address = Octets::from_vec(Vec::from_slice(alloc, &[1, 0, 0x5e, 0, 0, 1])?);
    let mut attributes = Items::new(alloc);
    attributes.push(NeighbourAttribute::LinkLayerAddress(address))?;
    let message = NeighbourMessage { header, attributes };
    assert!(rt; is_text(alloc, bytes, &message)?);
    Ok(())
}

#[test]
fn reachable_neighbour(rt: HostRuntime) -> Result<(), Fail> {
    let alloc = rt.alloc();
    let bytes = b"\x02\0\0\0\x02\0\0\0\x02\0\0\x01\x08\0\x01\0\x0a\0\0\x01\x06\0\x06\0\0\x50\0\0";
    let header = NeighbourHeader {
        family: AddressFamily::Inet,
        ifindex: 2,
        state: NeighbourState::Reachable,
        flags: NeighbourFlags::empty(),
        kind: RouteType(1),
    };
    let address = NeighbourAddress::from(Ipv4Addr([10, 0, 0, 1]));
    let mut attributes = Items::new(alloc);
    attributes.push(NeighbourAttribute::Destination(address))?;
    attributes.push(NeighbourAttribute::Port(80))?;
    let message = NeighbourMessage { header, attributes };
    assert!(rt; is_text(alloc, bytes, &message)?);
    Ok(())
}

#[test]
fn each_attribute(rt: HostRuntime) -> Result<(), Fail> {
    let alloc = rt.alloc();
    let times = NeighbourCacheInfo {
        confirmed: 1,
        used: 2,
        updated: 3,
        refcnt: 4,
    };
    let locked = NeighbourExtFlags::Locked;
    let table: [(&[u8], NeighbourAttribute); 11] = [
        (
            b"\x14\0\x03\0\x01\0\0\0\x02\0\0\0\x03\0\0\0\x04\0\0\0",
            NeighbourAttribute::CacheInfo(times),
        ),
        (b"\x08\0\x04\0\x05\0\0\0", NeighbourAttribute::Probes(5)),
        (b"\x06\0\x05\0\x02\x01\0\0", NeighbourAttribute::Vlan(258)),
        (b"\x06\0\x06\0\x01\x02\0\0", NeighbourAttribute::Port(258)),
        (b"\x08\0\x07\0\x07\0\0\0", NeighbourAttribute::Vni(7)),
        (b"\x08\0\x08\0\x08\0\0\0", NeighbourAttribute::IfIndex(8)),
        (b"\x08\0\x09\0\x09\0\0\0", NeighbourAttribute::Controller(9)),
        (
            b"\x08\0\x0a\0\x0a\0\0\0",
            NeighbourAttribute::LinkNetNsId(10),
        ),
        (b"\x08\0\x0b\0\x0b\0\0\0", NeighbourAttribute::SourceVni(11)),
        (
            b"\x05\0\x0c\0\x03\0\0\0",
            NeighbourAttribute::Protocol(RouteProtocol(3)),
        ),
        (
            b"\x08\0\x0f\0\x02\0\0\0",
            NeighbourAttribute::ExtFlags(locked),
        ),
    ];
    for (bytes, attribute) in table {
        let list = NeighbourAttribute::parse_list(alloc, bytes, AddressFamily::Unspec)?;
        let mut expected = Items::new(alloc);
        expected.push(attribute)?;
        assert_eq!(rt; list, expected);
        assert_eq!(rt; written(alloc, &list.as_slice())?.as_slice(), bytes);
    }
    Ok(())
}

#[test]
fn addresses(rt: HostRuntime) -> Result<(), Fail> {
    let alloc = rt.alloc();
    let octets = [1; 16];
    let v6 = NeighbourAddress::from(Ipv6Addr(octets));
    assert_eq!(rt; v6, NeighbourAddress::from(IpAddr::V6(Ipv6Addr(octets))));
    assert_eq!(rt;
        v6,
        NeighbourAddress::parse(alloc, AddressFamily::Inet6, &octets)?
    );
    assert_eq!(rt; written(alloc, &v6)?.as_slice(), octets.as_slice());
    let short = NeighbourAddress::parse(alloc, AddressFamily::Inet, &[1, 2, 3]);
    assert_eq!(rt; short.err(), Some(DecodeError::BadLength));
    let other = NeighbourAddress::parse(alloc, AddressFamily::Unspec, &[1, 2, 3])?;
    assert_eq!(rt; other.octets(), [1, 2, 3].as_slice());
    Ok(())
}

#[test]
fn states(rt: HostRuntime) -> Result<(), Fail> {
    let alloc = rt.alloc();
    let table = [
        (1, NeighbourState::Incomplete, "incomplete"),
        (2, NeighbourState::Reachable, "reachable"),
        (4, NeighbourState::Stale, "stale"),
        (8, NeighbourState::Delay, "delay"),
        (0x10, NeighbourState::Probe, "probe"),
        (0x20, NeighbourState::Failed, "failed"),
        (0x40, NeighbourState::Noarp, "noarp"),
        (0x80, NeighbourState::Permanent, "permanent"),
        (0, NeighbourState::None, "none"),
    ];
    for (number, state, name) in table {
        assert_eq!(rt; NeighbourState::from(number), state);
        assert_eq!(rt; u16::from(state), number);
        assert_eq!(rt; format!(in alloc; "{state}")?.as_str(), name);
        assert_eq!(rt; NeighbourState::from_str(name), Ok(state));
    }
    let other = NeighbourState::from(5);
    assert_eq!(rt; format!(in alloc; "{other}")?.as_str(), "other(5)");
    for text in ["None", "not a nud", "other(5)", ""] {
        assert_eq!(rt; NeighbourState::from_str(text), Err(DecodeError::BadText));
    }
    Ok(())
}

#[test]
fn flags(rt: HostRuntime) {
    let table = [
        (NeighbourFlags::Use, 1),
        (NeighbourFlags::Own, 2),
        (NeighbourFlags::Controller, 4),
        (NeighbourFlags::Proxy, 8),
        (NeighbourFlags::ExtLearned, 0x10),
        (NeighbourFlags::Offloaded, 0x20),
        (NeighbourFlags::Sticky, 0x40),
        (NeighbourFlags::Router, 0x80),
    ];
    for (flag, bits) in table {
        assert_eq!(rt; flag.bits(), bits);
        assert!(rt; NeighbourFlags::all().contains(flag));
    }
    let both = NeighbourFlags::Own | NeighbourFlags::Router;
    assert_eq!(rt; both, NeighbourFlags::from_bits_retain(0x82));
    assert!(rt; !both.contains(NeighbourFlags::Use));
    assert_eq!(rt;
        NeighbourFlags::from_name("Sticky"),
        Some(NeighbourFlags::Sticky)
    );
}

#[test]
fn further_flags(rt: HostRuntime) {
    assert_eq!(rt; NeighbourExtFlags::Managed.bits(), 1);
    assert_eq!(rt; NeighbourExtFlags::Locked.bits(), 2);
    assert_eq!(rt; NeighbourExtFlags::ExtValidated.bits(), 4);
    let both = NeighbourExtFlags::Managed | NeighbourExtFlags::from_bits_retain(0x8000_0000);
    assert!(rt; both.contains(NeighbourExtFlags::Managed));
    assert_eq!(rt; NeighbourExtFlags::all().bits(), u32::MAX);
    assert_eq!(rt;
        NeighbourExtFlags::from_bits(8),
        Some(NeighbourExtFlags::from_bits_retain(8))
    );
    assert!(rt; NeighbourExtFlags::empty().is_empty());
}

#[test]
fn buffers_and_laws(rt: HostRuntime) {
    let header = NeighbourHeader::default();
    assert_eq!(rt; NeighbourMessageBuffer::from(&header).to_bytes(), [0; 12]);
    assert_eq!(rt; NeighbourHeader::parse(&[0; 12]), Ok(header));
    let bytes = [1, 0, 0, 0, 2, 0, 0, 0, 3, 0, 0, 0, 4, 0, 0, 0];
    let times = NeighbourCacheInfo {
        confirmed: 1,
        used: 2,
        updated: 3,
        refcnt: 4,
    };
    assert_eq!(rt; NeighbourCacheInfoBuffer::from(&times).to_bytes(), bytes);
    assert_eq!(rt; NeighbourCacheInfo::parse(&bytes), Ok(times));
    neighbour_messages_read_back();
    rt_other::messages_read_back::<NeighbourHeader, NeighbourAttribute>();
    rt_other::read_messages_read_back::<NeighbourHeader, NeighbourAttribute>();
    rt_other::messages_fit_where_short::<NeighbourHeader, NeighbourAttribute>();
}
