//! Tests of messages, families and counters.
use super::written;
use nl_core::{DecodeError, DefaultNla, Emitable, Octets, Parseable, TryClone};
use rt_other::*;
use std::alloc::Global;
use std::test::Fail;

// The text of what a payload reads as, which is equal to its clone.
fn rewritten<'a, M>(alloc: Global, payload: &'a [u8]) -> Result<Vec<u8>, Fail>
where
    M: Parseable<&'a [u8]> + Emitable + TryClone + PartialEq + Drop,
{
    let message = M::parse(alloc, &payload)?;
    if message.clone_with()? != message {
        return Err(Fail::from("another clone"));
    }
    written(alloc, &message)
}

const ROUTE: &[u8] = b"\x02\x18\0\0\xfe\x03\0\x01\0\0\0\0\
    \x08\0\x01\0\x0a\x01\x02\0\x08\0\x04\0\x02\0\0\0\x08\0\x05\0\x0a\0\0\x01\
    \x08\0\x06\0\x03\0\0\0\x08\0\x0f\0\xfe\0\0\0\x05\0\x07\x80\x09\0\0\0";

const ROUTE6: &[u8] = b"\x0a\x20\0\0\xfe\0\0\x01\0\0\0\0\
    \x14\0\x01\0\x20\x01\x0d\xb8\0\0\0\0\0\0\0\0\0\0\0\0";

const ROUTE_OF_LABELS: &[u8] = b"\x1c\x14\0\0\xfe\0\0\x01\0\0\0\0\x07\0\x01\0\x10\x20\x30\0";

#[test]
fn routes_read_and_written(rt: HostRuntime) -> Result<(), Fail> {
    let alloc = rt.alloc();
    for bytes in [ROUTE, ROUTE6, ROUTE_OF_LABELS] {
        assert_eq!(rt; rewritten::<RouteMessage>(alloc, bytes)?.as_slice(), bytes);
    }
    let route = RouteMessage::parse(alloc, ROUTE)?;
    assert_eq!(rt; route.header.protocol, RouteProtocol::from(3));
    assert_eq!(rt; u8::from(route.header.kind), 1);
    assert_eq!(rt; route.attributes.len(), 6);
    let gateway = RouteAttribute::Gateway(RouteAddress::Inet(Ipv4Addr([10, 0, 0, 1])));
    assert_eq!(rt; route.attributes.as_slice()[2], gateway);
    Ok(())
}

#[test]
fn routes_refused(rt: HostRuntime) {
    let alloc = rt.alloc();
    let table: [(&[u8], DecodeError); 5] = [
        (
            b"\x02\0\0\0\0\0\0\0\0\0\0",
            DecodeError::TooSmall { have: 11, need: 12 },
        ),
        (
            b"\x02\0\0\0\0\0\0\0\0\0\0\0\x07\0\x01\0\x0a\0\0\0",
            DecodeError::BadLength,
        ),
        (
            b"\x0a\0\0\0\0\0\0\0\0\0\0\0\x08\0\x05\0\x0a\0\0\0",
            DecodeError::BadLength,
        ),
        (
            b"\x02\0\0\0\0\0\0\0\0\0\0\0\x06\0\x04\0\x0a\0\0\0",
            DecodeError::BadLength,
        ),
        (
            b"\x02\0\0\0\0\0\0\0\0\0\0\0\x08\0\x04\0\x0a\0\0",
            DecodeError::BadAttribute,
        ),
    ];
    for (bytes, error) in table {
        assert_eq!(rt; RouteMessage::parse(alloc, bytes).err(), Some(error));
    }
}

const LINK: &[u8] = b"\0\0\x01\0\x02\0\0\0\x43\0\x01\0\xff\xff\xff\xff\x07\0\x03\0lo\0\0";

const ADDRESS: &[u8] = b"\x02\x08\x80\xfe\x01\0\0\0\x08\0\x01\0\x7f\0\0\x01";

const RULE: &[u8] = b"\x02\x18\x10\x08\xfe\0\0\x01\x02\0\0\0\x08\0\x0f\0\xfe\0\0\0";

const TC: &[u8] =
    b"\0\0\0\0\xfe\xff\xff\xff\x01\0\x02\0\xff\xff\xff\xff\x05\0\0\0\x06\0\x01\0fq\0\0";

const TC_ACTION: &[u8] = b"\0\0\0\0\x04\0\x01\x80";

#[test]
fn other_messages_read_and_written(rt: HostRuntime) -> Result<(), Fail> {
    let alloc = rt.alloc();
    assert_eq!(rt; rewritten::<LinkMessage>(alloc, LINK)?.as_slice(), LINK);
    assert_eq!(rt;
        rewritten::<AddressMessage>(alloc, ADDRESS)?.as_slice(),
        ADDRESS
    );
    assert_eq!(rt; rewritten::<RuleMessage>(alloc, RULE)?.as_slice(), RULE);
    assert_eq!(rt; rewritten::<TcMessage>(alloc, TC)?.as_slice(), TC);
    assert_eq!(rt;
        rewritten::<TcActionMessage>(alloc, TC_ACTION)?.as_slice(),
        TC_ACTION
    );
    let flags = LinkHeader::parse(LINK)?.flags;
    assert_eq!(rt; flags & IFF_UP, IFF_UP);
    assert_eq!(rt; TcHeader::parse(TC)?.index, -2);
    Ok(())
}

#[test]
fn empty_messages(rt: HostRuntime) -> Result<(), Fail> {
    let alloc = rt.alloc();
    let zeros = [0; 16];
    let link = LinkMessage::empty(alloc);
    assert_eq!(rt; written(alloc, &link)?.as_slice(), &zeros[..16]);
    let route = RouteMessage::empty(alloc);
    assert_eq!(rt; written(alloc, &route)?.as_slice(), &zeros[..12]);
    let short = DecodeError::TooSmall { have: 3, need: 4 };
    assert_eq!(rt; TcActionHeader::parse(&zeros[..3]), Err(short));
    Ok(())
}

#[test]
fn longest_attribute_of_a_link(rt: HostRuntime) -> Result<(), Fail> {
    let alloc = rt.alloc();
    let mut value = Octets::from_vec(vec![in alloc; 0; 65_531]?);
    let mut link = LinkMessage::empty(alloc);
    link.attributes
        .push(DefaultNla::new(7, value.clone_with()?))?;
    assert!(rt; link.fits());
    value.push(0)?;
    link.attributes.push(DefaultNla::new(7, value))?;
    assert!(rt; !link.fits());
    messages_fit_where_short::<LinkHeader, DefaultNla>();
    messages_read_back::<LinkHeader, DefaultNla>();
    read_messages_read_back::<RouteHeader, RouteAttribute>();
    counters_read_back();
    link_messages_read_back();
    address_messages_read_back();
    route_messages_read_back();
    rule_messages_read_back();
    tc_messages_read_back();
    tc_action_messages_read_back();
    Ok(())
}

#[test]
fn families(rt: HostRuntime) -> Result<(), Fail> {
    let alloc = rt.alloc();
    let table = [
        (0, AddressFamily::Unspec, "unspec"),
        (1, AddressFamily::Local, "local"),
        (2, AddressFamily::Inet, "inet"),
        (10, AddressFamily::Inet6, "inet6"),
        (7, AddressFamily::Other(7), "7"),
        (255, AddressFamily::Other(255), "255"),
    ];
    for (byte, family, name) in table {
        assert_eq!(rt; AddressFamily::from(byte), family);
        assert_eq!(rt; u8::from(family), byte);
        assert_eq!(rt; format!(in alloc; "{family}")?.as_str(), name);
    }
    assert_eq!(rt; u8::from(AddressFamily::Unix), 1);
    assert_eq!(rt;
        format!(in alloc; "{}", AddressFamily::Unix)?.as_str(),
        "unix"
    );
    let v4 = IpAddr::V4(Ipv4Addr([127, 0, 0, 1]));
    assert_eq!(rt; AddressFamily::from(v4), AddressFamily::Inet);
    let v6 = IpAddr::V6(Ipv6Addr([0; 16]));
    assert_eq!(rt; AddressFamily::from(v6), AddressFamily::Inet6);
    assert_eq!(rt; AddressFamily::default(), AddressFamily::Unspec);
    Ok(())
}

#[test]
fn numbers_and_counters(rt: HostRuntime) -> Result<(), Fail> {
    let alloc = rt.alloc();
    let bytes = b"\x01\0\0\0\0\0\0\0\0\x02\0\0\0\0\0\0".as_slice();
    let counters = Stats64::parse(alloc, bytes)?;
    assert_eq!(rt; counters.0.as_slice(), [1, 512].as_slice());
    assert_eq!(rt; written(alloc, &counters)?.as_slice(), bytes);
    assert_eq!(rt; counters.clone_with()?, counters);
    assert_eq!(rt;
        Stats64::parse(alloc, &bytes[1..]).err(),
        Some(DecodeError::BadLength)
    );
    assert_eq!(rt; RouteProtocol::parse(&[4]), Ok(RouteProtocol(4)));
    assert_eq!(rt; RouteProtocol::parse(bytes), Err(DecodeError::BadLength));
    assert_eq!(rt; u8::from(RouteProtocol::default()), 0);
    assert_eq!(rt; RouteType::from(6), RouteType(6));
    Ok(())
}
