//! Tests of messages on address labels, network namespaces and prefixes.
use super::{is_text, written};
use nl_core::{DecodeError, DefaultNla, Emitable, Items, Octets, Parseable, TryClone};
use rt_other::{AddressFamily, IpAddr, Ipv4Addr, Ipv6Addr};
use rt_wire::addrlabel::{
    AddrLabelAttribute, AddrLabelHeader, AddrLabelMessage, AddrLabelMessageBuffer,
};
use rt_wire::nsid::{NsidAttribute, NsidHeader, NsidMessage, NsidMessageBuffer};
use rt_wire::prefix::{
    CacheInfo, CacheInfoBuffer, PrefixAttribute, PrefixHeader, PrefixMessage, PrefixMessageBuffer,
};
use rt_wire::*;
use std::alloc::Global;
use std::test::Fail;

fn header_of_label(prefix_len: u8, index: u32, sequence: u32) -> AddrLabelHeader {
    AddrLabelHeader {
        family: AddressFamily::Inet6,
        prefix_len,
        flags: 0,
        index,
        sequence,
    }
}

fn address(octets: [u8; 16]) -> AddrLabelAttribute {
    AddrLabelAttribute::Address(IpAddr::V6(Ipv6Addr(octets)))
}

const DOC: [u8; 16] = [0x20, 0x01, 0x0d, 0xb8, 0, 0, 0, 0, 0, 0, 0, 0, 0, 0, 0, 0];

const DOC_1: [u8; 16] = [0x20, 0x01, 0x0d, 0xb8, 0, 1, 0, 0, 0, 0, 0, 0, 0, 0, 0, 0];

const LOOPBACK: [u8; 16] = [0, 0, 0, 0, 0, 0, 0, 0, 0, 0, 0, 0, 0, 0, 0, 1];

const MAPPED: [u8; 16] = [0, 0, 0, 0, 0, 0, 0, 0, 0, 0, 0xff, 0xff, 0, 0, 0, 0];

#[test]
fn label_rules(rt: HostRuntime) -> Result<(), Fail> {
    let alloc = rt.alloc();
    let table: [(&[u8], AddrLabelHeader, AddrLabelAttribute, u32); 2] = [
        (
            b"\x0a\0\x40\0\0\0\0\0\0\0\0\0\x08\0\x02\0\x05\0\0\0\
              \x14\0\x01\0\x20\x01\x0d\xb8\0\0\0\0\0\0\0\0\0\0\0\0",
            header_of_label(64, 0, 0),
            address(DOC),
            5,
        ),
        (
            b"\x0a\0\x40\0\x01\0\0\0\0\0\0\0\x08\0\x02\0\x07\0\0\0\
              \x14\0\x01\0\x20\x01\x0d\xb8\0\x01\0\0\0\0\0\0\0\0\0\0",
            header_of_label(64, 1, 0),
            address(DOC_1),
            7,
        ),
    ];
    for (bytes, header, prefix, label) in table {
        let mut attributes = Items::new(alloc);
        attributes.push(AddrLabelAttribute::Label(label))?;
        attributes.push(prefix)?;
        let message = AddrLabelMessage { header, attributes };
        assert!(rt; is_text(alloc, bytes, &message)?);
    }
    Ok(())
}

#[test]
fn labels_of_a_dump(rt: HostRuntime) -> Result<(), Fail> {
    let alloc = rt.alloc();
    let table: [(&[u8], AddrLabelHeader, [u8; 16], u32); 5] = [
        (
            b"\x0a\0\x80\0\0\0\0\0\x0c\0\0\0\x14\0\x01\0\0\0\0\0\0\0\0\0\0\0\0\0\0\0\0\x01\
              \x08\0\x02\0\0\0\0\0",
            header_of_label(128, 0, 12),
            LOOPBACK,
            0,
        ),
        (
            b"\x0a\0\x60\0\0\0\0\0\x0c\0\0\0\x14\0\x01\0\0\0\0\0\0\0\0\0\0\0\xff\xff\0\0\0\0\
              \x08\0\x02\0\x04\0\0\0",
            header_of_label(96, 0, 12),
            MAPPED,
            4,
        ),
        (
            b"\x0a\0\x40\0\x01\0\0\0\x0c\0\0\0\x14\0\x01\0\x20\x01\x0d\xb8\0\x01\0\0\0\0\0\0\0\0\0\0\
              \x08\0\x02\0\x07\0\0\0",
            header_of_label(64, 1, 12),
            DOC_1,
            7,
        ),
        (
            b"\x0a\0\x40\0\0\0\0\0\x0c\0\0\0\x14\0\x01\0\x20\x01\x0d\xb8\0\0\0\0\0\0\0\0\0\0\0\0\
              \x08\0\x02\0\x05\0\0\0",
            header_of_label(64, 0, 12),
            DOC,
            5,
        ),
        (
            b"\x0a\0\0\0\0\0\0\0\x0c\0\0\0\x14\0\x01\0\0\0\0\0\0\0\0\0\0\0\0\0\0\0\0\0\
              \x08\0\x02\0\x01\0\0\0",
            header_of_label(0, 0, 12),
            [0; 16],
            1,
        ),
    ];
    for (bytes, header, prefix, label) in table {
        let mut attributes = Items::new(alloc);
        attributes.push(address(prefix))?;
        attributes.push(AddrLabelAttribute::Label(label))?;
        let message = AddrLabelMessage { header, attributes };
        assert!(rt; is_text(alloc, bytes, &message)?);
    }
    Ok(())
}

#[test]
fn label_of_an_ipv4_prefix(rt: HostRuntime) -> Result<(), Fail> {
    let alloc = rt.alloc();
    let bytes = b"\x0a\0\0\0\0\0\0\0\0\0\0\0\x08\0\x01\0\x0a\0\0\x01\x05\0\x03\x80\x09\0\0\0";
    let mut message = AddrLabelMessage::parse(alloc, &bytes[..12])?;
    let prefix = IpAddr::V4(Ipv4Addr([10, 0, 0, 1]));
    message
        .attributes
        .push(AddrLabelAttribute::Address(prefix))?;
    let value = Octets::from_vec(Vec::from_slice(alloc, &[9])?);
    let other = DefaultNla::new(0x8003, value);
    message.attributes.push(AddrLabelAttribute::Other(other))?;
    assert!(rt; is_text(alloc, bytes, &message)?);
    let long = b"\x0a\0\0\0\0\0\0\0\0\0\0\0\x09\0\x01\0\x0a\0\0\x01\x01\0\0\0";
    let refused = AddrLabelMessage::parse(alloc, long).err();
    assert_eq!(rt; refused, Some(DecodeError::BadLength));
    Ok(())
}

#[test]
fn namespaces(rt: HostRuntime) -> Result<(), Fail> {
    let alloc = rt.alloc();
    let table: [(&[u8], NsidAttribute); 5] = [
        (b"\0\0\0\0\x08\0\x01\0\x63\0\0\0", NsidAttribute::Id(99)),
        (b"\0\0\0\0\x08\0\x02\0\x07\0\0\0", NsidAttribute::Pid(7)),
        (b"\0\0\0\0\x08\0\x03\0\x06\0\0\0", NsidAttribute::Fd(6)),
        (
            b"\0\0\0\0\x08\0\x04\0\x63\0\0\0",
            NsidAttribute::TargetNsid(99),
        ),
        (
            b"\0\0\0\0\x08\0\x05\0\xff\xff\xff\xff",
            NsidAttribute::CurrentNsid(-1),
        ),
    ];
    for (bytes, attribute) in table {
        let mut message = NsidMessage::empty(alloc);
        message.attributes.push(attribute)?;
        assert!(rt; is_text(alloc, bytes, &message)?);
    }
    Ok(())
}

#[test]
fn refused_payloads(rt: HostRuntime) {
    let alloc = rt.alloc();
    let short = DecodeError::TooSmall { have: 2, need: 4 };
    let table: [(&[u8], DecodeError); 3] = [
        (b"\0\0", short),
        (b"\0\0\0\0\x03\0\x01\0", DecodeError::BadAttribute),
        (b"\0\0\0\0\x07\0\x01\0\x01\0\0\0", DecodeError::BadLength),
    ];
    for (bytes, error) in table {
        assert_eq!(rt; NsidMessage::parse(alloc, bytes).err(), Some(error));
    }
    let cut = b"\x0a\0\0\0\0\0\0\0\0\0\0\0\x0b\0\x02\0\0\0\0\0\0\0\0\0";
    let short = DecodeError::TooSmall { have: 7, need: 8 };
    assert_eq!(rt; PrefixMessage::parse(alloc, cut).err(), Some(short));
}

#[test]
fn announced_prefix(rt: HostRuntime) -> Result<(), Fail> {
    let alloc = rt.alloc();
    let bytes = b"\x0a\0\0\0\x02\0\0\0\x03\x40\x01\0\
        \x14\0\x01\0\xfc\0\x0a\x0a\0\0\0\0\0\0\0\0\0\0\0\x01\
        \x0c\0\x02\0\xff\xff\xff\xfa\xff\xff\xff\xff";
    let header = PrefixHeader {
        prefix_family: 10,
        ifindex: 2,
        prefix_type: 3,
        prefix_len: 64,
        flags: 1,
    };
    let octets = [0xfc, 0, 0x0a, 0x0a, 0, 0, 0, 0, 0, 0, 0, 0, 0, 0, 0, 1];
    let lifetimes = CacheInfo {
        preferred_time: 0xfaff_ffff,
        valid_time: 0xffff_ffff,
    };
    let mut attributes = Items::new(alloc);
    attributes.push(PrefixAttribute::Address(Ipv6Addr(octets)))?;
    attributes.push(PrefixAttribute::CacheInfo(lifetimes))?;
    let message = PrefixMessage { header, attributes };
    assert!(rt; is_text(alloc, bytes, &message)?);
    Ok(())
}

#[test]
fn buffers(rt: HostRuntime) {
    let label = header_of_label(64, 0x0102_0304, 5);
    let bytes = [10, 0, 64, 0, 4, 3, 2, 1, 5, 0, 0, 0];
    assert_eq!(rt; AddrLabelMessageBuffer::from(&label).to_bytes(), bytes);
    assert_eq!(rt; AddrLabelHeader::parse(&bytes), Ok(label));
    let namespace = NsidHeader {
        family: AddressFamily::Other(7),
    };
    assert_eq!(rt;
        NsidMessageBuffer::from(&namespace).to_bytes(),
        [7, 0, 0, 0]
    );
    assert_eq!(rt; NsidHeader::parse(&[7, 1, 1, 1, 1]), Ok(namespace));
    let prefix = PrefixHeader::default();
    assert_eq!(rt; PrefixMessageBuffer::from(&prefix).to_bytes(), [0; 12]);
    assert_eq!(rt; PrefixHeader::parse(&[0; 12]), Ok(prefix));
    let lifetimes = CacheInfo::default();
    assert_eq!(rt; CacheInfoBuffer::from(&lifetimes).to_bytes(), [0; 8]);
    assert_eq!(rt; CacheInfo::parse(&[0; 9]), Ok(lifetimes));
}

#[test]
fn laws_called(rt: HostRuntime) {
    address_label_messages_read_back();
    namespace_messages_read_back();
    prefix_messages_read_back();
    rt_other::messages_read_back::<AddrLabelHeader, AddrLabelAttribute>();
    rt_other::read_messages_read_back::<NsidHeader, NsidAttribute>();
    rt_other::messages_fit_where_short::<PrefixHeader, PrefixAttribute>();
    assert!(rt; CacheInfo::default().fits());
}
