//! Tests of messages on statistics.
use super::written;
use nl_core::{
    DecodeError, DefaultNla, Emitable, Items, Octets, Parseable, TryClone, parse_attributes,
};
use rt_link_xstats::{nested_lists_read_back, read_nested_lists_read_back};
use rt_other::{AddressFamily, Stats64};
use rt_stats::stats::*;
use rt_stats::*;
use std::alloc::Global;
use std::test::Fail;

// Whether a payload reads as the message of one attribute, which has the text and equals its clone.
fn is_read(
    alloc: Global,
    payload: &[u8],
    text: &[u8],
    attribute: StatsAttribute,
) -> Result<bool, Fail> {
    let mut message = StatsMessage::empty(alloc);
    message.attributes.push(attribute)?;
    let same = StatsMessage::parse(alloc, payload)? == message && message.clone_with()? == message;
    Ok(same && written(alloc, &message)?.as_slice() == text)
}

const BOND: &[u8] = b"\0\0\0\0\0\0\0\0\0\0\0\0\x18\0\x02\0\x14\0\x02\0\x10\0\x01\x80\
    \x0c\0\0\0\x05\0\0\0\0\0\0\0";

const BRIDGE: &[u8] = b"\0\0\0\0\0\0\0\0\0\0\0\0\x3c\0\x02\0\x38\0\x01\0\x34\0\x04\0\
    \x01\0\0\0\0\0\0\0\0\0\0\0\0\0\0\0\0\0\0\0\0\0\0\0\0\0\0\0\0\0\0\0\0\0\0\0\0\0\0\0\0\0\0\0\0\0\0\0";

const NO_GROUPS: &[u8] = b"\0\0\0\0\0\0\0\0\0\0\0\0\x04\0\x02\0";

#[test]
fn extended_statistics(rt: HostRuntime) -> Result<(), Fail> {
    let alloc = rt.alloc();
    let mut counters = Items::new(alloc);
    counters.push(Bond3adStats::LacpduRx(5))?;
    let mut bond = Items::new(alloc);
    bond.push(BondXstat::ThreeAd(counters))?;
    let mut bridge = Items::new(alloc);
    bridge.push(BridgeXstat::Stp(BridgeStpXstats {
        transition_blk: 1,
        ..BridgeStpXstats::default()
    }))?;
    for (text, group) in [
        (BOND, LinkXstatGroup::Bond(bond)),
        (BRIDGE, LinkXstatGroup::Bridge(bridge)),
    ] {
        let mut groups = Items::new(alloc);
        groups.push(group)?;
        let attribute = StatsAttribute::LinkXstats(groups);
        assert!(rt; is_read(alloc, text, text, attribute)?);
    }
    let none = StatsAttribute::LinkXstats(Items::new(alloc));
    assert!(rt; is_read(alloc, NO_GROUPS, NO_GROUPS, none)?);
    Ok(())
}

// A payload, its text, and what it says of hardware.
type Row = (&'static [u8], &'static [u8], HwStatsInfo);

const HARDWARE: [Row; 3] = [
    (
        b"\0\0\0\0\0\0\0\0\0\0\0\0\x10\0\x04\0\x0c\0\x02\0\x05\0\x01\0\x01\0\0\0",
        b"\0\0\0\0\0\0\0\0\0\0\0\0\x14\0\x04\0\x10\0\x02\x80\x0c\0\x03\x80\x05\0\x01\0\x01\0\0\0",
        HwStatsInfo {
            request: Some(1),
            used: None,
        },
    ),
    (
        b"\0\0\0\0\0\0\0\0\0\0\0\0\x08\0\x04\0\x04\0\x02\0",
        b"\0\0\0\0\0\0\0\0\0\0\0\0\x08\0\x04\0\x04\0\x02\x80",
        HwStatsInfo {
            request: None,
            used: None,
        },
    ),
    (
        b"\0\0\0\0\0\0\0\0\0\0\0\0\x28\0\x04\0\x24\0\x02\0\x05\0\x02\0\x09\0\0\0\
          \x14\0\x03\0\x05\0\x02\0\x07\0\0\0\x05\0\x01\0\x08\0\0\0\x04\0\x01\0",
        b"\0\0\0\0\0\0\0\0\0\0\0\0\x1c\0\x04\0\x18\0\x02\x80\x14\0\x03\x80\
          \x05\0\x01\0\x08\0\0\0\x05\0\x02\0\x07\0\0\0",
        HwStatsInfo {
            request: Some(8),
            used: Some(7),
        },
    ),
];

#[test]
fn statistics_of_hardware(rt: HostRuntime) -> Result<(), Fail> {
    let alloc = rt.alloc();
    for (payload, text, info) in &HARDWARE {
        let mut stats = Items::new(alloc);
        stats.push(OffloadXstat::HwStatsInfo(info.clone()?))?;
        let attribute = StatsAttribute::LinkOffloadXstats(stats);
        assert!(rt; is_read(alloc, payload, text, attribute)?);
    }
    Ok(())
}

// The longest list of entries of MPLS without counters, and the first that is too long.
#[test]
fn nested_list_just_too_long(rt: HostRuntime) -> Result<(), Fail> {
    let alloc = rt.alloc();
    for (count, fits) in [(819, true), (820, false)] {
        let mut entries = AfSpecStats::empty(alloc);
        let mut message = StatsMessage::empty(alloc);
        for _ in 0..count {
            entries.0.push(AfSpecStat::Mpls(MplsLinkStats::default()))?;
        }
        message.attributes.push(StatsAttribute::AfSpec(entries))?;
        assert_eq!(rt; message.fits(), fits);
    }
    Ok(())
}

#[test]
fn entry_without_counters(rt: HostRuntime) -> Result<(), Fail> {
    let alloc = rt.alloc();
    let payload = b"\0\0\0\0\0\0\0\0\0\0\0\0\x08\0\x05\0\x04\0\x1c\0".as_slice();
    let message = StatsMessage::parse(alloc, payload)?;
    let text = written(alloc, &message)?;
    assert_eq!(rt; text.len(), 96);
    assert_eq!(rt;
        &text[..24],
        b"\0\0\0\0\0\0\0\0\0\0\0\0\x54\0\x05\0\x50\0\x1c\0\x4c\0\x01\0".as_slice()
    );
    assert_eq!(rt; &text[24..], [0; 72].as_slice());
    Ok(())
}

// The kinds around a value, the innermost first; the value; and why it is refused where it is cut.
type Nesting = (&'static [u16], &'static [u8], DecodeError);

const NESTINGS: [Nesting; 9] = [
    (&[0, 0x8001, 2, 2], &[0; 8], DecodeError::BadLength),
    (
        &[0x8001, 2, 2],
        b"\x0c\0\0\0\x05\0\0\0\0\0\0\0",
        DecodeError::BadAttribute,
    ),
    (
        &[4, 1, 3],
        &[0; 48],
        DecodeError::TooSmall { have: 0, need: 48 },
    ),
    (
        &[2, 1, 3],
        &[0; 240],
        DecodeError::TooSmall { have: 0, need: 240 },
    ),
    (&[1, 4], &[0; 8], DecodeError::BadLength),
    (
        &[2, 4],
        b"\x0c\0\x03\x80\x05\0\x01\0\x01\0\0\0",
        DecodeError::BadAttribute,
    ),
    (
        &[3, 4],
        &[0; 72],
        DecodeError::TooSmall { have: 0, need: 72 },
    ),
    (
        &[1, 28, 5],
        &[0; 72],
        DecodeError::TooSmall { have: 0, need: 72 },
    ),
    (&[28, 5], b"\x08\0\x02\0\0\0\0\0", DecodeError::BadAttribute),
];

// The attributes around a value.
fn wrapped(alloc: Global, kinds: &[u16], value: &[u8]) -> Result<Vec<u8>, Fail> {
    let mut bytes = Vec::from_slice(alloc, value)?;
    for kind in kinds {
        bytes = written(alloc, &DefaultNla::new(*kind, Octets::from_vec(bytes)))?;
    }
    Ok(bytes)
}

#[test]
fn nestings_cut(rt: HostRuntime) -> Result<(), Fail> {
    let alloc = rt.alloc();
    for (kinds, value, error) in &NESTINGS {
        for len in 1..value.len() {
            let bytes = wrapped(alloc, kinds, &value[..len])?;
            let error = match *error {
                DecodeError::TooSmall { need, .. } => DecodeError::TooSmall { have: len, need },
                error => error,
            };
            let read = parse_attributes::<StatsAttribute>(alloc, bytes.as_slice());
            assert_eq!(rt; read.err(), Some(error));
        }
    }
    for len in 0..BOND.len() {
        let error = match len {
            0..12 => Some(DecodeError::TooSmall {
                have: len,
                need: 12,
            }),
            12 => None,
            _ => Some(DecodeError::BadAttribute),
        };
        assert_eq!(rt; StatsMessage::parse(alloc, &BOND[..len]).err(), error);
    }
    Ok(())
}

#[test]
fn headers_and_masks(rt: HostRuntime) -> Result<(), Fail> {
    let table = [
        (StatsFilterMask::Link64, 1),
        (StatsFilterMask::LinkXstats, 2),
        (StatsFilterMask::LinkXstatsPort, 4),
        (StatsFilterMask::LinkOffloadXstats, 8),
        (StatsFilterMask::AfSpec, 0x10),
    ];
    for (flag, bits) in table {
        assert_eq!(rt; flag.bits(), bits);
        assert!(rt; StatsFilterMask::all().contains(flag));
    }
    let header = StatsHeader {
        family: AddressFamily::Inet6,
        ifindex: 3,
        filter_mask: StatsFilterMask::AfSpec | StatsFilterMask::from_bits_retain(0x8000_0000),
    };
    let bytes = StatsMessageBuffer::from(&header).to_bytes();
    assert_eq!(rt; bytes, [10, 0, 0, 0, 3, 0, 0, 0, 0x10, 0, 0, 0x80]);
    assert_eq!(rt; StatsHeader::parse(&bytes)?, header);
    assert_eq!(rt;
        StatsHeader::default().filter_mask,
        StatsFilterMask::empty()
    );
    Ok(())
}

#[test]
fn buffers_and_laws(rt: HostRuntime) -> Result<(), Fail> {
    let alloc = rt.alloc();
    let mpls = MplsLinkStats {
        rx_noroute: 1,
        ..MplsLinkStats::default()
    };
    let bytes = MplsLinkStatsBuffer::from(&mpls).to_bytes();
    assert_eq!(rt; bytes[64], 1);
    assert_eq!(rt; MplsLinkStats::parse(&bytes)?, mpls);
    let hardware = HwStats64 {
        multicast: 1,
        ..HwStats64::default()
    };
    let bytes = HwStats64Buffer::from(&hardware).to_bytes();
    assert_eq!(rt; bytes[64], 1);
    assert_eq!(rt; HwStats64::parse(&bytes)?, hardware);
    assert_eq!(rt; HwStatsInfo::parse(&[])?, HwStatsInfo::default());
    let mut counters = Items::new(alloc);
    counters.push(7)?;
    let link = StatsAttribute::Link64(Stats64(counters));
    assert_eq!(rt;
        written(alloc, &link)?.as_slice(),
        b"\x0c\0\x01\0\x07\0\0\0\0\0\0\0".as_slice()
    );
    assert_eq!(rt; AfSpecStats::parse(alloc, &[])?, AfSpecStats::empty(alloc));
    statistics_messages_read_back();
    entries_read_back();
    nested_lists_read_back::<AfSpecStat>();
    nested_lists_read_back::<LinkXstatGroup>();
    read_nested_lists_read_back::<OffloadXstat>();
    rt_other::messages_read_back::<StatsHeader, StatsAttribute>();
    rt_other::read_messages_read_back::<StatsHeader, StatsAttribute>();
    rt_other::messages_fit_where_short::<StatsHeader, StatsAttribute>();
    Ok(())
}
