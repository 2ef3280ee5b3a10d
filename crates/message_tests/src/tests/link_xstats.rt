//! Tests of extended statistics of links.
use super::written;
use nl_core::{Emitable, Items, Nla, NlaBuffer, Parseable, TryClone};
use rt_link_xstats::*;
use std::alloc::Global;
use std::test::Fail;

// Whether an attribute is read from bytes, written as they are, and equal to its clone.
fn is_text<'a, X>(alloc: Global, bytes: &'a [u8], attribute: &X) -> Result<bool, Fail>
where
    X: Parseable<NlaBuffer<'a>> + Nla + TryClone + PartialEq + Drop,
{
    let same = X::parse(alloc, &NlaBuffer::new_checked(bytes)?)? == *attribute;
    let cloned = attribute.clone_with()? == *attribute;
    Ok(same && cloned && written(alloc, attribute)?.as_slice() == bytes)
}

#[test]
fn statistics_of_a_bond(rt: HostRuntime) -> Result<(), Fail> {
    let alloc = rt.alloc();
    let mut counters = Items::new(alloc);
    counters.push(Bond3adStats::LacpduRx(5))?;
    counters.push(Bond3adStats::MarkerUnknownRx(1))?;
    let mut bond = Items::new(alloc);
    bond.push(BondXstat::ThreeAd(counters))?;
    let text =
        b"\x20\0\x02\0\x1c\0\x01\x80\x0c\0\0\0\x05\0\0\0\0\0\0\0\x0c\0\x08\0\x01\0\0\0\0\0\0\0";
    assert!(rt; is_text(alloc, text, &LinkXstatGroup::Bond(bond))?);
    Ok(())
}

#[test]
fn statistics_of_a_bridge(rt: HostRuntime) -> Result<(), Fail> {
    let alloc = rt.alloc();
    let vlan = BridgeVlanXstats {
        rx_bytes: 1,
        rx_packets: 2,
        tx_bytes: 3,
        tx_packets: 4,
        vid: 0x0506,
        flags: 7,
    };
    let mut bytes = BridgeVlanXstatsBuffer::from(&vlan).to_bytes();
    bytes[39] = 9;
    assert_eq!(rt; BridgeVlanXstats::parse(&bytes)?, vlan);
    let mut stats = Items::new(alloc);
    stats.push(BridgeXstat::Vlan(vlan))?;
    let text =
        b"\x30\0\x01\0\x2c\0\x01\0\x01\0\0\0\0\0\0\0\x02\0\0\0\0\0\0\0\x03\0\0\0\0\0\0\0\x04\0\0\0\0\0\0\0\
        \x06\x05\x07\0\0\0\0\0";
    assert!(rt; is_text(alloc, text, &LinkXstatGroup::Bridge(stats))?);
    Ok(())
}

#[test]
fn buffers_and_laws(rt: HostRuntime) -> Result<(), Fail> {
    let mcast = BridgeMcastStats {
        mcast_packets_tx: 1,
        ..BridgeMcastStats::default()
    };
    let bytes = BridgeMcastStatsBuffer::from(&mcast).to_bytes();
    assert_eq!(rt; bytes[232], 1);
    assert_eq!(rt; BridgeMcastStats::parse(&bytes)?, mcast);
    let stp = BridgeStpXstats::default();
    let bytes = BridgeStpXstatsBuffer::from(&stp).to_bytes();
    assert_eq!(rt; BridgeStpXstats::parse(&bytes)?, stp);
    nested_lists_read_back::<BridgeXstat>();
    nested_lists_read_back::<Bond3adStats>();
    nested_lists_read_back::<BondXstat>();
    read_nested_lists_read_back::<LinkXstatGroup>();
    Ok(())
}
