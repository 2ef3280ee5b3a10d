//! Tests of messages on neighbour tables.
use super::{is_text, written};
use nl_core::{DecodeError, Emitable, Items, Parseable, Text, TryClone};
use rt_neighbour_table::*;
use rt_other::AddressFamily;
use std::alloc::Global;
use std::test::Fail;

// A message on the table arp_cache, with its name.
fn arp_cache(alloc: Global) -> Result<NeighbourTableMessage, Fail> {
    let name = Text::from_string(String::from_str(alloc, "arp_cache")?);
    let mut message = NeighbourTableMessage::empty(alloc);
    message.header.family = AddressFamily::Inet;
    message
        .attributes
        .push(NeighbourTableAttribute::Name(name))?;
    Ok(message)
}

// The counts that both tables of the kernel have.
fn push_counts(parameters: &mut Items<NeighbourTableParameter>) -> Result<(), Fail> {
    let counts = [
        NeighbourTableParameter::ReferenceCount(1),
        NeighbourTableParameter::QueueLenbytes(212_992),
        NeighbourTableParameter::QueueLen(101),
        NeighbourTableParameter::ProxyQlen(64),
        NeighbourTableParameter::AppProbes(0),
        NeighbourTableParameter::UcastProbes(3),
        NeighbourTableParameter::McastProbes(3),
        NeighbourTableParameter::McastReprobes(0),
    ];
    for count in counts {
        parameters.push(count)?;
    }
    Ok(())
}

// The times that both tables of the kernel have, after the reachable time.
fn push_times(parameters: &mut Items<NeighbourTableParameter>, time: u64) -> Result<(), Fail> {
    let times = [
        NeighbourTableParameter::ReachableTime(time),
        NeighbourTableParameter::BaseReachableTime(30_000),
        NeighbourTableParameter::GcStaletime(60_000),
        NeighbourTableParameter::DelayProbeTime(5000),
        NeighbourTableParameter::RetransTime(1000),
        NeighbourTableParameter::AnycastDelay(1000),
        NeighbourTableParameter::ProxyDelay(800),
        NeighbourTableParameter::Locktime(1000),
        NeighbourTableParameter::IntervalProbeTimeMs(5000),
    ];
    for time in times {
        parameters.push(time)?;
    }
    Ok(())
}

const NAME: &[u8] = b"\x02\0\0\0\x0e\0\x01\0arp_cache\0\0\0";

const OPEN_NAME: &[u8] = b"\x02\0\0\0\x0d\0\x01\0arp_cache\0\0\0";

const OF_A_LINK: &[u8] =
    b"\x02\0\0\0\x0e\0\x01\0arp_cache\0\0\0\xb8\0\x06\0\x08\0\x01\0\x10\0\0\0\x08\0\x02\0\x01\0\0\
    \0\x08\0\x10\0\0\x40\x03\0\x08\0\x08\0e\0\0\0\x08\0\x0e\0\x40\0\0\0\x08\0\x09\0\0\0\0\0\x08\
    \0\x0a\0\x03\0\0\0\x08\0\x0b\0\x03\0\0\0\x08\0\x11\0\0\0\0\0\x0c\0\x03\0\x93\x46\0\0\0\0\0\0\
    \x0c\0\x04\0\x30u\0\0\0\0\0\0\x0c\0\x06\0\x60\xea\0\0\0\0\0\0\x0c\0\x07\0\x88\x13\0\0\0\0\0\
    \0\x0c\0\x05\0\xe8\x03\0\0\0\0\0\0\x0c\0\x0c\0\xe8\x03\0\0\0\0\0\0\x0c\0\x0d\0\x20\x03\0\0\0\
    \0\0\0\x0c\0\x0f\0\xe8\x03\0\0\0\0\0\0\x0c\0\x13\0\x88\x13\0\0\0\0\0\0";

const OF_ALL_LINKS: &[u8] =
    b"\x02\0\0\0\x0e\0\x01\0arp_cache\0\0\0\x0c\0\x08\0\x30u\0\0\0\0\0\0\x08\0\x02\0\x80\0\0\0\x08\
    \0\x03\0\0\x02\0\0\x08\0\x04\0\0\x04\0\0\x24\0\x05\0\x04\0\x98\x01\x0c\0\0\0\x3a\x02\xac\x02\
    mf\x01\0\xd5\x7e\xc0\xe4\x0f\0\0\0\0\0\0\0\0\0\0\0\x5c\0\x07\0\x11\0\0\0\0\0\0\0\x05\0\0\0\0\
    \0\0\0\x01\0\0\0\0\0\0\0\x10\0\0\0\0\0\0\0\x0a\x3d\0\0\0\0\0\0\x0c\x24\0\0\0\0\0\0\0\0\0\0\0\
    \0\0\0\0\0\0\0\0\0\0\0\x44\x0b\0\0\0\0\0\0\0\0\0\0\0\0\0\0\0\0\0\0\0\0\0\0\xb0\0\x06\0\x08\0\
    \x02\0\x01\0\0\0\x08\0\x10\0\0\x40\x03\0\x08\0\x08\0e\0\0\0\x08\0\x0e\0\x40\0\0\0\x08\0\x09\
    \0\0\0\0\0\x08\0\x0a\0\x03\0\0\0\x08\0\x0b\0\x03\0\0\0\x08\0\x11\0\0\0\0\0\x0c\0\x03\0\xaa\
    \x96\0\0\0\0\0\0\x0c\0\x04\0\x30u\0\0\0\0\0\0\x0c\0\x06\0\x60\xea\0\0\0\0\0\0\x0c\0\x07\0\
    \x88\x13\0\0\0\0\0\0\x0c\0\x05\0\xe8\x03\0\0\0\0\0\0\x0c\0\x0c\0\xe8\x03\0\0\0\0\0\0\x0c\0\
    \x0d\0\x20\x03\0\0\0\0\0\0\x0c\0\x0f\0\xe8\x03\0\0\0\0\0\0\x0c\0\x13\0\x88\x13\0\0\0\0\0\0";

#[test]
fn name_of_a_table(rt: HostRuntime) -> Result<(), Fail> {
    let alloc = rt.alloc();
    let message = arp_cache(alloc)?;
    assert!(rt; is_text(alloc, NAME, &message)?);
    assert_eq!(rt; NeighbourTableMessage::parse(alloc, OPEN_NAME)?, message);
    let table: [(&[u8], DecodeError); 3] = [
        (b"\x02\0\0\0\x04\0\x06\0", DecodeError::BadAttribute),
        (b"\x02\0\0\0\x05\0\x01\0\xff\0\0\0", DecodeError::BadText),
        (
            b"\x02\0\0\0\x0c\0\x02\0\x01\0\0\0\0\0\0\0",
            DecodeError::BadLength,
        ),
    ];
    for (bytes, error) in table {
        let refused = NeighbourTableMessage::parse(alloc, bytes).err();
        assert_eq!(rt; refused, Some(error));
    }
    Ok(())
}

#[test]
fn parameters_of_a_link(rt: HostRuntime) -> Result<(), Fail> {
    let alloc = rt.alloc();
    let mut parameters = Items::new(alloc);
    parameters.push(NeighbourTableParameter::Ifindex(16))?;
    push_counts(&mut parameters)?;
    push_times(&mut parameters, 18_067)?;
    let mut message = arp_cache(alloc)?;
    message
        .attributes
        .push(NeighbourTableAttribute::Parms(parameters))?;
    assert!(rt; is_text(alloc, OF_A_LINK, &message)?);
    Ok(())
}

fn config() -> NeighbourTableConfig {
    NeighbourTableConfig {
        key_len: 4,
        entry_size: 408,
        entries: 12,
        last_flush: 44_827_194,
        last_rand: 91_757,
        hash_rand: 3_837_820_629,
        hash_mask: 15,
        hash_chain_gc: 0,
        proxy_qlen: 0,
    }
}

fn stats() -> NeighbourTableStats {
    NeighbourTableStats {
        allocs: 17,
        destroys: 5,
        hash_grows: 1,
        res_failed: 16,
        lookups: 15_626,
        hits: 9228,
        multicast_probes_received: 0,
        unicast_probes_received: 0,
        periodic_gc_runs: 2884,
        forced_gc_runs: 0,
        table_fulls: 0,
    }
}

#[test]
fn whole_table(rt: HostRuntime) -> Result<(), Fail> {
    let alloc = rt.alloc();
    let mut parameters = Items::new(alloc);
    push_counts(&mut parameters)?;
    push_times(&mut parameters, 38_570)?;
    let mut message = arp_cache(alloc)?;
    let attributes = [
        NeighbourTableAttribute::GcInterval(30_000),
        NeighbourTableAttribute::Threshold1(128),
        NeighbourTableAttribute::Threshold2(512),
        NeighbourTableAttribute::Threshold3(1024),
        NeighbourTableAttribute::Config(config()),
        NeighbourTableAttribute::Stats(stats()),
        NeighbourTableAttribute::Parms(parameters),
    ];
    for attribute in attributes {
        message.attributes.push(attribute)?;
    }
    assert!(rt; is_text(alloc, OF_ALL_LINKS, &message)?);
    Ok(())
}

#[test]
fn buffers_and_laws(rt: HostRuntime) {
    let header = NeighbourTableHeader {
        family: AddressFamily::Inet6,
    };
    assert_eq!(rt;
        NeighbourTableMessageBuffer::from(&header).to_bytes(),
        [10, 0, 0, 0]
    );
    assert_eq!(rt; NeighbourTableHeader::parse(&[10, 1, 2, 3]), Ok(header));
    let bytes = NeighbourTableConfigBuffer::from(&config()).to_bytes();
    assert_eq!(rt; NeighbourTableConfig::parse(&bytes), Ok(config()));
    let bytes = NeighbourTableStatsBuffer::from(&stats()).to_bytes();
    assert_eq!(rt; NeighbourTableStats::parse(&bytes), Ok(stats()));
    neighbour_table_messages_read_back();
    rt_other::messages_read_back::<NeighbourTableHeader, NeighbourTableAttribute>();
    rt_other::read_messages_read_back::<NeighbourTableHeader, NeighbourTableAttribute>();
    rt_other::messages_fit_where_short::<NeighbourTableHeader, NeighbourTableAttribute>();
}
