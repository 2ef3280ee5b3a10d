//! Parameters of neighbour tables, of include/uapi/linux/neighbour.h.
#![tactic(auto, using(nl_core::proofs::Wire::writes))]

ghost use Rattle.std.specs.Prelude.{◌≡◌, []};
ghost use Rattle.rt_layout.specs.Value.{value_text};
ghost use Rattle.rt_neighbour_table.specs.Parameter.{kind, value, attribute_at, ReadsBack};
ghost use Rattle.rt_neighbour_table.specs.ParameterLaws.{attribute-again, attribute-read};

use nl_core::{
    DecodeError, DefaultNla, Nla, NlaBuffer, NoMemory, Parseable, TryClone, parse_u32, parse_u64,
};
use rt_layout::{NoStruct, Value};
use rt_other::Attribute;
use std::alloc::Global;

const NDTPA_IFINDEX: u16 = 1;

const NDTPA_REFCNT: u16 = 2;

const NDTPA_REACHABLE_TIME: u16 = 3;

const NDTPA_BASE_REACHABLE_TIME: u16 = 4;

const NDTPA_RETRANS_TIME: u16 = 5;

const NDTPA_GC_STALETIME: u16 = 6;

const NDTPA_DELAY_PROBE_TIME: u16 = 7;

const NDTPA_QUEUE_LEN: u16 = 8;

const NDTPA_APP_PROBES: u16 = 9;

const NDTPA_UCAST_PROBES: u16 = 10;

const NDTPA_MCAST_PROBES: u16 = 11;

const NDTPA_ANYCAST_DELAY: u16 = 12;

const NDTPA_PROXY_DELAY: u16 = 13;

const NDTPA_PROXY_QLEN: u16 = 14;

const NDTPA_LOCKTIME: u16 = 15;

const NDTPA_QUEUE_LENBYTES: u16 = 16;

const NDTPA_MCAST_REPROBES: u16 = 17;

const NDTPA_INTERVAL_PROBE_TIME_MS: u16 = 19;

/// A parameter of a neighbour table, of all links or of one.
#[derive(Debug, PartialEq, Eq, Drop)]
pub enum NeighbourTableParameter {
    /// The index of the link, if the parameters are those of one.
    Ifindex(u32),
    /// How often the parameters are referred to.
    ReferenceCount(u32),
    /// How long a neighbour counts as reachable, in milliseconds as each time here.
    ReachableTime(u64),
    /// The time from which that is chosen at random.
    BaseReachableTime(u64),
    /// The time between two questions.
    RetransTime(u64),
    /// How long a stale entry is kept.
    GcStaletime(u64),
    /// How long a neighbour that is used again is not asked.
    DelayProbeTime(u64),
    /// How many packets wait for an answer at most.
    QueueLen(u32),
    /// How often a program is asked.
    AppProbes(u32),
    /// How often it is asked by unicast.
    UcastProbes(u32),
    /// How often it is asked by multicast.
    McastProbes(u32),
    /// How long an answer for an anycast address waits at most.
    AnycastDelay(u64),
    /// How long an answer by proxy waits at most.
    ProxyDelay(u64),
    /// How many questions wait for an answer by proxy at most.
    ProxyQlen(u32),
    /// How long an entry stays before another answer replaces it.
    Locktime(u64),
    /// How many bytes wait for an answer at most.
    QueueLenbytes(u32),
    /// How often it is asked by multicast after unicast.
    McastReprobes(u32),
    /// The time between two questions to a managed neighbour.
    IntervalProbeTimeMs(u64),
    /// Any other one.
    Other(DefaultNla),
}

impl NeighbourTableParameter {
    // The type, and the value as it is written.
    fn row(&self) -> (u16, Value<'_, NoStruct>)
        ensures kind { result.0 ≡ kind self.now }
        ensures value { value_text (λ _. []) result.1 ≡ value self.now }
    {
        match self {
            Self::Ifindex(n) => (NDTPA_IFINDEX, Value::U32(*n)),
            Self::ReferenceCount(n) => (NDTPA_REFCNT, Value::U32(*n)),
            Self::ReachableTime(n) => (NDTPA_REACHABLE_TIME, Value::U64(*n)),
            Self::BaseReachableTime(n) => (NDTPA_BASE_REACHABLE_TIME, Value::U64(*n)),
            Self::RetransTime(n) => (NDTPA_RETRANS_TIME, Value::U64(*n)),
            Self::GcStaletime(n) => (NDTPA_GC_STALETIME, Value::U64(*n)),
            Self::DelayProbeTime(n) => (NDTPA_DELAY_PROBE_TIME, Value::U64(*n)),
            Self::QueueLen(n) => (NDTPA_QUEUE_LEN, Value::U32(*n)),
            Self::AppProbes(n) => (NDTPA_APP_PROBES, Value::U32(*n)),
            Self::UcastProbes(n) => (NDTPA_UCAST_PROBES, Value::U32(*n)),
            Self::McastProbes(n) => (NDTPA_MCAST_PROBES, Value::U32(*n)),
            Self::AnycastDelay(n) => (NDTPA_ANYCAST_DELAY, Value::U64(*n)),
            Self::ProxyDelay(n) => (NDTPA_PROXY_DELAY, Value::U64(*n)),
            Self::ProxyQlen(n) => (NDTPA_PROXY_QLEN, Value::U32(*n)),
            Self::Locktime(n) => (NDTPA_LOCKTIME, Value::U64(*n)),
            Self::QueueLenbytes(n) => (NDTPA_QUEUE_LENBYTES, Value::U32(*n)),
            Self::McastReprobes(n) => (NDTPA_MCAST_REPROBES, Value::U32(*n)),
            Self::IntervalProbeTimeMs(n) => (NDTPA_INTERVAL_PROBE_TIME_MS, Value::U64(*n)),
            Self::Other(nla) => (nla.kind, Value::Bytes(nla.value.as_slice())),
        }
    }
}

impl Nla for NeighbourTableParameter {
    ghost kind_as_written = { kind };

    ghost value_text = { value };

    fn value_len(&self) -> usize {
        self.row().1.len()
    }

    fn emit_value(&self, buf: &mut [u8]) {
        self.row().1.emit(buf);
    }

    fn kind(&self) -> u16 {
        self.row().0
    }
}

impl<'a> Parseable<NlaBuffer<'a>> for NeighbourTableParameter {
    ghost reads = { attribute_at };

    fn parse(alloc: Global, buf: &NlaBuffer<'a>) -> Result<Self, DecodeError> {
        let value = buf.value();
        match buf.kind() {
            NDTPA_IFINDEX => Ok(Self::Ifindex(parse_u32(value)?)),
            NDTPA_REFCNT => Ok(Self::ReferenceCount(parse_u32(value)?)),
            NDTPA_REACHABLE_TIME => Ok(Self::ReachableTime(parse_u64(value)?)),
            NDTPA_BASE_REACHABLE_TIME => Ok(Self::BaseReachableTime(parse_u64(value)?)),
            NDTPA_RETRANS_TIME => Ok(Self::RetransTime(parse_u64(value)?)),
            NDTPA_GC_STALETIME => Ok(Self::GcStaletime(parse_u64(value)?)),
            NDTPA_DELAY_PROBE_TIME => Ok(Self::DelayProbeTime(parse_u64(value)?)),
            NDTPA_QUEUE_LEN => Ok(Self::QueueLen(parse_u32(value)?)),
            NDTPA_APP_PROBES => Ok(Self::AppProbes(parse_u32(value)?)),
            NDTPA_UCAST_PROBES => Ok(Self::UcastProbes(parse_u32(value)?)),
            NDTPA_MCAST_PROBES => Ok(Self::McastProbes(parse_u32(value)?)),
            NDTPA_ANYCAST_DELAY => Ok(Self::AnycastDelay(parse_u64(value)?)),
            NDTPA_PROXY_DELAY => Ok(Self::ProxyDelay(parse_u64(value)?)),
            NDTPA_PROXY_QLEN => Ok(Self::ProxyQlen(parse_u32(value)?)),
            NDTPA_LOCKTIME => Ok(Self::Locktime(parse_u64(value)?)),
            NDTPA_QUEUE_LENBYTES => Ok(Self::QueueLenbytes(parse_u32(value)?)),
            NDTPA_MCAST_REPROBES => Ok(Self::McastReprobes(parse_u32(value)?)),
            NDTPA_INTERVAL_PROBE_TIME_MS => Ok(Self::IntervalProbeTimeMs(parse_u64(value)?)),
            _ => Ok(Self::Other(DefaultNla::parse(alloc, buf)?)),
        }
    }
}

impl<'a> Attribute<'a, ()> for NeighbourTableParameter {
    ghost ReadsBack = { λ _ x. ReadsBack x };

    ghost reads_back = { attribute-again };

    ghost read_reads_back = { attribute-read };
}

impl TryClone for NeighbourTableParameter {
    fn clone_with(&self) -> Result<Self, NoMemory> {
        match self {
            Self::Ifindex(n) => Ok(Self::Ifindex(*n)),
            Self::ReferenceCount(n) => Ok(Self::ReferenceCount(*n)),
            Self::ReachableTime(n) => Ok(Self::ReachableTime(*n)),
            Self::BaseReachableTime(n) => Ok(Self::BaseReachableTime(*n)),
            Self::RetransTime(n) => Ok(Self::RetransTime(*n)),
            Self::GcStaletime(n) => Ok(Self::GcStaletime(*n)),
            Self::DelayProbeTime(n) => Ok(Self::DelayProbeTime(*n)),
            Self::QueueLen(n) => Ok(Self::QueueLen(*n)),
            Self::AppProbes(n) => Ok(Self::AppProbes(*n)),
            Self::UcastProbes(n) => Ok(Self::UcastProbes(*n)),
            Self::McastProbes(n) => Ok(Self::McastProbes(*n)),
            Self::AnycastDelay(n) => Ok(Self::AnycastDelay(*n)),
            Self::ProxyDelay(n) => Ok(Self::ProxyDelay(*n)),
            Self::ProxyQlen(n) => Ok(Self::ProxyQlen(*n)),
            Self::Locktime(n) => Ok(Self::Locktime(*n)),
            Self::QueueLenbytes(n) => Ok(Self::QueueLenbytes(*n)),
            Self::McastReprobes(n) => Ok(Self::McastReprobes(*n)),
            Self::IntervalProbeTimeMs(n) => Ok(Self::IntervalProbeTimeMs(*n)),
            Self::Other(nla) => Ok(Self::Other(nla.clone_with()?)),
        }
    }
}
