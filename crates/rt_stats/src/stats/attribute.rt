//! Statistics of links, the `IFLA_STATS_` attributes of include/uapi/linux/if_link.h.
#![tactic(auto, using(nl_core::proofs::Wire::writes))]

ghost use Rattle.std.specs.Prelude.{◌≡◌};
ghost use Rattle.rt_layout.specs.Value.{value_text};
ghost use Rattle.rt_stats.specs.StatsAttribute.{stats_value_text, kind, value, attribute_at, ReadsBack};
ghost use Rattle.rt_stats.specs.StatsAttributeLaws.{attribute-again, attribute-read};

use crate::stats::af_spec::{AfSpecStat, AfSpecStats};
use crate::stats::counters::Counters;
use crate::stats::offload::OffloadXstat;
use nl_core::{
    DecodeError, DefaultNla, Items, Nla, NlaBuffer, NoMemory, Parseable, TryClone, attributes_len,
    emit_attributes, parse_attributes,
};
use rt_layout::{AttributeValue, Value};
use rt_link_xstats::LinkXstatGroup;
use rt_other::{Attribute, Stats64};
use std::alloc::Global;

const IFLA_STATS_LINK_64: u16 = 1;

const IFLA_STATS_LINK_XSTATS: u16 = 2;

const IFLA_STATS_LINK_XSTATS_SLAVE: u16 = 3;

const IFLA_STATS_LINK_OFFLOAD_XSTATS: u16 = 4;

const IFLA_STATS_AF_SPEC: u16 = 5;

/// Statistics of a link.
#[derive(Debug, PartialEq, Eq, Drop)]
pub enum StatsAttribute {
    /// The counters that each link has.
    Link64(Stats64),
    /// The extended statistics of a bridge or a bond.
    LinkXstats(Items<LinkXstatGroup>),
    /// The extended statistics of a port of one.
    LinkXstatsPort(Items<LinkXstatGroup>),
    /// What hardware counts.
    LinkOffloadXstats(Items<OffloadXstat>),
    /// The statistics by address family.
    AfSpec(AfSpecStats),
    /// Any other one.
    Other(DefaultNla),
}

// A value that is a list.
#[derive(Drop)]
enum StatsValue<'a> {
    Link64(Counters<'a>),
    Groups(&'a [LinkXstatGroup]),
    Offload(&'a [OffloadXstat]),
    AfSpec(&'a [AfSpecStat]),
}

impl<'a> AttributeValue for StatsValue<'a> {
    ghost written = { stats_value_text };

    fn value_len(&self) -> usize {
        match self {
            StatsValue::Link64(counters) => counters.value_len(),
            StatsValue::Groups(groups) => attributes_len(groups),
            StatsValue::Offload(stats) => attributes_len(stats),
            StatsValue::AfSpec(stats) => attributes_len(stats),
        }
    }

    fn emit_value(&self, buf: &mut [u8]) {
        match self {
            StatsValue::Link64(counters) => counters.emit_value(buf),
            StatsValue::Groups(groups) => emit_attributes(groups, buf),
            StatsValue::Offload(stats) => emit_attributes(stats, buf),
            StatsValue::AfSpec(stats) => emit_attributes(stats, buf),
        }
    }
}

impl StatsAttribute {
    // The type, and the value as it is written.
    fn row(&self) -> (u16, Value<'_, StatsValue<'_>>)
        ensures kind { result.0 ≡ kind self.now }
        ensures value { value_text stats_value_text result.1 ≡ value self.now }
    {
        let (kind, value) = match self {
            Self::Link64(stats) => (IFLA_STATS_LINK_64, StatsValue::Link64(Counters(stats))),
            Self::LinkXstats(groups) => {
                let groups = groups.as_slice();
                (IFLA_STATS_LINK_XSTATS, StatsValue::Groups(groups))
            }
            Self::LinkXstatsPort(groups) => {
                let groups = groups.as_slice();
                (IFLA_STATS_LINK_XSTATS_SLAVE, StatsValue::Groups(groups))
            }
            Self::LinkOffloadXstats(stats) => {
                let stats = stats.as_slice();
                (IFLA_STATS_LINK_OFFLOAD_XSTATS, StatsValue::Offload(stats))
            }
            Self::AfSpec(stats) => {
                let stats = stats.0.as_slice();
                (IFLA_STATS_AF_SPEC, StatsValue::AfSpec(stats))
            }
            Self::Other(nla) => return (nla.kind, Value::Bytes(nla.value.as_slice())),
        };
        (kind, Value::Struct(value))
    }
}

impl Nla for StatsAttribute {
    ghost kind_as_written = { kind };

    ghost value_text = { value };

    fn value_len(&self) -> usize {
        self.row().1.len()
    }

    fn emit_value(&self, buf: &mut [u8]) {
        self.row().1.emit(buf);
    }

    fn kind(&self) -> u16 {
        self.row().0
    }
}

impl<'a> Parseable<NlaBuffer<'a>> for StatsAttribute {
    ghost reads = { attribute_at };

    fn parse(alloc: Global, buf: &NlaBuffer<'a>) -> Result<Self, DecodeError> {
        let value = buf.value();
        match buf.kind() {
            IFLA_STATS_LINK_64 => Ok(Self::Link64(Stats64::parse(alloc, value)?)),
            IFLA_STATS_LINK_XSTATS => Ok(Self::LinkXstats(parse_attributes(alloc, value)?)),
            IFLA_STATS_LINK_XSTATS_SLAVE => {
                Ok(Self::LinkXstatsPort(parse_attributes(alloc, value)?))
            }
            IFLA_STATS_LINK_OFFLOAD_XSTATS => {
                Ok(Self::LinkOffloadXstats(parse_attributes(alloc, value)?))
            }
            IFLA_STATS_AF_SPEC => Ok(Self::AfSpec(AfSpecStats::parse(alloc, value)?)),
            _ => Ok(Self::Other(DefaultNla::parse(alloc, buf)?)),
        }
    }
}

impl<'a> Attribute<'a, ()> for StatsAttribute {
    ghost ReadsBack = { λ _ x. ReadsBack x };

    ghost reads_back = { attribute-again };

    ghost read_reads_back = { attribute-read };
}

impl TryClone for StatsAttribute {
    fn clone_with(&self) -> Result<Self, NoMemory> {
        match self {
            Self::Link64(stats) => Ok(Self::Link64(stats.clone_with()?)),
            Self::LinkXstats(groups) => Ok(Self::LinkXstats(groups.clone_with()?)),
            Self::LinkXstatsPort(groups) => Ok(Self::LinkXstatsPort(groups.clone_with()?)),
            Self::LinkOffloadXstats(stats) => Ok(Self::LinkOffloadXstats(stats.clone_with()?)),
            Self::AfSpec(stats) => Ok(Self::AfSpec(stats.clone_with()?)),
            Self::Other(nla) => Ok(Self::Other(nla.clone_with()?)),
        }
    }
}
