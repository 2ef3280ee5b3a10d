//! What hardware counts of links, the `IFLA_OFFLOAD_XSTATS_` attributes of
//! include/uapi/linux/if_link.h.
#![tactic(auto, using(nl_core::proofs::Wire::writes, crate::proofs::Lengths::lengths))]

ghost use Rattle.std.specs.Prelude.{◌≡◌};
ghost use Rattle.rt_layout.specs.Value.{value_text};
ghost use Rattle.rt_stats.specs.Offload.{offload_value_text, kind, value, attribute_at, ReadsBack};
ghost use Rattle.rt_stats.specs.OffloadLaws.{attribute-again, attribute-read};

use crate::stats::counters::Counters;
use crate::stats::hw_stats::HwStats64;
use crate::stats::hw_stats_info::HwStatsInfo;
use nl_core::{
    DecodeError, DefaultNla, Emitable, NLA_F_NESTED, Nla, NlaBuffer, NoMemory, Parseable, TryClone,
};
use rt_layout::{AttributeValue, Value};
use rt_other::{Attribute, Stats64};
use std::alloc::Global;

const IFLA_OFFLOAD_XSTATS_CPU_HIT: u16 = 1;

const IFLA_OFFLOAD_XSTATS_HW_S_INFO: u16 = 2;

const IFLA_OFFLOAD_XSTATS_L3_STATS: u16 = 3;

/// What is counted of a link whose packets hardware forwards.
#[derive(Debug, PartialEq, Eq, Drop)]
pub enum OffloadXstat {
    /// The counters of what the processor handled all the same.
    CpuHit(Stats64),
    /// Whether hardware counts; its type is written with `NLA_F_NESTED`.
    HwStatsInfo(HwStatsInfo),
    /// The counters of hardware at layer 3.
    L3Stats(HwStats64),
    /// Any other one.
    Other(DefaultNla),
}

// A value that is a struct or a list.
#[derive(Drop)]
enum OffloadValue<'a> {
    CpuHit(Counters<'a>),
    HwStatsInfo(&'a HwStatsInfo),
    L3Stats(&'a HwStats64),
}

impl<'a> AttributeValue for OffloadValue<'a> {
    ghost written = { offload_value_text };

    fn value_len(&self) -> usize {
        match self {
            OffloadValue::CpuHit(counters) => counters.value_len(),
            OffloadValue::HwStatsInfo(info) => info.buffer_len(),
            OffloadValue::L3Stats(stats) => stats.value_len(),
        }
    }

    fn emit_value(&self, buf: &mut [u8]) {
        match self {
            OffloadValue::CpuHit(counters) => counters.emit_value(buf),
            OffloadValue::HwStatsInfo(info) => info.emit(buf),
            OffloadValue::L3Stats(stats) => stats.emit_value(buf),
        }
    }
}

impl OffloadXstat {
    // The type, and the value as it is written.
    fn row(&self) -> (u16, Value<'_, OffloadValue<'_>>)
        ensures kind { result.0 ≡ kind self.now }
        ensures value { value_text offload_value_text result.1 ≡ value self.now }
    {
        match self {
            Self::CpuHit(stats) => {
                let value = OffloadValue::CpuHit(Counters(stats));
                (IFLA_OFFLOAD_XSTATS_CPU_HIT, Value::Struct(value))
            }
            Self::HwStatsInfo(info) => {
                let value = OffloadValue::HwStatsInfo(info);
                (
                    IFLA_OFFLOAD_XSTATS_HW_S_INFO | NLA_F_NESTED,
                    Value::Struct(value),
                )
            }
            Self::L3Stats(stats) => {
                let value = OffloadValue::L3Stats(stats);
                (IFLA_OFFLOAD_XSTATS_L3_STATS, Value::Struct(value))
            }
            Self::Other(nla) => (nla.kind, Value::Bytes(nla.value.as_slice())),
        }
    }
}

impl Nla for OffloadXstat {
    ghost kind_as_written = { kind };

    ghost value_text = { value };

    fn value_len(&self) -> usize {
        self.row().1.len()
    }

    fn emit_value(&self, buf: &mut [u8]) {
        self.row().1.emit(buf);
    }

    fn kind(&self) -> u16 {
        self.row().0
    }
}

impl<'a> Parseable<NlaBuffer<'a>> for OffloadXstat {
    ghost reads = { attribute_at };

    fn parse(alloc: Global, buf: &NlaBuffer<'a>) -> Result<Self, DecodeError> {
        let value = buf.value();
        match buf.kind() {
            IFLA_OFFLOAD_XSTATS_CPU_HIT => Ok(Self::CpuHit(Stats64::parse(alloc, value)?)),
            IFLA_OFFLOAD_XSTATS_HW_S_INFO => Ok(Self::HwStatsInfo(HwStatsInfo::parse(value)?)),
            IFLA_OFFLOAD_XSTATS_L3_STATS => Ok(Self::L3Stats(HwStats64::parse(value)?)),
            _ => Ok(Self::Other(DefaultNla::parse(alloc, buf)?)),
        }
    }
}

impl<'a> Attribute<'a, ()> for OffloadXstat {
    ghost ReadsBack = { λ _ x. ReadsBack x };

    ghost reads_back = { attribute-again };

    ghost read_reads_back = { attribute-read };
}

impl TryClone for OffloadXstat {
    fn clone_with(&self) -> Result<Self, NoMemory> {
        match self {
            Self::CpuHit(stats) => Ok(Self::CpuHit(stats.clone_with()?)),
            Self::HwStatsInfo(info) => Ok(Self::HwStatsInfo(info.clone()?)),
            Self::L3Stats(stats) => Ok(Self::L3Stats(stats.clone()?)),
            Self::Other(nla) => Ok(Self::Other(nla.clone_with()?)),
        }
    }
}
