//! What is counted of bridges, the `BRIDGE_XSTATS_` attributes of include/uapi/linux/if_bridge.h.
#![tactic(auto, using(nl_core::proofs::Wire::writes))]

ghost use Rattle.std.specs.Prelude.{◌≡◌};
ghost use Rattle.rt_layout.specs.Value.{value_text};
ghost use Rattle.rt_link_xstats.specs.Bridge.{bridge_value_text, kind, value, attribute_at, ReadsBack};
ghost use Rattle.rt_link_xstats.specs.BridgeLaws.{attribute-again, attribute-read};

use crate::bridge::mcast::BridgeMcastStats;
use crate::bridge::stp::BridgeStpXstats;
use crate::bridge::vlan::BridgeVlanXstats;
use nl_core::{DecodeError, DefaultNla, Nla, NlaBuffer, NoMemory, Parseable, TryClone};
use rt_layout::{AttributeValue, Value};
use rt_other::Attribute;
use std::alloc::Global;

const BRIDGE_XSTATS_VLAN: u16 = 1;

const BRIDGE_XSTATS_MCAST: u16 = 2;

const BRIDGE_XSTATS_STP: u16 = 4;

/// What is counted of a bridge or of one of its ports.
#[derive(Debug, PartialEq, Eq, Drop)]
pub enum BridgeXstat {
    /// Of a VLAN.
    Vlan(BridgeVlanXstats),
    /// Of multicast.
    Mcast(BridgeMcastStats),
    /// Of the spanning tree.
    Stp(BridgeStpXstats),
    /// Any other one.
    Other(DefaultNla),
}

// A value that is a struct.
#[derive(Drop)]
enum BridgeValue<'a> {
    Vlan(&'a BridgeVlanXstats),
    Mcast(&'a BridgeMcastStats),
    Stp(&'a BridgeStpXstats),
}

impl<'a> AttributeValue for BridgeValue<'a> {
    ghost written = { bridge_value_text };

    fn value_len(&self) -> usize {
        match self {
            BridgeValue::Vlan(stats) => stats.value_len(),
            BridgeValue::Mcast(stats) => stats.value_len(),
            BridgeValue::Stp(stats) => stats.value_len(),
        }
    }

    fn emit_value(&self, buf: &mut [u8]) {
        match self {
            BridgeValue::Vlan(stats) => stats.emit_value(buf),
            BridgeValue::Mcast(stats) => stats.emit_value(buf),
            BridgeValue::Stp(stats) => stats.emit_value(buf),
        }
    }
}

impl BridgeXstat {
    // The type, and the value as it is written.
    fn row(&self) -> (u16, Value<'_, BridgeValue<'_>>)
        ensures kind { result.0 ≡ kind self.now }
        ensures value { value_text bridge_value_text result.1 ≡ value self.now }
    {
        match self {
            Self::Vlan(stats) => (BRIDGE_XSTATS_VLAN, Value::Struct(BridgeValue::Vlan(stats))),
            Self::Mcast(stats) => (
                BRIDGE_XSTATS_MCAST,
                Value::Struct(BridgeValue::Mcast(stats)),
            ),
            Self::Stp(stats) => (BRIDGE_XSTATS_STP, Value::Struct(BridgeValue::Stp(stats))),
            Self::Other(nla) => (nla.kind, Value::Bytes(nla.value.as_slice())),
        }
    }
}

impl Nla for BridgeXstat {
    ghost kind_as_written = { kind };

    ghost value_text = { value };

    fn value_len(&self) -> usize {
        self.row().1.len()
    }

    fn emit_value(&self, buf: &mut [u8]) {
        self.row().1.emit(buf);
    }

    fn kind(&self) -> u16 {
        self.row().0
    }
}

impl<'a> Parseable<NlaBuffer<'a>> for BridgeXstat {
    ghost reads = { attribute_at };

    fn parse(alloc: Global, buf: &NlaBuffer<'a>) -> Result<Self, DecodeError> {
        let value = buf.value();
        match buf.kind() {
            BRIDGE_XSTATS_VLAN => Ok(Self::Vlan(BridgeVlanXstats::parse(value)?)),
            BRIDGE_XSTATS_MCAST => Ok(Self::Mcast(BridgeMcastStats::parse(value)?)),
            BRIDGE_XSTATS_STP => Ok(Self::Stp(BridgeStpXstats::parse(value)?)),
            _ => Ok(Self::Other(DefaultNla::parse(alloc, buf)?)),
        }
    }
}

impl<'a> Attribute<'a, ()> for BridgeXstat {
    ghost ReadsBack = { λ _ x. ReadsBack x };

    ghost reads_back = { attribute-again };

    ghost read_reads_back = { attribute-read };
}

impl TryClone for BridgeXstat {
    fn clone_with(&self) -> Result<Self, NoMemory> {
        match self {
            Self::Vlan(stats) => Ok(Self::Vlan(stats.clone()?)),
            Self::Mcast(stats) => Ok(Self::Mcast(stats.clone()?)),
            Self::Stp(stats) => Ok(Self::Stp(stats.clone()?)),
            Self::Other(nla) => Ok(Self::Other(nla.clone_with()?)),
        }
    }
}
