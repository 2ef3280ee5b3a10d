//! Extended statistics of links by what kind of link keeps them, the `LINK_XSTATS_TYPE_` attributes
//! of include/uapi/linux/if_link.h.
#![tactic(auto, using(nl_core::proofs::Wire::writes))]

ghost use Rattle.std.specs.Prelude.{◌≡◌};
ghost use Rattle.rt_layout.specs.Value.{value_text};
ghost use Rattle.rt_link_xstats.specs.Group.{group_value_text, kind, value, attribute_at, ReadsBack};
ghost use Rattle.rt_link_xstats.specs.GroupLaws.{attribute-again, attribute-read};

use crate::bond::BondXstat;
use crate::bridge::BridgeXstat;
use nl_core::{
    DecodeError, DefaultNla, Items, Nla, NlaBuffer, NoMemory, Parseable, TryClone, attributes_len,
    emit_attributes, parse_attributes,
};
use rt_layout::{AttributeValue, Value};
use rt_other::Attribute;
use std::alloc::Global;

const LINK_XSTATS_TYPE_BRIDGE: u16 = 1;

const LINK_XSTATS_TYPE_BOND: u16 = 2;

/// The extended statistics of a link by one kind of link.
#[derive(Debug, PartialEq, Eq, Drop)]
pub enum LinkXstatGroup {
    /// By a bridge.
    Bridge(Items<BridgeXstat>),
    /// By a bond.
    Bond(Items<BondXstat>),
    /// Any other one.
    Other(DefaultNla),
}

// A value that is a list.
#[derive(Drop)]
enum GroupValue<'a> {
    Bridge(&'a [BridgeXstat]),
    Bond(&'a [BondXstat]),
}

impl<'a> AttributeValue for GroupValue<'a> {
    ghost written = { group_value_text };

    fn value_len(&self) -> usize {
        match self {
            GroupValue::Bridge(stats) => attributes_len(stats),
            GroupValue::Bond(stats) => attributes_len(stats),
        }
    }

    fn emit_value(&self, buf: &mut [u8]) {
        match self {
            GroupValue::Bridge(stats) => emit_attributes(stats, buf),
            GroupValue::Bond(stats) => emit_attributes(stats, buf),
        }
    }
}

impl LinkXstatGroup {
    // The type, and the value as it is written.
    fn row(&self) -> (u16, Value<'_, GroupValue<'_>>)
        ensures kind { result.0 ≡ kind self.now }
        ensures value { value_text group_value_text result.1 ≡ value self.now }
    {
        match self {
            Self::Bridge(stats) => {
                let value = GroupValue::Bridge(stats.as_slice());
                (LINK_XSTATS_TYPE_BRIDGE, Value::Struct(value))
            }
            Self::Bond(stats) => {
                let value = GroupValue::Bond(stats.as_slice());
                (LINK_XSTATS_TYPE_BOND, Value::Struct(value))
            }
            Self::Other(nla) => (nla.kind, Value::Bytes(nla.value.as_slice())),
        }
    }
}

impl Nla for LinkXstatGroup {
    ghost kind_as_written = { kind };

    ghost value_text = { value };

    fn value_len(&self) -> usize {
        self.row().1.len()
    }

    fn emit_value(&self, buf: &mut [u8]) {
        self.row().1.emit(buf);
    }

    fn kind(&self) -> u16 {
        self.row().0
    }
}

impl<'a> Parseable<NlaBuffer<'a>> for LinkXstatGroup {
    ghost reads = { attribute_at };

    fn parse(alloc: Global, buf: &NlaBuffer<'a>) -> Result<Self, DecodeError> {
        let value = buf.value();
        match buf.kind() {
            LINK_XSTATS_TYPE_BRIDGE => Ok(Self::Bridge(parse_attributes(alloc, value)?)),
            LINK_XSTATS_TYPE_BOND => Ok(Self::Bond(parse_attributes(alloc, value)?)),
            _ => Ok(Self::Other(DefaultNla::parse(alloc, buf)?)),
        }
    }
}

impl<'a> Attribute<'a, ()> for LinkXstatGroup {
    ghost ReadsBack = { λ _ x. ReadsBack x };

    ghost reads_back = { attribute-again };

    ghost read_reads_back = { attribute-read };
}

impl TryClone for LinkXstatGroup {
    fn clone_with(&self) -> Result<Self, NoMemory> {
        match self {
            Self::Bridge(stats) => Ok(Self::Bridge(stats.clone_with()?)),
            Self::Bond(stats) => Ok(Self::Bond(stats.clone_with()?)),
            Self::Other(nla) => Ok(Self::Other(nla.clone_with()?)),
        }
    }
}
