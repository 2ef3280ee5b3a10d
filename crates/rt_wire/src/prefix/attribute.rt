//! Attributes of prefixes, of include/uapi/linux/rtnetlink.h.
#![tactic(auto, using(nl_core::proofs::Wire::writes))]

ghost use Rattle.std.specs.Prelude.{◌≡◌};
ghost use Rattle.rt_layout.specs.Value.{value_text};
ghost use Rattle.rt_wire.specs.CacheInfo.{cache_info_text};
ghost use Rattle.rt_wire.specs.PrefixAttribute.{kind, value, attribute_at, ReadsBack};
ghost use Rattle.rt_wire.specs.PrefixAttributeLaws.{attribute-again, attribute-read};

use super::cache_info::CacheInfo;
use nl_core::{DecodeError, DefaultNla, Nla, NlaBuffer, NoMemory, Parseable, TryClone};
use rt_layout::{Value, parse_array};
use rt_other::{Attribute, Ipv6Addr};
use std::alloc::Global;

const PREFIX_ADDRESS: u16 = 1;

const PREFIX_CACHEINFO: u16 = 2;

/// An attribute of a prefix.
#[derive(Debug, PartialEq, Eq, Drop)]
pub enum PrefixAttribute {
    /// The address of the prefix.
    Address(Ipv6Addr),
    /// Its lifetimes.
    CacheInfo(CacheInfo),
    /// Any other one.
    Other(DefaultNla),
}

impl PrefixAttribute {
    // The type, and the value as it is written.
    fn row(&self) -> (u16, Value<'_, CacheInfo>)
        ensures kind { result.0 ≡ kind self.now }
        ensures value { value_text cache_info_text result.1 ≡ value self.now }
    {
        match self {
            Self::Address(address) => (PREFIX_ADDRESS, Value::Bytes(&address.0)),
            Self::CacheInfo(info) => (PREFIX_CACHEINFO, Value::Struct(*info)),
            Self::Other(nla) => (nla.kind, Value::Bytes(nla.value.as_slice())),
        }
    }
}

impl Nla for PrefixAttribute {
    ghost kind_as_written = { kind };

    ghost value_text = { value };

    fn value_len(&self) -> usize {
        self.row().1.len()
    }

    fn emit_value(&self, buf: &mut [u8]) {
        self.row().1.emit(buf);
    }

    fn kind(&self) -> u16 {
        self.row().0
    }
}

impl<'a> Parseable<NlaBuffer<'a>> for PrefixAttribute {
    ghost reads = { attribute_at };

    fn parse(alloc: Global, buf: &NlaBuffer<'a>) -> Result<Self, DecodeError> {
        let value = buf.value();
        match buf.kind() {
            PREFIX_ADDRESS => Ok(Self::Address(Ipv6Addr(parse_array(value)?))),
            PREFIX_CACHEINFO => Ok(Self::CacheInfo(CacheInfo::parse(value)?)),
            _ => Ok(Self::Other(DefaultNla::parse(alloc, buf)?)),
        }
    }
}

impl<'a> Attribute<'a, ()> for PrefixAttribute {
    ghost ReadsBack = { λ _ x. ReadsBack x };

    ghost reads_back = { attribute-again };

    ghost read_reads_back = { attribute-read };
}

impl TryClone for PrefixAttribute {
    fn clone_with(&self) -> Result<Self, NoMemory> {
        match self {
            Self::Address(address) => Ok(Self::Address(Ipv6Addr(address.0))),
            Self::CacheInfo(info) => Ok(Self::CacheInfo(*info)),
            Self::Other(nla) => Ok(Self::Other(nla.clone_with()?)),
        }
    }
}
