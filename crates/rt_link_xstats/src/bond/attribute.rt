//! What is counted of bonds, the `BOND_XSTATS_` attributes of include/uapi/linux/if_bonding.h.
#![tactic(auto, using(nl_core::proofs::Wire::writes))]

ghost use Rattle.std.specs.Prelude.{◌≡◌};
ghost use Rattle.rt_layout.specs.Value.{value_text};
ghost use Rattle.rt_link_xstats.specs.Bond.{counters_text, kind, value, attribute_at, ReadsBack};
ghost use Rattle.rt_link_xstats.specs.BondLaws.{attribute-again, attribute-read};

use crate::bond::three_ad::Bond3adStats;
use nl_core::{
    DecodeError, DefaultNla, Items, NLA_F_NESTED, Nla, NlaBuffer, NoMemory, Parseable, TryClone,
    attributes_len, emit_attributes, parse_attributes,
};
use rt_layout::{AttributeValue, Value};
use rt_other::Attribute;
use std::alloc::Global;

const BOND_XSTATS_3AD: u16 = 1;

/// What is counted of a bond or of one of its links.
#[derive(Debug, PartialEq, Eq, Drop)]
pub enum BondXstat {
    /// Of link aggregation; its type is written with `NLA_F_NESTED`.
    ThreeAd(Items<Bond3adStats>),
    /// Any other one.
    Other(DefaultNla),
}

// A value that is a list of counters.
#[derive(Drop)]
struct Counters<'a>(&'a [Bond3adStats]);

impl<'a> AttributeValue for Counters<'a> {
    ghost written = { λ c. counters_text c.0.now };

    fn value_len(&self) -> usize {
        attributes_len(self.0)
    }

    fn emit_value(&self, buf: &mut [u8]) {
        emit_attributes(self.0, buf);
    }
}

impl BondXstat {
    // The type, and the value as it is written.
    fn row(&self) -> (u16, Value<'_, Counters<'_>>)
        ensures kind { result.0 ≡ kind self.now }
        ensures value { value_text (λ c. counters_text c.0.now) result.1 ≡ value self.now }
    {
        match self {
            Self::ThreeAd(counters) => {
                let value = Value::Struct(Counters(counters.as_slice()));
                (BOND_XSTATS_3AD | NLA_F_NESTED, value)
            }
            Self::Other(nla) => (nla.kind, Value::Bytes(nla.value.as_slice())),
        }
    }
}

impl Nla for BondXstat {
    ghost kind_as_written = { kind };

    ghost value_text = { value };

    fn value_len(&self) -> usize {
        self.row().1.len()
    }

    fn emit_value(&self, buf: &mut [u8]) {
        self.row().1.emit(buf);
    }

    fn kind(&self) -> u16 {
        self.row().0
    }
}

impl<'a> Parseable<NlaBuffer<'a>> for BondXstat {
    ghost reads = { attribute_at };

    fn parse(alloc: Global, buf: &NlaBuffer<'a>) -> Result<Self, DecodeError> {
        match buf.kind() {
            BOND_XSTATS_3AD => Ok(Self::ThreeAd(parse_attributes(alloc, buf.value())?)),
            _ => Ok(Self::Other(DefaultNla::parse(alloc, buf)?)),
        }
    }
}

impl<'a> Attribute<'a, ()> for BondXstat {
    ghost ReadsBack = { λ _ x. ReadsBack x };

    ghost reads_back = { attribute-again };

    ghost read_reads_back = { attribute-read };
}

impl TryClone for BondXstat {
    fn clone_with(&self) -> Result<Self, NoMemory> {
        match self {
            Self::ThreeAd(counters) => Ok(Self::ThreeAd(counters.clone_with()?)),
            Self::Other(nla) => Ok(Self::Other(nla.clone_with()?)),
        }
    }
}
