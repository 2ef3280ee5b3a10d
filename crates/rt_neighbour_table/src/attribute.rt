//! Attributes of neighbour tables, of include/uapi/linux/neighbour.h.
#![tactic(auto, using(nl_core::proofs::Wire::writes))]

ghost use Rattle.std.specs.Prelude.{◌≡◌};
ghost use Rattle.nl_core.specs.Reading.{Gives};
ghost use Rattle.rt_layout.specs.Value.{value_text};
ghost use Rattle.rt_neighbour_table.specs.NeighbourTableAttribute.{table_value_text, parameters_at, kind, value, attribute_at, ReadsBack};
ghost use Rattle.rt_neighbour_table.specs.NeighbourTableAttributeLaws.{attribute-again, attribute-read};

use crate::config::NeighbourTableConfig;
use crate::parameter::NeighbourTableParameter;
use crate::stats::NeighbourTableStats;
use nl_core::{
    DecodeError, DefaultNla, Items, Nla, NlaBuffer, NoMemory, Parseable, Text, TryClone,
    attributes_len, emit_attributes, parse_attributes, parse_string, parse_u32, parse_u64,
};
use rt_layout::{AttributeValue, Value};
use rt_other::Attribute;
use std::alloc::Global;

const NDTA_NAME: u16 = 1;

const NDTA_THRESH1: u16 = 2;

const NDTA_THRESH2: u16 = 3;

const NDTA_THRESH3: u16 = 4;

const NDTA_CONFIG: u16 = 5;

const NDTA_PARMS: u16 = 6;

const NDTA_STATS: u16 = 7;

const NDTA_GC_INTERVAL: u16 = 8;

/// An attribute of a neighbour table.
#[derive(Debug, PartialEq, Eq, Drop)]
pub enum NeighbourTableAttribute {
    /// The name of the table, which is written with a NUL.
    Name(Text),
    /// The count of entries below which none is collected.
    Threshold1(u32),
    /// The count of entries above which they are collected soon.
    Threshold2(u32),
    /// The count of entries that is never passed.
    Threshold3(u32),
    /// How the table is laid out and used.
    Config(NeighbourTableConfig),
    /// Its parameters, of which there is at least one in what is read.
    Parms(Items<NeighbourTableParameter>),
    /// What was counted of it.
    Stats(NeighbourTableStats),
    /// The time between two runs of the collector, in milliseconds.
    GcInterval(u64),
    /// Any other one.
    Other(DefaultNla),
}

// A value that is a struct or a list.
#[derive(Drop)]
enum TableValue<'a> {
    Config(&'a NeighbourTableConfig),
    Stats(&'a NeighbourTableStats),
    Parms(&'a [NeighbourTableParameter]),
}

impl<'a> AttributeValue for TableValue<'a> {
    ghost written = { table_value_text };

    fn value_len(&self) -> usize {
        match self {
            TableValue::Config(config) => config.value_len(),
            TableValue::Stats(stats) => stats.value_len(),
            TableValue::Parms(parameters) => attributes_len(parameters),
        }
    }

    fn emit_value(&self, buf: &mut [u8]) {
        match self {
            TableValue::Config(config) => config.emit_value(buf),
            TableValue::Stats(stats) => stats.emit_value(buf),
            TableValue::Parms(parameters) => emit_attributes(parameters, buf),
        }
    }
}

impl NeighbourTableAttribute {
    // The type, and the value as it is written.
    fn row(&self) -> (u16, Value<'_, TableValue<'_>>)
        ensures kind { result.0 ≡ kind self.now }
        ensures value { value_text table_value_text result.1 ≡ value self.now }
    {
        match self {
            Self::Name(name) => (NDTA_NAME, Value::Name(name.as_str())),
            Self::Threshold1(count) => (NDTA_THRESH1, Value::U32(*count)),
            Self::Threshold2(count) => (NDTA_THRESH2, Value::U32(*count)),
            Self::Threshold3(count) => (NDTA_THRESH3, Value::U32(*count)),
            Self::Config(config) => (NDTA_CONFIG, Value::Struct(TableValue::Config(config))),
            Self::Parms(parameters) => {
                let parameters = parameters.as_slice();
                (NDTA_PARMS, Value::Struct(TableValue::Parms(parameters)))
            }
            Self::Stats(stats) => (NDTA_STATS, Value::Struct(TableValue::Stats(stats))),
            Self::GcInterval(time) => (NDTA_GC_INTERVAL, Value::U64(*time)),
            Self::Other(nla) => (nla.kind, Value::Bytes(nla.value.as_slice())),
        }
    }
}

impl Nla for NeighbourTableAttribute {
    ghost kind_as_written = { kind };

    ghost value_text = { value };

    fn value_len(&self) -> usize {
        self.row().1.len()
    }

    fn emit_value(&self, buf: &mut [u8]) {
        self.row().1.emit(buf);
    }

    fn kind(&self) -> u16 {
        self.row().0
    }
}

// The parameters that bytes are; `BadAttribute` where there is none.
fn parse_parameters(
    alloc: Global,
    bytes: &[u8],
) -> Result<Items<NeighbourTableParameter>, DecodeError>
    ensures { Gives result (parameters_at bytes.now) }
{
    if bytes.len() == 0 {
        return Err(DecodeError::BadAttribute);
    }
    parse_attributes(alloc, bytes)
}

impl<'a> Parseable<NlaBuffer<'a>> for NeighbourTableAttribute {
    ghost reads = { attribute_at };

    fn parse(alloc: Global, buf: &NlaBuffer<'a>) -> Result<Self, DecodeError> {
        let value = buf.value();
        match buf.kind() {
            NDTA_NAME => Ok(Self::Name(parse_string(alloc, value)?)),
            NDTA_THRESH1 => Ok(Self::Threshold1(parse_u32(value)?)),
            NDTA_THRESH2 => Ok(Self::Threshold2(parse_u32(value)?)),
            NDTA_THRESH3 => Ok(Self::Threshold3(parse_u32(value)?)),
            NDTA_CONFIG => Ok(Self::Config(NeighbourTableConfig::parse(value)?)),
            NDTA_PARMS => Ok(Self::Parms(parse_parameters(alloc, value)?)),
            NDTA_STATS => Ok(Self::Stats(NeighbourTableStats::parse(value)?)),
            NDTA_GC_INTERVAL => Ok(Self::GcInterval(parse_u64(value)?)),
            _ => Ok(Self::Other(DefaultNla::parse(alloc, buf)?)),
        }
    }
}

impl<'a> Attribute<'a, ()> for NeighbourTableAttribute {
    ghost ReadsBack = { λ _ x. ReadsBack x };

    ghost reads_back = { attribute-again };

    ghost read_reads_back = { attribute-read };
}

impl TryClone for NeighbourTableAttribute {
    fn clone_with(&self) -> Result<Self, NoMemory> {
        match self {
            Self::Name(name) => Ok(Self::Name(name.clone_with()?)),
            Self::Threshold1(count) => Ok(Self::Threshold1(*count)),
            Self::Threshold2(count) => Ok(Self::Threshold2(*count)),
            Self::Threshold3(count) => Ok(Self::Threshold3(*count)),
            Self::Config(config) => Ok(Self::Config(*config)),
            Self::Parms(parameters) => Ok(Self::Parms(parameters.clone_with()?)),
            Self::Stats(stats) => Ok(Self::Stats(*stats)),
            Self::GcInterval(time) => Ok(Self::GcInterval(*time)),
            Self::Other(nla) => Ok(Self::Other(nla.clone_with()?)),
        }
    }
}
