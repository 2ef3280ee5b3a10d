//! Counters of link aggregation, the `BOND_3AD_STAT_` attributes of include/uapi/linux/if_bonding.h.
#![tactic(auto, using(nl_core::proofs::Wire::writes))]

ghost use Rattle.std.specs.Prelude.{◌≡◌, []};
ghost use Rattle.rt_layout.specs.Value.{value_text};
ghost use Rattle.rt_link_xstats.specs.Bond3ad.{kind, value, attribute_at, ReadsBack};
ghost use Rattle.rt_link_xstats.specs.Bond3adLaws.{attribute-again, attribute-read};

use nl_core::{DecodeError, DefaultNla, Nla, NlaBuffer, NoMemory, Parseable, TryClone, parse_u64};
use rt_layout::{NoStruct, Value};
use rt_other::Attribute;
use std::alloc::Global;

const BOND_3AD_STAT_LACPDU_RX: u16 = 0;

const BOND_3AD_STAT_LACPDU_TX: u16 = 1;

const BOND_3AD_STAT_LACPDU_UNKNOWN_RX: u16 = 2;

const BOND_3AD_STAT_LACPDU_ILLEGAL_RX: u16 = 3;

const BOND_3AD_STAT_MARKER_RX: u16 = 4;

const BOND_3AD_STAT_MARKER_TX: u16 = 5;

const BOND_3AD_STAT_MARKER_RESP_RX: u16 = 6;

const BOND_3AD_STAT_MARKER_RESP_TX: u16 = 7;

const BOND_3AD_STAT_MARKER_UNKNOWN_RX: u16 = 8;

/// A counter of the link aggregation (802.3ad) of a bond or of one of its links.
#[derive(Debug, PartialEq, Eq, Drop)]
pub enum Bond3adStats {
    /// Received LACP frames.
    LacpduRx(u64),
    /// Sent LACP frames.
    LacpduTx(u64),
    /// Received frames of an unknown type.
    LacpduUnknownRx(u64),
    /// Received frames of an illegal type.
    LacpduIllegalRx(u64),
    /// Received marker frames.
    MarkerRx(u64),
    /// Sent marker frames.
    MarkerTx(u64),
    /// Received responses to markers.
    MarkerRespRx(u64),
    /// Sent responses to markers.
    MarkerRespTx(u64),
    /// Received marker frames of an unknown type.
    MarkerUnknownRx(u64),
    /// Any other one.
    Other(DefaultNla),
}

impl Bond3adStats {
    // The type, and the value as it is written.
    fn row(&self) -> (u16, Value<'_, NoStruct>)
        ensures kind { result.0 ≡ kind self.now }
        ensures value { value_text (λ _. []) result.1 ≡ value self.now }
    {
        match self {
            Self::LacpduRx(n) => (BOND_3AD_STAT_LACPDU_RX, Value::U64(*n)),
            Self::LacpduTx(n) => (BOND_3AD_STAT_LACPDU_TX, Value::U64(*n)),
            Self::LacpduUnknownRx(n) => (BOND_3AD_STAT_LACPDU_UNKNOWN_RX, Value::U64(*n)),
            Self::LacpduIllegalRx(n) => (BOND_3AD_STAT_LACPDU_ILLEGAL_RX, Value::U64(*n)),
            Self::MarkerRx(n) => (BOND_3AD_STAT_MARKER_RX, Value::U64(*n)),
            Self::MarkerTx(n) => (BOND_3AD_STAT_MARKER_TX, Value::U64(*n)),
            Self::MarkerRespRx(n) => (BOND_3AD_STAT_MARKER_RESP_RX, Value::U64(*n)),
            Self::MarkerRespTx(n) => (BOND_3AD_STAT_MARKER_RESP_TX, Value::U64(*n)),
            Self::MarkerUnknownRx(n) => (BOND_3AD_STAT_MARKER_UNKNOWN_RX, Value::U64(*n)),
            Self::Other(nla) => (nla.kind, Value::Bytes(nla.value.as_slice())),
        }
    }
}

impl Nla for Bond3adStats {
    ghost kind_as_written = { kind };

    ghost value_text = { value };

    fn value_len(&self) -> usize {
        self.row().1.len()
    }

    fn emit_value(&self, buf: &mut [u8]) {
        self.row().1.emit(buf);
    }

    fn kind(&self) -> u16 {
        self.row().0
    }
}

impl<'a> Parseable<NlaBuffer<'a>> for Bond3adStats {
    ghost reads = { attribute_at };

    fn parse(alloc: Global, buf: &NlaBuffer<'a>) -> Result<Self, DecodeError> {
        let value = buf.value();
        match buf.kind() {
            BOND_3AD_STAT_LACPDU_RX => Ok(Self::LacpduRx(parse_u64(value)?)),
            BOND_3AD_STAT_LACPDU_TX => Ok(Self::LacpduTx(parse_u64(value)?)),
            BOND_3AD_STAT_LACPDU_UNKNOWN_RX => Ok(Self::LacpduUnknownRx(parse_u64(value)?)),
            BOND_3AD_STAT_LACPDU_ILLEGAL_RX => Ok(Self::LacpduIllegalRx(parse_u64(value)?)),
            BOND_3AD_STAT_MARKER_RX => Ok(Self::MarkerRx(parse_u64(value)?)),
            BOND_3AD_STAT_MARKER_TX => Ok(Self::MarkerTx(parse_u64(value)?)),
            BOND_3AD_STAT_MARKER_RESP_RX => Ok(Self::MarkerRespRx(parse_u64(value)?)),
            BOND_3AD_STAT_MARKER_RESP_TX => Ok(Self::MarkerRespTx(parse_u64(value)?)),
            BOND_3AD_STAT_MARKER_UNKNOWN_RX => Ok(Self::MarkerUnknownRx(parse_u64(value)?)),
            _ => Ok(Self::Other(DefaultNla::parse(alloc, buf)?)),
        }
    }
}

impl<'a> Attribute<'a, ()> for Bond3adStats {
    ghost ReadsBack = { λ _ x. ReadsBack x };

    ghost reads_back = { attribute-again };

    ghost read_reads_back = { attribute-read };
}

impl TryClone for Bond3adStats {
    fn clone_with(&self) -> Result<Self, NoMemory> {
        match self {
            Self::LacpduRx(n) => Ok(Self::LacpduRx(*n)),
            Self::LacpduTx(n) => Ok(Self::LacpduTx(*n)),
            Self::LacpduUnknownRx(n) => Ok(Self::LacpduUnknownRx(*n)),
            Self::LacpduIllegalRx(n) => Ok(Self::LacpduIllegalRx(*n)),
            Self::MarkerRx(n) => Ok(Self::MarkerRx(*n)),
            Self::MarkerTx(n) => Ok(Self::MarkerTx(*n)),
            Self::MarkerRespRx(n) => Ok(Self::MarkerRespRx(*n)),
            Self::MarkerRespTx(n) => Ok(Self::MarkerRespTx(*n)),
            Self::MarkerUnknownRx(n) => Ok(Self::MarkerUnknownRx(*n)),
            Self::Other(nla) => Ok(Self::Other(nla.clone_with()?)),
        }
    }
}
