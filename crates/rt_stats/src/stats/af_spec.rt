//! Statistics of links by address family, of include/uapi/linux/if_link.h.
#![tactic(auto, using(nl_core::proofs::Wire::writes, crate::proofs::Lengths::lengths))]

ghost use Rattle.std.specs.Prelude.{◌≡◌, []};
ghost use Rattle.nl_core.specs.Attribute.{attributes_text, attributes_fit};
ghost use Rattle.nl_core.specs.Reading.{Gives};
ghost use Rattle.rt_layout.specs.Value.{value_text};
ghost use Rattle.rt_stats.specs.AfSpec.{entry_text, entry_at, stats_at, kind, value, attribute_at, ReadsBack};
ghost use Rattle.rt_stats.specs.AfSpecLaws.{attribute-again, attribute-read};

use crate::stats::mpls::MplsLinkStats;
use nl_core::{
    DecodeError, DefaultNla, Emitable, Items, Nla, NlaBuffer, NoMemory, Parseable, TryClone,
    parse_attributes,
};
use rt_layout::{AttributeValue, Value};
use rt_other::Attribute;
use std::alloc::Global;

// The address family of MPLS, of include/linux/socket.h.
const AF_MPLS: u16 = 28;

// The counters of a link among the statistics of MPLS, of include/uapi/linux/mpls.h.
const MPLS_STATS_LINK: u16 = 1;

/// The statistics of a link in one address family.
#[derive(Debug, PartialEq, Eq, Drop)]
pub enum AfSpecStat {
    /// Of MPLS.
    Mpls(MplsLinkStats),
    /// Any other one.
    Other(DefaultNla),
}

/// The statistics of a link by address family.
#[derive(Debug, PartialEq, Eq, Drop)]
pub struct AfSpecStats(pub Items<AfSpecStat>);

// An entry of MPLS, whose value is one attribute.
#[derive(Drop)]
struct MplsEntry<'a>(&'a MplsLinkStats);

impl<'a> AttributeValue for MplsEntry<'a> {
    ghost written = { λ e. entry_text e.0.now };

    fn value_len(&self) -> usize {
        self.0.buffer_len()
    }

    fn emit_value(&self, buf: &mut [u8]) {
        self.0.emit(buf);
    }
}

// The counters of an entry of MPLS: those of its first attribute of their type, after which nothing
// is looked at; zeros where there is none.
fn parse_mpls(entry: &[u8]) -> Result<MplsLinkStats, DecodeError>
    ensures { result ≡ entry_at entry.now }
{
    let mut rest = entry;
    while rest.len() > 0 {
        let nla = NlaBuffer::new_checked(rest)?;
        if nla.kind() == MPLS_STATS_LINK {
            return MplsLinkStats::parse(nla.value());
        }
        rest = nla.after();
    }
    Ok(MplsLinkStats::default())
}

impl AfSpecStat {
    // The type, and the value as it is written.
    fn row(&self) -> (u16, Value<'_, MplsEntry<'_>>)
        ensures kind { result.0 ≡ kind self.now }
        ensures value { value_text (λ e. entry_text e.0.now) result.1 ≡ value self.now }
    {
        match self {
            Self::Mpls(stats) => (AF_MPLS, Value::Struct(MplsEntry(stats))),
            Self::Other(nla) => (nla.kind, Value::Bytes(nla.value.as_slice())),
        }
    }
}

impl Nla for AfSpecStat {
    ghost kind_as_written = { kind };

    ghost value_text = { value };

    fn value_len(&self) -> usize {
        self.row().1.len()
    }

    fn emit_value(&self, buf: &mut [u8]) {
        self.row().1.emit(buf);
    }

    fn kind(&self) -> u16 {
        self.row().0
    }
}

impl<'a> Parseable<NlaBuffer<'a>> for AfSpecStat {
    ghost reads = { attribute_at };

    fn parse(alloc: Global, buf: &NlaBuffer<'a>) -> Result<Self, DecodeError> {
        match buf.kind() {
            AF_MPLS => Ok(Self::Mpls(parse_mpls(buf.value())?)),
            _ => Ok(Self::Other(DefaultNla::parse(alloc, buf)?)),
        }
    }
}

impl<'a> Attribute<'a, ()> for AfSpecStat {
    ghost ReadsBack = { λ _ x. ReadsBack x };

    ghost reads_back = { attribute-again };

    ghost read_reads_back = { attribute-read };
}

impl TryClone for AfSpecStat {
    fn clone_with(&self) -> Result<Self, NoMemory> {
        match self {
            Self::Mpls(stats) => Ok(Self::Mpls(stats.clone()?)),
            Self::Other(nla) => Ok(Self::Other(nla.clone_with()?)),
        }
    }
}

impl AfSpecStats {
    /// No statistics.
    pub fn empty(alloc: Global) -> Self
        ensures { result.0 ≡ [] }
    {
        AfSpecStats(Items::new(alloc))
    }

    /// The statistics that bytes are, or the first fault from the left. An entry of MPLS has the
    /// counters of its first attribute of their type, or zeros.
    pub fn parse(alloc: Global, payload: &[u8]) -> Result<Self, DecodeError>
        ensures { Gives result (stats_at payload.now) }
    {
        Ok(AfSpecStats(parse_attributes(alloc, payload)?))
    }
}

impl Emitable for AfSpecStats {
    ghost text = { λ s. attributes_text kind value s.0 };

    ghost fitting = { λ s. attributes_fit kind value s.0 };

    fn fits(&self) -> bool {
        self.0.as_slice().fits()
    }

    fn buffer_len(&self) -> usize {
        self.0.as_slice().buffer_len()
    }

    fn emit(&self, buf: &mut [u8]) {
        self.0.as_slice().emit(buf);
    }
}

impl TryClone for AfSpecStats {
    fn clone_with(&self) -> Result<Self, NoMemory> {
        Ok(AfSpecStats(self.0.clone_with()?))
    }
}
