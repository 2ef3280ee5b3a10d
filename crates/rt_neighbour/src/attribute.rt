//! Attributes of neighbours, of include/uapi/linux/neighbour.h.
#![tactic(auto, using(nl_core::proofs::Wire::writes))]

ghost use Rattle.std.specs.Prelude.{◌≡◌};
ghost use Rattle.nl_core.specs.Attribute.{attributes};
ghost use Rattle.nl_core.specs.Reading.{Gives};
ghost use Rattle.rt_layout.specs.Value.{value_text};
ghost use Rattle.rt_neighbour.specs.CacheInfo.{cache_info_text};
ghost use Rattle.rt_neighbour.specs.NeighbourAttribute.{kind, value, attribute_at, ReadsBack};
ghost use Rattle.rt_neighbour.specs.NeighbourAttributeLaws.{attribute-again, attribute-read};

use crate::address::NeighbourAddress;
use crate::cache_info::NeighbourCacheInfo;
use crate::flags::NeighbourExtFlags;
use nl_core::{
    DecodeError, DefaultNla, Items, Nla, NlaBuffer, NoMemory, Octets, Parseable,
    ParseableParametrized, TryClone, parse_attributes_with, parse_u16, parse_u16_be, parse_u32,
};
use rt_layout::Value;
use rt_other::{AddressFamily, Attribute, RouteProtocol};
use std::alloc::Global;

const NDA_DST: u16 = 1;

const NDA_LLADDR: u16 = 2;

const NDA_CACHEINFO: u16 = 3;

const NDA_PROBES: u16 = 4;

const NDA_VLAN: u16 = 5;

const NDA_PORT: u16 = 6;

const NDA_VNI: u16 = 7;

const NDA_IFINDEX: u16 = 8;

const NDA_CONTROLLER: u16 = 9;

const NDA_LINK_NETNSID: u16 = 10;

const NDA_SRC_VNI: u16 = 11;

const NDA_PROTOCOL: u16 = 12;

const NDA_FLAGS_EXT: u16 = 15;

/// An attribute of a neighbour.
#[derive(Debug, PartialEq, Eq, Drop)]
pub enum NeighbourAttribute {
    /// Where the neighbour is.
    Destination(NeighbourAddress),
    /// Its address on the link.
    LinkLayerAddress(Octets),
    /// When it was used.
    CacheInfo(NeighbourCacheInfo),
    /// How often it was asked.
    Probes(u32),
    /// Its VLAN.
    Vlan(u16),
    /// The port of its VXLAN; its highest byte goes first.
    Port(u16),
    /// The network of its VXLAN.
    Vni(u32),
    /// The link by which its VXLAN is left.
    IfIndex(u32),
    /// The link that controls its link.
    Controller(u32),
    /// The network namespace of its link.
    LinkNetNsId(u32),
    /// The network of a VXLAN from which it is sent to.
    SourceVni(u32),
    /// Who made it.
    Protocol(RouteProtocol),
    /// Further flags.
    ExtFlags(NeighbourExtFlags),
    /// Any other one.
    Other(DefaultNla),
}

impl NeighbourAttribute {
    /// The attributes of bytes under a family; the first fault from the left decides.
    pub fn parse_list(
        alloc: Global,
        bytes: &[u8],
        family: AddressFamily,
    ) -> Result<Items<NeighbourAttribute>, DecodeError>
        ensures { Gives result (attributes (attribute_at family) bytes.now) }
    {
        parse_attributes_with(alloc, bytes, family)
    }

    // The type, and the value as it is written.
    fn row(&self) -> (u16, Value<'_, NeighbourCacheInfo>)
        ensures kind { result.0 ≡ kind self.now }
        ensures value { value_text cache_info_text result.1 ≡ value self.now }
    {
        match self {
            Self::Destination(address) => (NDA_DST, Value::Bytes(address.octets())),
            Self::LinkLayerAddress(bytes) => (NDA_LLADDR, Value::Bytes(bytes.as_slice())),
            Self::CacheInfo(info) => (NDA_CACHEINFO, Value::Struct(*info)),
            Self::Probes(count) => (NDA_PROBES, Value::U32(*count)),
            Self::Vlan(vlan) => (NDA_VLAN, Value::U16(*vlan)),
            Self::Port(port) => (NDA_PORT, Value::U16Be(*port)),
            Self::Vni(vni) => (NDA_VNI, Value::U32(*vni)),
            Self::IfIndex(index) => (NDA_IFINDEX, Value::U32(*index)),
            Self::Controller(index) => (NDA_CONTROLLER, Value::U32(*index)),
            Self::LinkNetNsId(nsid) => (NDA_LINK_NETNSID, Value::U32(*nsid)),
            Self::SourceVni(vni) => (NDA_SRC_VNI, Value::U32(*vni)),
            Self::Protocol(protocol) => (NDA_PROTOCOL, Value::U8(protocol.0)),
            Self::ExtFlags(flags) => (NDA_FLAGS_EXT, Value::U32(flags.bits())),
            Self::Other(nla) => (nla.kind, Value::Bytes(nla.value.as_slice())),
        }
    }
}

impl Nla for NeighbourAttribute {
    ghost kind_as_written = { kind };

    ghost value_text = { value };

    fn value_len(&self) -> usize {
        self.row().1.len()
    }

    fn emit_value(&self, buf: &mut [u8]) {
        self.row().1.emit(buf);
    }

    fn kind(&self) -> u16 {
        self.row().0
    }
}

impl<'a> ParseableParametrized<NlaBuffer<'a>, AddressFamily> for NeighbourAttribute {
    ghost reads = { attribute_at };

    fn parse_with_param(
        alloc: Global,
        buf: &NlaBuffer<'a>,
        family: AddressFamily,
    ) -> Result<Self, DecodeError> {
        let value = buf.value();
        match buf.kind() {
            NDA_DST => Ok(Self::Destination(NeighbourAddress::parse(alloc, family, value)?)),
            NDA_LLADDR => Ok(Self::LinkLayerAddress(Octets::from_vec(Vec::from_slice(
                alloc, value,
            )?))),
            NDA_CACHEINFO => Ok(Self::CacheInfo(NeighbourCacheInfo::parse(value)?)),
            NDA_PROBES => Ok(Self::Probes(parse_u32(value)?)),
            NDA_VLAN => Ok(Self::Vlan(parse_u16(value)?)),
            NDA_PORT => Ok(Self::Port(parse_u16_be(value)?)),
            NDA_VNI => Ok(Self::Vni(parse_u32(value)?)),
            NDA_IFINDEX => Ok(Self::IfIndex(parse_u32(value)?)),
            NDA_CONTROLLER => Ok(Self::Controller(parse_u32(value)?)),
            NDA_LINK_NETNSID => Ok(Self::LinkNetNsId(parse_u32(value)?)),
            NDA_SRC_VNI => Ok(Self::SourceVni(parse_u32(value)?)),
            NDA_PROTOCOL => Ok(Self::Protocol(RouteProtocol::parse(value)?)),
            NDA_FLAGS_EXT => {
                let bits = parse_u32(value)?;
                Ok(Self::ExtFlags(NeighbourExtFlags::from_bits_retain(bits)))
            }
            _ => Ok(Self::Other(DefaultNla::parse(alloc, buf)?)),
        }
    }
}

impl<'a> Attribute<'a, AddressFamily> for NeighbourAttribute {
    ghost ReadsBack = { ReadsBack };

    ghost reads_back = { attribute-again };

    ghost read_reads_back = { attribute-read };
}

impl TryClone for NeighbourAttribute {
    fn clone_with(&self) -> Result<Self, NoMemory> {
        match self {
            Self::Destination(address) => Ok(Self::Destination(address.clone_with()?)),
            Self::LinkLayerAddress(bytes) => Ok(Self::LinkLayerAddress(bytes.clone_with()?)),
            Self::CacheInfo(info) => Ok(Self::CacheInfo(*info)),
            Self::Probes(count) => Ok(Self::Probes(*count)),
            Self::Vlan(vlan) => Ok(Self::Vlan(*vlan)),
            Self::Port(port) => Ok(Self::Port(*port)),
            Self::Vni(vni) => Ok(Self::Vni(*vni)),
            Self::IfIndex(index) => Ok(Self::IfIndex(*index)),
            Self::Controller(index) => Ok(Self::Controller(*index)),
            Self::LinkNetNsId(nsid) => Ok(Self::LinkNetNsId(*nsid)),
            Self::SourceVni(vni) => Ok(Self::SourceVni(*vni)),
            Self::Protocol(protocol) => Ok(Self::Protocol(RouteProtocol(protocol.0))),
            Self::ExtFlags(flags) => Ok(Self::ExtFlags(*flags)),
            Self::Other(nla) => Ok(Self::Other(nla.clone_with()?)),
        }
    }
}
