//! Attributes of address labels, of include/uapi/linux/if_addrlabel.h.
#![tactic(auto, using(nl_core::proofs::Wire::writes))]

ghost use Rattle.std.specs.Prelude.{◌≡◌, []};
ghost use Rattle.rt_layout.specs.Value.{value_text};
ghost use Rattle.rt_wire.specs.AddrLabelAttribute.{address_text, address_at, kind, value, attribute_at, ReadsBack};
ghost use Rattle.rt_wire.specs.AddrLabelAttributeLaws.{attribute-again, attribute-read};

use nl_core::{DecodeError, DefaultNla, Nla, NlaBuffer, NoMemory, Parseable, TryClone, parse_u32};
use rt_layout::{NoStruct, Value, parse_array};
use rt_other::{Attribute, IpAddr, Ipv4Addr, Ipv6Addr};
use std::alloc::Global;

const IFAL_ADDRESS: u16 = 1;

const IFAL_LABEL: u16 = 2;

const IPV4_LEN: usize = 4;

/// An attribute of an address label.
#[derive(Debug, PartialEq, Eq, Drop)]
pub enum AddrLabelAttribute {
    /// The prefix of the label.
    Address(IpAddr),
    /// The label.
    Label(u32),
    /// Any other one.
    Other(DefaultNla),
}

impl AddrLabelAttribute {
    // The type, and the value as it is written.
    fn row(&self) -> (u16, Value<'_, NoStruct>)
        ensures kind { result.0 ≡ kind self.now }
        ensures value { value_text (λ _. []) result.1 ≡ value self.now }
    {
        match self {
            Self::Address(address) => (IFAL_ADDRESS, Value::Bytes(octets(address))),
            Self::Label(label) => (IFAL_LABEL, Value::U32(*label)),
            Self::Other(nla) => (nla.kind, Value::Bytes(nla.value.as_slice())),
        }
    }
}

// The bytes of an address.
fn octets(address: &IpAddr) -> &[u8]
    ensures { result.now ≡ address_text address.now }
{
    match address {
        IpAddr::V4(v4) => &v4.0,
        IpAddr::V6(v6) => &v6.0,
    }
}

// The address that 4 or 16 bytes are; else `BadLength`.
fn parse_address(bytes: &[u8]) -> Result<IpAddr, DecodeError>
    ensures { result ≡ address_at bytes.now }
{
    if bytes.len() == IPV4_LEN {
        return Ok(IpAddr::V4(Ipv4Addr(parse_array(bytes)?)));
    }
    Ok(IpAddr::V6(Ipv6Addr(parse_array(bytes)?)))
}

// The same address.
fn copied(address: &IpAddr) -> IpAddr
    ensures { result ≡ address.now }
{
    match address {
        IpAddr::V4(v4) => IpAddr::V4(Ipv4Addr(v4.0)),
        IpAddr::V6(v6) => IpAddr::V6(Ipv6Addr(v6.0)),
    }
}

impl Nla for AddrLabelAttribute {
    ghost kind_as_written = { kind };

    ghost value_text = { value };

    fn value_len(&self) -> usize {
        self.row().1.len()
    }

    fn emit_value(&self, buf: &mut [u8]) {
        self.row().1.emit(buf);
    }

    fn kind(&self) -> u16 {
        self.row().0
    }
}

impl<'a> Parseable<NlaBuffer<'a>> for AddrLabelAttribute {
    ghost reads = { attribute_at };

    fn parse(alloc: Global, buf: &NlaBuffer<'a>) -> Result<Self, DecodeError> {
        let value = buf.value();
        match buf.kind() {
            IFAL_ADDRESS => Ok(Self::Address(parse_address(value)?)),
            IFAL_LABEL => Ok(Self::Label(parse_u32(value)?)),
            _ => Ok(Self::Other(DefaultNla::parse(alloc, buf)?)),
        }
    }
}

impl<'a> Attribute<'a, ()> for AddrLabelAttribute {
    ghost ReadsBack = { λ _ x. ReadsBack x };

    ghost reads_back = { attribute-again };

    ghost read_reads_back = { attribute-read };
}

impl TryClone for AddrLabelAttribute {
    fn clone_with(&self) -> Result<Self, NoMemory> {
        match self {
            Self::Address(address) => Ok(Self::Address(copied(address))),
            Self::Label(label) => Ok(Self::Label(*label)),
            Self::Other(nla) => Ok(Self::Other(nla.clone_with()?)),
        }
    }
}
