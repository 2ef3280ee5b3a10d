//! Attributes of routes, `enum rtattr_type_t` of include/uapi/linux/rtnetlink.h.
#![tactic(auto, using(nl_core::proofs::Wire::writes))]

ghost use Rattle.std.specs.Prelude.{◌≡◌, true, length};
ghost use Rattle.nl_core.specs.Reading.{Gives};
ghost use Rattle.rt_other.specs.RouteAttribute.{address_text, address_at, kind, value, attribute_at, ReadsBack};
ghost use Rattle.rt_other.specs.RouteAttributeLaws.{attribute-again, attribute-read};

use crate::address_family::AddressFamily;
use crate::ip::{Ipv4Addr, Ipv6Addr};
use crate::message::Attribute;
use nl_core::{
    DecodeError, DefaultNla, Emitable, Nla, NlaBuffer, NoMemory, Octets, Parseable,
    ParseableParametrized, TryClone, emit_bytes, emit_u32, parse_u32,
};
use std::alloc::Global;

const RTA_DST: u16 = 1;

const RTA_OIF: u16 = 4;

const RTA_GATEWAY: u16 = 5;

const RTA_PRIORITY: u16 = 6;

const RTA_TABLE: u16 = 15;

/// An address of the family of a route.
#[derive(Debug, PartialEq, Eq, Drop)]
pub enum RouteAddress {
    Inet(Ipv4Addr),
    Inet6(Ipv6Addr),
    /// The bytes of an address of any other family.
    Other(Octets),
}

impl RouteAddress {
    /// The address of a family; `BadLength` where an IPv4 address is not 4 bytes, or an IPv6
    /// address not 16.
    pub fn parse(alloc: Global, family: AddressFamily, bytes: &[u8]) -> Result<Self, DecodeError>
        ensures { Gives result (address_at family bytes.now) }
    {
        match family {
            AddressFamily::Inet => {
                if bytes.len() != 4 {
                    return Err(DecodeError::BadLength);
                }
                let mut octets = [0; 4];
                octets.copy_from_slice(bytes);
                Ok(RouteAddress::Inet(Ipv4Addr(octets)))
            }
            AddressFamily::Inet6 => {
                if bytes.len() != 16 {
                    return Err(DecodeError::BadLength);
                }
                let mut octets = [0; 16];
                octets.copy_from_slice(bytes);
                Ok(RouteAddress::Inet6(Ipv6Addr(octets)))
            }
            _ => {
                let octets = Octets::from_vec(Vec::from_slice(alloc, bytes)?);
                Ok(RouteAddress::Other(octets))
            }
        }
    }

    /// The bytes of the address.
    pub fn octets(&self) -> &[u8]
        ensures { result.now ≡ address_text self.now }
    {
        match self {
            RouteAddress::Inet(address) => &address.0,
            RouteAddress::Inet6(address) => &address.0,
            RouteAddress::Other(bytes) => bytes.as_slice(),
        }
    }
}

impl Emitable for RouteAddress {
    ghost text = { address_text };

    ghost fitting = { λ _. true };

    fn fits(&self) -> bool {
        true
    }

    fn buffer_len(&self) -> usize {
        self.octets().len()
    }

    fn emit(&self, buf: &mut [u8]) {
        emit_bytes(buf, self.octets());
    }
}

/// An attribute of a route.
#[derive(Debug, PartialEq, Eq, Drop)]
pub enum RouteAttribute {
    /// Where the route leads.
    Destination(RouteAddress),
    /// The index of the link that it leaves by.
    Oif(u32),
    /// The next hop.
    Gateway(RouteAddress),
    /// The metric; the least goes first.
    Priority(u32),
    /// The routing table, also where it is above 255.
    Table(u32),
    /// Any other one.
    Other(DefaultNla),
}

impl Nla for RouteAttribute {
    ghost kind_as_written = { kind };

    ghost value_text = { value };

    fn value_len(&self) -> usize {
        match self {
            RouteAttribute::Destination(address) | RouteAttribute::Gateway(address) => {
                address.buffer_len()
            }
            RouteAttribute::Oif(_) | RouteAttribute::Priority(_) | RouteAttribute::Table(_) => 4,
            RouteAttribute::Other(nla) => nla.value_len(),
        }
    }

    fn emit_value(&self, buf: &mut [u8]) {
        match self {
            RouteAttribute::Destination(address) | RouteAttribute::Gateway(address) => {
                address.emit(buf);
            }
            RouteAttribute::Oif(number)
            | RouteAttribute::Priority(number)
            | RouteAttribute::Table(number) => emit_u32(buf, *number),
            RouteAttribute::Other(nla) => nla.emit_value(buf),
        }
    }

    fn kind(&self) -> u16 {
        match self {
            RouteAttribute::Destination(_) => RTA_DST,
            RouteAttribute::Oif(_) => RTA_OIF,
            RouteAttribute::Gateway(_) => RTA_GATEWAY,
            RouteAttribute::Priority(_) => RTA_PRIORITY,
            RouteAttribute::Table(_) => RTA_TABLE,
            RouteAttribute::Other(nla) => nla.kind(),
        }
    }
}

impl<'a> ParseableParametrized<NlaBuffer<'a>, AddressFamily> for RouteAttribute {
    ghost reads = { attribute_at };

    fn parse_with_param(
        alloc: Global,
        buf: &NlaBuffer<'a>,
        family: AddressFamily,
    ) -> Result<Self, DecodeError> {
        let value = buf.value();
        match buf.kind() {
            RTA_DST => Ok(RouteAttribute::Destination(RouteAddress::parse(alloc, family, value)?)),
            RTA_OIF => Ok(RouteAttribute::Oif(parse_u32(value)?)),
            RTA_GATEWAY => Ok(RouteAttribute::Gateway(RouteAddress::parse(alloc, family, value)?)),
            RTA_PRIORITY => Ok(RouteAttribute::Priority(parse_u32(value)?)),
            RTA_TABLE => Ok(RouteAttribute::Table(parse_u32(value)?)),
            _ => Ok(RouteAttribute::Other(DefaultNla::parse(alloc, buf)?)),
        }
    }
}

impl<'a> Attribute<'a, AddressFamily> for RouteAttribute {
    ghost ReadsBack = { ReadsBack };

    ghost reads_back = { attribute-again };

    ghost read_reads_back = { attribute-read };
}

impl TryClone for RouteAddress {
    fn clone_with(&self) -> Result<Self, NoMemory> {
        match self {
            RouteAddress::Inet(address) => Ok(RouteAddress::Inet(Ipv4Addr(address.0))),
            RouteAddress::Inet6(address) => Ok(RouteAddress::Inet6(Ipv6Addr(address.0))),
            RouteAddress::Other(bytes) => Ok(RouteAddress::Other(bytes.clone_with()?)),
        }
    }
}

impl TryClone for RouteAttribute {
    fn clone_with(&self) -> Result<Self, NoMemory> {
        match self {
            RouteAttribute::Destination(address) => {
                Ok(RouteAttribute::Destination(address.clone_with()?))
            }
            RouteAttribute::Oif(number) => Ok(RouteAttribute::Oif(*number)),
            RouteAttribute::Gateway(address) => Ok(RouteAttribute::Gateway(address.clone_with()?)),
            RouteAttribute::Priority(number) => Ok(RouteAttribute::Priority(*number)),
            RouteAttribute::Table(number) => Ok(RouteAttribute::Table(*number)),
            RouteAttribute::Other(nla) => Ok(RouteAttribute::Other(nla.clone_with()?)),
        }
    }
}
