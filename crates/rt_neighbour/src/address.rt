//! Addresses of neighbours.
#![tactic(auto, using(nl_core::proofs::Wire::writes))]

ghost use Rattle.std.specs.Prelude.{◌≡◌, true, length};
ghost use Rattle.nl_core.specs.Reading.{Gives};
ghost use Rattle.rt_neighbour.specs.NeighbourAddress.{address_text, address_at, address_of};
ghost use Rattle.rt_neighbour.specs.declared.address.NeighbourAddress.TheVariants as address;

use nl_core::{DecodeError, Emitable, NoMemory, Octets, TryClone, emit_bytes};
use rt_layout::parse_array;
use rt_other::{AddressFamily, IpAddr, Ipv4Addr, Ipv6Addr};
use std::alloc::Global;

/// An address of the family of a neighbour.
#[derive(Debug, PartialEq, Eq, Drop)]
pub enum NeighbourAddress {
    Inet(Ipv4Addr),
    Inet6(Ipv6Addr),
    /// The bytes of an address of any other family.
    Other(Octets),
}

impl NeighbourAddress {
    /// The address of a family; `BadLength` where an IPv4 address is not 4 bytes, or an IPv6
    /// address not 16.
    pub fn parse(alloc: Global, family: AddressFamily, bytes: &[u8]) -> Result<Self, DecodeError>
        ensures { Gives result (address_at family bytes.now) }
    {
        match family {
            AddressFamily::Inet => Ok(Self::Inet(Ipv4Addr(parse_array(bytes)?))),
            AddressFamily::Inet6 => Ok(Self::Inet6(Ipv6Addr(parse_array(bytes)?))),
            _ => {
                let octets = Octets::from_vec(Vec::from_slice(alloc, bytes)?);
                Ok(Self::Other(octets))
            }
        }
    }

    /// The bytes of the address.
    pub fn octets(&self) -> &[u8]
        ensures { result.now ≡ address_text self.now }
    {
        match self {
            Self::Inet(address) => &address.0,
            Self::Inet6(address) => &address.0,
            Self::Other(bytes) => bytes.as_slice(),
        }
    }
}

impl Emitable for NeighbourAddress {
    ghost text = { address_text };

    ghost fitting = { λ _. true };

    fn fits(&self) -> bool {
        true
    }

    fn buffer_len(&self) -> usize {
        self.octets().len()
    }

    fn emit(&self, buf: &mut [u8]) {
        emit_bytes(buf, self.octets());
    }
}

impl From<Ipv4Addr> for NeighbourAddress {
    ghost from_gives = { λ a r. r ≡ address.Inet a };

    fn from(address: Ipv4Addr) -> Self {
        Self::Inet(address)
    }
}

impl From<Ipv6Addr> for NeighbourAddress {
    ghost from_gives = { λ a r. r ≡ address.Inet6 a };

    fn from(address: Ipv6Addr) -> Self {
        Self::Inet6(address)
    }
}

impl From<IpAddr> for NeighbourAddress {
    ghost from_gives = { λ a r. r ≡ address_of a };

    fn from(address: IpAddr) -> Self {
        match address {
            IpAddr::V4(v4) => Self::Inet(v4),
            IpAddr::V6(v6) => Self::Inet6(v6),
        }
    }
}

impl TryClone for NeighbourAddress {
    fn clone_with(&self) -> Result<Self, NoMemory> {
        match self {
            Self::Inet(address) => Ok(Self::Inet(Ipv4Addr(address.0))),
            Self::Inet6(address) => Ok(Self::Inet6(Ipv6Addr(address.0))),
            Self::Other(bytes) => Ok(Self::Other(bytes.clone_with()?)),
        }
    }
}
