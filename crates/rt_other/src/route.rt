//! Messages on routes.
#![tactic(auto, using(nl_core::proofs::Wire::writes, crate::proofs::Headers::headers))]

ghost use Rattle.std.specs.Prelude.{◌≡◌, true, refl};
ghost use Rattle.std.proofs.Common.{arith, rules};
ghost use Rattle.nl_core.specs.Reading.{sized};
ghost use Rattle.rt_other.specs.Route.{protocol_at, header_text, header_at, default_header, HeaderReadsBack};
ghost use Rattle.rt_other.specs.RouteLaws.{length-header, header-again, header-read};

use crate::address_family::AddressFamily;
use crate::message::{Fixed, Header, Message};
use crate::route_attribute::RouteAttribute;
use nl_core::{DecodeError, Emitable, emit_bytes, parse_u8, u32_at};

const HEADER_LEN: usize = 12;

/// Who made a route, an `RTPROT_` number of include/uapi/linux/rtnetlink.h.
#[derive(Clone, Debug, Default, PartialEq, Eq, Drop)]
pub struct RouteProtocol(pub u8);

impl RouteProtocol {
    /// The protocol that bytes are; `BadLength` unless they are one byte.
    pub fn parse(bytes: &[u8]) -> Result<Self, DecodeError>
        ensures { result ≡ protocol_at bytes.now }
    {
        Ok(RouteProtocol(parse_u8(bytes)?))
    }
}

impl From<u8> for RouteProtocol {
    ghost from_gives = { λ n p. p.0 ≡ n };

    fn from(number: u8) -> Self {
        RouteProtocol(number)
    }
}

impl From<RouteProtocol> for u8 {
    ghost from_gives = { λ p n. n ≡ p.0 };

    fn from(protocol: RouteProtocol) -> u8 {
        protocol.0
    }
}

/// What happens to what takes a route, an `RTN_` number of include/uapi/linux/rtnetlink.h.
#[derive(Clone, Debug, Default, PartialEq, Eq, Drop)]
pub struct RouteType(pub u8);

impl From<u8> for RouteType {
    ghost from_gives = { λ n t. t.0 ≡ n };

    fn from(number: u8) -> Self {
        RouteType(number)
    }
}

impl From<RouteType> for u8 {
    ghost from_gives = { λ t n. n ≡ t.0 };

    fn from(kind: RouteType) -> u8 {
        kind.0
    }
}

/// The header of a message on a route, `struct rtmsg` of include/uapi/linux/rtnetlink.h.
#[derive(Clone, Debug, Default, PartialEq, Eq, Drop)]
pub struct RouteHeader {
    /// The address family, which is that of the addresses in the attributes.
    pub address_family: AddressFamily,
    /// The length of the destination prefix in bits.
    pub destination_prefix_length: u8,
    /// The length of the source prefix in bits.
    pub source_prefix_length: u8,
    /// The type of service.
    pub tos: u8,
    /// The routing table, where its number is below 256.
    pub table: u8,
    /// Who made the route.
    pub protocol: RouteProtocol,
    /// How far the destination is, an `RT_SCOPE_` number.
    pub scope: u8,
    /// What happens to what takes the route.
    pub kind: RouteType,
    /// The `RTM_F_` and `RTNH_F_` flags.
    pub flags: u32,
}

impl RouteHeader {
    /// The header at the front of a payload; `TooSmall` where it has fewer than 12 bytes.
    pub fn parse(payload: &[u8]) -> Result<Self, DecodeError>
        ensures { result ≡ sized 12 payload.now (header_at payload.now) }
    {
        <RouteHeader as Fixed>::parse(payload)
    }

    // The bytes of the header.
    #[tactic(auto, unfolding(crate::specs::Route::header_text, nl_core::specs::Numbers::le32))]
    fn to_bytes(&self) -> [u8; HEADER_LEN]
        ensures { result ≡ header_text self.now }
    {
        let flags = self.flags.to_le_bytes();
        [
            self.address_family.into(),
            self.destination_prefix_length,
            self.source_prefix_length,
            self.tos,
            self.table,
            self.protocol.0,
            self.scope,
            self.kind.0,
            flags[0],
            flags[1],
            flags[2],
            flags[3],
        ]
    }
}

impl Emitable for RouteHeader {
    ghost text = { header_text };

    ghost fitting = { λ _. true };

    fn fits(&self) -> bool {
        true
    }

    fn buffer_len(&self) -> usize {
        HEADER_LEN
    }

    fn emit(&self, buf: &mut [u8]) {
        emit_bytes(buf, &self.to_bytes());
    }
}

impl Fixed for RouteHeader {
    ghost LEN = { 12 };

    ghost read = { header_at };

    ghost ReadsBack = { HeaderReadsBack };

    ghost is_short = { omega arith };

    ghost always_fits = { λ h. refl };

    ghost text_length = { length-header };

    ghost reads_back = { header-again };

    ghost read_reads_back = { header-read };

    const LEN: usize = HEADER_LEN;

    fn at_front(bytes: &[u8]) -> Self {
        RouteHeader {
            address_family: bytes[0].into(),
            destination_prefix_length: bytes[1],
            source_prefix_length: bytes[2],
            tos: bytes[3],
            table: bytes[4],
            protocol: RouteProtocol(bytes[5]),
            scope: bytes[6],
            kind: RouteType(bytes[7]),
            flags: u32_at(bytes, 8),
        }
    }
}

impl Header for RouteHeader {
    type Param = AddressFamily;

    ghost zeros = { default_header };

    ghost by = { λ h. h.address_family };

    ghost default_is_zeros = { λ h is. Prim.search (rules, is) };

    ghost clone_is_same = { λ h g is. Prim.search (rules, is) };

    fn param(&self) -> AddressFamily {
        self.address_family
    }
}

/// A message on a route.
pub type RouteMessage = Message<RouteHeader, RouteAttribute>;
