//! Messages on links.
#![tactic(auto, using(nl_core::proofs::Wire::writes, crate::proofs::Headers::headers))]

ghost use Rattle.std.specs.Prelude.{◌≡◌, true, refl};
ghost use Rattle.std.proofs.Common.{arith, rules};
ghost use Rattle.nl_core.specs.Reading.{sized};
ghost use Rattle.rt_other.specs.Link.{header_text, header_at, default_header, HeaderReadsBack};
ghost use Rattle.rt_other.specs.LinkLaws.{length-header, header-again, header-read};

use crate::address_family::AddressFamily;
use crate::message::{Fixed, Header, Message};
use nl_core::{DecodeError, DefaultNla, Emitable, emit_bytes, u16_at, u32_at};

const HEADER_LEN: usize = 16;

/// The flag of a link that is up, of include/uapi/linux/if.h.
pub const IFF_UP: u32 = 1;

/// The header of a message on a link, `struct ifinfomsg` of include/uapi/linux/rtnetlink.h.
#[derive(Clone, Debug, Default, PartialEq, Eq, Drop)]
pub struct LinkHeader {
    /// The address family.
    pub interface_family: AddressFamily,
    /// The type of the link layer, an `ARPHRD_` number.
    pub link_layer_type: u16,
    /// The index of the link.
    pub index: u32,
    /// The `IFF_` flags; `IFF_UP` says that the link is up.
    pub flags: u32,
    /// Which flags are to change.
    pub change_mask: u32,
}

impl LinkHeader {
    /// The header at the front of a payload; `TooSmall` where it has fewer than 16 bytes.
    pub fn parse(payload: &[u8]) -> Result<Self, DecodeError>
        ensures { result ≡ sized 16 payload.now (header_at payload.now) }
    {
        <LinkHeader as Fixed>::parse(payload)
    }

    // The bytes of the header.
    #[tactic(auto, unfolding(crate::specs::Link::header_text, nl_core::specs::Numbers::le16, nl_core::specs::Numbers::le32))]
    fn to_bytes(&self) -> [u8; HEADER_LEN]
        ensures { result ≡ header_text self.now }
    {
        let link_layer_type = self.link_layer_type.to_le_bytes();
        let index = self.index.to_le_bytes();
        let flags = self.flags.to_le_bytes();
        let change_mask = self.change_mask.to_le_bytes();
        [
            self.interface_family.into(),
            0,
            link_layer_type[0],
            link_layer_type[1],
            index[0],
            index[1],
            index[2],
            index[3],
            flags[0],
            flags[1],
            flags[2],
            flags[3],
            change_mask[0],
            change_mask[1],
            change_mask[2],
            change_mask[3],
        ]
    }
}

impl Emitable for LinkHeader {
    ghost text = { header_text };

    ghost fitting = { λ _. true };

    fn fits(&self) -> bool {
        true
    }

    fn buffer_len(&self) -> usize {
        HEADER_LEN
    }

    fn emit(&self, buf: &mut [u8]) {
        emit_bytes(buf, &self.to_bytes());
    }
}

impl Fixed for LinkHeader {
    ghost LEN = { 16 };

    ghost read = { header_at };

    ghost ReadsBack = { HeaderReadsBack };

    ghost is_short = { omega arith };

    ghost always_fits = { λ h. refl };

    ghost text_length = { length-header };

    ghost reads_back = { header-again };

    ghost read_reads_back = { header-read };

    const LEN: usize = HEADER_LEN;

    fn at_front(bytes: &[u8]) -> Self {
        LinkHeader {
            interface_family: bytes[0].into(),
            link_layer_type: u16_at(bytes, 2),
            index: u32_at(bytes, 4),
            flags: u32_at(bytes, 8),
            change_mask: u32_at(bytes, 12),
        }
    }
}

impl Header for LinkHeader {
    type Param = ();

    ghost zeros = { default_header };

    ghost by = { λ _. tt };

    ghost default_is_zeros = { λ h is. Prim.search (rules, is) };

    ghost clone_is_same = { λ h g is. Prim.search (rules, is) };

    fn param(&self) {}
}

/// A message on a link.
pub type LinkMessage = Message<LinkHeader, DefaultNla>;
