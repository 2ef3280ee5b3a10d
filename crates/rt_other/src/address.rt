//! Messages on addresses of links.
#![tactic(auto, using(nl_core::proofs::Wire::writes, crate::proofs::Headers::headers))]

ghost use Rattle.std.specs.Prelude.{◌≡◌, true, refl};
ghost use Rattle.std.proofs.Common.{arith, rules};
ghost use Rattle.nl_core.specs.Reading.{sized};
ghost use Rattle.rt_other.specs.Address.{header_text, header_at, default_header, HeaderReadsBack};
ghost use Rattle.rt_other.specs.AddressLaws.{length-header, header-again, header-read};

use crate::address_family::AddressFamily;
use crate::message::{Fixed, Header, Message};
use nl_core::{DecodeError, DefaultNla, Emitable, emit_bytes, u32_at};

const HEADER_LEN: usize = 8;

/// The header of a message on an address of a link, `struct ifaddrmsg` of
/// include/uapi/linux/if_addr.h.
#[derive(Clone, Debug, Default, PartialEq, Eq, Drop)]
pub struct AddressHeader {
    /// The address family.
    pub family: AddressFamily,
    /// The length of the prefix in bits.
    pub prefix_len: u8,
    /// The `IFA_F_` flags.
    pub flags: u8,
    /// How far the address is valid, an `RT_SCOPE_` number.
    pub scope: u8,
    /// The index of the link.
    pub index: u32,
}

impl AddressHeader {
    /// The header at the front of a payload; `TooSmall` where it has fewer than 8 bytes.
    pub fn parse(payload: &[u8]) -> Result<Self, DecodeError>
        ensures { result ≡ sized 8 payload.now (header_at payload.now) }
    {
        <AddressHeader as Fixed>::parse(payload)
    }

    // The bytes of the header.
    #[tactic(auto, unfolding(crate::specs::Address::header_text, nl_core::specs::Numbers::le32))]
    fn to_bytes(&self) -> [u8; HEADER_LEN]
        ensures { result ≡ header_text self.now }
    {
        let index = self.index.to_le_bytes();
        [
            self.family.into(),
            self.prefix_len,
            self.flags,
            self.scope,
            index[0],
            index[1],
            index[2],
            index[3],
        ]
    }
}

impl Emitable for AddressHeader {
    ghost text = { header_text };

    ghost fitting = { λ _. true };

    fn fits(&self) -> bool {
        true
    }

    fn buffer_len(&self) -> usize {
        HEADER_LEN
    }

    fn emit(&self, buf: &mut [u8]) {
        emit_bytes(buf, &self.to_bytes());
    }
}

impl Fixed for AddressHeader {
    ghost LEN = { 8 };

    ghost read = { header_at };

    ghost ReadsBack = { HeaderReadsBack };

    ghost is_short = { omega arith };

    ghost always_fits = { λ h. refl };

    ghost text_length = { length-header };

    ghost reads_back = { header-again };

    ghost read_reads_back = { header-read };

    const LEN: usize = HEADER_LEN;

    fn at_front(bytes: &[u8]) -> Self {
        AddressHeader {
            family: bytes[0].into(),
            prefix_len: bytes[1],
            flags: bytes[2],
            scope: bytes[3],
            index: u32_at(bytes, 4),
        }
    }
}

impl Header for AddressHeader {
    type Param = ();

    ghost zeros = { default_header };

    ghost by = { λ _. tt };

    ghost default_is_zeros = { λ h is. Prim.search (rules, is) };

    ghost clone_is_same = { λ h g is. Prim.search (rules, is) };

    fn param(&self) {}
}

/// A message on an address of a link.
pub type AddressMessage = Message<AddressHeader, DefaultNla>;
