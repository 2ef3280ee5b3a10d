//! The header of messages on prefixes.
#![tactic(auto, using(nl_core::proofs::Wire::writes, crate::proofs::Lengths::lengths))]

ghost use Rattle.std.specs.Prelude.{◌≡◌, true, refl};
ghost use Rattle.std.proofs.Common.{arith, rules};
ghost use Rattle.nl_core.specs.Reading.{sized};
ghost use Rattle.rt_wire.specs.Prefix.{header_text, header_at, default_header, HeaderReadsBack};
ghost use Rattle.rt_wire.specs.PrefixLaws.{length-header, header-again, header-read};

use nl_core::{DecodeError, Emitable, emit_bytes, i32_at};
use rt_layout::FixedBuffer;
use rt_other::{Fixed, Header};

const HEADER_LEN: usize = 12;

/// The header of a message on a prefix that a router announced, `struct prefixmsg` of
/// include/uapi/linux/rtnetlink.h.
#[derive(Clone, Debug, Default, PartialEq, Eq, Drop)]
pub struct PrefixHeader {
    /// The number of the address family.
    pub prefix_family: u8,
    /// The index of the link on which it was announced.
    pub ifindex: i32,
    /// The type of the option that announced it, 3 of RFC 4861.
    pub prefix_type: u8,
    /// The length of the prefix in bits.
    pub prefix_len: u8,
    /// The flags `IF_PREFIX_ONLINK` and `IF_PREFIX_AUTOCONF` of include/net/if_inet6.h.
    pub flags: u8,
}

/// The bytes of a header of a message on a prefix.
pub type PrefixMessageBuffer = FixedBuffer<PrefixHeader, 12>;

impl From<&PrefixHeader> for PrefixMessageBuffer {
    ghost from_gives = { λ h b. b ≡ header_text h.now };

    #[tactic(auto, unfolding(crate::specs::Prefix::header_text, nl_core::specs::Numbers::le_i32))]
    fn from(header: &PrefixHeader) -> Self {
        let ifindex = header.ifindex.to_le_bytes();
        FixedBuffer::from_bytes([
            header.prefix_family,
            0,
            0,
            0,
            ifindex[0],
            ifindex[1],
            ifindex[2],
            ifindex[3],
            header.prefix_type,
            header.prefix_len,
            header.flags,
            0,
        ])
    }
}

impl PrefixHeader {
    /// The header at the front of a payload; `TooSmall` where it has fewer than 12 bytes.
    pub fn parse(payload: &[u8]) -> Result<Self, DecodeError>
        ensures { result ≡ sized 12 payload.now (header_at payload.now) }
    {
        <PrefixHeader as Fixed>::parse(payload)
    }
}

impl Emitable for PrefixHeader {
    ghost text = { header_text };

    ghost fitting = { λ _. true };

    fn fits(&self) -> bool {
        true
    }

    fn buffer_len(&self) -> usize {
        HEADER_LEN
    }

    fn emit(&self, buf: &mut [u8]) {
        emit_bytes(buf, &PrefixMessageBuffer::from(self).to_bytes());
    }
}

impl Fixed for PrefixHeader {
    ghost LEN = { 12 };

    ghost read = { header_at };

    ghost ReadsBack = { HeaderReadsBack };

    ghost is_short = { omega arith };

    ghost always_fits = { λ h. refl };

    ghost text_length = { length-header };

    ghost reads_back = { header-again };

    ghost read_reads_back = { header-read };

    const LEN: usize = HEADER_LEN;

    fn at_front(bytes: &[u8]) -> Self {
        PrefixHeader {
            prefix_family: bytes[0],
            ifindex: i32_at(bytes, 4),
            prefix_type: bytes[8],
            prefix_len: bytes[9],
            flags: bytes[10],
        }
    }
}

impl Header for PrefixHeader {
    type Param = ();

    ghost zeros = { default_header };

    ghost by = { λ _. tt };

    ghost default_is_zeros = { λ h is. Prim.search (rules, is) };

    ghost clone_is_same = { λ h g is. Prim.search (rules, is) };

    fn param(&self) {}
}
