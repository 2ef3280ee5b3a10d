//! The header of messages on address labels.
#![tactic(auto, using(nl_core::proofs::Wire::writes, crate::proofs::Lengths::lengths))]

ghost use Rattle.std.specs.Prelude.{◌≡◌, true, refl};
ghost use Rattle.std.proofs.Common.{arith, rules};
ghost use Rattle.nl_core.specs.Reading.{sized};
ghost use Rattle.rt_wire.specs.AddrLabel.{header_text, header_at, default_header, HeaderReadsBack};
ghost use Rattle.rt_wire.specs.AddrLabelLaws.{length-header, header-again, header-read};

use nl_core::{DecodeError, Emitable, emit_bytes, u32_at};
use rt_layout::FixedBuffer;
use rt_other::{AddressFamily, Fixed, Header};

const HEADER_LEN: usize = 12;

/// The header of a message on an address label, `struct ifaddrlblmsg` of
/// include/uapi/linux/if_addrlabel.h.
#[derive(Clone, Debug, Default, PartialEq, Eq, Drop)]
pub struct AddrLabelHeader {
    /// The address family.
    pub family: AddressFamily,
    /// The length of the prefix in bits.
    pub prefix_len: u8,
    /// The flags, none so far.
    pub flags: u8,
    /// The index of the link, or 0 for all.
    pub index: u32,
    /// The number of the last change of the labels.
    pub sequence: u32,
}

/// The bytes of a header of a message on an address label.
pub type AddrLabelMessageBuffer = FixedBuffer<AddrLabelHeader, 12>;

impl From<&AddrLabelHeader> for AddrLabelMessageBuffer {
    ghost from_gives = { λ h b. b ≡ header_text h.now };

    #[tactic(auto, unfolding(crate::specs::AddrLabel::header_text, nl_core::specs::Numbers::le32))]
    fn from(header: &AddrLabelHeader) -> Self {
        let index = header.index.to_le_bytes();
        let sequence = header.sequence.to_le_bytes();
        FixedBuffer::from_bytes([
            header.family.into(),
            0,
            header.prefix_len,
            header.flags,
            index[0],
            index[1],
            index[2],
            index[3],
            sequence[0],
            sequence[1],
            sequence[2],
            sequence[3],
        ])
    }
}

impl AddrLabelHeader {
    /// The header at the front of a payload; `TooSmall` where it has fewer than 12 bytes.
    pub fn parse(payload: &[u8]) -> Result<Self, DecodeError>
        ensures { result ≡ sized 12 payload.now (header_at payload.now) }
    {
        <AddrLabelHeader as Fixed>::parse(payload)
    }
}

impl Emitable for AddrLabelHeader {
    ghost text = { header_text };

    ghost fitting = { λ _. true };

    fn fits(&self) -> bool {
        true
    }

    fn buffer_len(&self) -> usize {
        HEADER_LEN
    }

    fn emit(&self, buf: &mut [u8]) {
        emit_bytes(buf, &AddrLabelMessageBuffer::from(self).to_bytes());
    }
}

impl Fixed for AddrLabelHeader {
    ghost LEN = { 12 };

    ghost read = { header_at };

    ghost ReadsBack = { HeaderReadsBack };

    ghost is_short = { omega arith };

    ghost always_fits = { λ h. refl };

    ghost text_length = { length-header };

    ghost reads_back = { header-again };

    ghost read_reads_back = { header-read };

    const LEN: usize = HEADER_LEN;

    fn at_front(bytes: &[u8]) -> Self {
        AddrLabelHeader {
            family: bytes[0].into(),
            prefix_len: bytes[2],
            flags: bytes[3],
            index: u32_at(bytes, 4),
            sequence: u32_at(bytes, 8),
        }
    }
}

impl Header for AddrLabelHeader {
    type Param = ();

    ghost zeros = { default_header };

    ghost by = { λ _. tt };

    ghost default_is_zeros = { λ h is. Prim.search (rules, is) };

    ghost clone_is_same = { λ h g is. Prim.search (rules, is) };

    fn param(&self) {}
}
