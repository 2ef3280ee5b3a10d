//! The header of messages on network namespaces.
#![tactic(auto, using(nl_core::proofs::Wire::writes, crate::proofs::Lengths::lengths))]

ghost use Rattle.std.specs.Prelude.{◌≡◌, true, refl};
ghost use Rattle.std.proofs.Common.{arith, rules};
ghost use Rattle.nl_core.specs.Reading.{sized};
ghost use Rattle.rt_wire.specs.Nsid.{header_text, header_at, default_header, HeaderReadsBack};
ghost use Rattle.rt_wire.specs.NsidLaws.{length-header, header-again, header-read};

use nl_core::{DecodeError, Emitable, emit_bytes};
use rt_layout::FixedBuffer;
use rt_other::{AddressFamily, Fixed, Header};

const HEADER_LEN: usize = 4;

/// The header of a message on the number of a network namespace, `struct rtgenmsg` of
/// include/uapi/linux/rtnetlink.h.
#[derive(Clone, Debug, Default, PartialEq, Eq, Drop)]
pub struct NsidHeader {
    /// The address family.
    pub family: AddressFamily,
}

/// The bytes of a header of a message on a network namespace.
pub type NsidMessageBuffer = FixedBuffer<NsidHeader, 4>;

impl From<&NsidHeader> for NsidMessageBuffer {
    ghost from_gives = { λ h b. b ≡ header_text h.now };

    #[tactic(auto, unfolding(crate::specs::Nsid::header_text))]
    fn from(header: &NsidHeader) -> Self {
        FixedBuffer::from_bytes([header.family.into(), 0, 0, 0])
    }
}

impl NsidHeader {
    /// The header at the front of a payload; `TooSmall` where it has fewer than 4 bytes.
    pub fn parse(payload: &[u8]) -> Result<Self, DecodeError>
        ensures { result ≡ sized 4 payload.now (header_at payload.now) }
    {
        <NsidHeader as Fixed>::parse(payload)
    }
}

impl Emitable for NsidHeader {
    ghost text = { header_text };

    ghost fitting = { λ _. true };

    fn fits(&self) -> bool {
        true
    }

    fn buffer_len(&self) -> usize {
        HEADER_LEN
    }

    fn emit(&self, buf: &mut [u8]) {
        emit_bytes(buf, &NsidMessageBuffer::from(self).to_bytes());
    }
}

impl Fixed for NsidHeader {
    ghost LEN = { 4 };

    ghost read = { header_at };

    ghost ReadsBack = { HeaderReadsBack };

    ghost is_short = { omega arith };

    ghost always_fits = { λ h. refl };

    ghost text_length = { length-header };

    ghost reads_back = { header-again };

    ghost read_reads_back = { header-read };

    const LEN: usize = HEADER_LEN;

    fn at_front(bytes: &[u8]) -> Self {
        NsidHeader {
            family: bytes[0].into(),
        }
    }
}

impl Header for NsidHeader {
    type Param = ();

    ghost zeros = { default_header };

    ghost by = { λ _. tt };

    ghost default_is_zeros = { λ h is. Prim.search (rules, is) };

    ghost clone_is_same = { λ h g is. Prim.search (rules, is) };

    fn param(&self) {}
}
