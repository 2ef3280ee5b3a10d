//! The header of messages on neighbour tables.
#![tactic(auto, using(nl_core::proofs::Wire::writes, crate::proofs::Lengths::lengths))]

ghost use Rattle.std.specs.Prelude.{◌≡◌, true, refl};
ghost use Rattle.std.proofs.Common.{arith, rules};
ghost use Rattle.nl_core.specs.Reading.{sized};
ghost use Rattle.rt_neighbour_table.specs.NeighbourTable.{header_text, header_at, default_header, HeaderReadsBack};
ghost use Rattle.rt_neighbour_table.specs.NeighbourTableLaws.{length-header, header-again, header-read};

use nl_core::{DecodeError, Emitable, emit_bytes};
use rt_layout::FixedBuffer;
use rt_other::{AddressFamily, Fixed, Header};

const HEADER_LEN: usize = 4;

/// The header of a message on a neighbour table, `struct ndtmsg` of
/// include/uapi/linux/neighbour.h.
#[derive(Clone, Copy, Debug, Default, PartialEq, Eq)]
pub struct NeighbourTableHeader {
    /// The address family of the neighbours in the table.
    pub family: AddressFamily,
}

/// The bytes of a header of a message on a neighbour table.
pub type NeighbourTableMessageBuffer = FixedBuffer<NeighbourTableHeader, 4>;

impl From<&NeighbourTableHeader> for NeighbourTableMessageBuffer {
    ghost from_gives = { λ h b. b ≡ header_text h.now };

    #[tactic(auto, unfolding(crate::specs::NeighbourTable::header_text))]
    fn from(header: &NeighbourTableHeader) -> Self {
        FixedBuffer::from_bytes([header.family.into(), 0, 0, 0])
    }
}

impl NeighbourTableHeader {
    /// The header at the front of a payload; `TooSmall` where it has fewer than 4 bytes.
    pub fn parse(payload: &[u8]) -> Result<Self, DecodeError>
        ensures { result ≡ sized 4 payload.now (header_at payload.now) }
    {
        <NeighbourTableHeader as Fixed>::parse(payload)
    }
}

impl Emitable for NeighbourTableHeader {
    ghost text = { header_text };

    ghost fitting = { λ _. true };

    fn fits(&self) -> bool {
        true
    }

    fn buffer_len(&self) -> usize {
        HEADER_LEN
    }

    fn emit(&self, buf: &mut [u8]) {
        emit_bytes(buf, &NeighbourTableMessageBuffer::from(self).to_bytes());
    }
}

impl Fixed for NeighbourTableHeader {
    ghost LEN = { 4 };

    ghost read = { header_at };

    ghost ReadsBack = { HeaderReadsBack };

    ghost is_short = { omega arith };

    ghost always_fits = { λ h. refl };

    ghost text_length = { length-header };

    ghost reads_back = { header-again };

    ghost read_reads_back = { header-read };

    const LEN: usize = HEADER_LEN;

    fn at_front(bytes: &[u8]) -> Self {
        NeighbourTableHeader {
            family: bytes[0].into(),
        }
    }
}

impl Header for NeighbourTableHeader {
    type Param = ();

    ghost zeros = { default_header };

    ghost by = { λ _. tt };

    ghost default_is_zeros = { λ h is. Prim.search (rules, is) };

    ghost clone_is_same = { λ h g is. Prim.search (rules, is) };

    fn param(&self) {}
}
