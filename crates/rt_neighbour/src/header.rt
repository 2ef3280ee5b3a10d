//! The header of messages on neighbours.
#![tactic(auto, using(nl_core::proofs::Wire::writes, crate::proofs::Lengths::lengths))]

ghost use Rattle.std.specs.Prelude.{◌≡◌, true, refl};
ghost use Rattle.std.proofs.Common.{arith, rules};
ghost use Rattle.nl_core.specs.Reading.{sized};
ghost use Rattle.rt_neighbour.specs.Neighbour.{header_text, header_at, default_header, HeaderReadsBack};
ghost use Rattle.rt_neighbour.specs.NeighbourLaws.{length-header, header-again, header-read};

use crate::flags::NeighbourFlags;
use crate::state::NeighbourState;
use nl_core::{DecodeError, Emitable, emit_bytes, u16_at, u32_at};
use rt_layout::FixedBuffer;
use rt_other::{AddressFamily, Fixed, Header, RouteType};

const HEADER_LEN: usize = 12;

/// The header of a message on a neighbour, `struct ndmsg` of include/uapi/linux/neighbour.h.
#[derive(Clone, Debug, Default, PartialEq, Eq, Drop)]
pub struct NeighbourHeader {
    /// The address family, which is that of the addresses in the attributes.
    pub family: AddressFamily,
    /// The index of the link.
    pub ifindex: u32,
    /// The state.
    pub state: NeighbourState,
    /// The flags.
    pub flags: NeighbourFlags,
    /// What happens to what is sent to the neighbour.
    pub kind: RouteType,
}

/// The bytes of a header of a message on a neighbour.
pub type NeighbourMessageBuffer = FixedBuffer<NeighbourHeader, 12>;

impl From<&NeighbourHeader> for NeighbourMessageBuffer {
    ghost from_gives = { λ h b. b ≡ header_text h.now };

    #[tactic(auto, unfolding(crate::specs::Neighbour::header_text, nl_core::specs::Numbers::le16, nl_core::specs::Numbers::le32))]
    fn from(header: &NeighbourHeader) -> Self {
        let ifindex = header.ifindex.to_le_bytes();
        let state = u16::from(header.state).to_le_bytes();
        FixedBuffer::from_bytes([
            header.family.into(),
            0,
            0,
            0,
            ifindex[0],
            ifindex[1],
            ifindex[2],
            ifindex[3],
            state[0],
            state[1],
            header.flags.bits(),
            header.kind.0,
        ])
    }
}

impl NeighbourHeader {
    /// The header at the front of a payload; `TooSmall` where it has fewer than 12 bytes.
    pub fn parse(payload: &[u8]) -> Result<Self, DecodeError>
        ensures { result ≡ sized 12 payload.now (header_at payload.now) }
    {
        <NeighbourHeader as Fixed>::parse(payload)
    }
}

impl Emitable for NeighbourHeader {
    ghost text = { header_text };

    ghost fitting = { λ _. true };

    fn fits(&self) -> bool {
        true
    }

    fn buffer_len(&self) -> usize {
        HEADER_LEN
    }

    fn emit(&self, buf: &mut [u8]) {
        emit_bytes(buf, &NeighbourMessageBuffer::from(self).to_bytes());
    }
}

impl Fixed for NeighbourHeader {
    ghost LEN = { 12 };

    ghost read = { header_at };

    ghost ReadsBack = { HeaderReadsBack };

    ghost is_short = { omega arith };

    ghost always_fits = { λ h. refl };

    ghost text_length = { length-header };

    ghost reads_back = { header-again };

    ghost read_reads_back = { header-read };

    const LEN: usize = HEADER_LEN;

    fn at_front(bytes: &[u8]) -> Self {
        NeighbourHeader {
            family: bytes[0].into(),
            ifindex: u32_at(bytes, 4),
            state: u16_at(bytes, 8).into(),
            flags: NeighbourFlags::from_bits_retain(bytes[10]),
            kind: RouteType(bytes[11]),
        }
    }
}

impl Header for NeighbourHeader {
    type Param = AddressFamily;

    ghost zeros = { default_header };

    ghost by = { λ h. h.family };

    ghost default_is_zeros = { λ h is. Prim.search (rules, is) };

    ghost clone_is_same = { λ h g is. Prim.search (rules, is) };

    fn param(&self) -> AddressFamily {
        self.family
    }
}
