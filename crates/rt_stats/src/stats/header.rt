//! The header of messages on statistics.
#![tactic(auto, using(nl_core::proofs::Wire::writes, crate::proofs::Lengths::lengths))]

ghost use Rattle.std.specs.Prelude.{◌≡◌, true, refl};
ghost use Rattle.std.proofs.Common.{arith, rules};
ghost use Rattle.nl_core.specs.Reading.{sized};
ghost use Rattle.rt_stats.specs.Stats.{header_text, header_at, default_header, HeaderReadsBack};
ghost use Rattle.rt_stats.specs.StatsLaws.{length-header, header-again, header-read};

use crate::stats::filter_mask::StatsFilterMask;
use nl_core::{DecodeError, Emitable, emit_bytes, u32_at};
use rt_layout::FixedBuffer;
use rt_other::{AddressFamily, Fixed, Header};

const HEADER_LEN: usize = 12;

/// The header of a message on statistics, `struct if_stats_msg` of include/uapi/linux/if_link.h.
#[derive(Clone, Debug, Default, PartialEq, Eq, Drop)]
pub struct StatsHeader {
    /// The address family.
    pub family: AddressFamily,
    /// The index of the link, or 0 for all links.
    pub ifindex: u32,
    /// Which statistics are asked for.
    pub filter_mask: StatsFilterMask,
}

/// The bytes of a header of a message on statistics.
pub type StatsMessageBuffer = FixedBuffer<StatsHeader, 12>;

impl From<&StatsHeader> for StatsMessageBuffer {
    ghost from_gives = { λ h b. b ≡ header_text h.now };

    #[tactic(auto, unfolding(crate::specs::Stats::header_text, nl_core::specs::Numbers::le32))]
    fn from(header: &StatsHeader) -> Self {
        let ifindex = header.ifindex.to_le_bytes();
        let filter_mask = header.filter_mask.bits().to_le_bytes();
        FixedBuffer::from_bytes([
            header.family.into(),
            0,
            0,
            0,
            ifindex[0],
            ifindex[1],
            ifindex[2],
            ifindex[3],
            filter_mask[0],
            filter_mask[1],
            filter_mask[2],
            filter_mask[3],
        ])
    }
}

impl StatsHeader {
    /// The header at the front of a payload; `TooSmall` where it has fewer than 12 bytes.
    pub fn parse(payload: &[u8]) -> Result<Self, DecodeError>
        ensures { result ≡ sized 12 payload.now (header_at payload.now) }
    {
        <StatsHeader as Fixed>::parse(payload)
    }
}

impl Emitable for StatsHeader {
    ghost text = { header_text };

    ghost fitting = { λ _. true };

    fn fits(&self) -> bool {
        true
    }

    fn buffer_len(&self) -> usize {
        HEADER_LEN
    }

    fn emit(&self, buf: &mut [u8]) {
        emit_bytes(buf, &StatsMessageBuffer::from(self).to_bytes());
    }
}

impl Fixed for StatsHeader {
    ghost LEN = { 12 };

    ghost read = { header_at };

    ghost ReadsBack = { HeaderReadsBack };

    ghost is_short = { omega arith };

    ghost always_fits = { λ h. refl };

    ghost text_length = { length-header };

    ghost reads_back = { header-again };

    ghost read_reads_back = { header-read };

    const LEN: usize = HEADER_LEN;

    fn at_front(bytes: &[u8]) -> Self {
        StatsHeader {
            family: bytes[0].into(),
            ifindex: u32_at(bytes, 4),
            filter_mask: StatsFilterMask::from_bits_retain(u32_at(bytes, 8)),
        }
    }
}

impl Header for StatsHeader {
    type Param = ();

    ghost zeros = { default_header };

    ghost by = { λ _. tt };

    ghost default_is_zeros = { λ h is. Prim.search (rules, is) };

    ghost clone_is_same = { λ h g is. Prim.search (rules, is) };

    fn param(&self) {}
}
