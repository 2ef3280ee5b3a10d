//! The times of neighbours.
#![tactic(auto, using(nl_core::proofs::Wire::writes, crate::proofs::Lengths::lengths))]

ghost use Rattle.std.specs.Prelude.{◌≡◌, true, refl};
ghost use Rattle.std.proofs.Common.{arith};
ghost use Rattle.nl_core.specs.Reading.{sized};
ghost use Rattle.rt_neighbour.specs.CacheInfo.{cache_info_text, cache_info_at, ReadsBack};
ghost use Rattle.rt_neighbour.specs.CacheInfoLaws.{length-cache_info, cache_info-again, cache_info-read};

use nl_core::{DecodeError, Emitable, emit_bytes, u32_at};
use rt_layout::FixedBuffer;
use rt_other::Fixed;

const CACHE_INFO_LEN: usize = 16;

/// When a neighbour was used, in ticks of the clock until now, `struct nda_cacheinfo` of
/// include/uapi/linux/neighbour.h.
#[derive(Clone, Copy, Debug, PartialEq, Eq)]
pub struct NeighbourCacheInfo {
    /// Since it last answered.
    pub confirmed: u32,
    /// Since it was last used.
    pub used: u32,
    /// Since its state last changed.
    pub updated: u32,
    /// How often it is referred to.
    pub refcnt: u32,
}

/// The bytes of the times of a neighbour.
pub type NeighbourCacheInfoBuffer = FixedBuffer<NeighbourCacheInfo, 16>;

impl From<&NeighbourCacheInfo> for NeighbourCacheInfoBuffer {
    ghost from_gives = { λ h b. b ≡ cache_info_text h.now };

    #[tactic(auto, unfolding(crate::specs::CacheInfo::cache_info_text, nl_core::specs::Numbers::le32))]
    fn from(info: &NeighbourCacheInfo) -> Self {
        let confirmed = info.confirmed.to_le_bytes();
        let used = info.used.to_le_bytes();
        let updated = info.updated.to_le_bytes();
        let refcnt = info.refcnt.to_le_bytes();
        FixedBuffer::from_bytes([
            confirmed[0],
            confirmed[1],
            confirmed[2],
            confirmed[3],
            used[0],
            used[1],
            used[2],
            used[3],
            updated[0],
            updated[1],
            updated[2],
            updated[3],
            refcnt[0],
            refcnt[1],
            refcnt[2],
            refcnt[3],
        ])
    }
}

impl NeighbourCacheInfo {
    /// The times at the front of a value; `TooSmall` where it has fewer than 16 bytes.
    pub fn parse(payload: &[u8]) -> Result<Self, DecodeError>
        ensures { result ≡ sized 16 payload.now (cache_info_at payload.now) }
    {
        <NeighbourCacheInfo as Fixed>::parse(payload)
    }
}

impl Emitable for NeighbourCacheInfo {
    ghost text = { cache_info_text };

    ghost fitting = { λ _. true };

    fn fits(&self) -> bool {
        true
    }

    fn buffer_len(&self) -> usize {
        CACHE_INFO_LEN
    }

    fn emit(&self, buf: &mut [u8]) {
        emit_bytes(buf, &NeighbourCacheInfoBuffer::from(self).to_bytes());
    }
}

impl Fixed for NeighbourCacheInfo {
    ghost LEN = { 16 };

    ghost read = { cache_info_at };

    ghost ReadsBack = { ReadsBack };

    ghost is_short = { omega arith };

    ghost always_fits = { λ h. refl };

    ghost text_length = { length-cache_info };

    ghost reads_back = { cache_info-again };

    ghost read_reads_back = { cache_info-read };

    const LEN: usize = CACHE_INFO_LEN;

    fn at_front(bytes: &[u8]) -> Self {
        NeighbourCacheInfo {
            confirmed: u32_at(bytes, 0),
            used: u32_at(bytes, 4),
            updated: u32_at(bytes, 8),
            refcnt: u32_at(bytes, 12),
        }
    }
}
