//! The lifetimes of prefixes.
#![tactic(auto, using(nl_core::proofs::Wire::writes, crate::proofs::Lengths::lengths))]

ghost use Rattle.std.specs.Prelude.{◌≡◌, true, refl};
ghost use Rattle.std.proofs.Common.{arith};
ghost use Rattle.nl_core.specs.Reading.{sized};
ghost use Rattle.rt_wire.specs.CacheInfo.{cache_info_text, cache_info_at, ReadsBack};
ghost use Rattle.rt_wire.specs.CacheInfoLaws.{length-cache_info, cache_info-again, cache_info-read};

use nl_core::{DecodeError, Emitable, emit_bytes, u32_at};
use rt_layout::FixedBuffer;
use rt_other::Fixed;

const CACHE_INFO_LEN: usize = 8;

/// The lifetimes of a prefix in seconds, `struct prefix_cacheinfo` of
/// include/uapi/linux/rtnetlink.h.
#[derive(Clone, Copy, Debug, Default, PartialEq, Eq)]
pub struct CacheInfo {
    /// How long addresses of the prefix are preferred.
    pub preferred_time: u32,
    /// How long they are valid.
    pub valid_time: u32,
}

/// The bytes of the lifetimes of a prefix.
pub type CacheInfoBuffer = FixedBuffer<CacheInfo, 8>;

impl From<&CacheInfo> for CacheInfoBuffer {
    ghost from_gives = { λ h b. b ≡ cache_info_text h.now };

    #[tactic(auto, unfolding(crate::specs::CacheInfo::cache_info_text, nl_core::specs::Numbers::le32))]
    fn from(info: &CacheInfo) -> Self {
        let preferred_time = info.preferred_time.to_le_bytes();
        let valid_time = info.valid_time.to_le_bytes();
        FixedBuffer::from_bytes([
            preferred_time[0],
            preferred_time[1],
            preferred_time[2],
            preferred_time[3],
            valid_time[0],
            valid_time[1],
            valid_time[2],
            valid_time[3],
        ])
    }
}

impl CacheInfo {
    /// The lifetimes at the front of a value; `TooSmall` where it has fewer than 8 bytes.
    pub fn parse(payload: &[u8]) -> Result<Self, DecodeError>
        ensures { result ≡ sized 8 payload.now (cache_info_at payload.now) }
    {
        <CacheInfo as Fixed>::parse(payload)
    }
}

impl Emitable for CacheInfo {
    ghost text = { cache_info_text };

    ghost fitting = { λ _. true };

    fn fits(&self) -> bool {
        true
    }

    fn buffer_len(&self) -> usize {
        CACHE_INFO_LEN
    }

    fn emit(&self, buf: &mut [u8]) {
        emit_bytes(buf, &CacheInfoBuffer::from(self).to_bytes());
    }
}

impl Fixed for CacheInfo {
    ghost LEN = { 8 };

    ghost read = { cache_info_at };

    ghost ReadsBack = { ReadsBack };

    ghost is_short = { omega arith };

    ghost always_fits = { λ h. refl };

    ghost text_length = { length-cache_info };

    ghost reads_back = { cache_info-again };

    ghost read_reads_back = { cache_info-read };

    const LEN: usize = CACHE_INFO_LEN;

    fn at_front(bytes: &[u8]) -> Self {
        CacheInfo {
            preferred_time: u32_at(bytes, 0),
            valid_time: u32_at(bytes, 4),
        }
    }
}
