//! Counters that hardware keeps of a link.
#![tactic(auto, using(nl_core::proofs::Wire::writes, crate::proofs::Lengths::lengths))]

ghost use Rattle.std.specs.Prelude.{◌≡◌, true, refl};
ghost use Rattle.std.proofs.Common.{arith};
ghost use Rattle.nl_core.specs.Reading.{sized};
ghost use Rattle.rt_stats.specs.HwStats.{hw_stats_text, hw_stats_at, ReadsBack};
ghost use Rattle.rt_stats.specs.HwStatsLaws.{length-hw_stats, hw_stats-again, hw_stats-read};

use nl_core::{DecodeError, Emitable, emit_bytes, u64_at};
use rt_layout::{FixedBuffer, bytes_of_u64s};
use rt_other::Fixed;

const STATS_LEN: usize = 72;

/// What hardware counted of a link, `struct rtnl_hw_stats64` of include/uapi/linux/if_link.h.
#[derive(Clone, Debug, Default, PartialEq, Eq, Drop)]
pub struct HwStats64 {
    /// Received packets.
    pub rx_packets: u64,
    /// Sent packets.
    pub tx_packets: u64,
    /// Received bytes.
    pub rx_bytes: u64,
    /// Sent bytes.
    pub tx_bytes: u64,
    /// Packets that could not be received.
    pub rx_errors: u64,
    /// Packets that could not be sent.
    pub tx_errors: u64,
    /// Received packets that were dropped.
    pub rx_dropped: u64,
    /// Packets that were dropped and not sent.
    pub tx_dropped: u64,
    /// Received packets to groups.
    pub multicast: u64,
}

/// The bytes of the counters that hardware keeps of a link.
pub type HwStats64Buffer = FixedBuffer<HwStats64, 72>;

impl From<&HwStats64> for HwStats64Buffer {
    ghost from_gives = { λ s b. b ≡ hw_stats_text s.now };

    #[tactic(auto, unfolding(crate::specs::HwStats::hw_stats_text))]
    fn from(stats: &HwStats64) -> Self {
        FixedBuffer::from_bytes(bytes_of_u64s(&[
            stats.rx_packets,
            stats.tx_packets,
            stats.rx_bytes,
            stats.tx_bytes,
            stats.rx_errors,
            stats.tx_errors,
            stats.rx_dropped,
            stats.tx_dropped,
            stats.multicast,
        ]))
    }
}

impl HwStats64 {
    /// The counters at the front of a value; `TooSmall` where it has fewer than 72 bytes.
    pub fn parse(payload: &[u8]) -> Result<Self, DecodeError>
        ensures { result ≡ sized 72 payload.now (hw_stats_at payload.now) }
    {
        <HwStats64 as Fixed>::parse(payload)
    }
}

impl Emitable for HwStats64 {
    ghost text = { hw_stats_text };

    ghost fitting = { λ _. true };

    fn fits(&self) -> bool {
        true
    }

    fn buffer_len(&self) -> usize {
        STATS_LEN
    }

    fn emit(&self, buf: &mut [u8]) {
        emit_bytes(buf, &HwStats64Buffer::from(self).to_bytes());
    }
}

impl Fixed for HwStats64 {
    ghost LEN = { 72 };

    ghost read = { hw_stats_at };

    ghost ReadsBack = { ReadsBack };

    ghost is_short = { omega arith };

    ghost always_fits = { λ s. refl };

    ghost text_length = { length-hw_stats };

    ghost reads_back = { hw_stats-again };

    ghost read_reads_back = { hw_stats-read };

    const LEN: usize = STATS_LEN;

    fn at_front(bytes: &[u8]) -> Self {
        HwStats64 {
            rx_packets: u64_at(bytes, 0),
            tx_packets: u64_at(bytes, 8),
            rx_bytes: u64_at(bytes, 16),
            tx_bytes: u64_at(bytes, 24),
            rx_errors: u64_at(bytes, 32),
            tx_errors: u64_at(bytes, 40),
            rx_dropped: u64_at(bytes, 48),
            tx_dropped: u64_at(bytes, 56),
            multicast: u64_at(bytes, 64),
        }
    }
}
