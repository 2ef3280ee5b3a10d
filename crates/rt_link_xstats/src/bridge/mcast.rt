//! Counters of multicast of a bridge or of one of its ports.
#![tactic(auto, using(nl_core::proofs::Wire::writes, crate::proofs::Lengths::lengths))]

ghost use Rattle.std.specs.Prelude.{◌≡◌, true, refl};
ghost use Rattle.std.proofs.Common.{arith};
ghost use Rattle.nl_core.specs.Reading.{sized};
ghost use Rattle.rt_link_xstats.specs.BridgeMcast.{mcast_text, mcast_at, ReadsBack};
ghost use Rattle.rt_link_xstats.specs.BridgeMcastLaws.{length-mcast, mcast-again, mcast-read};

use nl_core::{DecodeError, Emitable, emit_bytes, u64_at};
use rt_layout::{FixedBuffer, bytes_of_u64s};
use rt_other::Fixed;

const STATS_LEN: usize = 240;

/// What was counted of multicast of a bridge or of one of its ports, `struct br_mcast_stats` of
/// include/uapi/linux/if_bridge.h.
#[derive(Clone, Debug, Default, PartialEq, Eq, Drop)]
pub struct BridgeMcastStats {
    /// IGMP queries of version 1, received.
    pub igmp_v1queries_rx: u64,
    /// IGMP queries of version 1, sent.
    pub igmp_v1queries_tx: u64,
    /// IGMP queries of version 2, received.
    pub igmp_v2queries_rx: u64,
    /// IGMP queries of version 2, sent.
    pub igmp_v2queries_tx: u64,
    /// IGMP queries of version 3, received.
    pub igmp_v3queries_rx: u64,
    /// IGMP queries of version 3, sent.
    pub igmp_v3queries_tx: u64,
    /// IGMP messages that leave a group, received.
    pub igmp_leaves_rx: u64,
    /// IGMP messages that leave a group, sent.
    pub igmp_leaves_tx: u64,
    /// IGMP reports of version 1, received.
    pub igmp_v1reports_rx: u64,
    /// IGMP reports of version 1, sent.
    pub igmp_v1reports_tx: u64,
    /// IGMP reports of version 2, received.
    pub igmp_v2reports_rx: u64,
    /// IGMP reports of version 2, sent.
    pub igmp_v2reports_tx: u64,
    /// IGMP reports of version 3, received.
    pub igmp_v3reports_rx: u64,
    /// IGMP reports of version 3, sent.
    pub igmp_v3reports_tx: u64,
    /// IGMP messages that could not be read.
    pub igmp_parse_errors: u64,
    /// MLD queries of version 1, received.
    pub mld_v1queries_rx: u64,
    /// MLD queries of version 1, sent.
    pub mld_v1queries_tx: u64,
    /// MLD queries of version 2, received.
    pub mld_v2queries_rx: u64,
    /// MLD queries of version 2, sent.
    pub mld_v2queries_tx: u64,
    /// MLD messages that leave a group, received.
    pub mld_leaves_rx: u64,
    /// MLD messages that leave a group, sent.
    pub mld_leaves_tx: u64,
    /// MLD reports of version 1, received.
    pub mld_v1reports_rx: u64,
    /// MLD reports of version 1, sent.
    pub mld_v1reports_tx: u64,
    /// MLD reports of version 2, received.
    pub mld_v2reports_rx: u64,
    /// MLD reports of version 2, sent.
    pub mld_v2reports_tx: u64,
    /// MLD messages that could not be read.
    pub mld_parse_errors: u64,
    /// Bytes to groups, received.
    pub mcast_bytes_rx: u64,
    /// Bytes to groups, sent.
    pub mcast_bytes_tx: u64,
    /// Packets to groups, received.
    pub mcast_packets_rx: u64,
    /// Packets to groups, sent.
    pub mcast_packets_tx: u64,
}

/// The bytes of the counters of multicast.
pub type BridgeMcastStatsBuffer = FixedBuffer<BridgeMcastStats, 240>;

impl From<&BridgeMcastStats> for BridgeMcastStatsBuffer {
    ghost from_gives = { λ s b. b ≡ mcast_text s.now };

    #[tactic(auto, unfolding(crate::specs::BridgeMcast::mcast_text))]
    fn from(mcast: &BridgeMcastStats) -> Self {
        FixedBuffer::from_bytes(bytes_of_u64s(&[
            mcast.igmp_v1queries_rx,
            mcast.igmp_v1queries_tx,
            mcast.igmp_v2queries_rx,
            mcast.igmp_v2queries_tx,
            mcast.igmp_v3queries_rx,
            mcast.igmp_v3queries_tx,
            mcast.igmp_leaves_rx,
            mcast.igmp_leaves_tx,
            mcast.igmp_v1reports_rx,
            mcast.igmp_v1reports_tx,
            mcast.igmp_v2reports_rx,
            mcast.igmp_v2reports_tx,
            mcast.igmp_v3reports_rx,
            mcast.igmp_v3reports_tx,
            mcast.igmp_parse_errors,
            mcast.mld_v1queries_rx,
            mcast.mld_v1queries_tx,
            mcast.mld_v2queries_rx,
            mcast.mld_v2queries_tx,
            mcast.mld_leaves_rx,
            mcast.mld_leaves_tx,
            mcast.mld_v1reports_rx,
            mcast.mld_v1reports_tx,
            mcast.mld_v2reports_rx,
            mcast.mld_v2reports_tx,
            mcast.mld_parse_errors,
            mcast.mcast_bytes_rx,
            mcast.mcast_bytes_tx,
            mcast.mcast_packets_rx,
            mcast.mcast_packets_tx,
        ]))
    }
}

impl BridgeMcastStats {
    /// The counters at the front of a value; `TooSmall` where it has fewer than 240 bytes.
    pub fn parse(payload: &[u8]) -> Result<Self, DecodeError>
        ensures { result ≡ sized 240 payload.now (mcast_at payload.now) }
    {
        <BridgeMcastStats as Fixed>::parse(payload)
    }
}

impl Emitable for BridgeMcastStats {
    ghost text = { mcast_text };

    ghost fitting = { λ _. true };

    fn fits(&self) -> bool {
        true
    }

    fn buffer_len(&self) -> usize {
        STATS_LEN
    }

    fn emit(&self, buf: &mut [u8]) {
        emit_bytes(buf, &BridgeMcastStatsBuffer::from(self).to_bytes());
    }
}

impl Fixed for BridgeMcastStats {
    ghost LEN = { 240 };

    ghost read = { mcast_at };

    ghost ReadsBack = { ReadsBack };

    ghost is_short = { omega arith };

    ghost always_fits = { λ s. refl };

    ghost text_length = { length-mcast };

    ghost reads_back = { mcast-again };

    ghost read_reads_back = { mcast-read };

    const LEN: usize = STATS_LEN;

    fn at_front(bytes: &[u8]) -> Self {
        BridgeMcastStats {
            igmp_v1queries_rx: u64_at(bytes, 0),
            igmp_v1queries_tx: u64_at(bytes, 8),
            igmp_v2queries_rx: u64_at(bytes, 16),
            igmp_v2queries_tx: u64_at(bytes, 24),
            igmp_v3queries_rx: u64_at(bytes, 32),
            igmp_v3queries_tx: u64_at(bytes, 40),
            igmp_leaves_rx: u64_at(bytes, 48),
            igmp_leaves_tx: u64_at(bytes, 56),
            igmp_v1reports_rx: u64_at(bytes, 64),
            igmp_v1reports_tx: u64_at(bytes, 72),
            igmp_v2reports_rx: u64_at(bytes, 80),
            igmp_v2reports_tx: u64_at(bytes, 88),
            igmp_v3reports_rx: u64_at(bytes, 96),
            igmp_v3reports_tx: u64_at(bytes, 104),
            igmp_parse_errors: u64_at(bytes, 112),
            mld_v1queries_rx: u64_at(bytes, 120),
            mld_v1queries_tx: u64_at(bytes, 128),
            mld_v2queries_rx: u64_at(bytes, 136),
            mld_v2queries_tx: u64_at(bytes, 144),
            mld_leaves_rx: u64_at(bytes, 152),
            mld_leaves_tx: u64_at(bytes, 160),
            mld_v1reports_rx: u64_at(bytes, 168),
            mld_v1reports_tx: u64_at(bytes, 176),
            mld_v2reports_rx: u64_at(bytes, 184),
            mld_v2reports_tx: u64_at(bytes, 192),
            mld_parse_errors: u64_at(bytes, 200),
            mcast_bytes_rx: u64_at(bytes, 208),
            mcast_bytes_tx: u64_at(bytes, 216),
            mcast_packets_rx: u64_at(bytes, 224),
            mcast_packets_tx: u64_at(bytes, 232),
        }
    }
}
