//! Counters of MPLS on a link.
#![tactic(auto, using(nl_core::proofs::Wire::writes, crate::proofs::Lengths::lengths))]

ghost use Rattle.std.specs.Prelude.{◌≡◌};
ghost use Rattle.nl_core.specs.Reading.{sized};
ghost use Rattle.rt_stats.specs.MplsLink.{mpls_text, mpls_at};

use nl_core::{DecodeError, Nla, emit_bytes, u64_at};
use rt_layout::{FixedBuffer, bytes_of_u64s};

const MPLS_STATS_LINK: u16 = 1;

const STATS_LEN: usize = 72;

/// What was counted of MPLS on a link, `struct mpls_link_stats` of include/uapi/linux/mpls.h. It is
/// written as an attribute of its own.
#[derive(Clone, Debug, Default, PartialEq, Eq, Drop)]
pub struct MplsLinkStats {
    /// Received packets.
    pub rx_packets: u64,
    /// Sent packets.
    pub tx_packets: u64,
    /// Received bytes.
    pub rx_bytes: u64,
    /// Sent bytes.
    pub tx_bytes: u64,
    /// Packets that could not be received.
    pub rx_errors: u64,
    /// Packets that could not be sent.
    pub tx_errors: u64,
    /// Received packets that were dropped.
    pub rx_dropped: u64,
    /// Packets that were dropped and not sent.
    pub tx_dropped: u64,
    /// Received packets with no route.
    pub rx_noroute: u64,
}

/// The bytes of the counters of MPLS on a link.
pub type MplsLinkStatsBuffer = FixedBuffer<MplsLinkStats, 72>;

impl From<&MplsLinkStats> for MplsLinkStatsBuffer {
    ghost from_gives = { λ s b. b ≡ mpls_text s.now };

    #[tactic(auto, unfolding(crate::specs::MplsLink::mpls_text))]
    fn from(stats: &MplsLinkStats) -> Self {
        FixedBuffer::from_bytes(bytes_of_u64s(&[
            stats.rx_packets,
            stats.tx_packets,
            stats.rx_bytes,
            stats.tx_bytes,
            stats.rx_errors,
            stats.tx_errors,
            stats.rx_dropped,
            stats.tx_dropped,
            stats.rx_noroute,
        ]))
    }
}

impl MplsLinkStats {
    /// The counters at the front of a value; `TooSmall` where it has fewer than 72 bytes.
    pub fn parse(payload: &[u8]) -> Result<Self, DecodeError>
        ensures { result ≡ sized 72 payload.now (mpls_at payload.now) }
    {
        if payload.len() < STATS_LEN {
            return Err(DecodeError::TooSmall {
                have: payload.len(),
                need: STATS_LEN,
            });
        }
        Ok(MplsLinkStats {
            rx_packets: u64_at(payload, 0),
            tx_packets: u64_at(payload, 8),
            rx_bytes: u64_at(payload, 16),
            tx_bytes: u64_at(payload, 24),
            rx_errors: u64_at(payload, 32),
            tx_errors: u64_at(payload, 40),
            rx_dropped: u64_at(payload, 48),
            tx_dropped: u64_at(payload, 56),
            rx_noroute: u64_at(payload, 64),
        })
    }
}

impl Nla for MplsLinkStats {
    ghost kind_as_written = { λ _. 1 };

    ghost value_text = { mpls_text };

    fn value_len(&self) -> usize {
        STATS_LEN
    }

    fn emit_value(&self, buf: &mut [u8]) {
        emit_bytes(buf, &MplsLinkStatsBuffer::from(self).to_bytes());
    }

    fn kind(&self) -> u16 {
        MPLS_STATS_LINK
    }
}
