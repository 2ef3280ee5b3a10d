//! Counters of the spanning tree on a port of a bridge.
#![tactic(auto, using(nl_core::proofs::Wire::writes, crate::proofs::Lengths::lengths))]

ghost use Rattle.std.specs.Prelude.{◌≡◌, true, refl};
ghost use Rattle.std.proofs.Common.{arith};
ghost use Rattle.nl_core.specs.Reading.{sized};
ghost use Rattle.rt_link_xstats.specs.BridgeStp.{stp_text, stp_at, ReadsBack};
ghost use Rattle.rt_link_xstats.specs.BridgeStpLaws.{length-stp, stp-again, stp-read};

use nl_core::{DecodeError, Emitable, emit_bytes, u64_at};
use rt_layout::{FixedBuffer, bytes_of_u64s};
use rt_other::Fixed;

const STATS_LEN: usize = 48;

/// What was counted of the spanning tree on a port of a bridge, `struct bridge_stp_xstats` of
/// include/uapi/linux/if_bridge.h.
#[derive(Clone, Debug, Default, PartialEq, Eq, Drop)]
pub struct BridgeStpXstats {
    /// How often the port began to block.
    pub transition_blk: u64,
    /// How often the port began to forward.
    pub transition_fwd: u64,
    /// Received bridge protocol data units.
    pub rx_bpdu: u64,
    /// Sent bridge protocol data units.
    pub tx_bpdu: u64,
    /// Received notifications of topology changes.
    pub rx_tcn: u64,
    /// Sent notifications of topology changes.
    pub tx_tcn: u64,
}

/// The bytes of the counters of the spanning tree on a port.
pub type BridgeStpXstatsBuffer = FixedBuffer<BridgeStpXstats, 48>;

impl From<&BridgeStpXstats> for BridgeStpXstatsBuffer {
    ghost from_gives = { λ s b. b ≡ stp_text s.now };

    #[tactic(auto, unfolding(crate::specs::BridgeStp::stp_text))]
    fn from(stp: &BridgeStpXstats) -> Self {
        FixedBuffer::from_bytes(bytes_of_u64s(&[
            stp.transition_blk,
            stp.transition_fwd,
            stp.rx_bpdu,
            stp.tx_bpdu,
            stp.rx_tcn,
            stp.tx_tcn,
        ]))
    }
}

impl BridgeStpXstats {
    /// The counters at the front of a value; `TooSmall` where it has fewer than 48 bytes.
    pub fn parse(payload: &[u8]) -> Result<Self, DecodeError>
        ensures { result ≡ sized 48 payload.now (stp_at payload.now) }
    {
        <BridgeStpXstats as Fixed>::parse(payload)
    }
}

impl Emitable for BridgeStpXstats {
    ghost text = { stp_text };

    ghost fitting = { λ _. true };

    fn fits(&self) -> bool {
        true
    }

    fn buffer_len(&self) -> usize {
        STATS_LEN
    }

    fn emit(&self, buf: &mut [u8]) {
        emit_bytes(buf, &BridgeStpXstatsBuffer::from(self).to_bytes());
    }
}

impl Fixed for BridgeStpXstats {
    ghost LEN = { 48 };

    ghost read = { stp_at };

    ghost ReadsBack = { ReadsBack };

    ghost is_short = { omega arith };

    ghost always_fits = { λ s. refl };

    ghost text_length = { length-stp };

    ghost reads_back = { stp-again };

    ghost read_reads_back = { stp-read };

    const LEN: usize = STATS_LEN;

    fn at_front(bytes: &[u8]) -> Self {
        BridgeStpXstats {
            transition_blk: u64_at(bytes, 0),
            transition_fwd: u64_at(bytes, 8),
            rx_bpdu: u64_at(bytes, 16),
            tx_bpdu: u64_at(bytes, 24),
            rx_tcn: u64_at(bytes, 32),
            tx_tcn: u64_at(bytes, 40),
        }
    }
}
