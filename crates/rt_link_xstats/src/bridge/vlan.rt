//! Counters of a VLAN of a bridge.
#![tactic(auto, using(nl_core::proofs::Wire::writes, crate::proofs::Lengths::lengths))]

ghost use Rattle.std.specs.Prelude.{◌≡◌, true, refl};
ghost use Rattle.std.proofs.Common.{arith};
ghost use Rattle.nl_core.specs.Reading.{sized};
ghost use Rattle.rt_link_xstats.specs.BridgeVlan.{vlan_text, vlan_at, ReadsBack};
ghost use Rattle.rt_link_xstats.specs.BridgeVlanLaws.{length-vlan, vlan-again, vlan-read};

use nl_core::{DecodeError, Emitable, emit_bytes, u16_at, u64_at};
use rt_layout::FixedBuffer;
use rt_other::Fixed;

const STATS_LEN: usize = 40;

/// What was counted of a VLAN of a bridge, `struct bridge_vlan_xstats` of
/// include/uapi/linux/if_bridge.h.
#[derive(Clone, Debug, Default, PartialEq, Eq, Drop)]
pub struct BridgeVlanXstats {
    /// Received bytes.
    pub rx_bytes: u64,
    /// Received packets.
    pub rx_packets: u64,
    /// Sent bytes.
    pub tx_bytes: u64,
    /// Sent packets.
    pub tx_packets: u64,
    /// The number of the VLAN.
    pub vid: u16,
    /// The `BRIDGE_VLAN_INFO_` flags.
    pub flags: u16,
}

/// The bytes of the counters of a VLAN.
pub type BridgeVlanXstatsBuffer = FixedBuffer<BridgeVlanXstats, 40>;

impl From<&BridgeVlanXstats> for BridgeVlanXstatsBuffer {
    ghost from_gives = { λ s b. b ≡ vlan_text s.now };

    #[tactic(auto, unfolding(crate::specs::BridgeVlan::vlan_text, nl_core::specs::Numbers::le16, nl_core::specs::Numbers::le64))]
    fn from(vlan: &BridgeVlanXstats) -> Self {
        let rx_bytes = vlan.rx_bytes.to_le_bytes();
        let rx_packets = vlan.rx_packets.to_le_bytes();
        let tx_bytes = vlan.tx_bytes.to_le_bytes();
        let tx_packets = vlan.tx_packets.to_le_bytes();
        let vid = vlan.vid.to_le_bytes();
        let flags = vlan.flags.to_le_bytes();
        FixedBuffer::from_bytes([
            rx_bytes[0],
            rx_bytes[1],
            rx_bytes[2],
            rx_bytes[3],
            rx_bytes[4],
            rx_bytes[5],
            rx_bytes[6],
            rx_bytes[7],
            rx_packets[0],
            rx_packets[1],
            rx_packets[2],
            rx_packets[3],
            rx_packets[4],
            rx_packets[5],
            rx_packets[6],
            rx_packets[7],
            tx_bytes[0],
            tx_bytes[1],
            tx_bytes[2],
            tx_bytes[3],
            tx_bytes[4],
            tx_bytes[5],
            tx_bytes[6],
            tx_bytes[7],
            tx_packets[0],
            tx_packets[1],
            tx_packets[2],
            tx_packets[3],
            tx_packets[4],
            tx_packets[5],
            tx_packets[6],
            tx_packets[7],
            vid[0],
            vid[1],
            flags[0],
            flags[1],
            0,
            0,
            0,
            0,
        ])
    }
}

impl BridgeVlanXstats {
    /// The counters at the front of a value; `TooSmall` where it has fewer than 40 bytes.
    pub fn parse(payload: &[u8]) -> Result<Self, DecodeError>
        ensures { result ≡ sized 40 payload.now (vlan_at payload.now) }
    {
        <BridgeVlanXstats as Fixed>::parse(payload)
    }
}

impl Emitable for BridgeVlanXstats {
    ghost text = { vlan_text };

    ghost fitting = { λ _. true };

    fn fits(&self) -> bool {
        true
    }

    fn buffer_len(&self) -> usize {
        STATS_LEN
    }

    fn emit(&self, buf: &mut [u8]) {
        emit_bytes(buf, &BridgeVlanXstatsBuffer::from(self).to_bytes());
    }
}

impl Fixed for BridgeVlanXstats {
    ghost LEN = { 40 };

    ghost read = { vlan_at };

    ghost ReadsBack = { ReadsBack };

    ghost is_short = { omega arith };

    ghost always_fits = { λ s. refl };

    ghost text_length = { length-vlan };

    ghost reads_back = { vlan-again };

    ghost read_reads_back = { vlan-read };

    const LEN: usize = STATS_LEN;

    fn at_front(bytes: &[u8]) -> Self {
        BridgeVlanXstats {
            rx_bytes: u64_at(bytes, 0),
            rx_packets: u64_at(bytes, 8),
            tx_bytes: u64_at(bytes, 16),
            tx_packets: u64_at(bytes, 24),
            vid: u16_at(bytes, 32),
            flags: u16_at(bytes, 34),
        }
    }
}
