//! Configurations of neighbour tables.
#![tactic(auto, using(nl_core::proofs::Wire::writes, crate::proofs::Lengths::lengths))]

ghost use Rattle.std.specs.Prelude.{◌≡◌, true, refl};
ghost use Rattle.std.proofs.Common.{arith};
ghost use Rattle.nl_core.specs.Reading.{sized};
ghost use Rattle.rt_neighbour_table.specs.Config.{config_text, config_at, ReadsBack};
ghost use Rattle.rt_neighbour_table.specs.ConfigLaws.{length-config, config-again, config-read};

use nl_core::{DecodeError, Emitable, emit_bytes, u16_at, u32_at};
use rt_layout::FixedBuffer;
use rt_other::Fixed;

const CONFIG_LEN: usize = 32;

/// How a neighbour table is laid out and used, `struct ndt_config` of
/// include/uapi/linux/neighbour.h.
#[derive(Clone, Copy, Debug, PartialEq, Eq)]
pub struct NeighbourTableConfig {
    /// The length of a key in bytes.
    pub key_len: u16,
    /// The size of an entry in bytes.
    pub entry_size: u16,
    /// The count of entries.
    pub entries: u32,
    /// Since the last flush, in milliseconds.
    pub last_flush: u32,
    /// Since the reachable time was last chosen anew, in milliseconds.
    pub last_rand: u32,
    /// The seed of the hash.
    pub hash_rand: u32,
    /// The bits of the hash that choose a chain.
    pub hash_mask: u32,
    /// The chain at which the collector is, none so far.
    pub hash_chain_gc: u32,
    /// The count of waiting packets that are answered for by proxy.
    pub proxy_qlen: u32,
}

/// The bytes of a configuration of a neighbour table.
pub type NeighbourTableConfigBuffer = FixedBuffer<NeighbourTableConfig, 32>;

impl From<&NeighbourTableConfig> for NeighbourTableConfigBuffer {
    ghost from_gives = { λ h b. b ≡ config_text h.now };

    #[tactic(auto, unfolding(crate::specs::Config::config_text, nl_core::specs::Numbers::le16, nl_core::specs::Numbers::le32))]
    fn from(config: &NeighbourTableConfig) -> Self {
        let key_len = config.key_len.to_le_bytes();
        let entry_size = config.entry_size.to_le_bytes();
        let entries = config.entries.to_le_bytes();
        let last_flush = config.last_flush.to_le_bytes();
        let last_rand = config.last_rand.to_le_bytes();
        let hash_rand = config.hash_rand.to_le_bytes();
        let hash_mask = config.hash_mask.to_le_bytes();
        let hash_chain_gc = config.hash_chain_gc.to_le_bytes();
        let proxy_qlen = config.proxy_qlen.to_le_bytes();
        FixedBuffer::from_bytes([
            key_len[0],
            key_len[1],
            entry_size[0],
            entry_size[1],
            entries[0],
            entries[1],
            entries[2],
            entries[3],
            last_flush[0],
            last_flush[1],
            last_flush[2],
            last_flush[3],
            last_rand[0],
            last_rand[1],
            last_rand[2],
            last_rand[3],
            hash_rand[0],
            hash_rand[1],
            hash_rand[2],
            hash_rand[3],
            hash_mask[0],
            hash_mask[1],
            hash_mask[2],
            hash_mask[3],
            hash_chain_gc[0],
            hash_chain_gc[1],
            hash_chain_gc[2],
            hash_chain_gc[3],
            proxy_qlen[0],
            proxy_qlen[1],
            proxy_qlen[2],
            proxy_qlen[3],
        ])
    }
}

impl NeighbourTableConfig {
    /// The configuration at the front of a value; `TooSmall` where it has fewer than 32 bytes.
    pub fn parse(payload: &[u8]) -> Result<Self, DecodeError>
        ensures { result ≡ sized 32 payload.now (config_at payload.now) }
    {
        <NeighbourTableConfig as Fixed>::parse(payload)
    }
}

impl Emitable for NeighbourTableConfig {
    ghost text = { config_text };

    ghost fitting = { λ _. true };

    fn fits(&self) -> bool {
        true
    }

    fn buffer_len(&self) -> usize {
        CONFIG_LEN
    }

    fn emit(&self, buf: &mut [u8]) {
        emit_bytes(buf, &NeighbourTableConfigBuffer::from(self).to_bytes());
    }
}

impl Fixed for NeighbourTableConfig {
    ghost LEN = { 32 };

    ghost read = { config_at };

    ghost ReadsBack = { ReadsBack };

    ghost is_short = { omega arith };

    ghost always_fits = { λ h. refl };

    ghost text_length = { length-config };

    ghost reads_back = { config-again };

    ghost read_reads_back = { config-read };

    const LEN: usize = CONFIG_LEN;

    fn at_front(bytes: &[u8]) -> Self {
        NeighbourTableConfig {
            key_len: u16_at(bytes, 0),
            entry_size: u16_at(bytes, 2),
            entries: u32_at(bytes, 4),
            last_flush: u32_at(bytes, 8),
            last_rand: u32_at(bytes, 12),
            hash_rand: u32_at(bytes, 16),
            hash_mask: u32_at(bytes, 20),
            hash_chain_gc: u32_at(bytes, 24),
            proxy_qlen: u32_at(bytes, 28),
        }
    }
}
