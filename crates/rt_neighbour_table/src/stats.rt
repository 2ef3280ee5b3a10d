//! Counters of neighbour tables.
#![tactic(auto, using(nl_core::proofs::Wire::writes, crate::proofs::Lengths::lengths))]

ghost use Rattle.std.specs.Prelude.{◌≡◌, true, refl};
ghost use Rattle.std.proofs.Common.{arith};
ghost use Rattle.nl_core.specs.Reading.{sized};
ghost use Rattle.rt_neighbour_table.specs.Stats.{stats_text, stats_at, ReadsBack};
ghost use Rattle.rt_neighbour_table.specs.StatsLaws.{length-stats, stats-again, stats-read};

use nl_core::{DecodeError, Emitable, emit_bytes, u64_at};
use rt_layout::{FixedBuffer, bytes_of_u64s};
use rt_other::Fixed;

const STATS_LEN: usize = 88;

/// What was counted of a neighbour table, `struct ndt_stats` of
/// include/uapi/linux/neighbour.h.
#[derive(Clone, Copy, Debug, PartialEq, Eq)]
pub struct NeighbourTableStats {
    /// Entries that were made.
    pub allocs: u64,
    /// Entries that were dropped.
    pub destroys: u64,
    /// How often the hash grew.
    pub hash_grows: u64,
    /// Neighbours that did not answer.
    pub res_failed: u64,
    /// Look-ups.
    pub lookups: u64,
    /// Look-ups that found an entry.
    pub hits: u64,
    /// Questions that came by multicast.
    pub multicast_probes_received: u64,
    /// Questions that came by unicast.
    pub unicast_probes_received: u64,
    /// Runs of the collector by the clock.
    pub periodic_gc_runs: u64,
    /// Runs of the collector for want of room.
    pub forced_gc_runs: u64,
    /// How often the table was full.
    pub table_fulls: u64,
}

/// The bytes of the counters of a neighbour table.
pub type NeighbourTableStatsBuffer = FixedBuffer<NeighbourTableStats, 88>;

impl From<&NeighbourTableStats> for NeighbourTableStatsBuffer {
    ghost from_gives = { λ h b. b ≡ stats_text h.now };

    #[tactic(auto, unfolding(crate::specs::Stats::stats_text))]
    fn from(stats: &NeighbourTableStats) -> Self {
        FixedBuffer::from_bytes(bytes_of_u64s(&[
            stats.allocs,
            stats.destroys,
            stats.hash_grows,
            stats.res_failed,
            stats.lookups,
            stats.hits,
            stats.multicast_probes_received,
            stats.unicast_probes_received,
            stats.periodic_gc_runs,
            stats.forced_gc_runs,
            stats.table_fulls,
        ]))
    }
}

impl NeighbourTableStats {
    /// The counters at the front of a value; `TooSmall` where it has fewer than 88 bytes.
    pub fn parse(payload: &[u8]) -> Result<Self, DecodeError>
        ensures { result ≡ sized 88 payload.now (stats_at payload.now) }
    {
        <NeighbourTableStats as Fixed>::parse(payload)
    }
}

impl Emitable for NeighbourTableStats {
    ghost text = { stats_text };

    ghost fitting = { λ _. true };

    fn fits(&self) -> bool {
        true
    }

    fn buffer_len(&self) -> usize {
        STATS_LEN
    }

    fn emit(&self, buf: &mut [u8]) {
        emit_bytes(buf, &NeighbourTableStatsBuffer::from(self).to_bytes());
    }
}

impl Fixed for NeighbourTableStats {
    ghost LEN = { 88 };

    ghost read = { stats_at };

    ghost ReadsBack = { ReadsBack };

    ghost is_short = { omega arith };

    ghost always_fits = { λ h. refl };

    ghost text_length = { length-stats };

    ghost reads_back = { stats-again };

    ghost read_reads_back = { stats-read };

    const LEN: usize = STATS_LEN;

    fn at_front(bytes: &[u8]) -> Self {
        NeighbourTableStats {
            allocs: u64_at(bytes, 0),
            destroys: u64_at(bytes, 8),
            hash_grows: u64_at(bytes, 16),
            res_failed: u64_at(bytes, 24),
            lookups: u64_at(bytes, 32),
            hits: u64_at(bytes, 40),
            multicast_probes_received: u64_at(bytes, 48),
            unicast_probes_received: u64_at(bytes, 56),
            periodic_gc_runs: u64_at(bytes, 64),
            forced_gc_runs: u64_at(bytes, 72),
            table_fulls: u64_at(bytes, 80),
        }
    }
}
