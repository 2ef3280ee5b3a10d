//! Messages on statistics of links: what is counted of a link, by what keeps the counters.

mod af_spec;
mod attribute;
mod counters;
mod filter_mask;
mod header;
mod hw_stats;
mod hw_stats_info;
mod mpls;
mod offload;

pub use af_spec::{AfSpecStat, AfSpecStats};
pub use attribute::StatsAttribute;
pub use filter_mask::StatsFilterMask;
pub use header::{StatsHeader, StatsMessageBuffer};
pub use hw_stats::{HwStats64, HwStats64Buffer};
pub use hw_stats_info::HwStatsInfo;
pub use mpls::{MplsLinkStats, MplsLinkStatsBuffer};
pub use offload::OffloadXstat;
pub use rt_link_xstats::{
    Bond3adStats, BondXstat, BridgeMcastStats, BridgeMcastStatsBuffer, BridgeStpXstats,
    BridgeStpXstatsBuffer, BridgeVlanXstats, BridgeVlanXstatsBuffer, BridgeXstat, LinkXstatGroup,
};
use rt_other::Message;

/// A message on the statistics of a link.
pub type StatsMessage = Message<StatsHeader, StatsAttribute>;
