//! Extended statistics of links: what bridges and bonds count.
#![tactic(auto)]

mod bond;
mod bridge;
mod group;
mod laws;

pub use bond::{Bond3adStats, BondXstat};
pub use bridge::{
    BridgeMcastStats, BridgeMcastStatsBuffer, BridgeStpXstats, BridgeStpXstatsBuffer,
    BridgeVlanXstats, BridgeVlanXstatsBuffer, BridgeXstat,
};
pub use group::LinkXstatGroup;
pub use laws::{nested_lists_read_back, read_nested_lists_read_back};
