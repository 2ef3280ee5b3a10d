//! What bridges count.

mod attribute;
mod mcast;
mod stp;
mod vlan;

pub use attribute::BridgeXstat;
pub use mcast::{BridgeMcastStats, BridgeMcastStatsBuffer};
pub use stp::{BridgeStpXstats, BridgeStpXstatsBuffer};
pub use vlan::{BridgeVlanXstats, BridgeVlanXstatsBuffer};
