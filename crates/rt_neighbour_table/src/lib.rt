//! Messages on neighbour tables: how the neighbours of a family are kept.
#![tactic(auto)]

mod attribute;
mod config;
mod header;
mod laws;
mod parameter;
mod stats;

pub use attribute::NeighbourTableAttribute;
pub use config::{NeighbourTableConfig, NeighbourTableConfigBuffer};
pub use header::{NeighbourTableHeader, NeighbourTableMessageBuffer};
pub use laws::neighbour_table_messages_read_back;
pub use parameter::NeighbourTableParameter;
use rt_other::Message;
pub use stats::{NeighbourTableStats, NeighbourTableStatsBuffer};

/// A message on a neighbour table.
pub type NeighbourTableMessage = Message<NeighbourTableHeader, NeighbourTableAttribute>;
