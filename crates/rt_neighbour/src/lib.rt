//! Messages on neighbours: who is reached over which address of which link.
#![tactic(auto)]

mod address;
mod attribute;
mod cache_info;
mod flags;
mod header;
mod laws;
mod state;

pub use address::NeighbourAddress;
pub use attribute::NeighbourAttribute;
pub use cache_info::{NeighbourCacheInfo, NeighbourCacheInfoBuffer};
pub use flags::{NeighbourExtFlags, NeighbourFlags};
pub use header::{NeighbourHeader, NeighbourMessageBuffer};
pub use laws::neighbour_messages_read_back;
use rt_other::Message;
pub use state::NeighbourState;

/// A message on a neighbour.
pub type NeighbourMessage = Message<NeighbourHeader, NeighbourAttribute>;
