//! Messages on prefixes that routers announce.

mod attribute;
mod cache_info;
mod header;

pub use attribute::PrefixAttribute;
pub use cache_info::{CacheInfo, CacheInfoBuffer};
pub use header::{PrefixHeader, PrefixMessageBuffer};
use rt_other::Message;

/// A message on a prefix that a router announced.
pub type PrefixMessage = Message<PrefixHeader, PrefixAttribute>;
