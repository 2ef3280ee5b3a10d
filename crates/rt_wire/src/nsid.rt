//! Messages on the numbers of network namespaces.

mod attribute;
mod header;

pub use attribute::NsidAttribute;
pub use header::{NsidHeader, NsidMessageBuffer};
use rt_other::Message;

/// A message on the number of a network namespace.
pub type NsidMessage = Message<NsidHeader, NsidAttribute>;
