//! Messages on address labels, by which a source address is chosen (RFC 6724).

mod attribute;
mod header;

pub use attribute::AddrLabelAttribute;
pub use header::{AddrLabelHeader, AddrLabelMessageBuffer};
use rt_other::Message;

/// A message on an address label.
pub type AddrLabelMessage = Message<AddrLabelHeader, AddrLabelAttribute>;
