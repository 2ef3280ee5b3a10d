//! Messages of the routing family whose attributes are read: address labels, neighbours, neighbour
//! tables, network namespaces and prefixes.
#![tactic(auto)]

pub mod addrlabel;
mod laws;
pub mod nsid;
pub mod prefix;

pub use laws::{
    address_label_messages_read_back, namespace_messages_read_back, prefix_messages_read_back,
};
pub use rt_neighbour as neighbour;
pub use rt_neighbour_table as neighbour_table;
