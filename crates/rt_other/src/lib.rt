//! Messages of the routing family: routes whole, and links, addresses, rules and traffic control
//! with their attributes as they stand.
#![tactic(auto)]

mod address;
mod address_family;
mod ip;
mod laws;
mod link;
mod message;
mod route;
mod route_attribute;
mod rule;
mod stats64;
mod tc;
mod tc_action;

pub use address::{AddressHeader, AddressMessage};
pub use address_family::AddressFamily;
pub use ip::{IpAddr, Ipv4Addr, Ipv6Addr};
pub use laws::{
    address_messages_read_back, counters_read_back, link_messages_read_back,
    messages_fit_where_short, messages_read_back, read_messages_read_back,
    route_messages_read_back, rule_messages_read_back, tc_action_messages_read_back,
    tc_messages_read_back,
};
pub use link::{IFF_UP, LinkHeader, LinkMessage};
pub use message::{Attribute, Fixed, Header, Message};
pub use route::{RouteHeader, RouteMessage, RouteProtocol, RouteType};
pub use route_attribute::{RouteAddress, RouteAttribute};
pub use rule::{RuleHeader, RuleMessage};
pub use stats64::Stats64;
pub use tc::{TcHeader, TcMessage};
pub use tc_action::{TcActionHeader, TcActionMessage};
