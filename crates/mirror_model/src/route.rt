// Routes of a peer.
use session_model::{Address, Network};

/// A route: its network, its priority (the least one is preferred), its type (an `RTN_` number of
/// include/uapi/linux/rtnetlink.h), the index of the link that it leaves by, and its gateway.
#[derive(Clone, Copy, Debug, PartialEq, Eq)]
pub struct Route {
    pub network: Network,
    pub priority: u32,
    pub kind: u8,
    pub oif: Option<u32>,
    pub gateway: Option<Address>,
}
