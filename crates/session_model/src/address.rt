//! Addresses of peers.
ghost use Rattle.std.specs.Prelude.{◌≡◌};

/// The address of a netlink peer, as `sockaddr_nl` of the kernel header linux/netlink.h: a port and a mask of multicast
/// groups.
#[derive(Clone, Copy, Debug, PartialEq, Eq)]
pub struct SocketAddr {
    pub port: u32,
    pub groups: u32,
}

impl SocketAddr {
    /// The address of this port and these groups.
    pub fn new(port: u32, groups: u32) -> Self
        ensures port { result.port ≡ port }
        ensures groups { result.groups ≡ groups }
    {
        SocketAddr { port, groups }
    }

    /// The port; 0 is the kernel's.
    pub fn port_number(&self) -> u32
        ensures { result ≡ self.now.port }
    {
        self.port
    }
}
