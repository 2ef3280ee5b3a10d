//! What a run is asked for.
ghost use Rattle.std.specs.Prelude.{◌≡◌};
ghost use Rattle.session_model.specs.Usual.{usual};

/// How a transcript is run: at most `limit` bytes of input; which replies that only end a number are handed on (no-ops,
/// ends of dumps, acknowledgements); the port and the routing table of the peer that a mirror follows; and the last
/// sequence number that counts as used.
#[derive(Clone, Copy, Debug, PartialEq, Eq)]
pub struct Settings {
    pub limit: u64,
    pub forward_noop: bool,
    pub forward_done: bool,
    pub forward_ack: bool,
    pub peer: u32,
    pub table: u32,
    pub start: u32,
}

impl Settings {
    /// 64 MiB of input, nothing more handed on, the kernel's port, the main routing table (RT_TABLE_MAIN), no number
    /// used.
    pub fn usual() -> Settings
        ensures { result ≡ usual }
    {
        Settings {
            limit: 67_108_864,
            forward_noop: false,
            forward_done: false,
            forward_ack: false,
            peer: 0,
            table: 254,
            start: 0,
        }
    }
}
