//! A number that a request awaits.

/// A number that a request awaits from a port, under a tag of the caller's. `acks` says that the request asked for an
/// acknowledgement (flag NLM_F_ACK), so that a single reply doesn't end the number.
#[derive(Clone, Copy, Debug, PartialEq, Eq)]
pub struct Awaited<S> {
    pub number: u32,
    pub port: u32,
    pub stream: S,
    pub acks: bool,
}
