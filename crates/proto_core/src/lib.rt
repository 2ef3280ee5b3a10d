//! The session and the codec of netlink: requests get numbers, replies find the request that awaits
//! them, and datagrams are cut into messages.
#![tactic(auto)]

mod codec;
mod error;
mod laws;
mod messages;
mod pending;
mod protocol;
mod request;

pub use codec::{CodecError, Decoded, NetlinkCodec, NetlinkMessageCodec, read_frame};
pub use error::{LinkFault, NetlinkProtoError};
pub use laws::codec_follows_cut;
pub use messages::{Handled, Incoming, Outgoing, Place, Response};
pub use protocol::Protocol;
pub use request::{
    ExpectResponse, ReplyExpectation, Request, RequestRefusal, check_batch, wants_reply,
};
pub use session_model::SocketAddr;

#[cfg(test)]
mod tests;
