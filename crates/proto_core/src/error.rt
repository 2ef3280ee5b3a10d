//! Why a call on a connection is refused.
ghost use Rattle.std.specs.Prelude.{◌≡◌, Some};
ghost use Rattle.proto_core.specs.ErrorText.{error_of, error_text};
ghost use Rattle.proto_core.specs.declared.error.NetlinkProtoError.TheVariants.{NetlinkError, NoMemory as OutOfMemory, SocketIo};

use crate::request::RequestRefusal;
use nl_core::{ErrorMessage, NoMemory};
use std::alloc::AllocError;
use std::fmt;

/// A fault of a link, by its code.
#[derive(Clone, Copy, Debug, PartialEq, Eq)]
pub struct LinkFault {
    pub code: i32,
}

/// Why a call on a connection is refused.
#[derive(Debug, PartialEq, Eq, Drop)]
pub enum NetlinkProtoError {
    /// The link closed, or no requests are taken any more.
    ConnectionClosed,
    /// A reply was an error.
    NetlinkError(ErrorMessage),
    /// Reading or writing failed.
    SocketIo(LinkFault),
    /// The numbers would pass 4,294,967,295: so many are used, and so many are asked for.
    SequenceExhausted { used: u32, asked: u64 },
    /// The first message that has no frame, by its place.
    Unfit { index: usize },
    NoMemory,
}

impl fmt::Display for NetlinkProtoError {
    ghost output = { λ e. Some (error_text e) };

    fn fmt<W: fmt::Write>(&self, f: &mut fmt::Formatter<W>) -> fmt::Result {
        match self {
            NetlinkProtoError::ConnectionClosed => f.write_str("the netlink connection is closed"),
            NetlinkProtoError::NetlinkError(_) => {
                f.write_str("received an error message as a response")
            }
            NetlinkProtoError::SocketIo(fault) => {
                let code = fault.code;
                write!(
                    f,
                    "error while reading from or writing to the netlink socket: {code}"
                )
            }
            NetlinkProtoError::SequenceExhausted { used, asked } => {
                write!(
                    f,
                    "sequence numbers are used up: {used} used, {asked} asked"
                )
            }
            NetlinkProtoError::Unfit { index } => write!(f, "message {index} does not fit"),
            NetlinkProtoError::NoMemory => f.write_str("out of memory"),
        }
    }
}

impl From<ErrorMessage> for NetlinkProtoError {
    ghost from_gives = { λ message e. e ≡ NetlinkError message };

    fn from(message: ErrorMessage) -> Self {
        NetlinkProtoError::NetlinkError(message)
    }
}

impl From<LinkFault> for NetlinkProtoError {
    ghost from_gives = { λ fault e. e ≡ SocketIo fault };

    fn from(fault: LinkFault) -> Self {
        NetlinkProtoError::SocketIo(fault)
    }
}

impl From<RequestRefusal> for NetlinkProtoError {
    ghost from_gives = { λ refusal e. e ≡ error_of refusal };

    fn from(refusal: RequestRefusal) -> Self {
        match refusal {
            RequestRefusal::SequenceExhausted { used, asked } => {
                NetlinkProtoError::SequenceExhausted { used, asked }
            }
            RequestRefusal::Unfit { index } => NetlinkProtoError::Unfit { index },
            RequestRefusal::NoMemory => NetlinkProtoError::NoMemory,
        }
    }
}

impl From<NoMemory> for NetlinkProtoError {
    ghost from_gives = { λ _ e. e ≡ OutOfMemory };

    fn from(_: NoMemory) -> Self {
        NetlinkProtoError::NoMemory
    }
}

impl From<AllocError> for NetlinkProtoError {
    ghost from_gives = { λ _ e. e ≡ OutOfMemory };

    fn from(_: AllocError) -> Self {
        NetlinkProtoError::NoMemory
    }
}
