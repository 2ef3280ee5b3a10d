//! The type of the inner messages of a session, and the connection that it runs over. Its format is named in specs/Format.
use proto_conn::{Connection, TapeLink};
use proto_core::NetlinkCodec;
use rt_dispatch::RouteNetlinkMessage;

/// What a frame's payload is read as: a message of the routing family, by its type.
pub type Message = RouteNetlinkMessage;

/// A connection over a link in memory.
pub type RouteConnection = Connection<Message, TapeLink, NetlinkCodec>;
