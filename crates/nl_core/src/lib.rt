//! Netlink frames and attributes: headers, payloads, and the two directions between bytes and
//! messages.
#![tactic(auto)]

mod default_nla;
mod emitable;
mod error;
mod header;
mod laws;
mod lists;
mod message;
mod nla;
mod nla_list;
mod numbers;
mod parseable;
mod raw;
mod text;
mod try_clone;

pub use default_nla::DefaultNla;
pub use emitable::{Emitable, put};
pub use error::{DecodeError, NoMemory};
pub use header::{
    HEADER_LEN, LONGEST_FRAME, NLM_F_ACK, NLM_F_DUMP, NLM_F_DUMP_INTR, NLM_F_ECHO, NLM_F_MATCH,
    NLM_F_MULTIPART, NLM_F_REQUEST, NLM_F_ROOT, NLMSG_DONE, NLMSG_ERROR, NLMSG_NOOP, NLMSG_OVERRUN,
    NetlinkHeader,
};
pub use laws::{
    attributes_fit_where_short, attributes_read_back, attributes_read_left_to_right,
    frames_read_back, prefixes_refused, read_lists_read_back,
};
pub use lists::{Items, Octets};
pub use message::{
    DoneMessage, ErrorMessage, NetlinkDeserializable, NetlinkMessage, NetlinkPayload,
    NetlinkSerializable,
};
pub use nla::{NLA_F_NESTED, NLA_F_NET_BYTEORDER, NLA_TYPE_MASK, Nla, NlaBuffer};
pub use nla_list::{
    NlasIterator, attributes_len, emit_attributes, parse_attributes, parse_attributes_with,
};
pub use numbers::{
    emit_bytes, emit_i32, emit_u16, emit_u16_be, emit_u32, emit_u64, emit_u64s, i32_at, parse_i32,
    parse_u8, parse_u16, parse_u16_be, parse_u32, parse_u64, put_bytes, u16_at, u32_at, u64_at,
};
pub use parseable::{Parseable, ParseableParametrized, Readable};
pub use raw::RawMessage;
pub use text::{Text, parse_string};
pub use try_clone::TryClone;

#[cfg(test)]
mod attribute_tests;
#[cfg(test)]
mod tests;
