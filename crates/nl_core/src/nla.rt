//! Attributes: the one at the front of bytes, and those that are written.
//!
//! An attribute is `struct nlattr` of include/uapi/linux/netlink.h: its length and its type, two
//! bytes each, then its value, padded to a multiple of four.
#![tactic(auto, using(crate::proofs::Wire::writes))]

ghost use Rattle.std.specs.Prelude.{◌≡◌, ◌≤◌, ◌<◌, ◌+◌, ◌^◌, true, List, ℕ, length};
ghost use Rattle.nl_core.specs.Writing.{Writes, WritesAt, capped};
ghost use Rattle.nl_core.specs.Attribute.{attribute_text, attribute_fits, padded, is_checked, checked, raw_kind_of, kind_of, value_of, after};

use crate::emitable::{Emitable, put};
use crate::error::DecodeError;
use crate::numbers::{emit_u16, put_u16, put_zeros, u16_at};
use crate::parseable::Readable;
use std::marker::Model;

/// The length in bytes of an attribute's header.
pub const NLA_HEADER_LEN: usize = 4;

/// The length in bytes of the longest value: with its header the most that a length field can say.
pub const LONGEST_VALUE: usize = 65_531;

/// The bit of a type that says that the value is a list of attributes, of
/// include/uapi/linux/netlink.h as the next two.
pub const NLA_F_NESTED: u16 = 0x8000;
/// The bit of a type that says that the value is in network byte order.
pub const NLA_F_NET_BYTEORDER: u16 = 0x4000;
/// The bits of a type without its two flag bits.
pub const NLA_TYPE_MASK: u16 = 0x3fff;

/// An attribute that is written.
pub trait Nla {
    ghost kind_as_written: { Self → ℕ };

    ghost value_text: { Self → List ℕ };

    /// The count of bytes of the value, or the largest number where it is larger.
    fn value_len(&self) -> usize
        ensures { result ≡ capped (length (value_text self.now)) };

    /// Writes the value over the front of a buffer; what stands past it stays.
    fn emit_value(&self, buf: &mut [u8])
        requires fits { length (value_text self.now) ≤ 65531 }
        requires room { length (value_text self.now) ≤ length buf.old }
        ensures { Writes (value_text self.now) buf.old buf.new };

    /// The type as it is written, with its flag bits.
    fn kind(&self) -> u16
        ensures { result ≡ kind_as_written self.now };
}

// Writes the value at a place of a buffer.
fn put_value<N: Nla>(nla: &N, buf: &mut [u8], at: usize)
    requires fits { length (N.value_text nla.now) ≤ 65531 }
    requires room { at + length (N.value_text nla.now) ≤ length buf.old }
    ensures { WritesAt at (N.value_text nla.now) buf.old buf.new }
{
    nla.emit_value(&mut buf[at..]);
}

/// Rounds up to a multiple of four.
pub fn align(len: usize) -> usize
    requires { len + 3 < 2 ^ 64 }
    ensures { result ≡ padded len }
{
    (len + 3) / 4 * 4
}

impl<N: Nla> Emitable for N {
    ghost text = { λ n. attribute_text (N.kind_as_written n) (N.value_text n) };

    ghost fitting = { λ n. attribute_fits (N.value_text n) };

    fn fits(&self) -> bool {
        self.value_len() <= LONGEST_VALUE
    }

    fn buffer_len(&self) -> usize {
        NLA_HEADER_LEN + align(self.value_len())
    }

    fn emit(&self, buf: &mut [u8]) {
        let len = self.value_len();
        emit_u16(buf, (NLA_HEADER_LEN + len) as u16);
        put_u16(buf, 2, self.kind());
        put_value(self, buf, NLA_HEADER_LEN);
        put_zeros(buf, NLA_HEADER_LEN + len, align(len) - len);
    }
}

/// The attribute at the front of bytes; what follows it is not looked at.
#[derive(Drop)]
pub struct NlaBuffer<'a> {
    bytes: &'a [u8],
}

impl<'a> Model for NlaBuffer<'a> {
    ghost Value = { List ℕ };

    ghost view = { λ n. n.bytes.now };
}

impl<'a> Readable for NlaBuffer<'a> {
    ghost readable = { is_checked };
}

impl<'a> NlaBuffer<'a> {
    /// The bytes, whatever stands at their front.
    pub fn new(bytes: &'a [u8]) -> Self
        ensures { result ≡ bytes.now }
    {
        NlaBuffer { bytes }
    }

    /// The bytes, if an attribute stands at their front; else `BadAttribute`: fewer than four bytes
    /// are left, or its length is below four or above what is left.
    pub fn new_checked(bytes: &'a [u8]) -> Result<Self, DecodeError>
        ensures { result ≡ checked bytes.now }
    {
        if bytes.len() < NLA_HEADER_LEN {
            return Err(DecodeError::BadAttribute);
        }
        let len = u16_at(bytes, 0) as usize;
        if len < NLA_HEADER_LEN || bytes.len() < len {
            return Err(DecodeError::BadAttribute);
        }
        Ok(NlaBuffer { bytes })
    }

    /// The bytes.
    pub fn into_inner(&self) -> &'a [u8]
        ensures { result.now ≡ self.now }
    {
        self.bytes
    }

    /// The type without its flag bits, the low 14 bits.
    pub fn kind(&self) -> u16
        requires { is_checked self.now ≡ true }
        ensures { result ≡ kind_of self.now }
    {
        u16_at(self.bytes, 2) & NLA_TYPE_MASK
    }

    /// The type with its flag bits, `NLA_F_NESTED` and `NLA_F_NET_BYTEORDER`.
    pub fn raw_kind(&self) -> u16
        requires { is_checked self.now ≡ true }
        ensures { result ≡ raw_kind_of self.now }
    {
        u16_at(self.bytes, 2)
    }

    /// The value, without its padding.
    pub fn value(&self) -> &'a [u8]
        requires { is_checked self.now ≡ true }
        ensures { result.now ≡ value_of self.now }
    {
        let len = u16_at(self.bytes, 0) as usize;
        &self.bytes[NLA_HEADER_LEN..len]
    }

    /// What follows the attribute and its padding, which may be cut short.
    pub fn after(&self) -> &'a [u8]
        requires { is_checked self.now ≡ true }
        ensures value { result.now ≡ after self.now }
        ensures shorter { length result.now < length self.now }
    {
        let end = align(u16_at(self.bytes, 0) as usize);
        if end < self.bytes.len() {
            &self.bytes[end..]
        } else {
            &[]
        }
    }
}
