//! Lists of attributes: one walk over bytes for each type of attribute, and one way to write them.
#![tactic(auto, using(crate::proofs::Wire::writes))]

ghost use Rattle.std.specs.Iterator.{at_most};
ghost use Rattle.std.specs.Prelude.{⊤, ◌≡◌, ◌≤◌, true, List, ℕ, length};
ghost use Rattle.nl_core.specs.Writing.{Writes, capped};
ghost use Rattle.nl_core.specs.Attribute.{attribute_text, attributes_text, attributes_fit, is_checked, attributes, walk_item, walk_rest};
ghost use Rattle.nl_core.specs.Reading.{Gives};

use crate::emitable::{Emitable, put};
use crate::error::DecodeError;
use crate::header::LONGEST_FRAME;
use crate::lists::Items;
use crate::nla::{LONGEST_VALUE, NLA_HEADER_LEN, Nla, NlaBuffer, align};
use crate::parseable::{Parseable, ParseableParametrized};
use std::alloc::Global;
use std::marker::Model;

impl<X: Nla> Emitable for &[X] {
    ghost text = { λ xs. attributes_text X.kind_as_written X.value_text xs.now };

    ghost fitting = { λ xs. attributes_fit X.kind_as_written X.value_text xs.now };

    fn fits(&self) -> bool {
        let mut len: u64 = 16;
        for x in *self {
            let value_len = x.value_len();
            if value_len > LONGEST_VALUE {
                return false;
            }
            len = len.saturating_add((NLA_HEADER_LEN + align(value_len)) as u64);
        }
        len <= LONGEST_FRAME as u64
    }

    fn buffer_len(&self) -> usize {
        let mut len = 0;
        for x in *self {
            len += x.buffer_len();
        }
        len
    }

    fn emit(&self, buf: &mut [u8]) {
        let mut at = 0;
        for x in *self {
            put(x, buf, at);
            at += x.buffer_len();
        }
    }
}

/// The attributes of bytes, each read before the next one's header is looked at.
pub fn parse_attributes<'a, X: Parseable<NlaBuffer<'a>> + Drop>(
    alloc: Global,
    bytes: &'a [u8],
) -> Result<Items<X>, DecodeError>
    ensures { Gives result (attributes X.reads bytes.now) }
{
    parse_attributes_with(alloc, bytes, ())
}

/// The attributes of bytes, each read by one parameter before the next one's header is looked at.
pub fn parse_attributes_with<'a, P: Copy, X: ParseableParametrized<NlaBuffer<'a>, P> + Drop>(
    alloc: Global,
    bytes: &'a [u8],
    param: P,
) -> Result<Items<X>, DecodeError>
    ensures { Gives result (attributes (X.reads param) bytes.now) }
{
    let mut items = Items::new(alloc);
    let mut rest = bytes;
    while rest.len() > 0 {
        let nla = NlaBuffer::new_checked(rest)?;
        let item = X::parse_with_param(alloc, &nla, param)?;
        rest = nla.after();
        items.push(item)?;
    }
    Ok(items)
}

// The count of bytes of an attribute, or the largest number where it is larger.
fn attribute_len<X: Nla>(x: &X) -> usize
    ensures { result ≡ capped (length (attribute_text (X.kind_as_written x.now) (X.value_text x.now))) }
{
    let len = x.value_len();
    if len > usize::MAX - 7 {
        return usize::MAX;
    }
    NLA_HEADER_LEN + align(len)
}

/// The count of bytes of attributes, or the largest number where it is larger: the `value_len` of an
/// attribute whose value they are.
pub fn attributes_len<X: Nla>(xs: &[X]) -> usize
    ensures { result ≡ capped (length (attributes_text X.kind_as_written X.value_text xs.now)) }
{
    let mut len: usize = 0;
    for x in xs {
        len = len.saturating_add(attribute_len(x));
    }
    len
}

/// Writes attributes as the value of another one over the front of a buffer; what stands past them
/// stays.
pub fn emit_attributes<X: Nla>(xs: &[X], buf: &mut [u8])
    requires fits { length (attributes_text X.kind_as_written X.value_text xs.now) ≤ 65531 }
    requires room { length (attributes_text X.kind_as_written X.value_text xs.now) ≤ length buf.old }
    ensures { Writes (attributes_text X.kind_as_written X.value_text xs.now) buf.old buf.new }
{
    xs.emit(buf);
}

/// The attributes of bytes, one after the other. A fault is the last item.
#[derive(Drop)]
pub struct NlasIterator<'a> {
    rest: &'a [u8],
}

impl<'a> Model for NlasIterator<'a> {
    ghost Value = { List ℕ };

    ghost view = { λ n. n.rest.now };
}

impl<'a> NlasIterator<'a> {
    /// Over all attributes of the bytes.
    pub fn new(bytes: &'a [u8]) -> Self
        ensures { result ≡ bytes.now }
    {
        NlasIterator { rest: bytes }
    }
}

impl<'a> Iterator for NlasIterator<'a> {
    type Item = Result<NlaBuffer<'a>, DecodeError>;

    ghost can_next = { λ _. ⊤ };

    ghost next_gives = { λ s r t. (r ≡ walk_item s) × (t ≡ walk_rest s) };

    ghost remaining = { λ s. at_most (length s) };

    fn next(&mut self) -> Option<Result<NlaBuffer<'a>, DecodeError>> {
        if self.rest.len() == 0 {
            return None;
        }
        let bytes = self.rest;
        match NlaBuffer::new_checked(bytes) {
            Ok(nla) => {
                self.rest = nla.after();
                Some(Ok(nla))
            }
            Err(error) => {
                self.rest = &[];
                Some(Err(error))
            }
        }
    }
}
