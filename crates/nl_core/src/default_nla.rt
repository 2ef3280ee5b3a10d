//! An attribute that is kept as it is.
#![tactic(auto, using(crate::proofs::Wire::writes))]

ghost use Rattle.std.specs.Prelude.{◌≡◌, Ok};
ghost use Rattle.nl_core.specs.Attribute.{default_at};

use crate::error::{DecodeError, NoMemory};
use crate::lists::Octets;
use crate::nla::{Nla, NlaBuffer};
use crate::numbers::emit_bytes;
use crate::parseable::Parseable;
use crate::try_clone::TryClone;
use std::alloc::Global;

/// An attribute of any type, its value as it stands.
#[derive(Debug, PartialEq, Eq, Drop)]
pub struct DefaultNla {
    /// The type with its flag bits.
    pub kind: u16,
    /// The value.
    pub value: Octets,
}

impl DefaultNla {
    /// An attribute of a type, with its flag bits, and a value.
    pub fn new(kind: u16, value: Octets) -> Self
        ensures { result ≡ record { kind = kind; value = value } }
    {
        DefaultNla { kind, value }
    }
}

impl<'a> Parseable<NlaBuffer<'a>> for DefaultNla {
    ghost reads = { λ bytes. Ok (default_at bytes) };

    fn parse(alloc: Global, buf: &NlaBuffer<'a>) -> Result<Self, DecodeError> {
        let value = Octets::from_vec(Vec::from_slice(alloc, buf.value())?);
        Ok(DefaultNla::new(buf.raw_kind(), value))
    }
}

impl Nla for DefaultNla {
    ghost kind_as_written = { λ n. n.kind };

    ghost value_text = { λ n. n.value };

    fn value_len(&self) -> usize {
        self.value.len()
    }

    fn emit_value(&self, buf: &mut [u8]) {
        emit_bytes(buf, self.value.as_slice());
    }

    fn kind(&self) -> u16 {
        self.kind
    }
}

impl TryClone for DefaultNla {
    fn clone_with(&self) -> Result<Self, NoMemory> {
        let value = self.value.clone_with()?;
        Ok(DefaultNla::new(self.kind, value))
    }
}
